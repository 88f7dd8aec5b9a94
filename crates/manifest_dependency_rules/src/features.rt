//! Rules of [`[features]`](https://doc.rust-lang.org/cargo/reference/features.html).

use manifest_rules::codes::{
    DEFAULT_FEATURES_FEATURE, DEPENDENCY_NOT_OPTIONAL, FEATURE_ENABLES_ITSELF,
    INVALID_FEATURE_NAME, INVALID_FEATURE_REFERENCE, UNKNOWN_FEATURE, UNREACHABLE_DEPENDENCY,
};
use manifest_rules::look::{Look, flag_in, items_in, table_in};
use manifest_rules::report::{At, File, Out, Part};
use manifest_rules::words::{Word, WrongWord, say_wrong_word};
use std::alloc::AllocError;
use std::collections::{BTreeMap, BTreeSet};
use toml::{Table, Value};

/// What an item of a feature's list names.
#[derive(Clone, Copy)]
pub(crate) enum Reference<'a> {
    /// `x`
    Feature(&'a str),
    /// `dep:x`
    Dependency(&'a str),
    /// `x/feature`, or `x?/feature`, which is weak.
    FeatureOf {
        dependency: &'a str,
        feature: &'a str,
        is_weak: bool,
    },
}

impl<'a> Reference<'a> {
    /// What the text names.
    pub(crate) fn new(text: &'a str) -> Reference<'a> {
        if let Some((front, feature)) = text.split_once('/') {
            let weak = front.strip_suffix('?');
            return Reference::FeatureOf {
                dependency: weak.unwrap_or(front),
                feature,
                is_weak: weak.is_some(),
            };
        }
        match text.strip_prefix("dep:") {
            Some(dependency) => Reference::Dependency(dependency),
            None => Reference::Feature(text),
        }
    }

    /// The dependency that it enables, or of which it enables a feature.
    fn dependency(self) -> Option<&'a str> {
        match self {
            Reference::Feature(_name) => None,
            Reference::Dependency(name) => Some(name),
            Reference::FeatureOf { dependency, .. } => Some(dependency),
        }
    }

    /// Whether no dependency can be meant: `dep:` with `/`, or two `/`.
    fn is_invalid(self) -> bool {
        match self {
            Reference::FeatureOf {
                dependency,
                feature,
                ..
            } => dependency.starts_with("dep:") || feature.contains('/'),
            _ => false,
        }
    }
}

/// A dependency of the package.
#[derive(Clone, Copy)]
struct Declared {
    /// The index of a table where it is declared; of one where it is optional, if there is any.
    table: usize,
    is_optional: bool,
}

/// What the rules of features look at.
#[derive(Drop)]
struct Known<'a> {
    features: &'a Table,
    dependencies: BTreeMap<&'a str, Declared>,
    /// What stands after `dep:`.
    named: BTreeSet<&'a str>,
    /// The dependencies that features enable.
    enabled: BTreeSet<&'a str>,
}

impl<'a> Known<'a> {
    fn new(look: &Look<'a>, features: &'a Table) -> Result<Known<'a>, AllocError> {
        let alloc = look.alloc;
        let mut known = Known {
            features,
            dependencies: BTreeMap::new(alloc),
            named: BTreeSet::new(alloc),
            enabled: BTreeSet::new(alloc),
        };
        known.add_dependencies(look)?;
        for (name, _items) in features {
            known.add_references(items_in(features, name.as_str()))?;
        }
        Ok(known)
    }

    fn add_dependencies(&mut self, look: &Look<'a>) -> Result<(), AllocError> {
        for (table, declared) in look.dependencies.iter().enumerate() {
            if !declared.section.is_of_package() {
                continue;
            }
            for (name, value) in declared.table {
                let is_optional = match value {
                    Value::Table(detail) => flag_in(detail, "optional") == Some(true),
                    _ => false,
                };
                self.add_dependency(name.as_str(), Declared { table, is_optional })?;
            }
        }
        Ok(())
    }

    fn add_dependency(&mut self, name: &'a str, declared: Declared) -> Result<(), AllocError> {
        let is_known = match self.dependencies.get(&name) {
            Some(before) => before.is_optional || !declared.is_optional,
            None => false,
        };
        if !is_known {
            self.dependencies.insert(name, declared)?;
        }
        Ok(())
    }

    fn add_references(&mut self, items: &'a [Value]) -> Result<(), AllocError> {
        for item in items {
            let Value::String(text) = item else {
                continue;
            };
            let reference = Reference::new(text.as_str());
            if let Reference::Dependency(name) = reference {
                self.named.insert(name)?;
            }
            if let Some(name) = reference.dependency() {
                self.enabled.insert(name)?;
            }
        }
        Ok(())
    }

    fn has_feature(&self, name: &str) -> bool {
        self.features.contains_key(name)
    }

    /// The other feature or the optional dependency whose name is nearest to that of an item.
    fn nearest(&self, item: &Item<'a>, out: &mut Out) -> Option<&'a str> {
        let mut nearest = out.nearest(item.text);
        for (name, _items) in self.features {
            if name.as_str() != item.feature {
                out.offer(&mut nearest, name.as_str());
            }
        }
        for (name, declared) in &self.dependencies {
            if declared.is_optional {
                out.offer(&mut nearest, *name);
            }
        }
        nearest.found()
    }

    /// The dependency whose name is nearest to this one.
    fn nearest_dependency(&self, name: &'a str, out: &mut Out) -> Option<&'a str> {
        let mut nearest = out.nearest(name);
        for (other, _declared) in &self.dependencies {
            out.offer(&mut nearest, *other);
        }
        nearest.found()
    }
}

/// An item of a feature's list.
#[derive(Clone, Copy)]
struct Item<'a> {
    feature: &'a str,
    index: usize,
    text: &'a str,
    reference: Reference<'a>,
}

impl<'a> Item<'a> {
    fn path(&self) -> [At<'a>; 3] {
        [
            At::Key("features"),
            At::Key(self.feature),
            At::Index(self.index),
        ]
    }

    /// The suggestion to write another item.
    fn instead(&self, text: &str, out: &mut Out) {
        out.set_text(&self.path(), &[], text, false, &["write `{}`", text]);
    }
}

/// All rules of features.
pub fn features(look: &Look<'_>, out: &mut Out) {
    let Some(features) = table_in(look.document, "features") else {
        return;
    };
    let Some(known) = out.made(Known::new(look, features)) else {
        return;
    };
    for (name, _items) in features {
        let feature = name.as_str();
        invalid_feature_name(feature, out);
        default_features_feature(&known, feature, out);
        for (index, value) in items_in(features, feature).iter().enumerate() {
            if let Value::String(text) = value {
                let item = Item {
                    feature,
                    index,
                    text: text.as_str(),
                    reference: Reference::new(text.as_str()),
                };
                rules_of_item(look, &known, &item, out);
            }
        }
        unreachable_dependency(look, &known, feature, out);
    }
}

fn rules_of_item<'a>(look: &Look<'a>, known: &Known<'a>, item: &Item<'a>, out: &mut Out) {
    if item.reference.is_invalid() {
        invalid_feature_reference(item, out);
        return;
    }
    feature_enables_itself(item, out);
    unknown_feature(known, item, out);
    feature_of_unknown_dependency(known, item, out);
    dependency_not_optional(look, known, item, out);
}

fn invalid_feature_name(name: &str, out: &mut Out) {
    let Some(fault) = Word::Feature.fault(name) else {
        return;
    };
    let path = [At::Key("features"), At::Key(name)];
    if name.starts_with("dep:") {
        let words = [
            "feature named `{}` is not allowed to start with `dep:`",
            name,
        ];
        out.key(INVALID_FEATURE_NAME, &path, &[], &words);
        return;
    }
    let wrong = WrongWord {
        what: "feature name",
        word: name,
        fault,
    };
    say_wrong_word(INVALID_FEATURE_NAME, Part::Key, &path, &[], &wrong, out);
    out.note(&[Word::Feature.rule()]);
}

fn feature_enables_itself(item: &Item<'_>, out: &mut Out) {
    if item.text != item.feature {
        return;
    }
    let path = item.path();
    let words = ["feature `{}` depends on itself", item.feature];
    out.value(FEATURE_ENABLES_ITSELF, &path, &[], &words);
    out.note(&["Cargo refuses this where the feature is enabled"]);
    out.remove(&path, &[], true, &["remove it from its own list"]);
}

fn default_features_feature(known: &Known<'_>, name: &str, out: &mut Out) {
    if name != "default-features" {
        return;
    }
    let path = [At::Key("features"), At::Key(name)];
    let words = ["`default-features` is a feature like any other"];
    out.key(DEFAULT_FEATURES_FEATURE, &path, &[], &words);
    out.note(&["the feature that is enabled by default is named `default`"]);
    if known.has_feature("default") {
        return;
    }
    out.rename(&path, &[], "default", false, &["name it `default`"]);
}

fn invalid_feature_reference(item: &Item<'_>, out: &mut Out) {
    let Item { feature, text, .. } = *item;
    let path = item.path();
    let Some(bare) = text.strip_prefix("dep:") else {
        let words = [
            "multiple slashes in feature `{}` (included by feature `{}`)",
            text,
            feature,
        ];
        out.value(INVALID_FEATURE_REFERENCE, &path, &[], &words);
        return;
    };
    let words = [
        "feature `{}` includes `{}` with both `dep:` and `/`",
        feature,
        text,
    ];
    out.value(INVALID_FEATURE_REFERENCE, &path, &[], &words);
    let help = ["write `{}`, which enables the dependency too", bare];
    out.set_text(&path, &[], bare, false, &help);
}

/// `x` is a feature, or an optional dependency that has its feature.
fn unknown_feature<'a>(known: &Known<'a>, item: &Item<'a>, out: &mut Out) {
    let Reference::Feature(name) = item.reference else {
        return;
    };
    if known.has_feature(name) {
        return;
    }
    match known.dependencies.get(&name) {
        None => unknown_name(known, item, out),
        Some(declared) if declared.is_optional && known.named.contains(&name) => {
            without_feature(item, out);
        }
        Some(_declared) => {}
    }
}

fn unknown_name<'a>(known: &Known<'a>, item: &Item<'a>, out: &mut Out) {
    let near = known.nearest(item, out);
    let words = [
        "feature `{}` includes `{}` which is neither a dependency nor another feature",
        item.feature,
        item.text,
    ];
    out.value(UNKNOWN_FEATURE, &item.path(), &[], &words);
    if let Some(near) = near {
        item.instead(near, out);
    }
}

/// Says that an optional dependency has no feature of its name.
fn without_feature(item: &Item<'_>, out: &mut Out) {
    let Item { feature, text, .. } = *item;
    let words = [
        "feature `{}` includes `{}`, but `{}` is an optional dependency without an implicit feature",
        feature,
        text,
        text,
    ];
    out.value(UNKNOWN_FEATURE, &item.path(), &[], &words);
    out.note(&["a dependency that is named by `dep:` anywhere has no feature of its own name"]);
    let instead = out.text(["dep:", text].concat(out.alloc));
    item.instead(instead.as_str(), out);
}

/// What stands after `dep:` and before `/` is a dependency.
fn feature_of_unknown_dependency<'a>(known: &Known<'a>, item: &Item<'a>, out: &mut Out) {
    let Some(name) = item.reference.dependency() else {
        return;
    };
    if known.dependencies.contains_key(&name) {
        return;
    }
    let near = known.nearest_dependency(name, out);
    let words = [
        "feature `{}` includes `{}`, but `{}` is not a dependency",
        item.feature,
        item.text,
        name,
    ];
    out.value(UNKNOWN_FEATURE, &item.path(), &[], &words);
    if let Some(near) = near {
        out.help(&["a dependency with a similar name exists: `{}`", near]);
    }
}

/// The dependency that the item names and that has to be optional: by `x`, `dep:x` or `x?/feature`.
fn wanted_optional<'a>(known: &Known<'a>, item: &Item<'a>) -> Option<&'a str> {
    match item.reference {
        Reference::Feature(name) if !known.has_feature(name) => Some(name),
        Reference::Dependency(name) => Some(name),
        Reference::FeatureOf {
            dependency,
            is_weak: true,
            ..
        } => Some(dependency),
        _ => None,
    }
}

/// A dependency that `x`, `dep:x` or `x?/feature` names is optional.
fn dependency_not_optional<'a>(look: &Look<'a>, known: &Known<'a>, item: &Item<'a>, out: &mut Out) {
    let Some(name) = wanted_optional(known, item) else {
        return;
    };
    let Some(declared) = known.dependencies.get(&name) else {
        return;
    };
    if declared.is_optional {
        return;
    }
    let words = [
        "feature `{}` includes `{}`, but `{}` is not an optional dependency",
        item.feature,
        item.text,
        name,
    ];
    out.value(DEPENDENCY_NOT_OPTIONAL, &item.path(), &[], &words);
    if let Some(table) = look.dependencies.get(declared.table) {
        make_optional(table.path.as_slice(), name, item, out);
    }
}

/// Where the dependency is declared, and what to write there or in its place.
fn make_optional(table: &[At<'_>], name: &str, item: &Item<'_>, out: &mut Out) {
    let label = ["it is declared here without `optional = true`"];
    out.label(File::Own, Part::Key, table, &[At::Key(name)], &label);
    if let Some((bare, of)) = item.text.split_once("?/") {
        let strong = out.text([bare, "/", of].concat(out.alloc));
        item.instead(strong.as_str(), out);
        return;
    }
    out.help(&["add `optional = true` to the dependency `{}`", name]);
}

/// A feature that hides the optional dependency of its name does not keep it from being enabled.
fn unreachable_dependency<'a>(look: &Look<'a>, known: &Known<'a>, name: &'a str, out: &mut Out) {
    let Some(declared) = known.dependencies.get(&name) else {
        return;
    };
    if !declared.is_optional || known.enabled.contains(&name) {
        return;
    }
    let Some(table) = look.dependencies.get(declared.table) else {
        return;
    };
    let words = [
        "optional dependency `{}` is not included in any feature",
        name,
    ];
    let base = table.path.as_slice();
    out.key(UNREACHABLE_DEPENDENCY, base, &[At::Key(name)], &words);
    let path = [At::Key("features"), At::Key(name)];
    let label = ["this feature stands in place of the one that would enable it"];
    out.label(File::Own, Part::Key, &path, &[], &label);
    let end = At::Index(items_in(known.features, name).len());
    let item = out.text(["dep:", name].concat(out.alloc));
    let help = ["include `dep:{}` in a feature", name];
    out.insert_text(&path, &[end], item.as_str(), false, &help);
}
