//! Where a text names a feature or a dependency, and the edits that give it another name.

use crate::forms::is_of_dependencies;
use crate::hover::value_at;
use crate::spots::{ITEM, names_of, value_by};
use manifest_json::Text;
use manifest_places::{Edit, Places, Span, Step};
use std::alloc::{AllocError, Global};
use toml::{Table, Value};

/// A feature, or a dependency by its key.
#[derive(Clone, Copy)]
pub(crate) struct Named<'a> {
    pub(crate) name: &'a str,
    is_feature: bool,
}

/// A place at which it is named.
#[derive(Drop)]
pub(crate) struct Use {
    path: Vec<Step>,
    /// The text of an item; `None` where it is a key.
    item: Option<String>,
}

/// The lists of targets, and the one target that is no list.
const TARGETS: [&str; 5] = ["lib", "bin", "example", "test", "bench"];

/// The name that an item of a feature has, and whether it is that of a dependency by its form, as of `dep:a` and of `a?/b`.
fn name_in(item: &str) -> (&str, bool) {
    if let Some(name) = item.strip_prefix("dep:") {
        return (name, true);
    }
    match item.split_once('/') {
        Some((name, _feature)) => (name.strip_suffix('?').unwrap_or(name), true),
        None => (item, false),
    }
}

/// The features of a document.
fn features_of(document: &Table) -> Option<&Table> {
    match document.get("features") {
        Some(Value::Table(features)) => Some(features),
        _ => None,
    }
}

/// Whether a document has a feature of this name.
fn has_feature(document: &Table, name: &str) -> bool {
    match features_of(document) {
        Some(features) => features.contains_key(name),
        None => false,
    }
}

/// What an item of a feature names.
fn named_by<'a>(document: &Table, item: &'a str) -> Named<'a> {
    let (name, is_dependency) = name_in(item);
    Named {
        name,
        is_feature: !is_dependency && has_feature(document, name),
    }
}

/// The feature or the dependency that stands at a path.
pub(crate) fn named_at<'a>(
    alloc: Global,
    document: &'a Table,
    path: &'a [Step],
) -> Result<Option<Named<'a>>, AllocError> {
    let names = names_of(alloc, path)?;
    let found = match names.as_slice() {
        ["features", _feature, item] if *item == ITEM => {
            match value_by(document, path) {
                Some(Value::String(item)) => Some(named_by(document, item.as_str())),
                _ => None,
            }
        }
        ["features", name] => Some(Named {
            name: *name,
            is_feature: true,
        }),
        [section, name] if is_of_dependencies(*section) => Some(Named {
            name: *name,
            is_feature: false,
        }),
        ["target", _platform, section, name] if is_of_dependencies(*section) => Some(Named {
            name: *name,
            is_feature: false,
        }),
        _ => None,
    };
    Ok(found)
}

/// A path of keys, and an index at its end where there is one.
fn path_of(alloc: Global, names: &[&str], index: Option<usize>) -> Result<Vec<Step>, AllocError> {
    let mut path = Vec::new(alloc);
    for name in names {
        path.push(Step::Key(String::from_str(alloc, *name)?))?;
    }
    if let Some(index) = index {
        path.push(Step::Index(index))?;
    }
    Ok(path)
}

/// Gathers the items of a list that name it.
fn push_items(
    alloc: Global,
    uses: &mut Vec<Use>,
    document: &Table,
    names: &[&str],
    value: &Value,
    named: Named<'_>,
) -> Result<(), AllocError> {
    let Value::Array(items) = value else {
        return Ok(());
    };
    for (index, item) in items.iter().enumerate() {
        if let Value::String(text) = item {
            let other = named_by(document, text.as_str());
            if other.name == named.name && other.is_feature == named.is_feature {
                uses.push(Use {
                    path: path_of(alloc, names, Some(index))?,
                    item: Some(text.clone()?),
                })?;
            }
        }
    }
    Ok(())
}

/// Gathers the key of this name in a table.
fn push_key(
    alloc: Global,
    uses: &mut Vec<Use>,
    table: Option<&Value>,
    names: &[&str],
    name: &str,
) -> Result<(), AllocError> {
    if let Some(Value::Table(table)) = table {
        if table.contains_key(name) {
            let mut path = path_of(alloc, names, None)?;
            path.push(Step::Key(String::from_str(alloc, name)?))?;
            uses.push(Use { path, item: None })?;
        }
    }
    Ok(())
}

/// Gathers the keys of a dependency.
fn push_dependencies(
    alloc: Global,
    uses: &mut Vec<Use>,
    document: &Table,
    name: &str,
) -> Result<(), AllocError> {
    for (section, value) in document {
        let section = section.as_str();
        if is_of_dependencies(section) {
            push_key(alloc, uses, Some(value), &[section], name)?;
        }
    }
    let Some(Value::Table(platforms)) = document.get("target") else {
        return Ok(());
    };
    for (platform, value) in platforms {
        let Value::Table(sections) = value else {
            continue;
        };
        for (section, value) in sections {
            let (platform, section) = (platform.as_str(), section.as_str());
            if is_of_dependencies(section) {
                push_key(
                    alloc,
                    uses,
                    Some(value),
                    &["target", platform, section],
                    name,
                )?;
            }
        }
    }
    Ok(())
}

/// Gathers the features that name it.
fn push_features(
    alloc: Global,
    uses: &mut Vec<Use>,
    document: &Table,
    named: Named<'_>,
) -> Result<(), AllocError> {
    if named.is_feature {
        push_key(
            alloc,
            uses,
            document.get("features"),
            &["features"],
            named.name,
        )?;
    }
    let Some(features) = features_of(document) else {
        return Ok(());
    };
    for (feature, value) in features {
        push_items(
            alloc,
            uses,
            document,
            &["features", feature.as_str()],
            value,
            named,
        )?;
    }
    Ok(())
}

/// The steps from a target to the features that it requires.
fn required_of(alloc: Global, target: &str, index: usize) -> Result<Vec<Step>, AllocError> {
    let mut path = path_of(alloc, &[target], Some(index))?;
    path.push(Step::Key(String::from_str(alloc, "required-features")?))?;
    Ok(path)
}

/// Gathers a place that has this path from another one.
fn push_below(
    alloc: Global,
    uses: &mut Vec<Use>,
    above: &[Step],
    found: Use,
) -> Result<(), AllocError> {
    let Use { path, item } = found;
    let mut whole = manifest_rules::copied(alloc, above)?;
    for step in path {
        whole.push(step)?;
    }
    uses.push(Use { path: whole, item })?;
    Ok(())
}

/// Gathers the items that name it of the features that a target requires, which stand at this path.
fn push_required(
    alloc: Global,
    uses: &mut Vec<Use>,
    document: &Table,
    path: &[Step],
    value: &Value,
    named: Named<'_>,
) -> Result<(), AllocError> {
    let mut found = Vec::new(alloc);
    push_items(alloc, &mut found, document, &[], value, named)?;
    for one in found {
        push_below(alloc, uses, path, one)?;
    }
    Ok(())
}

/// Gathers the targets that require it.
fn push_targets(
    alloc: Global,
    uses: &mut Vec<Use>,
    document: &Table,
    named: Named<'_>,
) -> Result<(), AllocError> {
    for target in &TARGETS {
        let Some(Value::Array(items)) = document.get(*target) else {
            continue;
        };
        for (index, item) in items.iter().enumerate() {
            if let Some(value) = item.get("required-features") {
                let path = required_of(alloc, *target, index)?;
                push_required(alloc, uses, document, path.as_slice(), value, named)?;
            }
        }
    }
    Ok(())
}

/// All places at which a feature or a dependency is named.
pub(crate) fn uses_of(
    alloc: Global,
    document: &Table,
    named: Named<'_>,
) -> Result<Vec<Use>, AllocError> {
    let mut uses = Vec::new(alloc);
    push_features(alloc, &mut uses, document, named)?;
    push_targets(alloc, &mut uses, document, named)?;
    if !named.is_feature {
        push_dependencies(alloc, &mut uses, document, named.name)?;
    }
    Ok(uses)
}

/// An item of a list with another name, as it is written.
fn renamed_item(alloc: Global, item: &str, name: &str) -> Result<String, AllocError> {
    let mut text = Text::new(alloc);
    if item.starts_with("dep:") {
        text.push_str("dep:");
    }
    text.push_str(name);
    if let Some((old, rest)) = item.split_once('/') {
        text.push_str(if old.ends_with('?') { "?/" } else { "/" });
        text.push_str(rest);
    }
    let text = text.finish()?;
    quoted(alloc, text.as_str())
}

/// A text as it is written in a manifest.
fn quoted(alloc: Global, text: &str) -> Result<String, AllocError> {
    let value = Value::string(alloc, text)?;
    format!(in alloc; "{value}")
}

impl Use {
    /// Where it stands in the text.
    pub(crate) fn span(&self, places: &Places) -> Option<Span> {
        let located = places.locate(self.path.as_slice());
        if located.steps < self.path.len() {
            return None;
        }
        if self.item.is_some() {
            located.value
        } else {
            located.key.or(located.header)
        }
    }

    /// The edit that puts another name there.
    fn renamed(self, alloc: Global, name: &str) -> Result<Edit, AllocError> {
        let Use { path, item } = self;
        let Some(item) = item else {
            return Ok(Edit::Rename(path, String::from_str(alloc, name)?));
        };
        Ok(Edit::Set(path, renamed_item(alloc, item.as_str(), name)?))
    }
}

/// What a dependency needs so that it is of the same package by another key.
#[derive(Drop)]
enum Need {
    Nothing,
    Edit(Edit),
    /// What is inherited is inherited by this key.
    AnotherName,
}

/// The value of a dependency that has a version, with the name of its package.
fn detailed(alloc: Global, version: &str, name: &str) -> Result<String, AllocError> {
    let version = quoted(alloc, version)?;
    let name = quoted(alloc, name)?;
    format!(in alloc; "{{ version = {version}, package = {name} }}")
}

/// The edit that puts the name of the package into the table of a dependency.
fn with_package(alloc: Global, path: &[Step], name: &str) -> Result<Edit, AllocError> {
    let mut to = manifest_rules::copied(alloc, path)?;
    to.push(Step::Key(String::from_str(alloc, "package")?))?;
    Ok(Edit::Insert(to, quoted(alloc, name)?))
}

/// What a dependency at a path, with this key, needs so that it is of the same package by another one.
fn need_of(alloc: Global, document: &Table, path: &[Step], name: &str) -> Result<Need, AllocError> {
    let names = names_of(alloc, path)?;
    match value_at(document, names.as_slice()) {
        Some(Value::String(version)) => {
            let text = detailed(alloc, version.as_str(), name)?;
            Ok(Need::Edit(Edit::Set(manifest_rules::copied(alloc, path)?, text)))
        }
        Some(Value::Table(table)) if table.contains_key("package") => Ok(Need::Nothing),
        Some(Value::Table(table)) if !table.contains_key("workspace") => {
            Ok(Need::Edit(with_package(alloc, path, name)?))
        }
        _ => Ok(Need::AnotherName),
    }
}

/// Gathers the edits that put another name at a place. It says whether the place can have one.
fn push_renaming(
    alloc: Global,
    edits: &mut Vec<Edit>,
    document: &Table,
    named: Named<'_>,
    name: &str,
    one: Use,
) -> Result<bool, AllocError> {
    if one.item.is_none() && !named.is_feature {
        match need_of(alloc, document, one.path.as_slice(), named.name)? {
            Need::Edit(edit) => edits.push(edit)?,
            Need::AnotherName => return Ok(false),
            Need::Nothing => {}
        }
    }
    edits.push(one.renamed(alloc, name)?)?;
    Ok(true)
}

/// The edits that give a feature or a dependency another name; `None` where it cannot have one.
pub(crate) fn renaming(
    alloc: Global,
    document: &Table,
    named: Named<'_>,
    name: &str,
) -> Result<Option<Vec<Edit>>, AllocError> {
    let mut edits = Vec::new(alloc);
    for one in uses_of(alloc, document, named)? {
        if !push_renaming(alloc, &mut edits, document, named, name, one)? {
            return Ok(None);
        }
    }
    Ok(Some(edits))
}
