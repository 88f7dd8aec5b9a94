//! Rules of one dependency, in whichever table it stands; `sources.rt` has those that compare dependencies. See
//! [Specifying dependencies](https://doc.rust-lang.org/cargo/reference/specifying-dependencies.html).

use crate::inherited::inherited_dependencies;
use manifest_rules::codes::{
    CONFLICTING_SOURCES, Code, FRAGMENT_IN_URL, INVALID_DEPENDENCY_FEATURE,
    INVALID_DEPENDENCY_NAME, INVALID_REGISTRY_NAME, INVALID_REQUIREMENT, INVALID_URL,
    METADATA_IN_REQUIREMENT, NO_SOURCE, OPTIONAL_DEV_DEPENDENCY, OPTIONAL_IN_WORKSPACE,
    REVISION_WITHOUT_GIT, SEVERAL_REVISIONS,
};
use manifest_rules::look::{Look, Section, flag_in, is_inherited, items_in, text_in};
use manifest_rules::report::{At, File, Out, Part};
use manifest_rules::words::{
    UrlFault, Word, WrongWord, name_fault, requirement_fault, say_wrong_word, url_fault,
};
use toml::{Table, Value};

/// A dependency, as a table declares it.
#[derive(Clone, Copy)]
pub(crate) struct Dependency<'a> {
    pub(crate) section: Section,
    /// The path of the table.
    pub(crate) base: &'a [At<'a>],
    /// Its key.
    pub(crate) name: &'a str,
    /// Its requirement, or its table.
    pub(crate) value: &'a Value,
}

impl<'a> Dependency<'a> {
    /// Its table, where it is no mere version, and not inherited.
    pub(crate) fn detail(&self) -> Option<&'a Table> {
        if self.section.is_of_package() && is_inherited(self.value) {
            return None;
        }
        self.value.as_table()
    }

    /// The name of its package.
    pub(crate) fn package(&self) -> &'a str {
        match self.detail() {
            Some(detail) => text_in(detail, "package").unwrap_or(self.name),
            None => self.name,
        }
    }

    /// Its requirement of a version, and whether that is all that is written of it, and not a key of its table.
    pub(crate) fn requirement(&self) -> Option<(&'a str, bool)> {
        if let Some(text) = self.value.as_str() {
            return Some((text, true));
        }
        let text = text_in(self.detail()?, "version")?;
        Some((text, false))
    }
}

/// All rules of single dependencies.
pub fn dependencies(look: &Look<'_>, out: &mut Out) {
    let Some(inherited) = out.made(inherited_dependencies(look)) else {
        return;
    };
    for table in look.dependencies.iter() {
        for (name, value) in table.table {
            let dependency = Dependency {
                section: table.section,
                base: table.path.as_slice(),
                name: name.as_str(),
                value,
            };
            rules_of_any(&dependency, out);
            if let Some(detail) = dependency.detail() {
                // (of the workspace's dependencies Cargo reads those that a member inherits)
                if table.section != Section::Workspace || inherited.contains(dependency.name) {
                    no_source(&dependency, detail, out);
                }
                rules_of_detail(&dependency, detail, out);
            }
        }
    }
}

fn rules_of_any(dependency: &Dependency<'_>, out: &mut Out) {
    invalid_dependency_name(dependency, out);
    invalid_requirement(dependency, out);
    invalid_dependency_feature(dependency, out);
    optional_dev_dependency(dependency, out);
}

fn rules_of_detail(dependency: &Dependency<'_>, detail: &Table, out: &mut Out) {
    invalid_package(dependency, detail, out);
    conflicting_sources(dependency, detail, out);
    revision_without_git(dependency, detail, out);
    several_revisions(dependency, detail, out);
    invalid_url(dependency, detail, "git", out);
    invalid_url(dependency, detail, "registry-index", out);
    fragment_in_url(dependency, detail, out);
    invalid_registry_name(dependency, detail, out);
    optional_in_workspace(dependency, detail, out);
}

/// The key of a dependency is a name, but in `[replace]`, where it is a package id.
fn invalid_dependency_name(dependency: &Dependency<'_>, out: &mut Out) {
    if dependency.section == Section::Replace {
        return;
    }
    let Some(fault) = name_fault(dependency.name) else {
        return;
    };
    let wrong = WrongWord {
        what: "dependency name",
        word: dependency.name,
        fault,
    };
    let rest = [At::Key(dependency.name)];
    let code = INVALID_DEPENDENCY_NAME;
    say_wrong_word(code, Part::Key, dependency.base, &rest, &wrong, out);
    out.note(&[Word::Name.rule()]);
}

fn invalid_package(dependency: &Dependency<'_>, detail: &Table, out: &mut Out) {
    let Some(package) = text_in(detail, "package") else {
        return;
    };
    let Some(fault) = name_fault(package) else {
        return;
    };
    let wrong = WrongWord {
        what: "package name",
        word: package,
        fault,
    };
    wrong_name(dependency, INVALID_DEPENDENCY_NAME, "package", &wrong, out);
}

fn invalid_registry_name(dependency: &Dependency<'_>, detail: &Table, out: &mut Out) {
    let Some(registry) = text_in(detail, "registry") else {
        return;
    };
    let Some(fault) = Word::Name.fault(registry) else {
        return;
    };
    let wrong = WrongWord {
        what: "registry name",
        word: registry,
        fault,
    };
    wrong_name(dependency, INVALID_REGISTRY_NAME, "registry", &wrong, out);
}

/// Says what is wrong with the name at a key.
fn wrong_name(
    dependency: &Dependency<'_>,
    code: Code,
    key: &str,
    wrong: &WrongWord<'_>,
    out: &mut Out,
) {
    let rest = [At::Key(dependency.name), At::Key(key)];
    say_wrong_word(code, Part::Value, dependency.base, &rest, wrong, out);
    out.note(&[Word::Name.rule()]);
}

fn no_source(dependency: &Dependency<'_>, detail: &Table, out: &mut Out) {
    for key in ["version", "path", "git", "workspace"] {
        if detail.contains_key(key) {
            return;
        }
    }
    let name = dependency.name;
    let words = ["dependency `{}` has no source", name];
    out.header(NO_SOURCE, dependency.base, &[At::Key(name)], &words);
    out.note(&["a dependency has one of `version`, `path`, `git` and `workspace = true`"]);
}

fn conflicting_sources(dependency: &Dependency<'_>, detail: &Table, out: &mut Out) {
    let pairs = [
        ("git", "path"),
        ("git", "registry"),
        ("git", "registry-index"),
        ("registry", "registry-index"),
    ];
    for (first, second) in pairs {
        if detail.contains_key(first) && detail.contains_key(second) {
            ambiguous(dependency, CONFLICTING_SOURCES, first, second, out);
        }
    }
}

/// Says that two keys exclude each other.
fn ambiguous<'a>(
    dependency: &Dependency<'a>,
    code: Code,
    first: &'a str,
    second: &'a str,
    out: &mut Out,
) {
    let Dependency { base, name, .. } = *dependency;
    let words = [
        "dependency `{}` is ambiguous: only one of `{}` and `{}` is allowed",
        name,
        first,
        second,
    ];
    out.key(code, base, &[At::Key(name), At::Key(second)], &words);
    let other = [At::Key(name), At::Key(first)];
    let label = ["`{}` is here", first];
    out.label(File::Own, Part::Key, base, &other, &label);
}

fn revision_without_git(dependency: &Dependency<'_>, detail: &Table, out: &mut Out) {
    if detail.contains_key("git") {
        return;
    }
    let name = dependency.name;
    for key in ["branch", "tag", "rev"] {
        if detail.contains_key(key) {
            let words = ["`{}` of dependency `{}` stands without `git`", key, name];
            let rest = [At::Key(name), At::Key(key)];
            out.key(REVISION_WITHOUT_GIT, dependency.base, &rest, &words);
        }
    }
}

fn several_revisions(dependency: &Dependency<'_>, detail: &Table, out: &mut Out) {
    if !detail.contains_key("git") {
        return;
    }
    let mut first = None;
    for key in ["branch", "tag", "rev"] {
        if !detail.contains_key(key) {
            continue;
        }
        match first {
            Some(other) => ambiguous(dependency, SEVERAL_REVISIONS, other, key, out),
            None => first = Some(key),
        }
    }
}

fn invalid_url(dependency: &Dependency<'_>, detail: &Table, key: &str, out: &mut Out) {
    let Some(url) = text_in(detail, key) else {
        return;
    };
    let Some(Some(fault)) = out.made(url_fault(out.alloc, url)) else {
        return;
    };
    let rest = [At::Key(dependency.name), At::Key(key)];
    say_invalid_url(dependency.base, &rest, url, fault, out);
    match url.split_once(':') {
        Some((host, path)) if host.starts_with("git@") => {
            let instead = out.text(["ssh://", host, "/", path].concat(out.alloc));
            let instead = instead.as_str();
            let help = ["write `{}`", instead];
            out.set_text(dependency.base, &rest, instead, false, &help);
        }
        _ => {}
    }
}

fn say_invalid_url(base: &[At<'_>], rest: &[At<'_>], url: &str, fault: UrlFault, out: &mut Out) {
    let fault = out.shown(&fault);
    let words = ["invalid URL `{}`: {}", url, fault.as_str()];
    out.value(INVALID_URL, base, rest, &words);
}

fn fragment_in_url<'a>(dependency: &Dependency<'a>, detail: &'a Table, out: &mut Out) {
    let Some(url) = text_in(detail, "git") else {
        return;
    };
    let Some((_bare, fragment)) = url.split_once('#') else {
        return;
    };
    let Some(None) = out.made(url_fault(out.alloc, url)) else {
        return;
    };
    let Dependency { base, name, .. } = *dependency;
    let words = [
        "URL fragment `#{}` of dependency `{}` is ignored",
        fragment,
        name,
    ];
    out.value(
        FRAGMENT_IN_URL,
        base,
        &[At::Key(name), At::Key("git")],
        &words,
    );
    out.help(&["write `rev = \"{}\"` if a revision is meant", fragment]);
}

fn invalid_requirement(dependency: &Dependency<'_>, out: &mut Out) {
    let Dependency { base, name, .. } = *dependency;
    match dependency.requirement() {
        Some((text, true)) => requirement(base, &[At::Key(name)], text, out),
        Some((text, false)) => requirement(base, &[At::Key(name), At::Key("version")], text, out),
        None => {}
    }
}

/// The rules of a requirement that stands there.
fn requirement(base: &[At<'_>], rest: &[At<'_>], text: &str, out: &mut Out) {
    let Some(Some(fault)) = out.made(requirement_fault(out.alloc, text)) else {
        metadata_in_requirement(base, rest, text, out);
        return;
    };
    say_invalid_requirement(base, rest, text, fault, out);
    let bare = text.strip_prefix('v').unwrap_or("");
    if bare.is_empty() {
        return;
    }
    if let Some(None) = out.made(requirement_fault(out.alloc, bare)) {
        out.set_text(base, rest, bare, false, &["write `{}`", bare]);
    }
}

fn say_invalid_requirement(
    base: &[At<'_>],
    rest: &[At<'_>],
    text: &str,
    fault: semver::Error,
    out: &mut Out,
) {
    let fault = out.shown(&fault);
    let words = ["invalid version requirement `{}`: {}", text, fault.as_str()];
    out.value(INVALID_REQUIREMENT, base, rest, &words);
}

/// What stands after `+` says nothing of a version that is required.
fn metadata_in_requirement(base: &[At<'_>], rest: &[At<'_>], text: &str, out: &mut Out) {
    let Some((bare, _metadata)) = text.split_once('+') else {
        return;
    };
    let words = [
        "version requirement `{}` includes build metadata, which is ignored",
        text,
    ];
    out.value(METADATA_IN_REQUIREMENT, base, rest, &words);
    if text.contains(',') {
        return;
    }
    out.set_text(base, rest, bare, true, &["write `{}`", bare]);
}

/// Why a feature cannot be one of a dependency; nothing where it can.
fn feature_note(feature: &str) -> Option<&'static str> {
    if feature.contains('/') {
        return Some(
            "only features of the dependency itself can be enabled here, and none of what it depends on",
        );
    }
    if feature.starts_with("dep:") {
        return Some("a feature of the dependency is named without `dep:`");
    }
    None
}

fn invalid_dependency_feature<'a>(dependency: &Dependency<'a>, out: &mut Out) {
    let Dependency { base, name, .. } = *dependency;
    let Value::Table(table) = dependency.value else {
        return;
    };
    for (index, item) in items_in(table, "features").iter().enumerate() {
        let Value::String(feature) = item else {
            continue;
        };
        let feature = feature.as_str();
        let Some(note) = feature_note(feature) else {
            continue;
        };
        let words = ["invalid feature `{}` of dependency `{}`", feature, name];
        let rest = [At::Key(name), At::Key("features"), At::Index(index)];
        out.value(INVALID_DEPENDENCY_FEATURE, base, &rest, &words);
        out.note(&[note]);
    }
}

fn optional_dev_dependency(dependency: &Dependency<'_>, out: &mut Out) {
    let Value::Table(table) = dependency.value else {
        return;
    };
    if dependency.section != Section::Dev || flag_in(table, "optional") != Some(true) {
        return;
    }
    let Dependency { base, name, .. } = *dependency;
    let rest = [At::Key(name), At::Key("optional")];
    let words = ["dev-dependency `{}` cannot be optional", name];
    out.value(OPTIONAL_DEV_DEPENDENCY, base, &rest, &words);
    out.remove(base, &rest, false, &["remove `optional`"]);
}

fn optional_in_workspace(dependency: &Dependency<'_>, detail: &Table, out: &mut Out) {
    if dependency.section != Section::Workspace {
        return;
    }
    for key in ["optional", "public"] {
        if flag_in(detail, key) == Some(true) {
            not_in_workspace(dependency, key, out);
        }
    }
}

fn not_in_workspace(dependency: &Dependency<'_>, key: &str, out: &mut Out) {
    let Dependency { base, name, .. } = *dependency;
    let rest = [At::Key(name), At::Key(key)];
    let words = ["workspace dependency `{}` cannot be {}", name, &*key];
    out.value(OPTIONAL_IN_WORKSPACE, base, &rest, &words);
    out.note(&["the members that inherit it say this"]);
    out.remove(base, &rest, false, &["remove `{}`", key]);
}
