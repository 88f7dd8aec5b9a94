//! What a registry wants of a package: said only where it is asked for, and not of one that is not published.
//! (<https://doc.rust-lang.org/cargo/reference/publishing.html>)

use crate::spdx::is_license;
use manifest_rules::codes::{
    INCLUDE_AND_EXCLUDE, INVALID_KEYWORDS, INVALID_LICENSE, MISSING_DESCRIPTION, MISSING_LICENSE,
    MISSING_LINKS, MISSING_PACKAGE_FILE, PATH_WITHOUT_VERSION, TOO_MANY_CATEGORIES,
    WILDCARD_REQUIREMENT,
};
use manifest_rules::files::{FileState, file_state};
use manifest_rules::look::{Look, Section, items_in, text_in};
use manifest_rules::report::{At, Out};
use toml::{Table, Value};

/// All that a registry wants.
pub fn publishing(look: &Look<'_>, out: &mut Out) {
    let Some(package) = look.package else {
        return;
    };
    if !look.around.publishes || is_private(package) {
        return;
    }
    let path = [At::Key(look.package_key)];
    missing_description(&path, package, out);
    license(&path, package, out);
    missing_links(&path, package, out);
    include_and_exclude(&path, package, out);
    package_files(look, &path, package, out);
    keywords(&path, package, out);
    categories(&path, package, out);
    requirements(look, out);
}

/// Whether a package says that it is published nowhere.
fn is_private(package: &Table) -> bool {
    match package.get("publish") {
        Some(Value::Boolean(flag)) => !*flag,
        Some(Value::Array(registries)) => registries.is_empty(),
        _ => false,
    }
}

/// Whether the table has this key, with a text that is not empty or with another value.
fn has(table: &Table, key: &str) -> bool {
    match table.get(key) {
        Some(Value::String(text)) => !text.is_empty(),
        Some(_) => true,
        None => false,
    }
}

fn missing_description(path: &[At<'_>], package: &Table, out: &mut Out) {
    if has(package, "description") {
        return;
    }
    out.header(
        MISSING_DESCRIPTION,
        path,
        &[],
        &["manifest has no description"],
    );
}

fn license(path: &[At<'_>], package: &Table, out: &mut Out) {
    if !has(package, "license") && !has(package, "license-file") {
        let words = ["manifest has no license or license-file"];
        out.header(MISSING_LICENSE, path, &[], &words);
        return;
    }
    let Some(text) = text_in(package, "license") else {
        return;
    };
    if text.is_empty() || is_license(text) {
        return;
    }
    let words = [
        "`{}` is no SPDX license expression, as `MIT OR Apache-2.0` is one",
        text,
    ];
    out.value(INVALID_LICENSE, path, &[At::Key("license")], &words);
}

fn missing_links(path: &[At<'_>], package: &Table, out: &mut Out) {
    for key in ["documentation", "homepage", "repository"] {
        if has(package, key) {
            return;
        }
    }
    let words = ["manifest has no documentation, homepage or repository"];
    out.header(MISSING_LINKS, path, &[], &words);
}

fn include_and_exclude(path: &[At<'_>], package: &Table, out: &mut Out) {
    if !package.contains_key("include") || !package.contains_key("exclude") {
        return;
    }
    let words = [
        "both package.include and package.exclude are specified; the exclude list will be ignored",
    ];
    out.key(INCLUDE_AND_EXCLUDE, path, &[At::Key("exclude")], &words);
}

fn package_files(look: &Look<'_>, path: &[At<'_>], package: &Table, out: &mut Out) {
    for key in ["license-file", "readme"] {
        let Some(file) = text_in(package, key) else {
            continue;
        };
        if out.made(file_state(look, file)) == Some(FileState::Absent) {
            let words = [
                "{} `{}` does not appear to exist (relative to the manifest)",
                key,
                file,
            ];
            out.value(MISSING_PACKAGE_FILE, path, &[At::Key(key)], &words);
        }
    }
}

/// Whether crates.io takes a keyword: at most 20 ASCII letters, digits, `_`, `-` and `+`, a letter or a digit first.
fn is_keyword(text: &str) -> bool {
    let mut is_first = true;
    for ch in text.chars() {
        let may_begin = ch.is_ascii_alphanumeric();
        if !may_begin && (is_first || !matches!(ch, '_' | '-' | '+')) {
            return false;
        }
        is_first = false;
    }
    !text.is_empty() && text.len() <= 20
}

fn keywords(path: &[At<'_>], package: &Table, out: &mut Out) {
    let items = items_in(package, "keywords");
    if items.len() > 5 {
        let rest = [At::Key("keywords"), At::Index(5)];
        let words = ["a registry takes five keywords at most"];
        out.value(INVALID_KEYWORDS, path, &rest, &words);
    }
    let mut index = 0usize;
    for item in items {
        if let Value::String(word) = item {
            keyword(path, index, word.as_str(), out);
        }
        index = index.saturating_add(1);
    }
}

fn keyword(path: &[At<'_>], index: usize, word: &str, out: &mut Out) {
    if is_keyword(word) {
        return;
    }
    let words = [
        "`{}` is no keyword: it has at most 20 ASCII letters, digits, `_`, `-` and `+`, and begins with a letter or a digit",
        word,
    ];
    let rest = [At::Key("keywords"), At::Index(index)];
    out.value(INVALID_KEYWORDS, path, &rest, &words);
}

fn categories(path: &[At<'_>], package: &Table, out: &mut Out) {
    if items_in(package, "categories").len() <= 5 {
        return;
    }
    let words = ["a registry takes five categories at most"];
    out.value(TOO_MANY_CATEGORIES, path, &[At::Key("categories")], &words);
}

/// Each dependency is published with a version: one of a `path` has one, and none is `*`.
fn requirements(look: &Look<'_>, out: &mut Out) {
    for section in &look.dependencies {
        if !section.section.is_of_package() {
            continue;
        }
        for (name, dependency) in section.table {
            let base = section.path.as_slice();
            let is_dev = section.section == Section::Dev;
            requirement(base, name.as_str(), dependency, is_dev, out);
        }
    }
}

fn requirement(base: &[At<'_>], name: &str, dependency: &Value, is_dev: bool, out: &mut Out) {
    let version = match dependency {
        Value::String(text) => Some(text.as_str()),
        Value::Table(table) => text_in(table, "version"),
        _ => return,
    };
    if version.is_some_and(|version| version.trim() == "*") && !is_dev {
        wildcard(base, name, dependency, out);
        return;
    }
    let is_path = dependency.get("path").is_some();
    if is_path && version.is_none() && !is_dev {
        let words = [
            "all dependencies must have a version specified when packaging: `{}` has none",
            name,
        ];
        out.header(PATH_WITHOUT_VERSION, base, &[At::Key(name)], &words);
    }
}

/// Says this of the requirement, which is the dependency itself or stands in its table.
fn wildcard(base: &[At<'_>], name: &str, dependency: &Value, out: &mut Out) {
    let words = [
        "wildcard (`*`) dependency constraints are not allowed on crates.io: `{}`",
        name,
    ];
    if dependency.is_table() {
        let rest = [At::Key(name), At::Key("version")];
        out.value(WILDCARD_REQUIREMENT, base, &rest, &words);
    } else {
        out.value(WILDCARD_REQUIREMENT, base, &[At::Key(name)], &words);
    }
}
