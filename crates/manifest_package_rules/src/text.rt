//! Rules of the text and of the top of a manifest.

use manifest_rules::codes::{
    DIRECTION_CHARACTERS, MISSPELLED_KEY, NO_PACKAGE, REMOVED_CARGO_FEATURE,
    REPEATED_CARGO_FEATURE, STABLE_CARGO_FEATURE, TABLE_WITHOUT_PACKAGE, UNKNOWN_CARGO_FEATURE,
    UNSTABLE_CARGO_FEATURE,
};
use manifest_rules::look::{Look, items_in};
use manifest_rules::report::{At, Out};
use std::alloc::AllocError;
use std::collections::BTreeSet;
use toml::Value;

/// All rules of the text and of its top.
pub fn text(look: &Look<'_>, out: &mut Out) {
    no_package(look, out);
    tables_without_package(look, out);
    cargo_features(look, out);
    direction_characters(look, out);
}

/// Characters that turn the direction of a text, so that it is read otherwise than it is shown.
/// (<https://trojansource.codes>)
fn direction_characters(look: &Look<'_>, out: &mut Out) {
    if look.text.is_ascii() {
        return;
    }
    let mut at = 0usize;
    for ch in look.text.chars() {
        let end = at.saturating_add(ch.len_utf8());
        if let Some(code) = direction_code(ch) {
            let words = ["the character U+{} turns the direction of the text", code];
            out.bytes(DIRECTION_CHARACTERS, at, end, &words);
        }
        at = end;
    }
}

/// The number of a character that turns the direction of a text.
fn direction_code(ch: char) -> Option<&'static str> {
    match ch {
        '\u{202a}' => Some("202A"),
        '\u{202b}' => Some("202B"),
        '\u{202c}' => Some("202C"),
        '\u{202d}' => Some("202D"),
        '\u{202e}' => Some("202E"),
        '\u{2066}' => Some("2066"),
        '\u{2067}' => Some("2067"),
        '\u{2068}' => Some("2068"),
        '\u{2069}' => Some("2069"),
        _ => None,
    }
}

/// A manifest has a package or is a workspace. A table of nearly that name is meant as one.
fn no_package(look: &Look<'_>, out: &mut Out) {
    if has_any(look, &["package", "project", "workspace"]) {
        return;
    }
    out.value(
        NO_PACKAGE,
        &[],
        &[],
        &["manifest is missing either a `[package]` or a `[workspace]`"],
    );
    for (key, value) in look.document {
        if value.is_table() {
            misspelled_table(key.as_str(), out);
        }
    }
}

fn misspelled_table(key: &str, out: &mut Out) {
    if OF_PACKAGES.contains(&key) {
        return;
    }
    let Some(word) = out.nearest_of(key, &["package", "workspace"]) else {
        return;
    };
    let path = [At::Key(key)];
    out.key(
        MISSPELLED_KEY,
        &path,
        &[],
        &["unused manifest key: {}", key],
    );
    let help = ["a key with a similar name exists: `{}`", word];
    out.rename(&path, &[], word, false, &help);
}

fn has_any(look: &Look<'_>, keys: &[&str]) -> bool {
    for key in keys {
        if look.document.contains_key(*key) {
            return true;
        }
    }
    false
}

/// The tables that only a package has.
static OF_PACKAGES: [&str; 15] = [
    "features",
    "badges",
    "lib",
    "bin",
    "example",
    "test",
    "bench",
    "dependencies",
    "dev-dependencies",
    "dev_dependencies",
    "build-dependencies",
    "build_dependencies",
    "target",
    "lints",
    "hints",
];

/// Where there is a workspace alone, it has no table of a package.
fn tables_without_package(look: &Look<'_>, out: &mut Out) {
    if look.workspace.is_none() || has_any(look, &["package", "project"]) {
        return;
    }
    for key in &OF_PACKAGES {
        let key = *key;
        if look.document.contains_key(key) {
            let words = [
                "this virtual manifest specifies a `{}` section, which is not allowed",
                key,
            ];
            out.key(TABLE_WITHOUT_PACKAGE, &[At::Key(key)], &[], &words);
        }
    }
}

/// The names in `cargo-features` that every Cargo has by now.
/// (<https://doc.rust-lang.org/cargo/reference/unstable.html>)
static STABLE: [&str; 13] = [
    "test-dummy-stable",
    "alternative-registries",
    "edition",
    "rename-dependency",
    "profile-overrides",
    "default-run",
    "named-profiles",
    "resolver",
    "strip",
    "rust-version",
    "edition2021",
    "workspace-inheritance",
    "edition2024",
];

/// Those that a nightly Cargo has.
static UNSTABLE: [&str; 13] = [
    "test-dummy-unstable",
    "metabuild",
    "public-dependency",
    "per-package-target",
    "codegen-backend",
    "different-binary-name",
    "profile-rustflags",
    "trim-paths",
    "open-namespaces",
    "path-bases",
    "unstable-editions",
    "multiple-build-scripts",
    "panic-immediate-abort",
];

fn cargo_features(look: &Look<'_>, out: &mut Out) {
    let mut names = BTreeSet::new(look.alloc);
    for (index, item) in items_in(look.document, "cargo-features").iter().enumerate() {
        if let Value::String(name) = item {
            let name = name.as_str();
            match out.made(names.insert(name).map_err(AllocError::from)) {
                Some(true) => cargo_feature(name, index, out),
                Some(false) => repeated_cargo_feature(name, index, out),
                None => return,
            }
        }
    }
}

fn cargo_feature(name: &str, index: usize, out: &mut Out) {
    let (code, message) = if STABLE.contains(&name) {
        (
            STABLE_CARGO_FEATURE,
            "the cargo feature `{}` has been stabilized and is no longer necessary",
        )
    } else if UNSTABLE.contains(&name) {
        (
            UNSTABLE_CARGO_FEATURE,
            "the cargo feature `{}` requires a nightly version of Cargo",
        )
    } else if name == "publish-lockfile" {
        (
            REMOVED_CARGO_FEATURE,
            "the cargo feature `{}` has been removed",
        )
    } else {
        (UNKNOWN_CARGO_FEATURE, "unknown Cargo.toml feature `{}`")
    };
    let path = [At::Key("cargo-features"), At::Index(index)];
    out.value(code, &path, &[], &[message, name]);
}

fn repeated_cargo_feature(name: &str, index: usize, out: &mut Out) {
    let path = [At::Key("cargo-features"), At::Index(index)];
    let words = ["the cargo feature `{}` is listed twice", name];
    out.value(REPEATED_CARGO_FEATURE, &path, &[], &words);
}
