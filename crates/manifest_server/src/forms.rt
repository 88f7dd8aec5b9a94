//! The keys of the tables of a manifest: what each of them is, and what it holds.

use crate::keys::{
    CHOICES, DETAILED, INHERITED, LINT, MANIFEST, PACKAGE, PLATFORM, PRODUCT, PROFILE, PROFILES,
    WORKSPACE, WORKSPACE_PACKAGE,
};
use crate::spots::ITEM;
use std::alloc::{AllocError, Global};

/// What stands between the parts of a line.
const BETWEEN: &str = " | ";

/// A key of a table.
#[derive(Clone, Copy)]
pub(crate) struct Key {
    pub(crate) name: &'static str,
    /// A second spelling; the empty text where there is none.
    pub(crate) second: &'static str,
    /// What kind of value it holds.
    pub(crate) holds: &'static str,
    /// Whether it is required, or what stands for it.
    pub(crate) needed: &'static str,
    /// Where the Cargo reference has it.
    pub(crate) page: &'static str,
    pub(crate) about: &'static str,
}

impl Key {
    /// The key of a line of a list.
    fn of_line(line: &'static str) -> Option<Key> {
        let mut parts = line.split(BETWEEN);
        Some(Key {
            name: parts.next()?,
            second: parts.next()?,
            holds: parts.next()?,
            needed: parts.next()?,
            page: parts.next()?,
            about: parts.next()?,
        })
    }

    /// Whether it is written so.
    pub(crate) fn is_called(&self, name: &str) -> bool {
        self.name == name || self.second == name
    }
}

/// Whether a table with this name has dependencies.
pub(crate) fn is_of_dependencies(name: &str) -> bool {
    matches!(
        name,
        "dependencies"
            | "dev-dependencies"
            | "build-dependencies"
            | "dev_dependencies"
            | "build_dependencies"
    )
}

/// The lines of the keys of the table at a path that is not one of the platforms; none where they are free, or not known.
fn lines_in(names: &[&str]) -> &'static str {
    match names {
        [] => MANIFEST,
        ["package" | "project"] => PACKAGE,
        ["workspace"] => WORKSPACE,
        ["workspace", "package"] => WORKSPACE_PACKAGE,
        ["workspace", "dependencies", _name] => DETAILED,
        ["lib"] => PRODUCT,
        ["bin" | "example" | "test" | "bench", item] if *item == ITEM => PRODUCT,
        ["profile"] => PROFILES,
        ["profile", _profile] | ["profile", _profile, "build-override"] => PROFILE,
        ["profile", _profile, "package", _package] => PROFILE,
        ["lints", _tool, _name] => LINT,
        [section, _name] if is_of_dependencies(*section) => DETAILED,
        _ => "",
    }
}

/// The lines of the keys of the table at a path; none where they are free, or not known.
fn lines_at(names: &[&str]) -> &'static str {
    match names {
        ["target", _platform] => PLATFORM,
        ["target", _platform, rest @ ..] => lines_in(rest),
        _ => lines_in(names),
    }
}

/// The keys of these lines.
fn keys_of(alloc: Global, lines: &'static str) -> Result<Vec<Key>, AllocError> {
    let mut keys = Vec::new(alloc);
    for line in lines.lines() {
        if let Some(key) = Key::of_line(line) {
            keys.push(key)?;
        }
    }
    Ok(keys)
}

/// The keys of the table at a path; none where they are free, or not known.
pub(crate) fn keys_at(alloc: Global, names: &[&str]) -> Result<Vec<Key>, AllocError> {
    keys_of(alloc, lines_at(names))
}

/// The key by which a dependency is inherited.
pub(crate) fn inherited_key() -> Option<Key> {
    Key::of_line(INHERITED.lines().next()?)
}

/// The key with this name in the table at a path.
pub(crate) fn key_at(names: &[&str], name: &str) -> Option<Key> {
    for line in lines_at(names).lines() {
        let key = Key::of_line(line)?;
        if key.is_called(name) {
            return Some(key);
        }
    }
    None
}

/// The texts of the choice with this name; none where there is no such choice.
pub(crate) fn words_of(alloc: Global, name: &str) -> Result<Vec<&'static str>, AllocError> {
    let mut words = Vec::new(alloc);
    for line in CHOICES.lines() {
        let mut parts = line.split(BETWEEN);
        if parts.next() == Some(name) {
            for word in parts {
                words.push(word)?;
            }
        }
    }
    Ok(words)
}
