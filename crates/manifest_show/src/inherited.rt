//! What a package inherits from its workspace.

use crate::lines::{Lines, path_of};
use manifest_json::Text;
use std::alloc::{AllocError, Global};
use toml::{Table, Value};

/// A value that is inherited.
#[derive(Drop)]
pub(crate) struct Inherited {
    /// Its key in the package, as `package.version`.
    pub(crate) key: String,
    pub(crate) line: Option<usize>,
    /// The line at which the workspace has it; `None` where it does not have it.
    pub(crate) root_line: Option<usize>,
    /// The text of the value, where it stands at one place.
    pub(crate) value: Option<String>,
}

/// What is known of a member and its root.
#[derive(Clone, Copy)]
pub(crate) struct Pair<'a> {
    pub(crate) member: &'a Lines<'a>,
    pub(crate) root: Option<&'a Lines<'a>>,
}

/// The tables of dependencies of a package.
const SECTIONS: [&str; 5] = [
    "dependencies",
    "dev-dependencies",
    "dev_dependencies",
    "build-dependencies",
    "build_dependencies",
];

fn is_inherited(value: &Value) -> bool {
    matches!(value.get("workspace"), Some(Value::Boolean(true)))
}

fn key_text(alloc: Global, keys: &[&str]) -> Result<String, AllocError> {
    let mut text = Text::new(alloc);
    for key in keys {
        if !text.is_empty() {
            text.push('.');
        }
        text.push_str(*key);
    }
    text.finish()
}

/// The line of a text at which that begins which is at a path of keys.
fn line_in(alloc: Global, lines: &Lines<'_>, keys: &[&str]) -> Result<Option<usize>, AllocError> {
    let path = path_of(alloc, keys)?;
    Ok(lines.line(path.as_slice()))
}

/// The text of the value that is at a path of keys.
fn value_in(alloc: Global, lines: &Lines<'_>, keys: &[&str]) -> Result<Option<String>, AllocError> {
    let path = path_of(alloc, keys)?;
    match lines.value(path.as_slice()) {
        Some(value) => Ok(Some(String::from_str(alloc, value)?)),
        None => Ok(None),
    }
}

/// The value at `keys` of the member, which is that at `source` of the root, but for its text.
fn inherited_at(
    alloc: Global,
    pair: Pair<'_>,
    keys: &[&str],
    source: &[&str],
) -> Result<Inherited, AllocError> {
    let line = line_in(alloc, pair.member, keys)?;
    let root_line = match pair.root {
        Some(root) => line_in(alloc, root, source)?,
        None => None,
    };
    Ok(Inherited {
        key: key_text(alloc, keys)?,
        line,
        root_line,
        value: None,
    })
}

/// Notes the value at `keys` of the member, which is that at `source` of the root.
fn push(
    alloc: Global,
    pair: Pair<'_>,
    keys: &[&str],
    source: &[&str],
    all: &mut Vec<Inherited>,
) -> Result<(), AllocError> {
    let mut inherited = inherited_at(alloc, pair, keys, source)?;
    if let Some(root) = pair.root {
        inherited.value = value_in(alloc, root, source)?;
    }
    all.push(inherited)?;
    Ok(())
}

/// Notes a dependency that is inherited, of the package or of one of its platforms.
fn push_dependency(
    alloc: Global,
    pair: Pair<'_>,
    platform: Option<&str>,
    section: &str,
    name: &str,
    all: &mut Vec<Inherited>,
) -> Result<(), AllocError> {
    let source = ["workspace", "dependencies", name];
    match platform {
        Some(platform) => {
            let keys = ["target", platform, section, name];
            push(alloc, pair, &keys, &source, all)
        }
        None => push(alloc, pair, &[section, name], &source, all),
    }
}

/// Notes what is inherited of the dependencies of the package, or of one of its platforms.
fn push_dependencies(
    alloc: Global,
    pair: Pair<'_>,
    platform: Option<&str>,
    tables: &Table,
    all: &mut Vec<Inherited>,
) -> Result<(), AllocError> {
    for section in &SECTIONS {
        let Some(Value::Table(table)) = tables.get(*section) else {
            continue;
        };
        for (name, value) in table {
            if is_inherited(value) {
                push_dependency(alloc, pair, platform, *section, name.as_str(), all)?;
            }
        }
    }
    Ok(())
}

/// Notes what is inherited of the table `package`.
fn push_package(
    alloc: Global,
    pair: Pair<'_>,
    document: &Table,
    all: &mut Vec<Inherited>,
) -> Result<(), AllocError> {
    let Some(Value::Table(package)) = document.get("package") else {
        return Ok(());
    };
    for (key, value) in package {
        if is_inherited(value) {
            let key = key.as_str();
            let source = ["workspace", "package", key];
            push(alloc, pair, &["package", key], &source, all)?;
        }
    }
    Ok(())
}

/// Notes what is inherited of the dependencies of platforms.
fn push_platforms(
    alloc: Global,
    pair: Pair<'_>,
    document: &Table,
    all: &mut Vec<Inherited>,
) -> Result<(), AllocError> {
    let Some(Value::Table(platforms)) = document.get("target") else {
        return Ok(());
    };
    for (name, platform) in platforms {
        if let Value::Table(tables) = platform {
            push_dependencies(alloc, pair, Some(name.as_str()), tables, all)?;
        }
    }
    Ok(())
}

/// Notes the lints, where they are inherited.
fn push_lints(
    alloc: Global,
    pair: Pair<'_>,
    document: &Table,
    all: &mut Vec<Inherited>,
) -> Result<(), AllocError> {
    match document.get("lints") {
        Some(lints) if is_inherited(lints) => {
            push(alloc, pair, &["lints"], &["workspace", "lints"], all)
        }
        _ => Ok(()),
    }
}

/// Notes all that a package inherits: values of `package`, dependencies, and lints.
pub(crate) fn push_inherited(
    alloc: Global,
    pair: Pair<'_>,
    document: &Table,
    all: &mut Vec<Inherited>,
) -> Result<(), AllocError> {
    push_package(alloc, pair, document, all)?;
    push_dependencies(alloc, pair, None, document, all)?;
    push_platforms(alloc, pair, document, all)?;
    push_lints(alloc, pair, document, all)
}
