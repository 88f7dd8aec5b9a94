//! The folders to which the dependencies of a package lead.

use crate::paths::resolved;
use crate::tables::{table_in, text_in};
use std::alloc::{AllocError, Global};
use toml::{Table, Value};

/// The tables of dependencies of a package, and of each of its platforms.
const SECTIONS: [&str; 5] = [
    "dependencies",
    "dev-dependencies",
    "dev_dependencies",
    "build-dependencies",
    "build_dependencies",
];

/// A root: the folder that it is in, and its table `workspace.dependencies`.
#[derive(Clone, Copy)]
pub(crate) struct Inherited<'a> {
    pub(crate) folder: &'a str,
    pub(crate) dependencies: Option<&'a Table>,
}

/// What can be inherited from a root with this document, in this folder.
pub(crate) fn inherited_from<'a>(folder: &'a str, document: &'a Table) -> Inherited<'a> {
    let dependencies = match table_in(document, "workspace") {
        Some(workspace) => table_in(workspace, "dependencies"),
        None => None,
    };
    Inherited {
        folder,
        dependencies,
    }
}

/// The path of an inherited dependency, as it is written in the root.
fn inherited_path<'a>(root: Inherited<'a>, name: &str) -> Option<&'a str> {
    text_in(table_in(root.dependencies?, name)?, "path")
}

/// Whether the dependency is inherited.
fn is_inherited(dependency: &Table) -> bool {
    match dependency.get("workspace") {
        Some(Value::Boolean(flag)) => *flag,
        _ => false,
    }
}

/// Notes the folders to which the dependencies of one table lead.
fn push_table(
    alloc: Global,
    folder: &str,
    table: &Table,
    root: Inherited<'_>,
    folders: &mut Vec<String>,
) -> Result<(), AllocError> {
    for (name, value) in table {
        if let Value::Table(dependency) = value {
            if is_inherited(dependency) {
                if let Some(path) = inherited_path(root, name.as_str()) {
                    folders.push(resolved(alloc, root.folder, path)?)?;
                }
            } else if let Some(path) = text_in(dependency, "path") {
                folders.push(resolved(alloc, folder, path)?)?;
            }
        }
    }
    Ok(())
}

/// Notes the folders to which the dependencies in these tables lead.
fn push_sections(
    alloc: Global,
    folder: &str,
    tables: &Table,
    root: Inherited<'_>,
    folders: &mut Vec<String>,
) -> Result<(), AllocError> {
    for section in &SECTIONS {
        if let Some(table) = table_in(tables, *section) {
            push_table(alloc, folder, table, root, folders)?;
        }
    }
    Ok(())
}

/// Notes the folders to which the dependencies of a package in this folder lead, by a `path` of their own or by one that
/// they inherit.
pub(crate) fn push_folders(
    alloc: Global,
    folder: &str,
    document: &Table,
    root: Inherited<'_>,
    folders: &mut Vec<String>,
) -> Result<(), AllocError> {
    push_sections(alloc, folder, document, root, folders)?;
    let Some(platforms) = table_in(document, "target") else {
        return Ok(());
    };
    for (_name, platform) in platforms {
        if let Value::Table(platform) = platform {
            push_sections(alloc, folder, platform, root, folders)?;
        }
    }
    Ok(())
}
