//! Which folders and packages the rules look at.

use crate::files::{below, plain_path, split_path, stays_inside};
use crate::look::{DependencyTable, Folders, Look, Surroundings, items_in, table_in, text_in};
use std::alloc::{AllocError, Global};
use std::collections::BTreeSet;
use toml::{Table, Value};

/// The folders whose names the rules want, from that of the manifest, whose own path is the empty text: those that stand in
/// every package, those that the paths of the manifest lead to, and, once the first of these are listed, the ones in
/// them.
pub fn asked_folders(
    alloc: Global,
    document: &Table,
    known: &Folders,
) -> Result<Vec<String>, AllocError> {
    let mut asked = BTreeSet::new(alloc);
    for folder in ["", "src", "src/bin", "examples", "tests", "benches"] {
        ask(alloc, folder, &mut asked)?;
    }
    for folder in ["src/bin", "examples", "tests", "benches"] {
        if let Some(names) = known.names.get(folder) {
            for name in names {
                ask_inner(alloc, folder, name.as_str(), &mut asked)?;
            }
        }
    }
    for path in paths_of(alloc, document)? {
        ask_path(alloc, path, &mut asked)?;
    }
    let mut all = Vec::new(alloc);
    for folder in asked {
        if !known.asked.contains(folder.as_str()) {
            all.push(folder)?;
        }
    }
    Ok(all)
}

fn ask(alloc: Global, folder: &str, asked: &mut BTreeSet<String>) -> Result<(), AllocError> {
    let folder = String::from_str(alloc, folder)?;
    let _is_new = asked.insert(folder)?;
    Ok(())
}

/// What may be a folder in a listed one, by its name.
fn ask_inner(
    alloc: Global,
    folder: &str,
    name: &str,
    asked: &mut BTreeSet<String>,
) -> Result<(), AllocError> {
    if name.ends_with(".rs") || name.starts_with('.') {
        return Ok(());
    }
    let inner = below(alloc, folder, name)?;
    let _is_new = asked.insert(inner)?;
    Ok(())
}

/// The folder of a path that leads to no other package, and the path itself, where a folder may be too.
fn ask_path(alloc: Global, path: &str, asked: &mut BTreeSet<String>) -> Result<(), AllocError> {
    let path = plain_path(alloc, path)?;
    if !stays_inside(path.as_str()) {
        return Ok(());
    }
    let (folder, _name) = split_path(path.as_str());
    ask(alloc, folder, asked)?;
    let _is_new = asked.insert(path)?;
    Ok(())
}

/// The paths of files that a manifest names.
fn paths_of<'a>(alloc: Global, document: &'a Table) -> Result<Vec<&'a str>, AllocError> {
    let mut all = Vec::new(alloc);
    for key in ["package", "project"] {
        if let Some(package) = table_in(document, key) {
            for field in ["build", "license-file", "readme"] {
                push_path(&mut all, package, field)?;
            }
        }
    }
    if let Some(library) = table_in(document, "lib") {
        push_path(&mut all, library, "path")?;
    }
    for key in ["bin", "example", "test", "bench"] {
        push_paths(&mut all, items_in(document, key))?;
    }
    Ok(all)
}

fn push_paths<'a>(all: &mut Vec<&'a str>, targets: &'a [Value]) -> Result<(), AllocError> {
    for target in targets {
        if let Value::Table(target) = target {
            push_path(all, target, "path")?;
        }
    }
    Ok(())
}

fn push_path<'a>(all: &mut Vec<&'a str>, table: &'a Table, key: &str) -> Result<(), AllocError> {
    if let Some(path) = text_in(table, key) {
        all.push(path)?;
    }
    Ok(())
}

/// The `path`s of dependencies as they are written, each once; Cargo ignores those of inherited ones.
pub fn asked_packages(alloc: Global, document: &Table) -> Result<Vec<String>, AllocError> {
    let around = Surroundings::nothing();
    let look = Look::new(alloc, "", document, &around)?;
    let all = packages_of(&look);
    drop(look);
    all
}

fn packages_of(look: &Look<'_>) -> Result<Vec<String>, AllocError> {
    let mut paths = BTreeSet::new(look.alloc);
    for section in &look.dependencies {
        add_paths(section, &mut paths)?;
    }
    let mut all = Vec::new(look.alloc);
    for path in paths {
        all.push(String::from_str(look.alloc, path)?)?;
    }
    Ok(all)
}

fn add_paths<'a>(
    section: &DependencyTable<'a>,
    paths: &mut BTreeSet<&'a str>,
) -> Result<(), AllocError> {
    for (_name, dependency) in section.table {
        if section.inherits(dependency) {
            continue;
        }
        if let Value::Table(table) = dependency {
            if let Some(path) = text_in(table, "path") {
                let _is_new = paths.insert(path)?;
            }
        }
    }
    Ok(())
}
