//! The files of targets: which one a target is built from, and which there are.

use crate::hover::value_at;
use crate::spots::ITEM;
use manifest_surroundings::{Reader, folder_of, join, names_in};
use std::alloc::{AllocError, Global};
use std::rt::Files;
use toml::{Table, Value};

/// Where the files of a kind of targets are looked for, and the one other file.
#[derive(Clone, Copy)]
struct Home {
    kind: &'static str,
    folder: &'static str,
    /// The file of the target that has the name of the package; the empty text where there is none.
    main: &'static str,
}

static HOMES: [Home; 5] = [
    Home {
        kind: "lib",
        folder: "src",
        main: "src/lib.rs",
    },
    Home {
        kind: "bin",
        folder: "src/bin",
        main: "src/main.rs",
    },
    Home {
        kind: "example",
        folder: "examples",
        main: "",
    },
    Home {
        kind: "test",
        folder: "tests",
        main: "",
    },
    Home {
        kind: "bench",
        folder: "benches",
        main: "",
    },
];

/// The home of a kind of targets.
fn home_called(kind: &str) -> Option<Home> {
    for home in &HOMES {
        if home.kind == kind {
            return Some(*home);
        }
    }
    None
}

/// The home of the targets of the table at a path, if it is one of a target.
fn home_of(names: &[&str]) -> Option<Home> {
    match names {
        ["lib"] => home_called("lib"),
        [kind, item] if *item == ITEM => home_called(*kind),
        _ => None,
    }
}

/// Whether a path is that of a target's table.
pub(crate) fn is_of_target(names: &[&str]) -> bool {
    home_of(names).is_some()
}

fn text_in<'a>(table: &'a Table, key: &str) -> Option<&'a str> {
    table.get(key)?.as_str()
}

/// The name of the package of a document.
fn package_of(document: &Table) -> Option<&str> {
    value_at(document, &["package", "name"])?.as_str()
}

/// The first of two paths, from a folder, at which there is a file.
fn first_file<H: Files + AllocGlobal>(
    rt: &H,
    reader: &Reader,
    folder: &str,
    paths: &[String],
) -> Result<Option<String>, AllocError> {
    for path in paths {
        let whole = join(rt.alloc(), folder, path.as_str())?;
        if reader.is_file(rt, whole.as_str()) {
            return Ok(Some(path.clone()?));
        }
    }
    Ok(None)
}

/// The paths at which the file of a target without a path may be.
fn candidates(
    alloc: Global,
    home: Home,
    name: &str,
    package: Option<&str>,
) -> Result<Vec<String>, AllocError> {
    let mut paths = Vec::new(alloc);
    if home.kind == "lib" {
        paths.push(String::from_str(alloc, home.main)?)?;
        return Ok(paths);
    }
    let folder = home.folder;
    paths.push(format!(in alloc; "{folder}/{name}.rs")?)?;
    paths.push(format!(in alloc; "{folder}/{name}/main.rs")?)?;
    if !home.main.is_empty() && package == Some(name) {
        paths.push(String::from_str(alloc, home.main)?)?;
    }
    Ok(paths)
}

/// The table of the target at a path that ends with its name or its index.
fn target_at<'a>(document: &'a Table, names: &[&str], index: Option<usize>) -> Option<&'a Table> {
    match (document.get(*names.first()?)?, index) {
        (Value::Table(table), None) => Some(table),
        (Value::Array(items), Some(index)) => match items.get(index)? {
            Value::Table(table) => Some(table),
            _ => None,
        },
        _ => None,
    }
}

/// The file that the target at a path is built from, as a path from the folder of its manifest; `None` where it is no
/// target, or where no file is there.
pub(crate) fn file_of<H: Files + AllocGlobal>(
    rt: &H,
    reader: &Reader,
    manifest: &str,
    document: &Table,
    names: &[&str],
    index: Option<usize>,
) -> Result<Option<String>, AllocError> {
    let alloc = rt.alloc();
    let (Some(home), Some(target)) = (home_of(names), target_at(document, names, index)) else {
        return Ok(None);
    };
    if let Some(path) = text_in(target, "path") {
        return Ok(Some(String::from_str(alloc, path)?));
    }
    let name = text_in(target, "name").unwrap_or("");
    let paths = candidates(alloc, home, name, package_of(document))?;
    first_file(rt, reader, folder_of(manifest), paths.as_slice())
}

/// Gathers the files of a folder next to a manifest, in the order of their names.
fn push_files<H: Files + AllocGlobal + Clone + Drop>(
    rt: &H,
    manifest: &str,
    folder: &str,
    files: &mut Vec<String>,
) -> Result<(), AllocError> {
    let alloc = rt.alloc();
    let whole = join(alloc, folder_of(manifest), folder)?;
    let mut found = names_in(rt, whole.as_str())?.unwrap_or(Vec::new(alloc));
    found.sort_unstable();
    for name in &found {
        let name = name.as_str();
        if name.ends_with(".rs") {
            files.push(join(alloc, folder, name)?)?;
        }
    }
    Ok(())
}

/// The files in which a target of the table at a path can be: those in its folder, and those in `src`.
pub(crate) fn files_for<H: Files + AllocGlobal + Clone + Drop>(
    rt: &H,
    manifest: &str,
    names: &[&str],
) -> Result<Vec<String>, AllocError> {
    let mut files = Vec::new(rt.alloc());
    if let Some(home) = home_of(names) {
        push_files(rt, manifest, home.folder, &mut files)?;
        if home.folder != "src" {
            push_files(rt, manifest, "src", &mut files)?;
        }
    }
    Ok(files)
}
