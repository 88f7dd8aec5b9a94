//! The manifests that are to be checked.

use manifest_surroundings::{MANIFEST, Unread, is_folder, join, opened};
use std::alloc::{AllocError, Global};
use std::collections::BTreeSet;
use std::os::unix::fs::MetadataExt;
use std::rt::Files;
use std::{fs, io};

/// The manifests that were found, and what could not be read.
#[derive(Drop)]
pub(crate) struct Found {
    pub(crate) files: Vec<String>,
    pub(crate) unread: Vec<Unread>,
}

/// What is left to go through, and which folders were.
#[derive(Drop)]
struct Walk {
    folders: Vec<String>,
    visited: BTreeSet<(u64, u64)>,
}

/// Whether nothing below a folder of this name is looked at.
fn is_left_out(name: &str) -> bool {
    name.starts_with('.') || name == "target"
}

/// Notes a manifest, or a folder that is to be gone through.
fn note_entry<H: Files>(
    rt: &H,
    alloc: Global,
    folder: &str,
    name: &str,
    walk: &mut Walk,
    found: &mut Found,
) -> io::Result<()> {
    if is_left_out(name) {
        return Ok(());
    }
    let path = join(alloc, folder, name)?;
    if name == MANIFEST {
        if !is_folder(rt, path.as_str()) {
            found.files.push(path)?;
        }
    } else if is_folder(rt, path.as_str()) {
        walk.folders.push(path)?;
    }
    Ok(())
}

/// Whether a folder was not gone through before, by whatever path.
fn is_new<H: Files>(rt: &H, folder: &str, walk: &mut Walk) -> io::Result<bool> {
    let metadata = fs::metadata(rt, opened(folder))?;
    Ok(walk.visited.insert((metadata.dev(), metadata.ino()))?)
}

/// Notes what is in a folder.
fn visit<H: Files + AllocGlobal + Clone + Drop>(
    rt: &H,
    folder: &str,
    walk: &mut Walk,
    found: &mut Found,
) -> io::Result<()> {
    let alloc = rt.alloc();
    if !is_new(rt, folder, walk)? {
        return Ok(());
    }
    for entry in fs::read_dir(rt, opened(folder))? {
        match entry {
            Ok(entry) => note_entry(rt, alloc, folder, entry.file_name(), walk, found)?,
            Err(fault) => found
                .unread
                .push(Unread::new(alloc, opened(folder), &fault)?)?,
        }
    }
    Ok(())
}

/// Goes through a folder and all folders below it.
fn walk_folder<H: Files + AllocGlobal + Clone + Drop>(
    rt: &H,
    folder: &str,
    walk: &mut Walk,
    found: &mut Found,
) -> Result<(), AllocError> {
    let alloc = rt.alloc();
    walk.folders.push(String::from_str(alloc, folder)?)?;
    for _ in 0..u64::MAX {
        let Some(folder) = walk.folders.pop() else {
            return Ok(());
        };
        if let Err(fault) = visit(rt, folder.as_str(), walk, found) {
            let unread = Unread::new(alloc, opened(folder.as_str()), &fault)?;
            found.unread.push(unread)?;
        }
    }
    Ok(())
}

/// The path of a folder before that of what is in it: of `.` it is the empty text.
fn folder_path(path: &str) -> &str {
    match path.strip_suffix('/').unwrap_or(path) {
        "" => "/",
        "." => "",
        folder => folder,
    }
}

/// The manifests at these paths, in the order of their names, each once: a file itself, and all files `Cargo.toml` in a
/// folder and below it, but for those below `target` and below hidden folders. A folder that several links lead to is
/// gone through once.
pub(crate) fn manifests<H: Files + AllocGlobal + Clone + Drop>(
    rt: &H,
    paths: &[String],
) -> Result<Found, AllocError> {
    let alloc = rt.alloc();
    let mut found = Found {
        files: Vec::new(alloc),
        unread: Vec::new(alloc),
    };
    let mut walk = Walk {
        folders: Vec::new(alloc),
        visited: BTreeSet::new(alloc),
    };
    for path in paths {
        match fs::metadata(rt, path.as_str()) {
            Ok(metadata) if metadata.is_dir() => {
                walk_folder(rt, folder_path(path.as_str()), &mut walk, &mut found)?;
            }
            Ok(_) => found.files.push(path.clone()?)?,
            Err(fault) => found
                .unread
                .push(Unread::new(alloc, path.as_str(), &fault)?)?,
        }
    }
    found.files.sort_unstable();
    found.files.dedup();
    Ok(found)
}
