//! What is known of files by the listings of folders.

use crate::look::Look;
use std::alloc::{AllocError, Global};
use std::collections::BTreeSet;

/// Whether a file is there.
#[derive(Clone, Copy, PartialEq, Eq)]
pub enum FileState {
    There,
    /// It is a folder.
    Folder,
    Absent,
    /// Its folder was not listed.
    Unknown,
}

/// The folder of a path, and the name in it.
pub fn split_path(path: &str) -> (&str, &str) {
    match path.rsplit_once('/') {
        Some((folder, name)) => (folder, name),
        None => ("", path),
    }
}

/// The path of what has this name in a folder.
pub fn below<'a>(alloc: Global, folder: &'a str, name: &'a str) -> Result<String, AllocError> {
    [folder, "/", name].concat(alloc)
}

/// The names in the folder, where it was listed and is there.
pub fn names_in<'a>(look: &Look<'a>, folder: &str) -> Option<&'a BTreeSet<String>> {
    look.around.folders?.names.get(folder)
}

/// The path without `.`, without what a `..` takes back, and without a last `/`; the folder itself is the empty text.
pub fn plain_path(alloc: Global, path: &str) -> Result<String, AllocError> {
    let is_absolute = path.starts_with('/');
    let mut parts = Vec::new(alloc);
    for part in path.split('/') {
        if part.is_empty() || part == "." {
            continue;
        }
        let before = parts
            .last()
            .copied()
            .unwrap_or(if is_absolute { "/" } else { ".." });
        if part != ".." || before == ".." {
            parts.push(part)?;
        } else {
            let _taken = parts.pop();
        }
    }
    joined(alloc, is_absolute, parts.as_slice())
}

fn joined(alloc: Global, is_absolute: bool, parts: &[&str]) -> Result<String, AllocError> {
    let mut path = String::new(alloc);
    for part in parts {
        if is_absolute || !path.is_empty() {
            path.push_str("/")?;
        }
        path.push_str(part)?;
    }
    Ok(path)
}

/// Whether a path without `.` and what a `..` takes back stays in the folder from which it leads.
pub fn stays_inside(plain: &str) -> bool {
    !plain.starts_with('/') && plain.split('/').next() != Some("..")
}

/// Whether the file at this path, from the folder of the manifest, is there. What is outside that folder is not looked up.
pub fn file_state(look: &Look<'_>, path: &str) -> Result<FileState, AllocError> {
    let plain = plain_path(look.alloc, path)?;
    let plain = plain.as_str();
    if look.around.folders.is_none() || plain.is_empty() || !stays_inside(plain) {
        return Ok(FileState::Unknown);
    }
    let (folder, name) = split_path(plain);
    if names_in(look, plain).is_some() {
        return Ok(FileState::Folder);
    }
    Ok(match names_in(look, folder) {
        Some(names) if names.contains(name) => FileState::There,
        Some(_) => FileState::Absent,
        None if was_asked(look, folder) => FileState::Absent,
        None => FileState::Unknown,
    })
}

/// Whether the folder was looked for, be it there or not.
fn was_asked(look: &Look<'_>, folder: &str) -> bool {
    match look.around.folders {
        Some(folders) => folders.asked.contains(folder),
        None => false,
    }
}
