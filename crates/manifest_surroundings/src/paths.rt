//! Paths as texts.

use manifest_json::Text;
use std::alloc::{AllocError, Global};

/// The name of a manifest.
pub const MANIFEST: &str = "Cargo.toml";

/// The folder that a file is in: of `a/b` it is `a`, of `/b` it is `/`, of `b` it is the empty text.
pub fn folder_of(path: &str) -> &str {
    match path.rsplit_once('/') {
        Some(("", _name)) => "/",
        Some((folder, _name)) => folder,
        None => "",
    }
}

/// A name in a folder, or a path from it; the folder with the empty name is where the program runs.
pub fn join(alloc: Global, folder: &str, name: &str) -> Result<String, AllocError> {
    if folder.is_empty() || name.starts_with('/') {
        return String::from_str(alloc, name);
    }
    let mut path = Text::new(alloc);
    path.push_str(folder);
    if !folder.ends_with('/') {
        path.push('/');
    }
    path.push_str(name);
    path.finish()
}

/// The path that a folder is opened by.
pub fn opened(folder: &str) -> &str {
    if folder.is_empty() { "." } else { folder }
}

/// The parts of a path that are names: `a/./b/../c` has `a` and `c`.
pub(crate) fn names_of<'a>(alloc: Global, path: &'a str) -> Result<Vec<&'a str>, AllocError> {
    let mut names = Vec::new(alloc);
    for name in path.split('/') {
        match name {
            "" | "." => {}
            ".." => {
                let _ = names.pop();
            }
            _ => names.push(name)?,
        }
    }
    Ok(names)
}

/// An absolute path without `.`, `..` and what they undo.
pub(crate) fn normal(alloc: Global, path: &str) -> Result<String, AllocError> {
    let names = names_of(alloc, path)?;
    let mut normal = Text::new(alloc);
    for name in &names {
        normal.push('/');
        normal.push_str(*name);
    }
    if normal.as_str().is_empty() {
        normal.push('/');
    }
    normal.finish()
}

/// The absolute path to which a path leads from a folder with an absolute path.
pub fn resolved(alloc: Global, folder: &str, path: &str) -> Result<String, AllocError> {
    let joined = join(alloc, folder, path)?;
    normal(alloc, joined.as_str())
}

/// What is left of a path below a folder; `None` where it is not below it. Both are absolute.
pub(crate) fn below<'a>(path: &'a str, folder: &str) -> Option<&'a str> {
    let rest = path.strip_prefix(folder)?;
    if rest.is_empty() || folder == "/" {
        return Some(rest);
    }
    rest.strip_prefix('/')
}

/// A path as it is shown: from where the program runs, if it leads to something below that.
pub fn shown<'a>(path: &'a str, current: &str) -> &'a str {
    match below(path, current) {
        Some("") | None => path,
        Some(rest) => rest,
    }
}
