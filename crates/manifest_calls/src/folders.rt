//! Filesystems of listings.

use cargo_manifest::{Listing, Listings};
use std::alloc::{AllocError, Global};
use std::collections::BTreeSet;

/// Puts a folder into listings: its path and its names, with `|` before each.
fn put_names(listings: &mut Listings, alloc: Global, folder: &str) -> Result<(), AllocError> {
    let mut parts = folder.split('|');
    let path = parts.next().unwrap_or("");
    let mut names = BTreeSet::new(alloc);
    for name in parts {
        names.insert(String::from_str(alloc, name)?)?;
    }
    listings.put(alloc, path, Listing::Names(names))
}

/// The folders that a text describes, with `;` between them: a path and its names, with `|` before each; or a path and
/// `!`, which is a fault.
pub fn listings(alloc: Global, text: &str) -> Result<Listings, AllocError> {
    let mut listings = Listings::new(alloc);
    for folder in text.split(';') {
        match folder.strip_suffix("!") {
            Some(path) => listings.put(alloc, path, Listing::Fault)?,
            None => put_names(&mut listings, alloc, folder)?,
        }
    }
    Ok(listings)
}
