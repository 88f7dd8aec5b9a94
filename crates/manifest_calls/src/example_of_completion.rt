//! The example at the head of `cargo_manifest`, which is the README's last one: a manifest, completed and written.
use cargo_manifest::{Error, Listings, Manifest};
use std::alloc::Global;

/// The canonical text of a manifest, completed from listings of its folders.
fn completed(alloc: Global, text: &str, listings: &Listings) -> Result<String, Error> {
    let mut manifest = Manifest::from_str(alloc, text)?;
    manifest.complete_from_abstract_filesystem(alloc, listings)?;
    manifest.to_toml_string(alloc)
}

/// The table of the text of a document, completed from folders; or how it is refused.
pub fn answer(alloc: Global, document: &str, folders: &str) -> anyhow::Result<String> {
    let listings = crate::folders::listings(alloc, folders)?;
    match completed(alloc, document, &listings) {
        Ok(text) => crate::answers::table_line(alloc, text.as_str()),
        Err(error) => Ok(crate::answers::reported(alloc, error)?),
    }
}
