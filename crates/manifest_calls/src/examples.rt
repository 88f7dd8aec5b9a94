//! The first examples of the README, over the documents of calls.

use crate::answers::reported;
use crate::documents::line_read_again;
use cargo_manifest::{Error, Manifest, ParseFault};
use std::alloc::{AllocError, Global};

/// The canonical text of a manifest.
fn canonical(alloc: Global, bytes: &[u8]) -> Result<String, Error> {
    let manifest = Manifest::from_slice(alloc, bytes)?;
    let text = manifest.to_toml_string(alloc)?;
    Ok(text)
}

/// What is wrong with a manifest, as `wrong kind at package.authors[0]`, if its schema is what is wrong.
fn complaint(alloc: Global, bytes: &[u8]) -> Result<Option<String>, AllocError> {
    match Manifest::from_slice(alloc, bytes).err() {
        Some(Error::Parse(ParseFault::Schema(fault))) => Ok(Some(format!(in alloc; "{fault}")?)),
        _ => Ok(None),
    }
}

/// The table of the canonical text of a document, which is read and written again as it is; or how it is refused.
pub fn canonical_line(alloc: Global, document: &str) -> anyhow::Result<String> {
    match canonical(alloc, document.as_bytes()) {
        Ok(text) => line_read_again(alloc, text.as_str()),
        Err(error) => Ok(reported(alloc, error)?),
    }
}

/// What is wrong with the schema of a document, or nothing.
pub fn complaint_line(alloc: Global, document: &str) -> anyhow::Result<String> {
    match complaint(alloc, document.as_bytes())? {
        Some(text) => Ok(text),
        None => Ok(String::from_str(alloc, "none")?),
    }
}
