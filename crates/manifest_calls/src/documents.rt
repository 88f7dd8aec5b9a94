//! Documents, read as manifests and written.

use crate::answers::{Written, error_text, line_of_written, table_line, written_text};
use cargo_manifest::{Error, Manifest, Metadata};
use std::alloc::{AllocError, Global};

/// What is written of a manifest that was read, or how it was refused.
fn written_of<P: Metadata, W: Metadata>(
    alloc: Global,
    read: &Result<Manifest<P, W>, Error>,
) -> Result<Written, AllocError> {
    match read {
        Ok(manifest) => written_text(alloc, manifest),
        Err(error) => Ok(Written::Refusal(error_text(alloc, error)?)),
    }
}

/// The same for a manifest that is needed no more.
pub fn written<P: Metadata, W: Metadata>(
    alloc: Global,
    read: Result<Manifest<P, W>, Error>,
) -> Result<Written, AllocError> {
    let written = written_of(alloc, &read);
    drop(read);
    written
}

/// The line of what is written of a manifest that was read, or how it was refused.
pub fn line_of_read<P: Metadata, W: Metadata>(
    alloc: Global,
    read: Result<Manifest<P, W>, Error>,
) -> anyhow::Result<String> {
    line_of_written(alloc, &written(alloc, read)?)
}

/// The table that is written of a manifest; and a further line where the text is read as another manifest.
pub fn line_read_again(alloc: Global, text: &str) -> anyhow::Result<String> {
    let line = table_line(alloc, text)?;
    let again = written(alloc, Manifest::from_str(alloc, text))?;
    if again.is_text(text) {
        Ok(line)
    } else {
        Ok(format!(in alloc; "{line}\nwhich is read as another manifest")?)
    }
}

/// What a document is answered with; and a further line where its bytes are answered otherwise.
pub fn answer(alloc: Global, document: &str) -> anyhow::Result<String> {
    let by_text = written(alloc, Manifest::from_str(alloc, document))?;
    let by_bytes = written(alloc, Manifest::from_slice(alloc, document.as_bytes()))?;
    answer_by(alloc, &by_text, by_text == by_bytes)
}

/// The answer by what is written of a document; and a further line where that is not so of its bytes.
fn answer_by(alloc: Global, by_text: &Written, is_of_bytes: bool) -> anyhow::Result<String> {
    let line = match by_text {
        Written::Text(text) => line_read_again(alloc, text.as_str())?,
        Written::Refusal(refusal) => refusal.clone()?,
    };
    if is_of_bytes {
        Ok(line)
    } else {
        Ok(format!(in alloc; "{line}\nwhich is not the answer to its bytes")?)
    }
}

/// What the bytes of a document are answered with, by their digits.
pub fn answer_of_bytes(alloc: Global, digits: &str) -> anyhow::Result<String> {
    let bytes = hex::decode(alloc, digits)?;
    line_of_read(alloc, Manifest::from_slice(alloc, bytes.as_slice()))
}
