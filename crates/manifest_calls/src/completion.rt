//! Manifests that are completed, and declared targets without a file.

use crate::answers::{Written, line_of_written, reported, written_text};
use crate::folders::listings;
use crate::lines::{finished, push_error, push_lines};
use cargo_manifest::{AbstractFilesystem, Error, KeyPath, Manifest};
use manifest_json::Text;
use std::alloc::{AllocError, Global};

/// How a change of a manifest ends: with a refusal or without, and what is then written of the manifest.
#[derive(PartialEq, Eq)]
pub struct Ending {
    pub refusal: Option<String>,
    pub written: Written,
}

// (by hand, so that a call drops it where it goes out of scope: there is less to prove)
impl Drop for Ending {
    fn drop(self) {
        let Ending {
            refusal: _,
            written: _,
        } = self;
    }
}

/// Completes a manifest.
pub fn ending_of_completion<F: AbstractFilesystem>(
    alloc: Global,
    manifest: &mut Manifest,
    folders: &F,
) -> Result<Ending, AllocError> {
    let refusal = match manifest.complete_from_abstract_filesystem(alloc, folders) {
        Ok(()) => None,
        Err(error) => Some(reported(alloc, error)?),
    };
    Ok(Ending {
        refusal,
        written: written_text(alloc, manifest)?,
    })
}

/// The line of a change that is made twice: what is written, or the refusal; and a further line where a refusal changed
/// the manifest, or the second time is answered otherwise or changes it.
pub fn line_of_endings(
    alloc: Global,
    before: &Written,
    once: &Ending,
    twice: &Ending,
) -> anyhow::Result<String> {
    let (line, is_kept) = match &once.refusal {
        Some(refusal) => (refusal.clone()?, once.written == *before),
        None => (line_of_written(alloc, &once.written)?, true),
    };
    if !is_kept {
        Ok(format!(in alloc; "{line}\nwhich changes the manifest")?)
    } else if once != twice {
        Ok(format!(in alloc; "{line}\nwhich is not the answer to the second time")?)
    } else {
        Ok(line)
    }
}

/// Completes a manifest twice.
fn complete_twice(alloc: Global, manifest: &mut Manifest, folders: &str) -> anyhow::Result<String> {
    let folders = &listings(alloc, folders)?;
    let before = written_text(alloc, manifest)?;
    let once = ending_of_completion(alloc, manifest, folders)?;
    let twice = ending_of_completion(alloc, manifest, folders)?;
    line_of_endings(alloc, &before, &once, &twice)
}

/// What is written of the manifest of a document that is completed from folders, or how that is refused.
pub fn complete(alloc: Global, document: &str, folders: &str) -> anyhow::Result<String> {
    let mut manifest = Manifest::from_str(alloc, document)?;
    let line = complete_twice(alloc, &mut manifest, folders);
    drop(manifest);
    line
}

/// Paths, a line each, or the refusal in their place.
pub fn lines_of_paths(
    alloc: Global,
    paths: Result<Vec<KeyPath>, Error>,
) -> Result<String, AllocError> {
    let mut out = Text::new(alloc);
    match &paths {
        Ok(paths) => push_lines(alloc, paths.as_slice(), &mut out),
        Err(error) => push_error(alloc, error, &mut out),
    }
    finished(alloc, out)
}

/// The declared targets of a document for which the folders have no file.
pub fn unfound(alloc: Global, document: &str, folders: &str) -> anyhow::Result<String> {
    let folders = listings(alloc, folders)?;
    let manifest = Manifest::from_str(alloc, document)?;
    let paths = manifest.unfound_targets(alloc, &folders);
    drop(manifest);
    Ok(lines_of_paths(alloc, paths)?)
}
