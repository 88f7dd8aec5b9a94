//! Calls that are made once more where memory ran out, for `scripts/try/growth`, which refuses each request for memory in
//! turn. The answer is then where it ran out, whether what was to be changed or copied is as before, and the answer to
//! the second call.

use crate::answers::{line_of_written, written_text};
use crate::documents::line_of_read;
use crate::folders::listings;
use anyhow::bail;
use cargo_manifest::{Error, Listings, Manifest, ParseFault, Value, Workspace};
use manifest_inherit::ResolveError;
use std::alloc::Global;
use std::io::ErrorKind;

/// Where memory ran out: in the call itself, in the parser, or in the copy of a listing; `None` for any other refusal.
fn out_of_memory(error: &Error) -> Option<&'static str> {
    match error {
        Error::Memory(_) => Some("memory"),
        Error::Parse(ParseFault::Toml(fault)) if fault.is_memory() => Some("toml"),
        Error::Io(fault) if fault.kind() == ErrorKind::OutOfMemory => Some("io"),
        _ => None,
    }
}

/// Reads a document.
fn read(alloc: Global, document: &str) -> anyhow::Result<String> {
    let bytes = document.as_bytes();
    let first = Manifest::from_slice(alloc, bytes);
    let cause = match &first {
        Ok(_) => None,
        Err(error) => out_of_memory(error),
    };
    let line = line_of_read(alloc, first)?;
    match cause {
        None => Ok(line),
        Some(cause) => {
            let line = line_of_read(alloc, Manifest::from_slice(alloc, bytes))?;
            Ok(format!(in alloc; "{cause}\n{line}")?)
        }
    }
}

/// A change of a manifest.
#[derive(Clone, Copy)]
enum Change<'a> {
    /// Its completion from folders.
    Complete(&'a Listings),
    /// Its resolving over a workspace.
    Resolve(&'a Workspace<Value>),
}

impl Change<'_> {
    /// Changes a manifest; why that is refused, if it is.
    fn refusal(self, alloc: Global, manifest: &mut Manifest) -> Option<&'static str> {
        match self {
            Change::Complete(folders) => {
                match manifest.complete_from_abstract_filesystem(alloc, folders) {
                    Ok(()) => None,
                    Err(error) => {
                        let cause = out_of_memory(&error);
                        drop(error);
                        cause.or(Some("another refusal"))
                    }
                }
            }
            Change::Resolve(workspace) => {
                let resolved = manifest_inherit::resolve(alloc, manifest, workspace);
                let cause = match &resolved {
                    Ok(()) => None,
                    Err(ResolveError::Memory(_)) => Some("memory"),
                    Err(_) => Some("another refusal"),
                };
                drop(resolved);
                cause
            }
        }
    }
}

/// What is written of a manifest.
fn line_of_manifest(alloc: Global, manifest: &Manifest) -> anyhow::Result<String> {
    line_of_written(alloc, &written_text(alloc, manifest)?)
}

/// Whether the text of a manifest or of an error is what it was, in a word.
fn kept(before: &str, after: &str) -> &'static str {
    if before == after { "kept" } else { "changed" }
}

/// Changes a manifest.
fn line_of_change(
    alloc: Global,
    manifest: &mut Manifest,
    change: Change<'_>,
) -> anyhow::Result<String> {
    let before = manifest.to_toml_string(alloc)?;
    match change.refusal(alloc, manifest) {
        None => line_of_manifest(alloc, manifest),
        Some(cause) => line_of_retry(alloc, manifest, change, cause, before.as_str()),
    }
}

/// Changes a manifest once more, whose change was refused.
fn line_of_retry(
    alloc: Global,
    manifest: &mut Manifest,
    change: Change<'_>,
    cause: &str,
    before: &str,
) -> anyhow::Result<String> {
    let after = manifest.to_toml_string(alloc)?;
    let word = kept(before, after.as_str());
    let again = change.refusal(alloc, manifest).unwrap_or("done");
    let line = line_of_manifest(alloc, manifest)?;
    Ok(format!(in alloc; "{cause}\n{word}\n{again}\n{line}")?)
}

/// Completes the manifest of a document from folders.
fn complete(alloc: Global, document: &str, folders: &str) -> anyhow::Result<String> {
    let folders = listings(alloc, folders)?;
    let mut manifest = Manifest::from_str(alloc, document)?;
    let line = line_of_change(alloc, &mut manifest, Change::Complete(&folders));
    drop(manifest);
    line
}

/// Resolves the manifest of a document over the workspace of a root.
fn resolve_over(alloc: Global, document: &str, root: &Manifest) -> anyhow::Result<String> {
    let Some(workspace) = &root.workspace else {
        bail!("the root has no workspace");
    };
    let mut manifest = Manifest::from_str(alloc, document)?;
    let line = line_of_change(alloc, &mut manifest, Change::Resolve(workspace));
    drop(manifest);
    line
}

/// The same for the document of the root.
fn resolve(alloc: Global, document: &str, root: &str) -> anyhow::Result<String> {
    let root = Manifest::from_str(alloc, root)?;
    let line = resolve_over(alloc, document, &root);
    drop(root);
    line
}

/// Copies an error: the text of the copy.
fn copy(alloc: Global, error: &Error) -> anyhow::Result<String> {
    let before = format!(in alloc; "{error}")?;
    match error.clone(alloc) {
        Ok(copy) => Ok(format!(in alloc; "{copy}")?),
        Err(_) => copy_again(alloc, error, before.as_str()),
    }
}

/// Copies an error once more, whose copy was refused.
fn copy_again(alloc: Global, error: &Error, before: &str) -> anyhow::Result<String> {
    let after = format!(in alloc; "{error}")?;
    let word = kept(before, after.as_str());
    let copy = error.clone(alloc)?;
    Ok(format!(in alloc; "memory\n{word}\n{copy}")?)
}

/// Copies the fault of the schema with which a document is refused.
fn copy_fault(alloc: Global, document: &str) -> anyhow::Result<String> {
    let read: Result<Manifest, Error> = Manifest::from_str(alloc, document);
    match read.err() {
        Some(Error::Parse(ParseFault::Schema(fault))) => {
            copy(alloc, &Error::Parse(ParseFault::Schema(fault)))
        }
        Some(error) => Err(anyhow::Error::from(error)),
        None => bail!("the document is not refused"),
    }
}

/// The answer to the call of this name.
pub fn answer(alloc: Global, of: &str, first: &str, second: &str) -> anyhow::Result<String> {
    match of {
        "read" => read(alloc, first),
        "complete" => complete(alloc, first, second),
        "resolve" => resolve(alloc, first, second),
        "copy" => copy_fault(alloc, first),
        "text" => copy(alloc, &Error::Other(String::from_str(alloc, first)?)),
        _ => bail!("there is no call of this name"),
    }
}
