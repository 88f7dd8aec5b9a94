//! Manifests that inherit from a workspace.

use crate::answers::{line_of_written, reported, written_text};
use crate::completion::{Ending, ending_of_completion, line_of_endings};
use crate::folders::listings;
use crate::lines::{finished, push_made};
use anyhow::anyhow;
use cargo_manifest::{Listings, Manifest, Value, Workspace};
use manifest_inherit::{FinishError, ResolveError, inherits_at_most, refusals, resolve};
use manifest_json::Text;
use std::alloc::{AllocError, Global};
use std::fmt::Display;

/// The folders from which a manifest is completed once it is resolved.
const FOLDERS: &str = "src|lib.rs|main.rs;tests|t.rs;.|build.rs";

/// A refusal that has a text, or none.
fn refusal_text<E: Display + Drop>(
    alloc: Global,
    refused: Result<(), E>,
) -> Result<Option<String>, AllocError> {
    let text = match &refused {
        Ok(()) => Ok(None),
        Err(error) => format!(in alloc; "error: {error}").map(Some),
    };
    drop(refused);
    text
}

/// Puts in what a manifest inherits from a workspace.
fn put_in(
    alloc: Global,
    manifest: &mut Manifest,
    workspace: &Workspace<Value>,
) -> Result<(), ResolveError> {
    resolve(alloc, manifest, workspace)?; // `version.workspace = true` becomes the workspace's `version = '2.0.0'`
    Ok(())
}

/// Resolves a manifest over a workspace.
fn ending_of_resolution(
    alloc: Global,
    manifest: &mut Manifest,
    workspace: &Workspace<Value>,
) -> Result<Ending, AllocError> {
    let refusal = refusal_text(alloc, put_in(alloc, manifest, workspace))?;
    Ok(Ending {
        refusal,
        written: written_text(alloc, manifest)?,
    })
}

/// Resolves a manifest and completes it.
fn ending_of_adoption(
    alloc: Global,
    manifest: &mut Manifest,
    workspace: &Workspace<Value>,
    folders: &Listings,
) -> Result<Ending, AllocError> {
    let ending = ending_of_resolution(alloc, manifest, workspace)?;
    match ending.refusal {
        Some(_) => Ok(ending),
        None => ending_of_completion(alloc, manifest, folders),
    }
}

/// Resolves a manifest twice.
fn line_of_resolution(
    alloc: Global,
    manifest: &mut Manifest,
    workspace: &Workspace<Value>,
) -> anyhow::Result<String> {
    let before = written_text(alloc, manifest)?;
    let once = ending_of_resolution(alloc, manifest, workspace)?;
    let twice = ending_of_resolution(alloc, manifest, workspace)?;
    line_of_endings(alloc, &before, &once, &twice)
}

/// Resolves a manifest and completes it, twice.
fn line_of_adoption(
    alloc: Global,
    manifest: &mut Manifest,
    workspace: &Workspace<Value>,
    folders: &str,
) -> anyhow::Result<String> {
    let folders = &listings(alloc, folders)?;
    let before = written_text(alloc, manifest)?;
    let once = ending_of_adoption(alloc, manifest, workspace, folders)?;
    let twice = ending_of_adoption(alloc, manifest, workspace, folders)?;
    line_of_endings(alloc, &before, &once, &twice)
}

/// Resolves a manifest twice, and once it is resolved, completes it twice: the line of its resolving, and the line of
/// its completion where that is refused alone, or answered otherwise the second time.
fn resolve_and_complete(
    alloc: Global,
    manifest: &mut Manifest,
    workspace: &Workspace<Value>,
) -> anyhow::Result<String> {
    let line = line_of_resolution(alloc, manifest, workspace)?;
    let completed = line_of_adoption(alloc, manifest, workspace, FOLDERS)?;
    let is_refused = completed.starts_with("error: ");
    if is_refused != line.starts_with("error: ") || completed.contains("\n") {
        Ok(format!(in alloc; "{line}\n{completed}")?)
    } else {
        Ok(line)
    }
}

/// All refusals of a manifest, a line each.
fn lines_of_refusals(
    alloc: Global,
    manifest: &Manifest,
    workspace: &Workspace<Value>,
) -> anyhow::Result<String> {
    let found = refusals(alloc, manifest, workspace)?; // as `not in workspace: version` at `package.version`
    let mut out = Text::new(alloc);
    for (path, refusal) in found.to_vec(alloc)? {
        push_made(format!(in alloc; "{refusal} at {path}"), &mut out);
    }
    Ok(finished(alloc, out)?)
}

/// Whether what a manifest inherits of a workspace takes at most this many bytes.
fn inherits_little(manifest: &Manifest, workspace: &Workspace<Value>, most: usize) -> bool {
    let is_short = inherits_at_most(manifest, workspace, most); // 5 bytes for each place that inherits `a = '2.0'`
    is_short
}

/// What is asked of a member and the workspace of its root.
#[derive(Clone, Copy)]
enum Request<'a> {
    Resolve,
    Adopt(&'a str),
    Refusals,
    InheritsAtMost(usize),
}

/// The answer to a request for a manifest over a workspace.
fn answer_over(
    alloc: Global,
    request: Request<'_>,
    manifest: &mut Manifest,
    workspace: &Workspace<Value>,
) -> anyhow::Result<String> {
    match request {
        Request::Resolve => resolve_and_complete(alloc, manifest, workspace),
        Request::Adopt(folders) => line_of_adoption(alloc, manifest, workspace, folders),
        Request::Refusals => lines_of_refusals(alloc, manifest, workspace),
        Request::InheritsAtMost(most) => {
            let is_short = inherits_little(manifest, workspace, most);
            Ok(format!(in alloc; "{is_short}")?)
        }
    }
}

/// The answer over the workspace of a root.
fn answer_over_root(
    alloc: Global,
    request: Request<'_>,
    manifest: &mut Manifest,
    root: &str,
) -> anyhow::Result<String> {
    let root = Manifest::from_str(alloc, root)?;
    let answer = match &root.workspace {
        Some(workspace) => answer_over(alloc, request, manifest, workspace),
        None => Err(anyhow!("the root has no workspace")),
    };
    drop(root);
    answer
}

/// The answer for the document of a member.
fn answer(alloc: Global, request: Request<'_>, member: &str, root: &str) -> anyhow::Result<String> {
    let mut manifest = Manifest::from_str(alloc, member)?;
    let answer = answer_over_root(alloc, request, &mut manifest, root);
    drop(manifest);
    answer
}

/// What is written of a member that is resolved over the workspace of a root, or how that is refused.
pub fn resolve_member(alloc: Global, member: &str, root: &str) -> anyhow::Result<String> {
    answer(alloc, Request::Resolve, member, root)
}

/// What is written of a member that is resolved and then completed from folders, or how that is refused.
pub fn adopt(alloc: Global, member: &str, root: &str, folders: &str) -> anyhow::Result<String> {
    answer(alloc, Request::Adopt(folders), member, root)
}

/// All refusals of a member over the workspace of a root.
pub fn refusals_of_member(alloc: Global, member: &str, root: &str) -> anyhow::Result<String> {
    answer(alloc, Request::Refusals, member, root)
}

/// Whether what a member inherits of the workspace of a root takes at most this many bytes.
pub fn inherits(alloc: Global, most: &str, member: &str, root: &str) -> anyhow::Result<String> {
    let most = most.parse::<usize>()?;
    answer(alloc, Request::InheritsAtMost(most), member, root)
}

/// How finishing a manifest is refused, if it is.
fn refusal_of_finishing(
    alloc: Global,
    finished: Result<(), FinishError>,
) -> Result<Option<String>, AllocError> {
    match finished {
        Err(FinishError::Manifest(error)) => reported(alloc, error).map(Some),
        other => refusal_text(alloc, other),
    }
}

/// Finishes a manifest by a root and by folders, where they are there: what is written of it, after the refusal if
/// there is one.
fn finish_by(
    alloc: Global,
    manifest: &mut Manifest,
    root: Option<&Manifest>,
    folders: &str,
) -> anyhow::Result<String> {
    let listed = listings(alloc, folders)?;
    let folders = if folders.is_empty() {
        None
    } else {
        Some(&listed)
    };
    finish_over(alloc, manifest, root, folders)
}

/// The same for folders that are listed.
fn finish_over(
    alloc: Global,
    manifest: &mut Manifest,
    root: Option<&Manifest>,
    folders: Option<&Listings>,
) -> anyhow::Result<String> {
    let finished = manifest_inherit::finish(alloc, manifest, root, folders);
    let refusal = refusal_of_finishing(alloc, finished)?;
    let line = line_of_written(alloc, &written_text(alloc, manifest)?)?;
    match refusal {
        None => Ok(line),
        Some(refusal) => Ok(format!(in alloc; "{refusal}\n{line}")?),
    }
}

/// The same for the text of a root.
fn finish_by_root(
    alloc: Global,
    manifest: &mut Manifest,
    root: &str,
    folders: &str,
) -> anyhow::Result<String> {
    if root.is_empty() {
        return finish_by(alloc, manifest, None, folders);
    }
    let root = Manifest::from_str(alloc, root)?;
    let line = finish_by(alloc, manifest, Some(&root), folders);
    drop(root);
    line
}

/// What is written of a document that is finished by a root and by folders, after the refusal if there is one. An empty
/// text stands for no root, or for no folders.
pub fn finish(alloc: Global, document: &str, root: &str, folders: &str) -> anyhow::Result<String> {
    let mut manifest = Manifest::from_str(alloc, document)?;
    let line = finish_by_root(alloc, &mut manifest, root, folders);
    drop(manifest);
    line
}
