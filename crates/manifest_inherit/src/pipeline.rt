//! What is made of a manifest that was read: what it inherits from the workspace of a root is put in, where there is a
//! root, and it is completed over a filesystem, where there is one.

ghost use Rattle.std.specs.Prelude.{OnOk, IfErr};
ghost use Rattle.toml.specs.View.{view};
ghost use Rattle.cargo_manifest.specs.Whole.{manifest_content};
ghost use Rattle.manifest_inherit.specs.Finished.{root_of, Inherits, RefusesToInherit, CompletedOver, RefusesToCompleteOver, Finishes, RefusesToFinish};

use crate::error::FinishError;
use crate::resolution::resolve;
use cargo_manifest::{AbstractFilesystem, Manifest};
use std::alloc::Global;

/// Resolves the manifest by the workspace of `root`, as [`resolve`](crate::resolve) does; without a root nothing is
/// changed. Refuses a root that has no `workspace` with `NoWorkspace`.
fn inherit(
    alloc: Global,
    root: Option<&Manifest>,
    manifest: &mut Manifest,
) -> Result<(), FinishError>
    ensures ok { OnOk result (Inherits (root_of root.entry)
        (manifest_content view view manifest.old) (manifest_content view view manifest.new)) }
    ensures refused { IfErr result (RefusesToInherit (root_of root.entry)
        (manifest_content view view manifest.old) (manifest_content view view manifest.new)) }
{
    match root {
        Some(root) => match &root.workspace {
            Some(workspace) => match resolve(alloc, manifest, workspace) {
                Ok(()) => Ok(()),
                Err(refused) => Err(FinishError::Resolve(refused)),
            },
            None => Err(FinishError::NoWorkspace),
        },
        None => Ok(()),
    }
}

/// Completes the manifest over the filesystem `folders`, as [`Manifest::complete_from_abstract_filesystem`] does;
/// without one nothing is changed.
fn complete<F: AbstractFilesystem>(
    alloc: Global,
    folders: Option<&F>,
    manifest: &mut Manifest,
) -> Result<(), FinishError>
    ensures ok { OnOk result (CompletedOver F.allows folders.entry
        (manifest_content view view manifest.old) (manifest_content view view manifest.new)) }
    ensures refused { IfErr result (RefusesToCompleteOver F.allows folders.entry
        (manifest_content view view manifest.old) (manifest_content view view manifest.new)) }
{
    match folders {
        Some(folders) => match manifest.complete_from_abstract_filesystem(alloc, folders) {
            Ok(()) => Ok(()),
            Err(error) => Err(FinishError::Manifest(error)),
        },
        None => Ok(()),
    }
}

/// Puts in what the manifest inherits from the workspace of the root, as [`resolve`](crate::resolve) does, where there
/// is a root; and then completes it over the filesystem, as [`Manifest::complete_from_abstract_filesystem`] does, where
/// there is one.
///
/// Refuses a root that has no `workspace` with [`FinishError::NoWorkspace`]; then as `resolve` does, with
/// [`FinishError::Resolve`]; and then as the completion does, with [`FinishError::Manifest`]. Where it is the
/// completion that is refused, the manifest is left with what it inherits; else it is what it was.
///
/// ```ignore
/// finish(alloc, &mut member, Some(&root), Some(&listings))?;
/// finish::<Listings>(alloc, &mut manifest, None, None)?; // changes nothing
/// ```
pub fn finish<F: AbstractFilesystem>(
    alloc: Global,
    manifest: &mut Manifest,
    root: Option<&Manifest>,
    folders: Option<&F>,
) -> Result<(), FinishError>
    ensures ok { OnOk result (Finishes F.allows (root_of root.entry) folders.entry
        (manifest_content view view manifest.old) (manifest_content view view manifest.new)) }
    ensures refused { IfErr result (RefusesToFinish F.allows (root_of root.entry) folders.entry
        (manifest_content view view manifest.old) (manifest_content view view manifest.new)) }
{
    match inherit(alloc, root, manifest) {
        Ok(()) => match complete(alloc, folders, manifest) {
            Ok(()) => Ok(()),
            Err(refused) => Err(refused),
        },
        Err(refused) => Err(refused),
    }
}
