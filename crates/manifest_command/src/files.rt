//! Printing the manifest of a file.

ghost use Rattle.std.specs.Prelude.{IfOk, OnOk, OnErr};
ghost use Rattle.toml.specs.View.{view};
ghost use Rattle.cargo_manifest.specs.Whole.{manifest_content};
ghost use Rattle.manifest_inherit.specs.Finished.{root_of};
ghost use Rattle.manifest_command.specs.Run.{canon_file, MayPrint, IsFileOf, IsFinished, IsFinishedBy, PrintsOne, BeginsOne};
ghost use Rattle.manifest_command.specs.Words.{completes_by};

use crate::printing::print_manifest;
use cargo_manifest::{Error, Filesystem, Manifest};
use manifest_inherit::{FinishError, finish};
use std::io::Write;
use std::path::Path;
use std::rt::Files;
use std::{fs, io};

/// Reads a file, and the manifest that its bytes mean. Nothing is completed.
fn read_manifest<H: Files + AllocGlobal>(rt: &H, file: &str) -> Result<Manifest, Error>
    ensures { IfOk result (λ m. IsFileOf (manifest_content view view m)) }
{
    let bytes = fs::read(rt, Path::new(file))?;
    Manifest::from_slice(rt.alloc(), bytes.as_slice())
}

/// Puts into a manifest what it inherits from the workspace of its root, where there is one, and completes it over the
/// folder that FILE stands in.
fn finish_in<H: Files + AllocGlobal + Clone + Drop>(
    rt: &H,
    file: &str,
    root: Option<&Manifest>,
    manifest: &mut Manifest,
) -> Result<(), FinishError>
    ensures { OnOk result (IsFinished (root_of root.entry)
        (manifest_content view view manifest.old) (manifest_content view view manifest.new)) }
{
    match Path::new(file).parent() {
        Some(folder) => {
            let folders = Filesystem::new(rt, folder);
            finish(rt.alloc(), manifest, root, Some(&folders))
        }
        None => Err(FinishError::Manifest(Error::Io(io::Error::other("the path has no parent")))),
    }
}

/// Finishes a manifest as [`finish_in`] does, with a root that is read from its file first, where there is one.
fn finish_at<H: Files + AllocGlobal + Clone + Drop>(
    rt: &H,
    file: &str,
    root: Option<&str>,
    manifest: &mut Manifest,
) -> Result<(), FinishError>
    ensures { OnOk result (IsFinishedBy root.entry
        (manifest_content view view manifest.old) (manifest_content view view manifest.new)) }
{
    match root {
        Some(root) => match read_manifest(rt, root) {
            Ok(root) => {
                let finished = finish_in(rt, file, Some(&root), manifest);
                drop(root);
                finished
            }
            Err(refused) => Err(FinishError::Manifest(refused)),
        },
        None => finish_in(rt, file, None, manifest),
    }
}

/// The manifest of FILE, finished: with what it inherits from the workspace of `root`, where there is one, and
/// completed over the folder that FILE stands in.
fn finished_manifest<H: Files + AllocGlobal + Clone + Drop>(
    rt: &H,
    file: &str,
    root: Option<&str>,
) -> Result<Manifest, FinishError>
    ensures { IfOk result (λ m. MayPrint (completes_by root.entry) (manifest_content view view m)) }
{
    let mut manifest = match read_manifest(rt, file) {
        Ok(manifest) => manifest,
        Err(refused) => return Err(FinishError::Manifest(refused)),
    };
    match finish_at(rt, file, root, &mut manifest) {
        Ok(()) => Ok(manifest),
        Err(refused) => {
            drop(manifest);
            Err(refused)
        }
    }
}

/// Reads the manifest of a file, and writes its canonical text to `output`. After a refusal `output` has at most a
/// beginning of the text.
pub fn canon_at<H: Files + AllocGlobal, W: Write>(
    rt: &H,
    file: &str,
    output: &mut W,
) -> Result<(), FinishError>
    ensures ok { OnOk result
        (PrintsOne (MayPrint canon_file) (W.contents output.old) (W.contents output.new)) }
    ensures refused { OnErr result
        (BeginsOne (MayPrint canon_file) (W.contents output.old) (W.contents output.new)) }
{
    let manifest = match read_manifest(rt, file) {
        Ok(manifest) => manifest,
        Err(refused) => return Err(FinishError::Manifest(refused)),
    };
    print_manifest(rt.alloc(), manifest, output)?;
    Ok(())
}

/// Prints the canonical text of the manifest that FILE holds, with what it inherits from the workspace of ROOT, where
/// there is one, and completed over the folder that FILE stands in.
pub fn complete_at<H: Files + AllocGlobal + Clone + Drop, W: Write>(
    rt: &H,
    file: &str,
    root: Option<&str>,
    output: &mut W,
) -> Result<(), FinishError>
    ensures ok { OnOk result (PrintsOne (MayPrint (completes_by root.entry))
        (W.contents output.old) (W.contents output.new)) }
    ensures refused { OnErr result (BeginsOne (MayPrint (completes_by root.entry))
        (W.contents output.old) (W.contents output.new)) }
{
    let manifest = match finished_manifest(rt, file, root) {
        Ok(manifest) => manifest,
        Err(refused) => return Err(refused),
    };
    print_manifest(rt.alloc(), manifest, output)?;
    Ok(())
}
