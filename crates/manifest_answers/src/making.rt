//! The manifest that a call makes, and what is written of it.

ghost use Rattle.manifest_schema.specs.Prelude.{table, view};
ghost use Rattle.std.specs.Prelude.{◌≡◌, Err, IfOk, IfErr, OnOk, option_copied, option_map};
ghost use Rattle.std.specs.Bool.{MatchBool};
ghost use Rattle.manifest_bytes.specs.Encoded.{encoded};
ghost use Rattle.manifest_written.specs.Written.{written_view};
ghost use Rattle.cargo_manifest.specs.Whole.{manifest_content};
ghost use Rattle.cargo_manifest.specs.Canonical.{rewritten};
ghost use Rattle.manifest_inherit.specs.Finished.{root_of};
ghost use Rattle.manifest_answers.specs.declared.making.Output.TheVariants.{CanonicalText};
ghost use Rattle.manifest_answers.specs.Made.{stored_by, InheritsWithin, InheritsMore, FinishesStored, RefusesToFinishStored, FinishesByBytes, RefusesByBytes, MakesOver, RefusesOver, Makes, RefusesToMake, AreWithin, RefusesTagged, Writes, RefusesOutput, IsMade};

use crate::folders::{Folder, GivenFolders};
use crate::reading::{Input, read, release};
use crate::refusal::Refusal;
use cargo_manifest::laws::stored_decides;
use cargo_manifest::{Manifest, Schema};
use manifest_bytes::written_bytes;
use manifest_inherit::{finish, inherits_at_most};
use manifest_written::Written;
use std::alloc::Global;

/// What is asked for of a manifest.
#[derive(Clone, Copy)]
pub enum Output {
    /// Its canonical text.
    CanonicalText,
    /// The tagged bytes of its table.
    TaggedTable,
}

/// Whether what a manifest inherits of the dependencies of the root's workspace, where there is one, takes at most `most`
/// bytes.
fn inherits_within(most: usize, root: Option<&Manifest>, manifest: &Manifest) -> bool
    ensures { let m = manifest_content view view manifest.now in
        MatchBool result (InheritsWithin most (root_of root.entry) m)
        (InheritsMore most (root_of root.entry) m) }
{
    match root {
        Some(root) => match &root.workspace {
            Some(workspace) => inherits_at_most(manifest, workspace, most),
            None => true,
        },
        None => true,
    }
}

/// Puts into a manifest what it inherits from the workspace of the root, where there is one, and then completes it over
/// the folders, where there are any. Refuses with `TooLong` where what it inherits takes more than `most` bytes, before
/// any of it is copied.
fn finish_by(
    alloc: Global,
    most: usize,
    manifest: &mut Manifest,
    root: Option<&Manifest>,
    folders: Option<&GivenFolders<'_>>,
) -> Result<(), Refusal>
    ensures ok { OnOk result (FinishesStored most (root_of root.entry) (stored_by folders.entry)
        (manifest_content view view manifest.old) (manifest_content view view manifest.new)) }
    ensures refused { IfErr result
        (RefusesToFinishStored most (root_of root.entry) (stored_by folders.entry)
        (manifest_content view view manifest.old)) }
{
    if !inherits_within(most, root, manifest) {
        return Err(Refusal::TooLong);
    }
    stored_decides();
    match finish(alloc, manifest, root, folders) {
        Ok(()) => Ok(()),
        Err(refused) => Err(Refusal::Finishing(refused)),
    }
}

/// Finishes a manifest as [`finish_by`] does, with a root that is still bytes: it is read first.
fn finish_by_bytes(
    alloc: Global,
    most: usize,
    input: Input,
    manifest: &mut Manifest,
    root: Option<&[u8]>,
    folders: Option<&GivenFolders<'_>>,
) -> Result<(), Refusal>
    ensures ok { OnOk result
        (FinishesByBytes most input (option_copied root.entry) (stored_by folders.entry)
        (manifest_content view view manifest.old) (manifest_content view view manifest.new)) }
    ensures refused { IfErr result
        (RefusesByBytes most input (option_copied root.entry) (stored_by folders.entry)
        (manifest_content view view manifest.old)) }
{
    match root {
        Some(bytes) => match read(alloc, input, bytes) {
            Ok(root) => {
                let finished = finish_by(alloc, most, manifest, Some(&root), folders);
                release(root);
                finished
            }
            Err(refused) => Err(Refusal::Root(refused)),
        },
        None => finish_by(alloc, most, manifest, None, folders),
    }
}

/// Reads a manifest from the bytes, and finishes it as [`finish_by_bytes`] does, by the bytes of the root and over the
/// folders, where they are passed in. Refuses as the reading or the finishing does.
fn make_over(
    alloc: Global,
    most: usize,
    input: Input,
    bytes: &[u8],
    root: Option<&[u8]>,
    folders: Option<&GivenFolders<'_>>,
) -> Result<Box<Manifest>, Refusal>
    ensures ok { IfOk result (λ m.
        MakesOver most input bytes.now (option_copied root.entry) (stored_by folders.entry)
        (manifest_content view view m.value)) }
    ensures refused { IfErr result
        (RefusesOver most input bytes.now (option_copied root.entry) (stored_by folders.entry)) }
{
    let mut manifest = match read(alloc, input, bytes) {
        Ok(manifest) => manifest,
        Err(refused) => return Err(Refusal::Bytes(refused)),
    };
    match finish_by_bytes(alloc, most, input, &mut manifest, root, folders) {
        Ok(()) => Ok(manifest),
        Err(refusal) => {
            release(manifest);
            Err(refusal)
        }
    }
}

/// The manifest that the bytes are; with what it inherits from the workspace of the root's bytes, where there is a
/// root; and completed over the folders, where there are any.
pub(crate) fn make(
    alloc: Global,
    most: usize,
    input: Input,
    bytes: &[u8],
    root: Option<&[u8]>,
    folders: Option<&[Folder<'_>]>,
) -> Result<Box<Manifest>, Refusal>
    ensures ok { IfOk result (λ m.
        Makes most input bytes.now (option_copied root.entry) (option_copied folders.entry)
        (manifest_content view view m.value)) }
    ensures refused { IfErr result
        (RefusesToMake most input bytes.now (option_copied root.entry) (option_copied folders.entry)) }
{
    match folders {
        Some(folders) => match GivenFolders::new(alloc, folders) {
            Ok(given) => make_over(alloc, most, input, bytes, root, Some(&given)),
            Err(refusal) => Err(refusal),
        },
        None => make_over(alloc, most, input, bytes, root, None),
    }
}

/// The canonical text of a manifest; refused with `TooLong` where its bound is more than `most`.
fn text_of(alloc: Global, manifest: &Manifest, most: usize) -> Result<Vec<u8>, Refusal>
    ensures { let m = manifest_content view view manifest.now in
        IsMade (Writes CanonicalText most m) (RefusesOutput CanonicalText most m) result }
{
    match manifest.to_toml_string_within(alloc, most) {
        Ok(Some(text)) => Ok(text.into_bytes()),
        Ok(None) => Err(Refusal::TooLong),
        Err(error) => Err(Refusal::Printing(error)),
    }
}

/// The tagged bytes of what is written; refused with `TooLong` where they are more than `most`.
pub(crate) fn tagged_bytes(
    alloc: Global,
    written: &Written<'_>,
    most: usize,
) -> Result<Vec<u8>, Refusal>
    ensures { let tagged = encoded (written_view written.now) in
        IsMade (AreWithin most tagged) (RefusesTagged most tagged) result }
{
    let bytes = written_bytes(alloc, written)?;
    if bytes.len() > most {
        return Err(Refusal::TooLong);
    }
    Ok(bytes)
}

/// The tagged bytes of a manifest's canonical table; refused with `TooLong` where they are more than `most`.
fn table_of(alloc: Global, manifest: &Manifest, most: usize) -> Result<Vec<u8>, Refusal>
    ensures { let bytes = encoded (table (rewritten (manifest_content view view manifest.now))) in
        IsMade (AreWithin most bytes) (RefusesTagged most bytes) result }
{
    let written = manifest.written(alloc)?;
    tagged_bytes(alloc, &written, most)
}

/// The canonical text of a manifest, or its table as tagged bytes, as `output` says; `TooLong` above `most` bytes.
fn output_of(
    alloc: Global,
    output: Output,
    most: usize,
    manifest: &Manifest,
) -> Result<Vec<u8>, Refusal>
    ensures { let m = manifest_content view view manifest.now in
        IsMade (Writes output most m) (RefusesOutput output most m) result }
{
    match output {
        Output::CanonicalText => text_of(alloc, manifest, most),
        Output::TaggedTable => table_of(alloc, manifest, most),
    }
}

/// The text or the tagged bytes of the manifest that was made, as [`output_of`] makes them; or the refusal with which
/// none was made, unchanged.
pub(crate) fn output_or_refusal(
    alloc: Global,
    output: Output,
    most: usize,
    made: Result<Box<Manifest>, Refusal>,
) -> Result<Vec<u8>, Refusal>
    ensures made { IfOk made (λ m. let m = manifest_content view view m.value in
        IsMade (Writes output most m) (RefusesOutput output most m) result) }
    ensures refused { IfErr made (λ refusal. result ≡ Err refusal) }
{
    let manifest = match made {
        Ok(manifest) => manifest,
        Err(refusal) => return Err(refusal),
    };
    let text = output_of(alloc, output, most, &manifest);
    release(manifest);
    text
}
