//! Manifests whose metadata is not looked at, and documents whatever they mean: what a caller reads who takes metadata
//! as it stands in the text, floats and all.

ghost use Rattle.manifest_schema.specs.Prelude.{table, view, unread, written_manifest};
ghost use Rattle.std.specs.Prelude.{◌≡◌};
ghost use Rattle.manifest_bytes.specs.Encoded.{encoded};
ghost use Rattle.cargo_manifest.specs.Whole.{manifest_of};
ghost use Rattle.manifest_answers.specs.Made.{AreWithin, RefusesTagged, IsMade};
ghost use Rattle.manifest_answers.specs.Unread.{no_metadata, GivesUnread, RefusesUnread, GivesDocument, RefusesDocument};

use crate::making::tagged_bytes;
use crate::reading::{document, from_text, release};
use crate::refusal::Refusal;
use cargo_manifest::{Manifest, Schema, Unread, Value};
use manifest_written::Written;
use std::alloc::Global;

/// The tagged bytes of the table of a manifest without metadata.
fn table_of_unread(
    alloc: Global,
    manifest: &Manifest<Unread, Unread>,
    most: usize,
) -> Result<Vec<u8>, Refusal>
    ensures { let bytes = encoded (written_manifest no_metadata no_metadata
        (manifest_of unread unread (λ u. tt) (λ u. tt) manifest.now)) in
        IsMade (AreWithin most bytes) (RefusesTagged most bytes) result }
{
    let written = manifest.written(alloc)?;
    tagged_bytes(alloc, &written, most)
}

/// The tagged bytes of the table of the manifest that the bytes of a `Cargo.toml` mean, whose metadata is not read.
/// Refuses as the manifest is refused, bytes that are more than `most`, and when out of memory.
pub(crate) fn unread_table(alloc: Global, bytes: &[u8], most: usize) -> Result<Vec<u8>, Refusal>
    ensures { IsMade (GivesUnread most bytes.now) (RefusesUnread most bytes.now) result }
{
    let manifest: Box<Manifest<Unread, Unread>> = match from_text(alloc, bytes) {
        Ok(manifest) => manifest,
        Err(refused) => return Err(Refusal::Bytes(refused)),
    };
    let table = table_of_unread(alloc, &manifest, most);
    release(manifest);
    table
}

/// The tagged bytes of the table of a TOML document, whether it means a manifest or not. Refuses bytes that are no
/// document, tagged bytes that are more than `most`, and when out of memory.
pub(crate) fn document_table(alloc: Global, bytes: &[u8], most: usize) -> Result<Vec<u8>, Refusal>
    ensures { IsMade (GivesDocument most bytes.now) (RefusesDocument most bytes.now) result }
{
    let value = match document(alloc, bytes) {
        Ok(table) => Value::Table(table),
        Err(refused) => return Err(Refusal::Bytes(refused)),
    };
    tagged_bytes(alloc, &Written::Value(&value), most)
}
