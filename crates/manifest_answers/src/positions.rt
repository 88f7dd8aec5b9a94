//! The lines and the columns of offsets in a text, as tagged bytes.

ghost use Rattle.manifest_schema.specs.Prelude.{view};
ghost use Rattle.std.specs.Prelude.{◌≡◌, IfOk, IfErr, map, IsUtf8};
ghost use Rattle.manifest_places.specs.Lines.{position_of};
ghost use Rattle.manifest_bytes.specs.Encoded.{encoded};
ghost use Rattle.manifest_answers.specs.Made.{AreWithin, RefusesTagged, IsMade};
ghost use Rattle.manifest_answers.specs.Positions.{position_data, positions_data, AreNotUtf8, GivesPositions, RefusesPositions};

use crate::inspecting::index_number;
use crate::making::tagged_bytes;
use crate::refusal::{InputError, Refusal};
use cargo_manifest::{Error, Value};
use manifest_places::{Position, positions_of};
use manifest_written::Written;
use std::alloc::{AllocError, Global};

/// A position as a value: the array of its line, and of the bytes, characters and units of UTF-16 that stand before it.
fn position_value(alloc: Global, position: Position) -> Result<Value, AllocError>
    ensures { IfOk result (λ v. view v ≡ position_data (position_of position)) }
{
    let mut numbers = Vec::new(alloc);
    numbers.push(Value::Integer(index_number(position.line)))?;
    numbers.push(Value::Integer(index_number(position.bytes)))?;
    numbers.push(Value::Integer(index_number(position.characters)))?;
    numbers.push(Value::Integer(index_number(position.units)))?;
    Ok(Value::Array(numbers))
}

/// Positions as a value: the array of them.
fn positions_value(alloc: Global, all: &[Position]) -> Result<Value, AllocError>
    ensures { IfOk result (λ v. view v ≡ positions_data (map position_of all.now)) }
{
    let mut values = Vec::new(alloc);
    for position in all {
        values.push(position_value(alloc, *position)?)?;
    }
    Ok(Value::Array(values))
}

/// The text that the bytes are. Refuses bytes that are not UTF-8.
pub(crate) fn text_of(bytes: &[u8]) -> Result<&str, Refusal>
    ensures ok { IfOk result (λ text. (text.now ≡ bytes.now) × IsUtf8 bytes.now) }
    ensures refused { IfErr result (AreNotUtf8 bytes.now) }
{
    match std::str::from_utf8(bytes) {
        Ok(text) => Ok(text),
        Err(fault) => Err(Refusal::Bytes(InputError::Manifest(Error::Utf8(fault)))),
    }
}

/// The tagged bytes of positions.
fn bytes_of_positions(alloc: Global, all: &[Position], most: usize) -> Result<Vec<u8>, Refusal>
    ensures { let tagged = encoded (positions_data (map position_of all.now)) in
        IsMade (AreWithin most tagged) (RefusesTagged most tagged) result }
{
    let value = positions_value(alloc, all)?;
    tagged_bytes(alloc, &Written::Value(&value), most)
}

/// The tagged bytes of the positions of these offsets. Refuses bytes that are not UTF-8, offsets that do not ascend or of
/// which one is over the end, tagged bytes that are more than `most`, and when out of memory.
pub(crate) fn positions(
    alloc: Global,
    bytes: &[u8],
    offsets: &[usize],
    most: usize,
) -> Result<Vec<u8>, Refusal>
    ensures { IsMade (GivesPositions most bytes.now offsets.now)
        (RefusesPositions most bytes.now offsets.now) result }
{
    let text = match text_of(bytes) {
        Ok(text) => text,
        Err(refused) => return Err(refused),
    };
    let Some(all) = positions_of(alloc, text, offsets)? else {
        return Err(Refusal::Offsets);
    };
    bytes_of_positions(alloc, all.as_slice(), most)
}
