//! The line and the columns of an offset.

ghost use Rattle.std.specs.Prelude.{◌≡◌, ◌≤◌, ◌<◌, ◌+◌, ◌^◌, length, IfOk, option_map};
ghost use Rattle.manifest_places.specs.Lines as spec;
ghost use Rattle.manifest_places.specs.Lines.{end_after, offset_position, IsPosition, ArePositions, IsSmall};

use std::alloc::{AllocError, Global};

/// A line, and how many bytes, characters and units of UTF-16 stand before an offset in it. A line ends after a line
/// feed, and nowhere else.
#[derive(Clone, Copy, Debug, PartialEq, Eq)]
pub struct Position {
    /// The line: the first one is 1.
    pub line: usize,
    /// The bytes of the line before the offset: a column from 0 on.
    pub bytes: usize,
    /// The characters that begin in the line before the offset.
    pub characters: usize,
    /// The units of UTF-16 that these characters have.
    pub units: usize,
}

/// The line and the columns of an offset in bytes, or `None` where it is over the end of the text.
///
/// ```ignore
/// let position = position_of("a = 1\nb = 'é'", 12); // line 2, 7 bytes, 6 characters, 6 units of UTF-16
/// ```
pub fn position_of(text: &str, offset: usize) -> Option<Position>
    ensures { IsPosition text.now offset result }
{
    if offset > text.len() {
        return None;
    }
    Some(advanced(text, START, 0, offset))
}

/// The line and the columns of each of these offsets, in one pass over the text, or `None` where the offsets do not
/// ascend or one is over the end.
///
/// ```ignore
/// let positions = positions_of(alloc, text, &[from, to])?;
/// ```
pub fn positions_of(
    alloc: Global,
    text: &str,
    offsets: &[usize],
) -> Result<Option<Vec<Position>>, AllocError>
    ensures { IfOk result
        (λ found. ArePositions text.now offsets.now (option_map (λ ps. ps.items) found)) }
{
    let mut positions = Vec::with_capacity(alloc, offsets.len())?;
    let mut now = START;
    let mut at = 0usize;
    for offset in offsets {
        if *offset < at {
            return Ok(None);
        }
        if *offset > text.len() {
            return Ok(None);
        }
        now = advanced(text, now, at, *offset);
        at = *offset;
        positions.push(now)?;
    }
    Ok(Some(positions))
}

/// Where a text begins.
const START: Position = Position {
    line: 1,
    bytes: 0,
    characters: 0,
    units: 0,
};

/// The position of the second offset, after that of the first one.
fn advanced(text: &str, position: Position, from: usize, to: usize) -> Position
    requires order { from ≤ to }
    requires within { to ≤ length text.now }
    requires value { spec.position_of position ≡ offset_position text.now from }
    requires small { IsSmall position from }
    ensures value { spec.position_of result ≡ offset_position text.now to }
    ensures small { IsSmall result to }
{
    let bytes = text.as_bytes();
    let mut now = position;
    for i in from..to {
        now = after(now, bytes[i], i);
    }
    now
}

/// The position after one more byte, of which `count` stand before it.
fn after(position: Position, byte: u8, count: usize) -> Position
    requires room { count + 1 < 2 ^ 63 }
    requires small { IsSmall position count }
    ensures value { spec.position_of result ≡ end_after (spec.position_of position) byte }
    ensures small { IsSmall result (count + 1) }
{
    if byte == b'\n' {
        Position {
            line: position.line + 1,
            bytes: 0,
            characters: 0,
            units: 0,
        }
    } else {
        Position {
            line: position.line,
            bytes: position.bytes + 1,
            characters: position.characters + begins(byte),
            units: position.units + begins_units(byte),
        }
    }
}

/// How many characters the byte begins.
fn begins(byte: u8) -> usize
    ensures value { result ≡ spec.begins byte }
    ensures small { result ≤ 1 }
{
    if byte < 128 {
        1
    } else if byte < 192 {
        0
    } else {
        1
    }
}

/// How many units of UTF-16 that character has.
fn begins_units(byte: u8) -> usize
    ensures value { result ≡ spec.begins_units byte }
    ensures small { result ≤ 2 }
{
    if byte < 128 {
        1
    } else if byte < 192 {
        0
    } else if byte < 240 {
        1
    } else {
        2
    }
}
