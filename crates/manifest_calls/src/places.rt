//! Where keys and values stand in texts. A text stands in a call as a value of TOML, so that it may have any marks.

use crate::answers::read_as;
use manifest_json::Text;
use manifest_places::{
    KeyParts, Place, Places, Position, Round, Span, Step, places_of, position_of, positions_of,
};
use std::alloc::{AllocError, Global};

/// Writes a path: keys after dots, and indexes in brackets.
fn push_path(path: &[Step], out: &mut Text) {
    let mut is_first = true;
    for step in path {
        match step {
            Step::Key(key) => {
                if !is_first {
                    out.push('.');
                }
                out.push_str(key.as_str());
            }
            Step::Index(index) => {
                out.push('[');
                out.push_number(*index);
                out.push(']');
            }
        }
        is_first = false;
    }
}

/// Writes a range.
fn push_range(from: usize, to: usize, out: &mut Text) {
    out.push_number(from);
    out.push_str("..");
    out.push_number(to);
}

/// Writes a path and the range at it.
fn push_place(place: &Place, out: &mut Text) {
    push_path(place.path.as_slice(), out);
    out.push(' ');
    push_range(place.from, place.to, out);
}

/// Writes the ranges of the parts of a key.
fn push_key(key: &KeyParts, out: &mut Text) {
    out.push(' ');
    let mut is_first = true;
    for part in &key.parts {
        if !is_first {
            out.push(',');
        }
        push_range(part.from, part.to, out);
        is_first = false;
    }
}

/// Writes the values of a round in a line, each with the parts of its key.
fn push_round(round: &Round, out: &mut Text) {
    let mut is_first = true;
    for (place, key) in round.places.iter().zip(round.keys.iter()) {
        if !is_first {
            out.push_str("; ");
        }
        push_place(place, out);
        push_key(key, out);
        is_first = false;
    }
    out.push('\n');
}

/// Writes the headers in a line.
fn push_headers(headers: &[Place], out: &mut Text) {
    out.push_str("headers");
    let mut is_first = true;
    for header in headers {
        out.push_str(if is_first { " " } else { "; " });
        push_place(header, out);
        is_first = false;
    }
}

/// Writes a line for each round, and a last one for the headers.
fn push_places(places: &Places, out: &mut Text) {
    for round in &places.rounds {
        push_round(round, out);
    }
    push_headers(places.headers.as_slice(), out);
}

/// What is found in a text: `path from..to parts` of each value, a line for each round, and a last one for the headers.
fn places_in(alloc: Global, text: &str) -> Result<String, AllocError> {
    let mut out = Text::new(alloc);
    match out.made(places_of(alloc, text)) {
        Some(Some(places)) => push_places(&places, &mut out),
        _ => out.push_str("none"),
    }
    out.finish()
}

/// The same for a text as it stands in a call.
pub fn places(alloc: Global, shown: &str) -> anyhow::Result<String> {
    let text: String = read_as(alloc, shown)?;
    Ok(places_in(alloc, text.as_str())?)
}

/// The path of a text: steps after `/`, of which `#1` is the index 1.
fn path_from(alloc: Global, text: &str) -> Result<Vec<Step>, AllocError> {
    let mut path = Vec::new(alloc);
    for part in text.split('/') {
        let index = match part.strip_prefix("#") {
            Some(index) => index.parse::<usize>().ok(),
            None => None,
        };
        match index {
            Some(index) => path.push(Step::Index(index))?,
            None => path.push(Step::Key(String::from_str(alloc, part)?))?,
        }
    }
    Ok(path)
}

/// Writes what stands in a range.
fn push_part(text: &str, range: Option<Span>, out: &mut Text) {
    match range {
        Some(span) => {
            out.push_str(" <");
            out.push_str(text.get(span.from..span.to).unwrap_or("no range"));
            out.push('>');
        }
        None => out.push_str(" -"),
    }
}

/// Writes how many steps of a path lead to what is found, and the texts of the value, of the key and of the header.
fn push_located(places: &Places, text: &str, path: &[Step], out: &mut Text) {
    let located = places.locate(path);
    out.push_number(located.steps);
    push_part(text, located.value, out);
    push_part(text, located.key, out);
    push_part(text, located.header, out);
}

/// What is found at a path of a text, or where a key that is missing belongs.
fn located(alloc: Global, path: &[Step], text: &str) -> Result<String, AllocError> {
    let mut out = Text::new(alloc);
    match out.made(places_of(alloc, text)) {
        Some(Some(places)) => push_located(&places, text, path, &mut out),
        _ => out.push_str("none"),
    }
    out.finish()
}

/// The same for a path and a text as they stand in a call.
pub fn locate(alloc: Global, path: &str, shown: &str) -> anyhow::Result<String> {
    let text: String = read_as(alloc, shown)?;
    let path = path_from(alloc, path)?;
    Ok(located(alloc, path.as_slice(), text.as_str())?)
}

/// Writes a line, and the bytes, characters and units of UTF-16 before a position in it.
fn push_position(position: &Position, out: &mut Text) {
    out.push_number(position.line);
    out.push(' ');
    out.push_number(position.bytes);
    out.push(' ');
    out.push_number(position.characters);
    out.push(' ');
    out.push_number(position.units);
    out.push('\n');
}

/// Writes the position of each offset, which is asked alone.
fn push_each(text: &str, offsets: &[usize], out: &mut Text) {
    for offset in offsets {
        match position_of(text, *offset) {
            Some(position) => push_position(&position, out),
            None => out.push_str("none\n"),
        }
    }
}

/// Writes the positions of offsets that are asked together.
fn push_together(alloc: Global, text: &str, offsets: &[usize], out: &mut Text) {
    match out.made(positions_of(alloc, text, offsets)) {
        Some(Some(positions)) => {
            for position in &positions {
                push_position(position, out);
            }
        }
        _ => out.push_str("none\n"),
    }
}

/// Offsets of a list.
fn offsets_of(alloc: Global, list: &str) -> anyhow::Result<Vec<usize>> {
    let numbers: Vec<u16> = read_as(alloc, list)?;
    let mut offsets = Vec::new(alloc);
    for number in &numbers {
        offsets.push(usize::from(*number))?;
    }
    Ok(offsets)
}

/// The positions of offsets in a text, a line each: of each alone, and then of all together.
fn positions_in(alloc: Global, text: &str, offsets: &[usize]) -> Result<String, AllocError> {
    let mut out = Text::new(alloc);
    out.push_str("each\n");
    push_each(text, offsets, &mut out);
    out.push_str("together\n");
    push_together(alloc, text, offsets, &mut out);
    out.finish()
}

/// The same for offsets and a text as they stand in a call.
pub fn positions(alloc: Global, list: &str, shown: &str) -> anyhow::Result<String> {
    let text: String = read_as(alloc, shown)?;
    let offsets = offsets_of(alloc, list)?;
    Ok(positions_in(alloc, text.as_str(), offsets.as_slice())?)
}
