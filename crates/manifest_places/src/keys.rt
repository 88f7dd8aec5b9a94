//! The key before a value, part by part.

ghost use Rattle.std.specs.Prelude.{◌≡◌, ◌↔◌, ◌≤◌, ◌∷◌, IsTrue, IfOk, length, take, map, option_map, string_bytes};
ghost use Rattle.toml_parser.specs.Lexical.{dot};
ghost use Rattle.toml_parser.specs.Reading.{key_view, path_view};
ghost use Rattle.manifest_places.specs.Paths.{path_of, step_of, key as key_step};
ghost use Rattle.manifest_places.specs.Places.{place_of};
ghost use Rattle.manifest_places.specs.Keys as spec;
ghost use Rattle.manifest_places.specs.Keys.{key_steps, span_of, IsPart, AreParts, last_solid, IsKey};

use crate::places::Place;
use crate::reading::{part_of, whole_key};
use crate::step::Step;
use std::alloc::{AllocError, Global};
use toml_parser::text::{byte_at, first, skip, skip_ws};
use toml_parser::{Key, ParseError, bytes, dotted_key};

/// A range of bytes.
#[derive(Clone, Copy, Debug, PartialEq, Eq)]
pub struct Span {
    /// Where the range begins, in bytes.
    pub from: usize,
    /// Where it ends: the first byte after it.
    pub to: usize,
}

/// The parts of a key, in the order of the text; none where a value has no key, as an item of an array.
#[derive(Debug, PartialEq, Eq, Drop)]
pub struct KeyParts {
    pub parts: Vec<Span>,
}

/// Whether the ranges are the parts of the key before the value at this place, all of them. It reads no more of the
/// text than the key. Once the place is checked, the whole key is the range from the first part to the last one; and
/// the range to the end of an earlier part is the key of the table that the key goes through there.
///
/// ```ignore
/// // the key of `a.b = 1`, where `place` is that of the value 1 at the path a, b
/// let parts = [Span { from: 0, to: 1 }, Span { from: 2, to: 3 }];
/// let good = is_key(alloc, "a.b = 1", &place, &parts)?; // true
/// ```
pub fn is_key(alloc: Global, text: &str, place: &Place, parts: &[Span]) -> Result<bool, AllocError>
    ensures { IfOk result
        (λ good. IsTrue good ↔ IsKey text.now (place_of place.now) (map span_of parts.now)) }
{
    let path = place.path.as_slice();
    if parts.len() > path.len() {
        return Ok(false);
    }
    if !begins_key(text, parts) {
        return Ok(false);
    }
    let (_base, steps) = path.split_at(path.len() - parts.len());
    let good = are_parts(alloc, text, place.from, parts, steps)?;
    Ok(good)
}

/// Whether no dot stands before the first of the ranges.
fn begins_key(text: &str, parts: &[Span]) -> bool
    ensures { IsTrue result ↔ spec.BeginsKey text.now (map span_of parts.now) }
{
    match parts.split_first() {
        None => true,
        Some((part, _rest)) => part.from <= text.len() && !is_after_dot(text, part.from),
    }
}

/// Whether a dot stands before the offset, with white space between them at most.
fn is_after_dot(text: &str, offset: usize) -> bool
    requires { offset ≤ length text.now }
    ensures { IsTrue result ↔ (last_solid 0 (take offset text.now) ≡ dot) }
{
    let text_bytes = text.as_bytes();
    let mut end = offset;
    while end > 0 {
        let byte = text_bytes[end - 1];
        if !bytes::is_ws(byte) {
            return byte == b'.';
        }
        end -= 1;
    }
    false
}

/// Whether the ranges are the parts of a key of these steps.
fn are_parts(
    alloc: Global,
    text: &str,
    value_from: usize,
    parts: &[Span],
    steps: &[Step],
) -> Result<bool, AllocError>
    ensures { IfOk result
        (λ good. IsTrue good
        ↔ AreParts text.now value_from (map span_of parts.now) (path_of steps.now)) }
{
    match parts.split_first() {
        None => Ok(steps.is_empty()),
        Some((part, parts_after)) => match steps.split_first() {
            None => Ok(false),
            Some((_step, steps_after)) => {
                if !is_part(alloc, text, value_from, part, steps)? {
                    return Ok(false);
                }
                let good = are_parts(alloc, text, value_from, parts_after, steps_after)?;
                Ok(good)
            }
        },
    }
}

/// Whether the range is the first part of a key of these steps, after which the value begins.
fn is_part(
    alloc: Global,
    text: &str,
    value_from: usize,
    part: &Span,
    steps: &[Step],
) -> Result<bool, AllocError>
    ensures { IfOk result
        (λ good. IsTrue good ↔ IsPart text.now value_from (span_of part.now) (path_of steps.now)) }
{
    let Some(before) = part_of(text, part.from, value_from) else {
        return Ok(false);
    };
    let Some(whole) = key_before(alloc, before)? else {
        return Ok(false);
    };
    if !is_key_of(&whole, steps) {
        return Ok(false);
    }
    let Some(alone) = part_of(text, part.from, part.to) else {
        return Ok(false);
    };
    let Some(name) = whole_key(alloc, alone)? else {
        return Ok(false);
    };
    if !is_key_of(&name, first_of(steps)) {
        return Ok(false);
    }
    let good = !bytes::is_ws(byte_at(text, part.to.saturating_sub(1)));
    Ok(good)
}

/// The first step alone.
fn first_of(steps: &[Step]) -> &[Step]
    ensures { result.now ≡ take 1 steps.now }
{
    if steps.is_empty() {
        return steps;
    }
    &steps[..1]
}

/// The key that the text is, with `=` and white space after it, or `None` where it is not one.
pub(crate) fn key_before(alloc: Global, text: &str) -> Result<Option<Key>, AllocError>
    ensures { IfOk result (λ read. option_map key_view read ≡ spec.key_before text.now) }
{
    match dotted_key(alloc, text) {
        Ok((key, rest)) => {
            if first(rest) != b'=' {
                return Ok(None);
            }
            if skip_ws(skip(rest, 1)).is_empty() {
                Ok(Some(key))
            } else {
                Ok(None)
            }
        }
        Err(ParseError::OutOfMemory) => Err(AllocError),
        Err(ParseError::At(_, _, _)) => Ok(None),
    }
}

/// Whether the parts of the key are these steps.
pub(crate) fn is_key_of(key: &Key, steps: &[Step]) -> bool
    ensures { IsTrue result ↔ (key_steps (key_view key.now) ≡ path_of steps.now) }
{
    match steps.split_last() {
        None => false,
        Some((last, front)) => is_step(last, &key.last) && are_steps(front, key.path.as_slice()),
    }
}

/// Whether the steps are these keys.
fn are_steps(steps: &[Step], parts: &[String]) -> bool
    ensures { IsTrue result ↔ (path_of steps.now ≡ map key_step (path_view parts.now)) }
{
    if steps.len() != parts.len() {
        return false;
    }
    for i in 0..steps.len() {
        if !is_step(&steps[i], &parts[i]) {
            return false;
        }
    }
    true
}

/// Whether the step is this key.
fn is_step(step: &Step, part: &String) -> bool
    ensures { IsTrue result ↔ (step_of step.now ≡ key_step (string_bytes part.now)) }
{
    match step {
        Step::Key(key) => key.as_str() == part.as_str(),
        Step::Index(_) => false,
    }
}
