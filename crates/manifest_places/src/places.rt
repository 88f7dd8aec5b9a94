//! Places of several values in one text, checked by reading the text once more; and a text with several changes,
//! checked in the same way.

ghost use Rattle.std.specs.Prelude.{◌≡◌, ◌↔◌, ◌∷◌, [], ◌≤◌, ◌<◌, ◌+◌, ◌^◌, ◌++◌, codes, neg_ℤ, pos, length, IsTrue, IfOk, Some, option_map, map, string_bytes, decimal};
ghost use Rattle.toml.specs.Data.{Data};
ghost use Rattle.toml.specs.View.{view};
ghost use Rattle.manifest_places.specs.Paths as paths;
ghost use Rattle.manifest_places.specs.Paths.{document, path_of, step_of};
ghost use Rattle.manifest_places.specs.Changes.{change_at_of};
ghost use Rattle.manifest_places.specs.Splices.{splice_of};
ghost use Rattle.manifest_places.specs.Places as spec;
ghost use Rattle.manifest_places.specs.Places.{place_of, first_number, most_numbers, numbers_put, HaveNumbers, ReadsAs, IsRestored, AreRestored, ArePlaces, Edits};

use crate::changes::{Change, ChangeAt, with_change, with_changes};
use crate::compare::same_value;
use crate::reading::{document_of, part_of, value_of};
use crate::splices::{Splice, spliced};
use crate::step::Step;
use std::alloc::{AllocError, Global};
use toml::Value;

/// A path, and a range of bytes in a text.
#[derive(Debug, PartialEq, Eq, Drop)]
pub struct Place {
    pub path: Vec<Step>,
    /// Where the range begins, in bytes.
    pub from: usize,
    /// Where it ends: the first byte after it.
    pub to: usize,
}

/// The first of the numbers that stand in places.
pub(crate) const FIRST_NUMBER: u64 = 1_000_000_000;

/// There are this many numbers at most.
pub(crate) const MOST_NUMBERS: usize = 1 << 32;

/// Whether the text is a document, the ranges ascend, and each of them is the place of the value at its path. It reads
/// the text, each range alone, and the text with a number in each range. A place within another one is not one next to it:
/// pass them in two calls.
///
/// ```ignore
/// // `a` of the text `a = 1`, written as its value
/// let path = vec![in alloc; Step::Key(String::from_str(alloc, "a")?)]?;
/// let good = are_places(alloc, "a = 1", &[Place { path, from: 4, to: 5 }])?; // true
/// ```
pub fn are_places(alloc: Global, text: &str, places: &[Place]) -> Result<bool, AllocError>
    ensures { IfOk result (λ good. IsTrue good ↔ ArePlaces text.now (map place_of places.now)) }
{
    let Some(old) = document_of(alloc, text)? else {
        return Ok(false);
    };
    let good = are_places_in(alloc, text, &old, places)?;
    Ok(good)
}

/// The same for a text whose document was read before.
pub(crate) fn are_places_in(
    alloc: Global,
    text: &str,
    old: &Value,
    places: &[Place],
) -> Result<bool, AllocError>
    requires { document text.now ≡ Some (view old.now) }
    ensures { IfOk result (λ good. IsTrue good ↔ ArePlaces text.now (map place_of places.now)) }
{
    if places.len() > MOST_NUMBERS {
        return Ok(false);
    }
    let numbers = numbers_of(alloc, places)?;
    let Some(put) = spliced(alloc, text, numbers.as_slice())? else {
        return Ok(false);
    };
    let Some(new) = document_of(alloc, put.as_str())? else {
        return Ok(false);
    };
    if !have_numbers(&new, places) {
        return Ok(false);
    }
    let Some(made) = restored(alloc, text, new, places)? else {
        return Ok(false);
    };
    let good = same_value(&made, old);
    Ok(good)
}

/// The text with these texts in these ranges, or `None` where the text is no document, the ranges do not ascend, or
/// what it makes is not the document of the text with these changes. However many changes there are, it reads the text
/// and the new text once.
///
/// ```ignore
/// let new = edited(alloc, text, splices.as_slice(), changes)?;
/// ```
pub fn edited(
    alloc: Global,
    text: &str,
    splices: &[Splice],
    changes: Vec<ChangeAt>,
) -> Result<Option<String>, AllocError>
    ensures { IfOk result (λ made. Edits text.now (map splice_of splices.now)
        (map change_at_of changes.items) (option_map string_bytes made)) }
{
    let Some(old) = document_of(alloc, text)? else {
        return Ok(None);
    };
    let new = edited_in(alloc, text, old, splices, changes)?;
    Ok(new)
}

/// The same for a text whose document was read before.
pub(crate) fn edited_in(
    alloc: Global,
    text: &str,
    old: Value,
    splices: &[Splice],
    changes: Vec<ChangeAt>,
) -> Result<Option<String>, AllocError>
    requires { document text.now ≡ Some (view old) }
    ensures { IfOk result (λ made. Edits text.now (map splice_of splices.now)
        (map change_at_of changes.items) (option_map string_bytes made)) }
{
    let Some(put) = spliced(alloc, text, splices)? else {
        return Ok(None);
    };
    let Some(new) = document_of(alloc, put.as_str())? else {
        return Ok(None);
    };
    let Some(made) = with_changes(old, changes)? else {
        return Ok(None);
    };
    if same_value(&made, &new) {
        Ok(Some(put))
    } else {
        Ok(None)
    }
}

/// The numbers in these places.
fn numbers_of(alloc: Global, places: &[Place]) -> Result<Vec<Splice>, AllocError>
    requires { length places.now ≤ most_numbers }
    ensures { IfOk result
        (λ made. map splice_of made.items ≡ numbers_put first_number (map place_of places.now)) }
{
    let mut numbers = Vec::with_capacity(alloc, places.len())?;
    let mut number = FIRST_NUMBER;
    for place in places {
        numbers.push(number_at(alloc, place, number)?)?;
        number += 1;
    }
    Ok(numbers)
}

fn number_at(alloc: Global, place: &Place, number: u64) -> Result<Splice, AllocError>
    ensures { IfOk result (λ s. splice_of s
        ≡ record { from = place.now.from; to = place.now.to; put = codes "-" ++ decimal number }) }
{
    let put = format!(in alloc; "-{number}")?;
    Ok(Splice {
        from: place.from,
        to: place.to,
        put,
    })
}

fn negative(number: u64) -> i64
    requires { number < 2 ^ 63 }
    ensures { result ≡ neg_ℤ (pos number) }
{
    -(number as i64)
}

/// Whether the values at the paths are the numbers.
fn have_numbers(value: &Value, places: &[Place]) -> bool
    requires { length places.now ≤ most_numbers }
    ensures { IsTrue result ↔ HaveNumbers (view value.now) first_number (map place_of places.now) }
{
    let mut number = FIRST_NUMBER;
    for place in places {
        if !has_number(value, place, number) {
            return false;
        }
        number += 1;
    }
    true
}

fn has_number(value: &Value, place: &Place, number: u64) -> bool
    requires { number < 2 ^ 63 }
    ensures { IsTrue result
        ↔ (paths.value_at (place_of place.now).path (view value.now) ≡ Some (spec.number number)) }
{
    match value_at(value, place.path.as_slice()) {
        Some(there) => is_number(there, number),
        None => false,
    }
}

/// The value with what each range alone reads as at its path.
fn restored(
    alloc: Global,
    text: &str,
    value: Value,
    places: &[Place],
) -> Result<Option<Value>, AllocError>
    requires { length places.now ≤ most_numbers }
    ensures { IfOk result (λ made. (d : Data) → (option_map view made ≡ Some d)
        ↔ AreRestored text.now first_number (map place_of places.now) (view value) d) }
{
    let mut now = value;
    let mut number = FIRST_NUMBER;
    for place in places {
        let Some(changed) = restored_at(alloc, text, now, place, number)? else {
            return Ok(None);
        };
        now = changed;
        number += 1;
    }
    Ok(Some(now))
}

fn restored_at(
    alloc: Global,
    text: &str,
    value: Value,
    place: &Place,
    number: u64,
) -> Result<Option<Value>, AllocError>
    requires { number < 2 ^ 63 }
    ensures { IfOk result (λ made. (d : Data) → (option_map view made ≡ Some d)
        ↔ IsRestored text.now number (place_of place.now) (view value) d) }
{
    let Some(read) = value_in(alloc, text, place, number)? else {
        return Ok(None);
    };
    let made = with_change(value, place.path.as_slice(), Change::Set(read))?;
    Ok(made)
}

/// What the range alone reads as, where it is not the number.
fn value_in(
    alloc: Global,
    text: &str,
    place: &Place,
    number: u64,
) -> Result<Option<Value>, AllocError>
    requires { number < 2 ^ 63 }
    ensures { IfOk result (λ read. (d : Data) → (option_map view read ≡ Some d)
        ↔ ReadsAs text.now number (place_of place.now) d) }
{
    let Some(part) = part_of(text, place.from, place.to) else {
        return Ok(None);
    };
    let Some(read) = value_of(alloc, part)? else {
        return Ok(None);
    };
    if is_number(&read, number) {
        Ok(None)
    } else {
        Ok(Some(read))
    }
}

fn is_number(value: &Value, number: u64) -> bool
    requires { number < 2 ^ 63 }
    ensures { IsTrue result ↔ (view value.now ≡ spec.number number) }
{
    match value.as_integer() {
        Some(x) => x == negative(number),
        None => false,
    }
}

/// The value at the path, or `None` where nothing is there.
///
/// ```ignore
/// let edition = value_at(&document, path.as_slice());
/// ```
pub fn value_at<'v>(value: &'v Value, path: &[Step]) -> Option<&'v Value>
    ensures { option_map (λ v. view v.now) result
        ≡ paths.value_at (path_of path.now) (view value.now) }
{
    let mut now = value;
    for step in path {
        now = inner(now, step)?;
    }
    Some(now)
}

fn inner<'v>(value: &'v Value, step: &Step) -> Option<&'v Value>
    ensures { option_map (λ v. view v.now) result
        ≡ paths.value_at (step_of step.now ∷ []) (view value.now) }
{
    match step {
        Step::Key(key) => value.get(key.as_str()),
        Step::Index(index) => value.get(*index),
    }
}
