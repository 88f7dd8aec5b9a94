//! Headers of several tables of one text, checked by reading the text once more.

ghost use Rattle.std.specs.Prelude.{◌≡◌, ◌↔◌, ◌≤◌, ◌++◌, codes, length, IsTrue, IfOk, Some, option_map, map, string_bytes, decimal};
ghost use Rattle.toml.specs.View.{view};
ghost use Rattle.manifest_places.specs.Paths.{document};
ghost use Rattle.manifest_places.specs.Changes as changes;
ghost use Rattle.manifest_places.specs.Splices.{splice_of};
ghost use Rattle.manifest_places.specs.Places.{place_of, first_number, most_numbers};
ghost use Rattle.manifest_places.specs.Headers.{brackets, IsHeader, pairs_put, pairs_taken, AreBracketed, AreHeaders};

use crate::changes::{Change, with_change};
use crate::compare::same_value;
use crate::places::{FIRST_NUMBER, MOST_NUMBERS, Place};
use crate::reading::{document_of, part_of, whole_key};
use crate::splices::{Splice, spliced};
use std::alloc::{AllocError, Global};
use toml::Value;
use toml_parser::text::{byte_at, first, skip_ws};

/// Whether the text is a document, the ranges ascend, and each of them is the header that opens the table at its path.
/// It reads the text, and the text with a pair after each header, whose key is a number from 1000000000 on: where the
/// table of a header has that key already, the answer is no.
///
/// ```ignore
/// let path = vec![in alloc; Step::Key(String::from_str(alloc, "a")?)]?;
/// let good = are_headers(alloc, "[a]\n", &[Place { path, from: 0, to: 3 }])?; // true
/// ```
pub fn are_headers(alloc: Global, text: &str, places: &[Place]) -> Result<bool, AllocError>
    ensures { IfOk result (λ good. IsTrue good ↔ AreHeaders text.now (map place_of places.now)) }
{
    let Some(old) = document_of(alloc, text)? else {
        return Ok(false);
    };
    let good = are_headers_in(alloc, text, &old, places)?;
    Ok(good)
}

/// The same for a text whose document was read before.
pub(crate) fn are_headers_in(
    alloc: Global,
    text: &str,
    old: &Value,
    places: &[Place],
) -> Result<bool, AllocError>
    requires { document text.now ≡ Some (view old.now) }
    ensures { IfOk result (λ good. IsTrue good ↔ AreHeaders text.now (map place_of places.now)) }
{
    if places.len() > MOST_NUMBERS {
        return Ok(false);
    }
    if !are_bracketed(alloc, text, places)? {
        return Ok(false);
    }
    let pairs = pairs_of(alloc, places)?;
    let Some(put) = spliced(alloc, text, pairs.as_slice())? else {
        return Ok(false);
    };
    let Some(new) = document_of(alloc, put.as_str())? else {
        return Ok(false);
    };
    let Some(made) = without_pairs(alloc, new, places)? else {
        return Ok(false);
    };
    let good = same_value(&made, old);
    Ok(good)
}

/// The pairs after these headers.
fn pairs_of(alloc: Global, places: &[Place]) -> Result<Vec<Splice>, AllocError>
    requires { length places.now ≤ most_numbers }
    ensures { IfOk result
        (λ made. map splice_of made.items ≡ pairs_put first_number (map place_of places.now)) }
{
    let mut pairs = Vec::with_capacity(alloc, places.len())?;
    let mut number = FIRST_NUMBER;
    for place in places {
        pairs.push(pair_after(alloc, place, number)?)?;
        number += 1;
    }
    Ok(pairs)
}

fn pair_after(alloc: Global, place: &Place, number: u64) -> Result<Splice, AllocError>
    ensures { IfOk result (λ s. splice_of s ≡ record {
      from = place.now.to;
      to = place.now.to;
      put = codes "\n" ++ (decimal number ++ codes "=true");
    }) }
{
    let put = format!(in alloc; "\n{number}=true")?;
    Ok(Splice {
        from: place.to,
        to: place.to,
        put,
    })
}

/// The value without the pairs in the tables.
fn without_pairs(alloc: Global, value: Value, places: &[Place]) -> Result<Option<Value>, AllocError>
    requires { length places.now ≤ most_numbers }
    ensures { IfOk result (λ made. option_map view made
        ≡ changes.with_changes (pairs_taken first_number (map place_of places.now)) (view value)) }
{
    let mut now = value;
    let mut number = FIRST_NUMBER;
    for place in places {
        let key = format!(in alloc; "{number}")?;
        let Some(changed) = with_change(now, place.path.as_slice(), Change::Remove(key))? else {
            return Ok(None);
        };
        now = changed;
        number += 1;
    }
    Ok(Some(now))
}

/// Whether each of the ranges is a key between brackets.
fn are_bracketed(alloc: Global, text: &str, places: &[Place]) -> Result<bool, AllocError>
    ensures { IfOk result (λ good. IsTrue good ↔ AreBracketed text.now (map place_of places.now)) }
{
    for place in places {
        let Some(part) = part_of(text, place.from, place.to) else {
            return Ok(false);
        };
        if !is_header(alloc, part)? {
            return Ok(false);
        }
    }
    Ok(true)
}

/// How many brackets a header has on each side.
pub(crate) fn brackets_of(header: &str) -> usize
    ensures { result ≡ brackets header.now }
{
    if byte_at(header, 1) == b'[' { 2 } else { 1 }
}

/// Whether the text is a key between single or double brackets.
pub(crate) fn is_header(alloc: Global, header: &str) -> Result<bool, AllocError>
    ensures { IfOk result (λ good. IsTrue good ↔ IsHeader header.now) }
{
    let brackets = brackets_of(header);
    let end = header.len().saturating_sub(brackets);
    let Some(name) = part_of(header, brackets, end) else {
        return Ok(false);
    };
    if first(header) != b'[' || byte_at(header, end) != b']' {
        return Ok(false);
    }
    if byte_at(header, header.len().saturating_sub(1)) != b']' {
        return Ok(false);
    }
    let good = whole_key(alloc, skip_ws(name))?.is_some();
    Ok(good)
}
