//! All places of a text: found in one walk, and then checked round by round.

ghost use Rattle.std.specs.Prelude.{◌≡◌, IsTrue, IfOk, IfSome, Some, map};
ghost use Rattle.toml.specs.View.{view};
ghost use Rattle.manifest_places.specs.Paths.{document as document_in};
ghost use Rattle.manifest_places.specs.Places.{place_of};
ghost use Rattle.manifest_places.specs.Keys.{AreKeys};
ghost use Rattle.manifest_places.specs.Finding.{parts_of, IsRound, AreRounds, AreFound};

use crate::headers::are_headers_in;
use crate::index::{Entry, Index};
use crate::keys::{KeyParts, is_key};
use crate::places::{Place, are_places_in};
use crate::reading::document_of;
use crate::walk::{FoundHeader, FoundValue, Survey, surveyed};
use std::alloc::{AllocError, Global};
use toml::Value;
use toml_parser::ParseError;

/// Values none of which stands in another one, and their keys.
#[derive(Debug, Drop)]
pub struct Round {
    /// Where the values stand, in the order of the text.
    pub places: Vec<Place>,
    /// The key of each of them.
    pub keys: Vec<KeyParts>,
}

/// Where the values, keys and headers of a document stand in its text.
#[derive(Debug, Drop)]
pub struct Places {
    /// The values that stand in no other one, then those that stand in one of these, and so on. A table or an array of
    /// tables that is written by headers or by dotted keys has no place.
    pub rounds: Vec<Round>,
    /// The headers, each with the path of the table that it opens, in the order of the text.
    pub headers: Vec<Place>,
    /// All of these by their paths.
    pub(crate) index: Index,
}

/// The places of all values, keys and headers of the text, or `None` where the text is no document. It reads the text
/// twice to find them, once more and each value of the round alone for each round, and once more for the headers. (It is
/// also `None` where what was found is not what it should be. That is known to happen only where a value is the number
/// that is put in its place, -1000000000 for the first one of its round, and so on down, or where the table of a header
/// has the key that is put after it, 1000000000 for the first header, and so on up; and where the paths would take more
/// than 256 bytes for each byte of a text of many, as where a long key stands above many short lines.)
///
/// ```ignore
/// let places = places_of(alloc, "[a]\nb = [1, 2]\n")?; // the array, its two items, and the header
/// ```
pub fn places_of(alloc: Global, text: &str) -> Result<Option<Places>, AllocError>
    ensures { IfOk result (λ found. IfSome found (AreFound text.now)) }
{
    let Some(document) = document_of(alloc, text)? else {
        return Ok(None);
    };
    let Some(found) = walked(alloc, text)? else {
        return Ok(None);
    };
    let places = arranged(alloc, found)?;
    if !are_rounds(alloc, text, &document, places.rounds.as_slice())? {
        return Ok(None);
    }
    if are_headers_in(alloc, text, &document, places.headers.as_slice())? {
        Ok(Some(places))
    } else {
        Ok(None)
    }
}

/// What the walk finds.
fn walked(alloc: Global, text: &str) -> Result<Option<Survey>, AllocError> {
    match surveyed(alloc, text) {
        Ok(found) => Ok(Some(found)),
        Err(ParseError::OutOfMemory) => Err(AllocError),
        Err(ParseError::At(_, _, _)) => Ok(None),
    }
}

/// What was found, in rounds.
fn arranged(alloc: Global, found: Survey) -> Result<Places, AllocError> {
    let Survey {
        values,
        headers,
        ..
    } = found;
    let mut rounds = Vec::new(alloc);
    for value in values {
        arrange(alloc, &mut rounds, value)?;
    }
    let headers = arranged_headers(alloc, headers)?;
    let index = indexed(alloc, rounds.as_slice(), headers.as_slice())?;
    Ok(Places {
        rounds,
        headers,
        index,
    })
}

fn arranged_headers(alloc: Global, headers: Vec<FoundHeader>) -> Result<Vec<Place>, AllocError> {
    let mut places = Vec::new(alloc);
    for header in headers {
        let FoundHeader {
            path,
            header: span,
            ..
        } = header;
        places.push(Place {
            path,
            from: span.from,
            to: span.to,
        })?;
    }
    Ok(places)
}

/// The places by their paths.
fn indexed(alloc: Global, rounds: &[Round], headers: &[Place]) -> Result<Index, AllocError> {
    let mut index = Index::new(alloc)?;
    for (i, header) in headers.iter().enumerate() {
        index.add_header(alloc, header.path.as_slice(), i)?;
    }
    for (round, values) in rounds.iter().enumerate() {
        add_round(alloc, &mut index, round, values)?;
    }
    Ok(index)
}

fn add_round(
    alloc: Global,
    index: &mut Index,
    round: usize,
    values: &Round,
) -> Result<(), AllocError> {
    for (i, (place, key)) in values.places.iter().zip(values.keys.iter()).enumerate() {
        let entry = Entry { round, index: i };
        index.add_value(alloc, place.path.as_slice(), key.parts.len(), entry)?;
    }
    Ok(())
}

/// The value in its round.
fn arrange(alloc: Global, rounds: &mut Vec<Round>, value: FoundValue) -> Result<(), AllocError> {
    let FoundValue {
        path,
        value: span,
        parts,
        level,
    } = value;
    for _round in rounds.len()..=level {
        rounds.push(Round {
            places: Vec::new(alloc),
            keys: Vec::new(alloc),
        })?;
    }
    if let Some(round) = rounds.get_mut(level) {
        round.places.push(Place {
            path,
            from: span.from,
            to: span.to,
        })?;
        round.keys.push(KeyParts { parts })?;
    }
    Ok(())
}

/// Whether each of the rounds is one.
fn are_rounds(
    alloc: Global,
    text: &str,
    document: &Value,
    rounds: &[Round],
) -> Result<bool, AllocError>
    requires { document_in text.now ≡ Some (view document.now) }
    ensures { IfOk result (λ good. IsTrue good → AreRounds text.now rounds.now) }
{
    for round in rounds {
        if !is_round(alloc, text, document, round)? {
            return Ok(false);
        }
    }
    Ok(true)
}

/// Whether the places are those of values, and the keys are theirs.
fn is_round(alloc: Global, text: &str, document: &Value, round: &Round) -> Result<bool, AllocError>
    requires { document_in text.now ≡ Some (view document.now) }
    ensures { IfOk result (λ good. IsTrue good → IsRound text.now round.now) }
{
    if !are_places_in(alloc, text, document, round.places.as_slice())? {
        return Ok(false);
    }
    let good = are_keys(alloc, text, round.places.as_slice(), round.keys.as_slice())?;
    Ok(good)
}

/// Whether the keys are those of the places.
fn are_keys(
    alloc: Global,
    text: &str,
    places: &[Place],
    keys: &[KeyParts],
) -> Result<bool, AllocError>
    ensures { IfOk result
        (λ good. IsTrue good → AreKeys text.now (map place_of places.now) (map parts_of keys.now)) }
{
    if places.len() != keys.len() {
        return Ok(false);
    }
    for i in 0..places.len() {
        if !is_key(alloc, text, &places[i], keys[i].parts.as_slice())? {
            return Ok(false);
        }
    }
    Ok(true)
}
