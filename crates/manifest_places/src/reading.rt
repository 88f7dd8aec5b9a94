//! What a text is: a document, a value, a key, or a part of another text.

ghost use Rattle.std.specs.Prelude.{◌≡◌, IfOk, option_map, MatchOption};
ghost use Rattle.toml.specs.View.{view};
ghost use Rattle.toml.specs.Parse.{parse_value};
ghost use Rattle.toml_parser.specs.Reading.{key_view};
ghost use Rattle.manifest_places.specs.Keys as spec;
ghost use Rattle.manifest_places.specs.Paths.{document};
ghost use Rattle.manifest_places.specs.Splices.{range_of, IsRange};

use std::alloc::{AllocError, Global};
use toml::Value;
use toml_parser::{Key, ParseError, dotted_key};

/// The document that the text is, or `None` where it is not one.
pub(crate) fn document_of(alloc: Global, text: &str) -> Result<Option<Value>, AllocError>
    ensures { IfOk result (λ read. option_map view read ≡ document text.now) }
{
    match toml::table_from_str(alloc, text) {
        Ok(table) => Ok(Some(Value::Table(table))),
        Err(fault) => {
            if fault.is_memory() {
                Err(AllocError)
            } else {
                Ok(None)
            }
        }
    }
}

/// The value that the text is, or `None` where it is not one.
pub(crate) fn value_of(alloc: Global, text: &str) -> Result<Option<Value>, AllocError>
    ensures { IfOk result (λ read. option_map view read ≡ parse_value text.now) }
{
    match Value::from_str(alloc, text) {
        Ok(value) => Ok(Some(value)),
        Err(fault) => {
            if fault.is_memory() {
                Err(AllocError)
            } else {
                Ok(None)
            }
        }
    }
}

/// The bytes of the text in this range, or `None` where it is no range of the text or cuts a character.
pub(crate) fn part_of(text: &str, from: usize, to: usize) -> Option<&str>
    ensures { MatchOption result (¬ IsRange text.now from to)
        (λ part. IsRange text.now from to × (part.now ≡ range_of text.now from to)) }
{
    if to < from || !text.is_char_boundary(from) || !text.is_char_boundary(to) {
        return None;
    }
    Some(&text[from..to])
}

/// The key that the text is, with white space after it at most, or `None` where it is not one.
pub(crate) fn whole_key(alloc: Global, text: &str) -> Result<Option<Key>, AllocError>
    ensures { IfOk result (λ read. option_map key_view read ≡ spec.whole_key text.now) }
{
    match dotted_key(alloc, text) {
        Ok((key, rest)) => {
            if rest.is_empty() {
                Ok(Some(key))
            } else {
                Ok(None)
            }
        }
        Err(ParseError::OutOfMemory) => Err(AllocError),
        Err(ParseError::At(_, _, _)) => Ok(None),
    }
}
