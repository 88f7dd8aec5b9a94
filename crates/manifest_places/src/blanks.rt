//! Blanks, line ends, commas and comments between the parts of a text.

ghost use Rattle.std.specs.Prelude.{◌≡◌, IsTrue};
ghost use Rattle.std.specs.List.{list_all};
ghost use Rattle.manifest_places.specs.Edits as spec;

use crate::reading::part_of;
use toml_parser::bytes;
use toml_parser::text::{byte_at, skip_blank};

/// Whether nothing but blanks, line ends and comments stands in the range.
pub(crate) fn is_trivia(text: &str, from: usize, to: usize) -> bool
    ensures { IsTrue result → spec.IsTrivia text.now from to }
{
    match part_of(text, from, to) {
        Some(part) => skip_blank(part, true).is_empty(),
        None => false,
    }
}

pub(crate) fn is_line(lead: &str, trail: &str) -> bool
    ensures { result ≡ spec.is_line lead.now trail.now }
{
    are_blank(lead) & ends_once(trail) & one_at_most(feeds(lead), feeds(trail))
}

pub(crate) fn is_gap(lead: &str, trail: &str) -> bool
    ensures { result ≡ spec.is_gap lead.now trail.now }
{
    are_blank_or_comma(lead) & are_blank_or_comma(trail) & one_at_most(commas(lead), commas(trail))
}

/// Whether the last byte is a line feed, where there is one.
fn ends_once(trail: &str) -> bool
    ensures { result ≡ spec.ends_once trail.now }
{
    let last = byte_at(trail, trail.len().saturating_sub(1));
    (feeds(trail) == 0) | (last == b'\n')
}

pub(crate) fn are_blank(text: &str) -> bool
    ensures { result ≡ list_all spec.is_blank text.now }
{
    text.as_bytes().iter().all(|byte| is_blank(*byte))
}

pub(crate) fn are_blank_or_comma(text: &str) -> bool
    ensures { result ≡ list_all spec.is_blank_or_comma text.now }
{
    text.as_bytes().iter().all(|byte| is_blank_or_comma(*byte))
}

/// Whether the two together are one at most.
fn one_at_most(a: usize, b: usize) -> bool
    ensures { result ≡ spec.one_at_most a b }
{
    if a == 0 { b <= 1 } else { a == 1 && b == 0 }
}

fn is_blank(byte: u8) -> bool
    ensures { result ≡ spec.is_blank byte }
{
    bytes::is_ws(byte) || byte == b'\n' || byte == b'\r'
}

fn is_blank_or_comma(byte: u8) -> bool
    ensures { result ≡ spec.is_blank_or_comma byte }
{
    is_blank(byte) || byte == b','
}

fn feeds(text: &str) -> usize
    ensures { result ≡ spec.feeds text.now }
{
    text.as_bytes()
        .iter()
        .filter(|byte| **byte == b'\n')
        .count()
}

fn commas(text: &str) -> usize
    ensures { result ≡ spec.commas text.now }
{
    text.as_bytes().iter().filter(|byte| **byte == b',').count()
}
