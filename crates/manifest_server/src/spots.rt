//! What stands at an offset of a text.

use manifest_places::{Place, Places, Span, Step};
use std::alloc::{AllocError, Global};
use toml::{Table, Value};

/// What stands for an index in the names of a path.
pub(crate) const ITEM: &str = "#";

/// A key, a value or a header of a text.
#[derive(Clone, Copy)]
pub(crate) struct Spot<'a> {
    pub(crate) path: &'a [Step],
    pub(crate) span: Span,
    pub(crate) is_header: bool,
}

/// Whether an offset is in a range, or at its end.
fn has(span: Span, offset: usize) -> bool {
    span.from <= offset && offset <= span.to
}

fn span_of(place: &Place) -> Span {
    Span {
        from: place.from,
        to: place.to,
    }
}

/// The range from the beginning of a value's key, where it has one, to its end.
fn whole_of(place: &Place, parts: &[Span]) -> Span {
    let from = match parts.first() {
        Some(part) => part.from,
        None => place.from,
    };
    Span { from, to: place.to }
}

/// The innermost entry or item, or the header, that an offset is in.
pub(crate) fn spot_at<'a>(places: &'a Places, offset: usize) -> Option<Spot<'a>> {
    let mut found = None;
    for header in &places.headers {
        if has(span_of(header), offset) {
            found = Some(Spot {
                path: header.path.as_slice(),
                span: span_of(header),
                is_header: true,
            });
        }
    }
    // (a round has what stands in the values of the one before)
    for round in &places.rounds {
        for (place, key) in round.places.iter().zip(round.keys.iter()) {
            let whole = whole_of(place, key.parts.as_slice());
            if has(whole, offset) {
                found = Some(Spot {
                    path: place.path.as_slice(),
                    span: whole,
                    is_header: false,
                });
            }
        }
    }
    found
}

/// What stands at a path of a document.
pub(crate) fn value_by<'a>(document: &'a Table, path: &[Step]) -> Option<&'a Value> {
    let (first, rest) = path.split_first()?;
    let mut value = match first {
        Step::Key(key) => document.get(key.as_str())?,
        Step::Index(_) => return None,
    };
    for step in rest {
        value = match (step, value) {
            (Step::Key(key), Value::Table(table)) => table.get(key.as_str())?,
            (Step::Index(index), Value::Array(items)) => items.get(*index)?,
            _ => return None,
        };
    }
    Some(value)
}

/// The names of a path, with a mark for each index.
pub(crate) fn names_of<'a>(alloc: Global, path: &'a [Step]) -> Result<Vec<&'a str>, AllocError> {
    let mut names = Vec::new(alloc);
    for step in path {
        names.push(match step {
            Step::Key(key) => key.as_str(),
            Step::Index(_) => ITEM,
        })?;
    }
    Ok(names)
}
