//! The lines of what stands at paths of a text.

use manifest_places::{Located, Places, Span, Step, places_of};
use std::alloc::{AllocError, Global};

/// A text with its places, and where its lines end.
#[derive(Drop)]
pub(crate) struct Lines<'a> {
    text: &'a str,
    places: Option<Places>,
    ends: Vec<usize>,
}

/// Where that begins which belongs to a path, key before value before header.
fn start(located: Located) -> Option<Span> {
    located.key.or(located.value).or(located.header)
}

/// A path of these keys.
pub(crate) fn path_of(alloc: Global, keys: &[&str]) -> Result<Vec<Step>, AllocError> {
    let mut path = Vec::new(alloc);
    for key in keys {
        path.push(Step::Key(String::from_str(alloc, *key)?))?;
    }
    Ok(path)
}

impl<'a> Lines<'a> {
    pub(crate) fn new(alloc: Global, text: &'a str) -> Result<Lines<'a>, AllocError> {
        let mut ends = Vec::new(alloc);
        for (at, byte) in text.as_bytes().iter().enumerate() {
            if *byte == b'\n' {
                ends.push(at)?;
            }
        }
        Ok(Lines {
            text,
            places: places_of(alloc, text)?,
            ends,
        })
    }

    /// The line, from 1 on, at which that begins which is at the path; `None` where nothing is there.
    pub(crate) fn line(&self, path: &[Step]) -> Option<usize> {
        let located = self.places.as_ref()?.locate(path);
        if located.steps != path.len() {
            return None;
        }
        let span = start(located)?;
        let before = self.ends.partition_point(|end| *end < span.from);
        Some(before.saturating_add(1))
    }

    /// The text of the value at the path, where it stands at one place.
    pub(crate) fn value(&self, path: &[Step]) -> Option<&'a str> {
        let located = self.places.as_ref()?.locate(path);
        if located.steps != path.len() {
            return None;
        }
        let span = located.value?;
        self.text.get(span.from..span.to)
    }
}
