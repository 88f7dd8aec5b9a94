//! Offsets in a text as lines and characters, and back.

use std::alloc::{AllocError, Global};

/// What characters of a line are counted in.
#[derive(Clone, Copy, PartialEq, Eq)]
pub(crate) enum Units {
    Bytes,
    Utf16,
}

/// A place in a text: its line, and how many units of the line stand before it, both counted from 0.
#[derive(Clone, Copy)]
pub(crate) struct Point {
    pub(crate) line: usize,
    pub(crate) units: usize,
}

/// Where the lines of a text begin.
#[derive(Drop)]
pub(crate) struct Lines {
    starts: Vec<usize>,
}

/// How many units a text has.
fn width(text: &str, units: Units) -> usize {
    match units {
        Units::Bytes => text.len(),
        Units::Utf16 => {
            let mut count = 0usize;
            for c in text.chars() {
                count = count.saturating_add(c.len_utf16());
            }
            count
        }
    }
}

/// The bytes of the longest beginning of a line that has no more than these units.
fn bytes_within(line: &str, most: usize, units: Units) -> usize {
    let mut bytes = 0usize;
    let mut count = 0usize;
    for c in line.chars() {
        let size = match units {
            Units::Bytes => c.len_utf8(),
            Units::Utf16 => c.len_utf16(),
        };
        count = count.saturating_add(size);
        if count > most {
            return bytes;
        }
        bytes = bytes.saturating_add(c.len_utf8());
    }
    bytes
}

/// The line that begins at an offset, up to its line feed.
fn line_from(text: &str, start: usize) -> &str {
    let rest = text.get(start..).unwrap_or("");
    match rest.split_once('\n') {
        Some((line, _rest)) => line,
        None => rest,
    }
}

/// The bytes of a line that stand before a point in it. Beyond the line is its end, which is before a carriage return.
fn bytes_before(line: &str, count: usize, units: Units) -> usize {
    if count > width(line, units) {
        line.strip_suffix('\r').unwrap_or(line).len()
    } else {
        bytes_within(line, count, units)
    }
}

impl Lines {
    /// The lines of a text.
    pub(crate) fn of(alloc: Global, text: &str) -> Result<Lines, AllocError> {
        let mut starts = Vec::new(alloc);
        starts.push(0usize)?;
        for (at, byte) in text.as_bytes().iter().enumerate() {
            if *byte == b'\n' {
                starts.push(at.saturating_add(1))?;
            }
        }
        Ok(Lines { starts })
    }

    /// The line and the units of an offset in the text.
    pub(crate) fn point(&self, text: &str, offset: usize, units: Units) -> Point {
        let after = self.starts.partition_point(|start| *start <= offset);
        let line = after.saturating_sub(1);
        let start = match self.starts.get(line) {
            Some(start) => *start,
            None => 0,
        };
        Point {
            line,
            units: width(text.get(start..offset).unwrap_or(""), units),
        }
    }

    /// The offset of a point in the text: the end of the line, or of the text, where it is beyond that.
    pub(crate) fn offset(&self, text: &str, point: Point, units: Units) -> usize {
        match self.starts.get(point.line) {
            Some(start) => {
                let line = line_from(text, *start);
                start.saturating_add(bytes_before(line, point.units, units))
            }
            None => text.len(),
        }
    }
}
