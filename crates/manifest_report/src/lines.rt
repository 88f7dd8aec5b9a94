//! Lines of a text, and as much of one as there is room for.

use crate::escape::{columns_of, push_excerpt};
use manifest_json::Text;
use manifest_places::Position;

/// What stands for the part of a line that is left out.
const CUT: &str = "...";

/// A line, and the offset at which it begins.
#[derive(Clone, Copy)]
pub(crate) struct Line {
    pub(crate) number: usize,
    pub(crate) start: usize,
}

/// The line that an offset with this position is in.
pub(crate) fn line_at(offset: usize, position: Position) -> Line {
    Line {
        number: position.line,
        start: offset.saturating_sub(position.bytes),
    }
}

/// The line after another, where there is one.
pub(crate) fn next_line(text: &str, line: Line) -> Option<Line> {
    let rest = text.get(line.start..)?;
    let length = rest.find('\n')?;
    Some(Line {
        number: line.number.saturating_add(1),
        start: line.start.saturating_add(length).saturating_add(1),
    })
}

/// The line before another, where there is one.
pub(crate) fn line_before(text: &str, line: Line) -> Option<Line> {
    let end = line.start.checked_sub(1)?;
    let before = text.get(..end)?;
    let start = match before.rfind('\n') {
        Some(at) => at.saturating_add(1),
        None => 0,
    };
    Some(Line {
        number: line.number.saturating_sub(1),
        start,
    })
}

/// The offset, or the nearest one before it that cuts no character.
pub(crate) fn boundary(text: &str, offset: usize) -> usize {
    let mut at = offset.min(text.len());
    for _ in 0..3 {
        if text.get(at..).is_some() {
            return at;
        }
        at = at.saturating_sub(1);
    }
    at
}

/// As much of a line as is shown.
#[derive(Clone, Copy)]
pub(crate) struct Strip<'a> {
    /// The offset of the first byte that is shown.
    pub(crate) start: usize,
    pub(crate) text: &'a str,
    is_cut_before: bool,
    is_cut_after: bool,
}

/// The end of the line that an offset is in, or the offset that is `room` bytes further, where that is before it.
pub(crate) fn line_end(text: &str, offset: usize, room: usize) -> usize {
    let far = boundary(text, offset.saturating_add(room));
    let rest = text.get(offset..far).unwrap_or("");
    match rest.find('\n') {
        Some(length) => offset.saturating_add(length),
        None => far,
    }
}

/// What is shown of a line where there is room for `room` bytes: all of it, or what stands around the offset.
pub(crate) fn strip_of<'a>(text: &'a str, line: Line, around: usize, room: usize) -> Strip<'a> {
    let around = boundary(text, around.max(line.start));
    let end = line_end(text, around, room);
    let start = if end.saturating_sub(line.start) <= room {
        line.start
    } else {
        boundary(text, around.saturating_sub(room / 3).max(line.start))
    };
    let stop = boundary(text, end.min(start.saturating_add(room)));
    let shown = text.get(start..stop).unwrap_or("");
    let is_whole = text.get(stop..).unwrap_or("").starts_with('\n') || stop == text.len();
    Strip {
        start,
        text: shown.strip_suffix('\r').unwrap_or(shown),
        is_cut_before: start > line.start,
        is_cut_after: !is_whole,
    }
}

impl<'a> Strip<'a> {
    /// The column of an offset where the strip is written.
    pub(crate) fn column(&self, offset: usize) -> usize {
        let lead = if self.is_cut_before { CUT.len() } else { 0 };
        let within = offset.saturating_sub(self.start).min(self.text.len());
        let before = self.text.get(..within).unwrap_or(self.text);
        lead.saturating_add(columns_of(before))
    }

    /// The column after the strip.
    pub(crate) fn columns(&self) -> usize {
        self.column(self.start.saturating_add(self.text.len()))
    }

    /// Whether nothing is shown.
    pub(crate) fn is_empty(&self) -> bool {
        self.text.is_empty() && !self.is_cut_before && !self.is_cut_after
    }

    /// Writes the strip, with dots where something is left out.
    pub(crate) fn push(&self, out: &mut Text) {
        if self.is_cut_before {
            out.push_str(CUT);
        }
        push_excerpt(out, self.text);
        if self.is_cut_after {
            out.push_str(CUT);
        }
    }
}
