//! The parts of dotted keys and of headers.

use manifest_places::{Located, Span, Step};
use manifest_rules::Part;

/// What of a key was read so far.
#[derive(Clone, Copy)]
struct Reading {
    /// Where the part begins.
    from: usize,
    /// How many parts stand before it.
    count: usize,
    /// The quote in which the next byte stands, or 0.
    quote: u8,
    /// Whether a backslash stands before the next byte.
    is_escaped: bool,
}

impl Reading {
    /// After this byte, which is not a dot between parts.
    fn after(self, byte: u8) -> Reading {
        let mut next = self;
        if self.is_escaped {
            next.is_escaped = false;
        } else if self.quote == 0 {
            if byte == b'"' || byte == b'\'' {
                next.quote = byte;
            }
        } else if byte == self.quote {
            next.quote = 0;
        } else if byte == b'\\' && self.quote == b'"' {
            next.is_escaped = true;
        }
        next
    }
}

/// The range without the blanks at its ends.
fn trimmed(bytes: &[u8], from: usize, to: usize) -> Span {
    let mut span = Span { from, to };
    for at in from..to {
        match bytes.get(at) {
            Some(b' ' | b'\t') => span.from = at.saturating_add(1),
            _ => break,
        }
    }
    for back in 0..to.saturating_sub(span.from) {
        let at = to.saturating_sub(back).saturating_sub(1);
        match bytes.get(at) {
            Some(b' ' | b'\t') => span.to = at,
            _ => break,
        }
    }
    span
}

/// The range of one part of the dotted key in this range: the one after this many parts, or the last one.
fn part_of(text: &str, from: usize, to: usize, after: usize) -> Span {
    let bytes = text.as_bytes();
    let mut reading = Reading {
        from,
        count: 0,
        quote: 0,
        is_escaped: false,
    };
    for at in from..to {
        let Some(byte) = bytes.get(at) else {
            break;
        };
        if *byte == b'.' && reading.quote == 0 {
            if reading.count == after {
                return trimmed(bytes, reading.from, at);
            }
            reading.count = reading.count.saturating_add(1);
            reading.from = at.saturating_add(1);
        } else {
            reading = reading.after(*byte);
        }
    }
    trimmed(bytes, reading.from, to)
}

/// The last part of a key.
fn last_part(text: &str, key: Span) -> Span {
    part_of(text, key.from, key.to, usize::MAX)
}

/// What stands between the brackets of a header.
fn inside(text: &str, header: Span) -> Span {
    let bytes = text.as_bytes();
    let is_array = bytes.get(header.from.saturating_add(1)) == Some(&b'[');
    let brackets = if is_array { 2usize } else { 1 };
    Span {
        from: header.from.saturating_add(brackets),
        to: header.to.saturating_sub(brackets),
    }
}

/// The last part of a header.
pub(crate) fn last_of_header(text: &str, header: Span) -> Span {
    last_part(text, inside(text, header))
}

/// The part of a header to which the keys of a path lead.
fn header_part(text: &str, header: Span, path: &[Step]) -> Span {
    let inside = inside(text, header);
    let mut keys = 0usize;
    for step in path {
        if let Step::Key(_) = step {
            keys = keys.saturating_add(1);
        }
    }
    part_of(text, inside.from, inside.to, keys.saturating_sub(1))
}

/// The range of what is meant of the entry at a path, by what belongs to it: of a key its last part, and where the entry
/// is written by a header the part of that.
pub(crate) fn span_of(text: &str, part: Part, path: &[Step], located: Located) -> Option<Span> {
    let key = match located.key {
        Some(key) => Some(last_part(text, key)),
        None => None,
    };
    let header = match located.header {
        Some(header) if part != Part::Header => Some(header_part(text, header, path)),
        other => other,
    };
    match part {
        Part::Key => first_of(key, header, located.value),
        _ => first_of(located.value, key, header),
    }
}

/// The first of these ranges that is there.
fn first_of(first: Option<Span>, second: Option<Span>, third: Option<Span>) -> Option<Span> {
    match first {
        Some(span) => Some(span),
        None => match second {
            Some(span) => Some(span),
            None => third,
        },
    }
}
