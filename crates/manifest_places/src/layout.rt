//! The lines and blanks of a text, and how a key is written. Nothing is promised of it: `planning.rt` and `edits.rt` have
//! checked what comes of it.

use crate::reading::part_of;
use std::alloc::{AllocError, Global};
use std::fmt::Write;
use toml_parser::bytes;
use toml_parser::text::byte_at;

/// Whether the offset is where a line begins.
pub(crate) fn begins_line(text: &str, at: usize) -> bool {
    at == 0 || byte_at(text, at.saturating_sub(1)) == b'\n'
}

fn is_blank(byte: u8, lines: bool) -> bool {
    bytes::is_ws(byte) || lines && (byte == b'\n' || byte == b'\r')
}

/// Where the blanks before the offset begin: white space, and with `lines` line ends.
pub(crate) fn before_blanks(text: &str, at: usize, lines: bool) -> usize {
    let mut from = at;
    for _byte in 0..at {
        if from > 0 && is_blank(byte_at(text, from.saturating_sub(1)), lines) {
            from = from.saturating_sub(1);
        } else {
            return from;
        }
    }
    from
}

/// Where the blanks after the offset end.
pub(crate) fn after_blanks(text: &str, at: usize, lines: bool) -> usize {
    for i in at..text.len() {
        if !is_blank(byte_at(text, i), lines) {
            return i;
        }
    }
    text.len()
}

/// After the line feed that comes next, or the end of the text.
pub(crate) fn line_end(text: &str, at: usize) -> usize {
    for i in at..text.len() {
        if byte_at(text, i) == b'\n' {
            return i.saturating_add(1);
        }
    }
    text.len()
}

/// How long the byte order mark of the text is, if it has one.
pub(crate) fn mark_of(text: &str) -> usize {
    if text.starts_with("\u{FEFF}") { 3 } else { 0 }
}

/// Where the line begins in which the offset is, after a byte order mark.
pub(crate) fn line_start(text: &str, at: usize) -> usize {
    let mut start = at;
    for _byte in 0..at {
        if begins_line(text, start) {
            return start;
        }
        start = start.saturating_sub(1);
    }
    start.max(mark_of(text))
}

/// The white space before the offset, where nothing else stands before it in its line.
pub(crate) fn indent_of(text: &str, at: usize) -> &str {
    let from = before_blanks(text, at, false);
    if !begins_line(text, from) {
        return "";
    }
    match part_of(text, from, at) {
        Some(indent) => indent,
        None => "",
    }
}

/// How the text ends its lines.
pub(crate) fn line_break(text: &str) -> &'static str {
    let end = line_end(text, 0);
    if end > 1 && byte_at(text, end.saturating_sub(2)) == b'\r' {
        "\r\n"
    } else {
        "\n"
    }
}

/// The key as it is written: bare where it can be, and else in quotes.
pub(crate) fn key_text(alloc: Global, key: &str) -> Result<String, AllocError> {
    if !key.is_empty() && key.as_bytes().iter().all(|byte| bytes::is_bare(*byte)) {
        return String::from_str(alloc, key);
    }
    let mut out = String::from_str(alloc, "\"")?;
    for c in key.chars() {
        push_char(&mut out, c)?;
    }
    out.push_str("\"")?;
    Ok(out)
}

fn push_char(out: &mut String, c: char) -> Result<(), AllocError> {
    match c {
        '"' => out.push_str("\\\""),
        '\\' => out.push_str("\\\\"),
        '\n' => out.push_str("\\n"),
        '\r' => out.push_str("\\r"),
        '\t' => out.push_str("\\t"),
        _ => {
            let code = u32::from(c);
            if code < 32 || code == 127 {
                write!(out, "\\u{code:04X}")
            } else {
                out.push(c)
            }
        }
    }
}
