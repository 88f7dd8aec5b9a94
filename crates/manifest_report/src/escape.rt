//! Text of a file, so written that a terminal shows it and does nothing else.

use manifest_json::Text;
use unicode_width::UnicodeWidthChar;

/// How many columns a tab takes.
const TAB: &str = "    ";

/// Whether a character is never written as it is: a control character, or one that turns the direction of a text.
fn is_hidden(c: char) -> bool {
    let code = u32::from(c);
    code < 32
        || (127..160).contains(&code)
        || code == 0x61c
        || (0x200e..=0x200f).contains(&code)
        || (0x2028..=0x202e).contains(&code)
        || (0x2066..=0x2069).contains(&code)
}

/// How many digits the code of a character has in hexadecimal.
fn hexadecimal_digits(c: char) -> usize {
    let code = u32::from(c);
    if code < 0x10 {
        1
    } else if code < 0x100 {
        2
    } else if code < 0x1000 {
        3
    } else {
        4
    }
}

/// Writes the character as `\u{1b}`, `\n`, `\r` or `\t`.
fn push_hidden(out: &mut Text, c: char) {
    match c {
        '\n' => out.push_str("\\n"),
        '\r' => out.push_str("\\r"),
        '\t' => out.push_str("\\t"),
        _ => {
            out.push_str("\\u{");
            out.push_hexadecimal(u32::from(c));
            out.push('}');
        }
    }
}

/// Writes a text on one line: control characters, and those that turn the direction of a text, as `\n` and `\u{1b}`.
///
/// ```ignore
/// push_escaped(&mut out, "a\u{1b}b"); // a\u{1b}b, of 8 characters
/// ```
pub fn push_escaped(out: &mut Text, text: &str) {
    for c in text.chars() {
        push_char(out, c);
    }
}

/// Writes one character as [`push_escaped`] does.
pub(crate) fn push_char(out: &mut Text, c: char) {
    if is_hidden(c) {
        push_hidden(out, c)
    } else {
        out.push(c)
    }
}

/// Writes a text as [`push_escaped`] does, but for its tabs, which become four spaces.
pub(crate) fn push_excerpt(out: &mut Text, text: &str) {
    for c in text.chars() {
        if c == '\t' {
            out.push_str(TAB);
        } else {
            push_char(out, c);
        }
    }
}

/// The columns that a character takes where [`push_excerpt`] writes it.
fn columns_of_char(c: char) -> usize {
    match c {
        '\t' => 4,
        '\n' | '\r' => 2,
        _ => {
            if is_hidden(c) {
                hexadecimal_digits(c).saturating_add(4)
            } else {
                c.width().unwrap_or(0)
            }
        }
    }
}

/// The columns that a text takes where [`push_excerpt`] writes it.
pub(crate) fn columns_of(text: &str) -> usize {
    let mut columns = 0usize;
    for c in text.chars() {
        columns = columns.saturating_add(columns_of_char(c));
    }
    columns
}
