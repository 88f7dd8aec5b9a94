//! Colours, and the width of what is written.

use crate::escape::push_escaped;
use manifest_json::Text;
use manifest_rules::Level;

/// How messages for people look.
#[derive(Clone, Copy)]
pub struct Style {
    pub is_colored: bool,
    /// How wide an excerpt may be.
    pub columns: usize,
}

/// What a part of a message is written with.
#[derive(Clone, Copy, PartialEq, Eq)]
pub(crate) enum Ink {
    Bold,
    Error,
    Warning,
    Note,
    Help,
    Gutter,
    Added,
    Removed,
}

impl Ink {
    /// The ink of a level.
    pub(crate) fn of(level: Level) -> Ink {
        match level {
            Level::Error => Ink::Error,
            Level::Warning => Ink::Warning,
            Level::Note => Ink::Note,
        }
    }

    /// What turns the ink on in a terminal.
    fn sequence(self) -> &'static str {
        match self {
            Ink::Bold => "\u{1b}[1m",
            Ink::Error => "\u{1b}[1;91m",
            Ink::Warning => "\u{1b}[1;33m",
            Ink::Note => "\u{1b}[1;92m",
            Ink::Help => "\u{1b}[1;96m",
            Ink::Gutter => "\u{1b}[1;94m",
            Ink::Added => "\u{1b}[92m",
            Ink::Removed => "\u{1b}[91m",
        }
    }
}

/// Writes a text in this ink. The text is written as it is: what comes from a file is escaped before.
pub(crate) fn put(out: &mut Text, style: Style, ink: Ink, text: &str) {
    if !text.is_empty() {
        begin(out, style, ink);
        out.push_str(text);
        end(out, style);
    }
}

/// Writes what turns the ink on for all that is written up to [`end`].
pub(crate) fn begin(out: &mut Text, style: Style, ink: Ink) {
    if style.is_colored {
        out.push_str(ink.sequence());
    }
}

/// Writes what turns an ink off.
pub(crate) fn end(out: &mut Text, style: Style) {
    if style.is_colored {
        out.push_str("\u{1b}[0m");
    }
}

/// Writes a text of a file, escaped, in this ink.
pub(crate) fn put_escaped(out: &mut Text, style: Style, ink: Ink, text: &str) {
    if !text.is_empty() {
        begin(out, style, ink);
        push_escaped(out, text);
        end(out, style);
    }
}

/// Writes this many copies of a text.
pub(crate) fn repeat(out: &mut Text, text: &str, times: usize) {
    for _ in 0..times {
        out.push_str(text);
    }
}
