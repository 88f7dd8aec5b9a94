//! Messages for people, as rustc prints them.

use crate::escape::push_escaped;
use crate::excerpt::{Frame, digits, push_excerpt_of, push_margin, push_row};
use crate::format::level_name;
use crate::help::push_fix;
use crate::ink::{Ink, Style, begin, end, put, put_escaped, repeat};
use crate::marks::{Mark, Shown};
use crate::source::Sources;
use manifest_json::Text;
use manifest_lint::PlacedLabel;
use std::alloc::{AllocError, Global};

/// How many columns the numbers of all lines that are shown take.
fn digits_of(shown: &Shown<'_>) -> usize {
    let mut last = 1usize;
    for mark in &shown.marks {
        last = last.max(mark.to.line);
    }
    for fix in &shown.fixes {
        for part in &fix.parts {
            let added = part.text.lines().count();
            last = last.max(part.to.line.saturating_add(added));
        }
    }
    digits(last)
}

/// Writes `error[CODE]: MESSAGE`.
fn push_title(out: &mut Text, style: Style, shown: &Shown<'_>) {
    let diagnostic = shown.diagnostic;
    begin(out, style, Ink::of(diagnostic.level));
    out.push_str(level_name(diagnostic.level));
    out.push('[');
    out.push_str(diagnostic.code.name);
    out.push(']');
    end(out, style);
    put(out, style, Ink::Bold, ": ");
    put_escaped(out, style, Ink::Bold, diagnostic.message.as_str());
    out.push('\n');
}

/// Writes `--> FILE:LINE:COLUMN`, or `::: FILE:LINE:COLUMN` for another file.
fn push_place(out: &mut Text, frame: Frame, arrow: &str, file: &str, mark: Option<&Mark<'_>>) {
    repeat(out, " ", frame.digits);
    put(out, frame.style, Ink::Gutter, arrow);
    out.push(' ');
    push_escaped(out, file);
    if let Some(mark) = mark {
        out.push(':');
        out.push_number(mark.from.line);
        out.push(':');
        out.push_number(mark.from.characters.saturating_add(1));
    }
    out.push('\n');
}

/// Writes the lines of each file that is pointed to; `marks` are ordered by file and place.
fn push_files(alloc: Global, out: &mut Text, frame: Frame, marks: &[Mark<'_>]) {
    for group in marks.chunk_by(|a, b| a.order == b.order) {
        if let Some(first) = group.first() {
            let source = first.source;
            if first.order > 0 {
                push_row(out, frame, None, "");
                push_place(out, frame, ":::", source.name, Some(first));
            }
            push_excerpt_of(alloc, out, frame, source.text, group);
        }
    }
}

/// Writes `= note: TEXT`, with the further lines of the text below its first one.
fn push_note(out: &mut Text, frame: Frame, name: &str, text: &str) {
    push_margin(out, frame, None, Ink::Gutter, "=");
    out.push(' ');
    put(out, frame.style, Ink::Bold, name);
    out.push_str(": ");
    let mut is_first = true;
    for line in text.lines() {
        if !is_first {
            out.push('\n');
            repeat(
                out,
                " ",
                frame.digits.saturating_add(name.len()).saturating_add(5),
            );
        }
        push_escaped(out, line);
        is_first = false;
    }
    out.push('\n');
}

/// Writes a label that has no place as a note.
fn push_unplaced(out: &mut Text, frame: Frame, sources: &Sources<'_>, label: &PlacedLabel) {
    let text = label.text.as_str();
    match sources.of(label.file) {
        Some(source) => {
            let file = source.name;
            let note = format!(in out.allocator(); "{text} ({file})");
            if let Some(note) = out.made(note) {
                push_note(out, frame, "note", note.as_str());
            }
        }
        None => push_note(out, frame, "note", text),
    }
}

/// Whether the label is shown by no mark.
fn is_unplaced(sources: &Sources<'_>, label: &PlacedLabel) -> bool {
    label.span.is_none() || sources.of(label.file).is_none()
}

/// Writes what stands below the lines: labels without a place, notes and suggestions.
fn push_children(
    alloc: Global,
    out: &mut Text,
    frame: Frame,
    sources: &Sources<'_>,
    shown: &Shown<'_>,
) {
    let diagnostic = shown.diagnostic;
    let own = sources.own;
    for label in &diagnostic.labels {
        if is_unplaced(sources, label) {
            push_unplaced(out, frame, sources, label);
        }
    }
    for note in &diagnostic.notes {
        push_note(out, frame, "note", note.as_str());
    }
    for fix in &shown.fixes {
        if fix.parts.is_empty() {
            let inner = fix.fix;
            push_note(out, frame, "help", inner.text.as_str());
        }
    }
    for fix in &shown.fixes {
        if !fix.parts.is_empty() {
            push_fix(alloc, out, frame, own.text, fix);
        }
    }
}

/// The places of a diagnostic, by file and then by place.
fn ordered<'a>(alloc: Global, shown: &Shown<'a>) -> Result<Vec<Mark<'a>>, AllocError> {
    let mut marks = Vec::new(alloc);
    for mark in &shown.marks {
        marks.push(*mark)?;
    }
    marks.sort_by_key(|mark| (mark.order, mark.span.from))?;
    Ok(marks)
}

/// Writes a diagnostic as rustc does: what is wrong, where, the lines there with what is pointed to, notes, and what can
/// be written instead; and then an empty line.
pub(crate) fn push_people(
    alloc: Global,
    out: &mut Text,
    style: Style,
    sources: &Sources<'_>,
    shown: &Shown<'_>,
) {
    let diagnostic = shown.diagnostic;
    let frame = Frame {
        style,
        level: diagnostic.level,
        digits: digits_of(shown),
    };
    push_title(out, style, shown);
    let own = sources.own;
    push_place(out, frame, "-->", own.name, shown.primary());
    let Some(marks) = out.made(ordered(alloc, shown)) else {
        return;
    };
    push_files(alloc, out, frame, marks.as_slice());
    let has_children = !diagnostic.notes.is_empty()
        || !shown.fixes.is_empty()
        || diagnostic
            .labels
            .iter()
            .any(|label| is_unplaced(sources, label));
    if has_children {
        push_row(out, frame, None, "");
    }
    push_children(alloc, out, frame, sources, shown);
    out.push('\n');
}
