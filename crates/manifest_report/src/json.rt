//! Messages as rustc writes them in JSON, so that what reads those reads these.

use crate::format::level_name;
use crate::ink::Style;
use crate::lines::{Line, line_at, line_end, next_line};
use crate::marks::{Mark, Shown, ShownFix};
use crate::pages::explained;
use crate::people::push_people;
use crate::source::Sources;
use manifest_json::Text;
use std::alloc::Global;

/// The longest line whose text stands in a message, in bytes; and how many lines of a range do.
const LONGEST: usize = 4096;

const MOST_LINES: usize = 64;

/// A text, or nothing where it is empty.
fn some_text(text: &str) -> Option<&str> {
    if text.is_empty() { None } else { Some(text) }
}

/// Writes one line of a range, with the columns of it that are in the range.
fn push_span_line(out: &mut Text, mark: &Mark<'_>, line: Line) {
    let source = mark.source;
    let text = source.text;
    let end = line_end(text, line.start, LONGEST);
    let text = text.get(line.start..end).unwrap_or("");
    let from = if line.number == mark.from.line {
        mark.from.characters
    } else {
        0
    };
    let to = if line.number == mark.to.line {
        mark.to.characters
    } else {
        text.chars().count()
    };
    out.open();
    out.text_member("text", text.strip_suffix('\r').unwrap_or(text));
    out.number_member("highlight_start", from.saturating_add(1));
    out.number_member("highlight_end", to.saturating_add(1));
    out.close();
}

/// Writes the lines of a range.
fn push_span_lines(out: &mut Text, mark: &Mark<'_>) {
    let mut line = line_at(mark.span.from, mark.from);
    for _ in 0..MOST_LINES {
        push_span_line(out, mark, line);
        match next_line(mark.source.text, line) {
            Some(next) if next.number <= mark.to.line => line = next,
            _ => return,
        }
    }
}

/// What is said of a place: a label, or what can be put there.
#[derive(Clone, Copy)]
struct Said<'a> {
    label: Option<&'a str>,
    replacement: Option<&'a str>,
    applicability: Option<&'a str>,
}

/// Writes where a range is.
fn push_range(out: &mut Text, mark: &Mark<'_>) {
    out.text_member("file_name", mark.source.name);
    out.number_member("byte_start", mark.span.from);
    out.number_member("byte_end", mark.span.to);
    out.number_member("line_start", mark.from.line);
    out.number_member("line_end", mark.to.line);
    let start = mark.from.characters.saturating_add(1);
    out.number_member("column_start", start);
    let end = mark.to.characters.saturating_add(1);
    out.number_member("column_end", end);
    out.flag_member("is_primary", mark.is_primary);
}

/// Writes a range with its lines, and with what is said of it.
fn push_span(out: &mut Text, mark: &Mark<'_>, said: Said<'_>) {
    out.open();
    push_range(out, mark);
    out.open_list("text");
    if mark.from.bytes < LONGEST {
        push_span_lines(out, mark);
    }
    out.close_list();
    out.optional_text("label", said.label);
    out.optional_text("suggested_replacement", said.replacement);
    out.optional_text("suggestion_applicability", said.applicability);
    out.null_member("expansion");
    out.close();
}

/// Writes a place with its label.
fn push_labelled(out: &mut Text, mark: &Mark<'_>) {
    let said = Said {
        label: some_text(mark.text),
        replacement: None,
        applicability: None,
    };
    push_span(out, mark, said);
}

/// Writes a part of a suggestion: its text is what is put there.
fn push_suggested<'a>(out: &mut Text, mark: &Mark<'a>, applicability: &'a str) {
    let said = Said {
        label: None,
        replacement: Some(mark.text),
        applicability: Some(applicability),
    };
    push_span(out, mark, said);
}

/// Writes what a note or a suggestion begins with, up to its places.
fn open_child(out: &mut Text, level: &str, text: &str) {
    out.open();
    out.text_member("message", text);
    out.null_member("code");
    out.text_member("level", level);
    out.open_list("spans");
}

/// Writes what a note or a suggestion ends with.
fn close_child(out: &mut Text) {
    out.close_list();
    out.open_list("children");
    out.close_list();
    out.null_member("rendered");
    out.close();
}

/// Writes a note.
fn push_note(out: &mut Text, text: &str) {
    open_child(out, "note", text);
    close_child(out);
}

/// Writes what can be written instead.
fn push_help(out: &mut Text, fix: &ShownFix<'_>) {
    let inner = fix.fix;
    let applicability = if inner.is_certain {
        "MachineApplicable"
    } else {
        "MaybeIncorrect"
    };
    open_child(out, "help", inner.text.as_str());
    for part in &fix.parts {
        push_suggested(out, part, applicability);
    }
    close_child(out);
}

/// The whole manifest, for what has no place in it.
fn whole<'a>(sources: &Sources<'a>) -> Mark<'a> {
    let start = manifest_places::Position {
        line: 1,
        bytes: 0,
        characters: 0,
        units: 0,
    };
    Mark {
        source: sources.own,
        order: 0,
        span: manifest_places::Span { from: 0, to: 0 },
        from: start,
        to: start,
        is_primary: true,
        text: "",
    }
}

/// Writes the places of a diagnostic.
fn push_spans<'a>(out: &mut Text, sources: &Sources<'a>, shown: &Shown<'a>) {
    if shown.primary().is_none() {
        push_labelled(out, &whole(sources));
    }
    for mark in &shown.marks {
        push_labelled(out, mark);
    }
}

/// Writes the notes of a diagnostic, and what can be written instead.
fn push_children(out: &mut Text, shown: &Shown<'_>) {
    let diagnostic = shown.diagnostic;
    for text in &diagnostic.notes {
        push_note(out, text.as_str());
    }
    for fix in &shown.fixes {
        push_help(out, fix);
    }
}

/// Writes the code of a diagnostic, with its page.
fn push_code(out: &mut Text, code: &str) {
    out.open_member("code");
    out.text_member("code", code);
    out.optional_text("explanation", some_text(explained(code)));
    out.close();
}

/// Writes a diagnostic as one line of JSON, with what [`push_people`] writes as its `rendered`.
pub(crate) fn push_json<'a>(
    alloc: Global,
    out: &mut Text,
    style: Style,
    sources: &Sources<'a>,
    shown: &Shown<'a>,
) {
    let diagnostic = shown.diagnostic;
    out.open();
    out.text_member("$message_type", "diagnostic");
    out.text_member("message", diagnostic.message.as_str());
    push_code(out, diagnostic.code.name);
    out.text_member("level", level_name(diagnostic.level));
    out.open_list("spans");
    push_spans(out, sources, shown);
    out.close_list();
    out.open_list("children");
    push_children(out, shown);
    out.close_list();
    push_rendered(alloc, out, style, sources, shown);
    out.close();
    out.push('\n');
}

/// Writes what [`push_people`] writes, as a member.
fn push_rendered<'a>(
    alloc: Global,
    out: &mut Text,
    style: Style,
    sources: &Sources<'a>,
    shown: &Shown<'a>,
) {
    let mut rendered = Text::new(alloc);
    push_people(alloc, &mut rendered, style, sources, shown);
    if let Some(rendered) = out.made(rendered.finish()) {
        out.text_member("rendered", rendered.as_str());
    }
}
