//! What is said of a text, as the protocol has it.

use crate::lines::{Lines, Point, Units};
use manifest_json::Text;
use manifest_lint::{Diagnostic, Fix, PlacedLabel};
use manifest_places::{Span, Splice};
use manifest_rules::{File, Level};

/// A text, and where it is.
#[derive(Clone, Copy)]
pub(crate) struct View<'a> {
    pub(crate) uri: &'a str,
    pub(crate) text: &'a str,
    pub(crate) lines: &'a Lines,
    pub(crate) units: Units,
}

/// The texts that the places of diagnostics are in.
#[derive(Clone, Copy)]
pub(crate) struct Views<'a> {
    pub(crate) own: View<'a>,
    pub(crate) root: Option<View<'a>>,
}

impl<'a> Views<'a> {
    /// The text that a place is in.
    fn of(&self, file: File) -> Option<View<'a>> {
        match file {
            File::Own => Some(self.own),
            File::Root => self.root,
            File::Member(_) => None,
        }
    }
}

fn push_point(out: &mut Text, name: &str, point: Point) {
    out.open_member(name);
    out.number_member("line", point.line);
    out.number_member("character", point.units);
    out.close();
}

/// Writes a member `range`.
pub(crate) fn push_range(out: &mut Text, view: &View<'_>, span: Span) {
    push_range_as(out, "range", view, span);
}

/// Writes a range as a member with this key.
pub(crate) fn push_range_as(out: &mut Text, key: &str, view: &View<'_>, span: Span) {
    out.open_member(key);
    push_point(
        out,
        "start",
        view.lines.point(view.text, span.from, view.units),
    );
    push_point(out, "end", view.lines.point(view.text, span.to, view.units));
    out.close();
}

/// The range of a diagnostic: the beginning of the text where it has none.
pub(crate) fn span_of(diagnostic: &Diagnostic) -> Span {
    match diagnostic.span {
        Some(span) => span,
        None => Span { from: 0, to: 0 },
    }
}

/// The number of a level.
fn severity_of(level: Level) -> usize {
    match level {
        Level::Error => 1,
        Level::Warning => 2,
        Level::Note => 3,
    }
}

/// Writes what is said at a second place, where that is known.
fn push_label(out: &mut Text, views: &Views<'_>, label: &PlacedLabel) {
    let (Some(view), Some(span)) = (views.of(label.file), label.span) else {
        return;
    };
    out.open();
    out.open_member("location");
    out.text_member("uri", view.uri);
    push_range(out, &view, span);
    out.close();
    out.text_member("message", label.text.as_str());
    out.close();
}

/// Writes a message with its notes, each in a line of its own.
fn push_message(out: &mut Text, diagnostic: &Diagnostic) {
    let mut message = Text::new(out.allocator());
    message.push_str(diagnostic.message.as_str());
    for note in &diagnostic.notes {
        message.push_str("\nnote: ");
        message.push_str(note.as_str());
    }
    if let Some(message) = out.made(message.finish()) {
        out.text_member("message", message.as_str());
    }
}

/// Writes a diagnostic as an object.
pub(crate) fn push_diagnostic(out: &mut Text, views: &Views<'_>, diagnostic: &Diagnostic) {
    out.open();
    push_range(out, &views.own, span_of(diagnostic));
    out.number_member("severity", severity_of(diagnostic.level));
    out.text_member("code", diagnostic.code.name);
    out.text_member("source", "manifest_check");
    push_message(out, diagnostic);
    out.open_list("relatedInformation");
    for label in &diagnostic.labels {
        push_label(out, views, label);
    }
    out.close_list();
    out.close();
}

/// Writes diagnostics as a member, a list.
pub(crate) fn push_diagnostics(
    out: &mut Text,
    key: &str,
    views: &Views<'_>,
    diagnostics: &[Diagnostic],
) {
    out.open_list(key);
    for diagnostic in diagnostics {
        push_diagnostic(out, views, diagnostic);
    }
    out.close_list();
}

/// Writes an edit of the text as an object.
pub(crate) fn push_edit(out: &mut Text, view: &View<'_>, span: Span, text: &str) {
    out.open();
    push_range(out, view, span);
    out.text_member("newText", text);
    out.close();
}

/// Writes the edits of a text.
pub(crate) fn push_changes(out: &mut Text, view: &View<'_>, splices: &[Splice]) {
    out.open_member("changes");
    push_splices(out, view, splices);
    out.close();
}

/// Writes the edits of a text as a list at its URI.
pub(crate) fn push_splices(out: &mut Text, view: &View<'_>, splices: &[Splice]) {
    out.open_list(view.uri);
    for splice in splices {
        let span = Span {
            from: splice.from,
            to: splice.to,
        };
        push_edit(out, view, span, splice.put.as_str());
    }
    out.close_list();
}

/// Writes a suggestion of a diagnostic as an action.
pub(crate) fn push_action(out: &mut Text, views: &Views<'_>, diagnostic: &Diagnostic, fix: &Fix) {
    out.open();
    out.text_member("title", fix.text.as_str());
    out.text_member("kind", "quickfix");
    out.flag_member("isPreferred", fix.is_certain);
    out.open_list("diagnostics");
    push_diagnostic(out, views, diagnostic);
    out.close_list();
    out.open_member("edit");
    push_changes(out, &views.own, fix.replaced.as_slice());
    out.close();
    out.close();
}

/// Writes the action that puts a new text in the place of a whole one: what differs is replaced.
pub(crate) fn push_rewriting(out: &mut Text, view: &View<'_>, new: &str) {
    let front = common_front(view.text, new);
    let old_rest = view.text.get(front..).unwrap_or("");
    let new_rest = new.get(front..).unwrap_or("");
    let back = common_back(old_rest, new_rest);
    let to = view.text.len().saturating_sub(back);
    let middle = new_rest.get(..new_rest.len().saturating_sub(back));
    out.open();
    out.text_member("title", "Write all certain suggestions");
    out.text_member("kind", "source.fixAll");
    out.open_member("edit");
    out.open_member("changes");
    out.open_list(view.uri);
    push_edit(out, view, Span { from: front, to }, middle.unwrap_or(""));
    out.close_list();
    out.close();
    out.close();
    out.close();
}

/// How many bytes two texts begin with that are the same, in whole characters.
fn common_front(a: &str, b: &str) -> usize {
    let mut bytes = 0usize;
    for (x, y) in a.chars().zip(b.chars()) {
        if x != y {
            return bytes;
        }
        bytes = bytes.saturating_add(x.len_utf8());
    }
    bytes
}

/// How many bytes two texts end with that are the same, in whole characters.
fn common_back(a: &str, b: &str) -> usize {
    let mut bytes = 0usize;
    for (x, y) in a.chars().rev().zip(b.chars().rev()) {
        if x != y {
            return bytes;
        }
        bytes = bytes.saturating_add(x.len_utf8());
    }
    bytes
}

/// Writes a key and what stands after it, as it is.
pub(crate) fn raw_member(out: &mut Text, key: &str, json: &str) {
    out.push_key(key);
    out.push_str(json);
}
