//! What can be written instead: the lines as they are and as they would be.

use crate::escape::{columns_of, push_escaped};
use crate::excerpt::{Frame, push_margin, push_row};
use crate::ink::{Ink, put, repeat};
use crate::lines::{Line, boundary, line_at, line_end, strip_of};
use crate::marks::{Mark, ShownFix};
use manifest_json::Text;
use std::alloc::{AllocError, Global};

/// Some parts of a suggestion that stand on the same lines, and as much of the text around them as is shown.
#[derive(Clone, Copy)]
struct Cluster<'m, 'a> {
    parts: &'m [Mark<'a>],
    number: usize,
    from: usize,
    to: usize,
}

/// These parts with what is shown around them.
fn cluster_of<'m, 'a>(text: &str, frame: Frame, parts: &'m [Mark<'a>]) -> Option<Cluster<'m, 'a>> {
    let first = parts.first()?;
    let last = parts.last()?;
    let line = line_at(first.span.from, first.from);
    let near = first.span.from.saturating_sub(frame.room() / 3);
    let is_whole = last.to.bytes == 0 && last.span.from < last.span.to;
    let to = if is_whole {
        last.span.to
    } else {
        line_end(text, last.span.to, frame.room())
    };
    Some(Cluster {
        parts,
        number: line.number,
        from: boundary(text, near.max(line.start)),
        to,
    })
}

/// What would be written in place of the cluster's text.
fn replaced(alloc: Global, text: &str, cluster: &Cluster<'_, '_>) -> Result<String, AllocError> {
    let mut new = Text::new(alloc);
    let mut at = cluster.from;
    for part in cluster.parts {
        new.push_str(text.get(at..part.span.from).unwrap_or(""));
        new.push_str(part.text);
        at = part.span.to;
    }
    new.push_str(text.get(at..cluster.to).unwrap_or(""));
    new.finish()
}

/// Whether the parts only put something into a line.
fn only_inserts(parts: &[Mark<'_>]) -> bool {
    parts.iter().all(|part| part.span.from == part.span.to && !part.text.contains('\n'))
}

/// Whether the one part puts whole lines before a line.
fn inserts_lines(parts: &[Mark<'_>]) -> bool {
    match parts {
        [part] => {
            part.span.from == part.span.to && part.from.bytes == 0 && part.text.ends_with('\n')
        }
        _ => false,
    }
}

/// Writes each line of a text with a number and a sign.
fn push_signed(out: &mut Text, frame: Frame, number: usize, ink: Ink, sign: &str, text: &str) {
    let text = text.strip_suffix('\n').unwrap_or(text);
    if text.is_empty() {
        return;
    }
    let mut number = number;
    for line in text.lines() {
        push_margin(out, frame, Some(number), ink, sign);
        let shown = strip_of(line, Line { number, start: 0 }, 0, frame.room());
        if !line.is_empty() {
            out.push(' ');
            shown.push(out);
        }
        out.push('\n');
        number = number.saturating_add(1);
    }
}

/// What stands below the new line: `+` below what is put in.
fn signs_of(alloc: Global, text: &str, cluster: &Cluster<'_, '_>) -> Result<String, AllocError> {
    let mut signs = Text::new(alloc);
    let mut at = cluster.from;
    for part in cluster.parts {
        let before = text.get(at..part.span.from).unwrap_or("");
        repeat(&mut signs, " ", columns_of(before));
        repeat(&mut signs, "+", columns_of(part.text));
        at = part.span.to;
    }
    signs.finish()
}

/// Writes the new line with its number.
fn push_new(out: &mut Text, frame: Frame, number: usize, new: &str) {
    let shown = strip_of(new, Line { number, start: 0 }, 0, frame.room());
    push_margin(out, frame, Some(number), Ink::Gutter, "|");
    if !shown.is_empty() {
        out.push(' ');
        shown.push(out);
    }
    out.push('\n');
}

/// Writes the new line, and `+` below what is put in.
fn push_inserted(
    alloc: Global,
    out: &mut Text,
    frame: Frame,
    text: &str,
    cluster: &Cluster<'_, '_>,
) {
    let Some(new) = out.made(replaced(alloc, text, cluster)) else {
        return;
    };
    push_new(out, frame, cluster.number, new.as_str());
    let Some(signs) = out.made(signs_of(alloc, text, cluster)) else {
        return;
    };
    push_margin(out, frame, None, Ink::Gutter, "|");
    if !signs.is_empty() {
        out.push(' ');
        put(out, frame.style, Ink::Added, signs.as_str());
    }
    out.push('\n');
}

/// Writes one cluster: the old lines with `-` and the new ones with `+`, or the new line alone where something is only put
/// in.
fn push_cluster(
    alloc: Global,
    out: &mut Text,
    frame: Frame,
    text: &str,
    cluster: &Cluster<'_, '_>,
) {
    let parts = cluster.parts;
    let number = cluster.number;
    if inserts_lines(parts) {
        for part in parts {
            push_signed(out, frame, number, Ink::Added, "+", part.text);
        }
        return;
    }
    if only_inserts(parts) {
        push_inserted(alloc, out, frame, text, cluster);
        return;
    }
    let old = text.get(cluster.from..cluster.to).unwrap_or("");
    let Some(new) = out.made(replaced(alloc, text, cluster)) else {
        return;
    };
    push_signed(out, frame, number, Ink::Removed, "-", old);
    push_signed(out, frame, number, Ink::Added, "+", new.as_str());
}

/// Writes `help: TEXT`, and the lines as they would be.
pub(crate) fn push_fix(
    alloc: Global,
    out: &mut Text,
    frame: Frame,
    text: &str,
    fix: &ShownFix<'_>,
) {
    put(out, frame.style, Ink::Help, "help");
    out.push_str(": ");
    let inner = fix.fix;
    push_escaped(out, inner.text.as_str());
    out.push('\n');
    push_row(out, frame, None, "");
    let mut is_first = true;
    let is_near = |a: &Mark<'_>, b: &Mark<'_>| b.from.line <= a.to.line;
    for parts in fix.parts.as_slice().chunk_by(is_near) {
        if let Some(cluster) = cluster_of(text, frame, parts) {
            if !is_first {
                put(out, frame.style, Ink::Gutter, "...");
                out.push('\n');
            }
            push_cluster(alloc, out, frame, text, &cluster);
            is_first = false;
        }
    }
    push_row(out, frame, None, "");
}
