//! Diagnostics with the lines and columns of all that they point to.

use crate::source::{Positions, Source, Sources};
use manifest_lint::{Diagnostic, Fix, PlacedLabel};
use manifest_places::{Position, Span};
use manifest_rules::File;
use std::alloc::{AllocError, Global};

/// A range of a text that is pointed to, and what is said there.
#[derive(Clone, Copy)]
pub(crate) struct Mark<'a> {
    pub(crate) source: Source<'a>,
    /// Which file it is in: 0 for the manifest itself, then the root, then the members.
    pub(crate) order: usize,
    pub(crate) span: Span,
    pub(crate) from: Position,
    pub(crate) to: Position,
    pub(crate) is_primary: bool,
    /// What is said; of a part of a suggestion, what is put there.
    pub(crate) text: &'a str,
}

/// A suggestion, with the ranges that it replaces.
#[derive(Drop)]
pub(crate) struct ShownFix<'a> {
    pub(crate) fix: &'a Fix,
    pub(crate) parts: Vec<Mark<'a>>,
}

/// A diagnostic, with its places.
#[derive(Drop)]
pub(crate) struct Shown<'a> {
    pub(crate) diagnostic: &'a Diagnostic,
    /// The primary place, if it has one, and then the labels that have one.
    pub(crate) marks: Vec<Mark<'a>>,
    pub(crate) fixes: Vec<ShownFix<'a>>,
}

/// A range that lies within a text of this length.
fn within(span: Span, length: usize) -> Span {
    let to = span.to.min(length);
    Span {
        from: span.from.min(to),
        to,
    }
}

fn push_span(offsets: &mut Vec<usize>, span: Span, length: usize) -> Result<(), AllocError> {
    let span = within(span, length);
    offsets.push(span.from)?;
    offsets.push(span.to)?;
    Ok(())
}

/// The offsets in the manifest itself that a diagnostic points to.
fn push_offsets(
    offsets: &mut Vec<usize>,
    diagnostic: &Diagnostic,
    length: usize,
) -> Result<(), AllocError> {
    if let Some(span) = diagnostic.span {
        push_span(offsets, span, length)?;
    }
    for label in &diagnostic.labels {
        if let (File::Own, Some(span)) = (label.file, label.span) {
            push_span(offsets, span, length)?;
        }
    }
    for fix in &diagnostic.fixes {
        for splice in &fix.replaced {
            let span = Span {
                from: splice.from,
                to: splice.to,
            };
            push_span(offsets, span, length)?;
        }
    }
    Ok(())
}

/// A mark in the manifest itself.
fn own_mark<'a>(
    source: Source<'a>,
    positions: &Positions,
    span: Span,
    is_primary: bool,
    text: &'a str,
) -> Mark<'a> {
    let span = within(span, source.text.len());
    Mark {
        source,
        order: 0,
        span,
        from: positions.at(span.from),
        to: positions.at(span.to),
        is_primary,
        text,
    }
}

/// A mark in another file.
fn other_mark<'a>(
    alloc: Global,
    source: Source<'a>,
    order: usize,
    span: Span,
    text: &'a str,
) -> Result<Mark<'a>, AllocError> {
    let mut offsets = Vec::new(alloc);
    push_span(&mut offsets, span, source.text.len())?;
    let positions = Positions::new(alloc, source.text, offsets)?;
    let mut mark = own_mark(source, &positions, span, false, text);
    mark.order = order;
    Ok(mark)
}

/// Which file it is, in the order in which files are shown.
fn order_of(file: File) -> usize {
    match file {
        File::Own => 0,
        File::Root => 1,
        File::Member(index) => index.saturating_add(2),
    }
}

/// The mark of a label, where its file is known and it has a place there.
fn label_mark<'a>(
    alloc: Global,
    sources: &Sources<'a>,
    positions: &Positions,
    label: &'a PlacedLabel,
) -> Result<Option<Mark<'a>>, AllocError> {
    let Some(span) = label.span else {
        return Ok(None);
    };
    let text = label.text.as_str();
    if label.file == File::Own {
        return Ok(Some(own_mark(sources.own, positions, span, false, text)));
    }
    match sources.of(label.file) {
        Some(source) => {
            let order = order_of(label.file);
            Ok(Some(other_mark(alloc, source, order, span, text)?))
        }
        None => Ok(None),
    }
}

fn shown_fix<'a>(
    alloc: Global,
    source: Source<'a>,
    positions: &Positions,
    fix: &'a Fix,
) -> Result<ShownFix<'a>, AllocError> {
    let mut parts = Vec::new(alloc);
    for splice in &fix.replaced {
        let span = Span {
            from: splice.from,
            to: splice.to,
        };
        parts.push(own_mark(source, positions, span, true, splice.put.as_str()))?;
    }
    Ok(ShownFix { fix, parts })
}

fn shown_one<'a>(
    alloc: Global,
    sources: &Sources<'a>,
    positions: &Positions,
    diagnostic: &'a Diagnostic,
) -> Result<Shown<'a>, AllocError> {
    let mut marks = Vec::new(alloc);
    if let Some(span) = diagnostic.span {
        marks.push(own_mark(sources.own, positions, span, true, ""))?;
    }
    for label in &diagnostic.labels {
        if let Some(mark) = label_mark(alloc, sources, positions, label)? {
            marks.push(mark)?;
        }
    }
    let mut fixes = Vec::new(alloc);
    for fix in &diagnostic.fixes {
        fixes.push(shown_fix(alloc, sources.own, positions, fix)?)?;
    }
    Ok(Shown {
        diagnostic,
        marks,
        fixes,
    })
}

/// These diagnostics of a manifest, with the places of all that they point to: the manifest is gone through once.
pub(crate) fn all_shown<'a>(
    alloc: Global,
    sources: &Sources<'a>,
    diagnostics: &'a [Diagnostic],
) -> Result<Vec<Shown<'a>>, AllocError> {
    let mut offsets = Vec::new(alloc);
    for diagnostic in diagnostics {
        push_offsets(&mut offsets, diagnostic, sources.own.text.len())?;
    }
    let positions = Positions::new(alloc, sources.own.text, offsets)?;
    let mut all = Vec::new(alloc);
    for diagnostic in diagnostics {
        all.push(shown_one(alloc, sources, &positions, diagnostic)?)?;
    }
    Ok(all)
}

impl<'a> Shown<'a> {
    /// The place of the diagnostic, if it has one.
    pub(crate) fn primary(&self) -> Option<&Mark<'a>> {
        let first = self.marks.first()?;
        if first.is_primary { Some(first) } else { None }
    }
}
