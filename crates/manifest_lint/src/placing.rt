//! Diagnostics at their places.

ghost use Rattle.std.specs.Prelude.{◌≡◌, [], map, IfOk, IfSome};
ghost use Rattle.manifest_fault.specs.Faults.{step_of};
ghost use Rattle.manifest_places.specs.Finding.{AreFound};
ghost use Rattle.manifest_lint.specs.Lint.{reported_by, IsAt, IsPlaced};

use crate::diagnostic::{Diagnostic, Fix, PlacedLabel, Subject};
use crate::parts::span_of;
use crate::tables::key_at;
use manifest_fault::{Cause, KeyPath, Step};
use manifest_places::{EditError, Located, Places, Span, places_of, with_edits};
use manifest_rules::codes::NOT_TRUE;
use manifest_rules::{File, Label, Part, Report, Spot, Suggestion, copied_edits};
use std::alloc::{AllocError, Global};

/// The suggestions of one document that are shown with what they replace.
const MOST_SHOWN: usize = 64;

/// The bytes that may be read for that: each suggestion takes some readings of the text.
const MOST_READ: usize = 8 << 20;

/// How many suggestions of a text are shown with what they replace.
fn most_shown(text: &str) -> usize {
    match MOST_READ.checked_div(text.len()) {
        Some(count) => count.min(MOST_SHOWN),
        None => MOST_SHOWN,
    }
}

/// The texts in which places are, with the places of their values.
#[derive(Drop)]
pub(crate) struct Texts<'a> {
    pub(crate) own: &'a str,
    pub(crate) own_places: Option<Places>,
    pub(crate) root: &'a str,
    pub(crate) root_places: Option<Places>,
}

/// The range of a place in a text, by the places of its values.
fn span_at(text: &str, places: Option<&Places>, spot: &Spot) -> Option<Span> {
    match spot {
        Spot::Path(path, part) => {
            let located = places?.locate(path.as_slice());
            span_of(text, *part, path.as_slice(), located)
        }
        Spot::Bytes(from, to) => Some(Span {
            from: *from,
            to: *to,
        }),
    }
}

/// The path of a place; the empty one of a range of bytes.
fn path_of(alloc: Global, spot: Spot) -> (Vec<Step>, Part) {
    match spot {
        Spot::Path(steps, part) => (steps, part),
        Spot::Bytes(_, _) => (Vec::new(alloc), Part::Value),
    }
}

/// The path at which a diagnostic points: its own, but of a key with two spellings that with `_`, the later one.
fn pointed_path(alloc: Global, diagnostic: &Diagnostic) -> Result<Vec<Step>, AllocError> {
    let is_twice = match diagnostic.subject {
        Subject::Fault(cause, _) => cause == Cause::TwoSpellings,
        _ => false,
    };
    let mut path = Vec::new(alloc);
    let count = diagnostic.path.steps.len();
    for step in &diagnostic.path.steps {
        let is_last = path.len().saturating_add(1) == count;
        path.push(match step {
            Step::Key(key) if is_last && is_twice => Step::Key(with_underscores(
                alloc,
                key.as_str(),
            )?),
            Step::Key(key) => Step::Key(key.clone()?),
            Step::Index(index) => Step::Index(*index),
        })?;
    }
    // of what is not inherited the flag that says so
    if diagnostic.code == NOT_TRUE && key_at(diagnostic.path.steps.as_slice()) != "workspace" {
        path.push(Step::Key(String::from_str(alloc, "workspace")?))?;
    }
    Ok(path)
}

fn with_underscores(alloc: Global, key: &str) -> Result<String, AllocError> {
    let mut other = String::new(alloc);
    for ch in key.chars() {
        other.push(if ch == '-' { '_' } else { ch })?;
    }
    Ok(other)
}

impl<'a> Texts<'a> {
    /// What belongs to the path, where the places of the text were found.
    fn located(&self, path: &[Step]) -> Option<Located>
        requires { IfSome self.now.own_places (AreFound self.now.own.now) }
        ensures { IfSome result (IsAt self.now.own.now (map step_of path.now)) }
    {
        match &self.own_places {
            Some(places) => Some(places.locate(path)),
            None => None,
        }
    }

    /// The diagnostic, which is about the entry at its path, at its place.
    pub(crate) fn placed(
        &self,
        alloc: Global,
        diagnostic: Diagnostic,
        shown: &mut usize,
    ) -> Result<Diagnostic, AllocError>
        requires { IfSome self.now.own_places (AreFound self.now.own.now) }
        ensures found { IfOk result
            (λ d. reported_by d.subject d ≡ reported_by diagnostic.subject diagnostic) }
        ensures placed { IfOk result (IsPlaced self.now.own.now) }
    {
        let located = self.located(diagnostic.path.steps.as_slice());
        let spot = Spot::Path(pointed_path(alloc, &diagnostic)?, diagnostic.part);
        let span = span_at(self.own, self.own_places.as_ref(), &spot);
        Ok(Diagnostic {
            code: diagnostic.code,
            level: diagnostic.level,
            subject: diagnostic.subject,
            message: diagnostic.message,
            path: diagnostic.path,
            part: diagnostic.part,
            located,
            span,
            labels: diagnostic.labels,
            notes: diagnostic.notes,
            fixes: self.shown(alloc, diagnostic.fixes, shown)?,
        })
    }

    /// Suggestions with what they replace, where they can be made; those that cannot are not certain.
    fn shown(
        &self,
        alloc: Global,
        fixes: Vec<Fix>,
        shown: &mut usize,
    ) -> Result<Vec<Fix>, AllocError> {
        let mut all = Vec::new(alloc);
        for fix in fixes {
            all.push(self.shown_one(alloc, fix, shown)?)?;
        }
        Ok(all)
    }

    fn shown_one(&self, alloc: Global, fix: Fix, shown: &mut usize) -> Result<Fix, AllocError> {
        if fix.edits.is_empty() || *shown >= most_shown(self.own) {
            return Ok(fix);
        }
        *shown = shown.saturating_add(1);
        let mut fix = fix;
        let edits = copied_edits(alloc, fix.edits.as_slice())?;
        match with_edits(alloc, self.own, edits) {
            Ok(edited) => fix.replaced = edited.replaced,
            Err(EditError::Memory) => return Err(AllocError),
            Err(_) => fix.is_certain = false,
        }
        Ok(fix)
    }

    /// What a rule says, at its place.
    pub(crate) fn placed_rule(
        &self,
        alloc: Global,
        report: Report,
        shown: &mut usize,
    ) -> Result<Diagnostic, AllocError>
        requires { IfSome self.now.own_places (AreFound self.now.own.now) }
        ensures found { IfOk result (λ d. reported_by d.subject d ≡ []) }
        ensures placed { IfOk result (IsPlaced self.now.own.now) }
    {
        let span = span_at(self.own, self.own_places.as_ref(), &report.spot);
        let labels = self.labels(alloc, report.labels)?;
        let fixes = self.fixes(alloc, report.suggestions)?;
        let (steps, part) = path_of(alloc, report.spot);
        let path = KeyPath { steps };
        let located = self.located(path.steps.as_slice());
        Ok(Diagnostic {
            code: report.code,
            level: report.level,
            subject: Subject::Rule,
            message: report.message,
            path,
            part,
            located,
            span,
            labels,
            notes: report.notes,
            fixes: self.shown(alloc, fixes, shown)?,
        })
    }

    fn labels(&self, alloc: Global, labels: Vec<Label>) -> Result<Vec<PlacedLabel>, AllocError> {
        let mut all = Vec::new(alloc);
        for label in labels {
            let span = match label.file {
                File::Own => span_at(self.own, self.own_places.as_ref(), &label.spot),
                File::Root => span_at(self.root, self.root_places.as_ref(), &label.spot),
                File::Member(_) => None,
            };
            all.push(PlacedLabel {
                file: label.file,
                span,
                text: label.text,
            })?;
        }
        Ok(all)
    }

    fn fixes(&self, alloc: Global, suggestions: Vec<Suggestion>) -> Result<Vec<Fix>, AllocError> {
        let mut all = Vec::new(alloc);
        for suggestion in suggestions {
            all.push(Fix {
                text: suggestion.text,
                edits: suggestion.edits,
                replaced: Vec::new(alloc),
                is_certain: suggestion.is_certain,
            })?;
        }
        Ok(all)
    }
}

/// The places of a text, where they are found.
pub(crate) fn places_in(alloc: Global, text: &str) -> Result<Option<Places>, AllocError>
    ensures { IfOk result (λ found. IfSome found (AreFound text.now)) }
{
    places_of(alloc, text)
}
