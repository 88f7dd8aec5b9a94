//! Everything that is wrong with a manifest, at its place, with what to write: from the document of a `Cargo.toml`, and
//! what is known of the files around it, to a list of diagnostics. No file is read here. Begin with `src/diagnostic.rt`.
#![tactic(auto)]

mod diagnostic;
mod document;
mod parts;
mod placing;
mod rules;
mod schema;
mod tables;
mod unused;
mod words;

ghost use Rattle.std.specs.Prelude.{◌≡◌, IsTrue, IfOk, IfSome, All, string_bytes};
ghost use Rattle.manifest_schema.specs.Prelude.{table_view};
ghost use Rattle.manifest_schema.specs.Meaning.{has};
ghost use Rattle.manifest_places.specs.Finding.{AreFound};
ghost use Rattle.manifest_lint.specs.Lint as spec;
ghost use Rattle.manifest_lint.specs.Lint.{findings_reported, ReportFindings, IsPlaced};

use crate::placing::{Texts, places_in};
use crate::rules::judged;
use crate::schema::schema_diagnostics;
pub use diagnostic::{Diagnostic, Fix, PlacedLabel, Subject};
pub use document::{Document, Unread};
use manifest_fault::KeyPath;
use manifest_places::Span;
use manifest_rules::codes::{INVALID_TOML, NESTS_TOO_DEEP, NOT_UTF8};
pub use manifest_rules::{asked_folders, asked_packages};
use manifest_rules::{Edition, File, Part, Report, Surroundings, edition_in};
use manifest_value::readers::find;
use std::alloc::{AllocError, Global};
use toml::Table;

/// What is looked at.
#[derive(Clone, Copy)]
pub struct Input<'a> {
    /// The document of the manifest.
    pub document: &'a Document,
    /// What is known of the files around it.
    pub around: &'a Surroundings<'a>,
    /// The text of the workspace's root, where second places may be.
    pub root_text: Option<&'a str>,
    /// Whether it is found what suggestions replace: that takes some readings of the text for each of them.
    pub shows_edits: bool,
}

/// Whether the table has the key.
fn has_key(table: &Table, key: &str) -> bool
    ensures { result ≡ has key.now (table_view table.now) }
{
    find(table, key).is_some()
}

/// Whether the document says that it is a manifest of today: it has a package or a workspace.
fn is_manifest(document: &Table) -> bool
    ensures { result ≡ spec.is_manifest (table_view document.now) }
{
    has_key(document, "package") | has_key(document, "project") | has_key(document, "workspace")
}

/// Everything that is said of a manifest: first what its schema finds, in the order of the schema, and then what the rules
/// say, group by group; of a document without a package and a workspace the rules alone.
///
/// ```ignore
/// let all = diagnostics(alloc, &input)?;
/// ```
pub fn diagnostics(alloc: Global, input: &Input<'_>) -> Result<Vec<Diagnostic>, AllocError>
    ensures found { let document = table_view input.now.document.now.table in
        IsTrue (spec.is_manifest document) → IfOk result (λ ds. ReportFindings document ds.items) }
    ensures placed { IfOk result
        (λ ds. All (IsPlaced (string_bytes input.now.document.now.text)) ds.items) }
{
    let document = input.document;
    let text = document.text.as_str();
    let found = found_in(alloc, &document.table, input.around)?;
    let reports = judged(alloc, text, &document.table, input.around)?;
    let shows_edits = input.shows_edits;
    let all = placed_all(alloc, text, input.root_text, shows_edits, found, reports)?;
    Ok(all)
}

/// What the schema finds in a manifest of today; nothing in another document.
fn found_in(
    alloc: Global,
    document: &Table,
    around: &Surroundings<'_>,
) -> Result<Vec<Diagnostic>, AllocError>
    ensures { IsTrue (spec.is_manifest (table_view document.now))
        → IfOk result (λ ds. ReportFindings (table_view document.now) ds.items) }
{
    if is_manifest(document) {
        let edition = edition_in(document, around.root);
        let all = schema_diagnostics(alloc, document, edition)?;
        Ok(all)
    } else {
        Ok(Vec::new(alloc))
    }
}

/// What is found and what the rules say, each at its place.
fn placed_all(
    alloc: Global,
    own: &str,
    root: Option<&str>,
    shows_edits: bool,
    found: Vec<Diagnostic>,
    reports: Vec<Report>,
) -> Result<Vec<Diagnostic>, AllocError>
    ensures found { IfOk result
        (λ ds. findings_reported ds.items ≡ findings_reported found.items) }
    ensures placed { IfOk result (λ ds. All (IsPlaced own.now) ds.items) }
{
    if found.is_empty() && reports.is_empty() {
        return Ok(found);
    }
    let texts = texts_of(alloc, own, root, reports.as_slice())?;
    let mut shown = if shows_edits { 0usize } else { usize::MAX };
    let all = placed_findings(alloc, &texts, found, &mut shown)?;
    let all = with_rules(alloc, &texts, all, reports, &mut shown)?;
    drop(texts);
    Ok(all)
}

/// What is found, each at its place.
fn placed_findings(
    alloc: Global,
    texts: &Texts<'_>,
    found: Vec<Diagnostic>,
    shown: &mut usize,
) -> Result<Vec<Diagnostic>, AllocError>
    requires { IfSome texts.now.own_places (AreFound texts.now.own.now) }
    ensures found { IfOk result
        (λ ds. findings_reported ds.items ≡ findings_reported found.items) }
    ensures placed { IfOk result (λ ds. All (IsPlaced texts.now.own.now) ds.items) }
{
    let mut all = Vec::with_capacity(alloc, found.len())?;
    for diagnostic in found {
        let placed = texts.placed(alloc, diagnostic, shown)?;
        all.push(placed)?;
    }
    Ok(all)
}

/// The same, and then what the rules say.
fn with_rules(
    alloc: Global,
    texts: &Texts<'_>,
    found: Vec<Diagnostic>,
    reports: Vec<Report>,
    shown: &mut usize,
) -> Result<Vec<Diagnostic>, AllocError>
    requires places { IfSome texts.now.own_places (AreFound texts.now.own.now) }
    requires placed { All (IsPlaced texts.now.own.now) found.items }
    ensures found { IfOk result
        (λ ds. findings_reported ds.items ≡ findings_reported found.items) }
    ensures placed { IfOk result (λ ds. All (IsPlaced texts.now.own.now) ds.items) }
{
    let mut all = found;
    for one in reports {
        let placed = texts.placed_rule(alloc, one, shown)?;
        all.push(placed)?;
    }
    Ok(all)
}

/// The texts with their places; of the root only where a second place is in it.
fn texts_of<'a>(
    alloc: Global,
    own: &'a str,
    root: Option<&'a str>,
    reports: &[Report],
) -> Result<Texts<'a>, AllocError>
    ensures own { IfOk result (λ t. t.own.now ≡ own.entry.now) }
    ensures places { IfOk result (λ t. IfSome t.own_places (AreFound t.own.now)) }
{
    let root_places = match root {
        Some(root) if has_label_in_root(reports) => places_in(alloc, root)?,
        _ => None,
    };
    let own_places = places_in(alloc, own)?;
    Ok(Texts {
        own,
        own_places,
        root: root.unwrap_or(""),
        root_places,
    })
}

fn has_label_in_root(reports: &[Report]) -> bool {
    for one in reports {
        for label in &one.labels {
            if label.file == File::Root {
                return true;
            }
        }
    }
    false
}

/// The one diagnostic of bytes that are no document.
pub fn unread_diagnostic(alloc: Global, unread: Unread) -> Result<Diagnostic, AllocError> {
    let (code, message, span) = match unread {
        Unread::NotUtf8(offset) => {
            let message = String::from_str(alloc, "the file is not valid UTF-8")?;
            (
                NOT_UTF8,
                message,
                Some(Span {
                    from: offset,
                    to: offset,
                }),
            )
        }
        Unread::NotToml(message, span) => (INVALID_TOML, message, span),
        Unread::TooDeep(offset) => {
            let message = String::from_str(alloc, "arrays and tables nest too deep")?;
            let span = Span {
                from: offset,
                to: offset.saturating_add(1),
            };
            (NESTS_TOO_DEEP, message, Some(span))
        }
        Unread::Memory(refused) => return Err(refused),
    };
    let path = KeyPath {
        steps: Vec::new(alloc),
    };
    let mut diagnostic = Diagnostic::new(
        alloc,
        code,
        Edition::E2015,
        Subject::Rule,
        path,
        Part::Value,
        message,
    );
    diagnostic.span = span;
    Ok(diagnostic)
}
