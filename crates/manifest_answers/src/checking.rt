//! What is wrong with a manifest, as tagged bytes.

ghost use Rattle.manifest_schema.specs.Prelude.{table_view};
ghost use Rattle.std.specs.Prelude.{◌≡◌, IfOk, IfErr, length, string_bytes};
ghost use Rattle.manifest_bytes.specs.Encoded.{encoded};
ghost use Rattle.manifest_lint.specs.Lint.{IsDocument};
ghost use Rattle.manifest_answers.specs.Made.{AreWithin, RefusesTagged, IsMade};
ghost use Rattle.manifest_answers.specs.Checked.{diagnostics_data, AreOfDocument, IsAccepted, AreDiagnosticsOf, RefusesAround, GivesDiagnostics, RefusesDiagnostics};

use crate::around::{Around, CheckRequest, is_root};
use crate::checked::array_value;
use crate::making::tagged_bytes;
use crate::refusal::Refusal;
use manifest_lint::{Diagnostic, Document, Input, Unread, diagnostics, unread_diagnostic};
use manifest_rules::Surroundings;
use manifest_written::Written;
use std::alloc::{AllocError, Global};

/// The text of the root, where second places may be; none of a manifest that is a root itself.
fn root_text<'a>(document: &Document, request: &CheckRequest<'a>) -> Option<&'a str> {
    if request.has_root == 1 && !is_root(&document.table) {
        std::str::from_utf8(request.root).ok()
    } else {
        None
    }
}

/// What is said of a document in its surroundings.
fn said(
    alloc: Global,
    document: &Document,
    around: &Surroundings<'_>,
    root_text: Option<&str>,
) -> Result<Vec<Diagnostic>, AllocError>
    ensures { IfOk result (λ ds. AreOfDocument (string_bytes document.now.text)
        (table_view document.now.table) ds.items) }
{
    let input = Input {
        document,
        around,
        root_text,
        shows_edits: true,
    };
    diagnostics(alloc, &input)
}

/// What is said of a document, with what the caller says is around it.
fn of_document(
    alloc: Global,
    document: &Document,
    request: &CheckRequest<'_>,
) -> Result<Vec<Diagnostic>, Refusal>
    ensures ok { let table = table_view document.now.table in IfOk result
        (λ ds. AreOfDocument (string_bytes document.now.text) table ds.items
        × IsAccepted request.now) }
    ensures refused { IfErr result (RefusesAround request.now) }
{
    let around = Around::new(alloc, &document.table, request)?;
    let surroundings = around.surroundings(&document.table, request);
    let all = said(alloc, document, &surroundings, root_text(document, request))?;
    Ok(all)
}

/// The one diagnostic of bytes that are no document.
fn of_unread(alloc: Global, unread: Unread) -> Result<Vec<Diagnostic>, AllocError>
    ensures { IfOk result (λ ds. length ds.items ≡ 1) }
{
    let one = unread_diagnostic(alloc, unread)?;
    let mut all = Vec::new(alloc);
    all.push(one)?;
    Ok(all)
}

/// What is said of the bytes of a request.
fn diagnosed(alloc: Global, request: &CheckRequest<'_>) -> Result<Vec<Diagnostic>, Refusal>
    ensures ok { IfOk result (λ ds. AreDiagnosticsOf request.now ds.items) }
    ensures refused { IfErr result (RefusesAround request.now) }
{
    match Document::read(alloc, request.bytes) {
        Ok(document) => {
            let all = of_document(alloc, &document, request);
            drop(document);
            all
        }
        Err(Unread::Memory(refused)) => Err(Refusal::Memory(refused)),
        Err(unread) => Ok(of_unread(alloc, unread)?),
    }
}

/// The tagged bytes of diagnostics.
fn bytes_of_diagnostics(alloc: Global, all: &[Diagnostic], most: usize) -> Result<Vec<u8>, Refusal>
    ensures { let tagged = encoded (diagnostics_data all.now) in
        IsMade (AreWithin most tagged) (RefusesTagged most tagged) result }
{
    let value = array_value(alloc, all)?;
    tagged_bytes(alloc, &Written::Value(&value), most)
}

/// The tagged bytes of what is said of the bytes of a request. Refuses what is around them as [`Around::new`] does, tagged
/// bytes that are more than `most`, and when out of memory.
pub(crate) fn checked_bytes(alloc: Global, request: &CheckRequest<'_>) -> Result<Vec<u8>, Refusal>
    ensures { IsMade (GivesDiagnostics request.now) (RefusesDiagnostics request.now) result }
{
    let all = match diagnosed(alloc, request) {
        Ok(all) => all,
        Err(refused) => return Err(refused),
    };
    bytes_of_diagnostics(alloc, all.as_slice(), request.most)
}
