//! What a call answers, and how its text comes into the caller's memory.

ghost use Rattle.std.specs.Prelude.{◌≡◌, option_copied};
ghost use Rattle.manifest_answers.specs.declared.reading.Input.TheVariants.{Toml};
ghost use Rattle.manifest_answers.specs.Answered.{IsCopiedOut, Outcome, Returns, Answers, IsAnswered};
ghost use Rattle.manifest_answers.specs.Requested.{input_of, output_of, AnswersRequest};
ghost use Rattle.manifest_answers.specs.Made.{Makes, RefusesToMake};
ghost use Rattle.manifest_answers.specs.Unread.{GivesUnread, RefusesUnread, GivesDocument, RefusesDocument};
ghost use Rattle.manifest_answers.specs.Inspected.{GivesFindings, RefusesFindings};
ghost use Rattle.manifest_answers.specs.Placed.{GivesPlacedFindings, RefusesPlacedFindings};
ghost use Rattle.manifest_answers.specs.Unresolved.{GivesRefusals, RefusesRefusals};
ghost use Rattle.manifest_answers.specs.Unfound.{GivesUnfound, RefusesUnfound};
ghost use Rattle.manifest_answers.specs.Positions.{GivesPositions, RefusesPositions};
ghost use Rattle.manifest_answers.specs.Checked.{GivesDiagnostics, RefusesDiagnostics};
ghost use Rattle.manifest_answers.specs.Edited.{wants_replacements, GivesEdited, RefusesToEdit};

use crate::around::CheckRequest;
use crate::checking::checked_bytes;
use crate::editing::{GivenEdit, edited_bytes};
use crate::folders::Folder;
use crate::inspecting::document_findings;
use crate::making::{Output, make, output_or_refusal};
use crate::placing::placed_findings;
use crate::positions::positions;
use crate::reading::Input;
use crate::refusal::Refusal;
use crate::reporting::{Report, report_of, with_text};
use crate::unfound::placed_unfound_targets;
use crate::unread::{document_table, unread_table};
use crate::unresolved::placed_refusals;
use std::alloc::Global;

/// What a call answers. `docs/LIBRARY.md` has the statuses and the causes.
#[repr(C)]
#[derive(Clone, Copy)]
pub struct Answer {
    /// 0 where the text is what was asked for, else why it is not.
    pub status: u8,
    /// More of the status: the cause of a fault of the schema, or the number of a listing's fault; else 0.
    pub cause: u8,
    /// How many bytes the text takes. It stands in `out` where that is as long or longer.
    pub length: usize,
    /// Where in the bytes the fault of a text that is no TOML begins.
    pub start: usize,
    /// Where it ends.
    pub end: usize,
}

// as the other languages declare it: `scripts/library` compares the number
const _: () = prove!(size_of::<Answer>() == 32);

/// Copies a text to the beginning of `out`, where there is room for all of it. Returns how long the text is in either
/// case.
fn copy_to_front(text: &[u8], out: &mut [u8]) -> usize
    ensures { IsCopiedOut text.now result out.old out.new }
{
    let length = text.len();
    if length <= out.len() {
        out[..length].copy_from_slice(text);
    }
    length
}

/// The report (numbers and text) of what was made: status 0 and the text that was made, or the numbers and the text of
/// the refusal.
fn outcome(alloc: Global, made: Result<Vec<u8>, Refusal>) -> Report
    ensures { Outcome made result }
{
    match made {
        Ok(text) => with_text(0, 0, text),
        Err(refusal) => report_of(alloc, refusal),
    }
}

/// Copies the text of a report to the beginning of `out`, if there is room for all of it, and returns its numbers and
/// the length of the text.
fn write_answer(report: &Report, out: &mut [u8]) -> Answer
    ensures { Returns report.now out.old out.new result }
{
    let length = copy_to_front(report.text.as_slice(), out);
    Answer {
        status: report.status,
        cause: report.cause,
        length,
        start: report.start,
        end: report.end,
    }
}

/// What the bytes of a call are, what is asked for of the manifest that is made of them, and the most bytes that it may
/// take.
#[derive(Clone, Copy)]
pub struct Asked {
    pub input: Input,
    pub output: Output,
    pub most: usize,
}

/// Answers a call: makes a manifest of the bytes, the root and the folders, and writes what is asked for of it, or the
/// text of the refusal, to the beginning of `out`, if there is room for all of it. Returns the numbers of the answer.
/// Clause `dates`: for the input `Toml` the status is never 7 (a date-time that `toml` counts as invalid).
///
/// ```ignore
/// let asked = Asked { input: Input::Toml, output: Output::CanonicalText, most: usize::MAX };
/// let answer = respond(alloc, asked, b"name = 'a'", None, None, &mut out); // status 0, and 21 bytes in `out`
/// ```
pub fn respond(
    alloc: Global,
    asked: Asked,
    bytes: &[u8],
    root: Option<&[u8]>,
    folders: Option<&[Folder<'_>]>,
    out: &mut [u8],
) -> Answer
    ensures answers { Answers asked.output asked.most
        (Makes asked.most asked.input bytes.now (option_copied root.entry) (option_copied folders.entry))
        (RefusesToMake asked.most asked.input bytes.now
        (option_copied root.entry) (option_copied folders.entry))
        out.old out.new result }
    ensures dates { asked.input ≡ Toml → ¬ (result.status ≡ 7) }
{
    let made = make(alloc, asked.most, asked.input, bytes, root, folders);
    let text = output_or_refusal(alloc, asked.output, asked.most, made);
    let report = outcome(alloc, text);
    write_answer(&report, out)
}

/// What a program asks for: what the bytes are, what else is passed in, and what is to be written of the manifest. A
/// number that is not 0 counts as 1; without `has_root` the root is not looked at, nor are the folders without
/// `has_folders`.
#[repr(C)]
#[derive(Clone, Copy)]
pub struct Request<'a> {
    pub bytes: &'a [u8],
    pub root: &'a [u8],
    pub folders: &'a [Folder<'a>],
    pub most: usize,
    /// 0: the bytes, and those of the root, are the text of a `Cargo.toml`; 1: the tagged bytes of its table.
    pub input: u8,
    /// 0: the canonical text is asked for; 1: the table as tagged bytes.
    pub output: u8,
    pub has_root: u8,
    pub has_folders: u8,
}

// as the other languages declare it: `scripts/library` compares the number
const _: () = prove!(size_of::<Request<'static>>() == 64);

/// What the bytes are, by the number of a request.
fn input_of(number: u8) -> Input
    ensures { result ≡ input_of number }
{
    if number == 0 {
        Input::Toml
    } else {
        Input::Tagged
    }
}

/// What is asked for, by the number of a request.
fn output_of(number: u8) -> Output
    ensures { result ≡ output_of number }
{
    if number == 0 {
        Output::CanonicalText
    } else {
        Output::TaggedTable
    }
}

/// Answers a request in the way of [`respond`].
///
/// ```ignore
/// let asked = Request { bytes, root: &[], folders: &[], most, input: 0, output: 1, has_root: 0, has_folders: 0 };
/// let answer = respond_request(alloc, asked, &mut out); // the table of the manifest, as tagged bytes
/// ```
pub fn respond_request(alloc: Global, request: Request<'_>, out: &mut [u8]) -> Answer
    ensures answers { AnswersRequest request.entry out.old out.new result }
    ensures dates { request.entry.input ≡ 0 → ¬ (result.status ≡ 7) }
{
    let asked = Asked {
        input: input_of(request.input),
        output: output_of(request.output),
        most: request.most,
    };
    let root = if request.has_root == 0 {
        None
    } else {
        Some(request.root)
    };
    let folders = if request.has_folders == 0 {
        None
    } else {
        Some(request.folders)
    };
    respond(alloc, asked, request.bytes, root, folders, out)
}

/// Answers a call for the table of a manifest whose metadata is not looked at, in the way of [`respond`].
///
/// ```ignore
/// let answer = respond_unread(alloc, b"name = 'a'", usize::MAX, &mut out); // status 0, and 20 bytes in `out`
/// ```
pub fn respond_unread(alloc: Global, bytes: &[u8], most: usize, out: &mut [u8]) -> Answer
    ensures { IsAnswered (GivesUnread most bytes.now) (RefusesUnread most bytes.now)
        out.old out.new result }
{
    let table = unread_table(alloc, bytes, most);
    let report = outcome(alloc, table);
    write_answer(&report, out)
}

/// Answers a call for a TOML document as tagged bytes, whatever it means as a manifest, in the way of [`respond`].
///
/// ```ignore
/// let answer = respond_document(alloc, b"x = 0.5", usize::MAX, &mut out);
/// ```
pub fn respond_document(alloc: Global, bytes: &[u8], most: usize, out: &mut [u8]) -> Answer
    ensures { IsAnswered (GivesDocument most bytes.now) (RefusesDocument most bytes.now)
        out.old out.new result }
{
    let document = document_table(alloc, bytes, most);
    let report = outcome(alloc, document);
    write_answer(&report, out)
}

/// Answers a call for what is found in a TOML document as in a manifest, in the way of [`respond`].
///
/// ```ignore
/// let answer = respond_findings(alloc, b"name = 1", usize::MAX, &mut out); // status 0, and `[[3, 'name', [[0, 1]]]]`
/// ```
pub fn respond_findings(alloc: Global, bytes: &[u8], most: usize, out: &mut [u8]) -> Answer
    ensures { IsAnswered (GivesFindings most bytes.now) (RefusesFindings most bytes.now)
        out.old out.new result }
{
    let findings = document_findings(alloc, bytes, most);
    let report = outcome(alloc, findings);
    write_answer(&report, out)
}

/// Answers a call for what is found in a TOML document and where in its text that stands, in the way of [`respond`].
///
/// ```ignore
/// let answer = respond_placed_findings(alloc, b"name = 1", usize::MAX, &mut out); // `[[..], [[[7, 8], [0, 4], []]]]`
/// ```
pub fn respond_placed_findings(alloc: Global, bytes: &[u8], most: usize, out: &mut [u8]) -> Answer
    ensures { IsAnswered (GivesPlacedFindings most bytes.now)
        (RefusesPlacedFindings most bytes.now) out.old out.new result }
{
    let findings = placed_findings(alloc, bytes, most);
    let report = outcome(alloc, findings);
    write_answer(&report, out)
}

/// Answers a call for why a member cannot inherit from the workspace of a root and where in both texts that stands, in the
/// way of [`respond`].
///
/// ```ignore
/// let member = b"package.name = 'a'\npackage.version.workspace = true";
/// // `[[[3, 'package', [[3, 'version', [[0, 10, 'version']]]]]], [[[], [19, 34], []]], [[[], [], [0, 11]]]]`
/// let answer = respond_placed_refusals(alloc, member, b"[workspace]", usize::MAX, &mut out);
/// ```
pub fn respond_placed_refusals(
    alloc: Global,
    bytes: &[u8],
    root: &[u8],
    most: usize,
    out: &mut [u8],
) -> Answer
    ensures { IsAnswered (GivesRefusals most bytes.now root.now)
        (RefusesRefusals most bytes.now root.now) out.old out.new result }
{
    let refusals = placed_refusals(alloc, bytes, root, most);
    let report = outcome(alloc, refusals);
    write_answer(&report, out)
}

/// Answers a call for the declared targets of a manifest without a file in the folders and where in its text they stand, in
/// the way of [`respond`].
///
/// ```ignore
/// // `[[['lib']], [[[26, 28], [20, 23], []]]]`
/// let answer = respond_placed_unfound_targets(alloc, b"package.name = 'a'\n\nlib = {}", &[], usize::MAX, &mut out);
/// ```
pub fn respond_placed_unfound_targets(
    alloc: Global,
    bytes: &[u8],
    folders: &[Folder<'_>],
    most: usize,
    out: &mut [u8],
) -> Answer
    ensures { IsAnswered (GivesUnfound most bytes.now folders.now)
        (RefusesUnfound most bytes.now folders.now) out.old out.new result }
{
    let unfound = placed_unfound_targets(alloc, bytes, folders, most);
    let report = outcome(alloc, unfound);
    write_answer(&report, out)
}

/// Answers a call for the lines and the columns of offsets in a text, in the way of [`respond`].
///
/// ```ignore
/// let answer = respond_positions(alloc, b"a = 1\nb", &[6], usize::MAX, &mut out); // `[[2, 0, 0, 0]]`
/// ```
pub fn respond_positions(
    alloc: Global,
    bytes: &[u8],
    offsets: &[usize],
    most: usize,
    out: &mut [u8],
) -> Answer
    ensures { IsAnswered (GivesPositions most bytes.now offsets.now)
        (RefusesPositions most bytes.now offsets.now) out.old out.new result }
{
    let found = positions(alloc, bytes, offsets, most);
    let report = outcome(alloc, found);
    write_answer(&report, out)
}

/// Answers a call for a text with edits, or for what they replace in it, in the way of [`respond`].
///
/// ```ignore
/// let answer = respond_edited(alloc, b"a = 1 # one", &edits, 0, usize::MAX, &mut out); // as `a = 2 # one`
/// ```
pub fn respond_edited(
    alloc: Global,
    bytes: &[u8],
    edits: &[GivenEdit<'_>],
    as_replacements: u8,
    most: usize,
    out: &mut [u8],
) -> Answer
    ensures { IsAnswered (GivesEdited most (wants_replacements as_replacements) bytes.now edits.now)
        (RefusesToEdit most (wants_replacements as_replacements) bytes.now edits.now)
        out.old out.new result }
{
    let edited = edited_bytes(alloc, bytes, edits, as_replacements != 0, most);
    let report = outcome(alloc, edited);
    write_answer(&report, out)
}

/// Answers a call for what is wrong with a manifest, in the way of [`respond`].
///
/// ```ignore
/// let request = CheckRequest { bytes: b"[pakage]", most: usize::MAX, .. }; // with all else 0 or empty
/// let answer = respond_diagnostics(alloc, request, &mut out); // `[['no-package', 0, ..], ['misspelled-key', 1, ..]]`
/// ```
pub fn respond_diagnostics(alloc: Global, request: CheckRequest<'_>, out: &mut [u8]) -> Answer
    ensures { IsAnswered (GivesDiagnostics request.entry) (RefusesDiagnostics request.entry)
        out.old out.new result }
{
    let checked = checked_bytes(alloc, &request);
    let report = outcome(alloc, checked);
    write_answer(&report, out)
}
