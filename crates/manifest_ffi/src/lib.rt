//! The calls for programs in C, Rust and Python: `bindings/c/cargo_manifest.h` declares them, and `bindings/rust` and
//! `bindings/python` wrap them. `docs/LIBRARY.md` says how they are used.
//!
//! Each call makes a manifest of bytes, and writes what is asked for of it, or the text of the refusal, to the
//! beginning of `out`. What could take more than `most` bytes is refused. No answer depends on an earlier call, and no
//! call keeps what it is given. `alloc` takes no place in a C call.
#![tactic(auto)]

ghost use Rattle.std.specs.Prelude.{◌≡◌};
ghost use Rattle.manifest_answers.specs.Answered.{IsAnswered};
ghost use Rattle.manifest_answers.specs.Requested.{AnswersRequest};
ghost use Rattle.manifest_answers.specs.Unread.{GivesUnread, RefusesUnread, GivesDocument, RefusesDocument};
ghost use Rattle.manifest_answers.specs.Inspected.{GivesFindings, RefusesFindings};
ghost use Rattle.manifest_answers.specs.Placed.{GivesPlacedFindings, RefusesPlacedFindings};
ghost use Rattle.manifest_answers.specs.Unresolved.{GivesRefusals, RefusesRefusals};
ghost use Rattle.manifest_answers.specs.Unfound.{GivesUnfound, RefusesUnfound};
ghost use Rattle.manifest_answers.specs.Positions.{GivesPositions, RefusesPositions};
ghost use Rattle.manifest_answers.specs.Checked.{GivesDiagnostics, RefusesDiagnostics};
ghost use Rattle.manifest_answers.specs.Edited.{wants_replacements, GivesEdited, RefusesToEdit};

use manifest_answers::{
    Answer, CheckRequest, Folder, GivenEdit, Request, respond_diagnostics, respond_document,
    respond_edited, respond_findings, respond_placed_findings, respond_placed_refusals,
    respond_placed_unfound_targets, respond_positions, respond_request, respond_unread,
};
use std::alloc::Global;

/// Makes a manifest of what a request passes in, and writes what it asks for. The bytes are read: the text of a
/// `Cargo.toml`, or its table as tagged bytes (`docs/LIBRARY.md` has the layout). With a root, which is bytes of the same
/// kind, what the manifest inherits from its workspace is put in; with folders, the manifest is completed over them: a
/// path that none of them has is not there, and folders that are not asked for make no difference. What is written is the
/// canonical text, or the table as tagged bytes. Of a text no date-time is read that cannot be written.
///
/// ```ignore
/// let request = Request { bytes: b"name = 'a'", most: usize::MAX, .. }; // with all else 0 or empty
/// let answer = manifest_run(alloc, request, &mut out); // status 0, and 21 bytes in `out`
/// ```
#[unsafe(no_mangle)]
pub extern "C" fn manifest_run(alloc: Global, request: Request<'_>, out: &mut [u8]) -> Answer
    ensures answers { AnswersRequest request.entry out.old out.new result }
    ensures dates { request.entry.input ≡ 0 → ¬ (result.status ≡ 7) }
{
    respond_request(alloc, request, out)
}

/// Reads the bytes of a `Cargo.toml`, and writes the table of its manifest as tagged bytes, as [`manifest_run`] does; but
/// the metadata of the package and of the workspace is not looked at: where there is any, it is written as the empty
/// table. So nothing is refused for its metadata.
///
/// ```ignore
/// let answer = manifest_table_without_metadata(alloc, bytes, usize::MAX, &mut out);
/// ```
#[unsafe(no_mangle)]
pub extern "C" fn manifest_table_without_metadata(
    alloc: Global,
    bytes: &[u8],
    most: usize,
    out: &mut [u8],
) -> Answer
    ensures { IsAnswered (GivesUnread most bytes.now) (RefusesUnread most bytes.now)
        out.old out.new result }
{
    respond_unread(alloc, bytes, most, out)
}

/// Reads bytes as a TOML document, whatever it means as a manifest, and writes it as tagged bytes. It may have floats,
/// which no table of a manifest has.
///
/// ```ignore
/// let answer = manifest_document(alloc, b"x = 0.5", usize::MAX, &mut out);
/// ```
#[unsafe(no_mangle)]
pub extern "C" fn manifest_document(
    alloc: Global,
    bytes: &[u8],
    most: usize,
    out: &mut [u8],
) -> Answer
    ensures { IsAnswered (GivesDocument most bytes.now) (RefusesDocument most bytes.now)
        out.old out.new result }
{
    respond_document(alloc, bytes, most, out)
}

/// Reads bytes as a TOML document, and writes what is found in it as in a manifest, as tagged bytes: every fault, what
/// does not fit where that is no fault, and every key that nothing reads. They stand in the order of the rows of
/// `docs/KEYS.md`, and such keys after the rows of their table. Metadata is not looked at, so no float in it is a fault.
///
/// The tagged bytes are those of an array, a tree in which each step of a path stands once: `docs/LIBRARY.md` says which
/// arrays it has. A document with faults is accepted all the same: refused is what [`manifest_document`] refuses, and
/// tagged bytes that are more than `most`.
///
/// ```ignore
/// let answer = manifest_findings(alloc, b"name = 1", usize::MAX, &mut out); // status 0, and `[[3, 'name', [[0, 1]]]]`
/// ```
#[unsafe(no_mangle)]
pub extern "C" fn manifest_findings(
    alloc: Global,
    bytes: &[u8],
    most: usize,
    out: &mut [u8],
) -> Answer
    ensures { IsAnswered (GivesFindings most bytes.now) (RefusesFindings most bytes.now)
        out.old out.new result }
{
    respond_findings(alloc, bytes, most, out)
}

/// Reads bytes as a TOML document, and writes what is found in it as [`manifest_findings`] does, and where in the bytes
/// that stands: the tagged bytes of an array of two, the tree of the findings and an array that has for each finding, in
/// their order, the ranges of its value, of its key and of its header. (That array is empty where nothing is found, and
/// where the places of the text are not found, which no test has seen.) Refuses as [`manifest_findings`] does.
///
/// ```ignore
/// // `[[[3, 'name', [[0, 1]]]], [[[7, 8], [0, 4], []]]]`
/// let answer = manifest_placed_findings(alloc, b"name = 1", usize::MAX, &mut out);
/// ```
#[unsafe(no_mangle)]
pub extern "C" fn manifest_placed_findings(
    alloc: Global,
    bytes: &[u8],
    most: usize,
    out: &mut [u8],
) -> Answer
    ensures { IsAnswered (GivesPlacedFindings most bytes.now)
        (RefusesPlacedFindings most bytes.now) out.old out.new result }
{
    respond_placed_findings(alloc, bytes, most, out)
}

/// Reads the bytes of a member's and of a root's `Cargo.toml`, and writes all reasons why the member cannot inherit from the
/// root's workspace, and where in the bytes that stands: the tagged bytes of an array of three. The first is the tree of the
/// refusals, as [`manifest_findings`] writes one: each is 0, the status by which [`manifest_run`] refuses it, and the text of
/// that status. The second has for each refusal, in their order, the ranges in the member of its value, of its key and of its
/// header; the third those in the root of what is asked for there, as `workspace.package.version`, or of the table in which
/// it is missing. (Each of these two is empty where nothing is refused, and where the places of its text are not found.)
///
/// Refuses as [`manifest_run`] does, with a root, what is not read and a root without a workspace; and tagged bytes that are
/// more than `most`.
///
/// ```ignore
/// let member = b"package.name = 'a'\npackage.version.workspace = true";
/// // `[[[3, 'package', [[3, 'version', [[0, 10, 'version']]]]]], [[[], [19, 34], []]], [[[], [], [0, 11]]]]`
/// let answer = manifest_placed_refusals(alloc, member, b"[workspace]", usize::MAX, &mut out);
/// ```
#[unsafe(no_mangle)]
pub extern "C" fn manifest_placed_refusals(
    alloc: Global,
    bytes: &[u8],
    root: &[u8],
    most: usize,
    out: &mut [u8],
) -> Answer
    ensures { IsAnswered (GivesRefusals most bytes.now root.now)
        (RefusesRefusals most bytes.now root.now) out.old out.new result }
{
    respond_placed_refusals(alloc, bytes, root, most, out)
}

/// Reads the bytes of a `Cargo.toml`, and writes which of its declared targets have no file in the folders, and where in the
/// bytes they stand: the tagged bytes of an array of two. The first has the path of each, an array of its steps: a library
/// for which [`manifest_run`] refuses to complete the manifest, and then each binary, example, test or bench that it leaves
/// without a path. The second has for each, in their order, the ranges of its value, of its key and of its header; it is empty
/// where nothing is unfound, and where the places of the text are not found.
///
/// Refuses as [`manifest_run`] does, with folders, folders that are no listings, what is not read and the fault of a folder;
/// and tagged bytes that are more than `most`.
///
/// ```ignore
/// // `[[['lib']], [[[26, 28], [20, 23], []]]]`
/// let answer = manifest_placed_unfound_targets(alloc, b"package.name = 'a'\n\nlib = {}", &[], usize::MAX, &mut out);
/// ```
#[unsafe(no_mangle)]
pub extern "C" fn manifest_placed_unfound_targets(
    alloc: Global,
    bytes: &[u8],
    folders: &[Folder<'_>],
    most: usize,
    out: &mut [u8],
) -> Answer
    ensures { IsAnswered (GivesUnfound most bytes.now folders.now)
        (RefusesUnfound most bytes.now folders.now) out.old out.new result }
{
    respond_placed_unfound_targets(alloc, bytes, folders, most, out)
}

/// Writes of each offset in a text, which ascend, its line, from 1 on, and how many bytes, characters and units of UTF-16
/// stand before it in that line: the tagged bytes of an array of arrays of these four.
///
/// ```ignore
/// let answer = manifest_positions(alloc, b"a = 1\nb", &[6], usize::MAX, &mut out); // `[[2, 0, 0, 0]]`
/// ```
#[unsafe(no_mangle)]
pub extern "C" fn manifest_positions(
    alloc: Global,
    bytes: &[u8],
    offsets: &[usize],
    most: usize,
    out: &mut [u8],
) -> Answer
    ensures { IsAnswered (GivesPositions most bytes.now offsets.now)
        (RefusesPositions most bytes.now offsets.now) out.old out.new result }
{
    respond_positions(alloc, bytes, offsets, most, out)
}

/// Makes edits of a TOML text that keep all else as it is, and writes the new text; or where `as_replacements` is not 0
/// the tagged bytes of what they replace in the old one, an array of arrays of where a range begins, where it ends, and
/// the text that takes its place. All edits are made or none; paths and indexes are those of the document as it is given.
///
/// ```ignore
/// let answer = manifest_edited(alloc, b"a = 1 # one", &edits, 0, usize::MAX, &mut out); // as `a = 2 # one`
/// ```
#[unsafe(no_mangle)]
pub extern "C" fn manifest_edited(
    alloc: Global,
    bytes: &[u8],
    edits: &[GivenEdit<'_>],
    as_replacements: u8,
    most: usize,
    out: &mut [u8],
) -> Answer
    ensures { IsAnswered (GivesEdited most (wants_replacements as_replacements) bytes.now edits.now)
        (RefusesToEdit most (wants_replacements as_replacements) bytes.now edits.now)
        out.old out.new result }
{
    respond_edited(alloc, bytes, edits, as_replacements, most, out)
}

/// Says everything that is wrong with a manifest: the tagged bytes of an array with a diagnostic for each. A diagnostic is an
/// array of nine: its code, its level (0 is an error, 1 a warning, 2 a note), its message, its path, the range that is meant,
/// the ranges of the value, of the key and of the header of its path, the second places, the notes, and the suggestions
/// (`docs/LIBRARY.md` has all of it). First stands what the schema finds, as [`manifest_findings`] does, and then what the
/// rules of `docs/CHECKS.md` say. Bytes that are no document have one diagnostic, which says why.
///
/// Refuses a root that is no document, folders that are no listings, paths and names that are not UTF-8, a configuration that
/// is no TOML, and tagged bytes that are more than `most`.
///
/// ```ignore
/// let request = CheckRequest { bytes: b"[pakage]", most: usize::MAX, .. }; // with all else 0 or empty
/// let answer = manifest_diagnostics(alloc, request, &mut out); // `[['no-package', 0, ..], ['misspelled-key', 1, ..]]`
/// ```
#[unsafe(no_mangle)]
pub extern "C" fn manifest_diagnostics(
    alloc: Global,
    request: CheckRequest<'_>,
    out: &mut [u8],
) -> Answer
    ensures { IsAnswered (GivesDiagnostics request.entry) (RefusesDiagnostics request.entry)
        out.old out.new result }
{
    respond_diagnostics(alloc, request, out)
}

/// The version of these calls and of the tagged bytes. A program compares it with the one that it was written for.
///
/// ```ignore
/// let version = manifest_version(); // 4
/// ```
#[unsafe(no_mangle)]
pub extern "C" fn manifest_version() -> u32
    ensures { result ≡ 4 }
{
    4
}
