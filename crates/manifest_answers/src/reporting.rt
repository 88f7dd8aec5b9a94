//! A refusal in numbers and a text, which is UTF-8.
#![tactic(auto, using(crate::proofs::TextLemmas::string_is_utf8, crate::proofs::TextLemmas::nothing_is_utf8))]

ghost use Rattle.std.specs.Prelude.{◌≡◌, ◌≤◌, ◌⊎◌, IsUtf8, string_bytes};
ghost use Rattle.std.specs.IoError.{error_kind};
ghost use Rattle.manifest_fault.specs.Faults.{cause_of};
ghost use Rattle.manifest_answers.specs.Report.{cause_number, kind_number, at_root, IsReport, ReportsMemory, ReportsToml, ReportsSchema, ReportsError, ReportsInput, refusal_status, refusal_name, TellsUnresolved, ReportsResolving, ReportsFinishing, ReportsPrinting, ReportsEdits, Reports};

use crate::refusal::{InputError, Refusal};
use cargo_manifest::{Cause, Error, ParseFault, SchemaFault};
use manifest_inherit::{FinishError, Refusal as Unresolved, ResolveError};
use manifest_places::EditError;
use std::alloc::{AllocError, Global};
use std::io;
use std::io::ErrorKind;

/// A report: the numbers of an answer, and its text. `docs/LIBRARY.md` has the numbers.
#[derive(Drop)]
pub struct Report {
    pub status: u8,
    pub cause: u8,
    pub start: usize,
    pub end: usize,
    pub text: Vec<u8>,
}

/// Added to the status where it is the root that is refused.
const OF_ROOT: u8 = 16;

/// The report of a status, a cause and a text; `start` and `end` are 0.
pub(crate) fn with_text(status: u8, cause: u8, text: Vec<u8>) -> Report
    ensures report { IsReport result status cause text.items }
    ensures utf8 { IsUtf8 text.items → IsUtf8 result.text.items }
{
    Report {
        status,
        cause,
        start: 0,
        end: 0,
        text,
    }
}

/// The report of a status, a cause and a string as its text; `start` and `end` are 0.
fn with_string(status: u8, cause: u8, text: String) -> Report
    ensures report { IsReport result status cause (string_bytes text) }
    ensures utf8 { IsUtf8 result.text.items }
{
    with_text(status, cause, text.into_bytes())
}

/// The report of out of memory. It takes the error of the refused allocation, so that it cannot be made up.
fn memory(alloc: Global, _refused: AllocError) -> Report
    ensures report { ReportsMemory result }
    ensures utf8 { IsUtf8 result.text.items }
{
    with_text(6, 0, Vec::new(alloc))
}

/// The number by which an answer reports a cause of a fault of the schema.
pub(crate) fn cause_number(cause: Cause) -> u8
    ensures { result ≡ cause_number (cause_of cause) }
{
    match cause {
        // (made by scripts/keys --write)
        Cause::WrongKind => 1,
        Cause::Missing => 2,
        Cause::TwoSpellings => 3,
        Cause::NotAChoice => 4,
        Cause::OutOfRange => 5,
        Cause::NotTrue => 6,
        Cause::HoldsFloat => 7,
        Cause::Metadata => 8,
    }
}

/// The number by which an answer reports the kind of a listing's fault: 1 for not found, 2 for out of memory, 3 for any
/// other.
fn kind_number(fault: io::Error) -> u8
    ensures { result ≡ kind_number (error_kind fault) }
{
    match fault.kind() {
        ErrorKind::NotFound => 1,
        ErrorKind::OutOfMemory => 2,
        _ => 3,
    }
}

/// The status by which a refusal of the root is reported, if `is_root`: 16 more than that of the member; else the
/// status itself.
fn at_root(is_root: bool, status: u8) -> u8
    requires { status ≤ 15 }
    ensures { result ≡ at_root is_root status }
{
    if is_root { status + OF_ROOT } else { status }
}

/// The report of a text that is no TOML: the message of `toml`, and where in the bytes.
fn tell_toml(alloc: Global, fault: &toml::de::Error, is_root: bool) -> Report
    ensures report { ReportsMemory result ⊎ ReportsToml is_root fault.now result }
    ensures utf8 { IsUtf8 result.text.items }
{
    let Some(range) = fault.span() else {
        return memory(alloc, AllocError);
    };
    match String::from_str(alloc, fault.message()) {
        Ok(text) => Report {
            status: at_root(is_root, 1),
            cause: 0,
            start: range.start,
            end: range.end,
            text: text.into_bytes(),
        },
        Err(refused) => memory(alloc, refused),
    }
}

/// The report of a fault of the schema: its cause, and the text of its key path.
fn tell_schema(alloc: Global, fault: &SchemaFault, is_root: bool) -> Report
    ensures report { ReportsMemory result ⊎ ReportsSchema is_root fault.now result }
    ensures utf8 { IsUtf8 result.text.items }
{
    match fault.path.to_text(alloc) {
        Ok(text) => {
            let cause = cause_number(fault.cause);
            with_string(at_root(is_root, 2), cause, text)
        }
        Err(refused) => memory(alloc, refused),
    }
}

/// The report of an [`Error`]: status 1 to 6, and for a text that is no TOML, a fault of the schema and bytes that are
/// not UTF-8 16 more, if it is the root's. Instead it may be that of out of memory, where there is none for its text.
fn tell_error(alloc: Global, error: Error, is_root: bool) -> Report
    ensures report { ReportsMemory result ⊎ ReportsError is_root error result }
    ensures utf8 { IsUtf8 result.text.items }
{
    match error {
        Error::Parse(ParseFault::Toml(fault)) => tell_toml(alloc, &fault, is_root),
        Error::Parse(ParseFault::Schema(fault)) => tell_schema(alloc, &fault, is_root),
        Error::Io(fault) => with_text(3, kind_number(fault), Vec::new(alloc)),
        Error::Utf8(_) => with_text(at_root(is_root, 4), 0, Vec::new(alloc)),
        Error::Other(text) => with_string(5, 0, text),
        Error::Memory(refused) => memory(alloc, refused),
    }
}

/// The report of why bytes are no manifest: that of the error, or status 14 or 15, of the root 16 more. Instead it may
/// be that of out of memory.
fn tell_input(alloc: Global, error: InputError, is_root: bool) -> Report
    ensures report { ReportsMemory result ⊎ ReportsInput is_root error result }
    ensures utf8 { IsUtf8 result.text.items }
{
    match error {
        InputError::Manifest(error) => tell_error(alloc, error, is_root),
        InputError::Untagged => with_text(at_root(is_root, 14), 0, Vec::new(alloc)),
        InputError::TooDeep => with_text(at_root(is_root, 15), 0, Vec::new(alloc)),
    }
}

/// The status by which it is reported what cannot be inherited: 10 to 13.
pub(crate) fn refusal_status(refusal: &Unresolved) -> u8
    ensures { result ≡ refusal_status refusal.now }
{
    match refusal {
        Unresolved::NotInWorkspace(_) => 10,
        Unresolved::InheritedInWorkspace(_) => 11,
        Unresolved::MixedLints => 12,
        Unresolved::ToolNamedWorkspace => 13,
    }
}

/// The key or the name of what cannot be inherited, where the refusal has one; else nothing.
pub(crate) fn refusal_name(refusal: &Unresolved) -> &str
    ensures { result.now ≡ refusal_name refusal.now }
{
    match refusal {
        Unresolved::NotInWorkspace(key) => key.as_str(),
        Unresolved::InheritedInWorkspace(name) => name.as_str(),
        Unresolved::MixedLints => "",
        Unresolved::ToolNamedWorkspace => "",
    }
}

/// The report of what cannot be inherited: status 10 to 13; the text is the key or the name, where the refusal has one.
fn tell_unresolved(alloc: Global, refusal: Unresolved) -> Report
    ensures report { ReportsMemory result ⊎ TellsUnresolved refusal result }
    ensures utf8 { IsUtf8 result.text.items }
{
    let status = refusal_status(&refusal);
    match refusal {
        Unresolved::NotInWorkspace(key) => with_string(status, 0, key),
        Unresolved::InheritedInWorkspace(name) => with_string(status, 0, name),
        Unresolved::MixedLints => with_text(status, 0, Vec::new(alloc)),
        Unresolved::ToolNamedWorkspace => with_text(status, 0, Vec::new(alloc)),
    }
}

/// The report of why a manifest is not resolved: that of the refusal, without its path, or status 6 for out of memory.
fn tell_resolving(alloc: Global, error: ResolveError) -> Report
    ensures report { ReportsMemory result ⊎ ReportsResolving error result }
    ensures utf8 { IsUtf8 result.text.items }
{
    match error {
        ResolveError::Refused(fault) => tell_unresolved(alloc, fault.refusal),
        ResolveError::Memory(refused) => memory(alloc, refused),
    }
}

/// The report of why a manifest is not resolved or not completed: status 9 for a root without a workspace, else that of
/// the error. Instead it may be that of out of memory.
fn tell_finishing(alloc: Global, error: FinishError) -> Report
    ensures report { ReportsMemory result ⊎ ReportsFinishing error result }
    ensures utf8 { IsUtf8 result.text.items }
{
    match error {
        FinishError::Manifest(error) => tell_error(alloc, error, false),
        FinishError::NoWorkspace => with_text(9, 0, Vec::new(alloc)),
        FinishError::Resolve(error) => tell_resolving(alloc, error),
    }
}

/// The report of why a manifest's table is not printed: status 7 and the text of [`Error::Other`], or that of any other
/// error.
fn tell_printing(alloc: Global, error: Error) -> Report
    ensures report { ReportsMemory result ⊎ ReportsPrinting error result }
    ensures utf8 { IsUtf8 result.text.items }
{
    match error {
        Error::Other(text) => with_string(7, 0, text),
        error => tell_error(alloc, error, false),
    }
}

/// The report of why edits are not made: status 33 to 36.
fn tell_edits(alloc: Global, error: EditError) -> Report
    ensures report { ReportsEdits error result }
    ensures utf8 { IsUtf8 result.text.items }
{
    match error {
        EditError::NotAValue => with_text(33, 0, Vec::new(alloc)),
        EditError::NoPlace => with_text(34, 0, Vec::new(alloc)),
        EditError::Overlap => with_text(35, 0, Vec::new(alloc)),
        _ => with_text(36, 0, Vec::new(alloc)),
    }
}

/// The report of a refusal, by its kind: status, cause, positions and text. Instead it may be that of out of memory,
/// where there is none for its text.
pub(crate) fn report_of(alloc: Global, refusal: Refusal) -> Report
    ensures report { ReportsMemory result ⊎ Reports refusal result }
    ensures utf8 { IsUtf8 result.text.items }
{
    match refusal {
        Refusal::Bytes(error) => tell_input(alloc, error, false),
        Refusal::Root(error) => tell_input(alloc, error, true),
        Refusal::Listings => with_text(8, 0, Vec::new(alloc)),
        Refusal::Finishing(error) => tell_finishing(alloc, error),
        Refusal::Printing(error) => tell_printing(alloc, error),
        Refusal::TooLong => with_text(32, 0, Vec::new(alloc)),
        Refusal::Edits(error) => tell_edits(alloc, error),
        Refusal::NotText => with_text(37, 0, Vec::new(alloc)),
        Refusal::Offsets => with_text(38, 0, Vec::new(alloc)),
        Refusal::Configuration => with_text(39, 0, Vec::new(alloc)),
        Refusal::Memory(refused) => memory(alloc, refused),
    }
}
