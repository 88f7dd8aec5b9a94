//! What is found of one row, one function for each need: of what the table holds under the row's spellings (`slot`). The
//! field is not looked at: it names the type of the value. `key` is the first spelling. They fail only when out of
//! memory.

ghost use Rattle.manifest_schema.specs.Prelude.{view, key, found_under, Spellings as Words, first, free_findings, required_findings, lenient_findings};
ghost use Rattle.std.specs.Prelude.{◌≡◌, IfOk};
ghost use Rattle.manifest_fault.specs.Found.{found, Finds};
ghost use Rattle.manifest_value.specs.Sources.{row_view};

use crate::form::Word;
use crate::row_slots::RowSlot;
use crate::schema::Schema;
use manifest_fault::{Cause, Findings, Found};
use std::alloc::Global;
use toml::Value;

/// What is found in a value that stands under a key: each finding has the key before its path.
#[tactic(auto, using(manifest_fault::proofs::FindingTrees::finding_steps))]
fn found_under<T: Schema>(alloc: Global, word: &str, value: &Value) -> Found
    ensures { IfOk result
        (λ f. found f ≡ found_under (key word.now) (T.kind.findings (view value.now))) }
{
    let inside = T::findings(alloc, value)?;
    let found = Findings::none(alloc).and_under(alloc, word, inside)?;
    Ok(found)
}

/// What is found of a row that may be absent: two spellings are the fault `TwoSpellings` under the first one, `key`; else
/// it is what is found in the value, with the spelling that is there before its path.
fn found_if_there<T: Schema>(alloc: Global, key: Word, slot: &RowSlot<'_>) -> Found
    ensures { (s : Words) → first s ≡ key.now
        → IfOk result (Finds (free_findings s T.kind.findings (row_view slot.now))) }
{
    match slot {
        RowSlot::Absent => Ok(Findings::none(alloc)),
        RowSlot::Clash => Findings::under(alloc, key, Cause::TwoSpellings),
        RowSlot::One { spelling, value } => found_under::<T>(alloc, spelling, value.value()),
    }
}

/// What is found of a row that must be there: an absence is the fault `Missing` under the first spelling `key`, and two
/// spellings are `TwoSpellings`; else it is what is found in the value.
pub fn find_required<T: Schema>(alloc: Global, key: Word, slot: &RowSlot<'_>, _field: &T) -> Found
    ensures { (s : Words) → first s ≡ key.now
        → IfOk result (Finds (required_findings s T.kind.findings (row_view slot.now))) }
{
    match slot {
        RowSlot::Absent => Findings::under(alloc, key, Cause::Missing),
        RowSlot::Clash => Findings::under(alloc, key, Cause::TwoSpellings),
        RowSlot::One { spelling, value } => found_under::<T>(alloc, spelling, value.value()),
    }
}

/// What is found of a row whose field is an option: nothing where it is absent.
pub fn find_optional<T: Schema>(
    alloc: Global,
    key: Word,
    slot: &RowSlot<'_>,
    _field: &Option<T>,
) -> Found
    ensures { (s : Words) → first s ≡ key.now
        → IfOk result (Finds (free_findings s T.kind.findings (row_view slot.now))) }
{
    found_if_there::<T>(alloc, key, slot)
}

/// What is found of a row that has a default: nothing where it is absent.
pub fn find_default<T: Schema>(alloc: Global, key: Word, slot: &RowSlot<'_>, _field: &T) -> Found
    ensures { (s : Words) → first s ≡ key.now
        → IfOk result (Finds (free_findings s T.kind.findings (row_view slot.now))) }
{
    found_if_there::<T>(alloc, key, slot)
}

/// What is found of a row whose field is an option, and `None` where the value does not fit: each fault is ignored.
pub fn find_lenient<T: Schema>(
    alloc: Global,
    key: Word,
    slot: &RowSlot<'_>,
    _field: &Option<T>,
) -> Found
    ensures { (s : Words) → first s ≡ key.now
        → IfOk result (Finds (lenient_findings s T.kind.findings (row_view slot.now))) }
{
    found_if_there::<T>(alloc, key, slot)?.leniently(alloc)
}

/// What is found of a row that has a default, also where the value does not fit: each fault is ignored.
pub fn find_lenient_default<T: Schema>(
    alloc: Global,
    key: Word,
    slot: &RowSlot<'_>,
    _field: &T,
) -> Found
    ensures { (s : Words) → first s ≡ key.now
        → IfOk result (Finds (lenient_findings s T.kind.findings (row_view slot.now))) }
{
    found_if_there::<T>(alloc, key, slot)?.leniently(alloc)
}
