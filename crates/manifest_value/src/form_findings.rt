//! What is found in lists, in maps, and row by row in the tables of forms.

ghost use Rattle.manifest_schema.specs.Prelude.{Members, view, table_view, items_view, without, spelled, form_findings, row_findings, left_over, entry_findings, item_findings, unused_keys, table as table_data};
ghost use Rattle.std.specs.Prelude.{◌≡◌, ◌++◌, IfOk};
ghost use Rattle.manifest_fault.specs.Found.{found};
ghost use Rattle.manifest_value.specs.FoundRows.{findings_from, other_findings, IsOpen};
ghost use Rattle.manifest_value.specs.Sources.{entries_view, rest_view};
ghost use Rattle.manifest_value.specs.Walks.{Ascend};

use crate::entries::{Entries, Entry};
use crate::form::{Form, Rowed};
use crate::schema::Schema;
use crate::source::TableSource;
use crate::walking::{entries_without, walk};
use manifest_fault::{Cause, Finding, Findings, Found};
use std::alloc::{AllocError, Global};
use toml::{Table, Value};

/// What is found in the items of a list, each with its index before the path.
#[tactic(auto, using(manifest_fault::proofs::FindingTrees::finding_steps))]
pub(crate) fn findings_of_items<T: Schema>(alloc: Global, items: &[Value]) -> Found
    ensures { IfOk result (λ f. found f ≡ item_findings T.kind.findings 0 (items_view items.now)) }
{
    let mut out = Findings::none(alloc);
    for (i, item) in items.iter().enumerate() {
        out = out.and_at(i, T::findings(alloc, item)?)?;
    }
    Ok(out)
}

/// What is found in the values of entries, each with its key before the path.
#[tactic(auto, using(manifest_fault::proofs::FindingTrees::finding_steps))]
fn findings_of_entries<T: Schema>(alloc: Global, entries: Entries<'_>) -> Found
    ensures { IfOk result
        (λ f. found f ≡ entry_findings T.kind.findings (entries_view entries.entry)) }
{
    let mut out = Findings::none(alloc);
    for (key, source) in entries {
        let inside = T::findings(alloc, source.value())?;
        out = out.and_under(alloc, key.as_str(), inside)?;
    }
    Ok(out)
}

/// What is found in the values of a table whose keys are those of a map.
pub(crate) fn findings_of_map<T: Schema>(alloc: Global, table: &Table) -> Found
    ensures { IfOk result (λ f. found f ≡ entry_findings T.kind.findings (table_view table.now)) }
{
    findings_of_entries::<T>(alloc, TableSource::Borrowed(table).entries())
}

/// What is found in the values of the entries that a walk left over, where they are those of a map.
fn findings_of_rest<T: Schema>(alloc: Global, rest: Vec<Entry<'_>>) -> Found
    ensures { IfOk result
        (λ f. found f ≡ entry_findings T.kind.findings (rest_view rest.entry.items)) }
{
    findings_of_entries::<T>(alloc, Entries::Rest(rest.into_iter()))
}

/// What is found in a table row by row, in the order of the rows, and the entries under all other keys, which are not
/// looked into. It fails only when out of memory.
pub fn findings_of_rows<'t, T: Rowed>(
    alloc: Global,
    table: &'t Table,
) -> Result<(Findings<Finding>, Vec<Entry<'t>>), AllocError>
    ensures { IfOk result (λ r. (found r.0 ≡ findings_from 0 T.rows (table_view table.entry.now))
        × (rest_view r.1.items ≡ without (spelled T.rows) (table_view table.entry.now))
        × Ascend (rest_view r.1.items)) }
{
    let names = T::names();
    let walk = walk(alloc, TableSource::Borrowed(table), names)?;
    let types = T::empty(alloc);
    let slots = walk.slots.as_slice();
    let mut out = Findings::none(alloc);
    for i in 0..names.len() {
        out = out.and(types.row_findings(alloc, i, names[i].first, &slots[i])?)?;
    }
    Ok((out, walk.rest))
}

/// These findings, and then the keys of entries that nothing reads.
///
/// ```ignore
/// let all = and_unused(alloc, found, walk.rest)?;
/// ```
#[tactic(auto, using(manifest_fault::proofs::FindingTrees::finding_steps))]
pub fn and_unused(alloc: Global, so_far: Findings<Finding>, rest: Vec<Entry<'_>>) -> Found
    ensures { IfOk result
        (λ f. found f ≡ found so_far ++ unused_keys (rest_view rest.entry.items)) }
{
    let mut out = so_far;
    for (key, value) in rest {
        drop(value);
        out = out.and_here(Finding::Unused(key.into_string(alloc)?))?;
    }
    Ok(out)
}

/// What is found in a table by the rows of a form, and the entries under its keys that no row has.
///
/// ```ignore
/// let (found, rest) = findings_of_closed::<Package<Value>>(alloc, table)?;
/// ```
pub fn findings_of_closed<'t, T: Form>(
    alloc: Global,
    table: &'t Table,
) -> Result<(Findings<Finding>, Vec<Entry<'t>>), AllocError>
    ensures { IfOk result (λ r. (found r.0 ≡ row_findings T.rows (table_view table.entry.now))
        × (rest_view r.1.items ≡ left_over T.rows (table_view table.entry.now))) }
{
    T::covers();
    let (found, rest) = findings_of_rows::<T>(alloc, table)?;
    Ok((found, rest))
}

/// The entries of a list under the keys that no row of a form has.
///
/// ```ignore
/// let unused = entries_left_over::<Package<Value>>(alloc, rest)?;
/// ```
pub fn entries_left_over<'t, T: Form>(
    alloc: Global,
    entries: Vec<Entry<'t>>,
) -> Result<Vec<Entry<'t>>, AllocError>
    ensures { IfOk result
        (λ v. rest_view v.items ≡ left_over T.rows (rest_view entries.entry.items)) }
{
    T::covers();
    let left = entries_without(alloc, entries, T::names())?;
    Ok(left)
}

/// What is found in the table of a form: row by row, and then each key that no row has.
///
/// ```ignore
/// let found = findings_of_form::<Manifest>(alloc, &table)?;
/// ```
pub fn findings_of_form<T: Form>(alloc: Global, table: &Table) -> Found
    ensures { IfOk result
        (λ f. found f ≡ form_findings T.rows (table_data (table_view table.now))) }
{
    let (found, rest) = findings_of_closed::<T>(alloc, table)?;
    and_unused(alloc, found, rest)
}

/// What is found in a value of a form that ends with the map of all other keys, whose values are read as an `X`: row by
/// row, and then in the values of that map. The rows of `T` have to end so, with the kind of `X`.
///
/// ```ignore
/// let found = findings_of_open::<Profiles, Profile>(alloc, &value)?;
/// ```
#[tactic(auto, using(crate::proofs::FoundLemmas::open_found))]
pub fn findings_of_open<T: Rowed, X: Schema>(alloc: Global, value: &Value) -> Found
    requires ends_with_map { IsOpen T.rows }
    requires of_its_kind { (ms : Members) → other_findings (spelled T.rows) T.rows ms
        ≡ entry_findings X.kind.findings (without (spelled T.rows) ms) }
    ensures { IfOk result (λ f. found f ≡ form_findings T.rows (view value.now)) }
{
    match value {
        Value::Table(table) => {
            let (found, rest) = findings_of_rows::<T>(alloc, table)?;
            found.and(findings_of_rest::<X>(alloc, rest)?)
        }
        _ => Findings::here(alloc, Cause::WrongKind),
    }
}
