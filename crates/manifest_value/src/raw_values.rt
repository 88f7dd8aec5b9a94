//! Values that are kept as they are.
ghost use Rattle.manifest_schema.specs.Prelude.{Data, view, array_view, table_view, plain, plain_items, plain_members, float_findings, item_floats, entry_floats, raw as raw_kind};
ghost use Rattle.std.specs.Prelude.{◌≡◌, not, IsTrue, IfOk};
ghost use Rattle.manifest_schema.proofs.Values.KindLaws.{raw_sound};
ghost use Rattle.manifest_fault.specs.Found.{found};
ghost use Rattle.manifest_value.specs.Reading.{Gives, GivesOr};

use crate::schema::Schema;
use crate::source::Source;
use manifest_fault::fault::{fault_here, fault_under_key, fault_under_step};
use manifest_fault::{Cause, Findings, Found, ReadFault, Step};
use manifest_written::Written;
use std::alloc::{AllocError, Global};
use toml::{Table, Value};

/// Whether a float stands anywhere in the value: the value itself, an item of a list, or an entry of a table, at any
/// depth.
///
/// ```ignore
/// let found = holds_float(&value); // of `{ a = [1, 2.5] }` true
/// ```
#[cycle(floats)]
pub fn holds_float(value: &Value) -> bool
    ensures { result ≡ not (plain (view value.now)) }
{
    match value {
        Value::Float(_) => true,
        Value::Array(items) => items_hold_float(items),
        Value::Table(members) => members_hold_float(members),
        _ => false,
    }
}

/// Whether a float is one of the items of an array, or stands anywhere in one.
#[cycle(floats)]
fn items_hold_float(items: &Vec<Value>) -> bool
    ensures { result ≡ not (plain_items (array_view items.now)) }
{
    for item in items {
        if holds_float(item) {
            return true;
        }
    }
    false
}

/// Whether a float is the value of an entry of a table, or stands anywhere in one.
#[cycle(floats)]
fn members_hold_float(members: &Table) -> bool
    ensures { result ≡ not (plain_members (table_view members.now)) }
{
    for (_key, member) in members.iter() {
        if holds_float(member) {
            return true;
        }
    }
    false
}

/// Accepts a value without floats, and refuses any other with the path of the first float that it meets, in the order
/// of items and of keys.
#[cycle(places)]
fn refuse_float(alloc: Global, value: &Value) -> Result<(), ReadFault>
    ensures { let d = view value.now in
        GivesOr (λ u. IsTrue (plain d)) (float_findings d) result }
{
    match value {
        Value::Float(_) => Err(fault_here(alloc, Cause::HoldsFloat)),
        Value::Array(items) => refuse_float_in_items(alloc, items),
        Value::Table(members) => refuse_float_in_members(alloc, members),
        _ => Ok(()),
    }
}

/// Accepts the items of an array, if no float stands in them; else refuses with `HoldsFloat` and the path of the first
/// one, which begins with the item's index.
#[cycle(places)]
fn refuse_float_in_items(alloc: Global, items: &Vec<Value>) -> Result<(), ReadFault>
    ensures { let ds = array_view items.now in
        GivesOr (λ u. IsTrue (plain_items ds)) (item_floats 0 ds) result }
{
    for (i, item) in items.iter().enumerate() {
        if let Err(fault) = refuse_float(alloc, item) {
            return Err(fault_under_step(Step::Index(i), fault));
        }
    }
    Ok(())
}

/// Accepts the entries of a table, if no float stands in their values; else refuses with `HoldsFloat` and the path of
/// the first one, which begins with the entry's key.
#[cycle(places)]
fn refuse_float_in_members(alloc: Global, members: &Table) -> Result<(), ReadFault>
    ensures { let ms = table_view members.now in
        GivesOr (λ u. IsTrue (plain_members ms)) (entry_floats ms) result }
{
    for (key, member) in members.iter() {
        if let Err(fault) = refuse_float(alloc, member) {
            return Err(fault_under_key(alloc, key.as_str(), fault));
        }
    }
    Ok(())
}

/// Each float in a value: the fault `HoldsFloat` at its path.
#[cycle(all_places)]
fn find_floats(alloc: Global, value: &Value) -> Found
    ensures { IfOk result (λ f. found f ≡ float_findings (view value.now)) }
{
    match value {
        Value::Float(_) => Findings::here(alloc, Cause::HoldsFloat),
        Value::Array(items) => find_floats_in_items(alloc, items),
        Value::Table(members) => find_floats_in_members(alloc, members),
        _ => Ok(Findings::none(alloc)),
    }
}

/// Each float in the items of an array, with the item's index before its path.
#[cycle(all_places)]
#[tactic(auto, using(manifest_fault::proofs::FindingTrees::finding_steps))]
fn find_floats_in_items(alloc: Global, items: &Vec<Value>) -> Found
    ensures { IfOk result (λ f. found f ≡ item_floats 0 (array_view items.now)) }
{
    let mut out = Findings::none(alloc);
    for (i, item) in items.iter().enumerate() {
        out = out.and_at(i, find_floats(alloc, item)?)?;
    }
    Ok(out)
}

/// Each float in the values of a table, with the entry's key before its path.
#[cycle(all_places)]
#[tactic(auto, using(manifest_fault::proofs::FindingTrees::finding_steps))]
fn find_floats_in_members(alloc: Global, members: &Table) -> Found
    ensures { IfOk result (λ f. found f ≡ entry_floats (table_view members.now)) }
{
    let mut out = Findings::none(alloc);
    for (key, member) in members.iter() {
        out = out.and_under(alloc, key.as_str(), find_floats(alloc, member)?)?;
    }
    Ok(out)
}

/// A copy of a value without floats.
///
/// Refuses a value in which a float stands, by the path from the value to the first float that is met, items by
/// their indexes and entries in the order of their keys: in `{ a = [1, 2.5], b = 0.5 }` that is `a[1]`. Refuses with
/// `Memory` where there is no memory for the copy or the path.
///
/// ```ignore
/// let level = kept(alloc, &value)?; // of `3` the same 3; of `{ a = [1, 2.5] }` a refusal at `a[1]`
/// ```
pub fn raw(alloc: Global, value: &Value) -> Result<Value, ReadFault>
    ensures { Gives raw_kind view (view value.now) result }
{
    refuse_float(alloc, value)?;
    Ok(value.clone()?)
}

/// A value that holds no float, as it is.
impl Schema for Value {
    ghost Content = { Data };

    ghost content = { view };

    ghost kind = { raw_kind };

    fn read(alloc: Global, source: Source<'_>) -> Result<Value, ReadFault> {
        refuse_float(alloc, source.value())?;
        match source {
            Source::Borrowed(value) => Ok(value.clone()?),
            Source::Owned(value) => Ok(value),
        }
    }

    fn findings(alloc: Global, value: &Value) -> Found {
        find_floats(alloc, value)
    }

    fn written(&self, _alloc: Global) -> Result<Written<'_>, AllocError> {
        Ok(Written::Value(self))
    }

    fn is_well_formed(&self) -> bool {
        !holds_float(self)
    }

    ghost lawful = { raw_sound };
}
