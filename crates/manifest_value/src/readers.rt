//! Readers of a value of one kind, and of a field of a table.

ghost use Rattle.manifest_schema.specs.Prelude.{table as table_data, view, table_view, get_member, at, clash, text, flag, whole, list_of, spellings_of};
ghost use Rattle.std.specs.Prelude.{◌≡◌, map, IfOk, IfErr, Some, string_bytes, option_map, option_copied};
ghost use Rattle.manifest_schema.specs.Pins.{clash_at};
ghost use Rattle.manifest_fault.specs.Faults.{FaultIn, IsSchema, no_table};
ghost use Rattle.manifest_value.specs.Reading.{Gives};
ghost use Rattle.manifest_value.specs.Walks.{value_in};

use crate::rows::at_key;
use crate::schema::Schema;
use crate::source::Source;
use manifest_fault::fault::fault_here;
use manifest_fault::{Cause, ReadFault};
use std::alloc::Global;
use toml::{Table, Value};

/// Reads a text: a copy of the value's bytes.
///
/// A value that is no text is refused at itself with `WrongKind`. Running out of memory for the copy is a fault
/// `Memory`.
///
/// ```ignore
/// let value = Value::string(alloc, "serde")?;
/// let name = text(alloc, &value)?; // "serde"
/// ```
#[inline(always)]
pub fn text(alloc: Global, value: &Value) -> Result<String, ReadFault>
    ensures { Gives text string_bytes (view value.now) result }
{
    match value {
        Value::String(s) => Ok(String::from_str(alloc, s.as_str())?),
        _ => Err(fault_here(alloc, Cause::WrongKind)),
    }
}

/// Reads a boolean.
///
/// A value that is no boolean is refused at itself with `WrongKind`. It never fails as out of memory.
///
/// ```ignore
/// let harness = boolean(alloc, &Value::Boolean(true))?; // true
/// ```
#[inline(always)]
pub fn boolean(alloc: Global, value: &Value) -> Result<bool, ReadFault>
    ensures gives { Gives flag (λ b. b) (view value.now) result }
    ensures schema { IfErr result IsSchema }
{
    match value {
        Value::Boolean(b) => Ok(*b),
        _ => Err(fault_here(alloc, Cause::WrongKind)),
    }
}

/// Reads a whole number from `low` to `high`, both included.
///
/// A value that is no whole number is refused at itself with `WrongKind`, and one below `low` or above `high` with
/// `OutOfRange`. So where `low` is above `high` each whole number is out of range. It never fails as out of memory.
///
/// ```ignore
/// let level = whole(alloc, &Value::Integer(3), 0, 3)?; // 3
/// let too_high = whole(alloc, &Value::Integer(4), 0, 3); // `OutOfRange`
/// ```
pub fn whole(alloc: Global, value: &Value, low: i64, high: i64) -> Result<i64, ReadFault>
    ensures gives { Gives (whole low high) (λ n. n) (view value.now) result }
    ensures schema { IfErr result IsSchema }
{
    match value {
        Value::Integer(n) => {
            let n = *n;
            if low <= n && n <= high {
                Ok(n)
            } else {
                Err(fault_here(alloc, Cause::OutOfRange))
            }
        }
        _ => Err(fault_here(alloc, Cause::WrongKind)),
    }
}

/// Reads a list of texts: a copy of each, in order.
///
/// A value that is no list is refused at itself with `WrongKind`, and an item that is no text with `WrongKind` at its
/// index. Running out of memory for the copy is a fault `Memory`.
///
/// ```ignore
/// let members = texts(alloc, &value)?; // of `["a", "b"]` the texts "a" and "b"
/// ```
pub fn texts(alloc: Global, value: &Value) -> Result<Vec<String>, ReadFault>
    ensures { Gives (list_of text) (λ v. map string_bytes v.items) (view value.now) result }
{
    <Vec<String> as Schema>::read(alloc, Source::Borrowed(value))
}

/// Reads a table: the one that stands in the value, not a copy.
///
/// A value that is no table is refused at itself with `WrongKind`. It never fails as out of memory.
///
/// ```ignore
/// let package = table(alloc, &value)?;
/// let name = package.get("name");
/// ```
pub fn table(alloc: Global, value: &Value) -> Result<&Table, ReadFault>
    ensures ok { IfOk result (λ t. view value.now ≡ table_data (table_view t.now)) }
    ensures fault { IfErr result (FaultIn (no_table (view value.now))) }
    ensures schema { IfErr result IsSchema }
{
    match value {
        Value::Table(entries) => Ok(entries),
        _ => Err(fault_here(alloc, Cause::WrongKind)),
    }
}

/// The value under a key; `None` where the table does not have the key.
///
/// ```ignore
/// let name = find(table, "name");
/// ```
#[inline(always)]
#[tactic(auto, using(toml::proofs::Views::table_get))]
pub fn find<'a>(table: &'a Table, key: &str) -> Option<&'a Value>
    ensures { option_map (λ v. view v.now) result ≡ get_member key.now (table_view table.now) }
{
    table.get(key)
}

/// Finds the value of a field that has one spelling or two: `None` where the table has neither, and else the value
/// under the spelling that it has, not a copy.
///
/// A table that has both spellings is refused under the first one with `TwoSpellings`, or with `Memory` where there is
/// no memory for the key in the path. Nothing else is refused.
///
/// ```ignore
/// let kinds = field(alloc, library, "crate-type", Some("crate_type"))?;
/// ```
pub fn field<'a>(
    alloc: Global,
    table: &'a Table,
    first: &str,
    second: Option<&str>,
) -> Result<Option<&'a Value>, ReadFault>
    ensures ok { let slot = at (spellings_of first.now (option_copied second.entry))
        (table_view table.now) in
        IfOk result (λ found. value_in slot ≡ Some (option_map (λ v. view v.now) found)) }
    ensures err { let slot = at (spellings_of first.now (option_copied second.entry))
        (table_view table.now) in
        IfErr result (λ f. slot ≡ clash) }
    ensures fault { let spellings = spellings_of first.now (option_copied second.entry) in
        IfErr result (FaultIn (clash_at spellings)) }
{
    match second {
        None => Ok(find(table, first)),
        Some(word) => match (find(table, first), find(table, word)) {
            (None, found) => Ok(found),
            (found, None) => Ok(found),
            (Some(_), Some(_)) => Err(at_key(alloc, first, Cause::TwoSpellings)),
        },
    }
}
