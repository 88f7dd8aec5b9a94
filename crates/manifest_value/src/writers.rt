//! Writers of texts, and of lists and maps whose values a given writer writes.

ghost use Rattle.manifest_schema.specs.Prelude.{values, FnReturnsAt, Contains, string, view, text, list_of, written_items};
ghost use Rattle.std.specs.Prelude.{◌≡◌, map, IsTrue, IfOk, Ok, string_bytes};
ghost use Rattle.manifest_value.specs.Calls.{EntriesGiven, ListWritten, MapWritten};
ghost use Rattle.manifest_written.specs.Written.{list_view, list_ascends};

use crate::closures::call_at;
use crate::schema::Schema;
use manifest_written::Written;
use std::alloc::{AllocError, Global};
use std::collections::BTreeMap;
use toml::{Table, Value};

/// Writes a text: a string of the same bytes.
///
/// It fails when out of memory for the copy.
///
/// ```ignore
/// let name = write_text(alloc, "serde")?;
/// ```
pub fn write_text(alloc: Global, text: &str) -> Result<Value, AllocError>
    ensures { IfOk result (λ v. view v ≡ string text.now) }
{
    Value::string(alloc, text)
}

/// Writes a list of texts, in order.
///
/// It fails when out of memory for the list or a copy.
///
/// ```ignore
/// let members = write_texts(alloc, manifest.members.as_slice())?;
/// ```
pub fn write_texts(alloc: Global, texts: &[String]) -> Result<Value, AllocError>
    ensures { IfOk result (λ v. view v ≡ (list_of text).written (map string_bytes texts.now)) }
{
    write_list(alloc, texts, |text| write_text(alloc, text.as_str()))
}

/// Writes a list whose items a given writer writes: the list of its answers, in order.
///
/// The writer has to be callable on each item, which asks nothing where there is none.
///
/// It fails where the writer fails at an item, or where there is no memory for the list.
///
/// ```ignore
/// let levels = write_list(alloc, levels.as_slice(), |level| Ok(Value::Integer(*level)))?;
/// ```
pub fn write_list<T, F: Fn(&T) -> Result<Value, AllocError> + Drop>(
    alloc: Global,
    items: &[T],
    write: F,
) -> Result<Value, AllocError>
    requires { (b : _) → Contains items.now b.now → F.pre write b }
    ensures { IfOk result (ListWritten (FnReturnsAt F.Fn write) items.now) }
{
    let mut out = Vec::new(alloc);
    for x in items {
        out.push(call_at(&write, x)?)?;
    }
    Ok(Value::Array(out))
}

/// What is written of each item of a list, in order. It fails only when out of memory.
pub(crate) fn list_written<'a, T: Schema>(
    alloc: Global,
    items: &'a [T],
) -> Result<Vec<Written<'a>>, AllocError>
    ensures is { IfOk result
        (λ ws. list_view ws.items ≡ written_items T.kind (map T.content items.now)) }
    ensures ascend { IfOk result (λ ws. IsTrue (list_ascends ws.items)) }
{
    let mut out = Vec::with_capacity(alloc, items.len())?;
    for x in items {
        out.push(x.written(alloc)?)?;
    }
    Ok(out)
}

/// A new table with the keys of a map, each with what `write` makes of the map's value. Fails only when out of memory,
/// or as `write` does.
pub(crate) fn entries_by<T, F: Fn(&T) -> Result<Value, AllocError>>(
    alloc: Global,
    map: &BTreeMap<String, T>,
    write: &F,
) -> Result<Table, AllocError>
    requires { (b : _) → Contains (values map.now) b.now → F.pre write.now b }
    ensures { IfOk result
        (λ t. EntriesGiven (FnReturnsAt F.Fn write.now) map.now.entries t.entries) }
{
    let mut all = Table::new(alloc);
    for (key, x) in map.iter() {
        let value = call_at(write, x)?;
        let name = String::from_str(alloc, key.as_str())?;
        drop(all.insert(name, value)?);
    }
    Ok(all)
}

/// Writes a map whose values a given writer writes: the table of its answers under the same keys.
///
/// The writer has to be callable on each value, which asks nothing where the map is empty.
///
/// It fails where the writer fails at a value, or where there is no memory for the table or a key.
///
/// ```ignore
/// let features = write_map(alloc, &features, |names| write_texts(alloc, names.as_slice()))?;
/// ```
pub fn write_map<T, F: Fn(&T) -> Result<Value, AllocError> + Drop>(
    alloc: Global,
    map: &BTreeMap<String, T>,
    write: F,
) -> Result<Value, AllocError>
    requires { (b : _) → Contains (values map.now) b.now → F.pre write b }
    ensures { IfOk result (MapWritten (FnReturnsAt F.Fn write) map.now.entries) }
{
    Ok(Value::Table(entries_by(alloc, map, &write)?))
}
