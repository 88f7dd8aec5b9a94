//! Readers of a list and of a table by a given reader of their values.

ghost use Rattle.manifest_schema.specs.Prelude.{values, FnReturnsAt, Contains, under, index, key};
ghost use Rattle.std.specs.Prelude.{◌≡◌, IfOk, IfErr, Ok};
ghost use Rattle.manifest_value.specs.Calls.{ItemsGiven, EntriesGiven, Refused, IsItemOf, ListGiven, ItemRefused, ListRefused, IsValueOf, MapGiven, EntryRefused, MapRefused};
ghost use Rattle.manifest_fault.specs.Faults.{FaultIn};

use manifest_fault::fault::{fault_here, fault_under_key, fault_under_step};
use manifest_fault::{Cause, ReadFault, Step};
use std::alloc::Global;
use std::collections::BTreeMap;
use toml::{Table, Value};

/// Calls `f(x)`. The contract says that `f` may give the result for what `x` points to, whichever reference to it is
/// passed.
pub(crate) fn call_at<X, R, F: Fn(&X) -> R>(f: &F, x: &X) -> R
    requires { (b : _) → b.now ≡ x.now → F.pre f.now b }
    ensures { FnReturnsAt F.Fn f.now x.now result }
{
    f(x)
}

/// Calls `read` with a value, and returns what it returns: an answer, or the fault with which it refuses the value.
fn read_at<T, F: Fn(&Value) -> Result<T, ReadFault>>(
    read: &F,
    value: &Value,
) -> Result<T, ReadFault>
    requires { (b : _) → b.now ≡ value.now → F.pre read.now b }
    ensures ok { IfOk result (λ x. FnReturnsAt F.Fn read.now value.now (Ok x)) }
    ensures fault { IfErr result (FaultIn (Refused (FnReturnsAt F.Fn read.now) value.now)) }
{
    call_at(read, value)
}

/// Calls `read` with item `i` of a list: returns its answer, or its fault with the index before the path.
#[tactic(auto, using(manifest_fault::proofs::Under::fault_under))]
fn item_at<T: Drop, F: Fn(&Value) -> Result<T, ReadFault>>(
    read: &F,
    item: &Value,
    i: usize,
) -> Result<T, ReadFault>
    requires { (b : _) → b.now ≡ item.now → F.pre read.now b }
    ensures ok { IfOk result (λ x. FnReturnsAt F.Fn read.now item.now (Ok x)) }
    ensures fault { IfErr result
        (FaultIn (under (index i) (Refused (FnReturnsAt F.Fn read.now) item.now))) }
{
    match read_at(read, item) {
        Ok(x) => Ok(x),
        Err(fault) => Err(fault_under_step(Step::Index(i), fault)),
    }
}

/// What the reader makes of each item, in their order; or its fault at the first item that it refuses, with the item's
/// index before the path.
fn items_of<T: Drop, F: Fn(&Value) -> Result<T, ReadFault>>(
    alloc: Global,
    items: &[Value],
    read: &F,
) -> Result<Vec<T>, ReadFault>
    requires { (b : _) → Contains items.now b.now → F.pre read.now b }
    ensures ok { IfOk result (λ xs. ItemsGiven (FnReturnsAt F.Fn read.now) items.now xs.items) }
    ensures fault { IfErr result (FaultIn (ItemRefused (FnReturnsAt F.Fn read.now) items.now)) }
{
    let mut out = Vec::new(alloc);
    for (i, item) in items.iter().enumerate() {
        out.push(item_at(read, item, i)?)?;
    }
    Ok(out)
}

/// Reads a list whose items a given reader reads: its answers, in order.
///
/// The reader has to be callable on each item, which asks nothing where the list is empty or the value is no list.
///
/// A value that is no list is refused at itself with `WrongKind`. Else the reader's fault at the first item that it
/// refuses is reported, with the item's index before its path. Running out of memory for an answer is a fault `Memory`.
///
/// ```ignore
/// let levels = list_of(alloc, &value, |item| whole(alloc, item, 0, 3))?; // of `[1, 3]` the numbers 1 and 3
/// ```
pub fn list_of<T: Drop, F: Fn(&Value) -> Result<T, ReadFault> + Drop>(
    alloc: Global,
    value: &Value,
    read: F,
) -> Result<Vec<T>, ReadFault>
    requires { (b : _) → IsItemOf value.now b.now → F.pre read b }
    ensures ok { IfOk result (λ xs. ListGiven (FnReturnsAt F.Fn read) value.now xs.items) }
    ensures fault { IfErr result (FaultIn (ListRefused (FnReturnsAt F.Fn read) value.now)) }
{
    match value {
        Value::Array(items) => items_of(alloc, items.as_slice(), &read),
        _ => Err(fault_here(alloc, Cause::WrongKind)),
    }
}

/// Calls `read` with the value of the entry under the key `word`: returns its answer, or its fault with the key before
/// the path.
#[tactic(auto, using(manifest_fault::proofs::Under::fault_under))]
fn entry_at<T: Drop, F: Fn(&Value) -> Result<T, ReadFault>>(
    alloc: Global,
    read: &F,
    value: &Value,
    word: &str,
) -> Result<T, ReadFault>
    requires { (b : _) → b.now ≡ value.now → F.pre read.now b }
    ensures ok { IfOk result (λ x. FnReturnsAt F.Fn read.now value.now (Ok x)) }
    ensures fault { IfErr result
        (FaultIn (under (key word.now) (Refused (FnReturnsAt F.Fn read.now) value.now))) }
{
    match read_at(read, value) {
        Ok(x) => Ok(x),
        Err(fault) => Err(fault_under_key(alloc, word, fault)),
    }
}

/// What the reader makes of the value of each entry, under its key; or its fault at the first value that it refuses,
/// with the key before the path.
fn entries_of<T: Drop, F: Fn(&Value) -> Result<T, ReadFault>>(
    alloc: Global,
    table: &Table,
    read: &F,
) -> Result<BTreeMap<String, T>, ReadFault>
    requires { (b : _) → Contains (values table.now) b.now → F.pre read.now b }
    ensures ok { IfOk result
        (λ m. EntriesGiven (FnReturnsAt F.Fn read.now) table.now.entries m.entries) }
    ensures fault { IfErr result
        (FaultIn (EntryRefused (FnReturnsAt F.Fn read.now) table.now.entries)) }
{
    let mut all = BTreeMap::new(alloc);
    for (key, value) in table.iter() {
        let x = entry_at(alloc, read, value, key.as_str())?;
        let name = String::from_str(alloc, key.as_str())?;
        drop(all.insert(name, x)?);
    }
    Ok(all)
}

/// Reads a table whose values a given reader reads: its answers under the same keys, in the same order.
///
/// The reader has to be callable on the value of each entry, which asks nothing where the table is empty or the value
/// is no table.
///
/// A value that is no table is refused at itself with `WrongKind`. Else the reader's fault at the first entry whose
/// value it refuses is reported, with the entry's key before its path. Running out of memory for a key or an answer is
/// a fault `Memory`.
///
/// ```ignore
/// let features = map_of(alloc, &value, |item| texts(alloc, item))?; // of `{ default = ["std"] }` one entry
/// ```
pub fn map_of<T: Drop, F: Fn(&Value) -> Result<T, ReadFault> + Drop>(
    alloc: Global,
    value: &Value,
    read: F,
) -> Result<BTreeMap<String, T>, ReadFault>
    requires { (b : _) → IsValueOf value.now b.now → F.pre read b }
    ensures ok { IfOk result (λ m. MapGiven (FnReturnsAt F.Fn read) value.now m.entries) }
    ensures fault { IfErr result (FaultIn (MapRefused (FnReturnsAt F.Fn read) value.now)) }
{
    match value {
        Value::Table(table) => entries_of(alloc, table, &read),
        _ => Err(fault_here(alloc, Cause::WrongKind)),
    }
}
