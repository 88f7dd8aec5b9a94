//! Changes of a document, made on its value.

ghost use Rattle.std.specs.Prelude.{◌≡◌, IfOk, option_map, is_some, map, string_bytes};
ghost use Rattle.toml.specs.View.{view, table_view, array_view};
ghost use Rattle.toml.specs.Data.{as_table, as_array, get_member};
ghost use Rattle.manifest_places.specs.Paths.{path_of};
ghost use Rattle.manifest_places.specs.Changes as spec;
ghost use Rattle.manifest_places.specs.Changes.{change_of, change_at_of, Makes};

use crate::step::Step;
use std::alloc::{AllocError, Global};
use std::mem;
use toml::{Table, Value};

/// What is done at one place.
#[derive(Drop)]
pub enum Change {
    /// Another value in the place of the one that is there.
    Set(Value),
    /// A new entry of the table that is there, which has none with this key.
    Insert(String, Value),
    /// The table that is there without its entry with this key.
    Remove(String),
    /// The entry with the first key gets the second one, with which there is none.
    Rename(String, String),
    /// A new item of the array that is there: at this index, before the one that is there or after the last one.
    InsertItem(usize, Value),
    /// The array that is there without its item at this index.
    RemoveItem(usize),
}

/// A change and the path that it is made at.
#[derive(Drop)]
pub struct ChangeAt {
    pub path: Vec<Step>,
    pub change: Change,
}

/// The value with each change made in turn, so that a path is one of the value that the earlier ones made, or `None`
/// where one of them cannot be made.
///
/// ```ignore
/// let new = with_changes(document, changes)?;
/// ```
pub fn with_changes(value: Value, changes: Vec<ChangeAt>) -> Result<Option<Value>, AllocError>
    ensures { IfOk result
        (λ made. option_map view made
        ≡ spec.with_changes (map change_at_of changes.items) (view value)) }
{
    let mut now = value;
    for change in changes {
        let Some(next) = with_change_at(now, change)? else {
            return Ok(None);
        };
        now = next;
    }
    Ok(Some(now))
}

fn with_change_at(value: Value, at: ChangeAt) -> Result<Option<Value>, AllocError>
    ensures { IfOk result (λ made. option_map view made
        ≡ spec.with_change (change_at_of at).0 (change_at_of at).1 (view value)) }
{
    let ChangeAt { path, change } = at;
    let made = with_change(value, path.as_slice(), change)?;
    Ok(made)
}

/// The value with the change made at the path, or `None` where it cannot be made there.
///
/// ```ignore
/// // [package] without its `edition`
/// let path = [Step::Key(String::from_str(alloc, "package")?)];
/// let new = with_change(document, &path, Change::Remove(String::from_str(alloc, "edition")?))?;
/// ```
#[cycle(one)]
pub fn with_change(value: Value, path: &[Step], change: Change) -> Result<Option<Value>, AllocError>
    ensures { IfOk result (λ made. option_map view made
        ≡ spec.with_change (path_of path.now) (change_of change) (view value)) }
{
    match path.split_first() {
        None => {
            let made = with_change_here(value, change)?;
            Ok(made)
        }
        Some((step, rest)) => match step {
            Step::Key(key) => {
                let Some(mut table) = table_in(value) else {
                    return Ok(None);
                };
                if change_member(&mut table, key.as_str(), rest, change)? {
                    Ok(Some(Value::Table(table)))
                } else {
                    Ok(None)
                }
            }
            Step::Index(index) => {
                let Some(mut items) = array_in(value) else {
                    return Ok(None);
                };
                if change_item(&mut items, *index, rest, change)? {
                    Ok(Some(Value::Array(items)))
                } else {
                    Ok(None)
                }
            }
        },
    }
}

/// The table that the value is.
fn table_in(value: Value) -> Option<Table>
    ensures { option_map table_view result ≡ as_table (view value) }
{
    match value {
        Value::Table(table) => Some(table),
        Value::String(_)
        | Value::Integer(_)
        | Value::Float(_)
        | Value::Boolean(_)
        | Value::Datetime(_)
        | Value::Array(_) => None,
    }
}

/// The array that the value is.
fn array_in(value: Value) -> Option<Vec<Value>>
    ensures { option_map array_view result ≡ as_array (view value) }
{
    match value {
        Value::Array(items) => Some(items),
        Value::String(_)
        | Value::Integer(_)
        | Value::Float(_)
        | Value::Boolean(_)
        | Value::Datetime(_)
        | Value::Table(_) => None,
    }
}

#[cycle(one)]
fn change_member(
    table: &mut Table,
    key: &str,
    path: &[Step],
    change: Change,
) -> Result<bool, AllocError>
    ensures { IfOk result (λ done. Makes (spec.change_member key.now
        (spec.with_change (path_of path.now) (change_of change)) (table_view table.old)) done
        (table_view table.new)) }
{
    match table.get_mut(key) {
        None => Ok(false),
        Some(slot) => {
            let inner = mem::replace(slot, Value::Boolean(false));
            match with_change(inner, path, change)? {
                None => Ok(false),
                Some(new) => {
                    *slot = new;
                    Ok(true)
                }
            }
        }
    }
}

#[cycle(one)]
fn change_item(
    items: &mut Vec<Value>,
    index: usize,
    path: &[Step],
    change: Change,
) -> Result<bool, AllocError>
    ensures { IfOk result (λ done. Makes (spec.change_item index
        (spec.with_change (path_of path.now) (change_of change)) (array_view items.old)) done
        (array_view items.new)) }
{
    if index >= items.len() {
        return Ok(false);
    }
    let slot = &mut items[index];
    let inner = mem::replace(slot, Value::Boolean(false));
    match with_change(inner, path, change)? {
        None => Ok(false),
        Some(new) => {
            *slot = new;
            Ok(true)
        }
    }
}

/// The value after the change.
fn with_change_here(value: Value, change: Change) -> Result<Option<Value>, AllocError>
    ensures { IfOk result
        (λ made. option_map view made ≡ spec.changed (change_of change) (view value)) }
{
    match change {
        Change::Set(new) => Ok(Some(new)),
        Change::Insert(key, new) => {
            let Some(mut table) = table_in(value) else {
                return Ok(None);
            };
            let done = inserted(&mut table, key, new)?;
            Ok(if done {
                Some(Value::Table(table))
            } else {
                None
            })
        }
        Change::Remove(key) => {
            let Some(mut table) = table_in(value) else {
                return Ok(None);
            };
            let done = taken(&mut table, key.as_str()).is_some();
            Ok(if done {
                Some(Value::Table(table))
            } else {
                None
            })
        }
        Change::Rename(key, name) => {
            let Some(mut table) = table_in(value) else {
                return Ok(None);
            };
            let done = renamed(&mut table, key.as_str(), name)?;
            Ok(if done {
                Some(Value::Table(table))
            } else {
                None
            })
        }
        Change::InsertItem(index, new) => with_item(value, index, new),
        Change::RemoveItem(index) => Ok(without_item(value, index)),
    }
}

/// The array with one more item, at this index.
fn with_item(value: Value, index: usize, new: Value) -> Result<Option<Value>, AllocError>
    ensures { IfOk result (λ made. option_map view made
        ≡ spec.in_array (spec.with_item index (view new)) (view value)) }
{
    let Some(mut items) = array_in(value) else {
        return Ok(None);
    };
    let done = item_inserted(&mut items, index, new)?;
    Ok(if done {
        Some(Value::Array(items))
    } else {
        None
    })
}

/// The array without its item at this index.
fn without_item(value: Value, index: usize) -> Option<Value>
    ensures { option_map view result ≡ spec.in_array (spec.without_item index) (view value) }
{
    let mut items = array_in(value)?;
    if item_removed(&mut items, index) {
        Some(Value::Array(items))
    } else {
        None
    }
}

/// One more item, at this index.
fn item_inserted(items: &mut Vec<Value>, index: usize, value: Value) -> Result<bool, AllocError>
    ensures { IfOk result (λ done. Makes
        (spec.with_item index (view value) (array_view items.old)) done (array_view items.new)) }
{
    if index > items.len() {
        return Ok(false);
    }
    items.insert(index, value)?;
    Ok(true)
}

/// The item taken out.
fn item_removed(items: &mut Vec<Value>, index: usize) -> bool
    ensures { Makes (spec.without_item index (array_view items.old)) result (array_view items.new) }
{
    if index >= items.len() {
        return false;
    }
    let _item = items.remove(index);
    true
}

/// One more entry, where there was none with the key.
fn inserted(table: &mut Table, key: String, value: Value) -> Result<bool, AllocError>
    ensures { IfOk result (λ done. Makes
        (spec.with_member (string_bytes key) (view value) (table_view table.old)) done
        (table_view table.new)) }
{
    if table.contains_key(key.as_str()) {
        return Ok(false);
    }
    match table.insert(key, value) {
        Ok(None) => Ok(true),
        Ok(Some(_)) => Ok(true),
        Err(_) => Err(AllocError),
    }
}

/// The value of the entry, which is taken out.
fn taken(table: &mut Table, key: &str) -> Option<Value>
    ensures value { option_map view result ≡ get_member key.now (table_view table.old) }
    ensures rest { Makes (spec.without_member key.now (table_view table.old)) (is_some result)
        (table_view table.new) }
{
    table.remove(key)
}

/// The entry with another key.
fn renamed(table: &mut Table, key: &str, name: String) -> Result<bool, AllocError>
    ensures { IfOk result (λ done. Makes
        (spec.with_name key.now (string_bytes name) (table_view table.old)) done
        (table_view table.new)) }
{
    let Some(value) = taken(table, key) else {
        return Ok(false);
    };
    let done = inserted(table, name, value)?;
    Ok(done)
}
