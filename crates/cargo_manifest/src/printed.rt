//! How long the document of a table is at most, counted before it is made.

ghost use Rattle.manifest_schema.specs.Prelude.{IsValueText, view, array_view, table_view};
ghost use Rattle.std.specs.Prelude.{◌≡◌, ◌+◌, List, ℕ, length, false, IfSome};
ghost use Rattle.cargo_manifest.specs.Printed as spec;

use std::fmt;
use std::fmt::{Display, Formatter, Write};
use toml::{Table, Value};
use toml_writer::write_key;

/// Counts the bytes of what is written to it, and keeps none of them: `toml` writes a key or a value to it, to learn
/// how long its text is.
#[derive(Drop)]
struct Count {
    bytes: usize,
}

/// Adds the length of what is written; fails above `usize::MAX`. The `ghost` line is its contract: how the count `t`
/// after writing `text` follows from the count `s` before.
impl Write for Count {
    ghost write_str_gives = { λ s text t. t.bytes ≡ s.bytes + length text };

    fn write_str(&mut self, s: &str) -> fmt::Result {
        match self.bytes.checked_add(s.len()) {
            Some(bytes) => {
                self.bytes = bytes;
                Ok(())
            }
            None => Err(fmt::Error),
        }
    }
}

/// How many bytes a key takes in a document, with a dot or a blank after it; `None` above `usize::MAX`.
fn key_size(key: &str) -> Option<usize>
    ensures { IfSome result (λ n. n ≡ spec.key_size key.now) }
{
    let mut f = Formatter::new(Count { bytes: 1 });
    match write_key(&mut f, key) {
        Ok(()) => Some(f.into_inner().bytes),
        Err(_) => None,
    }
}

/// How many bytes a value takes on the right of `=`: the length of a text that `toml` writes of it there; `None` above
/// `usize::MAX`.
fn shown_size(value: &Value) -> Option<usize>
    ensures { IfSome result (λ n.
        (text : List ℕ) × IsValueText false (view value.now) text × (n ≡ length text)) }
{
    let mut f = Formatter::new(Count { bytes: 0 });
    match value.fmt(&mut f) {
        Ok(()) => Some(f.into_inner().bytes),
        Err(_) => None,
    }
}

/// How many bytes a value takes in a document at most. `path` is the length of the keys above it, which the header of a
/// table repeats. `None` above `usize::MAX`.
#[cycle(printed)]
fn value_size(path: usize, value: &Value) -> Option<usize>
    ensures { IfSome result (λ n. n ≡ spec.printed_size path (view value.now)) }
{
    match value {
        Value::String(_) => shown_size(value),
        Value::Integer(_) => shown_size(value),
        Value::Float(_) => Some(0),
        Value::Boolean(_) => Some(5),
        Value::Datetime(_) => shown_size(value),
        Value::Array(items) => items_size(path, items)?.checked_add(2),
        Value::Table(members) => members_size(path, members)?
            .checked_add(path)?
            .checked_add(3),
    }
}

/// How many bytes the items of an array take at most, as [`value_size`] counts them.
#[cycle(printed)]
fn items_size(path: usize, items: &Vec<Value>) -> Option<usize>
    ensures { IfSome result (λ n. n ≡ spec.printed_items path (array_view items.now)) }
{
    let mut size = 0usize;
    for item in items {
        size = value_size(path, item)?.checked_add(2)?.checked_add(size)?;
    }
    Some(size)
}

/// How many bytes the entries of a table take at most, keys and values, as [`value_size`] counts them.
#[cycle(printed)]
fn members_size(path: usize, members: &Table) -> Option<usize>
    ensures { IfSome result (λ n. n ≡ spec.printed_members path (table_view members.now)) }
{
    let mut size = 0usize;
    for (key, member) in members.iter() {
        let key_size = key_size(key.as_str())?;
        let member_size = value_size(path.checked_add(key_size)?, member)?;
        size = key_size
            .checked_add(4)?
            .checked_add(member_size)?
            .checked_add(size)?;
    }
    Some(size)
}

/// How long the document of a table is at most, counted without making the text: `toml` writes no more bytes of it.
/// None where the number does not fit a `usize`.
///
/// ```ignore
/// let bound = printed_bound(&table); // of `name = "a"` 12, and the text has 11 bytes
/// ```
pub fn printed_bound(table: &Table) -> Option<usize>
    ensures { IfSome result (λ n. n ≡ spec.printed_bound (table_view table.now)) }
{
    members_size(0, table)
}
