//! What is written of a value: a tree that borrows its texts from it.

ghost use Rattle.manifest_schema.specs.Prelude.{view, table_view, put, array};
ghost use Rattle.std.specs.Prelude.{◌≡◌, IsTrue, IfOk, OnOk};
ghost use Rattle.manifest_written.specs.Written.{written_view, list_view, pairs_view, ascends, list_ascends, pairs_ascend};

use std::alloc::{AllocError, Global};
use std::cmp::Ordering;
use toml::{Table, Value};

/// The entries of a table that is written: each key with what is written under it.
pub type Pairs<'a> = Vec<(&'a str, Written<'a>)>;

/// What is written of a value: a tree that borrows its texts, and whatever of it is kept as a tree, from the value.
///
/// ```ignore
/// let written = Written::List(items); // of `["a", true]`, with `Written::Text("a")` and `Written::Boolean(true)`
/// ```
#[derive(Debug, Drop)]
pub enum Written<'a> {
    /// A text.
    Text(&'a str),
    /// A whole number.
    Integer(i64),
    /// True or false.
    Boolean(bool),
    /// A list: its items.
    List(Vec<Written<'a>>),
    /// A table: its entries, whose keys have to ascend.
    Table(Vec<(&'a str, Written<'a>)>),
    /// A tree as it is.
    Value(&'a Value),
}

/// Puts an entry into a table, at the place of its key; in place of what stands under the same key.
///
/// It fails only when out of memory, and the table is then as it was.
///
/// ```ignore
/// put_entry(&mut pairs, "name", Written::Text(package.name.as_str()))?;
/// ```
pub fn put_entry<'a>(
    pairs: &mut Pairs<'a>,
    key: &'a str,
    value: Written<'a>,
) -> Result<(), AllocError>
    ensures put { OnOk result (pairs_view pairs.new.items
        ≡ put key.now (written_view value.entry) (pairs_view pairs.old.items)) }
    ensures ascend { IsTrue (ascends value.entry) → IsTrue (pairs_ascend pairs.old.items)
        → OnOk result (IsTrue (pairs_ascend pairs.new.items)) }
{
    for i in 0..pairs.len() {
        match key.cmp(pairs[i].0) {
            Ordering::Less => {
                pairs.insert(i, (key, value))?;
                return Ok(());
            }
            Ordering::Equal => {
                pairs[i].1 = value;
                return Ok(());
            }
            Ordering::Greater => {}
        }
    }
    pairs.push((key, value))?;
    Ok(())
}

/// The value that is written: a tree of its own, with copies of the texts. It fails only when out of memory.
///
/// ```ignore
/// let value = value_of(alloc, &Written::Text("a"))?; // `'a'`
/// ```
#[cycle(values)]
#[tactic(auto, using(crate::proofs::WrittenLemmas::written_levels))]
pub fn value_of(alloc: Global, written: &Written<'_>) -> Result<Value, AllocError>
    ensures { IsTrue (ascends written.now)
        → IfOk result (λ v. view v ≡ written_view written.now) }
{
    match written {
        Written::Text(text) => Value::string(alloc, text),
        Written::Integer(number) => Ok(Value::Integer(*number)),
        Written::Boolean(flag) => Ok(Value::Boolean(*flag)),
        Written::List(items) => array_of(alloc, items.as_slice()),
        Written::Table(pairs) => Ok(Value::Table(table_of(alloc, pairs.as_slice())?)),
        Written::Value(value) => (*value).clone(),
    }
}

/// The array of these items.
#[cycle(values)]
fn array_of(alloc: Global, items: &[Written<'_>]) -> Result<Value, AllocError>
    ensures { IsTrue (list_ascends items.now)
        → IfOk result (λ v. view v ≡ array (list_view items.now)) }
{
    let mut out = Vec::with_capacity(alloc, items.len())?;
    for item in items {
        out.push(value_of(alloc, item)?)?;
    }
    Ok(Value::Array(out))
}

/// The table of these entries, with copies of the keys and the texts. It fails only when out of memory.
///
/// ```ignore
/// let table = table_of(alloc, &[("name", Written::Text("a"))])?; // `name = 'a'`
/// ```
#[cycle(values)]
pub fn table_of(alloc: Global, pairs: &[(&str, Written<'_>)]) -> Result<Table, AllocError>
    ensures { IsTrue (pairs_ascend pairs.now)
        → IfOk result (λ t. table_view t ≡ pairs_view pairs.now) }
{
    let mut out = Table::new(alloc);
    for (key, item) in pairs {
        let value = value_of(alloc, item)?;
        drop(out.insert(String::from_str(alloc, key)?, value)?);
    }
    Ok(out)
}
