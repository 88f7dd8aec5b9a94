//! Rows, lists and maps that are written, and values that are read under a key, by the names of the calls.

use crate::answers::read_as;
use crate::errors::push_read_fault;
use crate::lines::{push_displayed, push_made_displayed, push_value};
use cargo_manifest::Schema;
use manifest_json::Text;
use manifest_value::maps::{map_of_list, map_written};
use manifest_value::metadata::put_tree;
use manifest_value::rows::{put_nonempty, put_optional, put_row, put_unless, read_under};
use manifest_value::{write_list, write_map, write_text, write_texts};
use manifest_written::{Pairs, table_of};
use std::alloc::{AllocError, Global};
use std::collections::BTreeMap;
use toml::{Table, Value};

/// Writes what is written of the value of a text, read as a `T` under a key, or how it is refused.
fn push_under<T: Schema>(alloc: Global, text: &str, out: &mut Text) -> anyhow::Result<()> {
    let value = Value::from_str(alloc, text)?;
    match read_under::<T>(alloc, &value, "k") {
        Ok(x) => push_value(alloc, &x, out),
        Err(fault) => push_read_fault(alloc, fault, out),
    }
    Ok(())
}

/// Writes what is read under a key.
pub fn push_values_under_a_key(alloc: Global, out: &mut Text) -> anyhow::Result<()> {
    push_under::<bool>(alloc, "true", out)?;
    push_under::<bool>(alloc, "1", out)?;
    push_under::<Vec<u16>>(alloc, "[1, 65536]", out)?;
    push_under::<()>(alloc, "{}", out)?;
    push_value(alloc, &(), out);
    Ok(())
}

/// Values of rows.
#[derive(Drop)]
struct RowValues {
    yes: bool,
    no: bool,
    one: u16,
    text: Option<String>,
    no_text: Option<String>,
    list: Vec<u16>,
    no_list: Vec<u16>,
    tree: Option<Value>,
    no_tree: Option<Value>,
}

/// Those that are written.
fn values_of_rows(alloc: Global, tree: Value) -> Result<RowValues, AllocError> {
    Ok(RowValues {
        yes: true,
        no: false,
        one: 1,
        text: Some(String::from_str(alloc, "a")?),
        no_text: None,
        list: Vec::from_array(alloc, [65535])?,
        no_list: Vec::new(alloc),
        tree: Some(tree),
        no_tree: None,
    })
}

/// Writes a row twice, a number that is left out and one that is not, a text, and none.
fn put_scalars<'a>(
    alloc: Global,
    pairs: &mut Pairs<'a>,
    values: &'a RowValues,
) -> Result<(), AllocError> {
    put_row(alloc, pairs, "row", &values.yes)?;
    put_row(alloc, pairs, "row", &values.no)?;
    put_unless(alloc, pairs, "unless", false, &values.one)?;
    put_unless(alloc, pairs, "skipped", true, &values.one)?;
    put_optional(alloc, pairs, "optional", &values.text)?;
    put_optional(alloc, pairs, "absent", &values.no_text)
}

/// Writes a list and an empty one, a tree and none.
fn put_trees<'a>(
    alloc: Global,
    pairs: &mut Pairs<'a>,
    values: &'a RowValues,
) -> Result<(), AllocError> {
    put_nonempty(alloc, pairs, "empty", &values.no_list)?;
    put_nonempty(alloc, pairs, "list", &values.list)?;
    put_tree(alloc, pairs, "tree", &values.tree)?;
    put_tree(alloc, pairs, "no-tree", &values.no_tree)
}

/// A table of rows that are written: one key twice, and four rows that are left out.
fn table_of_rows(alloc: Global, values: &RowValues) -> Result<Table, AllocError> {
    let mut pairs = Vec::new(alloc);
    put_scalars(alloc, &mut pairs, values)?;
    put_trees(alloc, &mut pairs, values)?;
    table_of(alloc, pairs.as_slice())
}

/// Writes that table.
pub fn push_rows(alloc: Global, out: &mut Text) -> anyhow::Result<()> {
    let tree = Value::from_str(alloc, "{ a = [1] }")?;
    let values = values_of_rows(alloc, tree)?;
    let table = table_of_rows(alloc, &values);
    drop(values);
    push_displayed(alloc, &Value::Table(table?), out);
    Ok(())
}

/// The table of a map.
fn table_of_map(alloc: Global, map: &BTreeMap<String, i8>) -> Result<Table, AllocError> {
    let pairs = map_written(alloc, map)?;
    table_of(alloc, pairs.as_slice())
}

/// Writes the table of a map.
fn push_map(alloc: Global, map: &BTreeMap<String, i8>, out: &mut Text) {
    if let Some(table) = out.made(table_of_map(alloc, map)) {
        push_displayed(alloc, &Value::Table(table), out);
    }
}

/// Writes the tables of maps: of one without an entry, of one with two, and of one of no list.
pub fn push_maps(alloc: Global, out: &mut Text) -> anyhow::Result<()> {
    push_map(alloc, &BTreeMap::new(alloc), out);
    let levels: BTreeMap<String, i8> = read_as(alloc, "{ b = 127, a = -128 }")?;
    push_map(alloc, &levels, out);
    if let Some(map) = out.made(map_of_list(alloc, Vec::new(alloc))) {
        push_map(alloc, &map, out);
    }
    Ok(())
}

/// Writes a text, no texts and two, the lesser one last.
fn push_texts(alloc: Global, out: &mut Text) -> anyhow::Result<()> {
    push_made_displayed(alloc, write_text(alloc, "a"), out);
    push_made_displayed(alloc, write_texts(alloc, &[]), out);
    let texts: Vec<String> = read_as(alloc, "['b', 'a']")?;
    push_made_displayed(alloc, write_texts(alloc, texts.as_slice()), out);
    Ok(())
}

/// Writes a list of flags.
fn push_flags(alloc: Global, out: &mut Text) {
    let flags = write_list(
        alloc,
        [true, false].as_slice(),
        |flag| Ok(Value::Boolean(*flag)),
    );
    push_made_displayed(alloc, flags, out);
}

/// Writes a map of numbers.
fn push_numbers(alloc: Global, numbers: &BTreeMap<String, i8>, out: &mut Text) {
    let written = write_map(
        alloc,
        numbers,
        |number| Ok(Value::Integer(i64::from(*number))),
    );
    push_made_displayed(alloc, written, out);
}

/// Writes what the writers write by their names: texts, a list of flags and a map of numbers.
pub fn push_writers(alloc: Global, out: &mut Text) -> anyhow::Result<()> {
    push_texts(alloc, out)?;
    push_flags(alloc, out);
    let numbers: BTreeMap<String, i8> = read_as(alloc, "{ b = 2, a = 1 }")?;
    push_numbers(alloc, &numbers, out);
    Ok(())
}
