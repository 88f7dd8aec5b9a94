//! A walk over a table, and the readers of its rows, by their names.

use crate::errors::push_read_fault;
use crate::lines::{push_displayed, push_flag, push_line, push_made};
use cargo_manifest::ReadFault;
use manifest_json::Text;
use manifest_value::entries::Key;
use manifest_value::maps::map_of_entries;
use manifest_value::row_readers::{
    read_default, read_lenient, read_lenient_default, read_optional, read_required, read_tree,
};
use manifest_value::{RowSlot, Schema, Source, Spellings, TableSource, Walk, spelled, walk};
use std::alloc::{AllocError, Global};
use std::collections::BTreeMap;
use toml::Value;

/// A row of two spellings, and two of one.
static ROWS: [Spellings; 3] = spelled!["a-b" | "a_b", "c", "d"];

/// A table that has both spellings of the first row, the second row, and a key that no row has.
const ENTRIES: &str = "a-b = 1\na_b = 2\nz = 3\nc = 4";

/// Writes what stands in the slot of a row, and whether it is borrowed or owned.
fn push_slot(slot: &RowSlot<'_>, out: &mut Text) {
    match slot {
        RowSlot::Absent => out.push_str("absent;"),
        RowSlot::One { spelling, value } => {
            out.push_str(spelling);
            out.push_str(match value {
                Source::Owned(Value::Integer(4)) => " is a taken 4;",
                Source::Borrowed(Value::Integer(4)) => " is a borrowed 4;",
                _ => " is something else;",
            });
        }
        RowSlot::Clash => out.push_str("clash;"),
    }
}

/// Writes what a walk found: the slots in a line, and a line for each key that no row has.
fn push_walk(alloc: Global, walk: &Walk<'_>, out: &mut Text) {
    for slot in &walk.slots {
        push_slot(slot, out);
    }
    out.push('\n');
    for (key, value) in &walk.rest {
        out.push_str(key.as_str());
        out.push(' ');
        push_displayed(alloc, value.value(), out);
    }
}

/// Writes what a walk over a table finds that is shared, and over one that is taken.
pub fn push_walks(alloc: Global, out: &mut Text) -> anyhow::Result<()> {
    let table = toml::table_from_str(alloc, ENTRIES)?;
    if let Some(shared) = out.made(walk(alloc, TableSource::Borrowed(&table), &ROWS)) {
        push_walk(alloc, &shared, out);
    }
    if let Some(taken) = out.made(walk(alloc, TableSource::Owned(table), &ROWS)) {
        push_walk(alloc, &taken, out);
    }
    Ok(())
}

/// Writes a key that is taken, by reference and by value, and one that is shared.
pub fn push_keys(alloc: Global, out: &mut Text) -> Result<(), AllocError> {
    let taken = Key::Owned(String::from_str(alloc, "serde")?);
    push_line(taken.as_str(), out);
    push_made(taken.into_string(alloc), out);
    push_made(Key::Borrowed("serde").into_string(alloc), out);
    Ok(())
}

/// Writes the text that a source has, or how it is refused.
fn push_text_of(alloc: Global, source: Source<'_>, out: &mut Text) {
    match String::read(alloc, source) {
        Ok(text) => push_line(text.as_str(), out),
        Err(fault) => push_read_fault(alloc, fault, out),
    }
}

/// Writes how many entries the table of a source has, and whether it is taken; or how it is refused.
fn push_table_of(alloc: Global, source: Source<'_>, out: &mut Text) {
    match source.into_table(alloc) {
        Ok(found) => {
            out.push_number(found.table().len());
            push_flag(
                " entries, taken",
                matches!(found, TableSource::Owned(_)),
                out,
            );
        }
        Err(fault) => push_read_fault(alloc, fault, out),
    }
}

/// Whether the value of a source is a text.
fn is_text(source: Source<'_>) -> bool {
    matches!(source.value(), Value::String(_))
}

/// Whether a flag is read of a source.
fn reads_true(alloc: Global) -> bool {
    matches!(
        bool::read(alloc, Source::Owned(Value::Boolean(true))),
        Ok(true)
    )
}

/// Writes what is read of a text that is shared or taken, and how it is refused as a table.
pub fn push_sources(alloc: Global, out: &mut Text) -> Result<(), AllocError> {
    let value = Value::string(alloc, "serde")?;
    push_flag("is a text", is_text(Source::Borrowed(&value)), out);
    push_text_of(alloc, Source::Borrowed(&value), out);
    if let Some(copy) = out.made(value.clone()) {
        push_text_of(alloc, Source::Owned(copy), out);
    }
    push_table_of(alloc, Source::Owned(value), out);
    push_flag("reads true", reads_true(alloc), out);
    Ok(())
}

/// Writes what is read of a table that is shared or taken.
pub fn push_tables(alloc: Global, out: &mut Text) -> anyhow::Result<()> {
    let table = Value::Table(toml::table_from_str(alloc, ENTRIES)?);
    push_table_of(alloc, Source::Borrowed(&table), out);
    push_table_of(alloc, Source::Owned(table), out);
    Ok(())
}

/// Rows of one spelling, the last of which is not there.
static READ: [Spellings; 7] = spelled!["a", "b", "c", "d", "e", "f", "missing"];

/// Rows of `READ`, and a key that no row has.
const READ_FROM: &str = "a = true\nb = true\nc = true\nd = 6\ne = 1\nf = 1\nother = true";

/// A slot with this value.
fn slot_of(value: Value) -> RowSlot<'static> {
    RowSlot::One {
        spelling: "a",
        value: Source::Owned(value),
    }
}

/// Whether a row was read.
fn is_read(read: Result<(), ReadFault>) -> bool {
    match read {
        Ok(()) => true,
        Err(_) => false,
    }
}

/// Whether a row that has to be there is read.
fn reads_required(alloc: Global) -> bool {
    let mut flag = false;
    let mut there = slot_of(Value::Boolean(true));
    is_read(read_required(alloc, "a", &mut there, &mut flag)) & flag
}

/// Whether a row that may be absent is read.
fn reads_optional(alloc: Global) -> bool {
    let mut place: Option<bool> = None;
    let mut there = slot_of(Value::Boolean(true));
    is_read(read_optional(alloc, "a", &mut there, &mut place)) & (place == Some(true))
}

/// Whether a row that has a default is read where it is there.
fn reads_default(alloc: Global) -> bool {
    let mut flag = true;
    let mut there = slot_of(Value::Boolean(false));
    is_read(read_default(alloc, "a", &mut there, &mut flag, true)) & !flag
}

/// The value of a row that is kept as it is.
fn tree_of_row(alloc: Global) -> Option<Value> {
    let mut tree: Option<Value> = None;
    let mut there = slot_of(Value::Integer(6));
    let read = is_read(read_tree(alloc, "a", &mut there, &mut tree));
    if read { tree } else { None }
}

/// Writes whether each reader reads its row.
pub fn push_readers(alloc: Global, out: &mut Text) {
    push_flag("required", reads_required(alloc), out);
    push_flag("optional", reads_optional(alloc), out);
    push_flag("default", reads_default(alloc), out);
    match tree_of_row(alloc) {
        Some(tree) => push_displayed(alloc, &tree, out),
        None => push_line("no tree", out),
    }
}

/// Whether a row that is passed over where it does not fit leaves nothing in its place.
fn passes_over(alloc: Global) -> bool {
    let mut place: Option<bool> = Some(true);
    let mut unfit = slot_of(Value::Integer(1));
    is_read(read_lenient(alloc, &mut unfit, &mut place)) & (place == None)
}

/// Whether a row that does not fit is given its default.
fn gives_default(alloc: Global) -> bool {
    let mut flag = false;
    let mut unfit = slot_of(Value::Integer(1));
    is_read(read_lenient_default(alloc, &mut unfit, &mut flag, true)) & flag
}

/// Writes how a missing row is refused, and whether that leaves its place.
fn push_missing(alloc: Global, out: &mut Text) {
    let mut flag = true;
    let mut missing = RowSlot::Absent;
    match read_required(alloc, "a", &mut missing, &mut flag) {
        Ok(()) => push_line("accepted", out),
        Err(fault) => push_read_fault(alloc, fault, out),
    }
    push_flag("its place is left", flag, out);
}

/// Writes what becomes of rows that do not fit or are missing.
pub fn push_unfit(alloc: Global, out: &mut Text) {
    push_flag("passed over", passes_over(alloc), out);
    push_flag("given its default", gives_default(alloc), out);
    push_missing(alloc, out);
}

/// Writes how many entries a map of flags has, and that of one key.
fn push_flags_by_key(flags: &BTreeMap<String, bool>, out: &mut Text) {
    out.push_number(flags.len());
    push_flag(
        " entry, other",
        flags.get("other").copied() == Some(true),
        out,
    );
}

/// Writes the map that is read of the rest of a walk.
pub fn push_rest(alloc: Global, out: &mut Text) -> anyhow::Result<()> {
    let table = toml::table_from_str(alloc, READ_FROM)?;
    let walk = walk(alloc, TableSource::Borrowed(&table), &READ)?;
    match map_of_entries::<bool>(alloc, walk.rest) {
        Ok(map) => push_flags_by_key(&map, out),
        Err(fault) => push_read_fault(alloc, fault, out),
    }
    Ok(())
}
