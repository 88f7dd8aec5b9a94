//! Readers of values, by their names.

use crate::answers::{line_of_value, reported, value_line};
use anyhow::bail;
use cargo_manifest::{ReadFault, Schema, Value};
use manifest_fault::error::refusal;
use manifest_value::{
    boolean, field, list_of, map_of, table, text, texts, whole, write_list, write_map,
};
use std::alloc::{AllocError, Global};
use std::collections::BTreeMap;

/// What is written of what a reader read, or how it refused.
fn answer_of<T: Schema>(alloc: Global, read: Result<T, ReadFault>) -> Result<String, AllocError> {
    match read {
        Ok(x) => line_of_value(alloc, x.to_value(alloc)?),
        Err(fault) => reported(alloc, refusal(fault)),
    }
}

/// How many entries a table has, or how another value is refused.
fn answer_of_table(alloc: Global, value: &Value) -> Result<String, AllocError> {
    match table(alloc, value) {
        Ok(entries) => {
            let count = entries.len();
            format!(in alloc; "{count}")
        }
        Err(fault) => reported(alloc, refusal(fault)),
    }
}

/// A whole number between two limits that stand with a blank between them, or how a value is refused.
fn answer_of_whole(alloc: Global, value: &Value, limits: &str) -> anyhow::Result<String> {
    let (low, high) = limits.split_once(" ").unwrap_or((limits, ""));
    let read = whole(alloc, value, low.parse::<i64>()?, high.parse::<i64>()?);
    match read {
        Ok(number) => Ok(format!(in alloc; "{number}")?),
        Err(fault) => Ok(reported(alloc, refusal(fault))?),
    }
}

/// The field `crate-type` of a table, with a second spelling or without, or how it is refused.
fn answer_of_field(alloc: Global, value: &Value, second: Option<&str>) -> anyhow::Result<String> {
    match value {
        Value::Table(entries) => match field(alloc, entries, "crate-type", second) {
            Ok(Some(found)) => Ok(value_line(alloc, found)?),
            Ok(None) => Ok(String::from_str(alloc, "absent")?),
            Err(fault) => Ok(reported(alloc, refusal(fault))?),
        },
        _ => bail!("a field stands in a table"),
    }
}

/// A list of numbers from 0 to 3, read and written item by item.
fn answer_of_list(alloc: Global, value: &Value) -> Result<String, AllocError> {
    let level = |item: &Value| whole(alloc, item, 0, 3);
    match list_of(alloc, value, level) {
        Ok(levels) => {
            let levels: Vec<i64> = levels;
            let written = write_list(alloc, levels.as_slice(), |level| Ok(Value::Integer(*level)));
            line_of_value(alloc, written?)
        }
        Err(fault) => reported(alloc, refusal(fault)),
    }
}

/// A map of numbers from 0 to 3, read and written entry by entry.
fn answer_of_map(alloc: Global, value: &Value) -> Result<String, AllocError> {
    let level = |item: &Value| whole(alloc, item, 0, 3);
    match map_of(alloc, value, level) {
        Ok(levels) => {
            let levels: BTreeMap<String, i64> = levels;
            let written = write_map(alloc, &levels, |level| Ok(Value::Integer(*level)));
            line_of_value(alloc, written?)
        }
        Err(fault) => reported(alloc, refusal(fault)),
    }
}

/// What the reader of this name answers, if it takes a value alone.
fn answer_of_reader(
    alloc: Global,
    reader: &str,
    value: &Value,
) -> Option<Result<String, AllocError>> {
    match reader {
        "text" => Some(answer_of(alloc, text(alloc, value))),
        "boolean" => Some(answer_of(alloc, boolean(alloc, value))),
        "texts" => Some(answer_of(alloc, texts(alloc, value))),
        "table" => Some(answer_of_table(alloc, value)),
        "list" => Some(answer_of_list(alloc, value)),
        "map" => Some(answer_of_map(alloc, value)),
        _ => None,
    }
}

/// What the reader of this name answers, by what stands after the name.
fn answer_by(alloc: Global, reader: &str, limits: &str, value: &Value) -> anyhow::Result<String> {
    match reader {
        "whole" => answer_of_whole(alloc, value, limits),
        "field" => answer_of_field(alloc, value, None),
        "field-of-two" => answer_of_field(alloc, value, Some("crate_type")),
        _ => match answer_of_reader(alloc, reader, value) {
            Some(answer) => Ok(answer?),
            None => bail!("there is no reader of this name"),
        },
    }
}

/// What the reader of this name answers.
pub fn answer(alloc: Global, of: &str, shown: &str) -> anyhow::Result<String> {
    let value = Value::from_str(alloc, shown)?;
    let (reader, limits) = of.split_once(" ").unwrap_or((of, ""));
    let answer = answer_by(alloc, reader, limits, &value);
    drop(value);
    answer
}
