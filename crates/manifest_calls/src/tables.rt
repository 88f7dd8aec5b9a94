//! How deep a table is and how long its text is at most, and the texts of key paths.

use anyhow::bail;
use cargo_manifest::{KeyPath, Step, Value, depth, printed_bound};
use std::alloc::Global;
use toml::Table;

/// How deep the table of a document is, up to a limit.
pub fn depth_up_to(alloc: Global, limit: &str, document: &str) -> anyhow::Result<String> {
    let table = toml::table_from_str(alloc, document)?;
    let deepest = depth(&table, limit.parse::<usize>()?);
    Ok(format!(in alloc; "{deepest}")?)
}

/// The bound of a document and the length of what `toml` prints; and a further line where that is another text.
pub fn bound(alloc: Global, document: &str) -> anyhow::Result<String> {
    let table = toml::table_from_str(alloc, document)?;
    let line = line_of_bound(alloc, &table, document);
    drop(table);
    line
}

/// The same for the table of the document.
fn line_of_bound(alloc: Global, table: &Table, document: &str) -> anyhow::Result<String> {
    let printed = toml::table_to_string(alloc, table)?;
    let length = printed.len();
    match printed_bound(table) {
        Some(bound) if printed.as_str() == document => {
            Ok(format!(in alloc; "{length} of at most {bound}")?)
        }
        Some(bound) => Ok(format!(in alloc; "{length} of at most {bound}\nof another text")?),
        None => Ok(String::from_str(alloc, "no bound")?),
    }
}

/// A step of a path: a text is a key, and a whole number an index.
fn step(alloc: Global, value: &Value) -> anyhow::Result<Step> {
    match value {
        Value::String(key) => Ok(Step::Key(String::from_str(alloc, key.as_str())?)),
        Value::Integer(index) => Ok(Step::Index(usize::try_from(*index)?)),
        _ => bail!("a step is a text or a whole number"),
    }
}

/// The text of the path of a list of steps.
pub fn path(alloc: Global, text: &str) -> anyhow::Result<String> {
    let mut steps = Vec::new(alloc);
    match Value::from_str(alloc, text)? {
        Value::Array(values) => {
            for value in &values {
                steps.push(step(alloc, value)?)?;
            }
        }
        _ => bail!("a path is a list"),
    }
    Ok(KeyPath { steps }.to_text(alloc)?)
}
