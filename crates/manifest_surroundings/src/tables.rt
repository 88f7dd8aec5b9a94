//! Values in tables.

use toml::{Table, Value};

pub(crate) fn table_in<'a>(table: &'a Table, key: &str) -> Option<&'a Table> {
    match table.get(key) {
        Some(Value::Table(inner)) => Some(inner),
        _ => None,
    }
}

pub(crate) fn text_in<'a>(table: &'a Table, key: &str) -> Option<&'a str> {
    match table.get(key) {
        Some(Value::String(text)) => Some(text.as_str()),
        _ => None,
    }
}

pub(crate) fn items_in<'a>(table: &'a Table, key: &str) -> &'a [Value] {
    match table.get(key) {
        Some(Value::Array(items)) => items.as_slice(),
        _ => &[],
    }
}

/// The text of a value, where it is one.
pub(crate) fn text_of(value: &Value) -> Option<&str> {
    match value {
        Value::String(text) => Some(text.as_str()),
        _ => None,
    }
}

/// The path to which `package.workspace` leads, as it is written.
pub(crate) fn pointer_in(document: &Table) -> Option<&str> {
    text_in(table_in(document, "package")?, "workspace")
}
