//! Answers as texts.

use cargo_manifest::{Error, Manifest, Metadata, ParseFault, Schema, Value};
use std::alloc::{AllocError, Global};
use std::io::ErrorKind;
use std::str::Utf8Error;

/// How bytes are refused that are not UTF-8: where, and how many are wrong, or that the end of a character is missing.
fn utf8_text(alloc: Global, fault: &Utf8Error) -> Result<String, AllocError> {
    let at = fault.valid_up_to();
    match fault.error_len() {
        Some(wrong) => format!(in alloc; "error: utf8 at {at}, {wrong} wrong"),
        None => format!(in alloc; "error: utf8 at {at}, cut short"),
    }
}

/// The kind of a fault of a file or of a folder, in words.
fn words_of_kind(kind: ErrorKind) -> &'static str {
    match kind {
        ErrorKind::NotFound => "not found",
        ErrorKind::OutOfMemory => "out of memory",
        ErrorKind::Other => "other",
        _ => "another kind",
    }
}

/// How a refusal is answered: the cause and the path of a fault of the schema, else what refused.
pub fn error_text(alloc: Global, error: &Error) -> Result<String, AllocError> {
    match error {
        Error::Parse(ParseFault::Schema(fault)) => {
            let cause = fault.cause.as_str();
            let path = fault.path.to_text(alloc)?;
            format!(in alloc; "error: {cause} at {path}")
        }
        Error::Parse(ParseFault::Toml(_)) => String::from_str(alloc, "error: toml"),
        Error::Utf8(fault) => utf8_text(alloc, fault),
        Error::Io(fault) => {
            let kind = words_of_kind(fault.kind());
            format!(in alloc; "error: io, {kind}")
        }
        Error::Memory(_) => String::from_str(alloc, "error: memory"),
        Error::Other(text) => format!(in alloc; "error: other: {text}"),
    }
}

/// How something was refused whose error is needed no more.
pub fn reported(alloc: Global, error: Error) -> Result<String, AllocError> {
    let text = error_text(alloc, &error);
    drop(error);
    text
}

/// The value of a text, read as a `T`.
pub fn read_as<T: Schema>(alloc: Global, text: &str) -> anyhow::Result<T> {
    let value = Value::from_str(alloc, text)?;
    Ok(T::from_value(alloc, &value)?)
}

/// A value in one line.
pub fn value_line(alloc: Global, value: &Value) -> Result<String, AllocError> {
    format!(in alloc; "{value}")
}

/// A value in one line that is needed no more.
pub fn line_of_value(alloc: Global, value: Value) -> Result<String, AllocError> {
    let line = value_line(alloc, &value);
    drop(value);
    line
}

/// What is written of a value that was read, or how it was refused.
pub fn answer_of_value<T: Schema>(
    alloc: Global,
    read: &Result<T, Error>,
) -> Result<String, AllocError> {
    match read {
        Ok(x) => line_of_value(alloc, x.to_value(alloc)?),
        Err(error) => error_text(alloc, error),
    }
}

/// The same for a value that is needed no more.
pub fn answer_of_read<T: Schema>(
    alloc: Global,
    read: Result<T, Error>,
) -> Result<String, AllocError> {
    let answer = answer_of_value(alloc, &read);
    drop(read);
    answer
}

/// What is written of a manifest, or how it was refused.
#[derive(PartialEq, Eq)]
pub enum Written {
    Text(String),
    Refusal(String),
}

// (by hand, so that a call drops it where it goes out of scope: there is less to prove)
impl Drop for Written {
    fn drop(self) {
        match self {
            Written::Text(_) => {}
            Written::Refusal(_) => {}
        }
    }
}

impl Written {
    /// Whether this text is written.
    pub fn is_text(&self, text: &str) -> bool {
        match self {
            Written::Text(written) => written.as_str() == text,
            Written::Refusal(_) => false,
        }
    }
}

/// What is written of a manifest.
pub fn written_text<P: Metadata, W: Metadata>(
    alloc: Global,
    manifest: &Manifest<P, W>,
) -> Result<Written, AllocError> {
    match manifest.to_toml_string(alloc) {
        Ok(text) => Ok(Written::Text(text)),
        Err(error) => Ok(Written::Refusal(reported(alloc, error)?)),
    }
}

/// The table of a text that was written, in one line; and a further line where `toml` lays this table out otherwise.
pub fn table_line(alloc: Global, text: &str) -> anyhow::Result<String> {
    let table = toml::table_from_str(alloc, text)?;
    let is_usual = toml::table_to_string(alloc, &table)?.as_str() == text;
    line_of_table(alloc, &Value::Table(table), is_usual)
}

/// A table in one line; and a further line where its text is not the usual one.
fn line_of_table(alloc: Global, table: &Value, is_usual: bool) -> anyhow::Result<String> {
    let line = value_line(alloc, table)?;
    if is_usual {
        Ok(line)
    } else {
        Ok(format!(in alloc; "{line}\nwhich is laid out otherwise")?)
    }
}

/// The line of what was written, or how it was refused.
pub fn line_of_written(alloc: Global, written: &Written) -> anyhow::Result<String> {
    match written {
        Written::Text(text) => table_line(alloc, text.as_str()),
        Written::Refusal(refusal) => Ok(refusal.clone()?),
    }
}

/// Texts, a line each, or the word for none.
pub fn lines_or_none(alloc: Global, lines: &str) -> Result<String, AllocError> {
    let text = lines.strip_suffix("\n").unwrap_or(lines);
    String::from_str(alloc, if text.is_empty() { "none" } else { text })
}
