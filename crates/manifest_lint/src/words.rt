//! The words in which a fault of the schema is reported.

use crate::tables::{key_at, value_at};
use manifest_fault::{Cause, Choices, KeyPath, Step};
use std::alloc::{AllocError, Global};
use toml::{Table, Value};

/// The value's kind in words, with a text, a number or a boolean as it is.
fn found_words(alloc: Global, value: &Value) -> Result<String, AllocError> {
    match value {
        Value::String(text) => {
            let text = text.as_str();
            Ok(format!(in alloc; "string \"{text}\"")?)
        }
        Value::Integer(number) => Ok(format!(in alloc; "integer `{number}`")?),
        Value::Boolean(flag) => Ok(format!(in alloc; "boolean `{flag}`")?),
        Value::Float(_) => String::from_str(alloc, "floating point"),
        Value::Datetime(_) => String::from_str(alloc, "date-time"),
        Value::Array(_) => String::from_str(alloc, "array"),
        Value::Table(_) => String::from_str(alloc, "table"),
    }
}

/// Kinds of values in words, each with the keys that hold them.
const EXPECTED: &str = "\
a string: name version links description homepage documentation license license-file \
    repository rust-version default-run edition path git branch tag rev registry \
    registry-index package panic inherits split-debuginfo resolver level status
an array of strings: authors keywords categories exclude include members default-members \
    features required-features crate-type crate_type cargo-features
a boolean: autolib autobins autoexamples autotests autobenches test doctest bench doc \
    plugin proc-macro proc_macro harness optional default-features default_features workspace \
    rpath debug-assertions incremental overflow-checks
an integer: codegen-units priority
a table: dependencies dev-dependencies build-dependencies target lib profile badges lints \
    patch metadata
an array of tables: bin example
a string or a boolean: build readme
a boolean or an array of strings: publish
";

/// What the key of this name holds, in words; of a name that is not known here, nothing.
fn expected(key: &str) -> Option<&'static str> {
    for line in EXPECTED.lines() {
        if let Some((words, keys)) = line.split_once(": ") {
            if keys.split(' ').any(|known| known == key) {
                return Some(words);
            }
        }
    }
    None
}

/// The words of a choice, each in backquotes.
fn choices_words(alloc: Global, choices: Choices) -> Result<String, AllocError> {
    let mut words = String::new(alloc);
    let mut first = true;
    for choice in choices {
        if !first {
            words.push_str(", ")?;
        }
        first = false;
        words.push_str("`")?;
        words.push_str(choice)?;
        words.push_str("`")?;
    }
    Ok(words)
}

/// Why a value of another kind does not fit.
fn wrong_kind_words(alloc: Global, document: &Table, path: &KeyPath) -> Result<String, AllocError> {
    let found = match value_at(document, path.steps.as_slice()) {
        Some(value) => found_words(alloc, value)?,
        None => String::from_str(alloc, "value")?,
    };
    let name = key_at(path.steps.as_slice());
    match expected_at(path) {
        Some(expected) => Ok(format!(in alloc;
            "invalid type: {found}, expected {expected} for `{name}`"
        )?),
        None => Ok(format!(in alloc; "invalid type: {found} for `{name}`")?),
    }
}

/// What belongs at the path, in words: of an item of an array what its array holds.
fn expected_at(path: &KeyPath) -> Option<&'static str> {
    match path.steps.last()? {
        Step::Key(key) => expected(key.as_str()),
        Step::Index(_) => Some("a string"),
    }
}

/// Why a fault is one, in the words that Cargo has for it.
pub(crate) fn fault_message(
    alloc: Global,
    document: &Table,
    path: &KeyPath,
    cause: Cause,
    choices: Choices,
) -> Result<String, AllocError> {
    let name = key_at(path.steps.as_slice());
    match cause {
        Cause::WrongKind => wrong_kind_words(alloc, document, path),
        Cause::Missing => Ok(format!(in alloc; "missing field `{name}`")?),
        Cause::TwoSpellings => Ok(format!(in alloc;
            "`{name}` is written by both of its spellings"
        )?),
        Cause::NotAChoice => {
            let words = choices_words(alloc, choices)?;
            Ok(format!(in alloc; "`{name}` is none of its words: {words}")?)
        }
        Cause::OutOfRange => Ok(format!(in alloc; "the number of `{name}` is out of range")?),
        Cause::NotTrue => Ok(format!(in alloc; "`{name}` cannot be false")?),
        Cause::HoldsFloat => Ok(format!(in alloc;
            "`{name}` holds a floating point number, which is not kept"
        )?),
        Cause::Metadata => Ok(format!(in alloc; "`{name}` does not fit")?),
    }
}
