//! Copies: each is equal to what it is copied from, and is written as it is.

use crate::answers::{answer_of_read, line_of_value, line_of_written, written_text};
use anyhow::bail;
use cargo_manifest::{
    Dependency, Edition, Error, Lint, Manifest, MaybeInherited, MaybeInheritedLintsSet, Publish,
    Schema, StringOrBool, Value,
};
use manifest_value::{Copied, copy_of};
use std::alloc::Global;

/// What is written of a copy; and a further line where the copy is not equal to the original.
fn copy_line<T: Schema + Copied + PartialEq>(alloc: Global, x: &T) -> anyhow::Result<String> {
    let copy = copy_of(x)?;
    let line = line_of_value(alloc, copy.to_value(alloc)?)?;
    if copy == *x {
        Ok(line)
    } else {
        Ok(format!(in alloc; "{line}\nwhich is not equal to it")?)
    }
}

/// What is written of a copy of the value of a text, read as a `T`, or how it is refused.
fn answer_as<T: Schema + Copied + PartialEq>(alloc: Global, text: &str) -> anyhow::Result<String> {
    let value = Value::from_str(alloc, text)?;
    let read: Result<T, Error> = T::from_value(alloc, &value);
    drop(value);
    match read {
        Ok(x) => copy_line(alloc, &x),
        refused => Ok(answer_of_read(alloc, refused)?),
    }
}

/// What is written of a copy of a value, read as one of the type of this name, or how it is refused.
pub fn answer(alloc: Global, of: &str, text: &str) -> anyhow::Result<String> {
    match of {
        "Dependency" => answer_as::<Dependency>(alloc, text),
        "StringOrBool" => answer_as::<StringOrBool>(alloc, text),
        "Publish" => answer_as::<Publish>(alloc, text),
        "MaybeInherited<Edition>" => answer_as::<MaybeInherited<Edition>>(alloc, text),
        "Lint" => answer_as::<Lint>(alloc, text),
        "MaybeInheritedLintsSet" => answer_as::<MaybeInheritedLintsSet>(alloc, text),
        "Manifest" => answer_as::<Manifest<Value, Value>>(alloc, text),
        "Value" => answer_as::<Value>(alloc, text),
        _ => bail!("there is no type of this name"),
    }
}

/// What is written of a clone; and a further line where the clone is not equal to the original.
fn clone_line(alloc: Global, manifest: &Manifest) -> anyhow::Result<String> {
    let clone = manifest.clone()?;
    let is_equal = clone == *manifest;
    let written = written_text(alloc, &clone);
    drop(clone);
    let line = line_of_written(alloc, &written?)?;
    if is_equal {
        Ok(line)
    } else {
        Ok(format!(in alloc; "{line}\nwhich is not equal to it")?)
    }
}

/// What is written of a clone of the manifest of a document.
pub fn clone_of_manifest(alloc: Global, document: &str) -> anyhow::Result<String> {
    let manifest = Manifest::from_str(alloc, document)?;
    let line = clone_line(alloc, &manifest);
    drop(manifest);
    line
}
