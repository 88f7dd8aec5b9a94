//! What is said of a manifest that is checked, as values.

ghost use Rattle.manifest_schema.specs.Prelude.{Data, view};
ghost use Rattle.std.specs.Prelude.{◌≡◌, IfOk};
ghost use Rattle.manifest_fault.specs.Faults.{step_of};
ghost use Rattle.manifest_places.specs.Splices.{splice_of};
ghost use Rattle.manifest_answers.specs.Inspected.{step_data};
ghost use Rattle.manifest_answers.specs.Edited.{splice_data};
ghost use Rattle.manifest_answers.specs.Checked.{array_data, level_number, file_number, member_number, text_data, label_data, fix_data, place_data, diagnostic_data};

use crate::editing::splice_value;
use crate::inspecting::{Reported, index_number, step_value, triple};
use crate::placing::{located_value, range_value};
use cargo_manifest::{Step, Value};
use manifest_lint::{Diagnostic, Fix, PlacedLabel};
use manifest_places::{Located, Splice};
use manifest_rules::{File, Level};
use std::alloc::{AllocError, Global};

/// Some things as a value: the array of them, in their order.
pub(crate) fn array_value<T: Reported>(alloc: Global, items: &[T]) -> Result<Value, AllocError>
    ensures { IfOk result (λ v. view v ≡ array_data T.reported items.now) }
{
    let mut values = Vec::new(alloc);
    for item in items {
        values.push(item.reported_value(alloc)?)?;
    }
    Ok(Value::Array(values))
}

impl Reported for Step {
    ghost reported = { λ s. step_data (step_of s) };

    fn reported_value(&self, alloc: Global) -> Result<Value, AllocError> {
        step_value(alloc, self)
    }
}

impl Reported for String {
    ghost reported = { text_data };

    fn reported_value(&self, alloc: Global) -> Result<Value, AllocError> {
        Value::string(alloc, self.as_str())
    }
}

impl Reported for Splice {
    ghost reported = { λ s. splice_data (splice_of s) };

    fn reported_value(&self, alloc: Global) -> Result<Value, AllocError> {
        splice_value(alloc, self)
    }
}

/// The number of a file, and the index of a member.
fn file_numbers(file: File) -> (u8, usize)
    ensures number { result.0 ≡ file_number file }
    ensures member { result.1 ≡ member_number file }
{
    match file {
        File::Own => (0, 0),
        File::Root => (1, 0),
        File::Member(index) => (2, index),
    }
}

/// A second place: the number of its file, the index of a member, where it is, and what is said there.
impl Reported for PlacedLabel {
    ghost reported = { label_data };

    fn reported_value(&self, alloc: Global) -> Result<Value, AllocError> {
        let (file, member) = file_numbers(self.file);
        let mut parts = Vec::new(alloc);
        parts.push(Value::Integer(i64::from(file)))?;
        parts.push(Value::Integer(index_number(member)))?;
        parts.push(range_value(alloc, self.span)?)?;
        parts.push(self.text.reported_value(alloc)?)?;
        Ok(Value::Array(parts))
    }
}

/// A suggestion: its words, whether it is certain, and what it replaces.
impl Reported for Fix {
    ghost reported = { fix_data };

    fn reported_value(&self, alloc: Global) -> Result<Value, AllocError> {
        let text = self.text.reported_value(alloc)?;
        let replaced = array_value(alloc, self.replaced.as_slice())?;
        triple(alloc, text, Value::Boolean(self.is_certain), replaced)
    }
}

fn level_number(level: Level) -> u8
    ensures { result ≡ level_number level }
{
    match level {
        Level::Error => 0,
        Level::Warning => 1,
        Level::Note => 2,
    }
}

/// The ranges of what belongs to a path; of none the empty array.
fn place_value(alloc: Global, located: Option<Located>) -> Result<Value, AllocError>
    ensures { IfOk result (λ v. view v ≡ place_data located) }
{
    match located {
        Some(located) => located_value(alloc, located),
        None => Ok(Value::Array(Vec::new(alloc))),
    }
}

/// A diagnostic: its code, its level, its message, its path, the range that is meant, the ranges of what belongs to the
/// path, the second places, the notes and the suggestions.
impl Reported for Diagnostic {
    ghost reported = { diagnostic_data };

    fn reported_value(&self, alloc: Global) -> Result<Value, AllocError> {
        let mut parts = Vec::new(alloc);
        parts.push(Value::string(alloc, self.code.name)?)?;
        parts.push(Value::Integer(i64::from(level_number(self.level))))?;
        parts.push(self.message.reported_value(alloc)?)?;
        parts.push(array_value(alloc, self.path.steps.as_slice())?)?;
        parts.push(range_value(alloc, self.span)?)?;
        parts.push(place_value(alloc, self.located)?)?;
        parts.push(array_value(alloc, self.labels.as_slice())?)?;
        parts.push(array_value(alloc, self.notes.as_slice())?)?;
        parts.push(array_value(alloc, self.fixes.as_slice())?)?;
        Ok(Value::Array(parts))
    }
}
