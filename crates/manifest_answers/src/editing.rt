//! A text with edits that a caller passes in, and what they replace, as tagged bytes.

ghost use Rattle.manifest_schema.specs.Prelude.{view};
ghost use Rattle.std.specs.Prelude.{◌≡◌, IfOk, IfErr, map, string_bytes, IsUtf8};
ghost use Rattle.manifest_places.specs.Paths.{step_of, path_of};
ghost use Rattle.manifest_places.specs.Splices.{splice_of};
ghost use Rattle.manifest_places.specs.Edits.{edit_of};
ghost use Rattle.manifest_bytes.specs.Encoded.{encoded};
ghost use Rattle.manifest_answers.specs.Read.{IsNoDocument};
ghost use Rattle.manifest_answers.specs.Made.{OfBytes, AreWithin, RefusesTagged, IsMade};
ghost use Rattle.manifest_answers.specs.Edited.{given_step, given_path, given_edit, IsStepText, ArePathTexts, IsEditText, AreEditTexts, RefusesUnlessText, splice_data, splices_data, IsNotEdited, AreEdited, RefusesEdits, GivesEdited, RefusesToEdit};

use crate::inspecting::{index_number, triple};
use crate::making::tagged_bytes;
use crate::positions::text_of;
use crate::reading::document;
use crate::refusal::{InputError, Refusal};
use cargo_manifest::Value;
use manifest_nesting::nests_too_deep;
use manifest_places::{Edit, EditError, Edited, Splice, Step, with_edits};
use manifest_written::Written;
use std::alloc::{AllocError, Global};

/// A step of a key path, as a caller passes it in: an index where `is_index` is not 0, and else a key.
#[repr(C)]
#[derive(Clone, Copy)]
pub struct GivenStep<'a> {
    pub key: &'a [u8],
    pub index: usize,
    pub is_index: u8,
}

// as the other languages declare it: `scripts/library` compares the number
const _: () = prove!(size_of::<GivenStep<'static>>() == 32);

/// An edit, as a caller passes it in: where, the value or the key, and what is to be done, which is 0 to set the value,
/// 1 to insert it, 2 to remove what is there, and otherwise to give it another key.
#[repr(C)]
#[derive(Clone, Copy)]
pub struct GivenEdit<'a> {
    pub path: &'a [GivenStep<'a>],
    pub text: &'a [u8],
    pub kind: u8,
}

// as the other languages declare it: `scripts/library` compares the number
const _: () = prove!(size_of::<GivenEdit<'static>>() == 40);

/// The text that the bytes are.
fn text_given(alloc: Global, bytes: &[u8]) -> Result<String, Refusal>
    ensures ok { IfOk result (λ text. string_bytes text ≡ bytes.now) }
    ensures refused { IfErr result (RefusesUnlessText (IsUtf8 bytes.now)) }
{
    match std::str::from_utf8(bytes) {
        Ok(text) => Ok(String::from_str(alloc, text)?),
        Err(_) => Err(Refusal::NotText),
    }
}

fn step_given(alloc: Global, step: &GivenStep<'_>) -> Result<Step, Refusal>
    ensures ok { IfOk result (λ s. step_of s ≡ given_step step.now) }
    ensures refused { IfErr result (RefusesUnlessText (IsStepText step.now)) }
{
    let key = text_given(alloc, step.key)?;
    if step.is_index == 0 {
        Ok(Step::Key(key))
    } else {
        Ok(Step::Index(step.index))
    }
}

fn path_given(alloc: Global, steps: &[GivenStep<'_>]) -> Result<Vec<Step>, Refusal>
    ensures ok { IfOk result (λ path. path_of path.items ≡ given_path steps.now) }
    ensures refused { IfErr result (RefusesUnlessText (ArePathTexts steps.now)) }
{
    let mut path = Vec::new(alloc);
    for step in steps {
        path.push(step_given(alloc, step)?)?;
    }
    Ok(path)
}

fn edit_given(alloc: Global, edit: &GivenEdit<'_>) -> Result<Edit, Refusal>
    ensures ok { IfOk result (λ e. edit_of e ≡ given_edit edit.now) }
    ensures refused { IfErr result (RefusesUnlessText (IsEditText edit.now)) }
{
    let path = path_given(alloc, edit.path)?;
    let text = text_given(alloc, edit.text)?;
    if edit.kind == 0 {
        Ok(Edit::Set(path, text))
    } else if edit.kind == 1 {
        Ok(Edit::Insert(path, text))
    } else if edit.kind == 2 {
        Ok(Edit::Remove(path))
    } else {
        Ok(Edit::Rename(path, text))
    }
}

fn edits_given(alloc: Global, given: &[GivenEdit<'_>]) -> Result<Vec<Edit>, Refusal>
    ensures ok { IfOk result (λ edits. map edit_of edits.items ≡ map given_edit given.now) }
    ensures refused { IfErr result (RefusesUnlessText (AreEditTexts given.now)) }
{
    let mut edits = Vec::new(alloc);
    for edit in given {
        edits.push(edit_given(alloc, edit)?)?;
    }
    Ok(edits)
}

/// The text that the bytes are, which does not say itself that it nests too deep.
fn shallow_text(bytes: &[u8]) -> Result<&str, Refusal>
    ensures ok { IfOk result (λ text. (text.now ≡ bytes.now) × IsUtf8 bytes.now) }
    ensures refused { IfErr result (OfBytes (IsNoDocument bytes.now)) }
{
    let text = match text_of(bytes) {
        Ok(text) => text,
        Err(refused) => return Err(refused),
    };
    if nests_too_deep(text) {
        return Err(Refusal::Bytes(InputError::TooDeep));
    }
    Ok(text)
}

/// Why the edits are not made: of a text that is no document, why it is not one.
fn refused_edits(alloc: Global, bytes: &[u8], error: EditError) -> Refusal
    ensures { IsNotEdited bytes.now error result }
{
    match error {
        EditError::NotADocument => match document(alloc, bytes) {
            Ok(table) => {
                drop(table);
                Refusal::Edits(error)
            }
            Err(refused) => Refusal::Bytes(refused),
        },
        EditError::Memory => Refusal::Memory(AllocError),
        other => Refusal::Edits(other),
    }
}

/// The text with these edits, and what they replace.
fn edited(alloc: Global, bytes: &[u8], given: &[GivenEdit<'_>]) -> Result<Edited, Refusal>
    ensures ok { IfOk result (λ e. AreEdited bytes.now given.now
        (map splice_of e.replaced.items) (string_bytes e.text)) }
    ensures refused { IfErr result (RefusesEdits bytes.now given.now) }
{
    let edits = match edits_given(alloc, given) {
        Ok(edits) => edits,
        Err(refused) => return Err(refused),
    };
    let text = match shallow_text(bytes) {
        Ok(text) => text,
        Err(refused) => return Err(refused),
    };
    match with_edits(alloc, text, edits) {
        Ok(edited) => Ok(edited),
        Err(error) => Err(refused_edits(alloc, bytes, error)),
    }
}

/// What is replaced, as a value: the array of where it begins, where it ends, and the text that takes its place.
pub(crate) fn splice_value(alloc: Global, splice: &Splice) -> Result<Value, AllocError>
    ensures { IfOk result (λ v. view v ≡ splice_data (splice_of splice.now)) }
{
    let from = Value::Integer(index_number(splice.from));
    let to = Value::Integer(index_number(splice.to));
    let put = Value::string(alloc, splice.put.as_str())?;
    triple(alloc, from, to, put)
}

fn splices_value(alloc: Global, splices: &[Splice]) -> Result<Value, AllocError>
    ensures { IfOk result (λ v. view v ≡ splices_data (map splice_of splices.now)) }
{
    let mut values = Vec::new(alloc);
    for splice in splices {
        values.push(splice_value(alloc, splice)?)?;
    }
    Ok(Value::Array(values))
}

/// The bytes of the text; refused with `TooLong` where they are more than `most`.
fn text_within(text: String, most: usize) -> Result<Vec<u8>, Refusal>
    ensures { IsMade (AreWithin most (string_bytes text))
        (RefusesTagged most (string_bytes text)) result }
{
    let bytes = text.into_bytes();
    if bytes.len() > most {
        return Err(Refusal::TooLong);
    }
    Ok(bytes)
}

/// The tagged bytes of what is replaced.
fn splices_bytes(alloc: Global, splices: &[Splice], most: usize) -> Result<Vec<u8>, Refusal>
    ensures { let tagged = encoded (splices_data (map splice_of splices.now)) in
        IsMade (AreWithin most tagged) (RefusesTagged most tagged) result }
{
    let value = splices_value(alloc, splices)?;
    tagged_bytes(alloc, &Written::Value(&value), most)
}

/// The text of the bytes with these edits, or the tagged bytes of what they replace in it. Refuses bytes that are no
/// document, edits that are not UTF-8 or cannot be made, what is more than `most` bytes, and when out of memory.
pub(crate) fn edited_bytes(
    alloc: Global,
    bytes: &[u8],
    given: &[GivenEdit<'_>],
    as_replacements: bool,
    most: usize,
) -> Result<Vec<u8>, Refusal>
    ensures { IsMade (GivesEdited most as_replacements bytes.now given.now)
        (RefusesToEdit most as_replacements bytes.now given.now) result }
{
    let Edited { text, replaced } = match edited(alloc, bytes, given) {
        Ok(edited) => edited,
        Err(refused) => return Err(refused),
    };
    if as_replacements {
        splices_bytes(alloc, replaced.as_slice(), most)
    } else {
        text_within(text, most)
    }
}
