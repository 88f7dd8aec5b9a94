//! How a value is put in: with its key, and maybe under a header, and what may stand around it.

ghost use Rattle.std.specs.Prelude.{◌≡◌, ◌⊎◌, IsTrue, IfOk, IfErr, IfSome, [], map, string_bytes};
ghost use Rattle.toml.specs.View.{view};
ghost use Rattle.manifest_places.specs.Paths.{path_of, step_of};
ghost use Rattle.manifest_places.specs.Changes.{change_of, change_at_of};
ghost use Rattle.manifest_places.specs.Splices.{splice_of};
ghost use Rattle.manifest_places.specs.Headers.{IsHeader};
ghost use Rattle.manifest_places.specs.Keys.{span_of};
ghost use Rattle.manifest_places.specs.Edits as spec;
ghost use Rattle.manifest_places.specs.Edits.{plan_of, insert_value, IsPlan, NoPlan};

use crate::blanks::{are_blank_or_comma, is_trivia};
use crate::changes::{Change, ChangeAt};
use crate::company::Company;
use crate::edits::{Edit, EditError};
use crate::headers::is_header;
use crate::inserting::{Insertion, insertion_for};
use crate::keys::{Span, is_key_of, key_before};
use crate::planning::{Plan, change_at, splice_at};
use crate::reading::value_of;
use crate::splices::Splice;
use crate::step::Step;
use crate::walk::Survey;
use std::alloc::{AllocError, Global};
use toml::Value;

/// How the value is put in at the path, by the edit with this number.
pub(crate) fn insert_plan(
    alloc: Global,
    text: &str,
    survey: &Survey,
    company: &Company,
    number: usize,
    path: Vec<Step>,
    value: String,
) -> Result<Plan, EditError>
    ensures edit { IfOk result (λ p. (plan_of p).edit
        ≡ insert_value (path_of path.items) (string_bytes value)) }
    ensures plan { IfOk result (λ p. IsPlan text.now (plan_of p)) }
    ensures refused { IfErr result
        (NoPlan (insert_value (path_of path.items) (string_bytes value))) }
{
    let Some(insertion) = insertion_for(alloc, text, survey, company, number, path.as_slice())?
    else {
        return Err(EditError::NoPlace);
    };
    let Some(read) = value_of(alloc, value.as_str())? else {
        return Err(EditError::NotAValue);
    };
    let Some(splices) = puts_in(alloc, text, path.as_slice(), value.as_str(), &insertion)? else {
        return Err(EditError::NoPlace);
    };
    let Some(change) = insertion_at(alloc, path.as_slice(), read)? else {
        return Err(EditError::NoPlace);
    };
    Ok(Plan {
        at: insertion.at,
        edit: Edit::Insert(path, value),
        places: Vec::new(alloc),
        headers: Vec::new(alloc),
        splices,
        change,
    })
}

/// What is put in with the value, or `None` where the insertion has more in it than it may.
fn puts_in(
    alloc: Global,
    text: &str,
    path: &[Step],
    value: &str,
    insertion: &Insertion,
) -> Result<Option<Vec<Splice>>, AllocError>
    ensures { IfOk result (λ made. IfSome made (λ splices.
        spec.PutsIn text.now (path_of path.now) value.now (map splice_of splices.items))) }
{
    let Some(put) = entry_text(alloc, path, value, insertion)? else {
        return Ok(None);
    };
    let entry = splice_at(alloc, empty_at(insertion.at), put.as_str())?;
    match insertion.comma {
        None => Ok(Some(vec![in alloc; entry]?)),
        Some(at) => {
            if !is_trivia(text, at, insertion.at) {
                return Ok(None);
            }
            let comma = splice_at(alloc, empty_at(at), ",")?;
            Ok(Some(vec![in alloc; entry, comma]?))
        }
    }
}

/// The empty range at the offset.
fn empty_at(at: usize) -> Span
    ensures { span_of result ≡ record { from = at; to = at } }
{
    Span { from: at, to: at }
}

/// The value with what the insertion puts around it, or `None` where that is more than it may.
fn entry_text(
    alloc: Global,
    path: &[Step],
    value: &str,
    insertion: &Insertion,
) -> Result<Option<String>, AllocError>
    ensures { IfOk result (λ made. IfSome made
        (λ put. spec.HoldsEntry (path_of path.now) value.now (string_bytes put))) }
{
    let lead = insertion.lead.as_str();
    let header = insertion.header.as_str();
    let gap = insertion.gap.as_str();
    let name = insertion.name.as_str();
    let trail = insertion.trail.as_str();
    if !are_blank_or_comma(lead) || !are_blank_or_comma(gap) || !are_blank_or_comma(trail) {
        return Ok(None);
    }
    if !is_header_if_any(alloc, header)? {
        return Ok(None);
    }
    if !is_name_if_any(alloc, path, name)? {
        return Ok(None);
    }
    let put = format!(in alloc; "{lead}{header}{gap}{name}{value}{trail}")?;
    Ok(Some(put))
}

/// Whether the text is empty or a header.
fn is_header_if_any(alloc: Global, text: &str) -> Result<bool, AllocError>
    ensures { IfOk result (λ good. IsTrue good → (text.now ≡ []) ⊎ IsHeader text.now) }
{
    if text.is_empty() {
        return Ok(true);
    }
    let good = is_header(alloc, text)?;
    Ok(good)
}

/// Whether the text is empty, or a key of the last steps of the path with `=` after it.
fn is_name_if_any(alloc: Global, path: &[Step], text: &str) -> Result<bool, AllocError>
    ensures { IfOk result
        (λ good. IsTrue good → (text.now ≡ []) ⊎ spec.EndsIn (path_of path.now) text.now) }
{
    if text.is_empty() {
        return Ok(true);
    }
    let Some(key) = key_before(alloc, text)? else {
        return Ok(false);
    };
    let count = key.path.len().saturating_add(1);
    if count > path.len() {
        return Ok(false);
    }
    let (_base, more) = path.split_at(path.len() - count);
    Ok(is_key_of(&key, more))
}

/// The change that puts in a value at the path, or `None` where the path is empty.
fn insertion_at(alloc: Global, path: &[Step], value: Value) -> Result<Option<ChangeAt>, AllocError>
    ensures { IfOk result (λ made. IfSome made
        (λ c. spec.Inserts (path_of path.now) (view value) (change_at_of c))) }
{
    match path.split_last() {
        None => Ok(None),
        Some((last, front)) => {
            let change = insertion_of(alloc, last, value)?;
            let made = change_at(alloc, front, change)?;
            Ok(Some(made))
        }
    }
}

/// What puts in an entry or an item that the step leads to.
fn insertion_of(alloc: Global, step: &Step, value: Value) -> Result<Change, AllocError>
    ensures { IfOk result
        (λ c. change_of c ≡ spec.inserted_by (step_of step.now) (view value)) }
{
    match step {
        Step::Key(key) => Ok(Change::Insert(String::from_str(alloc, key.as_str())?, value)),
        Step::Index(index) => Ok(Change::InsertItem(*index, value)),
    }
}
