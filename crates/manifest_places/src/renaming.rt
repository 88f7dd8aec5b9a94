//! How a key is replaced: in each key of an entry and in each header that goes through it.

ghost use Rattle.std.specs.Prelude.{◌≡◌, ◌∷◌, [], IsTrue, IfOk, IfErr, IfSome, Some, map, option_map, string_bytes};
ghost use Rattle.std.specs.List.{AllZip};
ghost use Rattle.manifest_places.specs.Paths.{path_of, key as key_step};
ghost use Rattle.manifest_places.specs.Changes.{change_at_of};
ghost use Rattle.manifest_places.specs.Splices.{splice_of};
ghost use Rattle.manifest_places.specs.Keys.{span_of, whole_key, key_steps};
ghost use Rattle.manifest_places.specs.Places.{place_of};
ghost use Rattle.manifest_places.specs.Edits as spec;
ghost use Rattle.manifest_places.specs.Edits.{plan_of, rename_key, RenamesKey, RenamesHeader, IsPlan, NoPlan};

use crate::changes::{Change, ChangeAt};
use crate::edits::{Edit, EditError, put_splices};
use crate::headers::brackets_of;
use crate::index::Below;
use crate::keys::{Span, is_key, is_key_of};
use crate::layout::key_text;
use crate::places::Place;
use crate::planning::{Plan, change_at, place_at, splice_at};
use crate::reading::{part_of, whole_key as read_whole_key};
use crate::splices::Splice;
use crate::step::{Step, copied, same_steps, steps_after};
use crate::walk::{FoundHeader, FoundValue, Survey};
use std::alloc::{AllocError, Global};
use toml_parser::bytes;
use toml_parser::text::{byte_at, skip_ws};

/// How the last key of the path is replaced.
pub(crate) fn rename_plan(
    alloc: Global,
    text: &str,
    survey: &Survey,
    path: Vec<Step>,
    key: String,
) -> Result<Plan, EditError>
    ensures edit { IfOk result (λ p. (plan_of p).edit
        ≡ rename_key (path_of path.items) (string_bytes key)) }
    ensures plan { IfOk result (λ p. IsPlan text.now (plan_of p)) }
    ensures refused { IfErr result
        (NoPlan (rename_key (path_of path.items) (string_bytes key))) }
{
    let Some(change) = renaming_at(alloc, path.as_slice(), key.as_str())? else {
        return Err(EditError::NoPlace);
    };
    let Some(parts) = renamed_as(alloc, text, survey, path.as_slice(), key.as_str())? else {
        return Err(EditError::NoPlace);
    };
    let KeyChanges {
        places,
        by_key: mut splices,
        headers,
        by_header,
    } = parts;
    put_splices(&mut splices, by_header)?;
    let Some(at) = begin_of(splices.as_slice()) else {
        return Err(EditError::NoPlace);
    };
    Ok(Plan {
        at,
        edit: Edit::Rename(path, key),
        places,
        headers,
        splices,
        change,
    })
}

/// Where the first of the ranges begins.
fn begin_of(splices: &[Splice]) -> Option<usize> {
    splices.iter().map(|splice| splice.from).min()
}

/// The values and the headers in whose keys a part is replaced, and what is replaced in each of them.
#[derive(Drop)]
struct KeyChanges {
    places: Vec<Place>,
    by_key: Vec<Splice>,
    headers: Vec<Place>,
    by_header: Vec<Splice>,
}

/// What this key replaces in all keys that go through the path, or `None` where one of them has no such part.
fn renamed_as(
    alloc: Global,
    text: &str,
    survey: &Survey,
    path: &[Step],
    key: &str,
) -> Result<Option<KeyChanges>, AllocError>
    ensures { IfOk result (λ made. IfSome made (λ r. spec.RenamesBy text.now
        (path_of path.now) key.now (map place_of r.places.items) (map splice_of r.by_key.items)
        (map place_of r.headers.items) (map splice_of r.by_header.items))) }
{
    let put = key_text(alloc, key)?;
    if !is_name(alloc, put.as_str(), key)? {
        return Ok(None);
    }
    let parts = renamed(alloc, text, survey, path, put.as_str())?;
    Ok(parts)
}

/// What is replaced in all keys that go through the path, or `None` where one of them has no such part.
fn renamed(
    alloc: Global,
    text: &str,
    survey: &Survey,
    path: &[Step],
    put: &str,
) -> Result<Option<KeyChanges>, AllocError>
    ensures { IfOk result (λ made. IfSome made (λ r. spec.RenamesParts text.now
        (path_of path.now) put.now (map place_of r.places.items) (map splice_of r.by_key.items)
        (map place_of r.headers.items) (map splice_of r.by_header.items))) }
{
    let below = survey.below(alloc, path)?;
    let (mut places, mut by_key) = (Vec::new(alloc), Vec::new(alloc));
    let (mut headers, mut by_header) = (Vec::new(alloc), Vec::new(alloc));
    for at in &below {
        if let Some(found) = survey.key_through(at) {
            let Some((place, splice)) = key_renamed(alloc, text, found, path, put)? else {
                return Ok(None);
            };
            places.push(place)?;
            by_key.push(splice)?;
        }
        if let Some(found) = survey.header_at(path, at) {
            let Some((place, splice)) = header_renamed(alloc, text, found, path, put)? else {
                return Ok(None);
            };
            headers.push(place)?;
            by_header.push(splice)?;
        }
    }
    Ok(Some(KeyChanges {
        places,
        by_key,
        headers,
        by_header,
    }))
}

/// What is replaced in the key of the value that was found, or `None` where that has no such part.
fn key_renamed(
    alloc: Global,
    text: &str,
    found: &FoundValue,
    path: &[Step],
    put: &str,
) -> Result<Option<(Place, Splice)>, AllocError>
    ensures { IfOk result (λ made. IfSome made (λ p.
        RenamesKey text.now (path_of path.now) put.now (place_of p.0) (splice_of p.1))) }
{
    let parts = found.parts.as_slice();
    let place = place_at(alloc, found.path.as_slice(), found.value)?;
    if !is_key(alloc, text, &place, parts)? {
        return Ok(None);
    }
    let Some(part) = part_for(path, &place, parts) else {
        return Ok(None);
    };
    let splice = splice_at(alloc, part, put)?;
    Ok(Some((place, splice)))
}

/// What is replaced in the header that was found, or `None` where its key has no such part.
fn header_renamed(
    alloc: Global,
    text: &str,
    found: &FoundHeader,
    path: &[Step],
    put: &str,
) -> Result<Option<(Place, Splice)>, AllocError>
    ensures { IfOk result (λ made. IfSome made (λ p.
        RenamesHeader text.now (path_of path.now) put.now (place_of p.0) (splice_of p.1))) }
{
    let place = place_at(alloc, found.path.as_slice(), found.header)?;
    let keys = keys_in(alloc, path)?;
    let Some(part) = found.parts.as_slice().get(keys.len().saturating_sub(1)) else {
        return Ok(None);
    };
    if !is_part_of_header(alloc, text, path, keys.as_slice(), &place, *part)? {
        return Ok(None);
    }
    let splice = splice_at(alloc, *part, put)?;
    Ok(Some((place, splice)))
}

/// Whether the range is the part of the header's key that leads to the path, which has these keys.
fn is_part_of_header(
    alloc: Global,
    text: &str,
    path: &[Step],
    keys: &[Step],
    header: &Place,
    part: Span,
) -> Result<bool, AllocError>
    requires { path_of keys.now ≡ spec.keys_in (path_of path.now) }
    ensures { IfOk result (λ good. IsTrue good
        → spec.IsPartOfHeader text.now (path_of path.now) (place_of header.now) (span_of part)) }
{
    let Some(_left) = steps_after(header.path.as_slice(), path) else {
        return Ok(false);
    };
    if path.is_empty() {
        return Ok(false);
    }
    let Some(start) = key_start(text, header) else {
        return Ok(false);
    };
    if part.from < start || part.to > header.to {
        return Ok(false);
    }
    let Some(whole) = part_of(text, start, part.to) else {
        return Ok(false);
    };
    if !reads_as(alloc, skip_ws(whole), keys)? {
        return Ok(false);
    }
    let (_base, last) = path.split_at(path.len() - 1);
    let Some(alone) = part_of(text, part.from, part.to) else {
        return Ok(false);
    };
    if !reads_as(alloc, alone, last)? {
        return Ok(false);
    }
    let good = !bytes::is_ws(byte_at(text, part.to.saturating_sub(1)));
    Ok(good)
}

/// Where the key of the header begins.
fn key_start(text: &str, header: &Place) -> Option<usize>
    ensures { IfSome result (λ n. n ≡ spec.key_start text.now (place_of header.now)) }
{
    let range = part_of(text, header.from, header.to)?;
    header.from.checked_add(brackets_of(range))
}

/// Whether the text is a key of these steps, with white space after it at most.
fn reads_as(alloc: Global, text: &str, steps: &[Step]) -> Result<bool, AllocError>
    ensures { IfOk result (λ good. IsTrue good
        → option_map key_steps (whole_key text.now) ≡ Some (path_of steps.now)) }
{
    match read_whole_key(alloc, text)? {
        None => Ok(false),
        Some(key) => {
            let good = is_key_of(&key, steps);
            Ok(good)
        }
    }
}

/// The keys among the steps of the path.
fn keys_in(alloc: Global, path: &[Step]) -> Result<Vec<Step>, AllocError>
    ensures { IfOk result (λ keys. path_of keys.items ≡ spec.keys_in (path_of path.now)) }
{
    let mut keys = Vec::new(alloc);
    for step in copied(alloc, path)? {
        match step {
            Step::Key(key) => keys.push(Step::Key(key))?,
            Step::Index(_) => {}
        }
    }
    Ok(keys)
}

/// The change that gives what is at the path another key, or `None` where it has none.
fn renaming_at(alloc: Global, path: &[Step], name: &str) -> Result<Option<ChangeAt>, AllocError>
    ensures { IfOk result
        (λ made. IfSome made (λ c. spec.Renames (path_of path.now) name.now (change_at_of c))) }
{
    match path.split_last() {
        None => Ok(None),
        Some((last, front)) => match last {
            Step::Key(key) => {
                let old = String::from_str(alloc, key.as_str())?;
                let new = String::from_str(alloc, name)?;
                let made = change_at(alloc, front, Change::Rename(old, new))?;
                Ok(Some(made))
            }
            Step::Index(_) => Ok(None),
        },
    }
}

/// The part of the key that leads to the path, on the way to the value at this place.
fn part_for(path: &[Step], place: &Place, parts: &[Span]) -> Option<Span>
    ensures { IfSome result (λ part. spec.IsPartOf (path_of path.now) (place_of place.now)
        (map span_of parts.now) (span_of part)) }
{
    let whole = place.path.as_slice();
    if path.len() > whole.len() {
        return None;
    }
    let (front, after) = whole.split_at(path.len());
    if !same_steps(front, path) || parts.len() <= after.len() {
        return None;
    }
    let (_parts_before, parts_from) = parts.split_at(parts.len() - after.len() - 1);
    match parts_from.split_first() {
        None => None,
        Some((part, _parts_after)) => Some(*part),
    }
}

/// Whether the text is a key of one part, which reads as this name.
fn is_name(alloc: Global, text: &str, name: &str) -> Result<bool, AllocError>
    ensures { IfOk result (λ good. IsTrue good
        → option_map key_steps (whole_key text.now) ≡ Some (key_step name.now ∷ [])) }
{
    let steps = single(alloc, name)?;
    let good = reads_as(alloc, text, steps.as_slice())?;
    Ok(good)
}

/// The path of one key.
fn single(alloc: Global, name: &str) -> Result<Vec<Step>, AllocError>
    ensures { IfOk result (λ steps. path_of steps.items ≡ key_step name.now ∷ []) }
{
    let mut steps = Vec::new(alloc);
    let step = Step::Key(String::from_str(alloc, name)?);
    steps.push(step)?;
    Ok(steps)
}
