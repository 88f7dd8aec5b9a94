//! How a value is taken out with its key, and what may go with it.

ghost use Rattle.std.specs.Prelude.{◌≡◌, ◌≤◌, ◌||◌, true, IsTrue, IfOk, IfErr, IfSome, [], ◌∷◌, map};
ghost use Rattle.manifest_places.specs.Paths.{path_of, step_of};
ghost use Rattle.manifest_places.specs.Changes.{change_of, change_at_of};
ghost use Rattle.manifest_places.specs.Splices.{splice_of, range_of};
ghost use Rattle.manifest_places.specs.Keys.{span_of};
ghost use Rattle.manifest_places.specs.Places.{place_of};
ghost use Rattle.manifest_places.specs.Edits as spec;
ghost use Rattle.manifest_places.specs.Edits.{plan_of, remove_value, IsPlan, IsPlanned, NoPlan};

use crate::blanks::{is_gap, is_line, is_trivia};
use crate::changes::{Change, ChangeAt};
use crate::company::Company;
use crate::edits::{Edit, EditError};
use crate::elements::{Taken, taken_with};
use crate::keys::{Span, is_key};
use crate::places::Place;
use crate::planning::{Plan, change_at, place_at, splice_at};
use crate::reading::part_of;
use crate::splices::Splice;
use crate::step::Step;
use crate::walk::{FoundValue, Survey};
use std::alloc::{AllocError, Global};

/// How the value at the path is taken out.
pub(crate) fn remove_plan(
    alloc: Global,
    text: &str,
    survey: &Survey,
    company: &Company,
    path: Vec<Step>,
) -> Result<Plan, EditError>
    ensures edit { IfOk result (λ p. (plan_of p).edit ≡ remove_value (path_of path.items)) }
    ensures plan { IfOk result (λ p. IsPlan text.now (plan_of p)) }
    ensures refused { IfErr result (NoPlan (remove_value (path_of path.items))) }
{
    let Some(found) = survey.value(path.as_slice()) else {
        return Err(EditError::NoPlace);
    };
    let taken = taken_with(alloc, text, survey, company, found)?;
    let Some(removal) = removed(alloc, text, found, taken, path.as_slice())? else {
        return Err(EditError::NoPlace);
    };
    let Removal {
        place,
        splices,
        change,
    } = removal;
    Ok(Plan {
        at: taken.entry.from,
        edit: Edit::Remove(path),
        places: vec![in alloc; place]?,
        headers: Vec::new(alloc),
        splices,
        change,
    })
}

/// The value that is taken out, what is replaced, and the change.
#[derive(Drop)]
struct Removal {
    place: Place,
    splices: Vec<Splice>,
    change: ChangeAt,
}

/// How the value that was found is taken out with these ranges, or `None` where they have more in them than they may.
fn removed(
    alloc: Global,
    text: &str,
    found: &FoundValue,
    taken: Taken,
    path: &[Step],
) -> Result<Option<Removal>, AllocError>
    ensures { IfOk result (λ made. IfSome made (λ r. IsPlanned text.now
        (remove_value (path_of path.now))
        (place_of r.place ∷ []) [] (map splice_of r.splices.items) (change_at_of r.change))) }
{
    let parts = found.parts.as_slice();
    let place = place_at(alloc, path, found.value)?;
    if !is_key(alloc, text, &place, parts)? {
        return Ok(None);
    }
    let Some(splices) = taken_out(alloc, text, &place, parts, taken)? else {
        return Ok(None);
    };
    let Some(change) = removal_at(alloc, path)? else {
        return Ok(None);
    };
    Ok(Some(Removal {
        place,
        splices,
        change,
    }))
}

/// What is taken out with the value at the place, or `None` where that is more than it may.
fn taken_out(
    alloc: Global,
    text: &str,
    place: &Place,
    parts: &[Span],
    taken: Taken,
) -> Result<Option<Vec<Splice>>, AllocError>
    ensures { IfOk result (λ made. IfSome made (λ splices. spec.TakesOut text.now
        (place_of place.now) (map span_of parts.now) (map splice_of splices.items))) }
{
    let Taken { entry, more } = taken;
    if !takes_entry(text, start_of(place, parts), place.to, entry) {
        return Ok(None);
    }
    let splice = splice_at(alloc, entry, "")?;
    match more {
        None => Ok(Some(vec![in alloc; splice]?)),
        Some(range) => {
            if !is_comma_before(text, range, entry.from) && !is_blank_after(text, range, entry.to) {
                return Ok(None);
            }
            let other = splice_at(alloc, range, "")?;
            Ok(Some(vec![in alloc; splice, other]?))
        }
    }
}

/// Where an entry or an item begins: at its key, or at its value.
fn start_of(place: &Place, parts: &[Span]) -> usize
    ensures { result ≡ spec.start_of (place_of place.now) (map span_of parts.now) }
{
    match parts.split_first() {
        None => place.from,
        Some((part, _rest)) => part.from,
    }
}

/// Whether what is taken out next to an entry is the rest of its line, or blanks and one comma at most.
fn takes_entry(text: &str, start: usize, end: usize, taken: Span) -> bool
    ensures { IsTrue result → (taken.from ≤ start) × (end ≤ taken.to)
        × ((spec.is_line (range_of text.now taken.from start) (range_of text.now end taken.to)
        || spec.is_gap (range_of text.now taken.from start)
        (range_of text.now end taken.to)) ≡ true) }
{
    if taken.from > start || end > taken.to {
        return false;
    }
    let Some(lead) = part_of(text, taken.from, start) else {
        return false;
    };
    let Some(trail) = part_of(text, end, taken.to) else {
        return false;
    };
    is_line(lead, trail) || is_gap(lead, trail)
}

/// Whether the range is a comma that stands before the offset, with nothing but blanks, line ends and comments between.
fn is_comma_before(text: &str, comma: Span, offset: usize) -> bool
    ensures { IsTrue result → spec.IsCommaBefore text.now (span_of comma) offset }
{
    match part_of(text, comma.from, comma.to) {
        Some(part) => part == "," && is_trivia(text, comma.to, offset),
        None => false,
    }
}

/// Whether the range is blanks from the offset on, with one line feed at most.
fn is_blank_after(text: &str, blank: Span, offset: usize) -> bool
    ensures { IsTrue result → spec.IsBlankAfter text.now (span_of blank) offset }
{
    match part_of(text, blank.from, blank.to) {
        Some(part) => blank.from == offset && is_line(part, ""),
        None => false,
    }
}

/// The change that takes out what is at the path, or `None` where the path is empty.
fn removal_at(alloc: Global, path: &[Step]) -> Result<Option<ChangeAt>, AllocError>
    ensures { IfOk result
        (λ made. IfSome made (λ c. spec.Removes (path_of path.now) (change_at_of c))) }
{
    match path.split_last() {
        None => Ok(None),
        Some((last, front)) => {
            let change = removal_of(alloc, last)?;
            let made = change_at(alloc, front, change)?;
            Ok(Some(made))
        }
    }
}

/// What takes out the entry or the item that the step leads to.
fn removal_of(alloc: Global, step: &Step) -> Result<Change, AllocError>
    ensures { IfOk result (λ c. change_of c ≡ spec.removed_by (step_of step.now)) }
{
    match step {
        Step::Key(key) => Ok(Change::Remove(String::from_str(alloc, key.as_str())?)),
        Step::Index(index) => Ok(Change::RemoveItem(*index)),
    }
}
