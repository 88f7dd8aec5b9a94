//! How an edit is made: which ranges of the text it replaces, and what it changes.

ghost use Rattle.std.specs.Prelude.{◌≡◌, IfOk, IfErr, string_bytes};
ghost use Rattle.manifest_places.specs.Paths.{path_of};
ghost use Rattle.manifest_places.specs.Changes.{change_of, change_at_of};
ghost use Rattle.manifest_places.specs.Splices.{splice_of};
ghost use Rattle.manifest_places.specs.Keys.{span_of};
ghost use Rattle.manifest_places.specs.Places.{place_of};
ghost use Rattle.manifest_places.specs.Edits.{edit_of, plan_of, in_place_of, set_value, IsPlan, NoPlan};

use crate::changes::{Change, ChangeAt};
use crate::company::Company;
use crate::edits::{Edit, EditError};
use crate::keys::Span;
use crate::places::Place;
use crate::putting::insert_plan;
use crate::reading::value_of;
use crate::removing::remove_plan;
use crate::renaming::rename_plan;
use crate::splices::Splice;
use crate::step::{Step, copied};
use crate::walk::Survey;
use std::alloc::{AllocError, Global};

/// How an edit is made: where it begins in the text, the values and the headers that it is about, if any, the ranges that
/// it replaces, and the change.
#[derive(Drop)]
pub(crate) struct Plan {
    pub edit: Edit,
    pub at: usize,
    pub places: Vec<Place>,
    pub headers: Vec<Place>,
    pub splices: Vec<Splice>,
    pub change: ChangeAt,
}

/// How the edit is made, which is the one with this number.
pub(crate) fn planned(
    alloc: Global,
    text: &str,
    survey: &Survey,
    company: &Company,
    number: usize,
    edit: Edit,
) -> Result<Plan, EditError>
    ensures edit { IfOk result (λ p. (plan_of p).edit ≡ edit_of edit) }
    ensures plan { IfOk result (λ p. IsPlan text.now (plan_of p)) }
    ensures refused { IfErr result (NoPlan (edit_of edit)) }
{
    match edit {
        Edit::Set(path, value) => set_plan(alloc, text, survey, path, value),
        Edit::Insert(path, value) => {
            insert_plan(alloc, text, survey, company, number, path, value)
        }
        Edit::Remove(path) => remove_plan(alloc, text, survey, company, path),
        Edit::Rename(path, key) => rename_plan(alloc, text, survey, path, key),
    }
}

fn set_plan(
    alloc: Global,
    text: &str,
    survey: &Survey,
    path: Vec<Step>,
    value: String,
) -> Result<Plan, EditError>
    ensures edit { IfOk result (λ p. (plan_of p).edit
        ≡ set_value (path_of path.items) (string_bytes value)) }
    ensures plan { IfOk result (λ p. IsPlan text.now (plan_of p)) }
    ensures refused { IfErr result
        (NoPlan (set_value (path_of path.items) (string_bytes value))) }
{
    let Some(found) = survey.value(path.as_slice()) else {
        return Err(EditError::NoPlace);
    };
    let Some(read) = value_of(alloc, value.as_str())? else {
        return Err(EditError::NotAValue);
    };
    let place = place_at(alloc, path.as_slice(), found.value)?;
    let splice = splice_at(alloc, found.value, value.as_str())?;
    let change = change_at(alloc, path.as_slice(), Change::Set(read))?;
    Ok(Plan {
        at: splice.from,
        edit: Edit::Set(path, value),
        places: vec![in alloc; place]?,
        headers: Vec::new(alloc),
        splices: vec![in alloc; splice]?,
        change,
    })
}

/// A value at a path, in this range.
pub(crate) fn place_at(alloc: Global, path: &[Step], value: Span) -> Result<Place, AllocError>
    ensures { IfOk result
        (λ p. place_of p ≡ record { path = path_of path.now; from = value.from; to = value.to }) }
{
    let path = copied(alloc, path)?;
    Ok(Place {
        path,
        from: value.from,
        to: value.to,
    })
}

/// A text in the place of a range.
pub(crate) fn splice_at(alloc: Global, replaced: Span, put: &str) -> Result<Splice, AllocError>
    ensures { IfOk result (λ s. splice_of s ≡ in_place_of (span_of replaced) put.now) }
{
    let put = String::from_str(alloc, put)?;
    Ok(Splice {
        from: replaced.from,
        to: replaced.to,
        put,
    })
}

/// A change at a path.
pub(crate) fn change_at(
    alloc: Global,
    path: &[Step],
    change: Change,
) -> Result<ChangeAt, AllocError>
    ensures { IfOk result (λ c. change_at_of c ≡ (path_of path.now, change_of change)) }
{
    let path = copied(alloc, path)?;
    Ok(ChangeAt { path, change })
}
