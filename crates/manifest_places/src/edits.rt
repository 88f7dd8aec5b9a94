//! Edits of a text that change what they say and keep all else: comments, order and layout.

ghost use Rattle.std.specs.Prelude.{◌≡◌, ◌⊎◌, ◌++◌, None, Some, IsTrue, IfOk, IfErr, OnOk, map, flat_map, string_bytes, All};
ghost use Rattle.toml.specs.View.{view};
ghost use Rattle.manifest_places.specs.Paths.{document};
ghost use Rattle.manifest_places.specs.Changes.{change_at_of};
ghost use Rattle.manifest_places.specs.Splices.{splice_of};
ghost use Rattle.manifest_places.specs.Places.{place_of};
ghost use Rattle.manifest_places.specs.Edits.{edit_of, plan_of, edit_in, places_in, headers_in, splices_in, change_in, IsPlan, AreOpened, IsEdit, MakeNone, IsReason};
ghost use Rattle.manifest_places.specs.declared.edits.EditError.TheVariants.{NotADocument, Memory};

use crate::changes::ChangeAt;
use crate::company::company_of;
use crate::headers::are_headers_in;
use crate::places::{Place, are_places_in, edited_in};
use crate::planning::{Plan, planned};
use crate::reading::document_of;
use crate::splices::Splice;
use crate::step::Step;
use crate::walk::walk;
use std::alloc::{AllocError, AllocFailed, Global};
use toml::Value;
use toml_parser::ParseError;

/// What is to be done to a text. A value is given as TOML text, and a key as it is, without quotes.
#[derive(Debug, PartialEq, Eq, Drop)]
pub enum Edit {
    /// Another value at the path.
    Set(Vec<Step>, String),
    /// A new value at the path, whose last step is the key of a new entry, or the index after the last item of an array.
    Insert(Vec<Step>, String),
    /// The entry or the item at the path taken out.
    Remove(Vec<Step>),
    /// Another key for the value at the path.
    Rename(Vec<Step>, String),
}

/// A text with edits made, and what was replaced in the old one: ranges of it, in ascending order.
#[derive(Debug, PartialEq, Eq, Drop)]
pub struct Edited {
    pub text: String,
    pub replaced: Vec<Splice>,
}

/// Why an edit cannot be made.
#[derive(Debug, Clone, Copy, PartialEq, Eq)]
pub enum EditError {
    /// The text is no document.
    NotADocument,
    /// What was given as a value is not one value alone.
    NotAValue,
    /// Nothing that can be edited is written at the path: nothing is there, or, to set or to remove it, a table or an array
    /// that is written by headers or by dotted keys; and for an insert no table or array that takes it, or an index that is
    /// not the number of items; or the paths of a long text would take more than 256 bytes for each of its bytes, as where
    /// a long key stands above many short lines. No contract says when this comes.
    NoPlace,
    /// Two edits touch the same place, or one lies within what another one replaces.
    Overlap,
    /// The new text is not the document with these edits, as where the key is there already, or what they replace
    /// overlaps.
    Refused,
    /// Memory ran out.
    Memory,
}

/// A refused allocation, which `?` passes on as `EditError::Memory`.
impl From<AllocError> for EditError {
    ghost use Rattle.std.specs.Prelude.{◌≡◌};
    ghost use Rattle.manifest_places.specs.declared.edits.EditError.TheVariants.{Memory};

    ghost from_gives = { λ _ e. e ≡ Memory };

    fn from(_refused: AllocError) -> EditError {
        EditError::Memory
    }
}

/// A refused allocation, which `?` passes on as `EditError::Memory`.
impl<T: Drop> From<AllocFailed<T>> for EditError {
    ghost use Rattle.std.specs.Prelude.{◌≡◌};
    ghost use Rattle.manifest_places.specs.declared.edits.EditError.TheVariants.{Memory};

    ghost from_gives = { λ _ e. e ≡ Memory };

    fn from(_refused: AllocFailed<T>) -> EditError {
        EditError::Memory
    }
}

/// The text with all of these edits, and the ranges that they replace, which an editor takes; or the reason why they
/// cannot be made, and then none is made. Paths and indexes are those of the document as it was given. However many edits
/// there are, it reads the text three times and the new text once: its document, to find the places, and to check them;
/// and once more where a key is renamed that stands in headers.
///
/// ```ignore
/// let path = vec![in alloc; Step::Key(String::from_str(alloc, "a")?)]?;
/// let edits = vec![in alloc; Edit::Set(path, String::from_str(alloc, "2")?)]?;
/// let new = with_edits(alloc, "a = 1 # one\n", edits)?.text; // "a = 2 # one\n"
/// ```
pub fn with_edits(alloc: Global, text: &str, edits: Vec<Edit>) -> Result<Edited, EditError>
    ensures made { IfOk result (λ e. IsEdit text.now (map edit_of edits.items)
        (map splice_of e.replaced.items) (string_bytes e.text)) }
    ensures refused { IfErr result (IsReason text.now (map edit_of edits.items)) }
    ensures no_document { IfErr result
        (λ e. document text.now ≡ None → (e ≡ NotADocument) ⊎ (e ≡ Memory)) }
{
    let Some(old) = document_of(alloc, text)? else {
        return Err(EditError::NotADocument);
    };
    let mut plans = match plans_of(alloc, text, edits) {
        Ok(plans) => plans,
        Err(error) => return Err(error),
    };
    plans.sort_by_key(|plan| plan.at)?;
    match made(alloc, text, old, plans) {
        Ok(new) => Ok(new),
        Err(error) => Err(error),
    }
}

/// How each of the edits is made.
fn plans_of(alloc: Global, text: &str, edits: Vec<Edit>) -> Result<Vec<Plan>, EditError>
    ensures edits { IfOk result (λ plans.
        map edit_in (map plan_of plans.items) ≡ map edit_of edits.items) }
    ensures planned { IfOk result (λ plans. All (IsPlan text.now) (map plan_of plans.items)) }
    ensures refused { IfErr result (IsReason text.now (map edit_of edits.items)) }
{
    let survey = match walk(alloc, text) {
        Ok(survey) => survey,
        Err(ParseError::OutOfMemory) => return Err(EditError::Memory),
        Err(ParseError::At(_, _, _)) => return Err(EditError::NoPlace),
    };
    let company = company_of(alloc, &survey, edits.as_slice())?;
    let mut plans = Vec::new(alloc);
    for edit in edits {
        let plan = match planned(alloc, text, &survey, &company, plans.len(), edit) {
            Ok(plan) => plan,
            Err(error) => return Err(error),
        };
        plans.push(plan)?;
    }
    Ok(plans)
}

/// The text that these plans make.
fn made(alloc: Global, text: &str, old: Value, plans: Vec<Plan>) -> Result<Edited, EditError>
    requires read { document text.now ≡ Some (view old) }
    requires planned { All (IsPlan text.now) (map plan_of plans.items) }
    ensures made { IfOk result (λ e. IsEdit text.now (map edit_in (map plan_of plans.items))
        (map splice_of e.replaced.items) (string_bytes e.text)) }
    ensures refused { IfErr result (MakeNone text.now (map plan_of plans.items)) }
{
    let parts = parted(alloc, plans)?;
    let Parts {
        mut places,
        headers,
        mut splices,
        mut changes,
    } = parts;
    places.sort_by_key(|place| place.from)?;
    if !are_places_in(alloc, text, &old, places.as_slice())? {
        return Err(EditError::Overlap);
    }
    if !are_opened(alloc, text, &old, headers)? {
        return Err(EditError::NoPlace);
    }
    splices.sort_by_key(|splice| (splice.from, splice.to))?;
    changes.reverse();
    match edited_in(alloc, text, old, splices.as_slice(), changes)? {
        Some(new) => Ok(Edited {
            text: new,
            replaced: splices,
        }),
        None => Err(EditError::Refused),
    }
}

/// Whether these are the headers of their tables, if there are any.
fn are_opened(
    alloc: Global,
    text: &str,
    old: &Value,
    headers: Vec<Place>,
) -> Result<bool, AllocError>
    requires { document text.now ≡ Some (view old.now) }
    ensures { IfOk result (λ good. IsTrue good → AreOpened text.now (map place_of headers.items)) }
{
    if headers.is_empty() {
        return Ok(true);
    }
    let mut ordered = headers;
    ordered.sort_by_key(|header| header.from)?;
    let good = are_headers_in(alloc, text, old, ordered.as_slice())?;
    Ok(good)
}

/// The places, headers, splices and changes of plans.
#[derive(Drop)]
struct Parts {
    places: Vec<Place>,
    headers: Vec<Place>,
    splices: Vec<Splice>,
    changes: Vec<ChangeAt>,
}

/// The places, headers, splices and changes of these plans.
fn parted(alloc: Global, plans: Vec<Plan>) -> Result<Parts, AllocError>
    ensures places { IfOk result (λ p.
        map place_of p.places.items ≡ flat_map places_in (map plan_of plans.items)) }
    ensures headers { IfOk result (λ p.
        map place_of p.headers.items ≡ flat_map headers_in (map plan_of plans.items)) }
    ensures splices { IfOk result (λ p.
        map splice_of p.splices.items ≡ flat_map splices_in (map plan_of plans.items)) }
    ensures changes { IfOk result (λ p.
        map change_at_of p.changes.items ≡ map change_in (map plan_of plans.items)) }
{
    let mut places = Vec::new(alloc);
    let mut headers = Vec::new(alloc);
    let mut splices = Vec::new(alloc);
    let mut changes = Vec::new(alloc);
    for plan in plans {
        let Plan {
            places: more_places,
            headers: more_headers,
            splices: more_splices,
            change,
            ..
        } = plan;
        put_places(&mut places, more_places)?;
        put_places(&mut headers, more_headers)?;
        put_splices(&mut splices, more_splices)?;
        changes.push(change)?;
    }
    Ok(Parts {
        places,
        headers,
        splices,
        changes,
    })
}

/// The places, and more of them.
fn put_places(places: &mut Vec<Place>, more: Vec<Place>) -> Result<(), AllocError>
    ensures { OnOk result (map place_of places.new.items
        ≡ map place_of places.old.items ++ map place_of more.items) }
{
    for place in more {
        places.push(place)?;
    }
    Ok(())
}

/// The splices, and more of them.
pub(crate) fn put_splices(splices: &mut Vec<Splice>, more: Vec<Splice>) -> Result<(), AllocError>
    ensures { OnOk result (map splice_of splices.new.items
        ≡ map splice_of splices.old.items ++ map splice_of more.items) }
{
    for splice in more {
        splices.push(splice)?;
    }
    Ok(())
}
