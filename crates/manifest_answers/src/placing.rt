//! Where that stands in the text of a document which is found in it, as tagged bytes.

ghost use Rattle.manifest_schema.specs.Prelude.{view, table_view};
ghost use Rattle.std.specs.Prelude.{◌≡◌, IfOk, IfSome, map};
ghost use Rattle.manifest_fault.specs.Faults.{path_of};
ghost use Rattle.manifest_fault.specs.Placed.{placed_among};
ghost use Rattle.manifest_fault.specs.Found.{found_among};
ghost use Rattle.manifest_places.specs.Finding.{AreFound};
ghost use Rattle.manifest_places.specs.Findings.{paths_by, finding_paths};
ghost use Rattle.manifest_answers.specs.Made.{IsMade};
ghost use Rattle.manifest_answers.specs.Placed.{range_data, located_data, places_data, AreFoundIn, GivesPlaced, RefusesPlaced, GivesPlacedFound, RefusesPlacedFound, GivesPlacedFindings, RefusesPlacedFindings};

use crate::inspecting::{index_number, nodes_value, pair, triple};
use crate::making::tagged_bytes;
use crate::positions::text_of;
use crate::reading::document;
use crate::refusal::Refusal;
use cargo_manifest::{Finding, FindingNode, KeyPath, Unread, Value, inspect_with_metadata};
use manifest_places::{AtItsKey, Located, LooksAt, Places, Span, places_of};
use manifest_written::Written;
use std::alloc::{AllocError, Global};
use toml::Table;

/// A range as a value: the array of where it begins and where it ends; of none the empty array.
pub(crate) fn range_value(alloc: Global, range: Option<Span>) -> Result<Value, AllocError>
    ensures { IfOk result (λ v. view v ≡ range_data range) }
{
    match range {
        None => Ok(Value::Array(Vec::new(alloc))),
        Some(span) => {
            let from = Value::Integer(index_number(span.from));
            let to = Value::Integer(index_number(span.to));
            pair(alloc, from, to)
        }
    }
}

/// Where a finding stands, as a value: the ranges of the value, of its key and of its header.
pub(crate) fn located_value(alloc: Global, located: Located) -> Result<Value, AllocError>
    ensures { IfOk result (λ v. view v ≡ located_data located) }
{
    let value = range_value(alloc, located.value)?;
    let key = range_value(alloc, located.key)?;
    let header = range_value(alloc, located.header)?;
    triple(alloc, value, key, header)
}

/// Where some things stand, as a value: the array with one for each, in their order.
pub(crate) fn places_value(alloc: Global, all: &[Located]) -> Result<Value, AllocError>
    ensures { IfOk result (λ v. view v ≡ places_data all.now) }
{
    let mut values = Vec::new(alloc);
    for located in all {
        values.push(located_value(alloc, *located)?)?;
    }
    Ok(Value::Array(values))
}

/// The places of the text that the bytes are, where they are found.
fn places_in(alloc: Global, bytes: &[u8]) -> Result<Option<Places>, AllocError>
    ensures { IfOk result (λ found. IfSome found (AreFound bytes.now)) }
{
    let Ok(text) = text_of(bytes) else {
        return Ok(None);
    };
    let found = places_of(alloc, text)?;
    Ok(found)
}

/// Where in the text that stands which the nodes say, one for each in their order, at the path at which `L` looks for it; or
/// none at all, where they say nothing or the places of the text are not found.
pub(crate) fn located<C, L: LooksAt<C>>(
    alloc: Global,
    bytes: &[u8],
    nodes: &[FindingNode<C>],
) -> Result<Vec<Located>, AllocError>
    ensures { IfOk result
        (λ all. AreFoundIn bytes.now (paths_by L.leads (placed_among nodes.now)) all.items) }
{
    if nodes.is_empty() {
        return Ok(Vec::new(alloc));
    }
    let Some(places) = places_in(alloc, bytes)? else {
        return Ok(Vec::new(alloc));
    };
    let all = places.locate_by::<C, L>(alloc, nodes)?;
    Ok(all)
}

/// Where in the text that stands which belongs to the paths, one for each in their order; or none at all, where there are
/// none or the places of the text are not found.
pub(crate) fn located_paths(
    alloc: Global,
    bytes: &[u8],
    paths: &[KeyPath],
) -> Result<Vec<Located>, AllocError>
    ensures { IfOk result (λ all. AreFoundIn bytes.now (map path_of paths.now) all.items) }
{
    if paths.is_empty() {
        return Ok(Vec::new(alloc));
    }
    let Some(places) = places_in(alloc, bytes)? else {
        return Ok(Vec::new(alloc));
    };
    let all = places.locate_paths(alloc, paths)?;
    Ok(all)
}

/// Where in the text the findings of the schema stand that the nodes say.
fn located_findings(
    alloc: Global,
    bytes: &[u8],
    nodes: &[FindingNode<Finding>],
) -> Result<Vec<Located>, AllocError>
    ensures { IfOk result
        (λ all. AreFoundIn bytes.now (finding_paths (found_among nodes.now)) all.items) }
{
    let all = located::<Finding, AtItsKey>(alloc, bytes, nodes)?;
    Ok(all)
}

/// The tagged bytes of nodes, and of where in the text that stands which they say.
fn bytes_of_placed(
    alloc: Global,
    bytes: &[u8],
    nodes: &[FindingNode<Finding>],
    most: usize,
) -> Result<Vec<u8>, Refusal>
    ensures { IsMade (GivesPlaced most bytes.now nodes.now)
        (RefusesPlaced most bytes.now nodes.now) result }
{
    let all = located_findings(alloc, bytes, nodes)?;
    let places = places_value(alloc, all.as_slice())?;
    let tree = nodes_value(alloc, nodes)?;
    let value = pair(alloc, tree, places)?;
    tagged_bytes(alloc, &Written::Value(&value), most)
}

/// The tagged bytes of what is found in the table of this text, whose metadata is not looked at, and of where it stands.
fn bytes_of_table(
    alloc: Global,
    bytes: &[u8],
    table: &Table,
    most: usize,
) -> Result<Vec<u8>, Refusal>
    ensures { let document = table_view table.now in
        IsMade (GivesPlacedFound most bytes.now document)
        (RefusesPlacedFound most bytes.now document) result }
{
    let found = inspect_with_metadata::<Unread, Unread>(alloc, table)?;
    bytes_of_placed(alloc, bytes, found.nodes(), most)
}

/// The tagged bytes of what is found in the table of a TOML document, and of where in its text that stands. Refuses as
/// [`document_findings`](crate::inspecting::document_findings) does.
pub(crate) fn placed_findings(alloc: Global, bytes: &[u8], most: usize) -> Result<Vec<u8>, Refusal>
    ensures { IsMade (GivesPlacedFindings most bytes.now)
        (RefusesPlacedFindings most bytes.now) result }
{
    let table = match document(alloc, bytes) {
        Ok(table) => table,
        Err(refused) => return Err(Refusal::Bytes(refused)),
    };
    let found = bytes_of_table(alloc, bytes, &table, most);
    drop(table);
    found
}
