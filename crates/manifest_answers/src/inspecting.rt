//! What is found in the table of a document, as tagged bytes.

ghost use Rattle.manifest_schema.specs.Prelude.{Data, view, table_view};
ghost use Rattle.std.specs.Prelude.{◌≡◌, IfOk, map};
ghost use Rattle.manifest_bytes.specs.Encoded.{encoded};
ghost use Rattle.manifest_fault.specs.Faults.{step_of, cause_of};
ghost use Rattle.manifest_fault.specs.Found.{choices_of};
ghost use Rattle.manifest_answers.specs.Made.{AreWithin, RefusesTagged, IsMade};
ghost use Rattle.manifest_answers.specs.Inspected.{pair_data, triple_data, index_number, step_data, words_data, cause_data, finding_data, node_data, nodes_data, GivesFound, RefusesFound, GivesFindings, RefusesFindings};

use crate::making::tagged_bytes;
use crate::reading::document;
use crate::refusal::Refusal;
use crate::reporting::cause_number;
use cargo_manifest::{
    Cause, Choices, Finding, FindingNode, Step, Unread, Value, inspect_with_metadata,
};
use manifest_written::Written;
use std::alloc::{AllocError, Global};
use toml::Table;

/// An array of two values.
pub(crate) fn pair(alloc: Global, first: Value, second: Value) -> Result<Value, AllocError>
    ensures { IfOk result (λ v. view v ≡ pair_data (view first) (view second)) }
{
    let mut values = Vec::new(alloc);
    values.push(first)?;
    values.push(second)?;
    Ok(Value::Array(values))
}

/// An array of three values.
pub(crate) fn triple(
    alloc: Global,
    first: Value,
    second: Value,
    third: Value,
) -> Result<Value, AllocError>
    ensures { IfOk result (λ v. view v ≡ triple_data (view first) (view second) (view third)) }
{
    let mut values = Vec::new(alloc);
    values.push(first)?;
    values.push(second)?;
    values.push(third)?;
    Ok(Value::Array(values))
}

/// An index as the number of a value. The largest number stands for each index above it, which no list has.
pub(crate) fn index_number(index: usize) -> i64
    ensures { result ≡ index_number index }
{
    if index < 9223372036854775807 {
        index as i64
    } else {
        9223372036854775807
    }
}

/// A step as a value: a text for a key, a number for an index.
pub(crate) fn step_value(alloc: Global, step: &Step) -> Result<Value, AllocError>
    ensures { IfOk result (λ v. view v ≡ step_data (step_of step.now)) }
{
    match step {
        Step::Key(key) => Value::string(alloc, key.as_str()),
        Step::Index(index) => Ok(Value::Integer(index_number(*index))),
    }
}

/// The words of a choice as a value: the array of their texts.
fn words_value(alloc: Global, choices: Choices) -> Result<Value, AllocError>
    ensures { IfOk result (λ v. view v ≡ words_data (choices_of choices.entry)) }
{
    let mut words = Vec::new(alloc);
    for choice in choices {
        words.push(Value::string(alloc, choice)?)?;
    }
    Ok(Value::Array(words))
}

/// A cause as a value, after the number of what is found: its own number, and of a choice the words that there are.
fn cause_value(alloc: Global, what: u8, cause: Cause, choices: Choices) -> Result<Value, AllocError>
    ensures { IfOk result
        (λ v. view v ≡ cause_data what (cause_of cause) (choices_of choices.entry)) }
{
    let what = Value::Integer(i64::from(what));
    let number = Value::Integer(i64::from(cause_number(cause)));
    match cause {
        Cause::NotAChoice => triple(alloc, what, number, words_value(alloc, choices)?),
        _ => pair(alloc, what, number),
    }
}

/// A finding as a value: of the number 0 for a fault, 1 for what is ignored, and 2 for a key that nothing reads.
fn finding_value(alloc: Global, finding: &Finding) -> Result<Value, AllocError>
    ensures { IfOk result (λ v. view v ≡ finding_data finding.now) }
{
    match finding {
        Finding::Fault(cause, choices) => cause_value(alloc, 0, *cause, choices),
        Finding::Ignored(cause, choices) => cause_value(alloc, 1, *cause, choices),
        Finding::Unused(key) => {
            let key = Value::string(alloc, key.as_str())?;
            pair(alloc, Value::Integer(2), key)
        }
    }
}

/// What is found at a value, which is reported as a value.
pub(crate) trait Reported {
    ghost reported: { Self → Data };

    fn reported_value(&self, alloc: Global) -> Result<Value, AllocError>
        ensures { IfOk result (λ v. view v ≡ reported self.now) };
}

impl Reported for Finding {
    ghost reported = { finding_data };

    fn reported_value(&self, alloc: Global) -> Result<Value, AllocError> {
        finding_value(alloc, self)
    }
}

/// A node as a value: that of what is found, or of the number 3 for what is found in the value that a step leads to.
#[cycle(trees)]
fn node_value<C: Reported>(alloc: Global, node: &FindingNode<C>) -> Result<Value, AllocError>
    ensures { IfOk result (λ v. view v ≡ node_data C.reported node.now) }
{
    match node {
        FindingNode::Here(found) => found.reported_value(alloc),
        FindingNode::Within(step, nodes) => {
            let step = step_value(alloc, step)?;
            let inside = nodes_value(alloc, nodes)?;
            triple(alloc, Value::Integer(3), step, inside)
        }
    }
}

/// Nodes as a value: the array of them, in their order.
#[cycle(trees)]
pub(crate) fn nodes_value<C: Reported>(
    alloc: Global,
    nodes: &[FindingNode<C>],
) -> Result<Value, AllocError>
    ensures { IfOk result (λ v. view v ≡ nodes_data C.reported nodes.now) }
{
    let mut all = Vec::new(alloc);
    for node in nodes {
        all.push(node_value(alloc, node)?)?;
    }
    Ok(Value::Array(all))
}

/// The tagged bytes of nodes.
fn bytes_of_nodes(
    alloc: Global,
    nodes: &[FindingNode<Finding>],
    most: usize,
) -> Result<Vec<u8>, Refusal>
    ensures { let tagged = encoded (nodes_data finding_data nodes.now) in
        IsMade (AreWithin most tagged) (RefusesTagged most tagged) result }
{
    let value = nodes_value(alloc, nodes)?;
    tagged_bytes(alloc, &Written::Value(&value), most)
}

/// The tagged bytes of what is found in the table of a document, whose metadata is not looked at.
fn bytes_of_findings(alloc: Global, table: &Table, most: usize) -> Result<Vec<u8>, Refusal>
    ensures { let document = table_view table.now in
        IsMade (GivesFound most document) (RefusesFound most document) result }
{
    let found = inspect_with_metadata::<Unread, Unread>(alloc, table)?;
    bytes_of_nodes(alloc, found.nodes(), most)
}

/// The tagged bytes of what is found in the table of a TOML document. Refuses bytes that are no document, tagged bytes
/// that are more than `most`, and when out of memory.
pub(crate) fn document_findings(
    alloc: Global,
    bytes: &[u8],
    most: usize,
) -> Result<Vec<u8>, Refusal>
    ensures { IsMade (GivesFindings most bytes.now) (RefusesFindings most bytes.now) result }
{
    let table = match document(alloc, bytes) {
        Ok(table) => table,
        Err(refused) => return Err(Refusal::Bytes(refused)),
    };
    let found = bytes_of_findings(alloc, &table, most);
    drop(table);
    found
}
