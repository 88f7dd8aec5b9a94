//! What the schema finds in a value: its faults, what is ignored where it does not fit, and keys that nothing reads.

ghost use Rattle.manifest_schema.specs.Prelude.{found_here, found_under, leniently, faults_of, ignored_of, unused_of, key as key_step};
ghost use Rattle.std.specs.Prelude.{◌≡◌, ◌++◌, [], ◌∷◌, IfOk, map};
ghost use Rattle.manifest_fault.specs.Faults.{path_of, cause_of};
ghost use Rattle.manifest_fault.specs.Found.{choices_of, fault_of, found_in, found_among, found, IsFoundHere};

use crate::fault::{Cause, KeyPath, ReadFault, SchemaFault, Step};
use crate::findings::{FindingNode, Findings};
use std::alloc::{AllocError, Global};

/// The words that there are where a text is not one of a choice; none for any other cause.
pub type Choices = &'static [&'static str];

/// Of each other cause.
const NO_CHOICES: Choices = &[];

/// One thing that the schema finds at a value.
#[derive(Debug, PartialEq, Eq, Drop)]
pub enum Finding {
    /// The value, or its absence, does not fit; of a choice, with the words that there are.
    Fault(Cause, Choices),
    /// The value, or its absence, does not fit, and that is no fault: the field counts as absent, as of a badge.
    Ignored(Cause, Choices),
    /// Nothing reads the entry of this key, and nothing that stands in it is found.
    Unused(String),
}

/// What the calls here return: findings, or out of memory.
pub type Found = Result<Findings<Finding>, AllocError>;

/// The node where it is of a value whose faults are ignored.
#[cycle(lenient)]
fn node_leniently(
    alloc: Global,
    node: FindingNode<Finding>,
) -> Result<FindingNode<Finding>, AllocError>
    ensures { IfOk result (λ n. found_in n ≡ leniently (found_in node)) }
{
    match node {
        FindingNode::Here(finding) => match finding {
            Finding::Fault(cause, choices) => {
                Ok(FindingNode::Here(Finding::Ignored(cause, choices)))
            }
            other => Ok(FindingNode::Here(other)),
        },
        FindingNode::Within(step, nodes) => Ok(FindingNode::Within(
            step,
            nodes_leniently(alloc, nodes)?,
        )),
    }
}

/// The nodes where they are of a value whose faults are ignored.
#[cycle(lenient)]
#[tactic(auto, using(crate::proofs::FindingTrees::finding_steps))]
fn nodes_leniently(
    alloc: Global,
    nodes: Vec<FindingNode<Finding>>,
) -> Result<Vec<FindingNode<Finding>>, AllocError>
    ensures { IfOk result (λ v. found_among v.items ≡ leniently (found_among nodes.items)) }
{
    let mut out = Vec::new(alloc);
    for node in nodes {
        out.push(node_leniently(alloc, node)?)?;
    }
    Ok(out)
}

/// The path with a step to a key after it.
fn path_to_key(alloc: Global, path: KeyPath, key: &str) -> Result<KeyPath, AllocError>
    ensures { IfOk result (λ p. path_of p ≡ path_of path ++ key_step key.now ∷ []) }
{
    let mut steps = path.steps;
    steps.push(Step::Key(String::from_str(alloc, key)?))?;
    Ok(KeyPath { steps })
}

impl Findings<Finding> {
    /// What is found in a value that is refused itself, and in which nothing else is found: its one fault, and of a choice
    /// the words that there are. It fails where the refusal is one of memory, and when out of memory.
    ///
    /// ```ignore
    /// let found = Findings::of_refusal(alloc, refused, &["1", "2", "3"])?; // of the version of a resolver
    /// ```
    #[cold]
    pub fn of_refusal(alloc: Global, refused: ReadFault, choices: Choices) -> Found
        ensures { IfOk result (IsFoundHere (choices_of choices.entry) refused) }
    {
        let cause = match refused {
            ReadFault::Schema(fault) => fault.cause,
            ReadFault::Memory(refused) => return Err(refused),
        };
        match cause {
            Cause::NotAChoice => Findings::alone(alloc, Finding::Fault(cause, choices)),
            _ => Findings::alone(alloc, Finding::Fault(cause, NO_CHOICES)),
        }
    }

    /// The fault of this cause at the value itself, alone, with no choice.
    ///
    /// ```ignore
    /// let found = Findings::here(alloc, Cause::WrongKind)?;
    /// ```
    #[cold]
    pub fn here(alloc: Global, cause: Cause) -> Found
        ensures { IfOk result (λ f. found f ≡ found_here (cause_of cause)) }
    {
        Findings::alone(alloc, Finding::Fault(cause, NO_CHOICES))
    }

    /// The fault of this cause under a key, alone.
    ///
    /// ```ignore
    /// let found = Findings::under(alloc, "name", Cause::Missing)?;
    /// ```
    #[cold]
    #[tactic(auto, using(crate::proofs::FindingTrees::finding_steps))]
    pub fn under(alloc: Global, word: &str, cause: Cause) -> Found
        ensures { IfOk result
            (λ f. found f ≡ found_under (key_step word.now) (found_here (cause_of cause))) }
    {
        let found = Findings::none(alloc).and_under(alloc, word, Findings::here(alloc, cause)?)?;
        Ok(found)
    }

    /// The findings where they are of a value whose faults are ignored: each fault becomes `Ignored`.
    ///
    /// ```ignore
    /// let ignored = Findings::here(alloc, Cause::WrongKind)?.leniently(alloc)?;
    /// ```
    pub fn leniently(self, alloc: Global) -> Found
        ensures { IfOk result (λ f. found f ≡ leniently (found self)) }
    {
        let nodes = nodes_leniently(alloc, self.nodes)?;
        Ok(Findings { nodes })
    }

    /// The faults among the findings, in their order.
    ///
    /// ```ignore
    /// for fault in Findings::here(alloc, Cause::WrongKind)?.faults(alloc)? { .. }
    /// ```
    pub fn faults(&self, alloc: Global) -> Result<Vec<SchemaFault>, AllocError>
        ensures { IfOk result (λ v. map fault_of v.items ≡ faults_of (found self.now)) }
    {
        let mut faults = Vec::new(alloc);
        for (path, finding) in self.to_vec(alloc)? {
            match finding {
                Finding::Fault(cause, _) => faults.push(SchemaFault {
                    path,
                    cause: *cause,
                })?,
                _ => drop(path),
            }
        }
        Ok(faults)
    }

    /// What is ignored among the findings, in their order.
    pub fn ignored(&self, alloc: Global) -> Result<Vec<SchemaFault>, AllocError>
        ensures { IfOk result (λ v. map fault_of v.items ≡ ignored_of (found self.now)) }
    {
        let mut faults = Vec::new(alloc);
        for (path, finding) in self.to_vec(alloc)? {
            match finding {
                Finding::Ignored(cause, _) => faults.push(SchemaFault {
                    path,
                    cause: *cause,
                })?,
                _ => drop(path),
            }
        }
        Ok(faults)
    }

    /// The paths of the keys among the findings that nothing reads, in their order.
    pub fn unused(&self, alloc: Global) -> Result<Vec<KeyPath>, AllocError>
        ensures { IfOk result (λ v. map path_of v.items ≡ unused_of (found self.now)) }
    {
        let mut paths = Vec::new(alloc);
        for (path, finding) in self.to_vec(alloc)? {
            match finding {
                Finding::Unused(key) => paths.push(path_to_key(alloc, path, key.as_str())?)?,
                _ => drop(path),
            }
        }
        Ok(paths)
    }
}
