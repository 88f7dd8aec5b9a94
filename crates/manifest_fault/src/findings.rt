//! What is found in a value, each finding at its path: as a tree, in which each step of a path stands once.
//!
//! So it takes memory in proportion to the value that it is found in, however many findings stand below one long key.
//! What a finding is, the type `C` says: of the schema it is a [`Finding`](crate::Finding).

ghost use Rattle.manifest_schema.specs.Prelude.{key, index};
ghost use Rattle.std.specs.Prelude.{◌≡◌, ◌++◌, [], ◌∷◌, IfOk, OnOk, map, option_map};
ghost use Rattle.manifest_fault.specs.Faults.{step_of, path_of};
ghost use Rattle.manifest_fault.specs.Placed.{placed_here, placed_within, placed_below, first_of, place_of, placed_in, placed_among, placed};

use crate::fault::{KeyPath, Step};
use std::alloc::{AllocError, Global};

/// A part of what is found in a value.
#[derive(Debug, PartialEq, Eq, Drop)]
pub enum FindingNode<C> {
    /// What is found at the value itself.
    Here(C),
    /// What is found in the value that the step leads to.
    Within(Step, Vec<FindingNode<C>>),
}

/// What is found in a value, in the order in which it is reported: depth first, from the first node on.
#[derive(Debug, PartialEq, Eq, Drop)]
pub struct Findings<C> {
    pub(crate) nodes: Vec<FindingNode<C>>,
}

/// The path with the step before it.
fn path_under(alloc: Global, step: &Step, path: KeyPath) -> Result<KeyPath, AllocError>
    ensures { IfOk result (λ p. path_of p ≡ step_of step.now ∷ path_of path) }
{
    let mut steps = path.steps;
    steps.insert(0, step.clone(alloc)?)?;
    Ok(KeyPath { steps })
}

/// The list, and after it what a node says of the value at the path. The path stays as it is, unless memory runs out.
#[cycle(lists)]
fn push_node<'a, C>(
    alloc: Global,
    node: &'a FindingNode<C>,
    path: &mut KeyPath,
    out: Vec<(KeyPath, &'a C)>,
) -> Result<Vec<(KeyPath, &'a C)>, AllocError>
    ensures list { let reported = placed_below (path_of path.old) (placed_in node.now) in
        IfOk result (λ v. map place_of v.items ≡ map place_of out.entry.items ++ reported) }
    ensures path { OnOk result (path_of path.new ≡ path_of path.old) }
{
    let mut out = out;
    match node {
        FindingNode::Here(found) => {
            out.push((path.clone(alloc)?, found))?;
            Ok(out)
        }
        FindingNode::Within(step, nodes) => {
            path.steps.push(step.clone(alloc)?)?;
            let out = push_nodes(alloc, nodes, path, out)?;
            drop(path.steps.pop());
            Ok(out)
        }
    }
}

/// The list, and after it what the nodes say of the value at the path. The path stays as it is, unless memory runs out.
#[cycle(lists)]
fn push_nodes<'a, C>(
    alloc: Global,
    nodes: &'a [FindingNode<C>],
    path: &mut KeyPath,
    out: Vec<(KeyPath, &'a C)>,
) -> Result<Vec<(KeyPath, &'a C)>, AllocError>
    ensures list { let reported = placed_below (path_of path.old) (placed_among nodes.now) in
        IfOk result (λ v. map place_of v.items ≡ map place_of out.entry.items ++ reported) }
    ensures path { OnOk result (path_of path.new ≡ path_of path.old) }
{
    let mut out = out;
    for node in nodes {
        out = push_node(alloc, node, path, out)?;
    }
    Ok(out)
}

/// The first of what a node says, with its path from the value that the node is of, if it says anything.
#[cycle(first)]
fn first_in<C>(alloc: Global, node: &FindingNode<C>) -> Result<Option<(KeyPath, &C)>, AllocError>
    ensures { IfOk result (λ f. option_map place_of f ≡ first_of (placed_in node.now)) }
{
    match node {
        FindingNode::Here(found) => {
            let steps = Vec::new(alloc);
            Ok(Some((KeyPath { steps }, found)))
        }
        FindingNode::Within(step, nodes) => match first_among(alloc, nodes)? {
            Some((path, found)) => Ok(Some((path_under(alloc, step, path)?, found))),
            None => Ok(None),
        },
    }
}

/// The first of what the nodes say, with its path, if they say anything.
#[cycle(first)]
fn first_among<C>(
    alloc: Global,
    nodes: &[FindingNode<C>],
) -> Result<Option<(KeyPath, &C)>, AllocError>
    ensures { IfOk result (λ f. option_map place_of f ≡ first_of (placed_among nodes.now)) }
{
    for node in nodes {
        match first_in(alloc, node)? {
            Some(first) => return Ok(Some(first)),
            None => {}
        }
    }
    Ok(None)
}

impl<C: Drop> Findings<C> {
    /// No finding.
    ///
    /// ```ignore
    /// let none = Findings::none(alloc);
    /// ```
    #[inline(always)]
    pub fn none(alloc: Global) -> Findings<C>
        ensures { placed result ≡ [] }
    {
        Findings {
            nodes: Vec::new(alloc),
        }
    }

    /// This at the value itself, and no more.
    ///
    /// ```ignore
    /// let found = Findings::alone(alloc, Refusal::MixedLints)?;
    /// ```
    pub fn alone(alloc: Global, found: C) -> Result<Findings<C>, AllocError>
        ensures { IfOk result (λ f. placed f ≡ placed_here found) }
    {
        let mut nodes = Vec::new(alloc);
        nodes.push(FindingNode::Here(found))?;
        Ok(Findings { nodes })
    }

    /// These findings, and then this at the value itself.
    ///
    /// ```ignore
    /// let all = found.and_here(Finding::Unused(key))?;
    /// ```
    pub fn and_here(self, found: C) -> Result<Findings<C>, AllocError>
        ensures { IfOk result (λ f. placed f ≡ placed self ++ placed_here found) }
    {
        let mut nodes = self.nodes;
        nodes.push(FindingNode::Here(found))?;
        Ok(Findings { nodes })
    }

    /// These findings, and then more.
    ///
    /// ```ignore
    /// let all = first.and(second)?;
    /// ```
    #[inline(always)]
    pub fn and(self, more: Findings<C>) -> Result<Findings<C>, AllocError>
        ensures { IfOk result (λ f. placed f ≡ placed self ++ placed more) }
    {
        if more.nodes.is_empty() {
            return Ok(self);
        }
        self.and_all(more)
    }

    /// These findings, and then more, whose nodes are moved.
    fn and_all(self, more: Findings<C>) -> Result<Findings<C>, AllocError>
        ensures { IfOk result (λ f. placed f ≡ placed self ++ placed more) }
    {
        let mut nodes = self.nodes;
        for node in more.nodes {
            nodes.push(node)?;
        }
        Ok(Findings { nodes })
    }

    /// These findings, and then those of the value that a step leads to.
    fn and_within(self, step: Step, more: Findings<C>) -> Result<Findings<C>, AllocError>
        ensures { IfOk result
            (λ f. placed f ≡ placed self ++ placed_within (step_of step) (placed more)) }
    {
        let mut nodes = self.nodes;
        nodes.push(FindingNode::Within(step, more.nodes))?;
        Ok(Findings { nodes })
    }

    /// These findings, and then those of the value under a key.
    ///
    /// ```ignore
    /// let all = found.and_under(alloc, "package", inside)?;
    /// ```
    #[inline(always)]
    pub fn and_under(
        self,
        alloc: Global,
        word: &str,
        more: Findings<C>,
    ) -> Result<Findings<C>, AllocError>
        ensures { IfOk result
            (λ f. placed f ≡ placed self ++ placed_within (key word.now) (placed more)) }
    {
        if more.nodes.is_empty() {
            return Ok(self);
        }
        self.and_within(Step::Key(String::from_str(alloc, word)?), more)
    }

    /// These findings, and then those of the item at an index.
    ///
    /// ```ignore
    /// let all = found.and_at(0, first_item)?;
    /// ```
    pub fn and_at(self, i: usize, more: Findings<C>) -> Result<Findings<C>, AllocError>
        ensures { IfOk result
            (λ f. placed f ≡ placed self ++ placed_within (index i) (placed more)) }
    {
        if more.nodes.is_empty() {
            return Ok(self);
        }
        self.and_within(Step::Index(i), more)
    }

    /// The nodes, in their order.
    pub fn nodes(&self) -> &[FindingNode<C>]
        ensures { placed_among result.now ≡ placed self.now }
    {
        self.nodes.as_slice()
    }

    /// The first of the findings, with its path, if there is one.
    ///
    /// ```ignore
    /// if let Some((path, finding)) = found.first(alloc)? { .. }
    /// ```
    pub fn first(&self, alloc: Global) -> Result<Option<(KeyPath, &C)>, AllocError>
        ensures { IfOk result (λ f. option_map place_of f ≡ first_of (placed self.now)) }
    {
        first_among(alloc, self.nodes())
    }

    /// The findings, in their order, each with its whole path.
    ///
    /// Each path has a copy of its keys. So the list can take as much memory as the square of what the findings take:
    /// who takes values from others goes through [`nodes`](Findings::nodes).
    ///
    /// ```ignore
    /// for (path, finding) in found.to_vec(alloc)? { .. }
    /// ```
    pub fn to_vec(&self, alloc: Global) -> Result<Vec<(KeyPath, &C)>, AllocError>
        ensures { IfOk result (λ v. map place_of v.items ≡ placed self.now) }
    {
        let mut path = KeyPath {
            steps: Vec::new(alloc),
        };
        push_nodes(alloc, self.nodes(), &mut path, Vec::new(alloc))
    }
}
