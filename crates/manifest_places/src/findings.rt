//! Where that stands in the text of a document which is found in it.

ghost use Rattle.std.specs.Prelude.{◌≡◌, ◌++◌, IfOk, OnOk, List, map};
ghost use Rattle.manifest_fault.specs.Faults.{path_of as key_path_of};
ghost use Rattle.manifest_fault.specs.Placed.{placed_in, placed_among};
ghost use Rattle.manifest_fault.specs.Found.{found_among};
ghost use Rattle.manifest_places.specs.Paths.{Path, path_of};
ghost use Rattle.manifest_places.specs.Located.{IsLocated};
ghost use Rattle.manifest_places.specs.Findings.{AreLocated, paths_by, paths_below, finding_paths, path_to_finding, path_itself};

use crate::finding::Places;
use crate::located::Located;
use crate::step::copy_of;
use manifest_fault::{Finding, FindingNode, KeyPath, Step};
use std::alloc::{AllocError, Global};

/// At which path a thing is looked for, whatever a thing is (`C`), by the path at which it is found and by what it is.
pub trait LooksAt<C> {
    /// The path at which it is looked for.
    ghost leads: { Path → C → Path };

    /// Where that stands which is found at the path. The path stays as it is, unless memory runs out.
    fn located(
        places: &Places,
        alloc: Global,
        found: &C,
        path: &mut Vec<Step>,
    ) -> Result<Located, AllocError>
        ensures located { IfOk result
            (IsLocated places.now (leads (path_of path.old.items) found.now)) }
        ensures path { OnOk result (path_of path.new.items ≡ path_of path.old.items) };
}

/// What is found is looked for at the very path at which it is found.
pub struct AtItsPath;

impl<C> LooksAt<C> for AtItsPath {
    ghost leads = { path_itself };

    fn located(
        places: &Places,
        _alloc: Global,
        _found: &C,
        path: &mut Vec<Step>,
    ) -> Result<Located, AllocError> {
        Ok(places.locate(path.as_slice()))
    }
}

/// What the schema finds is looked for at its path, and a key that nothing reads at the path of that key.
pub struct AtItsKey;

impl LooksAt<Finding> for AtItsKey {
    ghost leads = { path_to_finding };

    fn located(
        places: &Places,
        alloc: Global,
        found: &Finding,
        path: &mut Vec<Step>,
    ) -> Result<Located, AllocError> {
        match found {
            Finding::Unused(key) => {
                path.push(Step::Key(String::from_str(alloc, key.as_str())?))?;
                let located = places.locate(path.as_slice());
                drop(path.pop());
                Ok(located)
            }
            Finding::Fault(_, _) => Ok(places.locate(path.as_slice())),
            Finding::Ignored(_, _) => Ok(places.locate(path.as_slice())),
        }
    }
}

impl Places {
    /// Where each of the findings of the schema stands, in the order in which they are reported: that which belongs to its
    /// path, as [`locate`](Places::locate) says. The path of a key that nothing reads ends with that key.
    ///
    /// ```ignore
    /// let located = places.locate_findings(alloc, found.nodes())?; // as many as there are findings
    /// ```
    #[tactic(auto, using(crate::proofs::FindingLemmas::paths_to_findings))]
    pub fn locate_findings(
        &self,
        alloc: Global,
        nodes: &[FindingNode<Finding>],
    ) -> Result<Vec<Located>, AllocError>
        ensures { IfOk result
            (λ all. AreLocated self.now (finding_paths (found_among nodes.now)) all.items) }
    {
        let all = self.locate_by::<Finding, AtItsKey>(alloc, nodes)?;
        Ok(all)
    }

    /// Where each thing stands that the nodes say, in their order: that which belongs to the path at which `L` looks for
    /// it, as [`locate`](Places::locate) says.
    ///
    /// ```ignore
    /// let located = places.locate_by::<Refusal, AtItsPath>(alloc, refusals.nodes())?; // of each refusal, at its path
    /// ```
    pub fn locate_by<C, L: LooksAt<C>>(
        &self,
        alloc: Global,
        nodes: &[FindingNode<C>],
    ) -> Result<Vec<Located>, AllocError>
        ensures { IfOk result
            (λ all. AreLocated self.now (paths_by L.leads (placed_among nodes.now)) all.items) }
    {
        let mut path = Vec::new(alloc);
        let mut all = Vec::new(alloc);
        self.push_nodes::<C, L>(alloc, nodes, &mut path, &mut all)?;
        Ok(all)
    }

    /// Where that stands which belongs to each of the paths, in their order, as [`locate`](Places::locate) says.
    ///
    /// ```ignore
    /// let located = places.locate_paths(alloc, unfound.as_slice())?; // as many as there are paths
    /// ```
    pub fn locate_paths(&self, alloc: Global, paths: &[KeyPath]) -> Result<Vec<Located>, AllocError>
        ensures { IfOk result
            (λ all. AreLocated self.now (map key_path_of paths.now) all.items) }
    {
        let mut all = Vec::new(alloc);
        for path in paths {
            all.push(self.locate(path.steps.as_slice()))?;
        }
        Ok(all)
    }

    /// The list, and after it where that stands which a node says of the value at the path.
    #[cycle(located)]
    fn push_node<C, L: LooksAt<C>>(
        &self,
        alloc: Global,
        node: &FindingNode<C>,
        path: &mut Vec<Step>,
        all: &mut Vec<Located>,
    ) -> Result<(), AllocError>
        ensures all { OnOk result ((before : List Path)
            → AreLocated self.now before all.old.items → AreLocated self.now
            (before ++ paths_below L.leads (path_of path.old.items) (placed_in node.now))
            all.new.items) }
        ensures path { OnOk result (path_of path.new.items ≡ path_of path.old.items) }
    {
        match node {
            FindingNode::Here(found) => {
                let located = L::located(self, alloc, found, path)?;
                all.push(located)?;
                Ok(())
            }
            FindingNode::Within(step, nodes) => {
                path.push(copy_of(alloc, step)?)?;
                self.push_nodes::<C, L>(alloc, nodes, path, all)?;
                drop(path.pop());
                Ok(())
            }
        }
    }

    /// The list, and after it where that stands which the nodes say of the value at the path.
    #[cycle(located)]
    fn push_nodes<C, L: LooksAt<C>>(
        &self,
        alloc: Global,
        nodes: &[FindingNode<C>],
        path: &mut Vec<Step>,
        all: &mut Vec<Located>,
    ) -> Result<(), AllocError>
        ensures all { OnOk result ((before : List Path)
            → AreLocated self.now before all.old.items → AreLocated self.now
            (before ++ paths_below L.leads (path_of path.old.items) (placed_among nodes.now))
            all.new.items) }
        ensures path { OnOk result (path_of path.new.items ≡ path_of path.old.items) }
    {
        for node in nodes {
            self.push_node::<C, L>(alloc, node, path, all)?;
        }
        Ok(())
    }
}
