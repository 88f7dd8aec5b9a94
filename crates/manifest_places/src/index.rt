//! An index of places by their paths. Nothing is promised of what it finds: `located.rt` checks it.

use crate::step::Step;
use std::alloc::{AllocError, Global};
use std::collections::BTreeMap;

/// Where the place of a value stands among all: its round, and its index there.
#[derive(Clone, Copy, Debug)]
pub(crate) struct Entry {
    pub round: usize,
    pub index: usize,
}

/// What stands at one path.
#[derive(Debug, Drop)]
pub(crate) struct Node {
    /// The nodes one step on, by their keys.
    keys: BTreeMap<String, usize>,
    /// And by their indexes.
    items: BTreeMap<usize, usize>,
    /// The value at the path.
    pub value: Option<Entry>,
    /// The first value below it whose key goes through its last step.
    pub through: Option<Entry>,
    /// The header that opens the table at the path, or the first one that goes through it.
    pub header: Option<usize>,
}

/// What stands at a path or below it, this many steps on: the indexes of a value and of a header.
#[derive(Clone, Copy)]
pub(crate) struct Below {
    pub steps: usize,
    pub value: Option<usize>,
    pub header: Option<usize>,
}

/// The nodes: the first one is that of the empty path.
#[derive(Debug, Drop)]
pub(crate) struct Index {
    nodes: Vec<Node>,
}

impl Index {
    /// An index of no places.
    pub(crate) fn new(alloc: Global) -> Result<Index, AllocError> {
        let mut nodes = Vec::new(alloc);
        nodes.push(empty_node(alloc))?;
        Ok(Index { nodes })
    }

    /// The deepest node that the path leads to, and how many steps lead there.
    pub(crate) fn reached(&self, path: &[Step]) -> (usize, Option<&Node>) {
        let mut at = 0usize;
        let mut steps = 0usize;
        for step in path {
            match self.next(at, step) {
                Some(next) => at = next,
                None => break,
            }
            steps = steps.saturating_add(1);
        }
        (steps, self.nodes.get(at))
    }

    /// What stands at the path and below it, where the places of values are in one round.
    pub(crate) fn below(&self, alloc: Global, path: &[Step]) -> Result<Vec<Below>, AllocError> {
        let mut found = Vec::new(alloc);
        let mut left = Vec::new(alloc);
        if let Some(at) = self.at(path) {
            left.push((at, 0usize))?;
        }
        for _node in 0..self.nodes.len() {
            let Some((at, steps)) = left.pop() else {
                break;
            };
            let Some(node) = self.nodes.get(at) else {
                break;
            };
            found.push(Below {
                steps,
                value: node.value.map(|entry| entry.index),
                header: node.header,
            })?;
            for (_key, next) in &node.keys {
                left.push((*next, steps.saturating_add(1)))?;
            }
            for (_item, next) in &node.items {
                left.push((*next, steps.saturating_add(1)))?;
            }
        }
        Ok(found)
    }

    /// The node that the path leads to.
    fn at(&self, path: &[Step]) -> Option<usize> {
        let mut at = 0usize;
        for step in path {
            at = self.next(at, step)?;
        }
        Some(at)
    }

    /// Adds the place of a value, whose key has this many parts.
    pub(crate) fn add_value(
        &mut self,
        alloc: Global,
        path: &[Step],
        parts: usize,
        entry: Entry,
    ) -> Result<(), AllocError> {
        let mut at = 0usize;
        let mut left = path.len();
        for step in path {
            at = self.made(alloc, at, step)?;
            left = left.saturating_sub(1);
            if left < parts {
                self.mark_value(at, left, entry);
            }
        }
        self.mark_value(at, 0, entry);
        Ok(())
    }

    /// Adds a header.
    pub(crate) fn add_header(
        &mut self,
        alloc: Global,
        path: &[Step],
        header: usize,
    ) -> Result<(), AllocError> {
        let mut at = 0usize;
        let mut left = path.len();
        for step in path {
            at = self.made(alloc, at, step)?;
            left = left.saturating_sub(1);
            self.mark_header(at, left, header);
        }
        Ok(())
    }

    /// Notes a value with this many steps from the node to it.
    fn mark_value(&mut self, at: usize, left: usize, entry: Entry) {
        if let Some(node) = self.nodes.get_mut(at) {
            if left == 0 {
                node.value = Some(entry);
            } else if node.through.is_none() {
                node.through = Some(entry);
            }
        }
    }

    /// Notes a header with this many steps from the node to its table.
    fn mark_header(&mut self, at: usize, left: usize, header: usize) {
        if let Some(node) = self.nodes.get_mut(at) {
            if left == 0 || node.header.is_none() {
                node.header = Some(header);
            }
        }
    }

    /// The node one step on.
    fn next(&self, at: usize, step: &Step) -> Option<usize> {
        let node = self.nodes.get(at)?;
        match step {
            Step::Key(key) => node.keys.get(key.as_str()).copied(),
            Step::Index(index) => node.items.get(index).copied(),
        }
    }

    /// The node one step on, made where there was none.
    fn made(&mut self, alloc: Global, at: usize, step: &Step) -> Result<usize, AllocError> {
        if let Some(next) = self.next(at, step) {
            return Ok(next);
        }
        let fresh = self.nodes.len();
        self.nodes.push(empty_node(alloc))?;
        if let Some(node) = self.nodes.get_mut(at) {
            match step {
                Step::Key(key) => {
                    let name = String::from_str(alloc, key.as_str())?;
                    node.keys.insert(name, fresh)?;
                }
                Step::Index(index) => {
                    node.items.insert(*index, fresh)?;
                }
            }
        }
        Ok(fresh)
    }
}

fn empty_node(alloc: Global) -> Node {
    Node {
        keys: BTreeMap::new(alloc),
        items: BTreeMap::new(alloc),
        value: None,
        through: None,
        header: None,
    }
}
