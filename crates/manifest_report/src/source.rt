//! Texts by their names, and where offsets stand in them.

use manifest_places::{Position, positions_of};
use manifest_rules::File;
use std::alloc::{AllocError, Global};

/// A text, and the name of its file.
#[derive(Clone, Copy)]
pub struct Source<'a> {
    pub name: &'a str,
    pub text: &'a str,
}

/// The text of a member to which a label leads.
#[derive(Drop)]
pub struct MemberSource {
    /// The index of the member.
    pub index: usize,
    pub name: String,
    pub text: String,
}

/// The texts that the places of diagnostics are in.
#[derive(Clone, Copy)]
pub struct Sources<'a> {
    /// The manifest itself.
    pub own: Source<'a>,
    /// The manifest of the workspace's root, where it is another one.
    pub root: Option<Source<'a>>,
    /// The members that labels lead to, by ascending index.
    pub members: &'a [MemberSource],
}

impl<'a> Sources<'a> {
    /// The text of this file, where it is known.
    pub(crate) fn of(&self, file: File) -> Option<Source<'a>> {
        match file {
            File::Own => Some(self.own),
            File::Root => self.root,
            File::Member(index) => self.member(index),
        }
    }

    fn member(&self, index: usize) -> Option<Source<'a>> {
        let members = self.members;
        let at = members.partition_point(|member| member.index < index);
        let member = members.get(at)?;
        if member.index != index {
            return None;
        }
        Some(Source {
            name: member.name.as_str(),
            text: member.text.as_str(),
        })
    }
}

/// Where a text begins.
const START: Position = Position {
    line: 1,
    bytes: 0,
    characters: 0,
    units: 0,
};

/// The byte order mark, which may stand before a text and belongs to no line of it.
const MARK: char = '\u{feff}';

/// The position, where a byte order mark before the text is not counted.
fn after_mark(position: Position) -> Position {
    if position.line > 1 {
        return position;
    }
    Position {
        line: 1,
        bytes: position.bytes.saturating_sub(MARK.len_utf8()),
        characters: position.characters.saturating_sub(1),
        units: position.units.saturating_sub(1),
    }
}

/// The positions of some offsets in a text.
#[derive(Drop)]
pub(crate) struct Positions {
    offsets: Vec<usize>,
    positions: Vec<Position>,
}

impl Positions {
    /// The positions of these offsets, which are all in the text, in one pass over it.
    pub(crate) fn new(
        alloc: Global,
        text: &str,
        offsets: Vec<usize>,
    ) -> Result<Positions, AllocError> {
        let mut offsets = offsets;
        offsets.sort_unstable();
        let mut positions = match positions_of(alloc, text, offsets.as_slice())? {
            Some(positions) => positions,
            None => Vec::new(alloc),
        };
        if text.starts_with(MARK) {
            for position in positions.iter_mut() {
                *position = after_mark(*position);
            }
        }
        Ok(Positions { offsets, positions })
    }

    /// The position of one of these offsets; the beginning of the text for another offset.
    pub(crate) fn at(&self, offset: usize) -> Position {
        let index = self.offsets.as_slice().partition_point(|one| *one < offset);
        match self.positions.get(index) {
            Some(position) => *position,
            None => START,
        }
    }
}
