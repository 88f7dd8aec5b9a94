//! What the edits of one call do next to one another: what others take out, and where others put in.

use crate::edits::Edit;
use crate::step::Step;
use crate::walk::Survey;
use std::alloc::{AllocError, Global};
use std::collections::BTreeSet;

/// Whether edits before one, and after one, put in at the same place.
#[derive(Clone, Copy)]
pub(crate) struct Others {
    pub before: bool,
    pub after: bool,
}

/// What is known of all edits of one call.
#[derive(Drop)]
pub(crate) struct Company {
    /// Where the values begin that are taken out.
    taken: BTreeSet<usize>,
    /// For each edit, which others put in where it does.
    others: Vec<Others>,
    /// Whether one of them puts in a value.
    inserts: bool,
}

impl Company {
    /// Whether the value that begins there is taken out.
    pub(crate) fn takes(&self, at: usize) -> bool {
        self.taken.contains(&at)
    }

    /// Whether one of the edits puts in a value.
    pub(crate) fn inserts(&self) -> bool {
        self.inserts
    }

    /// Which others put in where the edit with this number does.
    pub(crate) fn others(&self, number: usize) -> Others {
        match self.others.as_slice().get(number) {
            Some(others) => *others,
            None => Others {
                before: false,
                after: false,
            },
        }
    }
}

pub(crate) fn company_of(
    alloc: Global,
    survey: &Survey,
    edits: &[Edit],
) -> Result<Company, AllocError> {
    let mut taken = BTreeSet::new(alloc);
    let mut others = Vec::new(alloc);
    let mut inserts = false;
    for number in 0..edits.len() {
        if let Edit::Remove(path) = &edits[number] {
            if let Some(found) = survey.value(path.as_slice()) {
                taken.insert(found.value.from)?;
            }
        }
        inserts |= insert_place(edits.get(number)).is_some();
        others.push(others_of(edits, number))?;
    }
    Ok(Company {
        taken,
        others,
        inserts,
    })
}

fn others_of(edits: &[Edit], number: usize) -> Others {
    let mut others = Others {
        before: false,
        after: false,
    };
    if let Some(place) = insert_place(edits.get(number)) {
        for i in 0..edits.len() {
            if i != number && insert_place(edits.get(i)) == Some(place) {
                others.before |= i < number;
                others.after |= i > number;
            }
        }
    }
    others
}

/// The path of the table or the array that the edit puts a value in.
fn insert_place(edit: Option<&Edit>) -> Option<&[Step]> {
    match edit {
        Some(Edit::Insert(path, _)) => match path.as_slice().split_last() {
            Some((_last, front)) => Some(front),
            None => None,
        },
        _ => None,
    }
}
