//! What a walk over a table finds.

ghost use Rattle.std.specs.Prelude.{◌≡◌};

use crate::entries::Entry;
use crate::source::Source;
use std::mem;

/// What a table holds under the spellings of a row.
#[derive(Drop)]
pub enum RowSlot<'t> {
    /// Neither spelling.
    Absent,
    /// One spelling, and the value under it.
    One {
        /// The spelling that is there.
        spelling: &'static str,
        /// The value, as it is read.
        value: Source<'t>,
    },
    /// Both spellings.
    Clash,
}

impl<'t> RowSlot<'t> {
    /// Takes out what the slot holds. Nothing is moved where it is `Absent`, as most slots are.
    #[inline(always)]
    pub(crate) fn take(&mut self) -> RowSlot<'t>
        ensures { result ≡ self.old }
    {
        match self {
            RowSlot::Absent => RowSlot::Absent,
            RowSlot::One { .. } => mem::replace(self, RowSlot::Absent),
            RowSlot::Clash => RowSlot::Clash,
        }
    }
}

/// What a walk finds: a slot for each row, and all other keys with their values, in byte order.
#[derive(Drop)]
pub struct Walk<'t> {
    /// What the table holds for each row, in the order of the rows.
    pub slots: Vec<RowSlot<'t>>,
    /// Every key that no row names, with its value.
    pub rest: Vec<Entry<'t>>,
}
