//! The items of a list that is read, one after the other, whether it is borrowed or owned.

ghost use Rattle.manifest_schema.specs.Prelude.{array, items_view, index, list_of};
ghost use Rattle.std.specs.Prelude.{map};
ghost use Rattle.std.specs.Iterator.{YieldsFirstBy, item_count};
ghost use Rattle.manifest_value.specs.Reading.{Gives, GivesUnder};
ghost use Rattle.manifest_value.specs.Sources.{source_value, source_view, items_left};

use crate::schema::Schema;
use crate::source::Source;
use manifest_fault::fault::fault_under_step;
use manifest_fault::{ReadFault, Step};
use std::alloc::Global;
use std::{slice, vec};
use toml::Value;

/// The items of a list that is read, in their order.
#[derive(Drop)]
pub(crate) enum Items<'t> {
    /// Those of a list that stays where it is.
    Borrowed(slice::Iter<'t, Value>),
    /// Those of an owned list: each value is gone once it is read.
    Owned(vec::IntoIter<Value, Global>),
}

/// Gives each item, borrowed or owned as the list is.
impl<'t> Iterator for Items<'t> {
    type Item = Source<'t>;

    ghost next_gives = { YieldsFirstBy source_value items_left };

    ghost remaining = { item_count items_left };

    #[inline(always)]
    fn next(&mut self) -> Option<Source<'t>> {
        match self {
            Items::Borrowed(items) => match items.next() {
                Some(value) => Some(Source::Borrowed(value)),
                None => None,
            },
            Items::Owned(items) => match items.next() {
                Some(value) => Some(Source::Owned(value)),
                None => None,
            },
        }
    }
}

/// Reads an item of an array as a `T`; a fault gets the item's index `i` before its path.
#[inline(always)]
#[tactic(auto, using(crate::proofs::FirstLemmas::step_laws))]
fn read_item<T: Schema>(alloc: Global, source: Source<'_>, i: usize) -> Result<T, ReadFault>
    ensures { GivesUnder (index i) T.kind T.content (source_view source.entry) result }
{
    match T::read(alloc, source) {
        Ok(x) => Ok(x),
        Err(fault) => Err(fault_under_step(Step::Index(i), fault)),
    }
}

/// Reads items in their order into a list of room for `room` items, and stops at the first fault.
pub(crate) fn read_items<T: Schema>(
    alloc: Global,
    room: usize,
    items: Items<'_>,
) -> Result<Vec<T>, ReadFault>
    ensures { let d = array (items_view (items_left items.entry)) in
        Gives (list_of T.kind) (λ v. map T.content v.items) d result }
{
    let mut all = Vec::with_capacity(alloc, room)?;
    for source in items {
        match read_item(alloc, source, all.len()) {
            Ok(x) => all.push(x)?,
            Err(fault) => return Err(fault),
        }
    }
    Ok(all)
}
