//! One walk over a table.

ghost use Rattle.manifest_schema.specs.Prelude.{no_members, is_among, without, spell};
ghost use Rattle.std.specs.Prelude.{◌≡◌, ◌<◌, true, false, [], IsTrue, map, length, IfOk, MatchOption};
ghost use Rattle.manifest_value.specs.Sources.{source_view, members_of, row_view, rest_view};
ghost use Rattle.manifest_value.specs.Walks.{spellings_view, all_words, distinct_words, is_word_at, slots_at, filled, filled_at, Ascend};

use crate::entries::{Entries, Entry};
use crate::row_slots::{RowSlot, Walk};
use crate::source::{Source, TableSource};
use crate::spellings::Spellings;
use std::alloc::{AllocError, Global};

/// The spelling of the row that equals the key; `None` where the row has no such spelling.
#[inline(always)]
fn spelling_of(row: &Spellings, key: &str) -> Option<&'static str>
    ensures { let words = spell (spellings_view row.now) [] in
        MatchOption result (is_among words key.now ≡ false)
        (λ s. (s.now ≡ key.now) × (is_among words key.now ≡ true)) }
{
    if row.first == key {
        return Some(row.first);
    }
    match row.second {
        Some(word) => { if word == key { Some(word) } else { None } }
        None => None,
    }
}

/// The index of the row that has the key as a spelling, and that spelling; `None` where no row has it.
#[inline(always)]
pub(crate) fn row_of(rows: &[Spellings], key: &str) -> Option<(usize, &'static str)>
    ensures { let ss = map spellings_view rows.now in
        MatchOption result (is_among (all_words ss) key.now ≡ false)
        (λ f. (f.1.now ≡ key.now) × (f.0 < length rows.now) × (is_word_at f.0 ss key.now ≡ true)) }
{
    for i in 0..rows.len() {
        if let Some(word) = spelling_of(&rows[i], key) {
            return Some((i, word));
        }
    }
    None
}

/// A new list with an absent slot for each row, in the order of the rows. Fails only when out of memory.
fn empty_slots<'t>(alloc: Global, rows: &[Spellings]) -> Result<Vec<RowSlot<'t>>, AllocError>
    ensures views { IfOk result
        (λ v. map row_view v.items ≡ slots_at (map spellings_view rows.now) no_members) }
    ensures many { IfOk result (λ v. length v.items ≡ length rows.now) }
{
    let mut slots = Vec::with_capacity(alloc, rows.len())?;
    for _row in rows {
        slots.push(RowSlot::Absent)?;
    }
    Ok(slots)
}

/// The slot after one more value is found for it: `One` of an absent slot, and else `Clash`.
#[inline(always)]
fn slot_with_value<'t>(slot: &RowSlot<'t>, spelling: &'static str, value: Source<'t>) -> RowSlot<'t>
    ensures { row_view result ≡ filled (row_view slot.now) spelling.now (source_view value.entry) }
{
    match slot {
        RowSlot::Absent => RowSlot::One { spelling, value },
        RowSlot::One { .. } => RowSlot::Clash,
        RowSlot::Clash => RowSlot::Clash,
    }
}

/// Puts a value that was found under `spelling` into slot `i`; a second one makes it `Clash`.
#[inline(always)]
fn fill_slot<'t>(slots: &mut Vec<RowSlot<'t>>, i: usize, spelling: &'static str, value: Source<'t>)
    requires { i < length slots.now.items }
    ensures views { map row_view slots.new.items
        ≡ filled_at i spelling.now (source_view value.entry) (map row_view slots.old.items) }
    ensures many { length slots.new.items ≡ length slots.old.items }
{
    slots[i] = slot_with_value(&slots[i], spelling, value);
}

/// Walks once over a table: what it holds under the spellings of each row, and all other keys. Nothing of a borrowed
/// table is copied, what an owned one holds is moved, and the values are not looked at.
///
/// All spellings of the rows have to differ, which asks nothing where there is no row. It fails when out of memory for
/// the slots or the list of the other keys.
///
/// ```ignore
/// let rows = spelled!["name", "proc-macro" | "proc_macro"];
/// let walk = walk(alloc, TableSource::Borrowed(table), &rows)?;
/// let is_there = matches!(walk.slots[0], RowSlot::One { .. });
/// ```
pub fn walk<'t>(
    alloc: Global,
    table: TableSource<'t>,
    rows: &[Spellings],
) -> Result<Walk<'t>, AllocError>
    requires { IsTrue (distinct_words (map spellings_view rows.now)) }
    ensures slots { IfOk result (λ w. map row_view w.slots.items
        ≡ slots_at (map spellings_view rows.now) (members_of table.entry)) }
    ensures rest { IfOk result (λ w. rest_view w.rest.items
        ≡ without (all_words (map spellings_view rows.now)) (members_of table.entry)) }
    ensures in_order { IfOk result (λ w. Ascend (rest_view w.rest.items)) }
{
    let mut slots = empty_slots(alloc, rows)?;
    let mut rest = Vec::new(alloc);
    for (key, value) in table.entries() {
        match row_of(rows, key.as_str()) {
            Some((i, spelling)) => {
                fill_slot(&mut slots, i, spelling, value);
                drop(key);
            }
            None => rest.push((key, value))?,
        }
    }
    Ok(Walk { slots, rest })
}

/// The entries of a list under all keys but the spellings of some rows.
///
/// ```ignore
/// let others = entries_without(alloc, walk.rest, &spelled!["project"])?;
/// ```
pub fn entries_without<'t>(
    alloc: Global,
    entries: Vec<Entry<'t>>,
    rows: &[Spellings],
) -> Result<Vec<Entry<'t>>, AllocError>
    ensures { IfOk result (λ v. rest_view v.items
        ≡ without (all_words (map spellings_view rows.now)) (rest_view entries.entry.items)) }
{
    let mut others = Vec::new(alloc);
    for (name, value) in Entries::Rest(entries.into_iter()) {
        match row_of(rows, name.as_str()) {
            Some(_) => {
                drop(name);
                drop(value);
            }
            None => others.push((name, value))?,
        }
    }
    Ok(others)
}
