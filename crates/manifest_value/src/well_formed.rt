//! Whether what stands in a row is well-formed.

ghost use Rattle.manifest_schema.specs.Prelude.{tree_of, good_items, good_entries, good_some, is_among, none_named};
ghost use Rattle.std.specs.Prelude.{◌≡◌, ◌↔◌, IsTrue, map, option_map};
ghost use Rattle.manifest_value.specs.Entries.{entries_content};
ghost use Rattle.manifest_value.specs.Reading.{written_as};
ghost use Rattle.manifest_value.specs.Walks.{spellings_view, all_words};

use crate::metadata::Metadata;
use crate::schema::Schema;
use crate::spellings::Spellings;
use crate::walking::row_of;
use std::collections::BTreeMap;

/// Whether the value is absent or well-formed.
///
/// ```ignore
/// let is_well = optional_is_well_formed(&profile.opt_level);
/// ```
pub fn optional_is_well_formed<T: Schema>(value: &Option<T>) -> bool
    ensures { IsTrue result ↔ good_some T.kind (option_map T.content value.now) }
{
    match value {
        Some(x) => x.is_well_formed(),
        None => true,
    }
}

/// Whether the metadata, by the tree that is written of it, is absent or well-formed.
///
/// ```ignore
/// let is_well = tree_is_well_formed(&package.metadata);
/// ```
pub fn tree_is_well_formed<M: Metadata>(value: &Option<M>) -> bool
    ensures { IsTrue result
        ↔ good_some (tree_of M.kind) (option_map (written_as M.kind M.content) value.now) }
{
    match value {
        Some(x) => x.is_well_formed(),
        None => true,
    }
}

/// Whether each item of a list is well-formed, by the kind of `T`; true of the empty list.
pub(crate) fn items_are_well_formed<T: Schema>(items: &[T]) -> bool
    ensures { IsTrue result ↔ good_items T.kind (map T.content items.now) }
{
    for x in items {
        if !x.is_well_formed() {
            return false;
        }
    }
    true
}

/// Whether each value of the map is well-formed.
///
/// ```ignore
/// let is_well = values_are_well_formed(&profiles.custom);
/// ```
pub fn values_are_well_formed<T: Schema>(all: &BTreeMap<String, T>) -> bool
    ensures { IsTrue result ↔ good_entries T.kind (entries_content T.content all.now.entries) }
{
    for (_key, x) in all.iter() {
        if !x.is_well_formed() {
            return false;
        }
    }
    true
}

/// Whether no key of the map is a spelling of one of the rows.
///
/// ```ignore
/// let is_well = none_is_named(&lints.lints, MaybeInheritedLintsSet::names()); // no tool is named `workspace`
/// ```
#[tactic(auto, using(crate::proofs::WalkLemmas::word_among))]
pub fn none_is_named<T: Schema>(all: &BTreeMap<String, T>, rows: &[Spellings]) -> bool
    ensures { result
        ≡ none_named (all_words (map spellings_view rows.now))
        (entries_content T.content all.now.entries) }
{
    for (key, _x) in all.iter() {
        if let Some(_row) = row_of(rows, key.as_str()) {
            return false;
        }
    }
    true
}
