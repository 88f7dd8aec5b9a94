//! What is read: a value or a table, borrowed or owned.

ghost use Rattle.manifest_schema.specs.Prelude.{view, key, found_under};
ghost use Rattle.std.specs.Prelude.{◌≡◌, IfOk, IfErr};
ghost use Rattle.manifest_fault.specs.Faults.{FaultIn, no_table};
ghost use Rattle.manifest_value.specs.FoundRows.{HasNoFault};
ghost use Rattle.manifest_value.specs.Reading.{GivesUnder, data_of};
ghost use Rattle.manifest_value.specs.Sources.{source_view, members_of, table_source, entries_view};
ghost use Rattle.manifest_value.specs.Walks.{Ascend};

use crate::entries::Entries;
use crate::schema::Schema;
use manifest_fault::fault::{fault_here, fault_under_key};
use manifest_fault::{Cause, ReadFault};
use std::alloc::Global;
use toml::{Table, Value};

/// A value that is read.
#[derive(Drop)]
pub enum Source<'t> {
    /// It is borrowed: what it holds is copied.
    Borrowed(&'t Value),
    /// It is owned: what it holds is moved.
    Owned(Value),
}

/// A table that is read.
#[derive(Drop)]
pub enum TableSource<'t> {
    /// It is borrowed: what its values hold is copied.
    Borrowed(&'t Table),
    /// It is owned: what its keys and values hold is moved.
    Owned(Table),
}

impl<'t> Source<'t> {
    /// The value, by reference, whether it is borrowed or owned.
    #[inline(always)]
    pub fn value(&self) -> &Value
        ensures { view result.now ≡ source_view self.now }
    {
        match self {
            Source::Borrowed(value) => *value,
            Source::Owned(value) => value,
        }
    }

    /// The table that the value is, borrowed or owned as the value is.
    ///
    /// A value that is no table is refused at itself with `WrongKind`, and an owned one is dropped.
    ///
    /// ```ignore
    /// let table = Source::Borrowed(&value).into_table(alloc)?;
    /// ```
    #[inline(always)]
    pub fn into_table(self, alloc: Global) -> Result<TableSource<'t>, ReadFault>
        ensures ok { IfOk result (λ t. source_view self.entry ≡ table_source t) }
        ensures fault { IfErr result (FaultIn (no_table (source_view self.entry))) }
    {
        match self {
            Source::Borrowed(Value::Table(table)) => Ok(TableSource::Borrowed(table)),
            Source::Owned(Value::Table(table)) => Ok(TableSource::Owned(table)),
            _ => Err(fault_here(alloc, Cause::WrongKind)),
        }
    }
}

impl<'t> TableSource<'t> {
    /// The table, by reference, whether it is borrowed or owned.
    pub fn table(&self) -> &Table
        ensures { data_of result.now ≡ table_source self.now }
    {
        match self {
            TableSource::Borrowed(table) => *table,
            TableSource::Owned(table) => table,
        }
    }

    /// The entries of the table, in the order of their keys.
    #[inline(always)]
    pub(crate) fn entries(self) -> Entries<'t>
        ensures all { entries_view result ≡ members_of self.entry }
        ensures in_order { Ascend (members_of self.entry) }
    {
        match self {
            TableSource::Borrowed(table) => Entries::Borrowed(table.iter()),
            TableSource::Owned(table) => Entries::Owned(table.into_iter()),
        }
    }
}

/// Reads a value that stands under the key `word`: a fault gets this key before its path.
#[inline(always)]
#[tactic(auto, using(crate::proofs::FirstLemmas::step_laws))]
pub(crate) fn source_under<T: Schema>(
    alloc: Global,
    source: Source<'_>,
    word: &str,
) -> Result<T, ReadFault>
    ensures gives { let d = source_view source.entry in
        GivesUnder (key word.now) T.kind T.content d result }
    ensures clean { let inside = T.kind.findings (source_view source.entry) in
        IfOk result (λ x. HasNoFault (found_under (key word.now) inside)) }
{
    match T::read(alloc, source) {
        Ok(x) => Ok(x),
        Err(fault) => Err(fault_under_key(alloc, word, fault)),
    }
}
