//! Maps whose keys are strings: made of entries in order, read from a table, and written as one.
ghost use Rattle.manifest_schema.specs.Prelude.{keys_of, string_cmp, table as table_data, key as key_step, Entries as Contents, map_of, written_entries, found_under};
ghost use Rattle.std.specs.Prelude.{◌≡◌, IsTrue, IfOk, string_bytes};
ghost use Rattle.std.specs.List.Sorted.{IsStrictlySortedBy};
ghost use Rattle.manifest_value.specs.Entries.{entries_content};
ghost use Rattle.manifest_value.specs.Reading.{Reads, Gives, GivesOr};
ghost use Rattle.manifest_value.specs.Sources.{source_view, table_source, key_view, rest_view, entries_view};
ghost use Rattle.manifest_value.specs.Walks.{Ascend};
ghost use Rattle.manifest_written.specs.Written.{pairs_view, pairs_ascend};
ghost use Rattle.manifest_schema.proofs.Values.KindLaws.{map_sound};

use crate::entries::{Entries, Entry, Key};
use crate::form_findings::findings_of_map;
use crate::schema::Schema;
use crate::source::{Source, TableSource, source_under};
use crate::well_formed::values_are_well_formed;
use manifest_fault::{Cause, Findings, Found, ReadFault};
use manifest_written::{Pairs, Written};
use std::alloc::{AllocError, Global};
use std::collections::BTreeMap;
use toml::Value;

/// The map of some entries whose keys ascend.
///
/// ```ignore
/// let map = map_of_list(alloc, list)?; // the entries of the list
/// ```
pub fn map_of_list<X: Drop>(
    alloc: Global,
    all: Vec<(String, X)>,
) -> Result<BTreeMap<String, X>, AllocError>
    requires { IsStrictlySortedBy string_cmp (keys_of all.items) }
    ensures { IfOk result (λ m. m.entries ≡ all.items) }
{
    let mut map = BTreeMap::new(alloc);
    for (key, x) in all {
        drop(map.insert(key, x)?);
    }
    Ok(map)
}

/// Reads an entry: its key as a string of its own, and its value; a fault of the value gets the key before its path.
#[inline(always)]
fn read_entry<T: Schema>(
    alloc: Global,
    key: Key<'_>,
    source: Source<'_>,
) -> Result<(String, T), ReadFault>
    ensures { let k = key_view key.entry in let d = source_view source.entry in
        GivesOr (λ e. (string_bytes e.0 ≡ k) × Reads T.kind T.content d e.1)
        (found_under (key_step k) (T.kind.findings d)) result }
{
    let name = key.into_string(alloc)?;
    let x = source_under(alloc, source, name.as_str())?;
    Ok((name, x))
}

/// Reads entries whose keys ascend into a map, each value as a `T`; stops at the first fault.
fn read_map<T: Schema>(
    alloc: Global,
    entries: Entries<'_>,
) -> Result<BTreeMap<String, T>, ReadFault>
    requires { Ascend (entries_view entries) }
    ensures { let d = table_data (entries_view entries.entry) in
        Gives (map_of T.kind) (λ m. entries_content T.content m.entries) d result }
{
    let mut map = BTreeMap::new(alloc);
    for (key, source) in entries {
        match read_entry(alloc, key, source) {
            Ok((name, x)) => drop(map.insert(name, x)?),
            Err(fault) => return Err(fault),
        }
    }
    Ok(map)
}

/// The map of entries whose keys ascend, each value of one kind. The fault of the first entry that does not fit is
/// reported, with its key before the path. Running out of memory for a key, an answer or the map is a fault `Memory`.
///
/// ```ignore
/// let rest = walk(alloc, table, &spelled!["release", "dev"])?.rest;
/// let custom: BTreeMap<String, Profile> = map_of_entries(alloc, rest)?;
/// ```
pub fn map_of_entries<T: Schema>(
    alloc: Global,
    rest: Vec<Entry<'_>>,
) -> Result<BTreeMap<String, T>, ReadFault>
    requires { Ascend (rest_view rest.items) }
    ensures { let d = table_data (rest_view rest.entry.items) in
        Gives (map_of T.kind) (λ m. entries_content T.content m.entries) d result }
{
    read_map(alloc, Entries::Rest(rest.into_iter()))
}

/// Reads a table as a map: each value as a `T`, under its key. Refuses with the fault of the first entry that has one,
/// its key before the path, or `Memory`.
fn map_from<T: Schema>(
    alloc: Global,
    table: TableSource<'_>,
) -> Result<BTreeMap<String, T>, ReadFault>
    ensures { let d = table_source table.entry in
        Gives (map_of T.kind) (λ m. entries_content T.content m.entries) d result }
{
    read_map(alloc, table.entries())
}

/// What is written of a map: of each value, under its key. It fails only when out of memory.
///
/// ```ignore
/// let pairs = map_written(alloc, &map)?; // the keys of the map, each with what is written of its value
/// ```
pub fn map_written<'a, T: Schema>(
    alloc: Global,
    map: &'a BTreeMap<String, T>,
) -> Result<Pairs<'a>, AllocError>
    ensures is { IfOk result (λ ps. pairs_view ps.items
        ≡ written_entries T.kind (entries_content T.content map.now.entries)) }
    ensures ascend { IfOk result (λ ps. IsTrue (pairs_ascend ps.items)) }
{
    let mut out = Vec::with_capacity(alloc, map.len())?;
    for (key, x) in map.iter() {
        out.push((key.as_str(), x.written(alloc)?))?;
    }
    Ok(out)
}

/// Read from a table, each value as a `T`, and written as one. A value that is no table is refused with `WrongKind`.
impl<T: Schema> Schema for BTreeMap<String, T> {
    ghost Content = { Contents T.Content };

    ghost content = { λ m. entries_content T.content m.entries };

    ghost kind = { map_of T.kind };

    #[tactic(auto, using(crate::proofs::FirstLemmas::map_first))]
    fn read(alloc: Global, source: Source<'_>) -> Result<BTreeMap<String, T>, ReadFault> {
        map_from(alloc, source.into_table(alloc)?)
    }

    fn findings(alloc: Global, value: &Value) -> Found {
        match value {
            Value::Table(table) => findings_of_map::<T>(alloc, table),
            _ => Findings::here(alloc, Cause::WrongKind),
        }
    }

    #[tactic(auto, using(manifest_written::proofs::WrittenLemmas::written_levels))]
    fn written(&self, alloc: Global) -> Result<Written<'_>, AllocError> {
        Ok(Written::Table(map_written(alloc, self)?))
    }

    fn is_well_formed(&self) -> bool {
        values_are_well_formed(self)
    }

    ghost lawful = { map_sound T.lawful };
}
