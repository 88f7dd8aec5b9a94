//! Reading a value under a key, and writing the rows of a form.
ghost use Rattle.manifest_schema.specs.Prelude.{view, list_of, at_value, under, key, put_some, written_some, written_unless, is_empty};
ghost use Rattle.std.specs.Prelude.{◌≡◌, Some, map, OnOk, option_map};
ghost use Rattle.manifest_fault.specs.Faults.{FaultIn, cause_of};
ghost use Rattle.manifest_value.specs.Reading.{GivesUnder};
ghost use Rattle.manifest_value.specs.Writing.{KeepsAscending};
ghost use Rattle.manifest_written.specs.Written.{pairs_view};

use crate::schema::Schema;
use crate::source::{Source, source_under};
use manifest_fault::fault::{fault_here, fault_under_key};
use manifest_fault::{Cause, ReadFault};
use manifest_written::{Pairs, put_entry};
use std::alloc::{AllocError, Global};
use toml::Value;

/// The fault of this cause at a key of the table: its path is the key. `Memory` where there is no memory for the key.
///
/// ```ignore
/// let fault = at_key(alloc, "name", Cause::Missing); // reported as `missing at name`
/// ```
#[cold]
#[tactic(auto, using(manifest_fault::proofs::Under::fault_under))]
pub fn at_key(alloc: Global, word: &str, cause: Cause) -> ReadFault
    ensures { FaultIn (under (key word.now) (at_value (cause_of cause))) result }
{
    fault_under_key(alloc, word, fault_here(alloc, cause))
}

/// Reads a value that stands under the key `word`: a fault gets this key before its path.
///
/// ```ignore
/// let name: String = read_under(alloc, value, "name")?; // of the value 1 it is refused as `wrong kind at name`
/// ```
#[inline(always)]
pub fn read_under<T: Schema>(alloc: Global, value: &Value, word: &str) -> Result<T, ReadFault>
    ensures { GivesUnder (key word.now) T.kind T.content (view value.now) result }
{
    source_under(alloc, Source::Borrowed(value), word)
}

/// Puts what is written of the value among the entries of a table under the key `first`, in place of what stands there.
///
/// ```ignore
/// put_row(alloc, &mut pairs, "name", &package.name)?;
/// ```
#[tactic(auto, unfolding(manifest_schema::specs::Slots::put_some))]
pub fn put_row<'a, T: Schema>(
    alloc: Global,
    pairs: &mut Pairs<'a>,
    first: &'static str,
    value: &'a T,
) -> Result<(), AllocError>
    ensures put { OnOk result
        (pairs_view pairs.new.items
        ≡ put_some first.now (Some (T.kind.written (T.content value.now)))
        (pairs_view pairs.old.items)) }
    ensures ascend { KeepsAscending pairs.old.items pairs.new.items result }
{
    put_entry(pairs, first, value.written(alloc)?)
}

/// Puts what is written of the value in an option into the table, as [`put_row`] does; nothing for `None`.
///
/// ```ignore
/// put_optional(alloc, &mut pairs, "version", &package.version)?;
/// ```
#[tactic(auto, unfolding(manifest_schema::specs::Slots::put_some))]
pub fn put_optional<'a, T: Schema>(
    alloc: Global,
    pairs: &mut Pairs<'a>,
    first: &'static str,
    value: &'a Option<T>,
) -> Result<(), AllocError>
    ensures put { OnOk result
        (pairs_view pairs.new.items
        ≡ put_some first.now (written_some T.kind (option_map T.content value.now))
        (pairs_view pairs.old.items)) }
    ensures ascend { KeepsAscending pairs.old.items pairs.new.items result }
{
    match value {
        Some(x) => put_row(alloc, pairs, first, x),
        None => Ok(()),
    }
}

/// Puts what is written of the value into the table, as [`put_row`] does, unless `skipped` is true: it says that the
/// value is the default, which is not written.
///
/// ```ignore
/// put_unless(alloc, &mut pairs, "test", product.test, &product.test)?; // only false is put
/// ```
#[tactic(auto, unfolding(manifest_schema::specs::Slots::put_some))]
pub fn put_unless<'a, T: Schema>(
    alloc: Global,
    pairs: &mut Pairs<'a>,
    first: &'static str,
    skipped: bool,
    value: &'a T,
) -> Result<(), AllocError>
    ensures put { OnOk result
        (pairs_view pairs.new.items
        ≡ put_some first.now (written_unless T.kind skipped (T.content value.now))
        (pairs_view pairs.old.items)) }
    ensures ascend { KeepsAscending pairs.old.items pairs.new.items result }
{
    if skipped {
        return Ok(());
    }
    put_row(alloc, pairs, first, value)
}

/// Puts what is written of a list into the table, as [`put_row`] does, unless the list is empty.
///
/// ```ignore
/// put_nonempty(alloc, &mut pairs, "bin", &manifest.bin)?;
/// ```
pub fn put_nonempty<'a, T: Schema>(
    alloc: Global,
    pairs: &mut Pairs<'a>,
    first: &'static str,
    list: &'a Vec<T>,
) -> Result<(), AllocError>
    ensures put { let xs = map T.content list.now.items in
        OnOk result (pairs_view pairs.new.items
        ≡ put_some first.now (written_unless (list_of T.kind) (is_empty xs) xs)
        (pairs_view pairs.old.items)) }
    ensures ascend { KeepsAscending pairs.old.items pairs.new.items result }
{
    put_unless(alloc, pairs, first, list.as_slice().is_empty(), list)
}
