//! Metadata of any type.
ghost use Rattle.manifest_schema.specs.Prelude.{view, put_some, plain, tree_of, nothing, unread, written_some, nothing_sound, unread_sound};
ghost use Rattle.std.specs.Prelude.{◌≡◌, ◌↔◌, IsTrue, IfOk, IfErr, OnOk, option_map, refl};
ghost use Rattle.std.proofs.Common.{subst};
ghost use Rattle.manifest_fault.specs.Faults.{FaultIn, IsSchema};
ghost use Rattle.manifest_value.specs.Reading.{written_as};
ghost use Rattle.manifest_value.specs.Writing.{KeepsAscending};
ghost use Rattle.manifest_written.specs.Written.{pairs_view};

use crate::rows::put_optional;
use crate::schema::Schema;
use crate::source::Source;
use manifest_fault::fault::fault_here;
use manifest_fault::{Cause, Findings, Found, ReadFault};
use manifest_written::{Pairs, Written};
use std::alloc::{AllocError, Global};
use toml::Value;

/// A type whose well-formed values are written without floats. Whether a value is well-formed is shown by the tree that
/// is written of it: two values with the same tree are both well-formed, or neither is.
pub trait Metadata: Schema {
    ghost without_floats: { (x : Self.Content) → Self.kind.good x
        → IsTrue (plain (Self.kind.written x)) };

    ghost good_by_tree: { (x y : Self.Content) → Self.kind.good x
        → Self.kind.written x ≡ Self.kind.written y → Self.kind.good y };
}

/// Puts what is written of the metadata into the table, under the key `first`; nothing for `None`.
///
/// ```ignore
/// put_tree(alloc, &mut pairs, "metadata", &package.metadata)?;
/// ```
#[tactic(auto, unfolding(manifest_schema::specs::Slots::put_some))]
pub fn put_tree<'a, M: Metadata>(
    alloc: Global,
    pairs: &mut Pairs<'a>,
    first: &'static str,
    value: &'a Option<M>,
) -> Result<(), AllocError>
    ensures put { OnOk result
        (pairs_view pairs.new.items
        ≡ put_some first.now
        (written_some (tree_of M.kind) (option_map (written_as M.kind M.content) value.now))
        (pairs_view pairs.old.items)) }
    ensures ascend { KeepsAscending pairs.old.items pairs.new.items result }
{
    put_optional(alloc, pairs, first, value)
}

/// Metadata that may not be there: each value is refused, with `Cause::Metadata`, and never as out of memory
/// (`takes_no_memory`). No value is well-formed.
impl Schema for () {
    ghost Content = { Unit {0} };

    ghost content = { λ u. tt };

    ghost kind = { nothing };

    ghost takes_no_memory = { Unit {0} };

    fn read(alloc: Global, _source: Source<'_>) -> Result<(), ReadFault> {
        Err(fault_here(alloc, Cause::Metadata))
    }

    fn findings(alloc: Global, _value: &Value) -> Found {
        Findings::here(alloc, Cause::Metadata)
    }

    #[tactic(auto, using(manifest_written::proofs::WrittenLemmas::written_levels))]
    fn written(&self, alloc: Global) -> Result<Written<'_>, AllocError> {
        Ok(Written::Table(Vec::new(alloc)))
    }

    fn is_well_formed(&self) -> bool {
        false
    }

    ghost lawful = { nothing_sound };
}

/// Its laws hold since no value is well-formed.
impl Metadata for () {
    ghost without_floats = { λ x g. absurd g };

    ghost good_by_tree = { λ x y g e. absurd g };
}

/// Any value without a float, as it is.
impl Metadata for Value {
    ghost without_floats = { λ x g. g };

    ghost good_by_tree = { λ x y g e. subst (λ d. IsTrue (plain d)) e g };
}

/// Metadata that is not looked at: every value is read, and the empty table is written. It is for a program that needs
/// only the rest of a manifest, whatever its metadata holds, even a float.
///
/// ```ignore
/// let manifest = Manifest::<Unread>::from_slice_with_metadata(alloc, bytes)?;
/// ```
#[derive(Debug, Clone, Copy, PartialEq, Eq)]
pub struct Unread;

/// Each value is read: none is refused, nor is reading ever out of memory (`takes_no_memory`). The empty table is
/// written.
impl Schema for Unread {
    ghost Content = { Unit {0} };

    ghost content = { λ u. tt };

    ghost kind = { unread };

    ghost takes_no_memory = { Unit {0} };

    fn read(_alloc: Global, _source: Source<'_>) -> Result<Unread, ReadFault> {
        Ok(Unread)
    }

    fn findings(alloc: Global, _value: &Value) -> Found {
        Ok(Findings::none(alloc))
    }

    #[tactic(auto, using(manifest_written::proofs::WrittenLemmas::written_levels))]
    fn written(&self, alloc: Global) -> Result<Written<'_>, AllocError> {
        Ok(Written::Table(Vec::new(alloc)))
    }

    fn is_well_formed(&self) -> bool {
        true
    }

    ghost lawful = { unread_sound };
}

/// Its laws hold since the empty table has no float.
impl Metadata for Unread {
    ghost without_floats = { λ x g. refl };

    ghost good_by_tree = { λ x y g e. tt };
}
