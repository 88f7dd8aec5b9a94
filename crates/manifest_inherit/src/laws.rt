//! What is promised of resolving, for every type of metadata of a manifest's package (`P`), of its own workspace (`W`)
//! and of the workspace that it inherits from (`V`).
//!
//! Each function returns at once: it is there for its contract, a law of the definitions.

ghost use Rattle.manifest_schema.specs.Kinds.{tree_of};
ghost use Rattle.manifest_inherit.specs.Laws.{ResolvedIsSettled, OwnIsSettled, ResolvedIsWellFormed, CompletedStaysResolved, ResolvedDatesAreValid, ListsEachRefusal, EmptyIfNoneHolds, ListsEachOnce};

use cargo_manifest::Metadata;

/// A resolved manifest inherits nothing (its `patch` and its own `workspace` aside), and is resolved to itself. Where
/// it and the workspace were well-formed, it is well-formed too; and when it is then completed, resolving it and
/// completing it again over the same workspace and listings changes nothing.
pub fn resolved_is_fixed<P: Metadata, W: Metadata, V: Metadata>()
    ensures settled { ResolvedIsSettled }
    ensures own { OwnIsSettled }
    ensures formed { ResolvedIsWellFormed (tree_of P.kind) (tree_of W.kind) (tree_of V.kind) }
    ensures completed { CompletedStaysResolved (tree_of P.kind) (tree_of W.kind) (tree_of V.kind) }
{}

/// Where metadata is kept as it is, a resolved manifest keeps no date-time that TOML cannot write, if the manifest kept
/// none.
pub fn resolved_dates_are_valid()
    ensures { ResolvedDatesAreValid }
{}

/// The list of all refusals, which [`refusals`](crate::refusals) returns, has a refusal at a key path exactly if what
/// stands there in the manifest is inherited and is refused for that reason (`refused_at`). So the list is empty
/// exactly where nothing is refused, as where [`resolve`](crate::resolve) succeeds. Where the keys of each map differ,
/// as those of a `BTreeMap` do, no refusal stands twice at one path.
pub fn each_refusal_is_listed()
    ensures listed { ListsEachRefusal }
    ensures empty { EmptyIfNoneHolds }
    ensures once { ListsEachOnce }
{}
