//! What is promised of completion. The parameters `P` and `W` stand for the kinds of the metadata of a package and of a
//! workspace. Each function returns at once: it is there for its contract, a law of the definitions.

ghost use Rattle.manifest_schema.specs.Kinds.{tree_of};
ghost use Rattle.manifest_completion.specs.Laws.{AskedDiffer, AscendingDiffer, AskedDecides, StoredDecidesTargets, CompletedIsFixed};
ghost use Rattle.manifest_completion.specs.Unchanged.{DeclaredStays, OthersChangeNothing};
ghost use Rattle.manifest_completion.specs.Unfound.{UnfoundAreLeft, RefusedIfUnfound, AskedDecidesUnfound, StoredDecidesUnfound};

use manifest_schema::kinds::SoundKind;

/// All path texts that are asked in one completion differ, whatever names, slashes and empty names are listed.
#[tactic(auto, using(crate::proofs::AskedLaws::asked_differ))]
pub fn asked_differ()
    ensures { AskedDiffer }
{}

/// Names that ascend, as those of a map that explains what was answered, are in no folder twice.
#[tactic(auto, using(crate::proofs::AskedLaws::no_name_twice))]
pub fn ascending_differ()
    ensures { AscendingDiffer }
{}

/// Two maps of listings that agree at every place that is asked over one of them have the same places asked, and have
/// the same outcome.
#[tactic(auto, using(crate::proofs::DecidesLaws::asked_decides))]
pub fn asked_decides()
    ensures { AskedDecides }
{}

/// Over a filesystem that has one answer stored for each path text, as [`Listings`](crate::Listings) has, the answer of
/// [`complete`](crate::complete) is the completion of the map of what is stored, unless memory runs out, for a listing
/// or otherwise.
#[tactic(auto, using(crate::proofs::StoredLaws::stored_decides))]
pub fn stored_decides()
    ensures { StoredDecidesTargets }
{}

/// Completing a well-formed manifest, writing it, reading it and completing it again over the same listings changes
/// nothing and asks no other place.
pub fn completed_is_fixed<P: SoundKind, W: SoundKind>()
    ensures { CompletedIsFixed (tree_of P.kind) (tree_of W.kind) }
{}

/// In every completion a declared target stays in its place, with its name and the path, edition and crate type that it
/// has; but for these three nothing of it changes. A declared library keeps the same four.
pub fn declared_stays()
    ensures { DeclaredStays }
{}

/// An entry of a folder of targets that is no target, a file of another ending or a folder without `main.rs`, changes
/// nothing.
#[tactic(auto, using(crate::proofs::UnchangedLaws::others_change_nothing))]
pub fn others_change_nothing()
    ensures { OthersChangeNothing }
{}

/// Where a manifest with a package is completed, the declared targets for which no file is found are those that are
/// left without a path, at the same places: a target that completion adds has one.
pub fn unfound_are_left()
    ensures { UnfoundAreLeft }
{}

/// Where `src` has no fault that refuses it, a completion is refused for a library without a file exactly where the
/// library is among the targets for which no file is found.
#[tactic(auto, using(crate::proofs::UnfoundLaws::refused_if_unfound))]
pub fn refused_if_unfound()
    ensures { RefusedIfUnfound }
{}

/// Two maps of listings that agree at every place that is asked over one of them for the unfound targets of a manifest
/// have the same places asked, and have the same outcome.
#[tactic(auto, using(crate::proofs::UnfoundDecides::asked_decides))]
pub fn asked_decides_unfound()
    ensures { AskedDecidesUnfound }
{}

/// Over a filesystem that has one answer stored for each path text, as [`Listings`](crate::Listings) has, the answer of
/// [`unfound_targets`](crate::unfound_targets) is the outcome by the map of what is stored, unless memory runs out, for
/// a listing or otherwise.
#[tactic(auto, using(crate::proofs::UnfoundDecides::stored_decides))]
pub fn stored_decides_unfound()
    ensures { StoredDecidesUnfound }
{}
