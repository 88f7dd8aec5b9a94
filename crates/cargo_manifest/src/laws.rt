//! What is promised of the meaning of a table and of completion, for every type of metadata of a package (`P`) and of a
//! workspace (`W`).
//!
//! Each function returns at once: it is there for its contract, a law of the definitions.

ghost use Rattle.manifest_schema.specs.Prelude.{tree_of, MeansOne, WrittenIsRead, AcceptedIsWellFormed, WrittenMeansTheSame, RewrittenMeansTheSame, RewrittenTwiceIsOnce, SameExactly, SameWrittenIsSame, FaultyMeansNothing, AcceptedOrFaulty, FindsEveryFault, FaultlessIfMeant, SameWithoutUnused, RewrittenWithoutUnused, FindsEachOnce, FindsNothingWritten, FindsNothingRewritten, IgnoresBadgesAlone, IgnoresNothing, IsClean, raw, WritesEachRow, form, manifest_rows, OldTopUnused, OldWrittenIsRead, MeantDatesAreValid, WrittenDatesAreValid};
ghost use Rattle.manifest_completion.specs.Laws.{CompletedIsFixed};
ghost use Rattle.cargo_manifest.specs.Completes.{StoredDecides, StoredDecidesUnfound};
ghost use Rattle.cargo_manifest.specs.Dates.{ParsedDatesAreValid, ReadDatesAreValid, CompletedDatesAreValid};
ghost use Rattle.cargo_manifest.specs.Printed.{PrintedIsBounded};
ghost use Rattle.cargo_manifest.specs.WellFormed.{PackageByMetadata, WorkspaceByParts, ManifestByParts};

pub use manifest_completion::laws::{
    ascending_differ, asked_decides, asked_decides_unfound, asked_differ, declared_stays,
    others_change_nothing, refused_if_unfound, unfound_are_left,
};
use manifest_value::Metadata;

/// A table means at most one manifest: there is at most one that it is read as.
pub fn means_one<P: Metadata, W: Metadata>()
    ensures { MeansOne (tree_of P.kind) (tree_of W.kind) }
{}

/// What is written of a well-formed manifest is read as that manifest, by the form of a manifest (which takes no old
/// header into account).
#[tactic(auto, using(manifest_schema::proofs::Meaning::MeaningLaws::written_is_read, manifest_schema::proofs::Values::KindLaws::tree_sound))]
pub fn written_is_read<P: Metadata, W: Metadata>()
    ensures { WrittenIsRead (tree_of P.kind) (tree_of W.kind) }
{}

/// What a table means is well-formed, and has a package or a workspace.
#[tactic(auto, using(manifest_schema::proofs::Meaning::MeaningLaws::accepted_is_well_formed, manifest_schema::proofs::Values::KindLaws::tree_sound))]
pub fn accepted_is_well_formed<P: Metadata, W: Metadata>()
    ensures { AcceptedIsWellFormed (tree_of P.kind) (tree_of W.kind) }
{}

/// A package is well-formed exactly where its metadata is; a workspace, where its metadata and its lints are; a
/// manifest, where its package, its workspace, its profiles and its lints are.
#[tactic(auto, using(crate::proofs::WellFormedLaws::package_by_metadata, crate::proofs::WellFormedLaws::workspace_by_parts, crate::proofs::WellFormedLaws::manifest_by_parts))]
pub fn well_formed_by_parts<P: Metadata, W: Metadata>()
    ensures package { PackageByMetadata (tree_of P.kind) }
    ensures workspace { WorkspaceByParts (tree_of W.kind) }
    ensures manifest { ManifestByParts (tree_of P.kind) (tree_of W.kind) }
{}

/// What is written of a well-formed manifest with a package or a workspace means that manifest.
#[tactic(auto, using(manifest_schema::proofs::Meaning::MeaningLaws::written_means_the_same, manifest_schema::proofs::Values::KindLaws::tree_sound))]
pub fn written_means_the_same<P: Metadata, W: Metadata>()
    ensures { WrittenMeansTheSame (tree_of P.kind) (tree_of W.kind) }
{}

/// The rewritten table of an accepted table (the canonical table of what it means) means the same manifest.
#[tactic(auto, using(manifest_schema::proofs::Meaning::MeaningLaws::rewritten_means_the_same, manifest_schema::proofs::Values::KindLaws::tree_sound))]
pub fn rewritten_means_the_same<P: Metadata, W: Metadata>()
    ensures { RewrittenMeansTheSame (tree_of P.kind) (tree_of W.kind) }
{}

/// Rewriting twice is rewriting once: the rewritten table of a rewritten table is itself.
pub fn rewritten_twice_is_once<P: Metadata, W: Metadata>()
    ensures { RewrittenTwiceIsOnce (tree_of P.kind) (tree_of W.kind) }
{}

/// Two accepted tables mean one manifest exactly if their rewritten tables are equal.
pub fn same_exactly<P: Metadata, W: Metadata>()
    ensures { SameExactly (tree_of P.kind) (tree_of W.kind) }
{}

/// Well-formed manifests of which the same is written are the same.
pub fn same_written_is_same<P: Metadata, W: Metadata>()
    ensures { SameWrittenIsSame (tree_of P.kind) (tree_of W.kind) }
{}

/// A table with a fault means nothing: there is no manifest that it is read as.
pub fn faulty_means_nothing<P: Metadata, W: Metadata>()
    ensures { FaultyMeansNothing (tree_of P.kind) (tree_of W.kind) }
{}

/// A table means a manifest or has a fault.
pub fn accepted_or_faulty<P: Metadata, W: Metadata>()
    ensures { AcceptedOrFaulty (tree_of P.kind) (tree_of W.kind) }
{}

/// Each fault of a table is found, and no other: those by the form of a manifest, and where the table has no header those
/// of the old package, whose paths begin with `project` where the table has it.
#[tactic(auto, using(manifest_schema::proofs::Findings::FoundLaws::finds_every_fault))]
pub fn finds_every_fault<P: Metadata, W: Metadata>()
    ensures { FindsEveryFault (tree_of P.kind) (tree_of W.kind) }
{}

/// No fault is found in a table exactly if it means a manifest.
#[tactic(auto, using(manifest_schema::proofs::Findings::FoundLaws::faultless_if_meant, manifest_schema::proofs::Values::KindLaws::tree_sound))]
pub fn faultless_if_meant<P: Metadata, W: Metadata>()
    ensures { FaultlessIfMeant (tree_of P.kind) (tree_of W.kind) }
{}

/// A table whose keys ascend, as those of a document and of the tables inside it do, means the same manifest and has the
/// same faults without the keys that nothing reads: those that are found as unused are indeed of no use.
pub fn same_without_unused<P: Metadata, W: Metadata>()
    ensures { SameWithoutUnused (tree_of P.kind) (tree_of W.kind) }
{}

/// An accepted table whose keys ascend, as do those of the tables inside, is rewritten to the same table with its
/// unused keys and without them.
pub fn rewritten_without_unused<P: Metadata, W: Metadata>()
    ensures { RewrittenWithoutUnused (tree_of P.kind) (tree_of W.kind) }
{}

/// Each place of a table whose keys ascend, as do those of the tables inside, is reported once: no two findings have
/// the same path, and none stands inside the value that another one stands at.
#[tactic(auto, using(manifest_schema::proofs::Findings::FoundOnce::finds_each_once, manifest_schema::proofs::Values::KindLaws::tree_sound))]
pub fn finds_each_once<P: Metadata, W: Metadata>()
    ensures { FindsEachOnce (tree_of P.kind) (tree_of W.kind) }
{}

/// Nothing is found in what is written of a well-formed manifest with a package or a workspace, nor in the rewritten
/// table of an accepted table: no fault, nothing that is ignored, and no key that nothing reads. Nor does the form of a
/// manifest (which takes no old header into account) find anything in what is written of any well-formed manifest.
#[tactic(auto, using(manifest_schema::proofs::Meaning::WrittenLaws::finds_nothing_written, manifest_schema::proofs::Meaning::WrittenLaws::finds_nothing_rewritten, manifest_schema::proofs::Values::KindLaws::tree_sound))]
pub fn finds_nothing_written<P: Metadata, W: Metadata>()
    ensures form { IsClean (form (manifest_rows (tree_of P.kind) (tree_of W.kind))) }
    ensures written { FindsNothingWritten (tree_of P.kind) (tree_of W.kind) }
    ensures rewritten { FindsNothingRewritten (tree_of P.kind) (tree_of W.kind) }
{}

/// Where nothing of its metadata is ignored, as of metadata of the type `Value`, what is ignored of a table is exactly
/// what does not fit in its badges: the fault of a badge, or of the maintenance, under its key.
#[tactic(auto, using(manifest_schema::proofs::Findings::IgnoredLaws::ignores_badges_alone, manifest_schema::proofs::Findings::IgnoredLaws::raw_ignores_nothing))]
pub fn badges_alone_are_ignored<P: Metadata, W: Metadata>()
    ensures badges { IgnoresBadgesAlone (tree_of P.kind) (tree_of W.kind) }
    ensures raw { IgnoresNothing (tree_of raw) }
{}

/// The table that is written of a well-formed manifest holds what the need of each row writes, under the first spelling
/// of the row, and nothing else.
#[tactic(auto, using(manifest_schema::proofs::Meaning::WrittenLaws::manifest_by_rows))]
pub fn manifest_is_written_by_rows<P: Metadata, W: Metadata>()
    ensures { WritesEachRow (manifest_rows (tree_of P.kind) (tree_of W.kind)) }
{}

/// At the top of a table without a header a key is unused exactly if no row of a manifest has it, and, where the table
/// has the old `project`, it is not that key, or else no row of the package has it, which is read from the same table.
#[tactic(auto, using(manifest_schema::proofs::Findings::Pinned::old_top_is_unused, manifest_schema::proofs::Values::KindLaws::tree_sound))]
pub fn old_top_is_unused<P: Metadata, W: Metadata>()
    ensures { OldTopUnused (tree_of P.kind) (tree_of W.kind) }
{}

/// Where no inherited dependency of a manifest chooses its default features, what is written of the manifest is what
/// was written before they could; where it is also well-formed, what was written then is read as it.
pub fn old_written_is_read<P: Metadata, W: Metadata>()
    ensures { OldWrittenIsRead (tree_of P.kind) (tree_of W.kind) }
{}

/// Over a filesystem that has one answer stored for each path text, as [`Listings`](crate::Listings) has, the answer of
/// [`Manifest::complete_from_abstract_filesystem`](crate::Manifest::complete_from_abstract_filesystem) is the
/// completion of the map of what is stored, unless memory runs out, for a listing or otherwise. A caller calls this law
/// after the completion; it does nothing at run time.
#[tactic(auto, using(crate::proofs::StoredLaws::stored_decides))]
pub fn stored_decides()
    ensures { StoredDecides }
{}

/// Over such a filesystem the answer of [`Manifest::unfound_targets`](crate::Manifest::unfound_targets) is the outcome by
/// the map of what is stored, unless memory runs out, for a listing or otherwise.
#[tactic(auto, using(crate::proofs::StoredLaws::stored_decides_unfound))]
pub fn stored_decides_unfound()
    ensures { StoredDecidesUnfound }
{}

/// Completing a well-formed manifest, writing it, reading it and completing it again over the same listings changes
/// nothing and asks no other place.
pub fn completed_is_fixed<P: Metadata, W: Metadata>()
    ensures { CompletedIsFixed (tree_of P.kind) (tree_of W.kind) }
{}

/// The document that `toml` writes of a table without a float is no longer than the bound that
/// [`printed_bound`](crate::printed_bound) counts.
#[tactic(auto, using(crate::proofs::PrintedLemmas::printed_is_bounded))]
pub fn printed_is_bounded()
    ensures { PrintedIsBounded }
{}

/// A document has no date-time that TOML cannot write; nor does its manifest keep one, where metadata is kept as it is.
#[tactic(auto, using(crate::proofs::ParsedLemmas::parsed_dates_are_valid))]
pub fn parsed_dates_are_valid()
    ensures parsed { ParsedDatesAreValid }
    ensures read { ReadDatesAreValid }
{}

/// Where metadata is kept as it is, a manifest that is meant by a table without a date-time that TOML cannot write
/// keeps none, nor does what it is completed to, and none stands in what is written of it.
#[tactic(auto, using(manifest_schema::proofs::Values::DateLaws::meant_dates_are_valid, manifest_schema::proofs::Values::DateLaws::written_dates_are_valid))]
pub fn kept_dates_are_valid()
    ensures meant { MeantDatesAreValid }
    ensures completed { CompletedDatesAreValid }
    ensures written { WrittenDatesAreValid }
{}
