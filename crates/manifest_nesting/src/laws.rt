//! Laws on the counting of levels, as functions with empty bodies: a caller that calls one has its clause.

ghost use Rattle.manifest_nesting.specs.Laws.{StringsAreSkipped, PrintedNestsAsItIs, FewMarksNestNoDeeper};

/// What follows a string that `toml_parser` reads is what follows it where it is skipped.
#[tactic(auto, using(crate::proofs::StringSkips::strings_are_skipped))]
pub fn strings_are_skipped()
    ensures { StringsAreSkipped }
{}

/// A text that `toml` prints of a table without floats, at most 128 deep, does not lead deeper.
#[tactic(auto, using(crate::proofs::Printed::printed_nests_as_it_is))]
pub fn printed_nests_as_it_is()
    ensures { PrintedNestsAsItIs }
{}

/// A text of few marks leads no deeper than the limits, wherever they stand.
#[tactic(auto, using(crate::proofs::Marks::few_marks_nest_no_deeper))]
pub fn few_marks_nest_no_deeper()
    ensures { FewMarksNestNoDeeper }
{}
