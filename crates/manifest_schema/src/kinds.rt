//! Kinds and forms that satisfy the laws, and the laws of what is made of them.
//!
//! What is found in a value is a list: its faults, what is ignored where it does not fit, and its unused keys, those that
//! nothing of the kind reads. The faults of a value are those of this list.

ghost use Rattle.manifest_schema.specs.Prelude.{Data, Kind, text, flag, whole, truth, raw, list_of, map_of, inh, tree_of, nothing, required, optional, default, lenient_optional, lenient_default, Rows, no_more, form, distinct, spelled, is_closed, IsSound, IsSoundNeed, FindsSoundly, AreSound, IsBuilt, UnusedIfNoRow, WritesEachRow, IsDefault, IsPlain, unread, nothing_sound, ignored_of, edition, resolver, level, status, strip, ListsWords, Ignores, UnusedByItems, UnusedByEntries, InheritedUnused, FaultyByItems, FaultyByEntries, FaultyByFloats, FaultyUnlessInherited, FaultyBySlot, FaultyIfRequired, NeverFaulty, FaultyByRows, ReadsOnly, IsLawful, IsTotal, IsTidy, IsClean, IsDiverging};
ghost use Rattle.std.specs.Prelude.{◌≡◌, ℤ, Bool, List, [], IsTrue, refl};

use std::marker::Brand;

/// Any kind of values, also one that satisfies no law.
pub trait AnyKind {
    ghost Content: { Type 0 };

    ghost kind: { Kind Content };
}

/// A kind that satisfies the laws. A value has at most one reading, and it has one exactly if no fault is found in it.
/// What is read is well-formed; what is written of a well-formed content is read back as it, and nothing is found in it.
/// A value whose keys ascend has without its unused keys the same readings, and the same is found in it, in the same order,
/// but for these keys; none of them is the value itself. What is found in such a value stands at paths that diverge: none
/// of them is another one or begins with it.
pub trait SoundKind: AnyKind {
    ghost sound: { IsSound Self.kind };
}

/// A form whose spellings all differ.
pub trait AnyForm {
    ghost Record: { Type 0 };

    ghost rows: { Rows Record };

    ghost differ: { IsTrue (distinct rows) };
}

/// Such a form whose rows satisfy the laws of a need, and whose record is the contents of its rows, no more and no less.
pub trait SoundForm: AnyForm {
    ghost sound: { AreSound Self.rows };

    ghost built: { IsBuilt Self.rows };
}

/// The kind that reads nothing.
impl AnyKind for Brand {
    ghost Content = { Unit {0} };

    ghost kind = { nothing };
}

impl SoundKind for Brand {
    ghost sound = { nothing_sound };
}

/// The form without rows.
impl AnyForm for Brand {
    ghost Record = { Unit {0} };

    ghost rows = { no_more };

    ghost differ = { refl };
}

impl SoundForm for Brand {
    ghost sound = { tt };

    ghost built = { record { build = λ t. t; all = λ x. refl; each = λ t. refl } };
}

/// The laws one by one. A value has at most one reading, one with a fault has none, what is read is well-formed, and what
/// is written of a well-formed content is read back as it; each fault is found, and no other. Each value has a reading or
/// a fault. Without its unused keys a value whose keys ascend has the same readings and the same faults. Nothing is found
/// in what is written of a well-formed content. What is found in a value whose keys ascend stands at paths that diverge.
#[tactic(auto, using(crate::proofs::Meaning::OldLaws::lawful_of, crate::proofs::Meaning::OldLaws::clean_of, crate::proofs::Meaning::OldLaws::diverging_of))]
pub fn laws_one_by_one<K: SoundKind>()
    ensures lawful { IsLawful K.kind }
    ensures total { IsTotal K.kind }
    ensures tidy { IsTidy K.kind }
    ensures clean { IsClean K.kind }
    ensures diverging { IsDiverging K.kind }
{}

/// Texts, booleans, the boolean true, whole numbers, kept values, and the kind that looks at no value satisfy the laws.
#[tactic(auto, using(crate::proofs::Values::KindLaws::text_sound, crate::proofs::Values::KindLaws::flag_sound, crate::proofs::Values::KindLaws::truth_sound, crate::proofs::Values::KindLaws::raw_sound, crate::specs::ForProofs::unread_sound))]
pub fn simple_kinds_are_sound()
    ensures text_is { IsSound text }
    ensures flag_is { IsSound flag }
    ensures truth_is { IsSound truth }
    ensures kept_is { IsSound raw }
    ensures unread_is { IsSound unread }
    ensures whole_is { (low high : ℤ) → IsSound (whole low high) }
{}

/// What is made of a kind that satisfies the laws satisfies them: lists, maps, metadata, and what may be inherited, where
/// no value of the kind is a table and each content can be written. Where a value may be a table, what may be inherited
/// still has a reading or a fault of each value, and what is found in a value whose keys ascend stands at paths that
/// diverge.
#[tactic(auto, using(crate::proofs::Meaning::OldLaws::inh_diverging))]
pub fn made_kinds_are_sound<K: SoundKind>()
    ensures list_is { IsSound (list_of K.kind) }
    ensures map_is { IsSound (map_of K.kind) }
    ensures inh_is { IsPlain K.kind → IsSound (inh K.kind) }
    ensures tree_is { IsSound (tree_of K.kind) }
    ensures any_inh_is_total { IsTotal (inh K.kind) }
    ensures any_inh_is_diverging { IsDiverging (inh K.kind) }
{}

/// Each need of a field satisfies the laws of a need, over a kind that satisfies the laws: a slot gives at most one
/// content, and one exactly if no fault is found of it; what it gives is well-formed; what is written of a well-formed
/// content gives it again, and nothing is found of it; without the unused keys of its value it gives the same, and the
/// same is found but for these keys; and what is found of it stands at paths that diverge, each of which begins with one
/// spelling. The laws of what is found hold also of a default that is not well-formed, or not all that is skipped.
#[tactic(auto, using(crate::proofs::Values::NeedLaws::required_sound))]
pub fn needs_are_sound<K: SoundKind>()
    ensures required_is { IsSoundNeed (required K.kind) }
    ensures optional_is { IsSoundNeed (optional K.kind) }
    ensures default_is { (e : K.Content) (skipped : K.Content → Bool) → IsDefault K.kind e skipped
        → IsSoundNeed (default K.kind e skipped) }
    ensures lenient_optional_is { IsSoundNeed (lenient_optional K.kind) }
    ensures lenient_default_is { (e : K.Content) → K.kind.good e
        → IsSoundNeed (lenient_default K.kind e) }
    ensures any_default { (e : K.Content) (skipped : K.Content → Bool)
        → FindsSoundly (default K.kind e skipped) }
    ensures any_lenient_default { (e : K.Content) → FindsSoundly (lenient_default K.kind e) }
{}

/// A form satisfies the laws of a kind. In one that ends with no more rows, a key of the table is unused exactly if no row
/// has it.
#[tactic(auto, using(crate::proofs::Forms::FormLaws::form_sound, crate::proofs::Forms::FormLaws::unused_if_no_row))]
pub fn form_is_sound<F: SoundForm>()
    ensures kind_is { IsSound (form F.rows) }
    ensures keys_are { UnusedIfNoRow F.rows }
{}

/// A form writes of a well-formed content what the need of each row writes, under the first spelling of the row, and
/// the entries of the map of all other keys, where it ends with one. It writes nothing else.
#[tactic(auto, using(crate::proofs::Forms::RowsWritten::writes_each_row))]
pub fn form_writes_each_row<F: AnyForm>()
    ensures { WritesEachRow F.rows }
{}

/// Of a form that ends with no more rows, tables with the same values under the spellings of its rows have the same
/// readings and the same faults.
pub fn form_reads_only_its_keys<F: AnyForm>()
    ensures { IsTrue (is_closed F.rows) → ReadsOnly (spelled F.rows) (form F.rows) }
{}

/// The words that stand with the fault of a text that is none of a choice are exactly the texts that the choice reads.
#[tactic(auto, using(crate::proofs::Findings::Pinned::edition_lists, crate::proofs::Findings::Pinned::resolver_lists, crate::proofs::Findings::Pinned::level_lists, crate::proofs::Findings::Pinned::status_lists, crate::proofs::Findings::Pinned::strip_lists))]
pub fn choices_tell_their_words()
    ensures edition_does { ListsWords edition }
    ensures resolver_does { ListsWords resolver }
    ensures level_does { ListsWords level }
    ensures status_does { ListsWords status }
    ensures strip_does { ListsWords strip }
{}

/// What a lenient need ignores is exactly each fault of the value, at its path under the key of the value, or that both
/// spellings are there, over a kind that ignores nothing itself.
#[tactic(auto, using(crate::proofs::Findings::Pinned::lenient_optional_ignores, crate::proofs::Findings::Pinned::lenient_default_ignores))]
pub fn lenient_needs_ignore<K: AnyKind>()
    requires { (d : Data) → ignored_of (K.kind.findings d) ≡ [] }
    ensures optional_does { Ignores K.kind (lenient_optional K.kind) }
    ensures default_does { (e : K.Content) → Ignores K.kind (lenient_default K.kind e) }
{}

/// What is unused in a list is what is unused in its items, each under its index, and what is unused in a map whose keys
/// ascend is what is unused in its entries, each under its key. Of a table whose `workspace` is true, by a kind that may be
/// inherited, each other key is unused; of another table none is.
#[tactic(auto, using(crate::proofs::Findings::Pinned::unused_by_items, crate::proofs::Findings::Pinned::unused_by_entries))]
pub fn unused_keys_are_those<K: SoundKind>()
    ensures of_list { UnusedByItems K.kind }
    ensures of_map { UnusedByEntries K.kind }
    ensures of_inherited { InheritedUnused K.kind }
{}

/// The faults of a list are those of its items, each with its index before the path; of a map those of its entries, each
/// with its key before the path; of a kept value its floats. A table that may inherit and does not has one fault: it is of
/// the wrong kind.
#[tactic(auto, using(crate::proofs::Findings::FaultPlaces::faulty_by_items, crate::proofs::Findings::FaultPlaces::faulty_by_entries, crate::proofs::Findings::FaultPlaces::faulty_by_floats))]
pub fn faults_stand_inside<K: AnyKind>()
    ensures of_list { FaultyByItems K.kind }
    ensures of_map { FaultyByEntries K.kind }
    ensures of_raw { FaultyByFloats }
    ensures of_inherited { FaultyUnlessInherited K.kind }
{}

/// The faults of a field are those of the value under the spelling that is present, each with this key before the path, or
/// that both spellings are there, at the first of them; of a field that has to be there also that it is absent, at the
/// first spelling; and a field that counts as absent where it does not fit has none.
#[tactic(auto, using(crate::proofs::Findings::FaultPlaces::required_faulty, crate::proofs::Findings::FaultPlaces::optional_faulty, crate::proofs::Findings::FaultPlaces::default_faulty, crate::proofs::Findings::FaultPlaces::lenient_optional_never, crate::proofs::Findings::FaultPlaces::lenient_default_never))]
pub fn faults_stand_at_slots<K: AnyKind>()
    ensures required_is { FaultyIfRequired K.kind (required K.kind) }
    ensures optional_is { FaultyBySlot K.kind (optional K.kind) }
    ensures default_is { (e : K.Content) (skipped : K.Content → Bool)
        → FaultyBySlot K.kind (default K.kind e skipped) }
    ensures lenient_optional_is { NeverFaulty (lenient_optional K.kind) }
    ensures lenient_default_is { (e : K.Content) → NeverFaulty (lenient_default K.kind e) }
{}

/// The faults of a table by a form are those of its rows, and where the form ends with a map of all other keys, those of
/// the entries of these keys.
#[tactic(auto, using(crate::proofs::Findings::FaultPlaces::faulty_by_rows))]
pub fn faults_stand_in_rows<F: AnyForm>()
    ensures { FaultyByRows F.rows }
{}
