//! Worked examples of the definitions: what they say of small tables. The examples are ours, as are the small forms of
//! some of them; whether Cargo says the same, they do not show. The functions do nothing; their contracts are the
//! examples.

ghost use Rattle.manifest_schema.specs.Prelude.{string, integer, boolean, array, table, no_members, member, two_spellings, missing, not_a_choice, wrong_kind, out_of_range, key, index, raw, inherited, local, form, by_workspace, detailed, simple, e2021, edition, package_rows, texts, codegen, dependency, badges_rows, means, manifest_faulty, written_manifest, rewritten, former_written, ManifestLeavesDefaults, named, empty_manifest, faulty, inh, text, strip, manifest_findings, ignored_of, unused_of};
ghost use Rattle.std.specs.Prelude.{◌≡◌, pos, negsuc, true, false, [], ◌∷◌, Some, None, codes};
ghost use Rattle.manifest_schema.specs.PartForms.{priority};
ghost use Rattle.manifest_schema.specs.Findings.{fault};
ghost use Rattle.manifest_schema.specs.Defaults.{inherited_alone, no_badges, empty_workspace};
ghost use Rattle.manifest_schema.specs.Examples.{one_entry, two_entries, bare, bare_by, everywhere, of_version, only_package, spelled_rows, lenient_rows, default_rows, rest_rows, at_key, two_items, bad_gitlab, OnlyFault, NoFault};

/// A key that no row has is ignored, and is not written.
#[tactic(auto, unfolding(crate::specs::ManifestForms::package_rows, crate::specs::Slots::put_some))]
pub fn unused_key()
    ensures reads { (form (package_rows raw)).reads
        (table (two_entries (codes "name") (string (codes "p")) (codes "zzz") (integer (pos 1))))
        (named (codes "p")) }
    ensures written { (form (package_rows raw)).written (named (codes "p"))
        ≡ table (one_entry (codes "name") (string (codes "p"))) }
{}

/// `workspace = true` next to `version`: the dependency comes from the workspace, and `version` is ignored.
#[tactic(auto, unfolding(crate::specs::PartForms::inherited_rows, crate::specs::Slots::put_some))]
pub fn inherited_dependency()
    ensures reads { dependency.reads
        (table (two_entries (codes "version") (integer (pos 3)) (codes "workspace") (boolean true)))
        (by_workspace inherited_alone) }
    ensures written { dependency.written (by_workspace inherited_alone)
        ≡ table (one_entry (codes "workspace") (boolean true)) }
{}

/// An inherited dependency may choose its default features, by either spelling.
#[tactic(auto, unfolding(crate::specs::PartForms::inherited_rows, crate::specs::Slots::put_some))]
pub fn chosen_default_features()
    ensures reads { dependency.reads (bare_by (codes "default_features")) (by_workspace bare) }
    ensures written { dependency.written (by_workspace bare) ≡ bare_by (codes "default-features") }
{}

/// Of that choice the former schema wrote nothing, at any place of a manifest.
#[tactic(auto, unfolding(crate::specs::PartForms::inherited_rows, crate::specs::Slots::put_some, crate::specs::PartForms::platform_rows, crate::specs::ManifestForms::workspace_rows, crate::specs::ManifestForms::manifest_rows))]
pub fn former_tables()
    ensures chosen { former_written raw raw (everywhere bare)
        ≡ written_manifest raw raw (everywhere inherited_alone) }
    ensures left { ManifestLeavesDefaults (everywhere inherited_alone) }
{}

/// `workspace = false` next to `version`: the dependency is the member's own, and `workspace` is ignored.
#[tactic(auto, unfolding(crate::specs::PartForms::detailed_rows, crate::specs::Slots::put_some))]
pub fn own_dependency()
    ensures reads { dependency.reads
        (table (two_entries (codes "version") (string (codes "1")) (codes "workspace")
        (boolean false)))
        (detailed (of_version (codes "1"))) }
    ensures written { dependency.written (detailed (of_version (codes "1")))
        ≡ table (one_entry (codes "version") (string (codes "1"))) }
{}

/// Either spelling is read, the first one is written, and both are a clash that is reported under the first.
#[tactic(auto, unfolding(crate::specs::Slots::put_some))]
pub fn second_spelling()
    ensures reads { (form spelled_rows).reads (table (one_entry (codes "a_b") (string (codes "x"))))
        (Some (codes "x")) }
    ensures written { (form spelled_rows).written (Some (codes "x"))
        ≡ table (one_entry (codes "a-b") (string (codes "x"))) }
    ensures faulty { faulty (form spelled_rows)
        (table (two_entries (codes "a-b") (string (codes "x")) (codes "a_b") (string (codes "x"))))
        (at_key (codes "a-b")) two_spellings }
{}

/// A value that does not fit a lenient row counts as absent.
pub fn lenient_row()
    ensures { (form lenient_rows).reads (table (one_entry (codes "a") (integer (pos 1)))) None }
{}

/// A default is read where the key is absent, and is not written.
#[tactic(auto, unfolding(crate::specs::Slots::put_some))]
pub fn default_row()
    ensures reads { (form default_rows).reads (table no_members) true }
    ensures written { (form default_rows).written true ≡ table no_members }
    ensures other { (form default_rows).written false
        ≡ table (one_entry (codes "a") (boolean false)) }
{}

/// All keys that no row names are entries of the map, in the order of the keys.
#[tactic(auto, unfolding(crate::specs::Slots::put_some))]
pub fn other_keys()
    ensures reads { (form rest_rows).reads
        (table (two_entries (codes "a") (boolean true) (codes "b") (string (codes "x"))))
        (record { here = Some true; others = (codes "b", codes "x") ∷ [] }) }
    ensures written { (form rest_rows).written
        (record { here = Some true; others = (codes "Z", codes "x") ∷ [] })
        ≡ table (two_entries (codes "Z") (string (codes "x")) (codes "a") (boolean true)) }
{}

/// Without `package` and `workspace` the package is `project`, or else the whole table.
#[tactic(auto, unfolding(crate::specs::ManifestForms::package_rows, crate::specs::ManifestForms::manifest_rows))]
pub fn old_headers()
    ensures project { means raw raw
        (one_entry (codes "project") (table (one_entry (codes "name") (string (codes "p")))))
        (only_package (named (codes "p"))) }
    ensures top { means raw raw (one_entry (codes "name") (string (codes "p")))
        (only_package (named (codes "p"))) }
    ensures nothing { manifest_faulty raw raw no_members (at_key (codes "name")) missing }
{}

/// With a `workspace` next to it, `project` is a key that no row has.
#[tactic(auto, unfolding(crate::specs::ManifestForms::workspace_rows, crate::specs::ManifestForms::manifest_rows))]
pub fn workspace_beside_project()
    ensures { means raw raw
        (two_entries (codes "project") (table no_members) (codes "workspace") (table no_members))
        (record empty_manifest { workspace = Some empty_workspace }) }
{}

/// What is written of a manifest has its keys in order, whatever the order of the rows.
#[tactic(auto, unfolding(crate::specs::ManifestForms::package_rows, crate::specs::ManifestForms::manifest_rows, crate::specs::Slots::put_some))]
pub fn written_in_order()
    ensures { rewritten raw raw (record empty_manifest {
      «package» = Some (record (named (codes "p")) {
        edition = Some (local e2021);
        version = Some inherited;
      });
      dependencies = Some ((codes "a", simple (codes "1")) ∷ []);
    })
        ≡ two_entries (codes "dependencies") (table (one_entry (codes "a") (string (codes "1"))))
        (codes "package") (table (member (codes "edition") (string (codes "2021"))
        (two_entries (codes "name") (string (codes "p")) (codes "version")
        (table (one_entry (codes "workspace") (boolean true)))))) }
{}

/// Where both spellings are there, that is the only fault, whatever their values are.
pub fn only_a_clash()
    ensures { OnlyFault (faulty (form spelled_rows) (table
        (two_entries (codes "a-b") (string (codes "x")) (codes "a_b") (integer (pos 1)))))
        (at_key (codes "a-b")) two_spellings }
{}

/// A value that does not fit is reported under the spelling that the table has, and nowhere else.
pub fn only_the_second_spelling()
    ensures { OnlyFault
        (faulty (form spelled_rows) (table (one_entry (codes "a_b") (integer (pos 1)))))
        (at_key (codes "a_b")) wrong_kind }
{}

/// A whole number outside the limits is out of range, and has no other fault; at the limit it has none.
pub fn only_out_of_range()
    ensures above { OnlyFault (faulty codegen (integer (pos 65536))) [] out_of_range }
    ensures below { OnlyFault (faulty priority (integer (negsuc 128))) [] out_of_range }
    ensures at_limit { NoFault (faulty priority (integer (negsuc 127))) }
{}

/// The fault of an item stands under its index, and the other items have none.
pub fn only_one_item()
    ensures { OnlyFault (faulty texts (array (two_items (string (codes "x")) (integer (pos 1)))))
        (index 1 ∷ []) wrong_kind }
{}

/// Without `package` and `workspace` the only fault is that of the package, under `project` where the table has it.
#[tactic(auto, unfolding(crate::specs::ManifestForms::package_rows, crate::specs::ManifestForms::manifest_rows))]
pub fn only_an_old_fault()
    ensures project { OnlyFault
        (manifest_faulty raw raw (one_entry (codes "project") (table no_members)))
        (key (codes "project") ∷ at_key (codes "name")) missing }
    ensures top { OnlyFault (manifest_faulty raw raw no_members) (at_key (codes "name")) missing }
{}

/// A badge that does not fit is no fault: it counts as absent.
#[tactic(auto, unfolding(crate::specs::PartForms::badges_rows))]
pub fn unfit_badge()
    ensures reads { (form badges_rows).reads bad_gitlab no_badges }
    ensures faultless { NoFault (faulty (form badges_rows) bad_gitlab) }
{}

/// The text `2020` is no edition, by the cause `not_a_choice`; the number 2021 is of the wrong kind.
pub fn unknown_edition()
    ensures text { faulty edition (string (codes "2020")) [] not_a_choice }
    ensures number { faulty edition (integer (pos 2021)) [] wrong_kind }
{}

/// What is found of a table in addition to its faults: what is ignored of a lenient row; each key that nothing reads, next to
/// `workspace = true` and at the top of a table with an old header; and the words of a choice.
#[tactic(auto, unfolding(crate::specs::ManifestForms::package_rows, crate::specs::ManifestForms::manifest_rows))]
pub fn what_is_found()
    ensures ignored { ignored_of
        ((form lenient_rows).findings (table (one_entry (codes "a") (integer (pos 1)))))
        ≡ (at_key (codes "a"), wrong_kind) ∷ [] }
    ensures inherited { unused_of
        ((inh text).findings
        (table (two_entries (codes "workspace") (boolean true) (codes "zzz") (integer (pos 1)))))
        ≡ at_key (codes "zzz") ∷ [] }
    ensures project { unused_of
        (manifest_findings raw raw
        (two_entries (codes "project") (table (one_entry (codes "name") (string (codes "p"))))
        (codes "zzz") (integer (pos 1))))
        ≡ at_key (codes "zzz") ∷ [] }
    ensures top { unused_of
        (manifest_findings raw raw
        (two_entries (codes "name") (string (codes "p")) (codes "zzz") (integer (pos 1))))
        ≡ at_key (codes "zzz") ∷ [] }
    ensures words { strip.findings (string (codes "x"))
        ≡ fault [] not_a_choice (codes "none" ∷ codes "symbols" ∷ codes "debuginfo" ∷ []) ∷ [] }
{}
