//! Copies of the wide tables: they hold what they are copied from.

ghost use Rattle.manifest_schema.specs.Prelude.{profiles_rows, workspace_package_rows};
ghost use Rattle.std.specs.Prelude.{◌≡◌, map, option_map, string_bytes};
ghost use Rattle.std.proofs.Common.{rules};
ghost use Rattle.manifest_schema.proofs.Forms.CopyLaws.{copy_laws};
ghost use Rattle.manifest_schema.specs.Contents;
ghost use Rattle.manifest_schema.proofs.Forms.PartLaws.{profiles_built};
ghost use Rattle.manifest_schema.proofs.Forms.ManifestLaws.{workspace_package_built};
ghost use Rattle.manifest_value.proofs.FormLemmas.{by_rows};
ghost use Rattle.cargo_manifest.specs.Tables.{workspace_package_content, profiles_content};
ghost use Rattle.manifest_value.specs.Entries.{entries_content};
ghost use Rattle.manifest_parts.specs.Parts.{edition_content, text_or_flag_content, publish_content};
ghost use Rattle.manifest_parts.specs.Records.{profile_content};
ghost use Rattle.manifest_parts.specs.contracts.copies.ProfileCopied.TheImpl.Laws.{copies-law as profile_copied};

use crate::profiles::Profiles;
use crate::workspace::WorkspacePackage;
use manifest_value::Copied;

// (made by scripts/keys --write)
impl Copied for WorkspacePackage {
    ghost Held = { Contents.WorkspacePackage };

    ghost held = { workspace_package_content };

    ghost copies = { λ x y c. by_rows workspace_package_rows workspace_package_built
        (workspace_package_content y) (workspace_package_content x)
        (unfold workspace_package_rows in Prim.search (rules, copy_laws)) };
}

impl Copied for Profiles {
    ghost Held = { Contents.Profiles };

    ghost held = { profiles_content };

    ghost copies = { λ x y c. by_rows profiles_rows profiles_built
        (profiles_content y) (profiles_content x)
        (unfold profiles_rows in Prim.search (rules, copy_laws, profile_copied)) };
}
