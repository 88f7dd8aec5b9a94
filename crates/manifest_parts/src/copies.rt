//! Copies of the small types: each holds what it is copied from.

ghost use Rattle.manifest_schema.specs.Prelude.{view, Inheritable, detailed_rows, profile_rows, badges_rows};
ghost use Rattle.std.specs.Prelude.{◌≡◌, map, option_map, pos, string_bytes};
ghost use Rattle.std.proofs.Common.{rules};
ghost use Rattle.manifest_schema.specs.Contents;
ghost use Rattle.manifest_schema.proofs.Forms.CopyLaws.{copy_laws};
ghost use Rattle.manifest_value.specs.Entries.{entries_content};
ghost use Rattle.manifest_parts.specs.Parts.{
  edition_content,
  resolver_content,
  level_content,
  status_content,
  strip_content,
  text_or_flag_content,
  publish_content,
  inh_content,
};
ghost use Rattle.manifest_parts.specs.Records.{
  inherited_content,
  detail_content,
  product_content,
  badge_content,
  maintenance_content,
  badges_content,
  lint_config_content,
  lint_content,
  lints_content,
  profile_content,
};
ghost use Rattle.manifest_schema.proofs.Forms.PartLaws.{detailed_built, profile_built, badges_built};
ghost use Rattle.manifest_value.proofs.FormLemmas.{by_rows};

use crate::badges::{Badge, Badges, Maintenance};
use crate::choices::{Edition, LintLevel, MaintenanceStatus, Resolver};
use crate::dependency::{DependencyDetail, InheritedDependencyDetail};
use crate::inherited::{MaybeInherited, True};
use crate::lints::{Lint, LintConfig, MaybeInheritedLintsSet};
use crate::product::Product;
use crate::profile::Profile;
use crate::publish::{Publish, StringOrBool};
use crate::strip::StripSetting;
use manifest_value::Copied;

// (made by scripts/keys --write)
impl Copied for Edition {
    ghost Held = { Contents.Edition };

    ghost held = { edition_content };

    ghost copies = { Prim.search rules };
}

impl Copied for Resolver {
    ghost Held = { Contents.Resolver };

    ghost held = { resolver_content };

    ghost copies = { Prim.search rules };
}

impl Copied for LintLevel {
    ghost Held = { Contents.LintLevel };

    ghost held = { level_content };

    ghost copies = { Prim.search rules };
}

impl Copied for MaintenanceStatus {
    ghost Held = { Contents.MaintenanceStatus };

    ghost held = { status_content };

    ghost copies = { Prim.search rules };
}

impl Copied for StripSetting {
    ghost Held = { Contents.StripSetting };

    ghost held = { strip_content };

    ghost copies = { Prim.search rules };
}

impl Copied for True {
    ghost Held = { Unit {0} };

    ghost held = { λ t. tt };

    ghost copies = { Prim.search rules };
}

impl Copied for Maintenance {
    ghost Held = { Contents.Maintenance };

    ghost held = { maintenance_content };

    ghost copies = { Prim.search rules };
}

impl Copied for LintConfig {
    ghost Held = { Contents.LintConfig };

    ghost held = { lint_config_content };

    ghost copies = { Prim.search rules };
}

impl Copied for Lint {
    ghost Held = { Contents.Lint };

    ghost held = { lint_content };

    ghost copies = { Prim.search rules };
}

impl Copied for StringOrBool {
    ghost Held = { Contents.StringOrBool };

    ghost held = { text_or_flag_content };

    ghost copies = { Prim.search (rules, copy_laws) };
}

impl Copied for Publish {
    ghost Held = { Contents.Publish };

    ghost held = { publish_content };

    ghost copies = { Prim.search (rules, copy_laws) };
}

impl Copied for InheritedDependencyDetail {
    ghost Held = { Contents.InheritedDependencyDetail };

    ghost held = { inherited_content };

    ghost copies = { Prim.search (rules, copy_laws) };
}

impl Copied for Product {
    ghost Held = { Contents.Product };

    ghost held = { product_content };

    ghost copies = { Prim.search (rules, copy_laws) };
}

impl Copied for Badge {
    ghost Held = { Contents.Badge };

    ghost held = { badge_content };

    ghost copies = { Prim.search (rules, copy_laws) };
}

impl Copied for MaybeInheritedLintsSet {
    ghost Held = { Contents.MaybeInheritedLintsSet };

    ghost held = { lints_content };

    ghost copies = { Prim.search (rules, copy_laws) };
}

impl Copied for DependencyDetail {
    ghost Held = { Contents.DependencyDetail };

    ghost held = { detail_content };

    ghost copies = { λ x y c. by_rows detailed_rows detailed_built
        (detail_content y) (detail_content x)
        (unfold detailed_rows in Prim.search (rules, copy_laws)) };
}

impl Copied for Badges {
    ghost Held = { Contents.Badges };

    ghost held = { badges_content };

    ghost copies = { λ x y c. by_rows badges_rows badges_built
        (badges_content y) (badges_content x)
        (unfold badges_rows in Prim.search (rules, copy_laws)) };
}

impl Copied for Profile {
    ghost Held = { Contents.Profile };

    ghost held = { profile_content };

    ghost copies = { λ x y c. by_rows profile_rows profile_built
        (profile_content y) (profile_content x)
        (unfold profile_rows in Prim.search (rules, copy_laws)) };
}

impl<T: Copied> Copied for MaybeInherited<T> {
    ghost Held = { Inheritable T.Held };

    ghost held = { inh_content T.held };

    ghost copies = { Prim.search (rules, T.copies) };
}
