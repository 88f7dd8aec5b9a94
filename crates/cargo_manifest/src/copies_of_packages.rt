//! Copies of packages: each holds what it is copied from, whatever tree is made of
//! its metadata.

ghost use Rattle.manifest_schema.specs.Prelude.{fun_ext, Data, raw, package_rows};
ghost use Rattle.std.specs.Prelude.{◌≡◌, map, option_map, String, string_bytes};
ghost use Rattle.std.proofs.Common.{ap, rules};
ghost use Rattle.manifest_schema.specs.Contents;
ghost use Rattle.manifest_schema.proofs.Forms.ManifestLaws.{package_built};
ghost use Rattle.manifest_value.proofs.FormLemmas.{by_rows};
ghost use Rattle.manifest_schema.proofs.Forms.CopyLaws.{copy_laws};
ghost use Rattle.manifest_parts.specs.Parts.{
  edition_content,
  resolver_content,
  text_or_flag_content,
  publish_content,
  inh_content,
};
ghost use Rattle.manifest_parts.proofs.CopyLaws.{shared_copied};
ghost use Rattle.cargo_manifest.specs.Tables.{package_content};

use crate::package::Package;
use manifest_value::Copied;

impl<M: Copied> Copied for Package<M> {
    ghost Held = { (M.Held → Data) → Contents.Package };

    ghost held = { λ p see. package_content (λ m. see (M.held m)) p };

    ghost copies = { λ x y c. fun_ext (λ see.
        let seen : (a b : M) → M.is_clone a b → see (M.held b) ≡ see (M.held a)
        = λ a b k. ap see (M.copies a b k) in
        let content = package_content (λ m. see (M.held m)) in
        by_rows (package_rows raw) (package_built raw) (content y) (content x)
        (unfold package_rows in Prim.search (rules, copy_laws, shared_copied, seen))) };
}
