//! Copies of manifests: each holds what it is copied from, whatever tree is made of its metadata.

ghost use Rattle.manifest_schema.specs.Prelude.{fun_ext, Data, raw, manifest_rows, package_rows, workspace_rows};
ghost use Rattle.std.specs.Prelude.{◌≡◌, map, option_map, string_bytes};
ghost use Rattle.std.proofs.Common.{ap, rules};
ghost use Rattle.manifest_schema.specs.Contents;
ghost use Rattle.manifest_schema.proofs.Forms.ManifestLaws.{manifest_built, package_built, workspace_built};
ghost use Rattle.manifest_schema.proofs.Forms.CopyLaws.{copy_laws, items_copied, some_copied, entries_copied};
ghost use Rattle.manifest_value.specs.Entries.{entries_content};
ghost use Rattle.manifest_value.proofs.FormLemmas.{by_rows};
ghost use Rattle.manifest_parts.proofs.CopyLaws.{shared_copied};
ghost use Rattle.manifest_parts.specs.Records.{lint_content, dependency_content, product_content, badges_content, lints_content, platform_content};
ghost use Rattle.manifest_parts.specs.contracts.copies.BadgesCopied.TheImpl.Laws.{copies-law as badges_copied};
ghost use Rattle.manifest_parts.specs.contracts.copies.LintCopied.TheImpl.Laws.{copies-law as lint_copied};
ghost use Rattle.manifest_parts.specs.contracts.copies.MaybeInheritedLintsSetCopied.TheImpl.Laws.{copies-law as lints_copied};
ghost use Rattle.manifest_parts.specs.contracts.copies.ProductCopied.TheImpl.Laws.{copies-law as product_copied};
ghost use Rattle.manifest_parts.specs.contracts.copies_of_dependencies.DependencyCopied.TheImpl.Laws.{copies-law as dependency_copied};
ghost use Rattle.manifest_parts.specs.contracts.copies_of_platforms.TargetCopied.TheImpl.Laws.{copies-law as platform_copied};
ghost use Rattle.cargo_manifest.specs.Tables.{dependencies_content, package_content, workspace_content, profiles_content};
ghost use Rattle.cargo_manifest.specs.contracts.copies_of_profiles.WorkspacePackageCopied.TheImpl.Laws.{copies-law as fields_copied};
ghost use Rattle.cargo_manifest.specs.contracts.copies_of_profiles.ProfilesCopied.TheImpl.Laws.{copies-law as profiles_copied};
ghost use Rattle.cargo_manifest.specs.declared.manifest.Manifest.{Manifest as AManifest};
ghost use Rattle.cargo_manifest.specs.declared.package.Package.{Package as APackage};
ghost use Rattle.cargo_manifest.specs.declared.workspace.Workspace.{Workspace as AWorkspace};
ghost use Rattle.cargo_manifest.specs.Whole.{manifest_content};

use crate::manifest::Manifest;
use crate::package::Package;
use crate::workspace::Workspace;
use manifest_parts::{FeatureSet, LintsSet, PatchSet, TargetDepsSet};
use manifest_value::Copied;

impl<P: Copied, W: Copied> Copied for Manifest<P, W> {
    ghost Held = { (P.Held → Data) → (W.Held → Data) → Contents.Manifest };

    ghost held = { λ m see look.
        manifest_content (λ p. see (P.held p)) (λ w. look (W.held w)) m };

    ghost copies = { let whole_copied : (see : P.Held → Data) (look : W.Held → Data)
        (x y : AManifest P W) → ⟦<Manifest<P, W> as Clone>⟧.is_clone x y
        → option_map (package_content (λ p. see (P.held p))) y.package
        ≡ option_map (package_content (λ p. see (P.held p))) x.package
        → option_map (workspace_content (λ w. look (W.held w))) y.workspace
        ≡ option_map (workspace_content (λ w. look (W.held w))) x.workspace
        → manifest_content (λ p. see (P.held p)) (λ w. look (W.held w)) y
        ≡ manifest_content (λ p. see (P.held p)) (λ w. look (W.held w)) x
        = λ see look x y c the_package workspace.
        let content = manifest_content (λ p. see (P.held p)) (λ w. look (W.held w)) in
        by_rows (manifest_rows raw raw) (manifest_built raw raw) (content y) (content x)
        (unfold manifest_rows in (
        let cargo_features : option_map (λ v. map string_bytes v.items) y.cargo_features
        ≡ option_map (λ v. map string_bytes v.items) x.cargo_features
        = some_copied ⟦<Option<Vec<String>> as Clone>⟧.is_clone
        (λ v. map string_bytes v.items)
        (λ a k. k) (λ a k. k)
        (λ a b k. items_copied string_bytes (λ s t q. q) a.items b.items k.0)
        x.cargo_features y.cargo_features c.1.0 in
        let target : option_map (λ t. entries_content platform_content t.entries) y.target
        ≡ option_map (λ t. entries_content platform_content t.entries) x.target
        = some_copied ⟦<Option<TargetDepsSet> as Clone>⟧.is_clone
        (λ t. entries_content platform_content t.entries)
        (λ a k. k) (λ a k. k)
        (λ a b k. entries_copied platform_content platform_copied a.entries b.entries k)
        x.target y.target c.1.1.1.1.1.1.0 in
        let features :
        option_map (λ f. entries_content (λ v. map string_bytes v.items) f.entries) y.features
        ≡ option_map (λ f. entries_content (λ v. map string_bytes v.items) f.entries) x.features
        = some_copied ⟦<Option<FeatureSet> as Clone>⟧.is_clone
        (λ f. entries_content (λ v. map string_bytes v.items) f.entries)
        (λ a k. k) (λ a k. k)
        (λ a b k. entries_copied (λ v. map string_bytes v.items)
        (λ d e h. items_copied string_bytes (λ s t q. q) d.items e.items h.0)
        a.entries b.entries k)
        x.features y.features c.1.1.1.1.1.1.1.0 in
        let patch : option_map (λ q. entries_content dependencies_content q.entries) y.patch
        ≡ option_map (λ q. entries_content dependencies_content q.entries) x.patch
        = some_copied ⟦<Option<PatchSet> as Clone>⟧.is_clone
        (λ q. entries_content dependencies_content q.entries)
        (λ a k. k) (λ a k. k)
        (λ a b k. entries_copied dependencies_content
        (λ d e h. entries_copied dependency_content dependency_copied d.entries e.entries h)
        a.entries b.entries k)
        x.patch y.patch c.1.1.1.1.1.1.1.1.1.1.1.1.0 in
        Prim.search (
          rules,
          copy_laws,
          the_package,
          cargo_features,
          workspace,
          target,
          features,
          patch,
          dependency_copied,
          product_copied,
          profiles_copied,
          badges_copied,
          lints_copied,
        ))) in
        let package_copied : (see : P.Held → Data) (x y : APackage P)
        → ⟦<Package<P> as Clone>⟧.is_clone x y
        → package_content (λ m. see (P.held m)) y ≡ package_content (λ m. see (P.held m)) x
        = λ see x y c.
        let seen : (a b : P) → P.is_clone a b → see (P.held b) ≡ see (P.held a)
        = λ a b k. ap see (P.copies a b k) in
        let content = package_content (λ m. see (P.held m)) in
        by_rows (package_rows raw) (package_built raw) (content y) (content x)
        (unfold package_rows in Prim.search (rules, copy_laws, shared_copied, seen)) in
        let workspace_copied : (see : W.Held → Data) (x y : AWorkspace W)
        → ⟦<Workspace<W> as Clone>⟧.is_clone x y
        → workspace_content (λ m. see (W.held m)) y ≡ workspace_content (λ m. see (W.held m)) x
        = λ see x y c.
        let seen : (a b : W) → W.is_clone a b → see (W.held b) ≡ see (W.held a)
        = λ a b k. ap see (W.copies a b k) in
        let content = workspace_content (λ m. see (W.held m)) in
        by_rows (workspace_rows raw) (workspace_built raw) (content y) (content x)
        (unfold workspace_rows in (
        let lints :
        option_map (λ m. entries_content (λ l. entries_content lint_content l.entries) m.entries)
        y.lints
        ≡ option_map (λ m. entries_content (λ l. entries_content lint_content l.entries) m.entries)
        x.lints
        = some_copied ⟦<Option<LintsSet> as Clone>⟧.is_clone
        (λ m. entries_content (λ l. entries_content lint_content l.entries) m.entries)
        (λ a k. k) (λ a k. k)
        (λ a b k. entries_copied (λ l. entries_content lint_content l.entries)
        (λ d e h. entries_copied lint_content lint_copied d.entries e.entries h)
        a.entries b.entries k)
        x.lints y.lints c.7 in
        Prim.search (rules, copy_laws, dependency_copied, fields_copied, seen, lints))) in
        λ x y c. fun_ext (λ see. fun_ext (λ look. whole_copied see look x y c
        (some_copied ⟦<Option<Package<P>> as Clone>⟧.is_clone
        (package_content (λ p. see (P.held p)))
        (λ a k. k) (λ a k. k) (package_copied see) x.package y.package c.0)
        (some_copied ⟦<Option<Workspace<W>> as Clone>⟧.is_clone
        (workspace_content (λ w. look (W.held w)))
        (λ a k. k) (λ a k. k) (workspace_copied look) x.workspace y.workspace c.1.1.0))) };
}
