//! Copies of workspaces: each holds what it is copied from, whatever tree is made of
//! its metadata.

ghost use Rattle.manifest_schema.specs.Prelude.{fun_ext, Data, raw, workspace_rows};
ghost use Rattle.std.specs.Prelude.{◌≡◌, map, option_map, String, string_bytes};
ghost use Rattle.std.proofs.Common.{ap, rules};
ghost use Rattle.manifest_schema.specs.Contents;
ghost use Rattle.manifest_schema.proofs.Forms.ManifestLaws.{workspace_built};
ghost use Rattle.manifest_value.proofs.FormLemmas.{by_rows};
ghost use Rattle.manifest_schema.proofs.Forms.CopyLaws.{copy_laws, some_copied, entries_copied};
ghost use Rattle.manifest_value.specs.Entries.{entries_content};
ghost use Rattle.manifest_parts.specs.Parts.{resolver_content};
ghost use Rattle.manifest_parts.specs.Records.{lint_content};
ghost use Rattle.manifest_parts.specs.contracts.copies_of_dependencies.DependencyCopied.TheImpl.Laws.{copies-law as dependency_copied};
ghost use Rattle.manifest_parts.specs.contracts.copies.LintCopied.TheImpl.Laws.{copies-law as lint_copied};
ghost use Rattle.cargo_manifest.specs.Tables.{workspace_package_content, workspace_content, dependencies_content};
ghost use Rattle.cargo_manifest.specs.contracts.copies_of_profiles.WorkspacePackageCopied.TheImpl.Laws.{copies-law as package_copied};

use crate::workspace::Workspace;
use manifest_parts::LintsSet;
use manifest_value::Copied;

impl<M: Copied> Copied for Workspace<M> {
    ghost Held = { (M.Held → Data) → Contents.Workspace };

    ghost held = { λ w see. workspace_content (λ m. see (M.held m)) w };

    ghost copies = { λ x y c. fun_ext (λ see.
        let seen : (a b : M) → M.is_clone a b → see (M.held b) ≡ see (M.held a)
        = λ a b k. ap see (M.copies a b k) in
        let content = workspace_content (λ m. see (M.held m)) in
        by_rows (workspace_rows raw) (workspace_built raw) (content y) (content x)
        (unfold workspace_rows in (
        let lints :
        option_map (λ m. entries_content (λ l. entries_content lint_content l.entries) m.entries)
        y.lints
        ≡ option_map (λ m. entries_content (λ l. entries_content lint_content l.entries) m.entries)
        x.lints
        = some_copied ⟦<Option<LintsSet> as Clone>⟧.is_clone
        (λ m. entries_content (λ l. entries_content lint_content l.entries) m.entries)
        (λ a k. k) (λ a k. k)
        (λ a b k. entries_copied (λ l. entries_content lint_content l.entries)
        (λ d e h. entries_copied lint_content lint_copied d.entries e.entries h)
        a.entries b.entries k)
        x.lints y.lints c.7 in
        Prim.search (rules, copy_laws, dependency_copied, package_copied, seen, lints)))) };
}
