//! Copies of dependencies, by the laws of what they are made of.

ghost use Rattle.std.specs.Prelude.{◌≡◌};
ghost use Rattle.std.proofs.Common.{ap};
ghost use Rattle.manifest_schema.specs.Contents;
ghost use Rattle.manifest_parts.specs.Records.{dependency_content};
ghost use Rattle.manifest_parts.specs.declared.dependency.Dependency.TheVariants.{Simple, Inherited, Detailed};
ghost use Rattle.manifest_parts.specs.contracts.copies.InheritedDependencyDetailCopied.TheImpl.Laws.{copies-law as inherited_copied};
ghost use Rattle.manifest_parts.specs.contracts.copies.DependencyDetailCopied.TheImpl.Laws.{copies-law as detail_copied};

use crate::dependency::Dependency;
use manifest_value::Copied;

impl Copied for Dependency {
    ghost Held = { Contents.Dependency };

    ghost held = { dependency_content };

    ghost copies = { elim [
      | Simple a ↦ elim [
        | Simple b ↦ λ c. ap Contents.simple c
        | Inherited b ↦ λ c. absurd c
        | Detailed b ↦ λ c. absurd c
      ]
      | Inherited a ↦ elim [
        | Simple b ↦ λ c. absurd c
        | Inherited b ↦ λ c. ap Contents.by_workspace (inherited_copied a b c)
        | Detailed b ↦ λ c. absurd c
      ]
      | Detailed a ↦ elim [
        | Simple b ↦ λ c. absurd c
        | Inherited b ↦ λ c. absurd c
        | Detailed b ↦ λ c. ap Contents.detailed (detail_copied a b c)
      ]
    ] };
}
