//! Copies of what is needed on a platform, by the law of dependencies.

ghost use Rattle.std.specs.Prelude.{◌≡◌};
ghost use Rattle.manifest_schema.specs.Contents;
ghost use Rattle.manifest_schema.proofs.Forms.CopyLaws.{entries_copied};
ghost use Rattle.manifest_parts.specs.Records.{dependency_content, platform_content};
ghost use Rattle.manifest_parts.specs.contracts.copies_of_dependencies.DependencyCopied.TheImpl.Laws.{copies-law};

use crate::target::Target;
use manifest_value::Copied;

impl Copied for Target {
    ghost Held = { Contents.Target };

    ghost held = { platform_content };

    ghost copies = { λ x y c. Prim.cc (
      entries_copied dependency_content copies-law x.dependencies.entries
          y.dependencies.entries c.0,
      entries_copied dependency_content copies-law x.dev_dependencies.entries
          y.dev_dependencies.entries c.1.0,
      entries_copied dependency_content copies-law x.build_dependencies.entries
          y.build_dependencies.entries c.1.1,
    ) };
}
