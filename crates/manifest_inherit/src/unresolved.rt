//! All refusals of a manifest over the workspace that it belongs to.

ghost use Rattle.std.specs.Prelude.{◌≡◌, IfOk};
ghost use Rattle.cargo_manifest.specs.Tables.{workspace_of};
ghost use Rattle.cargo_manifest.specs.Whole.{manifest_of};
ghost use Rattle.manifest_inherit.specs.Refused.{all_refusals};
ghost use Rattle.manifest_inherit.specs.Answers.{refused};

use crate::error::Refusal;
use crate::fields::optional_package_refusals;
use crate::lints::optional_lints_refusals;
use crate::maps::optional_map_refusals;
use cargo_manifest::{Manifest, Metadata, Workspace};
use manifest_value::Findings;
use std::alloc::{AllocError, Global};

/// All refusals of a manifest over a workspace, each with the key path in the manifest of what is inherited. The list
/// is empty where [`resolve`](crate::resolve) succeeds. `docs/INHERITING.md` says which refusals there are.
///
/// They stand in this order: the fields of the package, as `package.version`; `dependencies`, `dev-dependencies` and
/// `build-dependencies`, as `dependencies.serde`; the same three of each platform, as
/// `target."cfg(unix)".dependencies.serde`; and `lints`. Lints can have two refusals, and everything else has at most
/// one. A map is gone through in the order of its keys. It fails only when out of memory.
///
/// ```ignore
/// let found = refusals(alloc, manifest, workspace)?; // as `not in workspace: version` at `package.version`
/// ```
pub fn refusals<P: Metadata, W: Metadata, V: Metadata>(
    alloc: Global,
    manifest: &Manifest<P, W>,
    workspace: &Workspace<V>,
) -> Result<Findings<Refusal>, AllocError>
    ensures { let m = manifest_of P.kind W.kind P.content W.content manifest.now in
        let w = workspace_of V.kind V.content workspace.now in
        IfOk result (λ f. refused f ≡ all_refusals m w) }
{
    let (own, shared) = (manifest, &workspace.dependencies);
    let inside = optional_package_refusals(alloc, &own.package, &workspace.package)?;
    let list = Findings::none(alloc).and_under(alloc, "package", inside)?;
    let inside = optional_map_refusals(alloc, shared, &own.dependencies)?;
    let list = list.and_under(alloc, "dependencies", inside)?;
    let inside = optional_map_refusals(alloc, shared, &own.dev_dependencies)?;
    let list = list.and_under(alloc, "dev-dependencies", inside)?;
    let inside = optional_map_refusals(alloc, shared, &own.build_dependencies)?;
    let list = list.and_under(alloc, "build-dependencies", inside)?;
    let inside = optional_map_refusals(alloc, shared, &own.target)?;
    let list = list.and_under(alloc, "target", inside)?;
    let inside = optional_lints_refusals(alloc, &own.lints, &workspace.lints)?;
    let list = list.and_under(alloc, "lints", inside)?;
    Ok(list)
}
