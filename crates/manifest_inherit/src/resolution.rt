//! Resolving a manifest over the workspace that it belongs to.

ghost use Rattle.std.specs.Prelude.{◌≡◌, OnOk, OnErr, IfOk, Some, option_map};
ghost use Rattle.manifest_schema.specs.Contents;
ghost use Rattle.cargo_manifest.specs.Tables.{workspace_package_content, package_of, workspace_of};
ghost use Rattle.cargo_manifest.specs.Whole.{manifest_of};
ghost use Rattle.manifest_inherit.specs.Resolved.{resolved_package, resolved};
ghost use Rattle.manifest_inherit.specs.Answers.{Resolves};
ghost use Rattle.manifest_inherit.specs.ForProofs.{with_made};

use crate::error::{ResolveError, refuse_first};
use crate::fields::put_fields;
use crate::lints::{make_lints, put_lints};
use crate::maps::make_map;
use crate::unresolved::refusals;
use cargo_manifest::{
    DepsSet, LintsSet, Manifest, Metadata, Package, TargetDepsSet, Workspace, WorkspacePackage,
};
use manifest_value::copy_of;
use std::alloc::{AllocError, Global};
use std::mem;

/// What is made apart from a manifest, to be put into it when nothing can fail any more: copies of the workspace's
/// fields and lints that it inherits, and its maps of dependencies as they become.
#[derive(Drop)]
pub(crate) struct Made {
    pub fields: WorkspacePackage,
    pub dependencies: Option<DepsSet>,
    pub dev_dependencies: Option<DepsSet>,
    pub build_dependencies: Option<DepsSet>,
    pub target: Option<TargetDepsSet>,
    pub lints: Option<LintsSet>,
}

impl Made {
    /// One in which nothing is made yet: each field and each map is `None`.
    fn new() -> Made {
        Made {
            fields: WorkspacePackage::default(),
            dependencies: None,
            dev_dependencies: None,
            build_dependencies: None,
            target: None,
            lints: None,
        }
    }
}

/// Sets `made` to a copy of the workspace's fields (`shared`), or to one without fields where the workspace has none.
#[tactic(auto, using(crate::proofs::FieldLaws::nothing_resolved))]
fn copy_fields(
    shared: &Option<WorkspacePackage>,
    made: &mut WorkspacePackage,
) -> Result<(), AllocError>
    ensures { let w = option_map workspace_package_content shared.now in
        (p : Contents.Package) → OnOk result
        (resolved_package (Some (workspace_package_content made.new)) p ≡ resolved_package w p) }
{
    let fields = match shared {
        Some(shared) => copy_of(shared)?,
        None => WorkspacePackage::default(),
    };
    drop(mem::replace(made, fields));
    Ok(())
}

/// Sets `made` to a copy of the workspace's fields (`shared`), of which [`put_fields`] takes those that the package `own`
/// inherits. Without a package `made` stays as it is.
fn make_package<M: Metadata>(
    own: &Option<Package<M>>,
    shared: &Option<WorkspacePackage>,
    made: &mut WorkspacePackage,
) -> Result<(), AllocError>
    ensures { let w = option_map workspace_package_content shared.now in
        let o = option_map (package_of M.kind M.content) own.now in
        OnOk result (option_map (resolved_package (Some (workspace_package_content made.new))) o
        ≡ option_map (resolved_package w) o) }
{
    match own {
        Some(_) => {
            copy_fields(shared, made)?;
            Ok(())
        }
        None => Ok(()),
    }
}

/// Fills the fields of `made`, each of which is empty before, with what [`put_made`] is to put into the manifest.
fn make_all<P: Metadata, W: Metadata, V: Metadata>(
    alloc: Global,
    manifest: &Manifest<P, W>,
    workspace: &Workspace<V>,
    made: &mut Made,
) -> Result<(), AllocError>
    ensures { let m = manifest_of P.kind W.kind P.content W.content manifest.now in
        let w = workspace_of V.kind V.content workspace.now in
        OnOk result (with_made made.new m ≡ resolved m w) }
{
    let (own, shared) = (manifest, &workspace.dependencies);
    make_package(&own.package, &workspace.package, &mut made.fields)?;
    make_map(alloc, shared, &own.dependencies, &mut made.dependencies)?;
    make_map(
        alloc,
        shared,
        &own.dev_dependencies,
        &mut made.dev_dependencies,
    )?;
    make_map(
        alloc,
        shared,
        &own.build_dependencies,
        &mut made.build_dependencies,
    )?;
    make_map(alloc, shared, &own.target, &mut made.target)?;
    make_lints(&own.lints, &workspace.lints, &mut made.lints)?;
    Ok(())
}

/// Makes everything that the manifest inherits, as new values, from copies of what the workspace has.
fn make<P: Metadata, W: Metadata, V: Metadata>(
    alloc: Global,
    manifest: &Manifest<P, W>,
    workspace: &Workspace<V>,
) -> Result<Made, AllocError>
    ensures { let m = manifest_of P.kind W.kind P.content W.content manifest.now in
        let w = workspace_of V.kind V.content workspace.now in
        IfOk result (λ made. with_made made m ≡ resolved m w) }
{
    let mut made = Made::new();
    match make_all(alloc, manifest, workspace, &mut made) {
        Ok(()) => Ok(made),
        Err(refused) => {
            drop(made);
            Err(refused)
        }
    }
}

/// Puts what is made into the manifest: the fields and lints that it inherits, and its maps of dependencies; all else
/// stays as it is.
fn put_made<P: Metadata, W: Metadata>(manifest: &mut Manifest<P, W>, made: Made)
    ensures { manifest_of P.kind W.kind P.content W.content manifest.new
        ≡ with_made made (manifest_of P.kind W.kind P.content W.content manifest.old) }
{
    let Made {
        fields,
        dependencies,
        dev_dependencies,
        build_dependencies,
        target,
        lints,
    } = made;
    match &mut manifest.package {
        Some(package) => put_fields(package, fields),
        None => drop(fields),
    }
    manifest.dependencies = dependencies;
    manifest.dev_dependencies = dev_dependencies;
    manifest.build_dependencies = build_dependencies;
    manifest.target = target;
    put_lints(&mut manifest.lints, lints);
}

/// Puts into a manifest what it inherits from a workspace: package fields, dependencies and lints. `docs/INHERITING.md`
/// says how. Its `patch` and its own `workspace` stay as they are, and so does everything that is not inherited. See
/// the [Cargo reference](https://doc.rust-lang.org/cargo/reference/workspaces.html#the-package-table).
///
/// An inherited field becomes the one of the workspace's `package`. An inherited dependency becomes the workspace's
/// dependency of its name, with the features of both; whether it is optional the member alone says, and whether it has
/// its default features the member, or else the workspace. Inherited lints become the workspace's.
///
/// Refuses with the first of the [`refusals`](crate::refusals): with [`Refusal::NotInWorkspace`](crate::Refusal) of a
/// field's key, of a dependency's name, or of `lints`, where the workspace has none; with `InheritedInWorkspace` of the
/// name of a dependency that the workspace itself inherits; with `MixedLints` where lints are inherited and have a tool
/// as well; and with `ToolNamedWorkspace` where the lints of the workspace that are inherited have a tool of that name.
/// Or it refuses with [`ResolveError::Memory`], when out of memory. After a refusal the manifest is what it was.
///
/// ```ignore
/// resolve(alloc, manifest, workspace)?; // `version.workspace = true` becomes the workspace's `version = '2.0.0'`
/// ```
pub fn resolve<P: Metadata, W: Metadata, V: Metadata>(
    alloc: Global,
    manifest: &mut Manifest<P, W>,
    workspace: &Workspace<V>,
) -> Result<(), ResolveError>
    ensures answers { Resolves (manifest_of P.kind W.kind P.content W.content manifest.old)
        (workspace_of V.kind V.content workspace.now)
        (manifest_of P.kind W.kind P.content W.content manifest.new) result }
    ensures refused { OnErr result (manifest.new ≡ manifest.old) }
{
    refuse_first(alloc, refusals(alloc, manifest, workspace)?)?;
    let made = make(alloc, manifest, workspace)?;
    put_made(manifest, made);
    Ok(())
}
