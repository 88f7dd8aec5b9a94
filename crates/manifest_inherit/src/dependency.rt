//! What an inherited dependency becomes.

ghost use Rattle.manifest_schema.specs.Prelude.{option_or, detailed};
ghost use Rattle.std.specs.Prelude.{◌≡◌, IfOk, option_map, string_bytes};
ghost use Rattle.manifest_parts.specs.Records.{inherited_content, detail_content, dependency_content};
ghost use Rattle.manifest_parts.specs.Queries.{simplify};
ghost use Rattle.manifest_inherit.specs.Resolved.{workspace_dependency, version_alone, joined, resolved_dependency};
ghost use Rattle.manifest_inherit.specs.Refused.{dependency_refusals};
ghost use Rattle.manifest_inherit.specs.Answers.{refused};
ghost use Rattle.manifest_inherit.specs.ForProofs.{shared_by_map};

use crate::error::{Refusals, inherited_in_workspace, not_in_workspace};
use crate::features::join_features;
use manifest_parts::{Dependency, DependencyDetail, DepsSet, InheritedDependencyDetail};
use manifest_value::{Findings, copy_of};
use std::alloc::{AllocError, Global};

/// The workspace's dependency of this name; `None` where the workspace does not have it, or no dependencies at all.
pub(crate) fn workspace_dependency<'a>(
    shared: &'a Option<DepsSet>,
    name: &str,
) -> Option<&'a Dependency>
    ensures { option_map (λ d. dependency_content d.now) result
        ≡ workspace_dependency (shared_by_map shared.now) name.now }
{
    match shared {
        Some(shared) => shared.get(name),
        None => None,
    }
}

/// A `DependencyDetail` of this version, in which no other field is given.
fn version_alone(version: &String) -> Result<DependencyDetail, AllocError>
    ensures { IfOk result (λ d. detail_content d ≡ version_alone (string_bytes version.now)) }
{
    let version = copy_of(version)?;
    let mut detail = DependencyDetail::default();
    detail.version = Some(version);
    Ok(detail)
}

/// What the member says (`own`); where that is `None`, what the workspace says (`shared`).
fn own_or_workspace(own: Option<bool>, shared: Option<bool>) -> Option<bool>
    ensures { option_map (λ b. b) result
        ≡ option_or (option_map (λ b. b) own) (option_map (λ b. b) shared) }
{
    match own {
        Some(flag) => Some(flag),
        None => shared,
    }
}

/// What an inherited dependency becomes: the workspace's (`shared`), with the features of both, `optional` of the member
/// (`own`), and the default features as the member says or else the workspace; simplified.
fn join_dependency(
    alloc: Global,
    own: &InheritedDependencyDetail,
    shared: DependencyDetail,
) -> Result<Dependency, AllocError>
    ensures { IfOk result (λ d. dependency_content d
        ≡ simplify (detailed (joined (inherited_content own.now) (detail_content shared)))) }
{
    let mut detail = shared;
    join_features(alloc, &mut detail.features, &own.features)?;
    detail.optional = own.optional;
    detail.default_features = own_or_workspace(own.default_features, detail.default_features);
    Ok(Dependency::Detailed(detail).simplify())
}

/// What a member's dependency of this name becomes: an inherited one the workspace's of the same name, joined with what
/// the member says; any other one, and one that the workspace does not have or itself inherits, a copy of itself.
pub(crate) fn resolved_dependency(
    alloc: Global,
    shared: &Option<DepsSet>,
    name: &str,
    own: &Dependency,
) -> Result<Dependency, AllocError>
    ensures { let d = dependency_content own.now in IfOk result
        (λ x. dependency_content x ≡ resolved_dependency (shared_by_map shared.now) name.now d) }
{
    match own {
        Dependency::Simple(version) => Ok(Dependency::Simple(copy_of(version)?)),
        Dependency::Detailed(detail) => Ok(Dependency::Detailed(copy_of(detail)?)),
        Dependency::Inherited(own) => match workspace_dependency(shared, name) {
            None => Ok(Dependency::Inherited(copy_of(own)?)),
            Some(Dependency::Inherited(_)) => Ok(Dependency::Inherited(copy_of(own)?)),
            Some(Dependency::Simple(version)) => {
                join_dependency(alloc, own, version_alone(version)?)
            }
            Some(Dependency::Detailed(detail)) => { join_dependency(alloc, own, copy_of(detail)?) }
        },
    }
}

/// Why a member's dependency of this name is not resolved: it is inherited, and the workspace has none of the name, or
/// itself inherits it.
pub(crate) fn dependency_refusals(
    alloc: Global,
    shared: &Option<DepsSet>,
    name: &str,
    own: &Dependency,
) -> Refusals
    ensures { let d = dependency_content own.now in IfOk result
        (λ f. refused f ≡ dependency_refusals (shared_by_map shared.now) name.now d) }
{
    match own {
        Dependency::Simple(_) => Ok(Findings::none(alloc)),
        Dependency::Detailed(_) => Ok(Findings::none(alloc)),
        Dependency::Inherited(_) => match workspace_dependency(shared, name) {
            None => Findings::alone(alloc, not_in_workspace(alloc, name)?),
            Some(Dependency::Inherited(_)) => {
                Findings::alone(alloc, inherited_in_workspace(alloc, name)?)
            }
            Some(Dependency::Simple(_)) => Ok(Findings::none(alloc)),
            Some(Dependency::Detailed(_)) => Ok(Findings::none(alloc)),
        },
    }
}
