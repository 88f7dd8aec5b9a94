//! Maps whose values are resolved by their names: dependencies, and platforms with their three maps of dependencies.

ghost use Rattle.std.specs.Prelude.{◌≡◌, OnOk, IfOk, List, ℕ, option_map};
ghost use Rattle.manifest_schema.specs.Contents;
ghost use Rattle.manifest_schema.specs.Paths.{Step};
ghost use Rattle.manifest_schema.specs.Kinds.{Entries};
ghost use Rattle.manifest_value.specs.Entries.{entries_content};
ghost use Rattle.manifest_parts.specs.Records.{dependency_content, platform_content};
ghost use Rattle.manifest_inherit.specs.Resolved.{resolved_entries, resolved_dependency, resolved_platform};
ghost use Rattle.manifest_inherit.specs.Refused.{Refusal, dependency_refusals, entries_refusals, platform_refusals, some_refusals};
ghost use Rattle.manifest_inherit.specs.Answers.{refused};
ghost use Rattle.manifest_inherit.specs.ForProofs.{shared_by_map};
ghost use Rattle.manifest_inherit.specs.Sizes.{dependency_size, platform_size, Leaves};

use crate::dependency::{dependency_refusals, resolved_dependency};
use crate::error::Refusals;
use crate::sizes::{less_dependency, less_map};
use manifest_parts::{Dependency, DepsSet, Target};
use manifest_value::Findings;
use manifest_value::maps::map_of_list;
use std::alloc::{AllocError, Global};
use std::collections::BTreeMap;

/// A value of a map in a manifest which inherits from the workspace: a dependency, by its name, or a platform's table,
/// by the dependencies in it.
pub(crate) trait Resolvable: Sized + Drop {
    ghost Content: { Type 0 };

    ghost content: { Self → Content };

    ghost resolved: { Entries Contents.Dependency → List ℕ → Content → Content };

    ghost refusals: { Entries Contents.Dependency → List ℕ → Content →
        List (List Step × Refusal) };

    ghost size: { Entries Contents.Dependency → List ℕ → Content → ℕ };

    /// A copy of the value, which stands under the key `name`, with what it inherits from the workspace's dependencies
    /// (`shared`), where they have it.
    fn resolve_under_name(
        &self,
        alloc: Global,
        shared: &Option<DepsSet>,
        name: &str,
    ) -> Result<Self, AllocError>
        ensures { let made = resolved (shared_by_map shared.now) name.now (content self.now) in
            IfOk result (λ x. content x ≡ made) };

    /// All refusals of the value, which stands under the key `name`: each of what the workspace's dependencies (`shared`)
    /// do not have, or themselves inherit.
    fn refusals_under_name(&self, alloc: Global, shared: &Option<DepsSet>, name: &str) -> Refusals
        ensures { let reported = refusals (shared_by_map shared.now) name.now (content self.now) in
            IfOk result (λ f. refused f ≡ reported) };

    /// What is left of `most` after what the value inherits, which stands under the key `name`: the texts of the
    /// workspace's dependencies (`shared`). `None` where these take more.
    fn less_inherited(&self, most: usize, shared: &Option<DepsSet>, name: &str) -> Option<usize>
        ensures { let n = size (shared_by_map shared.now) name.now (content self.now) in
            Leaves most n result };
}

/// A dependency becomes what [`resolved_dependency`] makes of it under its name.
impl Resolvable for Dependency {
    ghost Content = { Contents.Dependency };

    ghost content = { dependency_content };

    ghost resolved = { resolved_dependency };

    ghost refusals = { dependency_refusals };

    ghost size = { dependency_size };

    fn resolve_under_name(
        &self,
        alloc: Global,
        shared: &Option<DepsSet>,
        name: &str,
    ) -> Result<Dependency, AllocError> {
        resolved_dependency(alloc, shared, name, self)
    }

    fn refusals_under_name(&self, alloc: Global, shared: &Option<DepsSet>, name: &str) -> Refusals {
        dependency_refusals(alloc, shared, name, self)
    }

    fn less_inherited(&self, most: usize, shared: &Option<DepsSet>, name: &str) -> Option<usize> {
        less_dependency(most, shared, name, self)
    }
}

/// A platform's table becomes one whose three maps of dependencies are resolved; its own name plays no part.
impl Resolvable for Target {
    ghost Content = { Contents.Target };

    ghost content = { platform_content };

    ghost resolved = { λ shared name. resolved_platform shared };

    ghost refusals = { λ shared name. platform_refusals shared };

    ghost size = { λ shared name. platform_size shared };

    fn resolve_under_name(
        &self,
        alloc: Global,
        shared: &Option<DepsSet>,
        _name: &str,
    ) -> Result<Target, AllocError> {
        let dependencies = resolved_map(alloc, shared, &self.dependencies)?;
        let dev_dependencies = resolved_map(alloc, shared, &self.dev_dependencies)?;
        let build_dependencies = resolved_map(alloc, shared, &self.build_dependencies)?;
        Ok(Target {
            dependencies,
            dev_dependencies,
            build_dependencies,
        })
    }

    #[tactic(auto, using(crate::proofs::ListLemmas::refusal_steps))]
    fn refusals_under_name(
        &self,
        alloc: Global,
        shared: &Option<DepsSet>,
        _name: &str,
    ) -> Refusals {
        let inside = map_refusals(alloc, shared, &self.dependencies)?;
        let list = Findings::none(alloc).and_under(alloc, "dependencies", inside)?;
        let inside = map_refusals(alloc, shared, &self.dev_dependencies)?;
        let list = list.and_under(alloc, "dev-dependencies", inside)?;
        let inside = map_refusals(alloc, shared, &self.build_dependencies)?;
        let list = list.and_under(alloc, "build-dependencies", inside)?;
        Ok(list)
    }

    fn less_inherited(&self, most: usize, shared: &Option<DepsSet>, _name: &str) -> Option<usize> {
        let left = less_map(most, shared, &self.dependencies)?;
        let left = less_map(left, shared, &self.dev_dependencies)?;
        less_map(left, shared, &self.build_dependencies)
    }
}

/// Copies of the entries of a map (`own`), in their order, each value as [`Resolvable::resolve_under_name`] makes it by the
/// workspace's dependencies (`shared`).
fn resolved_list<T: Resolvable>(
    alloc: Global,
    shared: &Option<DepsSet>,
    own: &BTreeMap<String, T>,
) -> Result<Vec<(String, T)>, AllocError>
    ensures { let es = entries_content T.content own.now.entries in IfOk result
        (λ v. entries_content T.content v.items
        ≡ resolved_entries (T.resolved (shared_by_map shared.now)) es) }
{
    let mut list = Vec::new(alloc);
    for (key, x) in own.iter() {
        let made = x.resolve_under_name(alloc, shared, key.as_str())?;
        list.push((String::from_str(alloc, key.as_str())?, made))?;
    }
    Ok(list)
}

/// A new map with the keys of `own`, each value as [`Resolvable::resolve_under_name`] makes it by the workspace's
/// dependencies (`shared`).
fn resolved_map<T: Resolvable>(
    alloc: Global,
    shared: &Option<DepsSet>,
    own: &BTreeMap<String, T>,
) -> Result<BTreeMap<String, T>, AllocError>
    ensures { let es = entries_content T.content own.now.entries in IfOk result
        (λ m. entries_content T.content m.entries
        ≡ resolved_entries (T.resolved (shared_by_map shared.now)) es) }
{
    // (the keys of the map ascend)
    let _in_order = own.len();
    let list = resolved_list(alloc, shared, own)?;
    Ok(map_of_list(alloc, list)?)
}

/// Sets `place` to what [`resolved_map`] makes of the map `own`, or to `None` where there is no map.
pub(crate) fn make_map<T: Resolvable>(
    alloc: Global,
    shared: &Option<DepsSet>,
    own: &Option<BTreeMap<String, T>>,
    place: &mut Option<BTreeMap<String, T>>,
) -> Result<(), AllocError>
    ensures { let o = option_map (λ m. entries_content T.content m.entries) own.now in
        OnOk result (option_map (λ m. entries_content T.content m.entries) place.new
        ≡ option_map (resolved_entries (T.resolved (shared_by_map shared.now))) o) }
{
    match own {
        Some(own) => {
            *place = Some(resolved_map(alloc, shared, own)?);
            Ok(())
        }
        None => {
            *place = None;
            Ok(())
        }
    }
}

/// All refusals of the values of a map (`own`), as [`Resolvable::refusals_under_name`] has them by the workspace's
/// dependencies (`shared`), each with the key of its value before the path.
#[tactic(auto, using(crate::proofs::ListLemmas::refusal_steps))]
fn map_refusals<T: Resolvable>(
    alloc: Global,
    shared: &Option<DepsSet>,
    own: &BTreeMap<String, T>,
) -> Refusals
    ensures { let reported = T.refusals (shared_by_map shared.now) in
        let es = entries_content T.content own.now.entries in
        IfOk result (λ f. refused f ≡ entries_refusals reported es) }
{
    let mut list = Findings::none(alloc);
    for (key, x) in own.iter() {
        let inside = x.refusals_under_name(alloc, shared, key.as_str())?;
        list = list.and_under(alloc, key.as_str(), inside)?;
    }
    Ok(list)
}

/// All refusals of a map that may be absent, as [`map_refusals`] has them.
pub(crate) fn optional_map_refusals<T: Resolvable>(
    alloc: Global,
    shared: &Option<DepsSet>,
    own: &Option<BTreeMap<String, T>>,
) -> Refusals
    ensures { let reported = entries_refusals (T.refusals (shared_by_map shared.now)) in
        let o = option_map (λ m. entries_content T.content m.entries) own.now in
        IfOk result (λ f. refused f ≡ some_refusals reported o) }
{
    match own {
        Some(own) => map_refusals(alloc, shared, own),
        None => Ok(Findings::none(alloc)),
    }
}
