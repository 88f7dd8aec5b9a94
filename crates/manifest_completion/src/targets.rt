//! Completing a list of targets.

ghost use Rattle.std.specs.Prelude.{◌≡◌, ◌++◌, ◌∷◌, [], map, option_map, OnOk, IfOk, string_bytes, if◌then◌else◌};
ghost use Rattle.std.specs.Option.{option_copied, option_or, is_some};
ghost use Rattle.manifest_parts.specs.Records.{product_content};
ghost use Rattle.manifest_completion.specs.Targets.{paths_of, pathed, found, added, with_defaults, targets};
ghost use Rattle.manifest_completion.specs.Index.{paths_in, SamePaths};
ghost use Rattle.manifest_completion.specs.Steps.{discovered_content, all_discovered_content, defaults_content};

use crate::copies::{copy_optional_text, one_text};
use crate::discovered::FoundTarget;
use crate::index::{IndexedTargets, add_text};
use manifest_parts::{Edition, Product};
use manifest_value::copy_of;
use std::alloc::{AllocError, Global};
use std::collections::BTreeSet;

/// The edition, crate type and path that a target takes where it has none.
#[derive(Clone, Copy)]
pub struct TargetDefaults {
    pub edition: Option<Edition>,
    pub crate_type: Option<&'static str>,
    pub path: Option<&'static str>,
}

/// A target's own path; where it has none, that of the first find of its name; `None` where there is no such find, or
/// the target has no name.
fn path_of<'a>(target: &'a Product, discovered: &IndexedTargets<'a>) -> Option<&'a str>
    ensures { option_copied result ≡ (pathed discovered.now (product_content target.now)).path }
{
    match &target.path {
        Some(path) => Some(path.as_str()),
        None => match &target.name {
            Some(name) => discovered.first_path(name.as_str()),
            None => None,
        },
    }
}

/// The set of the paths that the declared targets have, each its own or that of the first find of its name.
fn taken_paths<'a>(
    alloc: Global,
    targets: &'a [Product],
    discovered: &IndexedTargets<'a>,
) -> Result<BTreeSet<&'a str>, AllocError>
    ensures { let filled = map (pathed discovered.now) (map product_content targets.now) in
        IfOk result (λ s. SamePaths (paths_in s) (paths_of filled)) }
{
    let mut taken = BTreeSet::new(alloc);
    for target in targets {
        if let Some(path) = path_of(target, discovered) {
            add_text(&mut taken, path)?;
        }
    }
    Ok(taken)
}

/// A copy of the target's own crate type, or else a list of the default one, if there is one.
pub fn crate_type_of(
    alloc: Global,
    own: &Option<Vec<String>>,
    default: Option<&'static str>,
) -> Result<Option<Vec<String>>, AllocError>
    ensures { IfOk result
        (λ o. option_map (λ v. map string_bytes v.items) o
        ≡ option_or (option_map (λ v. map string_bytes v.items) own.now)
        (option_map (λ t. t.now ∷ []) default.entry)) }
{
    match own {
        Some(types) => Ok(Some(copy_of(types)?)),
        None => match default {
            Some(text) => Ok(Some(one_text(alloc, text)?)),
            None => Ok(None),
        },
    }
}

/// A copy of a declared target in which a path that is absent is that of the first find of its name, and in which path,
/// edition and crate type, where still absent, are the defaults.
fn filled_target<'a>(
    alloc: Global,
    target: &'a Product,
    discovered: &IndexedTargets<'a>,
    defaults: TargetDefaults,
) -> Result<Product, AllocError>
    ensures { let filled = pathed discovered.now (product_content target.now) in
        IfOk result (λ p. product_content p ≡ with_defaults (defaults_content defaults) filled) }
{
    let path = copy_optional_text(alloc, path_of(target, discovered).or(defaults.path))?;
    let name = copy_of(&target.name)?;
    let required_features = copy_of(&target.required_features)?;
    let crate_type = crate_type_of(alloc, &target.crate_type, defaults.crate_type)?;
    Ok(Product {
        path,
        name,
        test: target.test,
        doctest: target.doctest,
        bench: target.bench,
        doc: target.doc,
        plugin: target.plugin,
        proc_macro: target.proc_macro,
        harness: target.harness,
        edition: target.edition.or(defaults.edition),
        required_features,
        crate_type,
    })
}

/// A new target of the name and the path of a find, with the edition and the crate type of `defaults`; all else is as
/// [`Product::default`] has it.
#[tactic(auto, unfolding(manifest_schema::specs::PartForms::product_rows))]
fn found_target(
    alloc: Global,
    target_found: &FoundTarget,
    defaults: TargetDefaults,
) -> Result<Product, AllocError>
    ensures { IfOk result
        (λ p. product_content p
        ≡ with_defaults (defaults_content defaults) (found (discovered_content target_found.now))) }
{
    let path = String::from_str(alloc, target_found.path.as_str())?;
    let name = String::from_str(alloc, target_found.name.as_str())?;
    let crate_type = crate_type_of(alloc, &None, defaults.crate_type)?;
    Ok(Product {
        path: Some(path),
        name: Some(name),
        edition: defaults.edition,
        crate_type,
        ..Product::default(alloc)
    })
}

/// Appends to `list` a target for each find whose path is not in `taken`, nor that of a find before it.
fn push_found<'a>(
    list: &mut Vec<Product>,
    alloc: Global,
    mut taken: BTreeSet<&'a str>,
    discovered: &'a [FoundTarget],
    defaults: TargetDefaults,
) -> Result<(), AllocError>
    ensures { let give = with_defaults (defaults_content defaults) in
        let more = map give (added (paths_in taken.entry) (all_discovered_content discovered.now)) in
        let before = map product_content list.old.items in
        OnOk result (map product_content list.new.items ≡ before ++ more) }
{
    for target_found in discovered {
        if add_text(&mut taken, target_found.path.as_str())? {
            list.push(found_target(alloc, target_found, defaults)?)?;
        }
    }
    Ok(())
}

/// Copies of the declared targets, in their order, each as [`filled_target`] makes it.
fn filled_targets<'a>(
    alloc: Global,
    declared: &'a [Product],
    discovered: &IndexedTargets<'a>,
    defaults: TargetDefaults,
) -> Result<Vec<Product>, AllocError>
    ensures { let give = with_defaults (defaults_content defaults) in
        let filled = map give (map (pathed discovered.now) (map product_content declared.now)) in
        IfOk result (λ v. map product_content v.items ≡ filled) }
{
    let mut list = Vec::new(alloc);
    for target in declared {
        list.push(filled_target(alloc, target, discovered, defaults)?)?;
    }
    Ok(list)
}

/// A completed list of targets: the declared ones filled in, the found ones added to them where `discovers` says so,
/// and all given their defaults.
pub fn completed_list(
    alloc: Global,
    declared: &[Product],
    discovered: &[FoundTarget],
    discovers: bool,
    defaults: TargetDefaults,
) -> Result<Vec<Product>, AllocError>
    ensures { IfOk result
        (λ v. map product_content v.items
        ≡ targets (defaults_content defaults) discovers (all_discovered_content discovered.now)
        (map product_content declared.now)) }
{
    let indexed = IndexedTargets::new(alloc, discovered)?;
    let mut list = filled_targets(alloc, declared, &indexed, defaults)?;
    if discovers {
        let taken = taken_paths(alloc, declared, &indexed)?;
        push_found(&mut list, alloc, taken, discovered, defaults)?;
    }
    Ok(list)
}

/// Whether a declared target has a path in the completed list: its own, that of the first find of its name, or the
/// default.
pub fn has_path<'a>(
    target: &'a Product,
    discovered: &IndexedTargets<'a>,
    defaults: TargetDefaults,
) -> bool
    ensures { let filled = pathed discovered.now (product_content target.now) in
        result ≡ is_some (with_defaults (defaults_content defaults) filled).path }
{
    path_of(target, discovered).or(defaults.path).is_some()
}
