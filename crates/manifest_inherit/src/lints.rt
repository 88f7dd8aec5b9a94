//! The lints inherited from a workspace.

ghost use Rattle.std.specs.Prelude.{◌≡◌, OnOk, IfOk, option_map};
ghost use Rattle.manifest_parts.specs.Records.{lints_content};
ghost use Rattle.manifest_inherit.specs.Resolved.{resolved_lints};
ghost use Rattle.manifest_inherit.specs.Refused.{tools_refusals, shared_lints_refusals, lints_refusals, some_refusals};
ghost use Rattle.manifest_inherit.specs.Answers.{refused};
ghost use Rattle.manifest_inherit.specs.ForProofs.{tools_content};

use crate::error::{Refusal, Refusals, not_in_workspace};
use manifest_parts::{LintsSet, MaybeInheritedLintsSet};
use manifest_value::well_formed::none_is_named;
use manifest_value::{Findings, copy_of, spelled};
use std::alloc::{AllocError, Global};

/// Why the workspace's lints (`shared`) cannot be inherited: there are none, or there is a tool named `workspace`.
fn shared_lints_refusals(alloc: Global, shared: &Option<LintsSet>) -> Refusals
    ensures { let all = option_map tools_content shared.now in
        IfOk result (λ f. refused f ≡ shared_lints_refusals all) }
{
    match shared {
        None => Findings::alone(alloc, not_in_workspace(alloc, "lints")?),
        Some(shared) => {
            if none_is_named(shared, &spelled!["workspace"]) {
                Ok(Findings::none(alloc))
            } else {
                Findings::alone(alloc, Refusal::ToolNamedWorkspace)
            }
        }
    }
}

/// Why lints that are inherited may not have tools of their own (`own`): there is one.
fn tools_refusals(alloc: Global, own: &LintsSet) -> Refusals
    ensures { IfOk result (λ f. refused f ≡ tools_refusals (tools_content own.now)) }
{
    if own.is_empty() {
        Ok(Findings::none(alloc))
    } else {
        Findings::alone(alloc, Refusal::MixedLints)
    }
}

/// All refusals of a manifest's lints (`own`) over those of the workspace (`shared`).
fn lints_refusals(
    alloc: Global,
    own: &MaybeInheritedLintsSet,
    shared: &Option<LintsSet>,
) -> Refusals
    ensures { let all = option_map tools_content shared.now in IfOk result
        (λ f. refused f ≡ lints_refusals all (lints_content own.now)) }
{
    match own.workspace {
        None => Ok(Findings::none(alloc)),
        Some(_) => {
            let list = tools_refusals(alloc, &own.lints)?;
            let all = list.and(shared_lints_refusals(alloc, shared)?)?;
            Ok(all)
        }
    }
}

/// All refusals of lints that may be absent, as [`lints_refusals`] has them.
pub(crate) fn optional_lints_refusals(
    alloc: Global,
    own: &Option<MaybeInheritedLintsSet>,
    shared: &Option<LintsSet>,
) -> Refusals
    ensures { let all = option_map tools_content shared.now in
        let o = option_map lints_content own.now in
        IfOk result (λ f. refused f ≡ some_refusals (lints_refusals all) o) }
{
    match own {
        Some(own) => lints_refusals(alloc, own, shared),
        None => Ok(Findings::none(alloc)),
    }
}

/// Sets `place` to a copy of the workspace's lints (`shared`), if the manifest's lints (`own`) are inherited.
fn copy_shared(
    own: &MaybeInheritedLintsSet,
    shared: &Option<LintsSet>,
    place: &mut Option<LintsSet>,
) -> Result<(), AllocError>
    ensures { let all = option_map tools_content shared.now in let l = lints_content own.now in
        OnOk result
        (resolved_lints (option_map tools_content place.new) l ≡ resolved_lints all l) }
{
    if own.is_inherited() {
        *place = copy_of(shared)?;
    }
    Ok(())
}

/// Sets `place` to a copy of the workspace's lints (`shared`), if the manifest's lints (`own`) are inherited; else it stays
/// as it is.
pub(crate) fn make_lints(
    own: &Option<MaybeInheritedLintsSet>,
    shared: &Option<LintsSet>,
    place: &mut Option<LintsSet>,
) -> Result<(), AllocError>
    ensures { let all = option_map tools_content shared.now in
        let o = option_map lints_content own.now in
        OnOk result (option_map (resolved_lints (option_map tools_content place.new)) o
        ≡ option_map (resolved_lints all) o) }
{
    match own {
        Some(own) => {
            copy_shared(own, shared, place)?;
            Ok(())
        }
        None => Ok(()),
    }
}

/// Sets the manifest's lints (`own`) to those of the workspace, if they are inherited and the workspace has some
/// (`shared`); else they stay as they are.
pub(crate) fn put_lints(own: &mut Option<MaybeInheritedLintsSet>, shared: Option<LintsSet>)
    ensures { option_map lints_content own.new
        ≡ option_map (resolved_lints (option_map tools_content shared))
        (option_map lints_content own.old) }
{
    if let Some(own) = own {
        if own.workspace.is_some() {
            if let Some(lints) = shared {
                own.workspace = None;
                own.lints = lints;
            }
        }
    }
}
