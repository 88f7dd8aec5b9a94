//! Why a manifest is not resolved.

ghost use Rattle.std.specs.Prelude.{◌≡◌, [], OnOk, IfOk, IfErr};
ghost use Rattle.manifest_inherit.specs.Refused.{not_in_workspace, inherited_in_workspace};
ghost use Rattle.manifest_inherit.specs.Answers.{refusal_of, refused, RefusesFirst};

use manifest_value::{Findings, KeyPath};
use std::alloc::{AllocError, AllocFailed, Global};
use thiserror::Error;

/// Why a manifest is not resolved over a workspace.
#[derive(Debug, PartialEq, Eq, Drop, Error)]
pub enum Refusal {
    /// The manifest inherits a package field or a dependency of this name, as it stands in the file, or `lints`, and
    /// the workspace has none.
    #[error("not in workspace: {0}")]
    NotInWorkspace(String),
    /// The workspace's dependency of this name is itself inherited.
    #[error("inherited in workspace: {0}")]
    InheritedInWorkspace(String),
    /// The lints are inherited, and there is a tool as well.
    #[error("mixed lints")]
    MixedLints,
    /// The lints are inherited, and the workspace has lints of a tool named `workspace`.
    #[error("tool named workspace")]
    ToolNamedWorkspace,
}

/// What is returned where refusals are looked for: these in their order, or out of memory.
pub(crate) type Refusals = Result<Findings<Refusal>, AllocError>;

/// One refusal, at the key path in the manifest of what is inherited: `not in workspace: version at package.version`.
#[derive(Debug, PartialEq, Eq, Drop, Error)]
#[error("{refusal} at {path}")]
pub struct ResolveFault {
    pub path: KeyPath,
    pub refusal: Refusal,
}

/// What [`resolve`](crate::resolve) refuses with.
#[derive(Debug, Drop, Error)]
pub enum ResolveError {
    /// What the manifest inherits is refused: the first of the [`refusals`](crate::refusals).
    #[error("{0}")]
    Refused(ResolveFault),
    /// No memory was left.
    #[error("memory")]
    Memory(AllocError),
}

/// What [`finish`](crate::finish) refuses with, and what a program refuses with that reads manifests, finishes them and
/// prints them.
#[derive(Debug, Drop, Error)]
pub enum FinishError {
    /// A manifest is not read, completed or printed.
    #[error("{0}")]
    Manifest(cargo_manifest::Error),
    /// The root has no workspace.
    #[error("no workspace")]
    NoWorkspace,
    /// What the manifest inherits is refused.
    #[error("{0}")]
    Resolve(ResolveError),
}

/// The error of a manifest that is read, completed or printed, which `?` passes on as `FinishError::Manifest`.
impl From<cargo_manifest::Error> for FinishError {
    ghost use Rattle.std.specs.Prelude.{◌≡◌};
    ghost use Rattle.manifest_inherit.specs.declared.error.FinishError.TheVariants.{Manifest};

    ghost from_gives = { λ error refused. refused ≡ Manifest error };

    fn from(error: cargo_manifest::Error) -> FinishError {
        FinishError::Manifest(error)
    }
}

/// A refused allocation, which `?` passes on as `ResolveError::Memory`.
impl From<AllocError> for ResolveError {
    ghost use Rattle.std.specs.Prelude.{◌≡◌};
    ghost use Rattle.manifest_inherit.specs.declared.error.ResolveError.TheVariants.{Memory};

    ghost from_gives = { λ refused e. e ≡ Memory refused };

    fn from(refused: AllocError) -> ResolveError {
        ResolveError::Memory(refused)
    }
}

/// A refused allocation, which `?` passes on as `ResolveError::Memory`.
impl<T: Drop> From<AllocFailed<T>> for ResolveError {
    ghost use Rattle.manifest_inherit.specs.Answers.{IsOutOfMemory};

    ghost from_gives = { λ _ e. IsOutOfMemory e };

    fn from(refused: AllocFailed<T>) -> ResolveError {
        ResolveError::Memory(AllocError::from(refused))
    }
}

/// `NotInWorkspace` of a copy of the name.
pub(crate) fn not_in_workspace(alloc: Global, name: &str) -> Result<Refusal, AllocError>
    ensures { IfOk result (λ r. refusal_of r ≡ not_in_workspace name.now) }
{
    Ok(Refusal::NotInWorkspace(String::from_str(alloc, name)?))
}

/// `InheritedInWorkspace` of a copy of the dependency's name.
pub(crate) fn inherited_in_workspace(alloc: Global, name: &str) -> Result<Refusal, AllocError>
    ensures { IfOk result (λ r. refusal_of r ≡ inherited_in_workspace name.now) }
{
    Ok(Refusal::InheritedInWorkspace(String::from_str(alloc, name)?))
}

impl Refusal {
    /// A copy of the refusal.
    fn clone(&self, alloc: Global) -> Result<Refusal, AllocError>
        ensures { IfOk result (λ r. refusal_of r ≡ refusal_of self.now) }
    {
        match self {
            Refusal::NotInWorkspace(name) => not_in_workspace(alloc, name.as_str()),
            Refusal::InheritedInWorkspace(name) => inherited_in_workspace(alloc, name.as_str()),
            Refusal::MixedLints => Ok(Refusal::MixedLints),
            Refusal::ToolNamedWorkspace => Ok(Refusal::ToolNamedWorkspace),
        }
    }
}

/// Refuses with the first of these refusals, if there is one.
#[tactic(auto, using(crate::proofs::ListLemmas::refusal_steps))]
pub(crate) fn refuse_first(alloc: Global, refusals: Findings<Refusal>) -> Result<(), ResolveError>
    ensures ok { OnOk result (refused refusals ≡ []) }
    ensures refused { IfErr result (RefusesFirst (refused refusals)) }
{
    match refusals.first(alloc)? {
        Some((path, refusal)) => {
            let refusal = refusal.clone(alloc)?;
            Err(ResolveError::Refused(ResolveFault { path, refusal }))
        }
        None => Ok(()),
    }
}
