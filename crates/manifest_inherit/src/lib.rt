//! What members inherit from a workspace: package fields, dependencies and lints. A manifest and the workspace that it
//! belongs to come in; the manifest comes out with what it inherits, or each refusal at its key path. Begin with
//! `specs/Resolved.antt` and `src/resolution.rt`; `docs/INHERITING.md` says how to read the definitions.
#![tactic(auto)]

mod dependency;
mod error;
mod features;
mod fields;
pub mod laws;
mod lints;
mod maps;
mod pipeline;
mod resolution;
mod sizes;
mod unresolved;

pub use error::{FinishError, Refusal, ResolveError, ResolveFault};
pub use pipeline::finish;
pub use resolution::resolve;
pub use sizes::inherits_at_most;
pub use unresolved::refusals;
