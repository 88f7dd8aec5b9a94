//! The small types of a manifest: editions and other choices, dependencies, products, platforms, profiles, badges and
//! lints. A value of `toml` comes in, and a value of the type comes out, or what is found in it; and back. Begin with
//! `src/dependency.rt`, a form with its rows, and `specs/Records.antt`, what each type holds.
#![tactic(auto)]

pub mod badges;
pub mod choices;
pub mod compared;
pub mod copies;
pub mod copies_of_dependencies;
pub mod copies_of_platforms;
pub mod dependency;
pub mod inherited;
pub mod laws;
pub mod lints;
pub mod product;
pub mod profile;
pub mod publish;
mod queries;
pub mod strip;
pub mod target;

pub use badges::{Badge, Badges, Maintenance};
pub use choices::{Edition, LintLevel, MaintenanceStatus, Resolver};
pub use dependency::{Dependency, DependencyDetail, InheritedDependencyDetail};
pub use inherited::{MaybeInherited, True};
pub use lints::{Lint, LintConfig, MaybeInheritedLintsSet};
pub use product::Product;
pub use profile::Profile;
pub use publish::{Publish, StringOrBool};
use std::collections::BTreeMap;
pub use strip::StripSetting;
pub use target::Target;

/// Dependencies by name.
pub type DepsSet = BTreeMap<String, Dependency>;

/// Platforms by name or by `cfg`.
pub type TargetDepsSet = BTreeMap<String, Target>;

/// What each feature enables.
pub type FeatureSet = BTreeMap<String, Vec<String>>;

/// Dependencies by the registry that they patch.
pub type PatchSet = BTreeMap<String, DepsSet>;

/// The lints of one tool.
pub type ToolLintsSet = BTreeMap<String, Lint>;

/// Lints by tool.
pub type LintsSet = BTreeMap<String, ToolLintsSet>;
