//! Cargo manifests. The bytes of a `Cargo.toml` come in, and listings of folders where a manifest is completed; a
//! [`Manifest`] comes out, or its one canonical table, or an error with a key path. Begin with `src/manifest.rt`, the
//! manifest and what it is written as, and `src/reading.rt`.
//!
//! ```ignore
//! use cargo_manifest::{Error, Listings, Manifest};
//! use std::alloc::Global;
//!
//! /// The canonical text of a manifest, completed from listings of its folders.
//! fn completed(alloc: Global, text: &str, listings: &Listings) -> Result<String, Error> {
//!     let mut manifest = Manifest::from_str(alloc, text)?;
//!     manifest.complete_from_abstract_filesystem(alloc, listings)?;
//!     manifest.to_toml_string(alloc)
//! }
//! ```
#![tactic(auto)]

mod completion;
pub mod copies;
pub mod copies_of_packages;
pub mod copies_of_profiles;
pub mod copies_of_workspaces;
mod files;
mod inspecting;
pub mod laws;
pub mod manifest;
mod nesting;
pub mod package;
mod printed;
pub mod profiles;
mod reading;
pub mod workspace;
mod writing;

pub use inspecting::{faults, ignored, inspect, inspect_with_metadata, unused_keys};
pub use manifest::Manifest;
pub use manifest_completion::{AbstractFilesystem, Filesystem, Listing, Listings};
pub use manifest_parts::{
    Badge, Badges, Dependency, DependencyDetail, DepsSet, Edition, FeatureSet,
    InheritedDependencyDetail, Lint, LintConfig, LintLevel, LintsSet, Maintenance,
    MaintenanceStatus, MaybeInherited, MaybeInheritedLintsSet, PatchSet, Product, Profile, Publish,
    Resolver, StringOrBool, StripSetting, Target, TargetDepsSet, ToolLintsSet, True,
};
pub use manifest_value::{
    Cause, Choices, Error, Finding, FindingNode, Findings, KeyPath, Metadata, ParseFault, Plain,
    ReadFault, Schema, SchemaFault, Step, Unread,
};
pub use nesting::depth;
pub use package::Package;
pub use printed::printed_bound;
pub use profiles::Profiles;
pub use toml::Value;
pub use workspace::{Workspace, WorkspacePackage};
pub use writing::INVALID_DATE;
