//! The rules by which Cargo refuses or warns of what a manifest says of its own package: its text and keys, the package and its
//! targets, platforms, profiles and lints, and what a registry wants. Each is a function that looks at a manifest and says what
//! is wrong with it, in the words of `manifest_rules`.
#![tactic(auto)]

mod cfg;
pub mod inherits;
pub mod keys;
mod licenses;
pub mod lints;
pub mod newer;
pub mod package;
pub mod platforms;
pub mod profiles;
pub mod publish;
pub mod settings;
mod shared_files;
mod spdx;
pub mod spellings;
pub mod target_files;
pub mod targets;
pub mod text;
