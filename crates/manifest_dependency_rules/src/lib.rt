//! The rules by which Cargo refuses or warns of what a manifest says of other packages: its dependencies and their sources, its
//! features, what it inherits, and its workspace. Each is a function that looks at a manifest and says what is wrong with it, in
//! the words of `manifest_rules`.
#![tactic(auto)]

pub mod around;
pub mod dependencies;
pub mod features;
pub mod inherited;
pub mod replace;
pub mod sources;
pub mod workspace;
