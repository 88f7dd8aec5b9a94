//! What is said of a manifest, written for people and for machines: as rustc prints, one line each, JSON, the commands of
//! GitHub's actions, SARIF; and the difference of two texts. Texts and diagnostics come in, text comes out: no file is
//! read here. Begin with `src/format.rt`.
#![tactic(auto)]

mod diff;
mod escape;
mod excerpt;
mod format;
mod github;
mod help;
mod ink;
mod json;
mod lines;
mod marks;
pub mod pages;
mod people;
mod sarif;
mod short;
mod source;

pub use diff::push_diff;
pub use escape::push_escaped;
pub use format::{Format, Reporter, level_name};
pub use ink::Style;
pub use source::{MemberSource, Source, Sources};
