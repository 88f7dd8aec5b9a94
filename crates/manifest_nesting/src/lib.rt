//! How deep a text nests tables and arrays, counted before it is parsed. `toml` parses a text, and drops what it has
//! parsed of one that it refuses, by calls that go as deep; so a program that takes texts from others counts first.
#![tactic(auto)]

pub mod laws;
mod nesting;
mod skipping;

pub use nesting::{DEPTH_LIMIT, nests_too_deep};
