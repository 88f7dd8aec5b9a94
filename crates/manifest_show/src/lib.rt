//! What a package builds and inherits, and its canonical text, as texts. Texts and a runtime that lists folders come in;
//! texts come out.
#![tactic(auto)]

mod canonical_text;
mod inherited;
mod lines;
mod printed;
mod targets;

pub use canonical_text::{Refused, canonical};
pub use printed::{RootText, show};
