//! What a manifest table means. A table comes in; what it means comes out, what is found in it, and what is written of
//! that. Begin with `specs/ManifestForms.antt`, the rows of a manifest, and `specs/Kinds.antt`; `docs/SCHEMA.md` says how
//! to read the definitions. The functions here have empty bodies: each carries one law of the definitions as its contract.
#![tactic(auto)]

pub mod examples;
pub mod kinds;
