//! Faults and where they stand. A key path and a cause come in, and an error of the library comes out, with its text; and
//! all that is found in a value is a tree of such paths. Begin with `src/fault.rt`, the key paths and causes, and
//! `src/findings.rt`, the tree.
#![tactic(auto)]

pub mod error;
pub mod fault;
pub mod findings;
pub mod path_text;
pub mod schema_findings;

pub use error::{Error, ParseFault};
pub use fault::{Cause, KeyPath, ReadFault, SchemaFault, Step};
pub use findings::{FindingNode, Findings};
pub use schema_findings::{Choices, Finding, Found};
