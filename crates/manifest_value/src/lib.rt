//! Reading `toml`'s values into types, and writing them. A value comes in, and a value of the type comes out, or a fault
//! at a key path, or all that is found. Begin with `src/schema.rt`, the trait by which a type says what it holds and
//! which values it reads, and `src/form.rt`, a type that is read by the rows of its table.
#![tactic(auto)]

pub mod closures;
pub mod copies;
pub mod entries;
pub mod form;
pub mod form_findings;
mod items;
pub mod maps;
pub mod metadata;
pub mod numbers;
pub mod plain;
pub mod raw_values;
pub mod readers;
pub mod row_findings;
pub mod row_macros;
pub mod row_readers;
pub mod row_slots;
pub mod rows;
pub mod schema;
pub mod source;
pub mod spellings;
pub mod walking;
pub mod well_formed;
pub mod writers;

pub use closures::{list_of, map_of};
pub use copies::{Copied, copy_of};
pub use form::{Form, Rowed};
pub use manifest_fault::{
    Cause, Choices, Error, Finding, FindingNode, Findings, Found, KeyPath, ParseFault, ReadFault,
    SchemaFault, Step,
};
pub use metadata::{Metadata, Unread};
pub use plain::Plain;
pub use raw_values::{holds_float, raw};
pub use readers::{boolean, field, table, text, texts, whole};
pub use row_slots::{RowSlot, Walk};
pub use schema::Schema;
pub use source::{Source, TableSource};
pub use spellings::Spellings;
pub use walking::{entries_without, walk};
pub use writers::{write_list, write_map, write_text, write_texts};
