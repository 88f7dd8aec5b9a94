//! What is written of a value: a tree that borrows its texts from the value, and the value of its own that such a tree
//! stands for. Begin with `specs/Written.antt`, what it stands for, and `src/written.rt`.
#![tactic(auto)]

pub mod written;

pub use written::{Pairs, Written, put_entry, table_of, value_of};
