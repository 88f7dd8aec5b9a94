//! Values as tagged bytes, for readers that need values and no text. A value of `toml` comes in and its bytes come out,
//! or the other way round. Begin with `specs/Encoded.antt`, the bytes of each value, and `src/values.rt`;
//! `docs/LIBRARY.md` has the layout.
#![tactic(auto)]

mod error;
pub mod laws;
mod reading;
mod values;
mod written;

pub use error::DecodeError;
pub use values::{value_bytes, value_of_bytes};
pub use written::written_bytes;
