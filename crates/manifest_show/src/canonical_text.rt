//! The canonical text of a manifest.

use cargo_manifest::{Error, Manifest, ParseFault};
use std::alloc::{AllocError, Global};
use std::io::ErrorKind;

/// Why there is no answer.
#[derive(Drop)]
pub enum Refused {
    /// The manifest is refused, with this message.
    Manifest(String),
    Memory(AllocError),
}

impl From<AllocError> for Refused {
    fn from(fault: AllocError) -> Refused {
        Refused::Memory(fault)
    }
}

/// Whether memory ran out: in the call itself, in the parser of TOML, or for a folder that was to be listed.
fn is_memory(error: &Error) -> bool {
    match error {
        Error::Memory(_) => true,
        Error::Parse(ParseFault::Toml(fault)) => fault.is_memory(),
        Error::Io(fault) => fault.kind() == ErrorKind::OutOfMemory,
        _ => false,
    }
}

/// An error of a manifest as its message.
pub(crate) fn refusal_of(alloc: Global, error: Error) -> Refused {
    match format!(in alloc; "{error}") {
        Ok(_message) if is_memory(&error) => Refused::Memory(AllocError),
        Ok(message) => Refused::Manifest(message),
        Err(fault) => Refused::Memory(fault),
    }
}

/// The canonical text of the manifest that the bytes mean.
///
/// ```ignore
/// let text = canonical(alloc, b"name = 'a'")?; // "[package]\nname = \"a\"\n"
/// ```
pub fn canonical(alloc: Global, bytes: &[u8]) -> Result<String, Refused> {
    let manifest = match Manifest::from_slice(alloc, bytes) {
        Ok(manifest) => manifest,
        Err(error) => return Err(refusal_of(alloc, error)),
    };
    match manifest.to_toml_string(alloc) {
        Ok(text) => Ok(text),
        Err(error) => Err(refusal_of(alloc, error)),
    }
}
