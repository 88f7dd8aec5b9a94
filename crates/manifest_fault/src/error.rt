//! Why a call refused.

ghost use Rattle.std.specs.Prelude.{IfOk};
ghost use Rattle.manifest_fault.specs.Refusals.{IsRefusal};

use crate::fault::{ReadFault, SchemaFault};
use std::alloc::{AllocError, AllocFailed, Global};
use std::io;
use std::rc::Rc;
use std::str::Utf8Error;
use thiserror::Error;

/// Why a text is no manifest.
#[derive(Debug, Drop, Error)]
pub enum ParseFault {
    /// `toml` refuses the text, or ran out of memory while parsing it.
    #[error("toml: {0}")]
    Toml(Rc<toml::de::Error>),
    /// The text is a document, and the cause stands in its table at the path.
    #[error("{0}")]
    Schema(SchemaFault),
}

/// What a call refuses with.
#[derive(Debug, Drop, Error)]
pub enum Error {
    /// The text is no manifest.
    #[error("{0}")]
    Parse(ParseFault),
    /// A file or a listing could not be read or written.
    #[error("io: {0}")]
    Io(io::Error),
    /// The bytes are not UTF-8.
    #[error("utf8: {0}")]
    Utf8(Utf8Error),
    /// Anything else, by its text.
    #[error("{0}")]
    Other(String),
    /// No memory was left.
    #[error("memory")]
    Memory(AllocError),
}

impl Error {
    ghost use Rattle.manifest_fault.specs.Refusals.{SameError};

    /// An error that says the same: the same answer, with the same fault of `toml` (which is shared), the same path and
    /// cause, the same I/O kind, or the same text.
    ///
    /// ```ignore
    /// let copy = error.clone(alloc)?;
    /// ```
    pub fn clone(&self, alloc: Global) -> Result<Error, AllocError>
        ensures { IfOk result (SameError self.now) }
    {
        match self {
            Error::Parse(ParseFault::Toml(fault)) => {
                Ok(Error::Parse(ParseFault::Toml(fault.clone()?)))
            }
            Error::Parse(ParseFault::Schema(fault)) => {
                Ok(Error::Parse(ParseFault::Schema(fault.clone(alloc)?)))
            }
            Error::Io(fault) => Ok(Error::Io(*fault)),
            Error::Utf8(fault) => Ok(Error::Utf8(*fault)),
            Error::Other(text) => Ok(Error::Other(String::from_str(alloc, text.as_str())?)),
            Error::Memory(refused) => Ok(Error::Memory(*refused)),
        }
    }
}

/// The [`Error`] that a public call returns for a reader's fault: `Parse` of a fault of the schema, or `Memory`.
///
/// ```ignore
/// match text(alloc, value) {
///     Ok(name) => Ok(name),
///     Err(fault) => Err(refusal(fault)),
/// }
/// ```
pub fn refusal(fault: ReadFault) -> Error
    ensures { IsRefusal fault result }
{
    match fault {
        ReadFault::Schema(fault) => Error::Parse(ParseFault::Schema(fault)),
        ReadFault::Memory(refused) => Error::Memory(refused),
    }
}

/// A fault of a file, a folder or a stream, which `?` passes on as `Error::Io`.
impl From<io::Error> for Error {
    ghost use Rattle.std.specs.Prelude.{◌≡◌};
    ghost use Rattle.manifest_fault.specs.declared.error.Error.TheVariants.{Io};

    ghost from_gives = { λ fault e. e ≡ Io fault };

    fn from(fault: io::Error) -> Error {
        Error::Io(fault)
    }
}

/// Bytes that are not UTF-8, which `?` passes on as `Error::Utf8`.
impl From<Utf8Error> for Error {
    ghost use Rattle.std.specs.Prelude.{◌≡◌};
    ghost use Rattle.manifest_fault.specs.declared.error.Error.TheVariants.{Utf8};

    ghost from_gives = { λ fault e. e ≡ Utf8 fault };

    fn from(fault: Utf8Error) -> Error {
        Error::Utf8(fault)
    }
}

/// A reader's fault, which `?` passes on as by [`refusal`].
impl From<ReadFault> for Error {
    ghost from_gives = { IsRefusal };

    fn from(fault: ReadFault) -> Error {
        refusal(fault)
    }
}

/// A refused allocation, which `?` passes on as `Error::Memory`.
impl From<AllocError> for Error {
    ghost use Rattle.std.specs.Prelude.{◌≡◌};
    ghost use Rattle.manifest_fault.specs.declared.error.Error.TheVariants.{Memory};

    ghost from_gives = { λ refused e. e ≡ Memory refused };

    fn from(refused: AllocError) -> Error {
        Error::Memory(refused)
    }
}

/// A refused allocation, which `?` passes on as `Error::Memory`.
impl<T: Drop> From<AllocFailed<T>> for Error {
    ghost use Rattle.manifest_fault.specs.Refusals.{IsOutOfMemory};

    ghost from_gives = { λ _ e. IsOutOfMemory e };

    fn from(refused: AllocFailed<T>) -> Error {
        Error::Memory(AllocError::from(refused))
    }
}
