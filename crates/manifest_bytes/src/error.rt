//! Why bytes are not read.

ghost use Rattle.std.specs.Prelude.{◌≡◌, alloc_error};
ghost use Rattle.manifest_bytes.specs.declared.error.DecodeError.TheVariants.{Memory};
ghost use Rattle.manifest_bytes.specs.declared.error.Unread.TheVariants.{Refused};

use std::alloc::{AllocError, AllocFailed};

/// Why [`value_of_bytes`](crate::value_of_bytes) does not say whether the bytes are those of a value.
#[derive(Debug, Drop)]
pub enum DecodeError {
    /// The value nests deeper than it may.
    TooDeep,
    /// No memory was left.
    Memory(AllocError),
}

/// A refused allocation, which `?` passes on as `DecodeError::Memory`.
impl From<AllocError> for DecodeError {
    ghost from_gives = { λ refused error. error ≡ Memory refused };

    fn from(refused: AllocError) -> DecodeError {
        DecodeError::Memory(refused)
    }
}

/// A refused allocation, which `?` passes on as `DecodeError::Memory`.
impl<T: Drop> From<AllocFailed<T>> for DecodeError {
    ghost from_gives = { λ refused error. error ≡ Memory alloc_error };

    fn from(refused: AllocFailed<T>) -> DecodeError {
        DecodeError::Memory(AllocError::from(refused))
    }
}

/// Why no value is read, for the readers below [`value_of_bytes`](crate::value_of_bytes).
#[derive(Debug, Drop)]
pub(crate) enum Unread {
    /// The bytes are not those of one.
    Invalid,
    /// They may be, but reading them was refused.
    Refused(DecodeError),
}

/// A refused allocation, which `?` passes on as `DecodeError::Memory`.
impl From<AllocError> for Unread {
    ghost from_gives = { λ refused error. error ≡ Refused (Memory refused) };

    fn from(refused: AllocError) -> Unread {
        Unread::Refused(DecodeError::from(refused))
    }
}

/// A refused allocation, which `?` passes on as `DecodeError::Memory`.
impl<T: Drop> From<AllocFailed<T>> for Unread {
    ghost from_gives = { λ refused error. error ≡ Refused (Memory alloc_error) };

    fn from(refused: AllocFailed<T>) -> Unread {
        Unread::Refused(DecodeError::from(refused))
    }
}
