//! Why a call has no text.

use cargo_manifest::Error;
use manifest_inherit::FinishError;
use manifest_places::EditError;
use std::alloc::{AllocError, AllocFailed};

/// Why bytes are no manifest.
#[derive(Drop)]
pub enum InputError {
    /// They are no document, or it means no manifest.
    Manifest(Error),
    /// They are no tagged table.
    Untagged,
    /// They nest too deep.
    TooDeep,
}

/// A refused allocation, which `?` passes on as `InputError::Manifest` of `Error::Memory`.
impl From<AllocError> for InputError {
    ghost use Rattle.manifest_answers.specs.Read.{ReadingRanOut};

    ghost from_gives = { λ _ error. ReadingRanOut error };

    fn from(refused: AllocError) -> InputError {
        InputError::Manifest(Error::Memory(refused))
    }
}

/// A refused allocation, which `?` passes on as `InputError::Manifest` of `Error::Memory`.
impl<T: Drop> From<AllocFailed<T>> for InputError {
    ghost use Rattle.manifest_answers.specs.Read.{ReadingRanOut};

    ghost from_gives = { λ _ error. ReadingRanOut error };

    fn from(refused: AllocFailed<T>) -> InputError {
        InputError::Manifest(Error::Memory(AllocError::from(refused)))
    }
}

/// Why a call has no text, by the step that refused.
#[derive(Drop)]
pub enum Refusal {
    /// The bytes are no manifest.
    Bytes(InputError),
    /// The bytes of the workspace's root are no manifest.
    Root(InputError),
    /// The folders are no listings.
    Listings,
    /// What the manifest inherits is refused, or its completion.
    Finishing(FinishError),
    /// The manifest's table cannot be printed.
    Printing(Error),
    /// What is asked for takes more bytes than the caller allows.
    TooLong,
    /// The edits of the text are not made.
    Edits(EditError),
    /// A key or a text of an edit is not UTF-8, or a path or a name of what is around a manifest.
    NotText,
    /// The offsets do not ascend in the text.
    Offsets,
    /// The configuration of Cargo is no document.
    Configuration,
    /// No memory was left.
    Memory(AllocError),
}

/// A refused allocation, which `?` passes on as `Refusal::Memory`.
impl From<AllocError> for Refusal {
    ghost use Rattle.manifest_answers.specs.Made.{IsOutOfMemory};

    ghost from_gives = { λ _ refusal. IsOutOfMemory refusal };

    fn from(refused: AllocError) -> Refusal {
        Refusal::Memory(refused)
    }
}

/// A refused allocation, which `?` passes on as `Refusal::Memory`.
impl<T: Drop> From<AllocFailed<T>> for Refusal {
    ghost use Rattle.manifest_answers.specs.Made.{IsOutOfMemory};

    ghost from_gives = { λ _ refusal. IsOutOfMemory refusal };

    fn from(refused: AllocFailed<T>) -> Refusal {
        Refusal::Memory(AllocError::from(refused))
    }
}
