//! Where a value does not fit, and why.

ghost use Rattle.std.specs.Prelude.{◌≡◌, IfOk};
ghost use Rattle.manifest_schema.specs.Paths.{no_fault, at_value, key};
ghost use Rattle.manifest_fault.specs.Faults.{FaultIn, IsSchema, IsUnder, step_of, path_of, cause_of};

use std::alloc::{AllocError, AllocFailed, Global};

/// One step from a value to a value inside it: to the entry of a table, or to the item of a list.
#[derive(Debug, PartialEq, Eq, Drop)]
pub enum Step {
    Key(String),
    Index(usize),
}

/// The steps from the value that was passed in.
#[derive(Debug, PartialEq, Eq, Drop)]
pub struct KeyPath {
    pub steps: Vec<Step>,
}

/// Why a value, or its absence, does not fit.
#[derive(Clone, Copy, Debug, PartialEq, Eq)]
pub enum Cause {
    /// The value is of another kind.
    WrongKind,
    /// A required key is absent.
    Missing,
    /// A table has a key by both of its spellings.
    TwoSpellings,
    /// The text is not one of the choice.
    NotAChoice,
    /// The whole number is out of range.
    OutOfRange,
    /// The boolean is not true.
    NotTrue,
    /// A float stands there.
    HoldsFloat,
    /// The metadata type refuses the value.
    Metadata,
}

/// The value at the path, or its absence, has the cause.
#[derive(Debug, PartialEq, Eq, Drop)]
pub struct SchemaFault {
    pub path: KeyPath,
    pub cause: Cause,
}

impl Step {
    /// A copy of the step: of its key a new string.
    pub(crate) fn clone(&self, alloc: Global) -> Result<Step, AllocError>
        ensures { IfOk result (λ s. step_of s ≡ step_of self.now) }
    {
        match self {
            Step::Key(key) => Ok(Step::Key(String::from_str(alloc, key.as_str())?)),
            Step::Index(index) => Ok(Step::Index(*index)),
        }
    }
}

impl KeyPath {
    /// A copy of the path, with a copy of each step.
    pub(crate) fn clone(&self, alloc: Global) -> Result<KeyPath, AllocError>
        ensures { IfOk result (λ p. path_of p ≡ path_of self.now) }
    {
        let mut steps = Vec::new(alloc);
        for step in &self.steps {
            steps.push(step.clone(alloc)?)?;
        }
        Ok(KeyPath { steps })
    }
}

impl SchemaFault {
    /// The same cause at the same path, in memory of its own, or `AllocError` where there is no memory for it.
    ///
    /// ```ignore
    /// let copy = fault.clone(alloc)?; // the same path, the same cause
    /// ```
    pub fn clone(&self, alloc: Global) -> Result<SchemaFault, AllocError>
        ensures path { IfOk result (λ f. path_of f.path ≡ path_of self.now.path) }
        ensures cause { IfOk result (λ f. f.cause ≡ self.now.cause) }
    {
        Ok(SchemaFault {
            path: self.path.clone(alloc)?,
            cause: self.cause,
        })
    }
}

/// What a reader refuses with.
#[derive(Debug, PartialEq, Eq, Drop)]
pub enum ReadFault {
    Schema(SchemaFault),
    Memory(AllocError),
}

/// A refused allocation, which `?` passes on as `ReadFault::Memory`.
impl From<AllocError> for ReadFault {
    ghost from_gives = { λ e f. FaultIn no_fault f };

    fn from(refused: AllocError) -> ReadFault {
        ReadFault::Memory(refused)
    }
}

/// A refused allocation, which `?` passes on as `ReadFault::Memory`.
impl<T: Drop> From<AllocFailed<T>> for ReadFault {
    ghost from_gives = { λ e f. FaultIn no_fault f };

    fn from(refused: AllocFailed<T>) -> ReadFault {
        ReadFault::Memory(AllocError::from(refused))
    }
}

/// The fault of this cause at the value itself, with the empty path. It is never `Memory`.
///
/// ```ignore
/// let fault = fault_here(alloc, Cause::WrongKind); // reported as `wrong kind at (top)`
/// ```
#[cold]
pub fn fault_here(alloc: Global, cause: Cause) -> ReadFault
    ensures fault { FaultIn (at_value (cause_of cause)) result }
    ensures schema { IsSchema result }
{
    ReadFault::Schema(SchemaFault {
        path: KeyPath {
            steps: Vec::new(alloc),
        },
        cause,
    })
}

/// The fault with the step before its path, as it is seen one level further out. Where there is no memory for the step,
/// the fault is `Memory`.
///
/// ```ignore
/// let fault = fault_behind_step(Step::Index(2), fault_here(alloc, Cause::WrongKind)); // reported as `wrong kind at [2]`
/// ```
#[cold]
pub fn fault_under_step(step: Step, fault: ReadFault) -> ReadFault
    ensures { IsUnder (step_of step) fault result }
{
    match fault {
        ReadFault::Memory(refused) => ReadFault::Memory(refused),
        ReadFault::Schema(mut fault) => match fault.path.steps.insert(0, step) {
            Ok(()) => ReadFault::Schema(fault),
            Err(refused) => ReadFault::Memory(AllocError::from(refused)),
        },
    }
}

/// The fault with the key before its path, as it is seen from the table that has the value at the key. Where there is
/// no memory for the step, the fault is `Memory`.
///
/// ```ignore
/// let fault = fault_under_key(alloc, "name", fault_here(alloc, Cause::WrongKind)); // reported as `wrong kind at name`
/// ```
#[cold]
#[tactic(auto, using(crate::proofs::Under::memory_under))]
pub fn fault_under_key(alloc: Global, word: &str, fault: ReadFault) -> ReadFault
    ensures { IsUnder (key word.now) fault result }
{
    match String::from_str(alloc, word) {
        Ok(word) => fault_under_step(Step::Key(word), fault),
        Err(refused) => {
            drop(fault);
            ReadFault::Memory(refused)
        }
    }
}
