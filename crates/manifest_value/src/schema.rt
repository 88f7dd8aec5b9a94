//! Types that are read from a value and written as one.

ghost use Rattle.manifest_schema.specs.Prelude.{view, Kind, text, flag, list_of, IsSound};
ghost use Rattle.std.specs.Prelude.{◌≡◌, ◌↔◌, ℕ, Bool, List, IsTrue, map, IfOk, IfErr, string_bytes};
ghost use Rattle.manifest_schema.proofs.Values.KindLaws.{text_sound, flag_sound, list_sound};
ghost use Rattle.manifest_fault.specs.Faults.{IsSchema};
ghost use Rattle.manifest_fault.specs.Found.{found};
ghost use Rattle.manifest_value.specs.Reading.{Gives, Answers};
ghost use Rattle.manifest_fault.specs.Refusals.{IsSchemaError};
ghost use Rattle.manifest_value.specs.Sources.{source_view};
ghost use Rattle.manifest_written.specs.Written.{written_view, ascends};

use crate::form_findings::findings_of_items;
use crate::items::{Items, read_items};
use crate::readers::{boolean, text};
use crate::source::Source;
use crate::well_formed::items_are_well_formed;
use crate::writers::list_written;
use manifest_fault::error::refusal;
use manifest_fault::fault::fault_here;
use manifest_fault::{Cause, Error, Findings, Found, ReadFault};
use manifest_written::{Written, value_of};
use std::alloc::{AllocError, Global};
use toml::Value;

/// A type that stands in a field of a manifest.
///
/// It names its content (what it holds, apart from where that lies in memory) and its kind: which values are read as
/// which content, which faults a value has, what is written, and what is well-formed. The methods do what the kind
/// says; an impl has these contracts, and writes none.
pub trait Schema: Sized + Drop {
    /// The type of the contents, of which the definitions speak.
    ghost Content: { Type 0 };

    /// The content of a value.
    ghost content: { Self → Content };

    /// How values are read and written, as a definition: `kind.reads`, `kind.written`, `kind.good` and `kind.findings`;
    /// the faults of a value, `faulty kind`, are those among its findings.
    ghost kind: { Kind Content };

    /// Whether reading never fails as out of memory: true of a type whose reading copies nothing.
    ghost takes_no_memory: { Type 0 } = { ⊥ };

    /// Reads a value: returns the one reading that it has by the kind, or the first of its faults, or `Memory`. What an
    /// owned value holds is moved where the type can do so, and else copied.
    fn read(alloc: Global, source: Source<'_>) -> Result<Self, ReadFault>
        ensures gives { Gives kind content (source_view source.entry) result }
        ensures schema { takes_no_memory → IfErr result IsSchema };

    /// Reads a borrowed value: returns the one reading that it has by the kind.
    ///
    /// Refuses with `Error::Parse(ParseFault::Schema(..))` of the first fault that the value has, by its cause and its
    /// key path in the value, and when out of memory with [`Error::Memory`].
    ///
    /// ```ignore
    /// let value = Value::from_str(alloc, "'2021'")?;
    /// let edition = Edition::from_value(alloc, &value)?; // `E2021`
    /// ```
    fn from_value(alloc: Global, value: &Value) -> Result<Self, Error>
        ensures answers { Answers kind content (view value.now) result }
        ensures schema { takes_no_memory → IfErr result IsSchemaError }
    {
        Self::read(alloc, Source::Borrowed(value)).map_err(refusal)
    }

    /// What is found in a value, in order: each fault that it has, what does not fit where that is no fault, and each key
    /// that nothing reads. It fails only when out of memory.
    ///
    /// ```ignore
    /// let found = Edition::findings(alloc, &Value::Boolean(true))?; // one fault, `wrong kind at (top)`
    /// ```
    fn findings(alloc: Global, value: &Value) -> Found
        ensures { IfOk result (λ f. found f ≡ kind.findings (view value.now)) };

    /// What is written of `self`, by the kind: a tree that borrows its texts from `self`, and in which the keys of each
    /// table ascend. It fails only when out of memory.
    ///
    /// ```ignore
    /// Ok(Written::Text(self.as_str()))
    /// ```
    fn written(&self, alloc: Global) -> Result<Written<'_>, AllocError>
        ensures is { IfOk result (λ w. written_view w ≡ kind.written (content self.now)) }
        ensures ascend { IfOk result (λ w. IsTrue (ascends w)) };

    /// The value that is written of `self`, by the kind, with copies of its texts. It fails only when out of memory.
    ///
    /// ```ignore
    /// let value = Edition::E2021.to_value(alloc)?; // `'2021'`
    /// ```
    fn to_value(&self, alloc: Global) -> Result<Value, AllocError>
        ensures { IfOk result (λ v. view v ≡ kind.written (content self.now)) }
    {
        value_of(alloc, &self.written(alloc)?)
    }

    /// Whether the value is well-formed: then what is written of it is read back as the same.
    fn is_well_formed(&self) -> bool
        ensures { IsTrue result ↔ kind.good (content self.now) };

    /// The proof that the kind has the laws of a kind, as that what is written is read back.
    ghost lawful: { IsSound kind };
}

/// Read from a string, and written as one. Any other value is refused with `WrongKind`.
impl Schema for String {
    ghost Content = { List ℕ };

    ghost content = { string_bytes };

    ghost kind = { text };

    #[inline(always)]
    fn read(alloc: Global, source: Source<'_>) -> Result<String, ReadFault> {
        match source {
            Source::Owned(Value::String(s)) => Ok(s),
            other => text(alloc, other.value()),
        }
    }

    fn findings(alloc: Global, value: &Value) -> Found {
        match value {
            Value::String(_) => Ok(Findings::none(alloc)),
            _ => Findings::here(alloc, Cause::WrongKind),
        }
    }

    fn written(&self, _alloc: Global) -> Result<Written<'_>, AllocError> {
        Ok(Written::Text(self.as_str()))
    }

    fn is_well_formed(&self) -> bool {
        true
    }

    ghost lawful = { text_sound };
}

/// Read from a boolean, and written as one. Any other value is refused with `WrongKind`. Reading is never out of memory
/// (`takes_no_memory`).
impl Schema for bool {
    ghost Content = { Bool };

    ghost content = { λ b. b };

    ghost kind = { flag };

    ghost takes_no_memory = { Unit {0} };

    #[inline(always)]
    fn read(alloc: Global, source: Source<'_>) -> Result<bool, ReadFault> {
        boolean(alloc, source.value())
    }

    fn findings(alloc: Global, value: &Value) -> Found {
        match value {
            Value::Boolean(_) => Ok(Findings::none(alloc)),
            _ => Findings::here(alloc, Cause::WrongKind),
        }
    }

    fn written(&self, _alloc: Global) -> Result<Written<'_>, AllocError> {
        Ok(Written::Boolean(*self))
    }

    fn is_well_formed(&self) -> bool {
        true
    }

    ghost lawful = { flag_sound };
}

/// Read from an array, each item as a `T`, and written as one. A value that is no array is refused with `WrongKind`.
impl<T: Schema> Schema for Vec<T> {
    ghost Content = { List T.Content };

    ghost content = { λ v. map T.content v.items };

    ghost kind = { list_of T.kind };

    fn read(alloc: Global, source: Source<'_>) -> Result<Vec<T>, ReadFault> {
        match source {
            Source::Borrowed(Value::Array(items)) => {
                read_items(alloc, items.len(), Items::Borrowed(items.iter()))
            }
            Source::Owned(Value::Array(items)) => {
                read_items(alloc, items.len(), Items::Owned(items.into_iter()))
            }
            _ => Err(fault_here(alloc, Cause::WrongKind)),
        }
    }

    fn findings(alloc: Global, value: &Value) -> Found {
        match value {
            Value::Array(items) => findings_of_items::<T>(alloc, items.as_slice()),
            _ => Findings::here(alloc, Cause::WrongKind),
        }
    }

    #[tactic(auto, using(manifest_written::proofs::WrittenLemmas::written_levels))]
    fn written(&self, alloc: Global) -> Result<Written<'_>, AllocError> {
        Ok(Written::List(list_written(alloc, self.as_slice())?))
    }

    fn is_well_formed(&self) -> bool {
        items_are_well_formed(self.as_slice())
    }

    ghost lawful = { list_sound T.lawful };
}
