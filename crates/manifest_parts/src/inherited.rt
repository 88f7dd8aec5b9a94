//! What may be inherited from the workspace.

ghost use Rattle.manifest_schema.specs.Prelude.{view, Data, Path, Cause as FaultCause, Inheritable, inh, inherits, truth, faulty};
ghost use Rattle.std.specs.Prelude.{◌≡◌, true, IfOk};
ghost use Rattle.manifest_schema.proofs.Values.KindLaws.{inh_sound, truth_sound};
ghost use Rattle.manifest_parts.specs.Parts.{inh_content};
ghost use Rattle.manifest_fault.specs.Found.{found};
ghost use Rattle.manifest_value.specs.Reading.{data_of};

use manifest_fault::fault::fault_here;
use manifest_value::form_findings::and_unused;
use manifest_value::readers::find;
use manifest_value::rows::put_row;
use manifest_value::{
    Cause, Findings, Found, Plain, ReadFault, Schema, Source, TableSource, spelled, walk,
};
use manifest_written::Written;
use std::alloc::{AllocError, Global};
use toml::{Table, Value};

/// The one value that stands for the boolean true, as in `workspace = true`.
#[derive(Clone, Debug, PartialEq, Eq, Drop)]
pub struct True;

/// Read from the boolean true, and written as it. False is refused with `NotTrue`, another value with `WrongKind`.
/// Reading is never out of memory (`takes_no_memory`).
impl Schema for True {
    ghost Content = { Unit {0} };

    ghost content = { λ t. tt };

    ghost kind = { truth };

    ghost takes_no_memory = { Unit {0} };

    fn read(alloc: Global, source: Source<'_>) -> Result<True, ReadFault> {
        match source.value() {
            Value::Boolean(true) => Ok(True),
            Value::Boolean(false) => Err(fault_here(alloc, Cause::NotTrue)),
            _ => Err(fault_here(alloc, Cause::WrongKind)),
        }
    }

    fn findings(alloc: Global, value: &Value) -> Found {
        match value {
            Value::Boolean(true) => Ok(Findings::none(alloc)),
            Value::Boolean(false) => Findings::here(alloc, Cause::NotTrue),
            _ => Findings::here(alloc, Cause::WrongKind),
        }
    }

    fn written(&self, _alloc: Global) -> Result<Written<'_>, AllocError> {
        Ok(Written::Boolean(true))
    }

    fn is_well_formed(&self) -> bool {
        true
    }

    ghost lawful = { truth_sound };
}

/// The only value.
impl Default for True {
    fn default() -> True {
        True
    }
}

/// A value of the package's own, or the mark that it is inherited: the workspace's manifest then has it. See the
/// [Cargo reference](https://doc.rust-lang.org/cargo/reference/workspaces.html#the-package-table).
#[derive(Clone, Debug, PartialEq, Eq, Drop)]
pub enum MaybeInherited<T> {
    /// Inherited from the workspace: `{ workspace = true }`, as in `version.workspace = true`.
    Inherited { workspace: True },
    /// The package's own value.
    Local(T),
}

/// Whether the value is a table whose `workspace` is the boolean true.
///
/// ```ignore
/// let value = Value::from_str(alloc, "{ workspace = true, version = '1' }")?;
/// let is_inherited = says_workspace(&value); // true
/// ```
pub fn says_workspace(value: &Value) -> bool
    ensures { result ≡ inherits (view value.now) }
{
    match value {
        Value::Table(table) => has_workspace(table),
        _ => false,
    }
}

/// Whether the `workspace` of the table is the boolean true.
///
/// ```ignore
/// let is_inherited = has_workspace(table); // of `workspace = false` false, as without the key
/// ```
pub fn has_workspace(table: &Table) -> bool
    ensures { result ≡ inherits (data_of table.now) }
{
    match find(table, "workspace") {
        Some(Value::Boolean(b)) => *b,
        _ => false,
    }
}

/// What is found in a table in place of a value that may be inherited: each key but `workspace` is unused where that
/// says that the value is inherited, and else the table is of the wrong kind.
fn findings_beside_workspace<T: Plain>(alloc: Global, table: &Table) -> Found
    ensures { IfOk result (λ f. found f ≡ (inh T.kind).findings (data_of table.now)) }
{
    if has_workspace(table) {
        let walk = walk(alloc, TableSource::Borrowed(table), &spelled!["workspace"])?;
        and_unused(alloc, Findings::none(alloc), walk.rest)
    } else {
        Findings::here(alloc, Cause::WrongKind)
    }
}

/// A table whose `workspace` is the boolean true is read as `Inherited`, whatever else it has; another table is refused
/// with `WrongKind`, and any other value is read by the type itself. Written as `{ workspace = true }`, or as the type
/// writes its value.
impl<T: Plain> Schema for MaybeInherited<T> {
    ghost Content = { Inheritable T.Content };

    ghost content = { inh_content T.content };

    ghost kind = { inh T.kind };

    fn read(alloc: Global, source: Source<'_>) -> Result<MaybeInherited<T>, ReadFault> {
        if says_workspace(source.value()) {
            return Ok(MaybeInherited::Inherited { workspace: True });
        }
        match source.value() {
            Value::Table(_) => Err(fault_here(alloc, Cause::WrongKind)),
            _ => Ok(MaybeInherited::Local(T::read(alloc, source)?)),
        }
    }

    fn findings(alloc: Global, value: &Value) -> Found {
        match value {
            Value::Table(table) => findings_beside_workspace::<T>(alloc, table),
            _ => T::findings(alloc, value),
        }
    }

    #[tactic(auto, unfolding(manifest_schema::specs::Slots::put_some), using(manifest_written::proofs::WrittenLemmas::written_levels))]
    fn written(&self, alloc: Global) -> Result<Written<'_>, AllocError> {
        match self {
            MaybeInherited::Inherited { workspace } => {
                let mut out = Vec::new(alloc);
                put_row(alloc, &mut out, "workspace", workspace)?;
                Ok(Written::Table(out))
            }
            MaybeInherited::Local(x) => x.written(alloc),
        }
    }

    /// Every value of a plain type is well-formed.
    fn is_well_formed(&self) -> bool {
        true
    }

    ghost lawful = { inh_sound T.lawful T.plain };
}

/// The laws of what may be inherited, for every plain type: a value has at most one reading, and none where it has a
/// fault; what is written is read back; and no value is both a table that inherits and a value of the type's own.
pub fn inherited_is_lawful<T: Plain>()
    ensures one_reading { (d : Data) (x y : Inheritable T.Content) → (inh T.kind).reads d x
        → (inh T.kind).reads d y → x ≡ y }
    ensures no_reading_with_a_fault { (d : Data) (p : Path) (c : FaultCause)
        (x : Inheritable T.Content) → faulty (inh T.kind) d p c → (inh T.kind).reads d x → ⊥ }
    ensures read_back { (x : Inheritable T.Content)
        → (inh T.kind).reads ((inh T.kind).written x) x }
    ensures inherited_or_local { (d : Data) (x : T.Content) → inherits d ≡ true → T.kind.reads d x
        → ⊥ }
{}
