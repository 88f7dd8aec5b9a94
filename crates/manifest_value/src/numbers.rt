//! Reading and writing `u16` and `i8`.

ghost use Rattle.std.specs.Prelude.{ℤ, pos, negsuc};
ghost use Rattle.manifest_schema.specs.Kinds.{whole};
ghost use Rattle.manifest_schema.proofs.Values.KindLaws.{whole_sound};

use crate::schema::Schema;
use crate::source::Source;
use manifest_fault::fault::fault_here;
use manifest_fault::{Cause, Findings, Found, ReadFault};
use manifest_written::Written;
use std::alloc::{AllocError, Global};
use toml::Value;

/// Read from an integer from 0 to 65535, and written as one. Another one is refused with `OutOfRange`, any other value
/// with `WrongKind`. Reading is never out of memory (`takes_no_memory`).
impl Schema for u16 {
    ghost Content = { ℤ };

    ghost content = { pos };

    ghost kind = { whole (pos 0) (pos 65535) };

    ghost takes_no_memory = { Unit {0} };

    fn read(alloc: Global, source: Source<'_>) -> Result<u16, ReadFault> {
        match source.value() {
            Value::Integer(n) => {
                let n = *n;
                if 0 <= n && n <= 65535 {
                    Ok(n as u16)
                } else {
                    Err(fault_here(alloc, Cause::OutOfRange))
                }
            }
            _ => Err(fault_here(alloc, Cause::WrongKind)),
        }
    }

    fn findings(alloc: Global, value: &Value) -> Found {
        match value {
            Value::Integer(n) => {
                let n = *n;
                if 0 <= n && n <= 65535 {
                    Ok(Findings::none(alloc))
                } else {
                    Findings::here(alloc, Cause::OutOfRange)
                }
            }
            _ => Findings::here(alloc, Cause::WrongKind),
        }
    }

    fn written(&self, _alloc: Global) -> Result<Written<'_>, AllocError> {
        Ok(Written::Integer(i64::from(*self)))
    }

    fn is_well_formed(&self) -> bool {
        // each number of the type is in the range of its kind: the proof knows it from reading the number
        let _in_range = *self;
        true
    }

    ghost lawful = { whole_sound (pos 0) (pos 65535) };
}

/// Read from an integer from -128 to 127, and written as one. Another one is refused with `OutOfRange`, any other value
/// with `WrongKind`. Reading is never out of memory (`takes_no_memory`).
impl Schema for i8 {
    ghost Content = { ℤ };

    ghost content = { λ n. n };

    ghost kind = { whole (negsuc 127) (pos 127) };

    ghost takes_no_memory = { Unit {0} };

    fn read(alloc: Global, source: Source<'_>) -> Result<i8, ReadFault> {
        match source.value() {
            Value::Integer(n) => {
                let n = *n;
                if -128 <= n && n <= 127 {
                    Ok(n as i8)
                } else {
                    Err(fault_here(alloc, Cause::OutOfRange))
                }
            }
            _ => Err(fault_here(alloc, Cause::WrongKind)),
        }
    }

    fn findings(alloc: Global, value: &Value) -> Found {
        match value {
            Value::Integer(n) => {
                let n = *n;
                if -128 <= n && n <= 127 {
                    Ok(Findings::none(alloc))
                } else {
                    Findings::here(alloc, Cause::OutOfRange)
                }
            }
            _ => Findings::here(alloc, Cause::WrongKind),
        }
    }

    fn written(&self, _alloc: Global) -> Result<Written<'_>, AllocError> {
        Ok(Written::Integer(i64::from(*self)))
    }

    fn is_well_formed(&self) -> bool {
        // each number of the type is in the range of its kind: the proof knows it from reading the number
        let _in_range = *self;
        true
    }

    ghost lawful = { whole_sound (negsuc 127) (pos 127) };
}
