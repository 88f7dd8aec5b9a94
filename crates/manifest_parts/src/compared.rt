//! What is promised of comparisons: they look at the content alone, and at all of it.

ghost use Rattle.std.specs.Prelude.{◌≡◌, ◌↔◌, IsTrue, IsOkAnd};
ghost use Rattle.std.proofs.Common.{rules};
ghost use Rattle.manifest_parts.specs.Parts.{strip_content};
ghost use Rattle.manifest_parts.specs.Queries.{strip_cmp};

use crate::badges::Maintenance;
use crate::choices::{Edition, LintLevel, MaintenanceStatus, Resolver};
use crate::inherited::True;
use crate::lints::{Lint, LintConfig};
use crate::strip::StripSetting;
use manifest_value::Copied;
use std::alloc::AllocError;
use std::cmp::Ordering;

/// A type whose values are compared by `==` as what they hold is, and copied without memory.
pub trait Compared: Copied + PartialEq {
    /// Two values are equal exactly where they hold the same.
    ghost compares: { (x y : Self) → IsTrue (Self.eq x y) ↔ (Self.held x ≡ Self.held y) };

    /// A copy is never refused.
    ghost succeeds: { (x : Self) → Self.is_infallible x };
}

/// The law of comparisons: `==` answers that two values are equal if and only if they hold the same.
pub fn equal_exactly_if_same<T: Compared>()
    ensures { (x y : T) → IsTrue (T.eq x y) ↔ (T.held x ≡ T.held y) }
{}

/// A copy of a value whose copies need no memory: it is never an `Err`.
pub fn small_copy<T: Compared>(x: &T) -> Result<T, AllocError>
    ensures { IsOkAnd result (λ y. T.held y ≡ T.held x.now) }
{
    x.clone()
}

/// The order of two strip settings by `cmp`, with a contract that says which it is.
pub fn strip_order(x: &StripSetting, y: &StripSetting) -> Ordering
    ensures { result ≡ strip_cmp (strip_content x.now) (strip_content y.now) }
{
    x.cmp(y)
}

// (made by scripts/keys --write)
impl Compared for Edition {
    ghost compares = { Prim.search rules };

    ghost succeeds = { Prim.search rules };
}

impl Compared for Resolver {
    ghost compares = { Prim.search rules };

    ghost succeeds = { Prim.search rules };
}

impl Compared for LintLevel {
    ghost compares = { Prim.search rules };

    ghost succeeds = { Prim.search rules };
}

impl Compared for MaintenanceStatus {
    ghost compares = { Prim.search rules };

    ghost succeeds = { Prim.search rules };
}

impl Compared for Maintenance {
    ghost compares = { Prim.search rules };

    ghost succeeds = { Prim.search rules };
}

impl Compared for True {
    ghost compares = { Prim.search rules };

    ghost succeeds = { Prim.search rules };
}

impl Compared for StripSetting {
    ghost compares = { Prim.search rules };

    ghost succeeds = { Prim.search rules };
}

impl Compared for LintConfig {
    ghost compares = { Prim.search rules };

    ghost succeeds = { Prim.search rules };
}

impl Compared for Lint {
    ghost compares = { Prim.search rules };

    ghost succeeds = { Prim.search rules };
}
