//! What is promised of copies: they hold what they are copied from.
ghost use Rattle.manifest_schema.specs.Prelude.{Data, view, Entries};
ghost use Rattle.std.specs.Prelude.{◌≡◌, ℕ, Bool, List, Option, IfOk, map, option_map, string_bytes, refl};
ghost use Rattle.std.proofs.Common.{rules};
ghost use Rattle.manifest_schema.proofs.Forms.CopyLaws.{items_copied, some_copied, entries_copied};
ghost use Rattle.manifest_value.specs.Entries.{entries_content};

use crate::metadata::Unread;
use std::alloc::AllocError;
use std::collections::BTreeMap;
use toml::Value;

/// A type of which it is proved that a copy by `clone` holds what it is copied from. There is no method to implement:
/// an impl says what a value holds (`held`), and proves it of copies (`copies`).
///
/// A copy fails only when out of memory.
pub trait Copied: Clone {
    /// What a value holds. Of a type with a [`Schema`](crate::Schema) it is the content.
    ghost Held: { Type 0 };

    ghost held: { Self → Held };

    ghost copies: { (x y : Self) → Self.is_clone x y → held y ≡ held x };
}

/// A copy of a value. It fails only when out of memory.
///
/// ```ignore
/// let copy = copy_of(&package)?; // copy == package
/// ```
pub fn copy_of<T: Copied>(x: &T) -> Result<T, AllocError>
    ensures { IfOk result (λ y. T.held y ≡ T.held x.now) }
{
    x.clone()
}

impl Copied for String {
    ghost Held = { List ℕ };

    ghost held = { string_bytes };

    ghost copies = { λ x y c. c };
}

impl Copied for bool {
    ghost Held = { Bool };

    ghost held = { λ x. x };

    ghost copies = { λ x y c. c };
}

impl Copied for Value {
    ghost Held = { Data };

    ghost held = { view };

    ghost copies = { λ x y c. c };
}

impl Copied for () {
    ghost Held = { Unit {0} };

    ghost held = { λ u. tt };

    ghost copies = { λ x y c. refl };
}

impl Copied for Unread {
    ghost Held = { Unit {0} };

    ghost held = { λ u. tt };

    ghost copies = { λ x y c. refl };
}

impl<T: Copied> Copied for Vec<T> {
    ghost Held = { List T.Held };

    ghost held = { λ v. map T.held v.items };

    ghost copies = { λ x y c. items_copied T.held T.copies x.items y.items c.0 };
}

impl<T: Copied> Copied for Option<T> {
    ghost Held = { Option T.Held };

    ghost held = { option_map T.held };

    ghost copies = { Prim.search (rules, some_copied, T.copies) };
}

impl<T: Copied> Copied for BTreeMap<String, T> {
    ghost Held = { Entries T.Held };

    ghost held = { λ m. entries_content T.held m.entries };

    ghost copies = { λ x y c. entries_copied T.held T.copies x.entries y.entries c };
}
