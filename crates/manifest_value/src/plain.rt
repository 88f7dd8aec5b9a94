//! Types that are never read from a table, nor written as one.

ghost use Rattle.manifest_schema.specs.Prelude.{Data, Members, table, Path, Cause, IsPlain, faulty};
ghost use Rattle.std.specs.Prelude.{◌≡◌};
ghost use Rattle.manifest_schema.proofs.Forms.RowLaws.{text_plain, texts_plain};

use crate::schema::Schema;

/// A type that may stand in a field that may be inherited from the workspace.
///
/// Its calls are those of [`Schema`]: `from_value` and `to_value`. Its laws are those of its kind: a value with a
/// fault has no reading, it has at most one reading, and what is written is read back. The law here adds that it
/// refuses every table, never writes one, and can write each of its values.
pub trait Plain: Schema {
    ghost plain: { IsPlain Self.kind };
}

impl Plain for String {
    ghost plain = { text_plain };
}

impl Plain for Vec<String> {
    ghost plain = { texts_plain };
}

/// The five laws of a plain type: a value has at most one reading, and none where it has a fault; what is written of a
/// value of the type is read back as it; and a table is neither read nor written.
pub fn plain_is_lawful<T: Plain>()
    ensures one_reading { (d : Data) (x y : T.Content) → T.kind.reads d x → T.kind.reads d y
        → x ≡ y }
    ensures no_reading_with_a_fault { (d : Data) (p : Path) (c : Cause) (x : T.Content)
        → faulty T.kind d p c → T.kind.reads d x → ⊥ }
    ensures read_back { (x : T.Content) → T.kind.reads (T.kind.written x) x }
    ensures reads_no_table { (ms : Members) (x : T.Content) → T.kind.reads (table ms) x → ⊥ }
    ensures writes_no_table { (ms : Members) (x : T.Content) → T.kind.written x ≡ table ms → ⊥ }
{}
