//! A type of metadata: a score.

ghost use Rattle.std.specs.Prelude.{◌≡◌, ℤ, pos};
ghost use Rattle.manifest_schema.specs.Kinds.{whole};
ghost use Rattle.manifest_schema.proofs.Values.KindLaws.{whole_sound};
ghost use Rattle.manifest_calls.specs.Scores.{score_rows, score_sound, score_plain, score_by_tree};

use manifest_fault::fault::fault_here;
use manifest_value::form::{RowPut, RowRead, Rowed, Word};
use manifest_value::row_slots::RowSlot;
use manifest_value::{
    Cause, Findings, Form, Found, Metadata, ReadFault, Schema, Source, Spellings, findings_of_row,
    good_row_of, names_of_rows, put_row_of, read_row_of,
};
use manifest_written::{Pairs, Written};
use std::alloc::{AllocError, Global};
use toml::Value;

/// A whole number from 0 to 9.
#[derive(Clone, Copy, Debug, PartialEq, Eq)]
pub struct Level {
    pub number: u8,
}

impl Schema for Level {
    ghost Content = { ℤ };

    ghost content = { λ l. pos l.number };

    ghost kind = { whole (pos 0) (pos 9) };

    fn read(alloc: Global, source: Source<'_>) -> Result<Level, ReadFault> {
        match source.value() {
            Value::Integer(n) => {
                let n = *n;
                if 0 <= n && n <= 9 {
                    Ok(Level { number: n as u8 })
                } else {
                    Err(fault_here(alloc, Cause::OutOfRange))
                }
            }
            _ => Err(fault_here(alloc, Cause::WrongKind)),
        }
    }

    #[tactic(auto, using(manifest_value::proofs::FoundLemmas::one_fault_read, manifest_value::proofs::FoundLemmas::one_fault_refused, manifest_schema::proofs::Values::OneFaultLaws::whole_one_fault))]
    fn findings(alloc: Global, value: &Value) -> Found {
        match Level::read(alloc, Source::Borrowed(value)) {
            Ok(_) => Ok(Findings::none(alloc)),
            Err(refused) => Findings::of_refusal(alloc, refused, &[]),
        }
    }

    fn written(&self, _alloc: Global) -> Result<Written<'_>, AllocError> {
        Ok(Written::Integer(i64::from(self.number)))
    }

    fn is_well_formed(&self) -> bool {
        self.number <= 9
    }

    ghost lawful = { whole_sound (pos 0) (pos 9) };
}

/// A table with a level. It is well-formed with a level from 0 to 9.
#[derive(Clone, Copy, Debug, PartialEq, Eq)]
pub struct Score {
    pub level: Level,
}

/// The rows of a score.
macro_rules! score {
    ($make:ident $given:tt) => {
        $make! { $given
            level: required "level";
        }
    };
}

static SCORE: &[Spellings] = score!(names_of_rows());

#[tactic(auto, unfolding(crate::specs::Scores::score_rows))]
impl Rowed for Score {
    ghost Content = { ℤ };

    ghost content = { λ x. pos x.level.number };

    ghost rows = { score_rows };

    fn names() -> &'static [Spellings] {
        SCORE
    }

    fn empty(_alloc: Global) -> Score {
        Score {
            level: Level { number: 0 },
        }
    }

    fn read_row(&mut self, alloc: Global, i: usize, key: Word, slot: &mut RowSlot<'_>) -> RowRead {
        score!(read_row_of(self, alloc, i, key, slot))
    }

    fn row_findings(&self, alloc: Global, i: usize, key: Word, slot: &RowSlot<'_>) -> Found {
        score!(findings_of_row(self, alloc, i, key, slot))
    }

    fn put_row<'a>(&'a self, alloc: Global, i: usize, key: Word, out: &mut Pairs<'a>) -> RowPut {
        score!(put_row_of(self, alloc, i, key, out))
    }

    fn row_is_well_formed(&self, i: usize) -> bool {
        score!(good_row_of(self, i))
    }
}

#[tactic(auto, unfolding(crate::specs::Scores::score_rows))]
impl Form for Score {
    fn covers() {}

    ghost lawful = { score_sound };
}

impl Metadata for Score {
    ghost without_floats = { score_plain };

    ghost good_by_tree = { score_by_tree };
}
