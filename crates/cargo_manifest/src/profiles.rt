//! The profiles of a manifest.
#![tactic(auto, unfolding(manifest_schema::specs::PartForms::profiles_rows), using(manifest_value::proofs::FirstLemmas::form_first))]

ghost use Rattle.manifest_schema.specs.Prelude.{no_members, form, profiles_rows};
ghost use Rattle.std.specs.Prelude.{OnOk, OnErr};
ghost use Rattle.manifest_schema.specs.Contents;
ghost use Rattle.manifest_schema.proofs.Forms.PartLaws.{profiles_sound};
ghost use Rattle.manifest_value.specs.Reading.{Gives, IsOfTable};
ghost use Rattle.manifest_value.specs.Sources.{table_source};
ghost use Rattle.cargo_manifest.specs.Tables.{profiles_content};

use manifest_parts::Profile;
use manifest_value::form::{
    RowPut, RowRead, Rowed, Word, put_rows, read_open, rows_are_well_formed,
};
use manifest_value::form_findings::findings_of_open;
use manifest_value::maps::{map_of_entries, map_written};
use manifest_value::row_slots::RowSlot;
use manifest_value::well_formed::{none_is_named, values_are_well_formed};
use manifest_value::{
    Found, ReadFault, Schema, Source, Spellings, TableSource, findings_of_row, good_row_of,
    names_of_rows, put_row_of, read_row_of, table,
};
use manifest_written::{Pairs, Written};
use std::alloc::{AllocError, Global};
use std::collections::BTreeMap;
use std::default::Emptied;
use toml::Value;

/// The profiles of a manifest: the five that Cargo names, and those of all other names. No custom profile may have one
/// of the five names. See the [Cargo reference](https://doc.rust-lang.org/cargo/reference/profiles.html).
///
/// They are well-formed where each is, and no custom one is named `release`, `dev`, `test`, `bench` or `doc`.
#[derive(Debug, PartialEq, Drop)]
pub struct Profiles {
    // (made by scripts/keys --write)
    /// `[profile.release]`, of `--release` and of `cargo install`.
    ///
    /// [Cargo reference](https://doc.rust-lang.org/cargo/reference/profiles.html#release).
    pub release: Option<Profile>,
    /// `[profile.dev]`, which `cargo build` and others take by default.
    ///
    /// [Cargo reference](https://doc.rust-lang.org/cargo/reference/profiles.html#dev).
    pub dev: Option<Profile>,
    /// `[profile.test]`, of `cargo test`; it inherits from `dev`.
    ///
    /// [Cargo reference](https://doc.rust-lang.org/cargo/reference/profiles.html#test).
    pub test: Option<Profile>,
    /// `[profile.bench]`, of `cargo bench`; it inherits from `release`.
    ///
    /// [Cargo reference](https://doc.rust-lang.org/cargo/reference/profiles.html#bench).
    pub bench: Option<Profile>,
    /// `[profile.doc]`, which Cargo no longer uses: it has no effect.
    ///
    /// [Cargo reference](https://doc.rust-lang.org/cargo/reference/profiles.html).
    pub doc: Option<Profile>,
    /// The custom profiles, by name. None can have one of the names above.
    ///
    /// [Cargo reference](https://doc.rust-lang.org/cargo/reference/profiles.html).
    pub custom: BTreeMap<String, Profile>,
}

impl Clone for Profiles {
    // (made by scripts/keys --write)
    ghost is_clone = { λ x y.
        ⟦<Option<Profile> as Clone>⟧.is_clone x.release y.release ×
        ⟦<Option<Profile> as Clone>⟧.is_clone x.dev y.dev ×
        ⟦<Option<Profile> as Clone>⟧.is_clone x.test y.test ×
        ⟦<Option<Profile> as Clone>⟧.is_clone x.bench y.bench ×
        ⟦<Option<Profile> as Clone>⟧.is_clone x.doc y.doc ×
        ⟦<BTreeMap<String, Profile> as Clone>⟧.is_clone x.custom y.custom };

    ghost is_infallible = { λ x.
        ⟦<Option<Profile> as Clone>⟧.is_infallible x.release ×
        ⟦<Option<Profile> as Clone>⟧.is_infallible x.dev ×
        ⟦<Option<Profile> as Clone>⟧.is_infallible x.test ×
        ⟦<Option<Profile> as Clone>⟧.is_infallible x.bench ×
        ⟦<Option<Profile> as Clone>⟧.is_infallible x.doc ×
        ⟦<BTreeMap<String, Profile> as Clone>⟧.is_infallible x.custom };

    fn clone(&self) -> Result<Profiles, AllocError> {
        let mut copy = Profiles {
            release: None,
            dev: None,
            test: None,
            bench: None,
            doc: None,
            custom: BTreeMap::emptied(&self.custom)?,
        };
        match copy_fields(self, &mut copy) {
            Ok(()) => Ok(copy),
            Err(error) => {
                drop(copy);
                Err(error)
            }
        }
    }
}

/// Copies each field into that of another record.
fn copy_fields(from: &Profiles, to: &mut Profiles) -> Result<(), AllocError>
    ensures copied { OnOk result (⟦<Profiles as Clone>⟧.is_clone from.now to.new) }
    ensures refused { OnErr result (¬ (⟦<Profiles as Clone>⟧.is_infallible from.now)) }
{
    // (made by scripts/keys --write)
    to.release.clone_from(&from.release)?;
    to.dev.clone_from(&from.dev)?;
    to.test.clone_from(&from.test)?;
    to.bench.clone_from(&from.bench)?;
    to.doc.clone_from(&from.doc)?;
    to.custom.clone_from(&from.custom)?;
    Ok(())
}

impl Profiles {
    /// An empty set of profiles: none of the five, and no custom one.
    ///
    /// ```ignore
    /// let profiles = Profiles::default(alloc);
    /// ```
    pub fn default(alloc: Global) -> Profiles
        ensures { IsOfTable profiles_rows profiles_content no_members result }
    {
        Profiles {
            release: None,
            dev: None,
            test: None,
            bench: None,
            doc: None,
            custom: BTreeMap::new(alloc),
        }
    }
}

/// The rows of profiles, for the macros of `manifest_value::row_macros`; every other key names a custom profile.
macro_rules! profiles {
    ($make:ident $given:tt) => {
        $make! { $given
            // (made by scripts/keys --write)
            release: optional "release";
            dev: optional "dev";
            test: optional "test";
            bench: optional "bench";
            doc: optional "doc";
        }
    };
}

static PROFILES: &[Spellings] = profiles!(names_of_rows());

/// [`Rowed`] says what each method does. The body `profiles!(read_row_of(..))` is made of the rows of `profiles!`, as a
/// `match` on the row's index `i`, and so are the others (`manifest_value::row_macros`).
impl Rowed for Profiles {
    // (made by scripts/keys --write)
    ghost Content = { Contents.Profiles };

    ghost content = { profiles_content };

    ghost rows = { profiles_rows };

    fn names() -> &'static [Spellings] {
        PROFILES
    }

    fn empty(alloc: Global) -> Profiles {
        Profiles::default(alloc)
    }

    fn read_row(&mut self, alloc: Global, i: usize, key: Word, slot: &mut RowSlot<'_>) -> RowRead {
        profiles!(read_row_of(self, alloc, i, key, slot))
    }

    fn row_findings(&self, alloc: Global, i: usize, key: Word, slot: &RowSlot<'_>) -> Found {
        profiles!(findings_of_row(self, alloc, i, key, slot))
    }

    fn put_row<'a>(&'a self, alloc: Global, i: usize, key: Word, out: &mut Pairs<'a>) -> RowPut {
        profiles!(put_row_of(self, alloc, i, key, out))
    }

    fn row_is_well_formed(&self, i: usize) -> bool {
        profiles!(good_row_of(self, i))
    }
}

/// Reads the profiles of a table: those that Cargo names, and of all other keys the custom ones.
fn profiles_from(alloc: Global, table: TableSource<'_>) -> Result<Profiles, ReadFault>
    ensures { Gives (form profiles_rows) profiles_content (table_source table.entry) result }
{
    let (mut x, rest) = read_open::<Profiles>(alloc, table)?;
    match map_of_entries(alloc, rest) {
        Ok(custom) => {
            x.custom = custom;
            Ok(x)
        }
        Err(fault) => {
            drop(x);
            Err(fault)
        }
    }
}

/// Read from a table: the keys that Cargo names are rows, and every other key is a custom profile. Any other value is
/// refused with `WrongKind`.
impl Schema for Profiles {
    ghost Content = { Contents.Profiles };

    ghost content = { profiles_content };

    ghost kind = { form profiles_rows };

    fn read(alloc: Global, source: Source<'_>) -> Result<Profiles, ReadFault> {
        profiles_from(alloc, source.into_table(alloc)?)
    }

    fn findings(alloc: Global, value: &Value) -> Found {
        findings_of_open::<Profiles, Profile>(alloc, value)
    }

    #[tactic(auto, unfolding(manifest_schema::specs::PartForms::profiles_rows), using(manifest_written::proofs::WrittenLemmas::written_levels))]
    fn written(&self, alloc: Global) -> Result<Written<'_>, AllocError> {
        let mut out = map_written(alloc, &self.custom)?;
        put_rows(self, alloc, &mut out)?;
        Ok(Written::Table(out))
    }

    fn is_well_formed(&self) -> bool {
        rows_are_well_formed(self)
            && none_is_named(&self.custom, PROFILES)
            && values_are_well_formed(&self.custom)
    }

    ghost lawful = { profiles_sound };
}
