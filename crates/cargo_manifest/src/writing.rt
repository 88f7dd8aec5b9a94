//! The text of a manifest.

ghost use Rattle.manifest_schema.specs.Prelude.{members_depth, members_have_valid_dates, IsDocumentText, table_view, tree_of};
ghost use Rattle.std.specs.Prelude.{◌≡◌, ◌≤◌, true, false, Some, IfOk, IfErr, IfSome, IfNone, string_bytes};
ghost use Rattle.toml.specs.Parse.{parse_document};
ghost use Rattle.cargo_manifest.specs.Answers.{IsOver, IsTextWithin, ReadsAs, RefusesToPrint, written_of};
ghost use Rattle.cargo_manifest.specs.Whole.{manifest_of};

use crate::manifest::{Manifest, manifest_table};
use crate::printed::printed_bound;
use manifest_value::{Error, Metadata};
use std::alloc::{AllocError, Global};
use toml::Table;

/// The error's text for a table with a date-time that TOML cannot write.
pub const INVALID_DATE: &str = "a date-time of a kept value is not a valid date";

/// The document that `toml` writes of a table. Refuses a date-time that `toml` counts as invalid with [`Error::Other`]
/// of [`INVALID_DATE`].
fn table_text(alloc: Global, table: &Table) -> Result<String, Error>
    ensures text { let ms = table_view table.now in
        IfOk result (λ s. IsDocumentText false ms (string_bytes s)) }
    ensures reads_back { let ms = table_view table.now in
        IfOk result (λ s. members_depth ms ≤ 80 → parse_document (string_bytes s) ≡ Some ms) }
    ensures dates { IfOk result (λ _. members_have_valid_dates (table_view table.now) ≡ true) }
    ensures refused { IfErr result (RefusesToPrint (table_view table.now)) }
{
    match toml::table_to_string(alloc, table) {
        Ok(text) => Ok(text),
        Err(toml::ser::Error::DateInvalid) => {
            let text = String::from_str(alloc, INVALID_DATE)?;
            Err(Error::Other(text))
        }
        Err(toml::ser::Error::OutOfMemory) => Err(Error::Memory(AllocError)),
    }
}

impl<P: Metadata, W: Metadata> Manifest<P, W> {
    /// The text of the canonical table: the document that `toml` writes of it, at any depth.
    ///
    /// A table that is at most 80 deep, as `toml` counts, is read back from it: so of a well-formed manifest with a
    /// package or a workspace, also one that was completed or resolved or is made by hand, [`Manifest::from_slice`] of
    /// the text gives that manifest. Refuses a table with a date-time that `toml` counts as invalid with
    /// [`Error::Other`] of [`INVALID_DATE`], and else only when out of memory.
    ///
    /// ```ignore
    /// let manifest = Manifest::from_str(alloc, "name = 'a'")?; // an old header
    /// let text = manifest.to_toml_string(alloc)?; // "[package]\nname = \"a\"\n"
    /// ```
    pub fn to_toml_string(&self, alloc: Global) -> Result<String, Error>
        ensures text { let ms = written_of P.kind W.kind P.content W.content self.now in
            IfOk result (λ s. IsDocumentText false ms (string_bytes s)) }
        ensures reads_back { let ms = written_of P.kind W.kind P.content W.content self.now in
            IfOk result (λ s. members_depth ms ≤ 80 → parse_document (string_bytes s) ≡ Some ms) }
        ensures reads_as_it { let K = tree_of P.kind in let L = tree_of W.kind in
            let m = manifest_of P.kind W.kind P.content W.content self.now in
            IfOk result (λ s. ReadsAs K L m (string_bytes s)) }
        ensures dates { let ms = written_of P.kind W.kind P.content W.content self.now in
            IfOk result (λ _. members_have_valid_dates ms ≡ true) }
        ensures refused { let ms = written_of P.kind W.kind P.content W.content self.now in
            IfErr result (RefusesToPrint ms) }
    {
        let table = manifest_table(alloc, self)?;
        match table_text(alloc, &table) {
            Ok(text) => Ok(text),
            Err(refused) => Err(refused),
        }
    }

    /// The text of [`Manifest::to_toml_string`], where it takes at most `most` bytes; `None` where it could take more:
    /// where [`printed_bound`](crate::printed_bound) of its table is more than `most`, or the text is longer. The bound
    /// is counted before the text is made (which no contract says), so a small manifest that prints as a large text is
    /// refused without it.
    ///
    /// Refuses as [`Manifest::to_toml_string`] does.
    ///
    /// ```ignore
    /// let manifest = Manifest::from_str(alloc, "name = 'a'")?;
    /// let text = manifest.to_toml_string_within(alloc, 8)?; // `None`
    /// ```
    pub fn to_toml_string_within(&self, alloc: Global, most: usize) -> Result<Option<String>, Error>
        ensures text { let ms = written_of P.kind W.kind P.content W.content self.now in
            IfOk result (λ text. IfSome text (λ s. IsTextWithin most ms (string_bytes s))) }
        ensures over { let ms = written_of P.kind W.kind P.content W.content self.now in
            IfOk result (λ text. IfNone text (IsOver most ms)) }
        ensures refused { let ms = written_of P.kind W.kind P.content W.content self.now in
            IfErr result (RefusesToPrint ms) }
    {
        let table = manifest_table(alloc, self)?;
        if let Some(bound) = printed_bound(&table) {
            if bound > most {
                return Ok(None);
            }
        }
        let text = match table_text(alloc, &table) {
            Ok(text) => text,
            Err(refused) => return Err(refused),
        };
        if text.len() > most {
            return Ok(None);
        }
        Ok(Some(text))
    }
}
