//! A manifest from bytes or from a text.

ghost use Rattle.manifest_schema.specs.Prelude.{get_member, view, table_view, raw, tree_of, has_header, old_package, means, means_by, findings_by, manifest_findings};
ghost use Rattle.std.specs.Prelude.{◌≡◌, false, codes, IfOk, IfErr, OnOk, IsUtf8};
ghost use Rattle.manifest_schema.specs.Meaning.{has};
ghost use Rattle.manifest_value.specs.Reading.{Reads, GivesOr};
ghost use Rattle.cargo_manifest.specs.Tables.{package_of, package_form};
ghost use Rattle.cargo_manifest.specs.Whole.{manifest_content, manifest_of, manifest_raw};
ghost use Rattle.cargo_manifest.specs.Answers.{IsDocumentOf, Refuses, RefusesTable, RefusesText, old_package_findings};

use crate::manifest::Manifest;
use crate::package::{Package, package_from};
use manifest_fault::error::refusal;
use manifest_value::form::read_form_into;
use manifest_value::readers::find;
use manifest_value::rows::read_under;
use manifest_value::{Error, Metadata, ParseFault, ReadFault, TableSource};
use std::alloc::Global;
use std::rc::Rc;
use toml::{Table, Value};

/// Whether the table has the key.
fn has_key(table: &Table, key: &str) -> bool
    ensures { result ≡ has key.now (table_view table.now) }
{
    find(table, key).is_some()
}

/// Whether the table has a header: a `package` or a `workspace`.
pub(crate) fn has_package_or_workspace(table: &Table) -> bool
    ensures { result ≡ has_header (table_view table.now) }
{
    has_key(table, "package") | has_key(table, "workspace")
}

/// Reads the package of a table without a header: from `project`, or else from the whole table.
fn read_old_package<P: Metadata>(alloc: Global, table: &Table) -> Result<Package<P>, ReadFault>
    ensures { let ms = table_view table.now in let project = get_member (codes "project") ms in
        GivesOr (Reads (package_form P.kind) (package_of P.kind P.content) (old_package ms project))
        (old_package_findings (tree_of P.kind) ms project) result }
{
    match find(table, "project") {
        Some(value) => read_under(alloc, value, "project"),
        None => package_from(alloc, table),
    }
}

/// Sets `manifest` to what a table without a header means: its package is that of `project`, or else of the whole
/// table; its other fields are read from the table.
#[tactic(auto, using(crate::proofs::FirstFaults::first_of_rows))]
fn read_headless<P: Metadata, W: Metadata>(
    manifest: &mut Manifest<P, W>,
    alloc: Global,
    table: &Table,
) -> Result<(), ReadFault>
    ensures { let m = manifest_of P.kind W.kind P.content W.content manifest.new in
        GivesOr (λ u. means_by (tree_of P.kind) (tree_of W.kind) false (table_view table.now) m)
        (findings_by (tree_of P.kind) (tree_of W.kind) false (table_view table.now)) result }
{
    read_form_into(manifest, alloc, TableSource::Borrowed(table))?;
    match read_old_package(alloc, table) {
        Ok(package) => {
            drop(manifest.package.replace(package));
            Ok(())
        }
        Err(fault) => Err(fault),
    }
}

/// Sets `manifest` to what a table means, with or without a header: nothing stays of what it was. After a refusal it is
/// of no use.
#[tactic(auto, using(manifest_value::proofs::FirstLemmas::first_is_fault))]
fn read_table<P: Metadata, W: Metadata>(
    manifest: &mut Manifest<P, W>,
    alloc: Global,
    table: Table,
) -> Result<(), ReadFault>
    ensures { let m = manifest_of P.kind W.kind P.content W.content manifest.new in
        GivesOr (λ u. means (tree_of P.kind) (tree_of W.kind) (table_view table) m)
        (manifest_findings (tree_of P.kind) (tree_of W.kind) (table_view table)) result }
{
    if has_package_or_workspace(&table) {
        read_form_into(manifest, alloc, TableSource::Owned(table))
    } else {
        read_headless(manifest, alloc, &table)
    }
}

/// Sets `manifest` to what the table of a document means: [`read_table`], with its fault as an [`Error`].
fn read_document<P: Metadata, W: Metadata>(
    manifest: &mut Manifest<P, W>,
    alloc: Global,
    table: Table,
) -> Result<(), Error>
    ensures ok { OnOk result (means (tree_of P.kind) (tree_of W.kind) (table_view table)
        (manifest_of P.kind W.kind P.content W.content manifest.new)) }
    ensures refused { IfErr result
        (RefusesTable (tree_of P.kind) (tree_of W.kind) (table_view table)) }
{
    match read_table(manifest, alloc, table) {
        Ok(()) => Ok(()),
        Err(fault) => Err(refusal(fault)),
    }
}

/// Parses a text as TOML, and sets `manifest` to what its table means, as [`read_document`] does. Refuses text that is
/// no TOML with `Error::Parse(ParseFault::Toml(..))`.
fn read_text<P: Metadata, W: Metadata>(
    manifest: &mut Manifest<P, W>,
    alloc: Global,
    text: &str,
) -> Result<(), Error>
    ensures ok { OnOk result (IsDocumentOf (tree_of P.kind) (tree_of W.kind) text.now
        (manifest_of P.kind W.kind P.content W.content manifest.new)) }
    ensures refused { IfErr result (RefusesText (tree_of P.kind) (tree_of W.kind) text.now) }
{
    let table = match toml::table_from_str(alloc, text) {
        Ok(table) => table,
        Err(fault) => {
            let shared = Rc::new(alloc, fault)?;
            return Err(Error::Parse(ParseFault::Toml(shared)));
        }
    };
    match read_document(manifest, alloc, table) {
        Ok(()) => Ok(()),
        Err(refused) => Err(refused),
    }
}

/// Sets `manifest` to what bytes mean, as [`read_text`] does. Refuses bytes that are not UTF-8 with `Error::Utf8`.
fn read_bytes<P: Metadata, W: Metadata>(
    manifest: &mut Manifest<P, W>,
    alloc: Global,
    bytes: &[u8],
) -> Result<(), Error>
    ensures ok { OnOk result
        (IsUtf8 bytes.now × IsDocumentOf (tree_of P.kind) (tree_of W.kind) bytes.now
        (manifest_of P.kind W.kind P.content W.content manifest.new)) }
    ensures refused { IfErr result (Refuses (tree_of P.kind) (tree_of W.kind) bytes.now) }
{
    match std::str::from_utf8(bytes) {
        Ok(text) => read_text(manifest, alloc, text),
        Err(fault) => Err(Error::Utf8(fault)),
    }
}

/// The body of a public call: makes an empty manifest, and reads into it by `$read`. It is a macro, since a manifest
/// takes 5 kB, which every function that returns one would clear once more.
macro_rules! manifest_by {
    ($read:ident, $alloc:ident, $input:ident) => {{
        let mut manifest = Manifest::default($alloc);
        match $read(&mut manifest, $alloc, $input) {
            Ok(()) => Ok(manifest),
            Err(refused) => {
                drop(manifest);
                Err(refused)
            }
        }
    }};
}

impl<P: Metadata, W: Metadata> Manifest<P, W> {
    /// Reads the bytes of a `Cargo.toml`, with the package's metadata as a `P` and the workspace's as a `W`. It refuses
    /// as [`Manifest::from_slice_with_metadata`] does.
    ///
    /// ```ignore
    /// let manifest: Manifest<Unread, Unread> = Manifest::from_slice_with_both_metadata(alloc, bytes)?;
    /// ```
    pub fn from_slice_with_both_metadata(
        alloc: Global,
        bytes: &[u8],
    ) -> Result<Manifest<P, W>, Error>
        ensures ok { IfOk result
            (λ m. IsUtf8 bytes.now × IsDocumentOf (tree_of P.kind) (tree_of W.kind) bytes.now
            (manifest_of P.kind W.kind P.content W.content m)) }
        ensures refused { IfErr result (Refuses (tree_of P.kind) (tree_of W.kind) bytes.now) }
    {
        manifest_by!(read_bytes, alloc, bytes)
    }

    /// Reads the table of a document, as [`Manifest::from_slice_with_both_metadata`] does where it has parsed the
    /// bytes. So a caller can look at the table first, as at its [`depth`](crate::depth).
    ///
    /// Refuses a table that means no manifest with `Error::Parse(ParseFault::Schema(..))` of its first fault, that of
    /// [`faults`](crate::faults), and else only when out of memory.
    ///
    /// ```ignore
    /// let table = toml::table_from_str(alloc, "name = 'a'")?;
    /// let manifest: Manifest = Manifest::from_table_with_both_metadata(alloc, table)?;
    /// ```
    pub fn from_table_with_both_metadata(
        alloc: Global,
        table: Table,
    ) -> Result<Manifest<P, W>, Error>
        ensures ok { IfOk result
            (λ m. means (tree_of P.kind) (tree_of W.kind) (table_view table)
            (manifest_of P.kind W.kind P.content W.content m)) }
        ensures refused { IfErr result
            (RefusesTable (tree_of P.kind) (tree_of W.kind) (table_view table)) }
    {
        manifest_by!(read_document, alloc, table)
    }
}

impl<P: Metadata> Manifest<P, Value> {
    /// Reads the bytes of a `Cargo.toml`, with the package's metadata as a `P`.
    ///
    /// Refuses bytes that are not UTF-8 with [`Error::Utf8`]; then a text that is no TOML with
    /// `Error::Parse(ParseFault::Toml(..))`; then a table that means no manifest with
    /// `Error::Parse(ParseFault::Schema(..))` of its first fault, that of [`faults`](crate::faults). When out of memory it
    /// fails with [`Error::Memory`], or with a memory fault inside `ParseFault::Toml`.
    ///
    /// Nothing is completed from folders.
    ///
    /// ```ignore
    /// let manifest = Manifest::<Score>::from_slice_with_metadata(alloc, bytes)?; // for a type `Score: Metadata`
    /// ```
    pub fn from_slice_with_metadata(
        alloc: Global,
        bytes: &[u8],
    ) -> Result<Manifest<P, Value>, Error>
        ensures ok { IfOk result
            (λ m. IsUtf8 bytes.now × IsDocumentOf (tree_of P.kind) (tree_of raw) bytes.now
            (manifest_raw P.kind P.content m)) }
        ensures refused { IfErr result (Refuses (tree_of P.kind) (tree_of raw) bytes.now) }
    {
        manifest_by!(read_bytes, alloc, bytes)
    }
}

impl Manifest<Value, Value> {
    /// Reads the bytes of a `Cargo.toml`: [`Manifest::from_slice_with_metadata`] with metadata kept as it is.
    ///
    /// ```ignore
    /// let manifest = Manifest::from_slice(alloc, b"[package]\nname = 'a'\nversion = '1.0.0'")?;
    /// let refused = Manifest::from_slice(alloc, b"[package]\nname = 1"); // `wrong kind at package.name`
    /// ```
    pub fn from_slice(alloc: Global, bytes: &[u8]) -> Result<Manifest<Value, Value>, Error>
        ensures ok { IfOk result
            (λ m. IsUtf8 bytes.now
            × IsDocumentOf (tree_of raw) (tree_of raw) bytes.now (manifest_content view view m)) }
        ensures refused { IfErr result (Refuses (tree_of raw) (tree_of raw) bytes.now) }
    {
        manifest_by!(read_bytes, alloc, bytes)
    }

    /// Reads the text of a `Cargo.toml`, as [`Manifest::from_slice`] does its bytes. A text is never refused with
    /// `Utf8`.
    ///
    /// ```ignore
    /// let manifest = Manifest::from_str(alloc, "[workspace]\nmembers = ['a']")?;
    /// ```
    pub fn from_str(alloc: Global, text: &str) -> Result<Manifest<Value, Value>, Error>
        ensures ok { IfOk result
            (λ m. IsDocumentOf (tree_of raw) (tree_of raw) text.now
            (manifest_content view view m)) }
        ensures refused { IfErr result (RefusesText (tree_of raw) (tree_of raw) text.now) }
    {
        manifest_by!(read_text, alloc, text)
    }
}
