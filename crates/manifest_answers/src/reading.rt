//! What the bytes of a call are: a document, or the tagged bytes of a table, that nests no deeper than the limit; and
//! the manifest that it means.

ghost use Rattle.manifest_schema.specs.Prelude.{raw_metadata, means, reads_manifest, view, table_view, tree_of};
ghost use Rattle.std.specs.Prelude.{◌≡◌, Some, false, IfOk, IfErr};
ghost use Rattle.toml.specs.Parse.{parse_document};
ghost use Rattle.cargo_manifest.specs.Whole.{manifest_content, manifest_of};
ghost use Rattle.manifest_answers.specs.declared.reading.Input.TheVariants.{Tagged};
ghost use Rattle.manifest_nesting.specs.Nesting.{nests_too_deep};
ghost use Rattle.manifest_answers.specs.Read.{IsDocument, RefusesToParse, IsNoDocument, IsSourceOf, RefusesMeaning, RefusesSource, RefusesValue, Are, RefusesToRead};

use crate::refusal::InputError;
use cargo_manifest::{Error, Manifest, Metadata, ParseFault, Schema, Value, depth};
use manifest_bytes::{DecodeError, value_of_bytes};
use manifest_fault::error::refusal;
use manifest_nesting::{DEPTH_LIMIT, nests_too_deep};
use manifest_value::Source;
use std::alloc::Global;
use std::rc::Rc;
use toml::Table;

/// What the bytes of a manifest are.
#[derive(Clone, Copy)]
pub enum Input {
    /// The text of a `Cargo.toml`.
    Toml,
    /// The tagged bytes of its table.
    Tagged,
}

/// Parses a text as a document. One whose bytes say that it nests too deep (see `nesting`) is refused before that.
fn parse(alloc: Global, text: &str) -> Result<Table, InputError>
    ensures ok { IfOk result (λ t. (nests_too_deep text.now ≡ false)
        × (parse_document text.now ≡ Some (table_view t))) }
    ensures refused { IfErr result (RefusesToParse text.now) }
{
    if nests_too_deep(text) {
        return Err(InputError::TooDeep);
    }
    match toml::table_from_str(alloc, text) {
        Ok(table) => Ok(table),
        Err(fault) => {
            let shared = Rc::new(alloc, fault)?;
            Err(InputError::Manifest(Error::Parse(ParseFault::Toml(shared))))
        }
    }
}

/// The table of the document that the bytes are, where it nests no deeper than the limit. (`toml` takes most of the stack
/// of a call here, so nothing large stands on it meanwhile.)
#[inline(never)]
pub(crate) fn document(alloc: Global, bytes: &[u8]) -> Result<Table, InputError>
    ensures ok { IfOk result (λ t. IsDocument bytes.now (table_view t)) }
    ensures refused { IfErr result (IsNoDocument bytes.now) }
{
    let text = match std::str::from_utf8(bytes) {
        Ok(text) => text,
        Err(fault) => return Err(InputError::Manifest(Error::Utf8(fault))),
    };
    let table = match parse(alloc, text) {
        Ok(table) => table,
        Err(refused) => return Err(refused),
    };
    if depth(&table, DEPTH_LIMIT + 1) > DEPTH_LIMIT {
        drop(table);
        return Err(InputError::TooDeep);
    }
    Ok(table)
}

/// The manifest that a table means, on the heap.
#[inline(never)]
fn from_table<P: Metadata, W: Metadata>(
    alloc: Global,
    table: Table,
) -> Result<Box<Manifest<P, W>>, InputError>
    ensures ok { IfOk result (λ m. means (tree_of P.kind) (tree_of W.kind) (table_view table)
        (manifest_of P.kind W.kind P.content W.content m.value)) }
    ensures refused { IfErr result
        (RefusesMeaning (tree_of P.kind) (tree_of W.kind) (table_view table)) }
{
    match Manifest::from_table_with_both_metadata(alloc, table) {
        Ok(manifest) => Ok(Box::new(alloc, manifest)?),
        Err(error) => Err(InputError::Manifest(error)),
    }
}

/// The manifest that the bytes of a `Cargo.toml` mean. Refuses bytes that are not UTF-8, text that nests too deep or is
/// no TOML, a table that means no manifest, and when out of memory.
pub(crate) fn from_text<P: Metadata, W: Metadata>(
    alloc: Global,
    bytes: &[u8],
) -> Result<Box<Manifest<P, W>>, InputError>
    ensures ok { IfOk result (λ m. IsSourceOf (tree_of P.kind) (tree_of W.kind) bytes.now
        (manifest_of P.kind W.kind P.content W.content m.value)) }
    ensures refused { IfErr result (RefusesSource (tree_of P.kind) (tree_of W.kind) bytes.now) }
{
    let table = match document(alloc, bytes) {
        Ok(table) => table,
        Err(refused) => return Err(refused),
    };
    match from_table(alloc, table) {
        Ok(manifest) => Ok(manifest),
        Err(refused) => Err(refused),
    }
}

/// Drops a manifest that is on the heap. It is taken out of its box for that, onto the stack of this call alone.
#[inline(never)]
pub(crate) fn release<P: Metadata, W: Metadata>(manifest: Box<Manifest<P, W>>) {
    drop(manifest);
}

/// The manifest that the form of a manifest reads of a value, on the heap. What the value holds is moved into it.
#[inline(never)]
fn from_value(alloc: Global, value: Value) -> Result<Box<Manifest>, InputError>
    ensures ok { IfOk result (λ m. reads_manifest raw_metadata raw_metadata (view value)
        (manifest_content view view m.value)) }
    ensures refused { IfErr result (RefusesValue (view value)) }
{
    match Manifest::read(alloc, Source::Owned(value)) {
        Ok(manifest) => Ok(Box::new(alloc, manifest)?),
        Err(fault) => Err(InputError::Manifest(refusal(fault))),
    }
}

/// The manifest that the form of a manifest reads of a value, of which these are the tagged bytes. Refuses bytes of no
/// value with `Untagged`, and ones that nest too deep with `TooDeep`; else with the refusal of `from_value`, as of a
/// value that is no table.
#[inline(never)]
fn from_tagged(alloc: Global, bytes: &[u8]) -> Result<Box<Manifest>, InputError>
    ensures ok { IfOk result (λ m. Are Tagged bytes.now (manifest_content view view m.value)) }
    ensures refused { IfErr result (RefusesToRead Tagged bytes.now) }
{
    let value = match value_of_bytes(alloc, DEPTH_LIMIT + 1, bytes) {
        Ok(Some(value)) => value,
        Ok(None) => return Err(InputError::Untagged),
        Err(DecodeError::TooDeep) => return Err(InputError::TooDeep),
        Err(DecodeError::Memory(refused)) => {
            return Err(InputError::Manifest(Error::Memory(refused)));
        }
    };
    match from_value(alloc, value) {
        Ok(manifest) => Ok(manifest),
        Err(refused) => Err(refused),
    }
}

/// The manifest that the bytes are: a document, or the tagged bytes of a table, as `input` says.
pub(crate) fn read(alloc: Global, input: Input, bytes: &[u8]) -> Result<Box<Manifest>, InputError>
    ensures ok { IfOk result (λ m. Are input bytes.now (manifest_content view view m.value)) }
    ensures refused { IfErr result (RefusesToRead input bytes.now) }
{
    match input {
        Input::Toml => match from_text(alloc, bytes) {
            Ok(manifest) => Ok(manifest),
            Err(refused) => Err(refused),
        },
        Input::Tagged => match from_tagged(alloc, bytes) {
            Ok(manifest) => Ok(manifest),
            Err(refused) => Err(refused),
        },
    }
}
