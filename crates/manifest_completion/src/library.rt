//! The library of a package.

ghost use Rattle.std.specs.Prelude.{◌≡◌, ◌++◌, codes, IfOk, IfErr, MatchResult, string_bytes, option_map, Some};
ghost use Rattle.manifest_parts.specs.Records.{product_content};
ghost use Rattle.manifest_completion.specs.Answered.{answer_of};
ghost use Rattle.manifest_schema.specs.Slots.{underscored};
ghost use Rattle.manifest_completion.specs.Completed.{library, known, declared_library, inferred_library, library_path, library_file, library_type, is_legacy, has_no_file};
ghost use Rattle.manifest_completion.specs.Outcome.{declared_content};
ghost use Rattle.manifest_completion.specs.Steps.{RefusesLibrary};

use crate::ask::join;
use crate::completion::{DeclaredTargets, is_legacy, own_edition};
use crate::copies::one_text;
use crate::discovered::lists;
use crate::targets::crate_type_of;
use manifest_parts::Product;
use manifest_value::Error;
use std::alloc::{AllocError, Global};
use std::collections::BTreeSet;
use std::io;

/// The text of the refusal of a library without a file.
const NO_LIBRARY: &str = "can't find library, rename file to `src/lib.rs` or specify lib.path";

/// The name that a library has by default: the package's `name`, with `_` in place of each `-`.
fn library_name(alloc: Global, name: &str) -> Result<String, AllocError>
    ensures { IfOk result (λ s. string_bytes s ≡ underscored name.now) }
{
    name.replace(alloc, '-', "_")
}

/// The file of a library without a path: `src/lib.rs` where `src` lists it, or in legacy mode `src/{name}.rs`.
fn library_file(
    alloc: Global,
    legacy: bool,
    source: &io::Result<BTreeSet<String>>,
    name: &str,
) -> Result<Option<String>, AllocError>
    ensures { IfOk result
        (λ o. option_map string_bytes o
        ≡ library_file legacy (answer_of source.now) (name.now ++ codes ".rs")) }
{
    if lists(source, "lib.rs") {
        return Ok(Some(String::from_str(alloc, "src/lib.rs")?));
    }
    let mut file = String::from_str(alloc, name)?;
    file.push_str(".rs")?;
    if legacy & lists(source, file.as_str()) {
        return Ok(Some(join(alloc, "src", file.as_str())?));
    }
    Ok(None)
}

/// The path of a declared library: its own, or else the file that is found for it (see [`library_file`]).
fn library_path(
    alloc: Global,
    declared: &DeclaredTargets<'_>,
    source: &io::Result<BTreeSet<String>>,
    lib: &Product,
) -> Result<Option<String>, AllocError>
    ensures { IfOk result
        (λ o. option_map string_bytes o
        ≡ library_path (declared_content declared.now) (answer_of source.now)
        (product_content lib.now)) }
{
    if let Some(path) = &lib.path {
        return Ok(Some(String::from_str(alloc, path.as_str())?));
    }
    let name = match &lib.name {
        Some(name) => name.as_str(),
        None => declared.name,
    };
    library_file(alloc, is_legacy(declared.edition), source, name)
}

/// The declared library `lib` with this path; where it has no name, edition or crate type, it gets that of the package,
/// or the type `lib`. It has no required features.
fn declared_library(
    alloc: Global,
    declared: &DeclaredTargets<'_>,
    lib: &Product,
    path: String,
) -> Result<Product, AllocError>
    ensures { IfOk result
        (λ p. known (Some (product_content p))
        ≡ declared_library (declared_content declared.now) (product_content lib.now)
        (Some (string_bytes path))) }
{
    let name = match &lib.name {
        Some(name) => String::from_str(alloc, name.as_str())?,
        None => library_name(alloc, declared.name)?,
    };
    let crate_type = crate_type_of(alloc, &lib.crate_type, Some("lib"))?;
    Ok(Product {
        path: Some(path),
        name: Some(name),
        test: lib.test,
        doctest: lib.doctest,
        bench: lib.bench,
        doc: lib.doc,
        plugin: lib.plugin,
        proc_macro: lib.proc_macro,
        harness: lib.harness,
        edition: lib.edition.or(own_edition(declared.edition)),
        required_features: Vec::new(alloc),
        crate_type,
    })
}

/// The library of `src/lib.rs`, where none is declared and `src` lists it, unless the package says otherwise.
#[tactic(auto, unfolding(manifest_schema::specs::PartForms::product_rows))]
fn inferred_library(
    alloc: Global,
    declared: &DeclaredTargets<'_>,
    source: &io::Result<BTreeSet<String>>,
) -> Result<Option<Product>, AllocError>
    ensures { IfOk result
        (λ o. option_map product_content o
        ≡ inferred_library (declared_content declared.now) (answer_of source.now)) }
{
    if !(declared.autolib.unwrap_or(true) & lists(source, "lib.rs")) {
        return Ok(None);
    }
    let path = String::from_str(alloc, "src/lib.rs")?;
    let name = library_name(alloc, declared.name)?;
    let crate_type = one_text(alloc, "lib")?;
    Ok(Some(Product {
        path: Some(path),
        name: Some(name),
        edition: own_edition(declared.edition),
        crate_type: Some(crate_type),
        ..Product::default(alloc)
    }))
}

/// The library that the completed package has, as a new value: the declared one, filled in; or that of `src/lib.rs`, by
/// [`inferred_library`]; or none. Refuses a declared one that has no file with `Other` of `NO_LIBRARY`.
pub fn completed_library(
    alloc: Global,
    declared: &DeclaredTargets<'_>,
    source: &io::Result<BTreeSet<String>>,
) -> Result<Option<Product>, Error>
    ensures { MatchResult result
        (λ o. library (declared_content declared.now) (answer_of source.now)
        ≡ known (option_map product_content o))
        (RefusesLibrary (library (declared_content declared.now) (answer_of source.now))) }
{
    let Some(lib) = declared.lib else {
        return Ok(inferred_library(alloc, declared, source)?);
    };
    match library_path(alloc, declared, source, lib)? {
        Some(path) => {
            let product = declared_library(alloc, declared, lib, path)?;
            Ok(Some(product))
        }
        None => {
            let text = String::from_str(alloc, NO_LIBRARY)?;
            Err(Error::Other(text))
        }
    }
}

/// Whether a library is declared that has no file, so that [`completed_library`] refuses it.
pub fn has_no_file(
    alloc: Global,
    declared: &DeclaredTargets<'_>,
    source: &io::Result<BTreeSet<String>>,
) -> Result<bool, AllocError>
    ensures { IfOk result
        (λ b. b ≡ has_no_file (library (declared_content declared.now) (answer_of source.now))) }
{
    match declared.lib {
        Some(lib) => Ok(library_path(alloc, declared, source, lib)?.is_none()),
        None => Ok(false),
    }
}
