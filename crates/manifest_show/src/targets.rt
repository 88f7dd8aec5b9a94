//! The targets of a package, and where each comes from.

use crate::canonical_text::{Refused, refusal_of};
use crate::lines::{Lines, path_of};
use cargo_manifest::{Filesystem, Manifest, Product, StringOrBool};
use manifest_places::Step;
use std::alloc::{AllocError, Global};
use std::collections::BTreeMap;
use std::path::Path;
use std::rt::Files;
use toml::{Table, Value};

/// A target.
#[derive(Drop)]
pub(crate) struct Target {
    pub(crate) kind: &'static str,
    pub(crate) name: String,
    pub(crate) path: Option<String>,
    /// The line at which it is declared; `None` where it is found.
    pub(crate) line: Option<usize>,
}

fn copied(alloc: Global, text: Option<&str>) -> Result<Option<String>, AllocError> {
    match text {
        Some(text) => Ok(Some(String::from_str(alloc, text)?)),
        None => Ok(None),
    }
}

fn text_of(text: &Option<String>) -> Option<&str> {
    text.as_ref().map(|text| text.as_str())
}

fn target_of(
    alloc: Global,
    kind: &'static str,
    product: &Product,
    line: Option<usize>,
) -> Result<Target, AllocError> {
    let name = text_of(&product.name).unwrap_or("");
    Ok(Target {
        kind,
        name: String::from_str(alloc, name)?,
        path: copied(alloc, text_of(&product.path))?,
        line,
    })
}

/// The lines at which the targets of a kind are declared, by their names.
fn declared(
    alloc: Global,
    document: &Table,
    lines: &Lines<'_>,
    kind: &str,
) -> Result<BTreeMap<String, Option<usize>>, AllocError> {
    let mut all = BTreeMap::new(alloc);
    let Some(Value::Array(items)) = document.get(kind) else {
        return Ok(all);
    };
    for (index, item) in items.iter().enumerate() {
        if let Some(Value::String(name)) = item.get("name") {
            let mut path = path_of(alloc, &[kind])?;
            path.push(Step::Index(index))?;
            all.insert(name.clone()?, lines.line(path.as_slice()))?;
        }
    }
    Ok(all)
}

/// Notes the targets of a kind.
fn push_kind(
    alloc: Global,
    document: &Table,
    lines: &Lines<'_>,
    kind: &'static str,
    products: &[Product],
    targets: &mut Vec<Target>,
) -> Result<(), AllocError> {
    let declared = declared(alloc, document, lines, kind)?;
    for product in products {
        let name = text_of(&product.name).unwrap_or("");
        let line = match declared.get(name) {
            Some(line) => *line,
            None => None,
        };
        targets.push(target_of(alloc, kind, product, line)?)?;
    }
    Ok(())
}

/// Notes the build script, where there is one.
fn push_build(
    alloc: Global,
    manifest: &Manifest,
    lines: &Lines<'_>,
    targets: &mut Vec<Target>,
) -> Result<(), AllocError> {
    let Some(package) = &manifest.package else {
        return Ok(());
    };
    if let Some(StringOrBool::String(path)) = &package.build {
        let declared = path_of(alloc, &["package", "build"])?;
        targets.push(Target {
            kind: "build",
            name: String::from_str(alloc, "build-script-build")?,
            path: Some(path.clone()?),
            line: lines.line(declared.as_slice()),
        })?;
    }
    Ok(())
}

/// The manifest that the text means, completed over a folder.
fn completed<H: Files + AllocGlobal + Clone + Drop>(
    rt: &H,
    folder: &str,
    text: &str,
) -> Result<Manifest, Refused> {
    let alloc = rt.alloc();
    let mut manifest = match Manifest::from_str(alloc, text) {
        Ok(manifest) => manifest,
        Err(error) => return Err(refusal_of(alloc, error)),
    };
    let folders = Filesystem::new(rt, Path::new(folder));
    match manifest.complete_from_abstract_filesystem(alloc, &folders) {
        Ok(()) => Ok(manifest),
        Err(error) => {
            drop(manifest);
            Err(refusal_of(alloc, error))
        }
    }
}

/// The targets of the package in a folder: the library, the binaries, examples, tests and benches, and the build script.
pub(crate) fn targets_of<H: Files + AllocGlobal + Clone + Drop>(
    rt: &H,
    folder: &str,
    document: &Table,
    lines: &Lines<'_>,
    text: &str,
) -> Result<Vec<Target>, Refused> {
    let alloc = rt.alloc();
    let manifest = match completed(rt, folder, text) {
        Ok(manifest) => manifest,
        Err(refused) => return Err(refused),
    };
    let mut targets = Vec::new(alloc);
    push_targets(alloc, &manifest, document, lines, &mut targets)?;
    Ok(targets)
}

/// Notes the library, where there is one.
fn push_library(
    alloc: Global,
    manifest: &Manifest,
    lines: &Lines<'_>,
    targets: &mut Vec<Target>,
) -> Result<(), AllocError> {
    let Some(product) = &manifest.lib else {
        return Ok(());
    };
    let path = path_of(alloc, &["lib"])?;
    let target = target_of(alloc, "lib", product, lines.line(path.as_slice()))?;
    targets.push(target)?;
    Ok(())
}

/// Notes all targets of a manifest.
fn push_targets(
    alloc: Global,
    manifest: &Manifest,
    document: &Table,
    lines: &Lines<'_>,
    targets: &mut Vec<Target>,
) -> Result<(), AllocError> {
    push_library(alloc, manifest, lines, targets)?;
    let kinds = [
        ("bin", manifest.bin.as_slice()),
        ("example", manifest.example.as_slice()),
        ("test", manifest.test.as_slice()),
        ("bench", manifest.bench.as_slice()),
    ];
    for (kind, products) in &kinds {
        push_kind(alloc, document, lines, *kind, *products, targets)?;
    }
    push_build(alloc, manifest, lines, targets)
}
