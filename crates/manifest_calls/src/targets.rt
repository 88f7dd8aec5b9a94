//! The flags of a manifest while it is changed, legacy mode, the targets of a package that no manifest has, and dates that
//! cannot be written.

use crate::completion::lines_of_paths;
use crate::examples_of_manifests::push_flags;
use crate::folders::listings;
use crate::lines::{push_flag, push_line, push_made, push_refused, push_value};
use cargo_manifest::{
    Edition, Listings, Manifest, MaybeInherited, Package, Product, Schema, StringOrBool, True,
    Value,
};
use manifest_completion::{
    CompletedTargets, DeclaredTargets, complete, is_legacy, unfound_targets,
};
use manifest_json::Text;
use std::alloc::{AllocError, Global};
use toml::value::{Date, Datetime};

/// A new package.
fn new_package(alloc: Global) -> Result<Package<()>, AllocError> {
    let name = String::from_str(alloc, "foo")?;
    Ok(Package::new(name, String::from_str(alloc, "1.0.0")?))
}

/// Writes the flags of a manifest while its package is changed: as it is, without tests, with binaries, and with the
/// edition 2018.
fn push_flags_of_package(manifest: &mut Manifest<(), Value>, out: &mut Text) {
    push_flags(manifest, out);
    if let Some(package) = &mut manifest.package {
        package.autotests = Some(false);
    }
    push_flags(manifest, out);
    if let Some(package) = &mut manifest.package {
        package.autobins = Some(true);
    }
    push_flags(manifest, out);
    if let Some(package) = &mut manifest.package {
        package.autobins = None;
        package.edition = Some(MaybeInherited::Local(Edition::E2018));
    }
    push_flags(manifest, out);
}

/// The same for a manifest without a package, with one, and then with a binary.
fn push_flags_of(
    alloc: Global,
    manifest: &mut Manifest<(), Value>,
    out: &mut Text,
) -> Result<(), AllocError> {
    push_flags(manifest, out);
    drop(manifest.package.replace(new_package(alloc)?));
    push_flags(manifest, out);
    manifest.bin.push(Product::default(alloc))?;
    push_flags_of_package(manifest, out);
    Ok(())
}

/// Writes the flags of a manifest while it is changed, a line each.
pub fn push_changed_flags(alloc: Global, out: &mut Text) -> Result<(), AllocError> {
    let mut manifest: Manifest<(), Value> = Manifest::default(alloc);
    let made = push_flags_of(alloc, &mut manifest, out);
    drop(manifest);
    made
}

/// An edition that is not inherited.
fn local(edition: Edition) -> Option<MaybeInherited<Edition>> {
    Some(MaybeInherited::Local(edition))
}

/// Writes of which editions a manifest is in legacy mode.
pub fn push_legacy(out: &mut Text) {
    push_flag("no edition", is_legacy(&None), out);
    push_flag("2015", is_legacy(&local(Edition::E2015)), out);
    push_flag("2018", is_legacy(&local(Edition::E2018)), out);
    push_flag("2021", is_legacy(&local(Edition::E2021)), out);
    let inherited = Some(MaybeInherited::Inherited { workspace: True });
    push_flag("inherited", is_legacy(&inherited), out);
}

/// Writes a value that has to be there.
fn push_there<T: Schema>(alloc: Global, value: &Option<T>, out: &mut Text) {
    match value {
        Some(x) => push_value(alloc, x, out),
        None => push_line("none", out),
    }
}

/// Writes what targets are completed to, a line for each sort.
fn push_targets(alloc: Global, completed: &CompletedTargets, out: &mut Text) {
    push_there(alloc, &completed.build, out);
    push_there(alloc, &completed.lib, out);
    push_value(alloc, &completed.bin, out);
    push_value(alloc, &completed.example, out);
    push_value(alloc, &completed.test, out);
    push_value(alloc, &completed.bench, out);
}

/// Writes the targets of a package that is in no manifest, completed from folders.
pub fn push_completed_targets(alloc: Global, out: &mut Text) -> Result<(), AllocError> {
    let folders = "src|lib.rs;src/bin|c.rs;examples|e.rs;tests|t.rs;.|build.rs";
    let folders = listings(alloc, folders)?;
    let examples = Vec::from_array(alloc, [Product::default(alloc)])?;
    let declared = DeclaredTargets {
        name: "a-b",
        edition: &Some(MaybeInherited::Local(Edition::E2021)),
        autolib: None,
        autobins: None,
        autoexamples: None,
        autotests: Some(false),
        autobenches: None,
        build: &Some(StringOrBool::Bool(true)),
        lib: &None,
        bin: &[],
        example: examples.as_slice(),
        test: &[],
        bench: &[],
    };
    match complete(alloc, &folders, &declared) {
        Ok(completed) => {
            push_targets(alloc, &completed, out);
            drop(completed);
        }
        Err(error) => push_refused(alloc, error, out),
    }
    Ok(())
}

/// Writes the targets of such a package of which an empty folder has no file.
pub fn push_unfound_targets(alloc: Global, out: &mut Text) -> Result<(), AllocError> {
    let tests = Vec::from_array(alloc, [Product::default(alloc)])?;
    let declared = DeclaredTargets {
        name: "a",
        edition: &Some(MaybeInherited::Local(Edition::E2021)),
        autolib: None,
        autobins: None,
        autoexamples: None,
        autotests: Some(false),
        autobenches: None,
        build: &None,
        lib: &Some(Product::default(alloc)),
        bin: &[],
        example: &[],
        test: tests.as_slice(),
        bench: &[],
    };
    let paths = unfound_targets(alloc, &Listings::new(alloc), &declared);
    push_made(lines_of_paths(alloc, paths), out);
    Ok(())
}

/// Writes the text of a manifest whose workspace has this date as its metadata, or how it is refused.
fn push_date_of(alloc: Global, manifest: &mut Manifest, date: Date, out: &mut Text) {
    if let Some(workspace) = &mut manifest.workspace {
        drop(
            workspace
                .metadata
                .replace(Value::Datetime(Datetime::from(date))),
        );
    }
    match manifest.to_toml_string(alloc) {
        Ok(text) => out.push_str(text.as_str()),
        Err(error) => push_refused(alloc, error, out),
    }
}

/// The same for one day.
fn push_date(alloc: Global, date: Date, out: &mut Text) -> Result<(), cargo_manifest::Error> {
    let mut manifest = Manifest::from_str(alloc, "[workspace]")?;
    push_date_of(alloc, &mut manifest, date, out);
    drop(manifest);
    Ok(())
}

/// Writes manifests with a date, and with two that `toml` cannot write.
pub fn push_dates(alloc: Global, out: &mut Text) -> Result<(), cargo_manifest::Error> {
    for (year, month, day) in [(2024, 2, 29), (2023, 2, 29), (2024, 13, 1)] {
        push_date(alloc, Date { year, month, day }, out)?;
    }
    Ok(())
}
