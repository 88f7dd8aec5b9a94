//! The examples of the calls on manifests, on packages, workspaces and profiles, and on tables: each stands as it does in
//! the comment of its call.

use crate::answers::read_as;
use crate::folders::listings;
use crate::lines::{push_displayed, push_line, push_lines, push_manifest, push_read, push_value};
use cargo_manifest::package::package_from;
use cargo_manifest::{
    Error, KeyPath, Listing, Listings, Manifest, Metadata, Package, Profiles, ReadFault, Schema,
    Workspace, depth, printed_bound,
};
use manifest_bytes::{DecodeError, value_bytes, value_of_bytes, written_bytes};
use manifest_inherit::{FinishError, finish};
use manifest_json::Text;
use manifest_written::Written;
use std::alloc::{AllocError, Global};
use std::collections::BTreeSet;
use toml::Value;

/// Writes the flags of a manifest in a line.
pub fn push_flags<P: Metadata>(manifest: &Manifest<P, Value>, out: &mut Text) {
    let adds = manifest.autobins();
    out.push_str(if adds { "true" } else { "false" });
    let adds = manifest.autoexamples();
    out.push_str(if adds { " true" } else { " false" });
    let adds = manifest.autotests();
    out.push_str(if adds { " true" } else { " false" });
    let adds = manifest.autobenches();
    push_line(if adds { " true" } else { " false" }, out);
}

/// Writes the flags of a manifest that has one of them.
pub fn push_example_of_flags(alloc: Global, out: &mut Text) -> Result<(), Error> {
    let manifest = Manifest::from_str(alloc, "[package]\nname = 'a'\nautobins = false")?;
    let adds = manifest.autobins(); // false
    out.push_str(if adds { "true: " } else { "false: " });
    push_flags(&manifest, out);
    drop(manifest);
    Ok(())
}

/// Completes a manifest from a folder of one binary.
fn complete(alloc: Global, manifest: &mut Manifest) -> Result<(), Error> {
    let mut names = BTreeSet::new(alloc);
    names.insert(String::from_str(alloc, "main.rs")?)?;
    let mut listings = Listings::new(alloc);
    listings.put(alloc, "src", Listing::Names(names))?;
    listings.put(alloc, ".", Listing::Names(BTreeSet::new(alloc)))?; // no build script
    manifest.complete_from_abstract_filesystem(alloc, &listings)?; // one binary, at `src/main.rs`
    Ok(())
}

/// The manifest of a package, completed from this folder.
fn completed_manifest(alloc: Global) -> Result<Manifest, Error> {
    let mut manifest = Manifest::from_str(alloc, "[package]\nname = 'a'\nedition = '2024'")?;
    match complete(alloc, &mut manifest) {
        Ok(()) => Ok(manifest),
        Err(refused) => {
            drop(manifest);
            Err(refused)
        }
    }
}

/// The text of a manifest that is well-formed.
fn text_of_a_manifest(alloc: Global, manifest: &Manifest) -> Result<String, Error> {
    if manifest.is_well_formed() {
        let text = manifest.to_toml_string(alloc)?; // is read back as this manifest, where it is at most 80 deep
    }
    manifest.to_toml_string(alloc)
}

/// The manifest that is read of the text of another one.
fn read_back(alloc: Global, manifest: &Manifest) -> Result<Manifest, Error> {
    let text = text_of_a_manifest(alloc, manifest)?;
    Manifest::from_str(alloc, text.as_str())
}

/// Writes the manifest that is read back of a value's.
fn push_read_back(alloc: Global, out: &mut Text) -> anyhow::Result<()> {
    let manifest: Manifest = read_as(alloc, "{ package = { name = 'a' } }")?;
    let again = read_back(alloc, &manifest);
    drop(manifest);
    push_manifest(alloc, again, out);
    Ok(())
}

/// A package of a name and a version.
fn package_by_its_name(alloc: Global) -> Result<Package<Value>, AllocError> {
    let name = String::from_str(alloc, "a")?;
    let package = Package::<Value>::new(name, String::from_str(alloc, "1.0.0")?);
    Ok(package)
}

/// A manifest that has this package alone.
fn manifest_of_a_package(alloc: Global, package: Package<Value>) -> Manifest {
    let mut manifest = Manifest::<Value, Value>::default(alloc);
    manifest.package = Some(package);
    manifest
}

/// Writes a new package and its manifest.
fn push_new_package(alloc: Global, out: &mut Text) -> Result<(), AllocError> {
    let package = package_by_its_name(alloc)?;
    push_value(alloc, &package, out);
    push_manifest(alloc, Ok(manifest_of_a_package(alloc, package)), out);
    Ok(())
}

/// Writes a manifest of bytes, and how other bytes are refused.
fn push_manifests_of_bytes(alloc: Global, out: &mut Text) -> Result<(), Error> {
    let manifest = Manifest::from_slice(alloc, b"[package]\nname = 'a'\nversion = '1.0.0'")?;
    let refused = Manifest::from_slice(alloc, b"[package]\nname = 1"); // `wrong kind at package.name`
    push_manifest(alloc, Ok(manifest), out);
    push_manifest(alloc, refused, out);
    Ok(())
}

/// A manifest of a workspace.
fn manifest_of_a_text(alloc: Global) -> Result<Manifest, Error> {
    let manifest = Manifest::from_str(alloc, "[workspace]\nmembers = ['a']")?;
    Ok(manifest)
}

/// The text of a manifest without a header.
fn text_of_an_old_header(alloc: Global) -> Result<String, Error> {
    let manifest = Manifest::from_str(alloc, "name = 'a'")?; // an old header
    let text = manifest.to_toml_string(alloc)?; // "[package]\nname = \"a\"\n"
    Ok(text)
}

/// Writes the manifests of the examples.
pub fn push_manifests(alloc: Global, out: &mut Text) -> anyhow::Result<()> {
    push_manifest(alloc, completed_manifest(alloc), out);
    push_read_back(alloc, out)?;
    push_new_package(alloc, out)?;
    push_manifests_of_bytes(alloc, out)?;
    push_manifest(alloc, manifest_of_a_text(alloc), out);
    out.push_str(text_of_an_old_header(alloc)?.as_str());
    Ok(())
}

/// Why a text is no package.
#[derive(Drop)]
enum NoPackage {
    Toml(toml::de::Error),
    Fault(ReadFault),
}

impl From<toml::de::Error> for NoPackage {
    fn from(error: toml::de::Error) -> NoPackage {
        NoPackage::Toml(error)
    }
}

impl From<ReadFault> for NoPackage {
    fn from(fault: ReadFault) -> NoPackage {
        NoPackage::Fault(fault)
    }
}

/// The package of a table that has its name alone.
fn package_of_a_table(alloc: Global) -> Result<Package<Value>, NoPackage> {
    let table = toml::table_from_str(alloc, "name = 'a'")?;
    let package: Package<Value> = package_from(alloc, &table)?; // without a version
    Ok(package)
}

/// Profiles of which none is there.
fn profiles_by_default(alloc: Global) -> Profiles {
    let profiles = Profiles::default(alloc);
    profiles
}

/// A workspace without members.
fn workspace_by_default(alloc: Global) -> Workspace<Value> {
    let workspace = Workspace::<Value>::default(alloc);
    workspace
}

/// The manifest of a table without a header.
fn manifest_of_a_table(alloc: Global) -> anyhow::Result<Manifest> {
    let table = toml::table_from_str(alloc, "name = 'a'")?;
    let manifest: Manifest = Manifest::from_table_with_both_metadata(alloc, table)?;
    Ok(manifest)
}

/// How deep a table is.
fn depth_of_a_table(alloc: Global) -> anyhow::Result<usize> {
    let table = toml::table_from_str(alloc, "a = [[1], { b = 2 }]")?;
    let found = depth(&table, 80); // of `a = [[1], { b = 2 }]` 2, as with the limit 2; with the limit 1 it is 1
    Ok(found)
}

/// How long the text of a table is at most.
fn bound_of_a_table(alloc: Global) -> anyhow::Result<Option<usize>> {
    let table = toml::table_from_str(alloc, "name = 'a'")?;
    let bound = printed_bound(&table); // of `name = "a"` 12, and the text has 11 bytes
    Ok(bound)
}

/// Writes the package of a table.
fn push_package_of_a_table(alloc: Global, out: &mut Text) {
    match package_of_a_table(alloc) {
        Ok(package) => {
            push_value(alloc, &package, out);
            drop(package);
        }
        Err(_) => push_line("refused", out),
    }
}

/// Writes what is there by default.
fn push_defaults(alloc: Global, out: &mut Text) {
    push_read(alloc, Ok(profiles_by_default(alloc)), out);
    push_read(alloc, Ok(workspace_by_default(alloc)), out);
}

/// Writes the manifest of a table.
fn push_manifest_of_a_table(alloc: Global, out: &mut Text) -> anyhow::Result<()> {
    push_manifest(alloc, Ok(manifest_of_a_table(alloc)?), out);
    Ok(())
}

/// Writes what the examples make of tables, and what is there by default.
pub fn push_tables(alloc: Global, out: &mut Text) -> anyhow::Result<()> {
    push_package_of_a_table(alloc, out);
    push_defaults(alloc, out);
    push_manifest_of_a_table(alloc, out)?;
    push_displayed(alloc, &depth_of_a_table(alloc)?, out);
    push_displayed(alloc, &bound_of_a_table(alloc)?.unwrap_or(0), out);
    Ok(())
}

/// The text of a manifest within 8 bytes.
fn text_within_eight(alloc: Global) -> Result<Option<String>, Error> {
    let manifest = Manifest::from_str(alloc, "name = 'a'")?;
    let text = manifest.to_toml_string_within(alloc, 8)?; // `None`
    Ok(text)
}

/// The text of the manifest of a document within a bound.
fn text_within(alloc: Global, document: &str, bound: usize) -> Result<Option<String>, Error> {
    let manifest = Manifest::from_str(alloc, document)?;
    let text = manifest.to_toml_string_within(alloc, bound);
    drop(manifest);
    text
}

/// Writes a text, or that there is none.
fn push_text_or_none(text: Option<String>, out: &mut Text) {
    match text {
        Some(text) => out.push_str(text.as_str()),
        None => push_line("none", out),
    }
}

/// Writes the texts of the manifest of `name = 'a'` within 8, 34 and 35 bytes: `package` takes 8, 4, 3 and the path 8;
/// `name` in it 5, 4 and 3.
pub fn push_texts_within(alloc: Global, out: &mut Text) -> Result<(), Error> {
    push_text_or_none(text_within_eight(alloc)?, out);
    push_text_or_none(text_within(alloc, "name = 'a'", 34)?, out);
    push_text_or_none(text_within(alloc, "name = 'a'", 35)?, out);
    Ok(())
}

/// The bytes of a list.
fn bytes_of_a_list(alloc: Global) -> anyhow::Result<Vec<u8>> {
    let value = Value::from_str(alloc, "[true, 300]")?;
    let bytes = value_bytes(alloc, &value)?; // 7 2 5 2 172 2
    Ok(bytes)
}

/// The bytes of what is written of that list.
fn bytes_of_what_is_written(alloc: Global) -> anyhow::Result<Vec<u8>> {
    let items = Vec::from_array(alloc, [Written::Boolean(true), Written::Integer(300)])?;
    let bytes = written_bytes(alloc, &Written::List(items))?; // 7 2 5 2 172 2
    Ok(bytes)
}

/// The list of these bytes.
fn list_of_bytes(alloc: Global) -> Result<Option<Value>, DecodeError> {
    let value = value_of_bytes(alloc, 128, &[7, 2, 5, 2, 172, 2])?; // `[true, 300]`
    Ok(value)
}

/// Writes bytes in a line, a blank after each.
fn push_bytes(bytes: &[u8], out: &mut Text) {
    for byte in bytes {
        out.push_number(usize::from(*byte));
        out.push(' ');
    }
    out.push('\n');
}

/// Writes the bytes of a list, those of what is written of it, and the list of these bytes.
pub fn push_list_as_bytes(alloc: Global, out: &mut Text) -> anyhow::Result<()> {
    push_bytes(bytes_of_a_list(alloc)?.as_slice(), out);
    push_bytes(bytes_of_what_is_written(alloc)?.as_slice(), out);
    match list_of_bytes(alloc) {
        Ok(Some(value)) => push_displayed(alloc, &value, out),
        _ => push_line("none", out),
    }
    Ok(())
}

/// The declared targets of which an empty folder has no file.
fn of_an_empty_folder(alloc: Global) -> Result<Vec<KeyPath>, Error> {
    let manifest = Manifest::from_str(alloc, "package.name = 'a'\nlib = {}\n[[bin]]\nname = 'b'")?;
    let paths = manifest.unfound_targets(alloc, &Listings::new(alloc))?; // `lib` and `bin[0]`
    Ok(paths)
}

/// Writes the declared targets of which an empty folder has no file.
pub fn push_targets_of_an_empty_folder(alloc: Global, out: &mut Text) -> Result<(), Error> {
    push_lines(alloc, of_an_empty_folder(alloc)?.as_slice(), out);
    Ok(())
}

/// Finishes a member by a root and by folders, and a manifest by neither.
fn finished(
    alloc: Global,
    mut member: Manifest,
    mut manifest: Manifest,
    root: Manifest,
    listings: Listings,
) -> Result<(Manifest, Manifest), FinishError> {
    finish(alloc, &mut member, Some(&root), Some(&listings))?;
    finish::<Listings>(alloc, &mut manifest, None, None)?; // changes nothing
    Ok((member, manifest))
}

/// The manifest of a document, or an empty one where it is refused.
fn manifest_or_default(alloc: Global, document: &str) -> Manifest {
    match Manifest::from_str(alloc, document) {
        Ok(manifest) => manifest,
        Err(_) => Manifest::default(alloc),
    }
}

/// Writes both.
pub fn push_finished(alloc: Global, out: &mut Text) -> Result<(), AllocError> {
    let listings = listings(alloc, "src|main.rs;.")?;
    let root = manifest_or_default(alloc, "[workspace.package]\nversion = '2.0.0'");
    let member = "[package]\nname = 'a'\nedition = '2021'\nversion.workspace = true";
    let member = manifest_or_default(alloc, member);
    let manifest = manifest_or_default(alloc, "name = 'b'");
    match finished(alloc, member, manifest, root, listings) {
        Ok((member, manifest)) => {
            push_manifest(alloc, Ok(member), out);
            push_manifest(alloc, Ok(manifest), out);
        }
        Err(error) => {
            push_displayed(alloc, &error, out);
            drop(error);
        }
    }
    Ok(())
}
