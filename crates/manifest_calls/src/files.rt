//! Manifests of files, completed by the folders that these stand in: real ones, which a call makes and removes.

use crate::documents::line_of_read;
use crate::lines::{push_line, push_refused};
use crate::score::Score;
use anyhow::bail;
use cargo_manifest::{AbstractFilesystem, Error, Filesystem, Manifest};
use manifest_json::Text;
use std::alloc::Global;
use std::path::{Path, PathBuf};
use std::{env, fs, process};

/// A package with a library and a binary.
const PACKAGE: &str = "[package]\nname = 'foo-bar'\nedition = '2021'\n";

/// Makes a folder for a call: a new one in the system's for temporary files.
fn new_folder(rt: HostRuntime, of: &str) -> anyhow::Result<PathBuf> {
    let id = process::id(rt.process());
    let name = format!(in rt.alloc(); "manifest_calls-{id}-{of}")?;
    let folder = env::temp_dir(&rt)?.join(rt.alloc(), name.as_str())?;
    fs::create_dir(&rt, folder.as_path())?;
    Ok(folder)
}

/// Makes the package in a folder, as the folder `foo-bar`, which is answered.
fn make_package(rt: HostRuntime, folder: Path<'_>) -> anyhow::Result<PathBuf> {
    let package = folder.join(rt.alloc(), "foo-bar")?;
    make_files(rt, package.as_path())?;
    Ok(package)
}

/// Makes the files of the package in its folder.
fn make_files(rt: HostRuntime, package: Path<'_>) -> anyhow::Result<()> {
    fs::create_dir_all(&rt, package.join(rt.alloc(), "src")?.as_path())?;
    for (file, text) in [
        ("Cargo.toml", PACKAGE),
        ("src/lib.rs", ""),
        ("src/main.rs", ""),
    ] {
        fs::write(&rt, package.join(rt.alloc(), file)?, text)?;
    }
    Ok(())
}

/// The manifest of the package, completed by its folder, which stands in the working folder.
fn complete(rt: HostRuntime, manifest: &mut Manifest) -> Result<(), Error> {
    let path = Path::new("foo-bar/Cargo.toml");
    manifest.complete_from_path(&rt, path)?; // by the folder `foo-bar`
    Ok(())
}

/// The manifest of the package, completed.
fn completed_manifest(rt: HostRuntime) -> Result<Manifest, Error> {
    let mut manifest = Manifest::from_str(rt.alloc(), PACKAGE)?;
    match complete(rt, &mut manifest) {
        Ok(()) => Ok(manifest),
        Err(refused) => {
            drop(manifest);
            Err(refused)
        }
    }
}

/// The manifest of the working folder.
fn from_path(rt: HostRuntime) -> Result<Manifest, Error> {
    let manifest = Manifest::from_path(&rt, Path::new("Cargo.toml"))?; // completed by the working folder
    Ok(manifest)
}

/// The manifest of the working folder, with metadata of a type.
fn from_path_with_metadata(rt: HostRuntime) -> Result<Manifest<Score>, Error> {
    let manifest = Manifest::<Score>::from_path_with_metadata(&rt, Path::new("Cargo.toml"))?; // for a type `Score: Metadata`
    Ok(manifest)
}

/// What is written of the manifest of the package, completed by its folder.
fn answer_by_parent(rt: HostRuntime, folder: Path<'_>) -> anyhow::Result<String> {
    env::set_current_dir(&rt, folder)?;
    line_of_read(rt.alloc(), completed_manifest(rt))
}

/// What is written of the manifest in a folder, read by its name, and read with metadata of a type.
fn answers_by_name(rt: HostRuntime, folder: Path<'_>) -> anyhow::Result<String> {
    env::set_current_dir(&rt, folder)?;
    let by_name = line_of_read(rt.alloc(), from_path(rt))?;
    let with_metadata = line_of_read(rt.alloc(), from_path_with_metadata(rt))?;
    Ok(format!(in rt.alloc(); "{by_name}\n{with_metadata}")?)
}

/// The answers of the three calls for the package that is made in a folder.
fn answers_in(rt: HostRuntime, folder: Path<'_>) -> anyhow::Result<String> {
    let package = make_package(rt, folder)?;
    let by_parent = answer_by_parent(rt, folder)?;
    let by_name = answers_by_name(rt, package.as_path())?;
    Ok(format!(in rt.alloc(); "{by_parent}\n{by_name}")?)
}

/// The same, after which the working folder is what it was.
fn answers_of_three(rt: HostRuntime, folder: Path<'_>) -> anyhow::Result<String> {
    let before = env::current_dir(&rt)?;
    let answers = answers_in(rt, folder);
    env::set_current_dir(&rt, before.as_path())?;
    answers
}

/// Writes the names that stand at a path under a folder, each with `|` after it, or how that is refused.
fn push_names(alloc: Global, fs: &impl AbstractFilesystem, path: &str, out: &mut Text) {
    match fs.file_names_in(alloc, path) {
        Ok(names) => {
            for name in names.iter() {
                out.push_str(name.as_str());
                out.push('|');
            }
            out.push('\n');
        }
        Err(fault) => push_refused(alloc, Error::Io(fault), out),
    }
}

/// What stands at three paths under the folder of the package, a line each.
fn names_in_package(rt: HostRuntime, folder: Path<'_>) -> anyhow::Result<String> {
    let package = make_package(rt, folder)?;
    let fs = Filesystem::new(&rt, package.as_path());
    let mut out = Text::new(rt.alloc());
    push_names(rt.alloc(), &fs, ".", &mut out);
    push_names(rt.alloc(), &fs, "src", &mut out);
    push_names(rt.alloc(), &fs, "tests", &mut out);
    Ok(out.finish()?)
}

/// What is written of the manifest of a path.
fn answer_by_path(rt: HostRuntime, path: &PathBuf) -> anyhow::Result<String> {
    let read = Manifest::from_path(&rt, path.as_path());
    line_of_read(rt.alloc(), read)
}

/// What is written of the manifest of the package, by its whole path, where `examples` is a file.
fn answer_beside_a_file(rt: HostRuntime, folder: Path<'_>) -> anyhow::Result<String> {
    let package = make_package(rt, folder)?;
    fs::write(&rt, package.join(rt.alloc(), "examples")?, "")?;
    answer_by_path(rt, &package.join(rt.alloc(), "Cargo.toml")?)
}

/// How a manifest is refused whose folder is not there.
fn answer_without_a_file(rt: HostRuntime, folder: Path<'_>) -> anyhow::Result<String> {
    answer_by_path(rt, &folder.join(rt.alloc(), "none/Cargo.toml")?)
}

/// The answer of the call of this name, in a folder of its own.
fn answer_in(rt: HostRuntime, of: &str, folder: Path<'_>) -> anyhow::Result<String> {
    match of {
        "package" => answers_of_three(rt, folder),
        "names" => names_in_package(rt, folder),
        "file-for-folder" => answer_beside_a_file(rt, folder),
        "missing" => answer_without_a_file(rt, folder),
        _ => bail!("there is no call of this name"),
    }
}

/// The same, after which the folder is removed.
pub fn answer(rt: HostRuntime, of: &str) -> anyhow::Result<String> {
    let folder = new_folder(rt, of)?;
    let answer = answer_in(rt, of, folder.as_path());
    fs::remove_dir_all(&rt, folder)?;
    answer
}

/// Writes how completing a manifest by a path is refused, and whether that leaves it as it was.
fn push_refusal(
    rt: HostRuntime,
    manifest: &mut Manifest,
    path: &str,
    out: &mut Text,
) -> Result<(), Error> {
    let before = manifest.to_toml_string(rt.alloc())?;
    match manifest.complete_from_path(&rt, Path::new(path)) {
        Ok(()) => push_line("completed", out),
        Err(error) => push_refused(rt.alloc(), error, out),
    }
    let after = manifest.to_toml_string(rt.alloc())?;
    push_line(if before == after { "kept" } else { "changed" }, out);
    Ok(())
}

/// Writes the same by the root, and by no path.
fn push_refusals(rt: HostRuntime, manifest: &mut Manifest, out: &mut Text) -> Result<(), Error> {
    push_refusal(rt, manifest, "/", out)?;
    push_refusal(rt, manifest, "", out)
}

/// What completing the manifest of a document by a path without a parent is answered with.
pub fn without_a_parent(rt: HostRuntime, document: &str) -> anyhow::Result<String> {
    let mut manifest = Manifest::from_str(rt.alloc(), document)?;
    let mut out = Text::new(rt.alloc());
    let made = push_refusals(rt, &mut manifest, &mut out);
    drop(manifest);
    made?;
    Ok(out.finish()?)
}
