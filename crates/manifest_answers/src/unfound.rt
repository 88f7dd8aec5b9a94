//! The declared targets of a manifest without a file, and where they stand in its text, as tagged bytes.

ghost use Rattle.manifest_schema.specs.Prelude.{view};
ghost use Rattle.std.specs.Prelude.{◌≡◌, IfOk, IfErr, map};
ghost use Rattle.cargo_manifest.specs.Whole.{manifest_content};
ghost use Rattle.manifest_fault.specs.Faults.{path_of};
ghost use Rattle.manifest_answers.specs.Given.{given_by};
ghost use Rattle.manifest_answers.specs.Made.{IsMade};
ghost use Rattle.manifest_answers.specs.Unfound.{path_data, paths_data, GivesPaths, RefusesPaths, AreUnfoundOver, RefusesUnfoundOver, GivesUnfoundOf, RefusesUnfoundOf, GivesUnfoundOver, RefusesUnfoundTextOver, GivesUnfound, RefusesUnfound};

use crate::folders::{Folder, GivenFolders};
use crate::inspecting::{pair, step_value};
use crate::making::tagged_bytes;
use crate::placing::{located_paths, places_value};
use crate::reading::{Input, read, release};
use crate::refusal::Refusal;
use cargo_manifest::laws::stored_decides_unfound;
use cargo_manifest::{KeyPath, Manifest, Value};
use manifest_inherit::FinishError;
use manifest_written::Written;
use std::alloc::{AllocError, Global};

/// A path as a value: the array of its steps.
fn path_value(alloc: Global, path: &KeyPath) -> Result<Value, AllocError>
    ensures { IfOk result (λ v. view v ≡ path_data (path_of path.now)) }
{
    let mut steps = Vec::new(alloc);
    for step in &path.steps {
        steps.push(step_value(alloc, step)?)?;
    }
    Ok(Value::Array(steps))
}

/// Paths as a value: the array of them.
fn paths_value(alloc: Global, paths: &[KeyPath]) -> Result<Value, AllocError>
    ensures { IfOk result (λ v. view v ≡ paths_data (map path_of paths.now)) }
{
    let mut values = Vec::new(alloc);
    for path in paths {
        values.push(path_value(alloc, path)?)?;
    }
    Ok(Value::Array(values))
}

/// The tagged bytes of paths, and of where in the text that stands which belongs to them.
fn bytes_of_paths(
    alloc: Global,
    bytes: &[u8],
    paths: &[KeyPath],
    most: usize,
) -> Result<Vec<u8>, Refusal>
    ensures { let ps = map path_of paths.now in
        IsMade (GivesPaths most bytes.now ps) (RefusesPaths most bytes.now ps) result }
{
    let all = located_paths(alloc, bytes, paths)?;
    let places = places_value(alloc, all.as_slice())?;
    let listed = paths_value(alloc, paths)?;
    let value = pair(alloc, listed, places)?;
    tagged_bytes(alloc, &Written::Value(&value), most)
}

/// The paths of the declared targets of a manifest without a file in the folders.
fn unfound_paths(
    alloc: Global,
    manifest: &Manifest,
    folders: &GivenFolders<'_>,
) -> Result<Vec<KeyPath>, Refusal>
    ensures ok { let m = manifest_content view view manifest.now in
        IfOk result (λ paths. AreUnfoundOver (given_by folders.now) m (map path_of paths.items)) }
    ensures refused { let m = manifest_content view view manifest.now in
        IfErr result (RefusesUnfoundOver (given_by folders.now) m) }
{
    stored_decides_unfound();
    match manifest.unfound_targets(alloc, folders) {
        Ok(paths) => Ok(paths),
        Err(error) => Err(Refusal::Finishing(FinishError::Manifest(error))),
    }
}

/// The tagged bytes of the unfound targets of a manifest whose text the bytes are.
fn bytes_of_unfound(
    alloc: Global,
    bytes: &[u8],
    manifest: &Manifest,
    folders: &GivenFolders<'_>,
    most: usize,
) -> Result<Vec<u8>, Refusal>
    ensures { let m = manifest_content view view manifest.now in
        IsMade (GivesUnfoundOf most bytes.now (given_by folders.now) m)
        (RefusesUnfoundOf most bytes.now (given_by folders.now) m) result }
{
    let paths = match unfound_paths(alloc, manifest, folders) {
        Ok(paths) => paths,
        Err(refused) => return Err(refused),
    };
    bytes_of_paths(alloc, bytes, paths.as_slice(), most)
}

/// The tagged bytes of the unfound targets of the manifest that the bytes are, over the folders.
fn unfound_over(
    alloc: Global,
    bytes: &[u8],
    folders: &GivenFolders<'_>,
    most: usize,
) -> Result<Vec<u8>, Refusal>
    ensures { IsMade (GivesUnfoundOver most bytes.now (given_by folders.now))
        (RefusesUnfoundTextOver most bytes.now (given_by folders.now)) result }
{
    match read(alloc, Input::Toml, bytes) {
        Ok(manifest) => {
            let found = bytes_of_unfound(alloc, bytes, &manifest, folders, most);
            release(manifest);
            found
        }
        Err(refused) => Err(Refusal::Bytes(refused)),
    }
}

/// The tagged bytes of the paths of the declared targets, of the manifest that the bytes are, for which the folders have no
/// file, and of where they stand in the text. Refuses folders that are no listings, bytes that are no manifest, a fault of a
/// folder that refuses a completion, tagged bytes that are more than `most`, and when out of memory.
pub(crate) fn placed_unfound_targets(
    alloc: Global,
    bytes: &[u8],
    folders: &[Folder<'_>],
    most: usize,
) -> Result<Vec<u8>, Refusal>
    ensures { IsMade (GivesUnfound most bytes.now folders.now)
        (RefusesUnfound most bytes.now folders.now) result }
{
    match GivenFolders::new(alloc, folders) {
        Ok(given) => unfound_over(alloc, bytes, &given, most),
        Err(refused) => Err(refused),
    }
}
