//! The declared targets of a package for which no file is found.

ghost use Rattle.std.specs.Prelude.{◌≡◌, ◌++◌, ◌∷◌, [], map, IfOk, OnOk};
ghost use Rattle.manifest_parts.specs.Records.{product_content};
ghost use Rattle.manifest_schema.specs.Paths.{key};
ghost use Rattle.manifest_fault.specs.Faults.{path_of};
ghost use Rattle.manifest_completion.specs.Answered.{answer_of};
ghost use Rattle.manifest_completion.specs.Completed.{library};
ghost use Rattle.manifest_completion.specs.Outcome.{declared_content};
ghost use Rattle.manifest_completion.specs.Steps.{defaults_content, paired, AnswersUnfound};
ghost use Rattle.manifest_completion.specs.Unfound.{as_completed, place_in, without_path, unfound_library, unfound_in, AreUnfound};

use crate::ask::{Answers, ask, ask_folders};
use crate::completion::{DeclaredTargets, check_memory, check_source, defaults};
use crate::discovered::discovered_targets;
use crate::filesystem::AbstractFilesystem;
use crate::index::IndexedTargets;
use crate::library::has_no_file;
use crate::target_folder::TargetFolder;
use crate::targets::{TargetDefaults, has_path};
use manifest_parts::Product;
use manifest_value::{Error, KeyPath, Step};
use std::alloc::{AllocError, Global};
use std::collections::BTreeSet;
use std::io;

/// Appends a path of one key.
fn push_key(out: &mut Vec<KeyPath>, alloc: Global, word: &str) -> Result<(), AllocError>
    ensures { OnOk result (map path_of out.new.items
        ≡ map path_of out.old.items ++ (key word.now ∷ []) ∷ []) }
{
    let mut steps = Vec::new(alloc);
    steps.push(Step::Key(String::from_str(alloc, word)?))?;
    out.push(KeyPath { steps })?;
    Ok(())
}

/// Appends where the target of this index stands in a list, as `bin[1]`.
fn push_place(
    out: &mut Vec<KeyPath>,
    alloc: Global,
    list: &str,
    index: usize,
) -> Result<(), AllocError>
    ensures { OnOk result (map path_of out.new.items
        ≡ map path_of out.old.items ++ place_in list.now index ∷ []) }
{
    let mut steps = Vec::new(alloc);
    steps.push(Step::Key(String::from_str(alloc, list)?))?;
    steps.push(Step::Index(index))?;
    out.push(KeyPath { steps })?;
    Ok(())
}

/// Appends where the declared targets stand, in the list of this key, that have no path in the completed list.
fn push_without_path<'a>(
    out: &mut Vec<KeyPath>,
    alloc: Global,
    list: &str,
    declared: &'a [Product],
    discovered: &IndexedTargets<'a>,
    defaults: TargetDefaults,
) -> Result<(), AllocError>
    ensures { let targets = map product_content declared.now in
        let filled = as_completed (defaults_content defaults) discovered.now targets in
        OnOk result (map path_of out.new.items
        ≡ map path_of out.old.items ++ without_path list.now 0 filled) }
{
    for (i, target) in declared.iter().enumerate() {
        if !has_path(target, discovered, defaults) {
            push_place(out, alloc, list, i)?;
        }
    }
    Ok(())
}

/// Appends where the library stands, if one is declared that has no file.
fn push_unfound_library(
    out: &mut Vec<KeyPath>,
    alloc: Global,
    declared: &DeclaredTargets<'_>,
    source: &io::Result<BTreeSet<String>>,
) -> Result<(), AllocError>
    ensures { let unfound = unfound_library (library (declared_content declared.now)
        (answer_of source.now)) in
        OnOk result (map path_of out.new.items ≡ map path_of out.old.items ++ unfound) }
{
    if has_no_file(alloc, declared, source)? {
        return push_key(out, alloc, "lib");
    }
    Ok(())
}

/// Appends where the declared targets of a list stand that are without a path.
fn push_unfound_in(
    out: &mut Vec<KeyPath>,
    alloc: Global,
    declared: &DeclaredTargets<'_>,
    answers: &Answers,
    folder: TargetFolder,
) -> Result<(), AllocError>
    ensures { let t = declared_content declared.now in
        OnOk result (map path_of out.new.items ≡ map path_of out.old.items
        ++ unfound_in t (answer_of answers.now.source) (paired answers.now) folder) }
{
    let discovered = discovered_targets(alloc, declared.name, answers, folder)?;
    let indexed = IndexedTargets::new(alloc, discovered.as_slice())?;
    let defaults = defaults(declared, &answers.source, folder);
    push_without_path(
        out,
        alloc,
        folder.key(),
        declared.list(folder),
        &indexed,
        defaults,
    )
}

/// Where the declared targets without a file stand, by what was answered. Refuses with `Io` where memory ran out for a
/// listing of targets, and with `Memory`.
#[tactic(auto, unfolding(crate::specs::Unfound::unfound_from))]
fn unfound_by_answers(
    alloc: Global,
    declared: &DeclaredTargets<'_>,
    answers: &Answers,
) -> Result<Vec<KeyPath>, Error>
    ensures { AnswersUnfound (declared_content declared.now) answers.now result }
{
    check_memory(answers)?;
    let mut out = Vec::new(alloc);
    push_unfound_library(&mut out, alloc, declared, &answers.source)?;
    push_unfound_in(&mut out, alloc, declared, answers, TargetFolder::Bins)?;
    push_unfound_in(&mut out, alloc, declared, answers, TargetFolder::Examples)?;
    push_unfound_in(&mut out, alloc, declared, answers, TargetFolder::Tests)?;
    push_unfound_in(&mut out, alloc, declared, answers, TargetFolder::Benches)?;
    Ok(out)
}

/// Asks the filesystem, and says of which declared targets it has no file: of each the path to where it stands in the
/// manifest, as `lib` or `bin[1]`. A library is one of them where completion would be refused for it; a binary, an
/// example, a test or a bench, where completion would leave it without a path. A path that is declared is not looked
/// up. Nothing is changed.
///
/// It asks for `src`, and for the folders of targets with their entries. Refuses with `Io` where `src` has another
/// fault than that it is not there, and where memory runs out for the listing of a folder of targets or of an entry of
/// one; and with `Memory` when out of memory.
///
/// ```ignore
/// for path in unfound_targets(alloc, &listings, &declared)? { .. }
/// ```
pub fn unfound_targets<FS: AbstractFilesystem>(
    alloc: Global,
    fs: &FS,
    declared: &DeclaredTargets<'_>,
) -> Result<Vec<KeyPath>, Error>
    ensures { AreUnfound (FS.allows fs.now) (declared_content declared.now) result }
{
    let source = check_source(ask(alloc, fs, "src"))?;
    let answers = ask_folders(alloc, fs, source, false)?;
    let unfound = unfound_by_answers(alloc, declared, &answers);
    drop(answers);
    unfound
}
