//! Completing the targets of a package.

ghost use Rattle.std.specs.Prelude.{◌≡◌, map, option_map, IfOk, MatchResult, None, false};
ghost use Rattle.manifest_parts.specs.Parts.{edition_content, text_or_flag_content, inh_content};
ghost use Rattle.manifest_parts.specs.Records.{product_content};
ghost use Rattle.manifest_completion.specs.Answered.{answer_of};
ghost use Rattle.manifest_completion.specs.Asking.{some_ran_out_of_memory};
ghost use Rattle.manifest_completion.specs.Completed.{is_legacy, own_edition, discovers, declared, own_flag, adds, asks_root, build_of, defaults, completed_list, source_fault, root_fault_if};
ghost use Rattle.manifest_completion.specs.Outcome.{declared_content, TargetsCompleted};
ghost use Rattle.manifest_completion.specs.Steps.{defaults_content, paired, IsFault, RanOutOfMemory, CompletesByAnswers};

use crate::ask::{Answers, ask, ask_folders};
use crate::discovered::{discovered_targets, lists};
use crate::filesystem::AbstractFilesystem;
use crate::library::completed_library;
use crate::target_folder::TargetFolder;
use crate::targets::{TargetDefaults, completed_list};
use manifest_parts::{Edition, MaybeInherited, Product, StringOrBool};
use manifest_value::Error;
use std::alloc::{AllocError, Global};
use std::collections::BTreeSet;
use std::io;
use std::io::ErrorKind;

/// What completion reads of a package and of its manifest.
#[derive(Clone, Copy)]
pub struct DeclaredTargets<'a> {
    /// The name of the package.
    pub name: &'a str,
    /// The edition of the package, its own or inherited.
    pub edition: &'a Option<MaybeInherited<Edition>>,
    /// What the package says of the discovery of a library.
    pub autolib: Option<bool>,
    /// What the package says of the discovery of binaries.
    pub autobins: Option<bool>,
    /// What the package says of the discovery of examples.
    pub autoexamples: Option<bool>,
    /// What the package says of the discovery of tests.
    pub autotests: Option<bool>,
    /// What the package says of the discovery of benches.
    pub autobenches: Option<bool>,
    /// What the package says of its build script.
    pub build: &'a Option<StringOrBool>,
    /// The declared library.
    pub lib: &'a Option<Product>,
    /// The declared binaries.
    pub bin: &'a [Product],
    /// The declared examples.
    pub example: &'a [Product],
    /// The declared tests.
    pub test: &'a [Product],
    /// The declared benches.
    pub bench: &'a [Product],
}

impl DeclaredTargets<'_> {
    /// The declared targets of a list.
    pub(crate) fn list(&self, folder: TargetFolder) -> &[Product]
        ensures { map product_content result.now ≡ declared (declared_content self.now) folder }
    {
        match folder {
            TargetFolder::Bins => self.bin,
            TargetFolder::Examples => self.example,
            TargetFolder::Tests => self.test,
            TargetFolder::Benches => self.bench,
        }
    }

    /// What the package says by a flag such as `autobins` of adding found targets to a list.
    fn own_flag(&self, folder: TargetFolder) -> Option<bool>
        ensures { option_map (λ b. b) result ≡ own_flag (declared_content self.now) folder }
    {
        match folder {
            TargetFolder::Bins => self.autobins,
            TargetFolder::Examples => self.autoexamples,
            TargetFolder::Tests => self.autotests,
            TargetFolder::Benches => self.autobenches,
        }
    }

    /// Whether found targets are added to a list, as [`discovers`] says.
    ///
    /// ```ignore
    /// let adds = declared.adds(TargetFolder::Bins);
    /// ```
    pub fn adds(&self, folder: TargetFolder) -> bool
        ensures { result ≡ adds (declared_content self.now) folder }
    {
        let own = self.own_flag(folder);
        discovers(own, is_legacy(self.edition), self.list(folder))
    }
}

/// What completion makes of the declared targets: the build script, the library and the four lists.
#[derive(Drop)]
pub struct CompletedTargets {
    /// The build script: `build.rs` where it is found, else what the package says.
    pub build: Option<StringOrBool>,
    /// The library, declared or inferred.
    pub lib: Option<Product>,
    /// The binaries, declared and found.
    pub bin: Vec<Product>,
    /// The examples, declared and found.
    pub example: Vec<Product>,
    /// The tests, declared and found.
    pub test: Vec<Product>,
    /// The benches, declared and found.
    pub bench: Vec<Product>,
}

/// Whether targets are discovered in legacy mode: the edition is absent, or 2015 and the package's own. One that is
/// inherited is not legacy, whatever the workspace says.
///
/// ```ignore
/// let legacy = is_legacy(&None); // true: a package without an edition is of 2015
/// ```
pub fn is_legacy(edition: &Option<MaybeInherited<Edition>>) -> bool
    ensures { result ≡ is_legacy (option_map (inh_content edition_content) edition.now) }
{
    match edition {
        None => true,
        Some(MaybeInherited::Inherited { .. }) => false,
        Some(MaybeInherited::Local(edition)) => matches!(edition, Edition::E2015),
    }
}

/// The package's own edition; `None` where it is absent or inherited.
///
/// ```ignore
/// let edition = own_edition(&Some(MaybeInherited::Local(Edition::E2021))); // `Some(E2021)`
/// ```
pub fn own_edition(edition: &Option<MaybeInherited<Edition>>) -> Option<Edition>
    ensures { option_map edition_content result
        ≡ own_edition (option_map (inh_content edition_content) edition.now) }
{
    match edition {
        Some(MaybeInherited::Local(edition)) => Some(*edition),
        _ => None,
    }
}

/// Whether found targets are added to a list: as the package says by a flag such as `autobins`, here `own`; and where
/// it says nothing, unless in legacy mode the list has a declared target.
///
/// ```ignore
/// let adds = discovers(None, false, &declared); // true: the package says nothing, and it is not legacy mode
/// ```
pub fn discovers(own: Option<bool>, legacy: bool, list: &[Product]) -> bool
    ensures { result ≡ discovers (option_map (λ b. b) own) legacy (map product_content list.now) }
{
    match own {
        Some(own) => own,
        None => !(legacy & !list.is_empty()),
    }
}

/// Whether the folder of the manifest is asked for a build script: `build` is absent or true.
fn asks_root(build: &Option<StringOrBool>) -> bool
    ensures { result ≡ asks_root (option_map text_or_flag_content build.now) }
{
    match build {
        None => true,
        Some(StringOrBool::Bool(asks)) => *asks,
        Some(StringOrBool::String(_)) => false,
    }
}

/// Returns the answer at `src`; refuses with it where it is a fault other than that `src` is not there.
pub(crate) fn check_source(
    source: io::Result<BTreeSet<String>>,
) -> Result<io::Result<BTreeSet<String>>, Error>
    ensures { MatchResult result (λ s. (s ≡ source) × (source_fault (answer_of source) ≡ None))
        (IsFault (source_fault (answer_of source))) }
{
    match source {
        Ok(names) => Ok(Ok(names)),
        Err(fault) => {
            if fault.kind() == ErrorKind::NotFound {
                Ok(Err(fault))
            } else {
                Err(Error::Io(fault))
            }
        }
    }
}

/// Refuses with `Io` of the kind `OutOfMemory` where memory ran out for a listing of targets.
pub(crate) fn check_memory(answers: &Answers) -> Result<(), Error>
    ensures { MatchResult result (λ u. some_ran_out_of_memory answers.now ≡ false)
        (RanOutOfMemory answers.now) }
{
    if answers.ran_out_of_memory() {
        return Err(Error::Io(io::Error::from(ErrorKind::OutOfMemory)));
    }
    Ok(())
}

/// Refuses with `Io` where `asks` is true (the folder of the manifest was asked) and its answer `root` is a fault.
fn check_root(asks: bool, root: &io::Result<BTreeSet<String>>) -> Result<(), Error>
    ensures { let fault = root_fault_if asks (answer_of root.now) in
        MatchResult result (λ u. fault ≡ None) (IsFault fault) }
{
    match root {
        Err(fault) if asks => Err(Error::Io(*fault)),
        _ => Ok(()),
    }
}

/// The package's `build` after completion: `build.rs` where `build` is absent or true and the answer `root` lists it,
/// else a copy of `build`.
fn completed_build(
    alloc: Global,
    build: &Option<StringOrBool>,
    root: &io::Result<BTreeSet<String>>,
) -> Result<Option<StringOrBool>, AllocError>
    ensures { IfOk result
        (λ o. option_map text_or_flag_content o
        ≡ build_of (option_map text_or_flag_content build.now) (answer_of root.now)) }
{
    if asks_root(build) & lists(root, "build.rs") {
        let text = String::from_str(alloc, "build.rs")?;
        return Ok(Some(StringOrBool::String(text)));
    }
    match build {
        None => Ok(None),
        Some(StringOrBool::Bool(asks)) => Ok(Some(StringOrBool::Bool(*asks))),
        Some(StringOrBool::String(text)) => Ok(Some(StringOrBool::String(String::from_str(
            alloc,
            text.as_str(),
        )?))),
    }
}

/// What a target of a list takes where it has none: the package's own edition; an example the crate type `bin`; and in
/// legacy mode a binary the path `src/main.rs`, where `src` lists it.
pub(crate) fn defaults(
    declared: &DeclaredTargets<'_>,
    source: &io::Result<BTreeSet<String>>,
    folder: TargetFolder,
) -> TargetDefaults
    ensures { defaults_content result
        ≡ defaults (declared_content declared.now) (answer_of source.now) folder }
{
    let crate_type = if folder.is_examples() {
        Some("bin")
    } else {
        None
    };
    let path = if folder.is_bins() & (is_legacy(declared.edition) & lists(source, "main.rs")) {
        Some("src/main.rs")
    } else {
        None
    };
    TargetDefaults {
        edition: own_edition(declared.edition),
        crate_type,
        path,
    }
}

/// The completed list of a folder, by what was answered: the declared targets, and where the list is added to those
/// that are found; each with its defaults.
fn completed_in(
    alloc: Global,
    declared: &DeclaredTargets<'_>,
    answers: &Answers,
    folder: TargetFolder,
) -> Result<Vec<Product>, AllocError>
    ensures { let t = declared_content declared.now in
        IfOk result (λ v. map product_content v.items
        ≡ completed_list t (answer_of answers.now.source) (paired answers.now) folder) }
{
    let discovered = discovered_targets(alloc, declared.name, answers, folder)?;
    completed_list(
        alloc,
        declared.list(folder),
        discovered.as_slice(),
        declared.adds(folder),
        defaults(declared, &answers.source, folder),
    )
}

/// The completed targets, by what was answered: the library `lib` as it was passed in, the four lists, and the build
/// script. Refuses with `Io` where memory ran out for a listing of targets, and then where the folder of the manifest
/// was asked and is a fault; and with `Memory`.
#[tactic(auto, unfolding(crate::specs::Completed::filled_by))]
fn complete_by_answers(
    alloc: Global,
    declared: &DeclaredTargets<'_>,
    lib: Option<Product>,
    answers: &Answers,
) -> Result<CompletedTargets, Error>
    ensures { let t = declared_content declared.now in
        CompletesByAnswers t (option_map product_content lib) answers.now result }
{
    check_memory(answers)?;
    check_root(asks_root(declared.build), &answers.root)?;
    let build = completed_build(alloc, declared.build, &answers.root)?;
    let bin = completed_in(alloc, declared, answers, TargetFolder::Bins)?;
    let example = completed_in(alloc, declared, answers, TargetFolder::Examples)?;
    let test = completed_in(alloc, declared, answers, TargetFolder::Tests)?;
    let bench = completed_in(alloc, declared, answers, TargetFolder::Benches)?;
    Ok(CompletedTargets {
        build,
        lib,
        bin,
        example,
        test,
        bench,
    })
}

/// Asks the filesystem, and completes the targets by what it answers. Nothing that was declared is changed.
///
/// Refuses with `Io` where `src` has another fault than that it is not there, where memory runs out for the listing of
/// a folder of targets or of an entry of one, and where the folder of the manifest is asked and has a fault; with
/// `Other` where a declared library has no file; and with `Memory` when out of memory.
///
/// ```ignore
/// let completed = complete(alloc, &listings, &declared)?;
/// manifest.bin = completed.bin;
/// ```
pub fn complete<FS: AbstractFilesystem>(
    alloc: Global,
    fs: &FS,
    declared: &DeclaredTargets<'_>,
) -> Result<CompletedTargets, Error>
    ensures { TargetsCompleted (FS.allows fs.now) (declared_content declared.now) result }
{
    let source = check_source(ask(alloc, fs, "src"))?;
    let lib = completed_library(alloc, declared, &source)?;
    let answers = ask_folders(alloc, fs, source, asks_root(declared.build))?;
    let completed = complete_by_answers(alloc, declared, lib, &answers);
    drop(answers);
    completed
}
