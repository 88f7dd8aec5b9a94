//! Asking a filesystem.

ghost use Rattle.std.specs.Prelude.{◌≡◌, [], codes, IfOk, string_bytes, true, false, ◌&&◌, not};
ghost use Rattle.std.specs.declared.io.ErrorKind.TheVariants.{NotFound};
ghost use Rattle.manifest_completion.specs.Listings.{joined, folder_text, is_memory_fault, fault, IsAscending};
ghost use Rattle.manifest_completion.specs.Answered.{answer_of, answers_of, set_names};
ghost use Rattle.manifest_completion.specs.Asking.{IsAllowedAnswer, AreAllowedAnswers, FolderIsAnswered, AllIsAnswered, folder_answers, ran_out_of_memory, some_ran_out_of_memory};

use crate::filesystem::AbstractFilesystem;
use crate::target_folder::TargetFolder;
use std::alloc::{AllocError, Global};
use std::collections::BTreeSet;
use std::io;
use std::io::ErrorKind;

/// The path text of an entry, as a new string: the folder, a slash and the name. Fails only when out of memory.
pub fn join(alloc: Global, folder: &str, name: &str) -> Result<String, AllocError>
    ensures { IfOk result (λ s. string_bytes s ≡ joined folder.now name.now) }
{
    let mut path = String::with_capacity(alloc, folder.len() + 1 + name.len())?;
    path.push_str(folder)?;
    path.push_str("/")?;
    path.push_str(name)?;
    Ok(path)
}

/// What was answered at a folder of targets, and at its entries in the order of their names.
#[derive(Drop)]
pub struct FolderAnswers {
    pub own: io::Result<BTreeSet<String>>,
    pub entries: Vec<io::Result<BTreeSet<String>>>,
}

/// What was answered at `src`, at the folders of targets and at that of the manifest.
#[derive(Drop)]
pub struct Answers {
    pub source: io::Result<BTreeSet<String>>,
    pub bins: FolderAnswers,
    pub examples: FolderAnswers,
    pub tests: FolderAnswers,
    pub benches: FolderAnswers,
    pub root: io::Result<BTreeSet<String>>,
}

/// Whether an answer of the filesystem is a fault of the kind `OutOfMemory`.
fn is_memory_fault(answer: &io::Result<BTreeSet<String>>) -> bool
    ensures { result ≡ is_memory_fault (answer_of answer.now) }
{
    match answer {
        Ok(_) => false,
        Err(fault) => matches!(fault.kind(), ErrorKind::OutOfMemory),
    }
}

/// A law, with an empty body: the names of a set ascend.
#[tactic(auto, using(crate::proofs::AskLemmas::set_ascends))]
pub fn names_ascend(names: &BTreeSet<String>)
    ensures { IsAscending (set_names names.now) }
{
    let _ascending = names.len();
}

/// Asks the filesystem for the names in the folder at a path, and returns its answer unchanged: names, or a fault. The
/// contract says that the filesystem may answer so, and that the names ascend.
#[tactic(auto, using(crate::proofs::AskLemmas::none_ascend))]
pub fn ask<FS: AbstractFilesystem>(
    alloc: Global,
    fs: &FS,
    path: &str,
) -> io::Result<BTreeSet<String>>
    ensures { IsAllowedAnswer (FS.allows fs.now) path.now (answer_of result) }
{
    match fs.file_names_in(alloc, path) {
        Ok(names) => {
            names_ascend(&names);
            Ok(names)
        }
        Err(fault) => Err(fault),
    }
}

/// Asks at the path of each name in a folder, whether it is a folder or not, up to the first answer that is out of
/// memory.
fn ask_entries<FS: AbstractFilesystem>(
    alloc: Global,
    fs: &FS,
    folder: &str,
    names: &BTreeSet<String>,
) -> Result<Vec<io::Result<BTreeSet<String>>>, AllocError>
    ensures { let all = set_names names.now in IfOk result (λ answers.
        AreAllowedAnswers (FS.allows fs.now) folder.now all (answers_of answers)) }
{
    let mut entries = Vec::new(alloc);
    for name in names.iter() {
        let path = join(alloc, folder, name.as_str())?;
        let answer = ask(alloc, fs, path.as_str());
        let is_last = is_memory_fault(&answer);
        entries.push(answer)?;
        if is_last {
            return Ok(entries);
        }
    }
    Ok(entries)
}

/// Asks at a folder of targets, as `examples`, and if that lists names, at the path of each of them, as [`ask_entries`]
/// does. Returns the answers, faults among them; fails only when out of memory for the list of them.
fn ask_folder<FS: AbstractFilesystem>(
    alloc: Global,
    fs: &FS,
    folder: &str,
) -> Result<FolderAnswers, AllocError>
    ensures { IfOk result (λ a. FolderIsAnswered (FS.allows fs.now) folder.now a) }
{
    let own = ask(alloc, fs, folder);
    let entries = match &own {
        Ok(names) => ask_entries(alloc, fs, folder, names)?,
        Err(_) => Vec::new(alloc),
    };
    Ok(FolderAnswers { own, entries })
}

impl FolderAnswers {
    /// What stands for the answers of a folder that is not asked: not found, and no entries.
    fn of_unasked_folder(alloc: Global) -> FolderAnswers
        ensures own { answer_of result.own ≡ fault NotFound }
        ensures entries { result.entries.items ≡ [] }
    {
        FolderAnswers {
            own: Err(io::Error::from(ErrorKind::NotFound)),
            entries: Vec::new(alloc),
        }
    }

    /// Whether the answer of the folder or of one of its entries is a fault of the kind `OutOfMemory`.
    fn ran_out_of_memory(&self) -> bool
        ensures { result ≡ ran_out_of_memory self.now }
    {
        is_memory_fault(&self.own) || self.entries.iter().any(|answer| is_memory_fault(answer))
    }
}

impl Answers {
    /// What was answered at a folder of targets and at its entries.
    pub fn of(&self, folder: TargetFolder) -> &FolderAnswers
        ensures { result.now ≡ folder_answers self.now folder }
    {
        match folder {
            TargetFolder::Bins => &self.bins,
            TargetFolder::Examples => &self.examples,
            TargetFolder::Tests => &self.tests,
            TargetFolder::Benches => &self.benches,
        }
    }

    /// Whether a folder of targets or an entry of one was answered with a fault of the kind `OutOfMemory`; `src` and
    /// the folder of the manifest do not count.
    pub fn ran_out_of_memory(&self) -> bool
        ensures { result ≡ some_ran_out_of_memory self.now }
    {
        self.bins.ran_out_of_memory()
            | (self.examples.ran_out_of_memory()
                | (self.tests.ran_out_of_memory() | self.benches.ran_out_of_memory()))
    }
}

/// Asks at a folder of targets, as [`ask_folder`] does; where `stopped` is true (an answer before it ran out of
/// memory), asks nothing and returns `of_unasked_folder`.
fn ask_folder_unless<FS: AbstractFilesystem>(
    stopped: bool,
    alloc: Global,
    fs: &FS,
    folder: TargetFolder,
) -> Result<FolderAnswers, AllocError>
    ensures { IfOk result (λ answers. FolderIsAnswered
        (λ path answer. stopped ≡ false → FS.allows fs.now path answer) (folder_text folder)
        answers) }
{
    if stopped {
        return Ok(FolderAnswers::of_unasked_folder(alloc));
    }
    ask_folder(alloc, fs, folder.path())
}

/// Asks at `.`, the folder of the manifest, if `asks` is true; else returns that it is not found, and asks nothing.
fn ask_root_if<FS: AbstractFilesystem>(
    asks: bool,
    alloc: Global,
    fs: &FS,
) -> io::Result<BTreeSet<String>>
    ensures { IsAllowedAnswer
        (λ path answer. asks ≡ true → FS.allows fs.now path answer) (codes ".") (answer_of result) }
{
    if asks {
        ask(alloc, fs, ".")
    } else {
        Err(io::Error::from(ErrorKind::NotFound))
    }
}

/// Asks, after `src` was answered, at the folders of targets, at their entries and, where it is to be asked, at the
/// folder of the manifest, up to a first answer that ran out of memory.
pub fn ask_folders<FS: AbstractFilesystem>(
    alloc: Global,
    fs: &FS,
    source: io::Result<BTreeSet<String>>,
    asks_root: bool,
) -> Result<Answers, AllocError>
    requires { IsAllowedAnswer (FS.allows fs.now) (codes "src") (answer_of source) }
    ensures source { IfOk result (λ a. a.source ≡ source) }
    ensures answered { IfOk result (λ a. AllIsAnswered (FS.allows fs.now) asks_root a) }
{
    let bins = ask_folder_unless(false, alloc, fs, TargetFolder::Bins)?;
    let after_bins = bins.ran_out_of_memory();
    let examples = ask_folder_unless(after_bins, alloc, fs, TargetFolder::Examples)?;
    let after_examples = after_bins | examples.ran_out_of_memory();
    let tests = ask_folder_unless(after_examples, alloc, fs, TargetFolder::Tests)?;
    let after_tests = after_examples | tests.ran_out_of_memory();
    let benches = ask_folder_unless(after_tests, alloc, fs, TargetFolder::Benches)?;
    let after_benches = after_tests | benches.ran_out_of_memory();
    let root = ask_root_if(asks_root & !after_benches, alloc, fs);
    Ok(Answers {
        source,
        bins,
        examples,
        tests,
        benches,
        root,
    })
}
