//! Listings of folders, as a caller passes them in, and the filesystem that they are.

ghost use Rattle.std.specs.Prelude.{◌≡◌, IfOk, IfErr};
ghost use Rattle.std.specs.IoError.{error_kind};
ghost use Rattle.manifest_completion.specs.Answered.{set_names};
ghost use Rattle.manifest_completion.specs.Stored.{AnswersAsStored};
ghost use Rattle.manifest_answers.specs.Given.{texts, fault_kind, goes_before, folder_answer, given, given_by, AreNames, AreListings, listed_answer};
ghost use Rattle.manifest_answers.specs.Made.{RefusesUnless};

use crate::refusal::Refusal;
use cargo_manifest::AbstractFilesystem;
use std::alloc::Global;
use std::collections::{BTreeMap, BTreeSet};
use std::io;
use std::io::ErrorKind;

/// A folder, as a caller passes it in: its path, the names in it, and its fault, which is 0 where it has none, 1 where
/// it is not found, 2 where memory ran out, and otherwise any other number.
#[repr(C)]
#[derive(Clone, Copy)]
pub struct Folder<'a> {
    pub path: &'a [u8],
    pub names: &'a [&'a [u8]],
    pub fault: u8,
}

// as the other languages declare it: `scripts/library` compares the number
const _: () = prove!(size_of::<Folder<'static>>() == 40);

/// What a folder answers.
#[derive(Drop)]
pub enum Listed {
    /// These names.
    Names(BTreeSet<String>),
    /// A fault of this kind.
    Fault(ErrorKind),
}

/// The folders that a caller passed in, as a filesystem. What is not among them is not there.
#[derive(Drop)]
pub struct GivenFolders<'a> {
    pub(crate) by_path: BTreeMap<&'a str, Listed>,
}

/// The kind of I/O error that stands for the number of a folder's fault: 1 is `NotFound`, 2 is `OutOfMemory`, and any
/// other number is `Other`.
fn fault_kind(number: u8) -> ErrorKind
    ensures { result ≡ fault_kind number }
{
    if number == 1 {
        ErrorKind::NotFound
    } else if number == 2 {
        ErrorKind::OutOfMemory
    } else {
        ErrorKind::Other
    }
}

/// Whether a name is less, by bytes, than `least`, the least of some others; true where there are no others.
fn goes_before(name: &str, least: Option<&str>) -> bool
    ensures { result ≡ goes_before name.now least.entry }
{
    match least {
        Some(least) => name < least,
        None => true,
    }
}

/// The set of the names. Refuses names that do not ascend or are not UTF-8. It goes from the last to the first, so that
/// each goes before those that are there.
fn names_of(alloc: Global, given: &[&[u8]]) -> Result<BTreeSet<String>, Refusal>
    ensures ok { IfOk result (λ names. set_names names ≡ texts given.now) }
    ensures names { IfOk result (λ _. AreNames (texts given.now)) }
    ensures refused { IfErr result (RefusesUnless (AreNames (texts given.now))) }
{
    let mut names = BTreeSet::new(alloc);
    let mut least: Option<&str> = None;
    for name in given.iter().rev() {
        let Ok(name) = std::str::from_utf8(name) else {
            return Err(Refusal::Listings);
        };
        if !goes_before(name, least) {
            return Err(Refusal::Listings);
        }
        names.insert(String::from_str(alloc, name)?)?;
        least = Some(name);
    }
    Ok(names)
}

/// The names or the fault of a folder that was passed in. Refuses names that do not ascend or are not UTF-8.
fn answer_of(alloc: Global, folder: &Folder<'_>) -> Result<Listed, Refusal>
    ensures ok { IfOk result (λ listed. listed_answer listed ≡ folder_answer folder.now) }
    ensures names { IfOk result (λ _. AreNames (texts folder.now.names.now)) }
    ensures refused { IfErr result (RefusesUnless (AreNames (texts folder.now.names.now))) }
{
    let names = names_of(alloc, folder.names)?;
    if folder.fault == 0 {
        Ok(Listed::Names(names))
    } else {
        Ok(Listed::Fault(fault_kind(folder.fault)))
    }
}

impl<'a> GivenFolders<'a> {
    /// The filesystem of the folders. Refuses two folders of one path, a path that is not UTF-8, and wrong names. It
    /// goes from the last to the first.
    pub(crate) fn new(alloc: Global, folders: &'a [Folder<'a>]) -> Result<GivenFolders<'a>, Refusal>
        ensures ok { IfOk result (λ it. given_by it ≡ given folders.now) }
        ensures listings { IfOk result (λ _. AreListings folders.now) }
        ensures refused { IfErr result (RefusesUnless (AreListings folders.now)) }
    {
        let mut by_path = BTreeMap::new(alloc);
        for folder in folders.iter().rev() {
            let Ok(path) = std::str::from_utf8(folder.path) else {
                return Err(Refusal::Listings);
            };
            let listed = match answer_of(alloc, folder) {
                Ok(listed) => listed,
                Err(refusal) => return Err(refusal),
            };
            let had = by_path.insert(path, listed)?;
            if had.is_some() {
                return Err(Refusal::Listings);
            }
        }
        Ok(GivenFolders { by_path })
    }
}

/// Answers what was passed in for the path, and `NotFound` for a path that no folder has.
impl AbstractFilesystem for GivenFolders<'_> {
    ghost allows = { λ it path answer. AnswersAsStored (given_by it) path answer };

    fn file_names_in(&self, _alloc: Global, rel_path: &str) -> io::Result<BTreeSet<String>> {
        match self.by_path.get(rel_path) {
            None => Err(io::Error::from(ErrorKind::NotFound)),
            Some(Listed::Fault(kind)) => Err(io::Error::from(*kind)),
            Some(Listed::Names(names)) => Ok(names.clone()?),
        }
    }
}
