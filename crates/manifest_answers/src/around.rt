//! What a caller says of the files around a manifest that is checked.

ghost use Rattle.std.specs.Prelude.{◌≡◌, IfOk, IfErr, IsUtf8};
ghost use Rattle.std.specs.List.{AllByRecursion};
ghost use Rattle.manifest_answers.specs.Given.{AreListings};
ghost use Rattle.manifest_answers.specs.Made.{RefusesUnless};
ghost use Rattle.manifest_answers.specs.Checked.{IsMemberText, IsPackageText, IsRootGiven, IsConfigGiven, AreFoldersGiven, IsAccepted, RefusesRoot, RefusesConfiguration, RefusesAround};
ghost use Rattle.manifest_answers.specs.Edited.{RefusesUnlessText};

use crate::folders::{Folder, GivenFolders, Listed};
use crate::reading::document;
use crate::refusal::Refusal;
use manifest_lint::{Document, Unread, asked_folders};
use manifest_rules::{Folders, Member, PathPackage, Root, Surroundings, member_of, unread_member};
use std::alloc::{AllocError, Global};
use std::collections::{BTreeMap, BTreeSet};
use std::io::ErrorKind;
use toml::Table;

/// A member of the workspace whose root is checked, as a caller passes it in: the path of its folder from that of the
/// root, the bytes of its `Cargo.toml`, and the indexes of the patterns of `workspace.members` that lead to it: none where
/// a `path` dependency does. With `has_manifest` 0 its folder has no `Cargo.toml`.
#[repr(C)]
#[derive(Clone, Copy)]
pub struct GivenMember<'a> {
    pub path: &'a [u8],
    pub bytes: &'a [u8],
    pub patterns: &'a [usize],
    pub has_manifest: u8,
}

// as the other languages declare it: `scripts/library` compares the number
const _: () = prove!(size_of::<GivenMember<'static>>() == 56);

/// A package to which the `path` of a dependency leads, as a caller passes it in: that path as it is written, and the name
/// of the package there. With `has_name` 0 there is none.
#[repr(C)]
#[derive(Clone, Copy)]
pub struct GivenPackage<'a> {
    pub path: &'a [u8],
    pub name: &'a [u8],
    pub has_name: u8,
}

// as the other languages declare it: `scripts/library` compares the number
const _: () = prove!(size_of::<GivenPackage<'static>>() == 40);

/// What a program asks to be checked, and what it knows of the files around it. What is not known is 0 or empty, and the
/// rules that need it say nothing.
#[repr(C)]
#[derive(Clone, Copy)]
pub struct CheckRequest<'a> {
    /// The bytes of the `Cargo.toml`.
    pub bytes: &'a [u8],
    /// Those of the workspace's root. They are not looked at where the manifest is a root itself.
    pub root: &'a [u8],
    /// Those of the configuration of Cargo.
    pub config: &'a [u8],
    pub folders: &'a [Folder<'a>],
    pub members: &'a [GivenMember<'a>],
    pub packages: &'a [GivenPackage<'a>],
    pub most: usize,
    /// 0: nobody looked for a root; 1: it is `root`; another number: there is none.
    pub has_root: u8,
    /// 0: it is not known whether the root lists the package or excludes it; 1: it does; another number: it does neither.
    pub is_listed: u8,
    pub has_config: u8,
    pub has_folders: u8,
    pub has_members: u8,
    pub has_packages: u8,
    /// Whether to say what a registry wants.
    pub publishes: u8,
}

// as the other languages declare it: `scripts/library` compares the number
const _: () = prove!(size_of::<CheckRequest<'static>>() == 112);

/// The documents and the listings that a caller passed in.
#[derive(Drop)]
pub(crate) struct Around {
    root: Option<Table>,
    config: Option<Table>,
    folders: Option<Folders>,
    members: Option<Vec<Member>>,
    packages: Option<Vec<PathPackage>>,
}

/// The text of a path or of a name.
fn text_given(bytes: &[u8]) -> Result<&str, Refusal>
    ensures ok { IfOk result (λ t. (t.now ≡ bytes.now) × IsUtf8 bytes.now) }
    ensures refused { IfErr result (RefusesUnlessText (IsUtf8 bytes.now)) }
{
    match std::str::from_utf8(bytes) {
        Ok(text) => Ok(text),
        Err(_) => Err(Refusal::NotText),
    }
}

/// Whether the manifest with this document is that of a workspace's root.
pub(crate) fn is_root(document: &Table) -> bool {
    document.contains_key("workspace")
}

/// The table of the root's document.
fn root_given(alloc: Global, request: &CheckRequest<'_>) -> Result<Option<Table>, Refusal>
    ensures ok { IfOk result (IsRootGiven request.now) }
    ensures refused { IfErr result (RefusesRoot request.now.root.now) }
{
    if request.has_root != 1 {
        return Ok(None);
    }
    match document(alloc, request.root) {
        Ok(table) => Ok(Some(table)),
        Err(refused) => Err(Refusal::Root(refused)),
    }
}

/// The table of the configuration.
fn config_given(alloc: Global, request: &CheckRequest<'_>) -> Result<Option<Table>, Refusal>
    ensures ok { IfOk result (IsConfigGiven request.now) }
    ensures refused { IfErr result (RefusesConfiguration request.now.config.now) }
{
    if request.has_config == 0 {
        return Ok(None);
    }
    match Document::read(alloc, request.config) {
        Ok(Document { table, .. }) => Ok(Some(table)),
        Err(Unread::Memory(refused)) => Err(Refusal::Memory(refused)),
        Err(_) => Err(Refusal::Configuration),
    }
}

/// The path of a folder as the rules have it: that of the manifest itself is the empty text.
fn plain(path: &str) -> &str {
    if path == "." { "" } else { path }
}

/// Notes a folder: its names, where it was listed.
fn note_folder(
    alloc: Global,
    path: &str,
    listed: Listed,
    known: &mut Folders,
) -> Result<(), AllocError> {
    let path = String::from_str(alloc, path)?;
    if let Listed::Names(names) = listed {
        known.names.insert(path.clone()?, names)?;
    }
    known.asked.insert(path)?;
    Ok(())
}

/// The folders of which nothing is known, since they have another fault than that they are not there.
fn unknown_folders(
    alloc: Global,
    given: &GivenFolders<'_>,
) -> Result<BTreeSet<String>, AllocError> {
    let mut paths = BTreeSet::new(alloc);
    for (path, listed) in &given.by_path {
        match listed {
            Listed::Names(_) | Listed::Fault(ErrorKind::NotFound) => {}
            Listed::Fault(_) => {
                paths.insert(String::from_str(alloc, plain(path))?)?;
            }
        }
    }
    Ok(paths)
}

/// Notes of all folders that the rules look for, and that are not among those that are known, that they are not there; but
/// not of those of which nothing is known.
fn note_absent(
    alloc: Global,
    document: &Table,
    unknown: &BTreeSet<String>,
    known: &mut Folders,
) -> Result<(), AllocError> {
    for folder in asked_folders(alloc, document, known)? {
        if !unknown.contains(folder.as_str()) {
            known.asked.insert(folder)?;
        }
    }
    Ok(())
}

/// The names in folders. A path that no folder has is not there.
fn folders_of(
    alloc: Global,
    document: &Table,
    given: GivenFolders<'_>,
) -> Result<Folders, AllocError> {
    let unknown = unknown_folders(alloc, &given)?;
    let mut known = Folders {
        names: BTreeMap::new(alloc),
        asked: BTreeSet::new(alloc),
    };
    let GivenFolders { by_path } = given;
    for (path, listed) in by_path {
        let path = plain(path);
        if !unknown.contains(path) {
            note_folder(alloc, path, listed, &mut known)?;
        }
    }
    note_absent(alloc, document, &unknown, &mut known)?;
    Ok(known)
}

/// The folders, where any are passed in.
fn folders_given(
    alloc: Global,
    document: &Table,
    request: &CheckRequest<'_>,
) -> Result<Option<Folders>, Refusal>
    ensures ok { IfOk result (AreFoldersGiven request.now) }
    ensures refused { IfErr result (RefusesUnless (AreListings request.now.folders.now)) }
{
    if request.has_folders == 0 {
        return Ok(None);
    }
    match GivenFolders::new(alloc, request.folders) {
        Ok(given) => Ok(Some(folders_of(alloc, document, given)?)),
        Err(refused) => Err(refused),
    }
}

/// A member with the text of its path, of a root with this document.
fn member_at(
    alloc: Global,
    path: &str,
    given: &GivenMember<'_>,
    root: &Table,
) -> Result<Member, AllocError> {
    let patterns = given.patterns;
    if given.has_manifest == 0 {
        return unread_member(alloc, path, patterns, false);
    }
    match Document::read(alloc, given.bytes) {
        Ok(document) => {
            let member = member_of(alloc, path, patterns, &document.table, Root::Found(root));
            drop(document);
            member
        }
        Err(Unread::Memory(refused)) => Err(refused),
        Err(_) => unread_member(alloc, path, patterns, true),
    }
}

fn member_given(alloc: Global, given: &GivenMember<'_>, root: &Table) -> Result<Member, Refusal>
    ensures ok { IfOk result (λ _. IsMemberText given.now) }
    ensures refused { IfErr result (RefusesUnlessText (IsMemberText given.now)) }
{
    match text_given(given.path) {
        Ok(path) => Ok(member_at(alloc, path, given, root)?),
        Err(refused) => Err(refused),
    }
}

/// The members, where any are passed in.
fn members_given(
    alloc: Global,
    given: &[GivenMember<'_>],
    root: &Table,
) -> Result<Vec<Member>, Refusal>
    ensures ok { IfOk result (λ _. AllByRecursion IsMemberText given.now) }
    ensures refused { IfErr result (RefusesUnlessText (AllByRecursion IsMemberText given.now)) }
{
    let mut members = Vec::new(alloc);
    for member in given {
        let member = match member_given(alloc, member, root) {
            Ok(member) => member,
            Err(refused) => return Err(refused),
        };
        members.push(member)?;
    }
    Ok(members)
}

fn package_given(alloc: Global, given: &GivenPackage<'_>) -> Result<PathPackage, Refusal>
    ensures ok { IfOk result (λ _. IsPackageText given.now) }
    ensures refused { IfErr result (RefusesUnlessText (IsPackageText given.now)) }
{
    let path = text_given(given.path)?;
    let name = text_given(given.name)?;
    Ok(PathPackage {
        path: String::from_str(alloc, path)?,
        name: if given.has_name == 0 {
            None
        } else {
            Some(String::from_str(alloc, name)?)
        },
    })
}

/// The packages, where any are passed in.
fn packages_given(alloc: Global, given: &[GivenPackage<'_>]) -> Result<Vec<PathPackage>, Refusal>
    ensures ok { IfOk result (λ _. AllByRecursion IsPackageText given.now) }
    ensures refused { IfErr result (RefusesUnlessText (AllByRecursion IsPackageText given.now)) }
{
    let mut packages = Vec::new(alloc);
    for package in given {
        let package = match package_given(alloc, package) {
            Ok(package) => package,
            Err(refused) => return Err(refused),
        };
        packages.push(package)?;
    }
    Ok(packages)
}

impl Around {
    /// What is around a manifest with this document. Refuses a root or a configuration that is no document, folders that
    /// are no listings, and paths and names that are not UTF-8.
    pub(crate) fn new(
        alloc: Global,
        document: &Table,
        request: &CheckRequest<'_>,
    ) -> Result<Around, Refusal>
        ensures ok { IfOk result (λ _. IsAccepted request.now) }
        ensures refused { IfErr result (RefusesAround request.now) }
    {
        let root = if is_root(document) {
            None
        } else {
            root_given(alloc, request)?
        };
        let config = config_given(alloc, request)?;
        let folders = folders_given(alloc, document, request)?;
        let members = if request.has_members == 0 {
            None
        } else {
            Some(members_given(alloc, request.members, document)?)
        };
        let packages = if request.has_packages == 0 {
            None
        } else {
            Some(packages_given(alloc, request.packages)?)
        };
        Ok(Around {
            root,
            config,
            folders,
            members,
            packages,
        })
    }

    /// The same as the rules look at it. A manifest with a workspace is the root itself.
    pub(crate) fn surroundings<'a>(
        &'a self,
        document: &'a Table,
        request: &CheckRequest<'_>,
    ) -> Surroundings<'a> {
        let is_root = is_root(document);
        Surroundings {
            root: match &self.root {
                _ if is_root => Root::Found(document),
                Some(root) => Root::Found(root),
                None if request.has_root == 0 => Root::Unknown,
                None => Root::Missing,
            },
            is_root,
            is_listed: match request.is_listed {
                0 => None,
                number => Some(number == 1),
            },
            folders: self.folders.as_ref(),
            packages: self.packages.as_ref().map(|packages| packages.as_slice()),
            members: self.members.as_ref().map(|members| members.as_slice()),
            config: self.config.as_ref(),
            publishes: request.publishes != 0,
        }
    }
}
