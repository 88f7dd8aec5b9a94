//! The members of a workspace.

use crate::dependencies::{inherited_from, push_folders};
use crate::files::{Reader, names_in};
use crate::paths::{MANIFEST, below, folder_of, join, names_of, resolved};
use crate::patterns::{is_pattern, matches_name, matches_path};
use crate::tables::{items_in, table_in, text_of};
use manifest_lint::Document;
use manifest_rules::{Member, Root, member_of, unread_member};
use std::alloc::{AllocError, Global};
use std::collections::BTreeMap;
use std::rt::Files;
use toml::Table;

/// The members of a root.
#[derive(Drop)]
pub struct Members {
    pub(crate) all: Vec<Member>,
    /// The path of the manifest of each of them.
    pub manifests: Vec<String>,
    /// Their folders, each with the index of its member.
    folders: BTreeMap<String, usize>,
}

impl Members {
    /// Whether the folder is that of a member.
    pub(crate) fn has(&self, folder: &str) -> bool {
        self.folders.contains_key(folder)
    }

    /// Notes that a pattern leads to the member in a folder, where there is one. It says whether there is.
    fn note_pattern(&mut self, folder: &str, pattern: Option<usize>) -> Result<bool, AllocError> {
        let Some(index) = self.folders.get(folder).copied() else {
            return Ok(false);
        };
        if let (Some(member), Some(pattern)) = (self.all.get_mut(index), pattern) {
            member.patterns.push(pattern)?;
        }
        Ok(true)
    }

    /// Notes a member in a folder.
    fn push(&mut self, alloc: Global, folder: &str, member: Member) -> Result<(), AllocError> {
        self.push_folder(alloc, folder)?;
        self.all.push(member)?;
        Ok(())
    }

    /// Notes the folder of the next member, and the path of its manifest.
    fn push_folder(&mut self, alloc: Global, folder: &str) -> Result<(), AllocError> {
        let index = self.all.len();
        self.folders
            .insert(String::from_str(alloc, folder)?, index)?;
        self.manifests.push(join(alloc, folder, MANIFEST)?)?;
        Ok(())
    }
}

/// Whether some path of the list is the folder, or above it.
fn is_under_one(
    alloc: Global,
    root: &str,
    workspace: &Table,
    key: &str,
    folder: &str,
) -> Result<bool, AllocError> {
    for value in items_in(workspace, key) {
        if let Some(path) = text_of(value) {
            let listed = resolved(alloc, root, path)?;
            if below(folder, listed.as_str()).is_some() {
                return Ok(true);
            }
        }
    }
    Ok(false)
}

/// Whether a root in this folder leaves a folder out: `exclude` has it, or one above it, and `members` does not.
pub(crate) fn is_excluded(
    alloc: Global,
    root: &str,
    document: &Table,
    folder: &str,
) -> Result<bool, AllocError> {
    let Some(workspace) = table_in(document, "workspace") else {
        return Ok(false);
    };
    if is_under_one(alloc, root, workspace, "members", folder)? {
        return Ok(false);
    }
    is_under_one(alloc, root, workspace, "exclude", folder)
}

/// Whether a pattern, from a root in this folder, means the folder with these names.
fn is_meant(alloc: Global, root: &str, path: &str, names: &[&str]) -> Result<bool, AllocError> {
    let pattern = resolved(alloc, root, path)?;
    let parts = names_of(alloc, pattern.as_str())?;
    matches_path(alloc, parts.as_slice(), names)
}

/// Whether a pattern of `members` means the folder.
pub(crate) fn is_matched(
    alloc: Global,
    root: &str,
    document: &Table,
    folder: &str,
) -> Result<bool, AllocError> {
    let Some(workspace) = table_in(document, "workspace") else {
        return Ok(false);
    };
    let names = names_of(alloc, folder)?;
    for value in items_in(workspace, "members") {
        if let Some(path) = text_of(value) {
            if is_meant(alloc, root, path, names.as_slice())? {
                return Ok(true);
            }
        }
    }
    Ok(false)
}

/// Gathers the folder with a name in another, where a pattern means the name.
fn push_matching(
    alloc: Global,
    folder: &str,
    name: &str,
    pattern: &str,
    next: &mut Vec<String>,
) -> Result<(), AllocError> {
    if matches_name(alloc, pattern, name)? {
        next.push(join(alloc, folder, name)?)?;
    }
    Ok(())
}

/// Gathers the folders in a folder whose names a pattern means, or the one that has this name.
fn push_narrowed<H: Files + AllocGlobal + Clone + Drop>(
    rt: &H,
    folder: &str,
    pattern: &str,
    next: &mut Vec<String>,
) -> Result<(), AllocError> {
    let alloc = rt.alloc();
    if !is_pattern(pattern) {
        next.push(join(alloc, folder, pattern)?)?;
        return Ok(());
    }
    let mut names = names_in(rt, folder)?.unwrap_or(Vec::new(alloc));
    names.sort_unstable();
    for name in &names {
        push_matching(alloc, folder, name.as_str(), pattern, next)?;
    }
    Ok(())
}

/// The folders in some folders whose names a pattern means, or that have this name.
fn narrowed<H: Files + AllocGlobal + Clone + Drop>(
    rt: &H,
    folders: &[String],
    pattern: &str,
) -> Result<Vec<String>, AllocError> {
    let mut next = Vec::new(rt.alloc());
    for folder in folders {
        push_narrowed(rt, folder.as_str(), pattern, &mut next)?;
    }
    Ok(next)
}

/// The folders whose paths have these names, of which some are patterns.
fn folders_by<H: Files + AllocGlobal + Clone + Drop>(
    rt: &H,
    parts: &[&str],
) -> Result<Vec<String>, AllocError> {
    let alloc = rt.alloc();
    let mut folders = Vec::new(alloc);
    folders.push(String::from_str(alloc, "/")?)?;
    for part in parts {
        folders = narrowed(rt, folders.as_slice(), *part)?;
    }
    Ok(folders)
}

/// The folders that a pattern means.
fn expanded<H: Files + AllocGlobal + Clone + Drop>(
    rt: &H,
    root: &str,
    pattern: &str,
) -> Result<Vec<String>, AllocError> {
    let alloc = rt.alloc();
    let whole = resolved(alloc, root, pattern)?;
    let parts = names_of(alloc, whole.as_str())?;
    folders_by(rt, parts.as_slice())
}

/// What is gathered of the members of a root.
#[derive(Drop)]
struct Gathering {
    members: Members,
    /// The folders to which dependencies lead.
    next: Vec<String>,
}

/// The root whose members are gathered: its folder, and its document.
#[derive(Clone, Copy)]
struct Workspace<'a> {
    root: &'a str,
    document: &'a Table,
}

/// Whether there is a manifest in a folder.
fn has_manifest<H: Files + AllocGlobal>(
    rt: &H,
    reader: &Reader,
    folder: &str,
) -> Result<bool, AllocError> {
    let manifest = join(rt.alloc(), folder, MANIFEST)?;
    Ok(reader.is_file(rt, manifest.as_str()))
}

/// The document of the manifest in a folder, where it can be read.
fn document_in<H: Files + AllocGlobal>(
    rt: &H,
    reader: &Reader,
    folder: &str,
) -> Result<Option<Document>, AllocError> {
    let alloc = rt.alloc();
    let manifest = join(alloc, folder, MANIFEST)?;
    reader.document(rt, manifest.as_str())
}

/// What the manifest in a folder says of a member. The folders to which its dependencies lead are gathered.
fn member_in<H: Files + AllocGlobal>(
    rt: &H,
    reader: &Reader,
    workspace: Workspace<'_>,
    folder: &str,
    pattern: Option<usize>,
    next: &mut Vec<String>,
) -> Result<Member, AllocError> {
    let alloc = rt.alloc();
    let Workspace { root, document } = workspace;
    let path = below(folder, root).unwrap_or(folder);
    let patterns = pattern.as_slice();
    match document_in(rt, reader, folder)? {
        Some(read) => {
            let inherited = inherited_from(root, document);
            push_folders(alloc, folder, &read.table, inherited, next)?;
            member_of(alloc, path, patterns, &read.table, Root::Found(document))
        }
        None => unread_member(alloc, path, patterns, true),
    }
}

/// Notes the package in a folder as a member, if it is not one yet and has a manifest. The manifest is read, and not kept.
fn note_member<H: Files + AllocGlobal>(
    rt: &H,
    reader: &Reader,
    workspace: Workspace<'_>,
    folder: &str,
    pattern: Option<usize>,
    gathering: &mut Gathering,
) -> Result<(), AllocError> {
    if gathering.members.note_pattern(folder, pattern)? || !has_manifest(rt, reader, folder)? {
        return Ok(());
    }
    let member = member_in(rt, reader, workspace, folder, pattern, &mut gathering.next)?;
    gathering.members.push(rt.alloc(), folder, member)
}

/// Notes a folder that a pattern fits, and that has no manifest.
fn note_bare<H: Files + AllocGlobal + Clone + Drop>(
    rt: &H,
    reader: &Reader,
    root: &str,
    folder: &str,
    pattern: usize,
    gathering: &mut Gathering,
) -> Result<(), AllocError> {
    if gathering.members.has(folder)
        || has_manifest(rt, reader, folder)?
        || names_in(rt, folder)?.is_none()
    {
        return Ok(());
    }
    let path = below(folder, root).unwrap_or(folder);
    let member = unread_member(rt.alloc(), path, &[pattern], false)?;
    gathering.members.push(rt.alloc(), folder, member)
}

/// Whether a folder below a root can be that of a member: it is another one, and is not left out.
fn can_be_member(
    alloc: Global,
    workspace: Workspace<'_>,
    folder: &str,
) -> Result<bool, AllocError> {
    let Workspace { root, document } = workspace;
    Ok(folder != root && !is_excluded(alloc, root, document, folder)?)
}

/// Notes the members that a pattern leads to.
fn note_matches<H: Files + AllocGlobal + Clone + Drop>(
    rt: &H,
    reader: &Reader,
    workspace: Workspace<'_>,
    pattern: &str,
    index: usize,
    gathering: &mut Gathering,
) -> Result<(), AllocError> {
    for folder in &expanded(rt, workspace.root, pattern)? {
        let folder = folder.as_str();
        if can_be_member(rt.alloc(), workspace, folder)? {
            note_member(rt, reader, workspace, folder, Some(index), gathering)?;
            if is_pattern(pattern) {
                note_bare(rt, reader, workspace.root, folder, index, gathering)?;
            }
        }
    }
    Ok(())
}

/// Notes the members that patterns lead to.
fn note_patterns<H: Files + AllocGlobal + Clone + Drop>(
    rt: &H,
    reader: &Reader,
    workspace: Workspace<'_>,
    gathering: &mut Gathering,
) -> Result<(), AllocError> {
    let Some(table) = table_in(workspace.document, "workspace") else {
        return Ok(());
    };
    for (index, value) in items_in(table, "members").iter().enumerate() {
        if let Some(pattern) = text_of(value) {
            note_matches(rt, reader, workspace, pattern, index, gathering)?;
        }
    }
    Ok(())
}

/// Notes the member that a dependency leads to, where it is below the root.
fn note_dependent<H: Files + AllocGlobal>(
    rt: &H,
    reader: &Reader,
    workspace: Workspace<'_>,
    folder: &str,
    gathering: &mut Gathering,
) -> Result<(), AllocError> {
    let is_inside = below(folder, workspace.root).is_some();
    if is_inside && can_be_member(rt.alloc(), workspace, folder)? {
        note_member(rt, reader, workspace, folder, None, gathering)?;
    }
    Ok(())
}

/// Notes the members that dependencies lead to, and those that their dependencies do.
fn note_dependents<H: Files + AllocGlobal>(
    rt: &H,
    reader: &Reader,
    workspace: Workspace<'_>,
    gathering: &mut Gathering,
) -> Result<(), AllocError> {
    for _ in 0..u64::MAX {
        let Some(folder) = gathering.next.pop() else {
            return Ok(());
        };
        note_dependent(rt, reader, workspace, folder.as_str(), gathering)?;
    }
    Ok(())
}

/// Notes all members of a root.
fn note_all<H: Files + AllocGlobal + Clone + Drop>(
    rt: &H,
    reader: &Reader,
    workspace: Workspace<'_>,
    gathering: &mut Gathering,
) -> Result<(), AllocError> {
    let Workspace { root, document } = workspace;
    let inherited = inherited_from(root, document);
    push_folders(rt.alloc(), root, document, inherited, &mut gathering.next)?;
    note_patterns(rt, reader, workspace, gathering)?;
    note_dependents(rt, reader, workspace, gathering)
}

/// The members of the root with this manifest: what the patterns of `members` mean, and the packages below its folder to
/// which `path` dependencies of the root and of members lead. Each manifest is read, and not kept.
pub(crate) fn members_of<H: Files + AllocGlobal + Clone + Drop>(
    rt: &H,
    reader: &Reader,
    manifest: &str,
    document: &Document,
) -> Result<Members, AllocError> {
    let alloc = rt.alloc();
    let mut gathering = Gathering {
        members: Members {
            all: Vec::new(alloc),
            manifests: Vec::new(alloc),
            folders: BTreeMap::new(alloc),
        },
        next: Vec::new(alloc),
    };
    let workspace = Workspace {
        root: folder_of(manifest),
        document: &document.table,
    };
    note_all(rt, reader, workspace, &mut gathering)?;
    let Gathering { members, .. } = gathering;
    Ok(members)
}
