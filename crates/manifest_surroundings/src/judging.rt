//! A manifest in its surroundings, and what is said of it.

use crate::config::Configs;
use crate::files::{Reader, Unread, names_in};
use crate::levels::Levels;
use crate::members::Members;
use crate::packages::PackageNames;
use crate::paths::{folder_of, join, opened};
use crate::roots::{FoundRoot, KeptRoot, Roots};
use crate::scope::Scope;
use crate::tables::table_in;
use manifest_lint::{Diagnostic, Document, Input, asked_folders, diagnostics};
use manifest_rules::{Folders, PathPackage, Root, Surroundings};
use std::alloc::{AllocError, Global};
use std::collections::{BTreeMap, BTreeSet};
use std::rt::Files;

/// What reads files, and what is kept from one manifest to the next: the last root, the last configuration, and the names
/// of packages.
#[derive(Drop)]
pub struct State {
    pub reader: Reader,
    pub(crate) roots: Roots,
    configs: Configs,
    packages: PackageNames,
}

impl State {
    /// Nothing is known yet; files are read by this reader.
    pub fn new(alloc: Global, reader: Reader) -> State {
        State {
            reader,
            roots: Roots::new(alloc),
            configs: Configs::new(alloc),
            packages: PackageNames::new(alloc),
        }
    }

    /// Forgets what was read, so that it is read anew.
    pub fn forget(&mut self, alloc: Global) {
        self.roots = Roots::new(alloc);
        self.configs = Configs::new(alloc);
        self.packages = PackageNames::new(alloc);
    }

    /// The next configuration that cannot be read, and of which nothing was said yet.
    pub fn next_unread(&mut self) -> Option<Unread> {
        self.configs.next_unread()
    }
}

/// A manifest, and where its root is. The document of a root itself is kept as the last root.
#[derive(Drop)]
pub struct Placed {
    own: Option<Document>,
    root: FoundRoot,
}

/// What was gathered around a manifest.
#[derive(Drop)]
struct Gathered {
    folders: Folders,
    packages: Vec<PathPackage>,
    is_listed: Option<bool>,
}

impl Placed {
    /// The document of the manifest.
    pub fn document<'a>(&'a self, state: &'a State) -> Option<&'a Document> {
        match &self.own {
            Some(document) => Some(document),
            None => state.roots.kept().map(|kept| &kept.document),
        }
    }

    /// Whether the manifest is a root itself.
    pub fn is_root(&self) -> bool {
        matches!(&self.root, FoundRoot::Own)
    }

    /// The root of the manifest, where it is another manifest that could be read.
    pub fn other_root<'a>(&self, state: &'a State) -> Option<&'a KeptRoot> {
        match &self.root {
            FoundRoot::Kept => state.roots.kept(),
            _ => None,
        }
    }

    /// The members of the manifest, where it is a root.
    pub fn members<'a>(&self, state: &'a State) -> Option<&'a Members> {
        if self.is_root() {
            state.roots.kept()?.members.as_ref()
        } else {
            None
        }
    }

    /// What the rules learn of the root.
    fn root<'a>(&'a self, state: &'a State) -> Root<'a> {
        match (&self.root, state.roots.kept()) {
            (FoundRoot::Unknown, _) => Root::Unknown,
            (FoundRoot::Unreadable(path), _) => Root::Unreadable(path.as_str()),
            (FoundRoot::Own | FoundRoot::Kept, Some(kept)) => Root::Found(&kept.document.table),
            _ => Root::Missing,
        }
    }
}

/// Finds the root of a manifest with an absolute path. Of a root itself the members are gathered.
pub fn place<H: Files + AllocGlobal + Clone + Drop>(
    rt: &H,
    scope: &Scope,
    state: &mut State,
    path: &str,
    document: Document,
) -> Result<Placed, AllocError> {
    let is_root = table_in(&document.table, "workspace").is_some();
    if is_root {
        state
            .roots
            .keep(String::from_str(rt.alloc(), path)?, document);
        if scope.uses_workspace {
            state.roots.gather(rt, &state.reader)?;
        }
        return Ok(Placed {
            own: None,
            root: FoundRoot::Own,
        });
    }
    let root = if scope.uses_workspace {
        state.roots.find(rt, &state.reader, path, &document)?
    } else {
        FoundRoot::Unknown
    };
    Ok(Placed {
        own: Some(document),
        root,
    })
}

/// The names in a folder; `None` where it cannot be listed.
fn listed<H: Files + AllocGlobal + Clone + Drop>(
    rt: &H,
    folder: &str,
) -> Result<Option<BTreeSet<String>>, AllocError> {
    let Some(found) = names_in(rt, opened(folder))? else {
        return Ok(None);
    };
    let mut names = BTreeSet::new(rt.alloc());
    for name in found {
        names.insert(name)?;
    }
    Ok(Some(names))
}

/// The names in a folder that is below another; `None` where it cannot be listed.
fn listed_below<H: Files + AllocGlobal + Clone + Drop>(
    rt: &H,
    folder: &str,
    asked: &str,
) -> Result<Option<BTreeSet<String>>, AllocError> {
    let path = join(rt.alloc(), folder, asked)?;
    listed(rt, path.as_str())
}

/// Notes the names in a folder that the rules want.
fn note_folder<H: Files + AllocGlobal + Clone + Drop>(
    rt: &H,
    folder: &str,
    asked: &str,
    known: &mut Folders,
) -> Result<(), AllocError> {
    let alloc = rt.alloc();
    known.asked.insert(String::from_str(alloc, asked)?)?;
    if let Some(found) = listed_below(rt, folder, asked)? {
        known.names.insert(String::from_str(alloc, asked)?, found)?;
    }
    Ok(())
}

/// Notes the names in the folders that the rules want next.
fn note_folders<H: Files + AllocGlobal + Clone + Drop>(
    rt: &H,
    folder: &str,
    document: &Document,
    known: &mut Folders,
) -> Result<(), AllocError> {
    for asked in asked_folders(rt.alloc(), &document.table, known)? {
        note_folder(rt, folder, asked.as_str(), known)?;
    }
    Ok(())
}

/// The names in the folders that the rules want.
fn folders_of<H: Files + AllocGlobal + Clone + Drop>(
    rt: &H,
    folder: &str,
    document: &Document,
) -> Result<Folders, AllocError> {
    let alloc = rt.alloc();
    let mut known = Folders {
        names: BTreeMap::new(alloc),
        asked: BTreeSet::new(alloc),
    };
    // the folders first, and then those that stand in them
    for _ in 0..2 {
        note_folders(rt, folder, document, &mut known)?;
    }
    Ok(known)
}

/// Reads the configuration for a folder, where it is not the one that is kept.
fn load_config<H: Files + AllocGlobal>(
    rt: &H,
    scope: &Scope,
    state: &mut State,
    folder: &str,
) -> Result<(), AllocError> {
    match &scope.config {
        Some(path) => state.configs.load_file(rt, &state.reader, path.as_str()),
        None if scope.uses_config => state.configs.load(rt, &state.reader, folder),
        None => Ok(()),
    }
}

/// Gathers what is around a manifest in this folder.
fn gather<H: Files + AllocGlobal + Clone + Drop>(
    rt: &H,
    scope: &Scope,
    state: &mut State,
    folder: &str,
    placed: &Placed,
) -> Result<Option<Gathered>, AllocError> {
    let is_listed = match &placed.root {
        FoundRoot::Kept => Some(state.roots.lists(rt, &state.reader, folder)?),
        _ => None,
    };
    load_config(rt, scope, state, folder)?;
    let document = match (&placed.own, state.roots.kept()) {
        (Some(document), _) => document,
        (None, Some(kept)) => &kept.document,
        (None, None) => return Ok(None),
    };
    Ok(Some(Gathered {
        folders: folders_of(rt, folder, document)?,
        packages: state.packages.of(rt, &state.reader, folder, document)?,
        is_listed,
    }))
}

/// What the rules learn of what is around a manifest.
fn surroundings<'a>(
    scope: &Scope,
    state: &'a State,
    placed: &'a Placed,
    gathered: &'a Gathered,
) -> Surroundings<'a> {
    let members = placed.members(state).map(|members| members.all.as_slice());
    Surroundings {
        root: placed.root(state),
        is_root: placed.is_root(),
        is_listed: gathered.is_listed,
        folders: Some(&gathered.folders),
        packages: Some(gathered.packages.as_slice()),
        members,
        config: state.configs.kept(),
        publishes: scope.publishes,
    }
}

/// The settings of codes for a manifest: those of the words count before those of the package's metadata, and these before
/// those of the workspace's.
fn levels_for(
    alloc: Global,
    scope: &Scope,
    state: &State,
    placed: &Placed,
    document: &Document,
) -> Result<Levels, AllocError> {
    let mut levels = Levels::new(alloc);
    if let Some(root) = placed.other_root(state) {
        levels.set_by_metadata(alloc, table_in(&root.document.table, "workspace"))?;
    }
    levels.set_by_metadata(alloc, table_in(&document.table, "workspace"))?;
    levels.set_by_metadata(alloc, table_in(&document.table, "package"))?;
    for word in &scope.levels {
        levels.set(alloc, word.name.as_str(), word.setting)?;
    }
    Ok(levels)
}

/// What the rules say of a document; of suggestions also what they replace, if that is to be shown.
pub(crate) fn said(
    alloc: Global,
    document: &Document,
    around: &Surroundings<'_>,
    root_text: Option<&str>,
    shows_edits: bool,
) -> Result<Vec<Diagnostic>, AllocError> {
    let input = Input {
        document,
        around,
        root_text,
        shows_edits,
    };
    let found = diagnostics(alloc, &input);
    let Input {
        document: _,
        around: _,
        root_text: _,
        shows_edits: _,
    } = input;
    found
}

/// What the rules say of a manifest, by what was gathered around it.
fn said_of(
    alloc: Global,
    scope: &Scope,
    state: &State,
    placed: &Placed,
    gathered: &Gathered,
    shows_edits: bool,
) -> Result<Vec<Diagnostic>, AllocError> {
    let Some(document) = placed.document(state) else {
        return Ok(Vec::new(alloc));
    };
    let around = surroundings(scope, state, placed, gathered);
    let root_text = placed
        .other_root(state)
        .map(|root| root.document.text.as_str());
    said(alloc, document, &around, root_text, shows_edits)
}

/// What the rules say of a manifest with all that is around it, at the levels of the rules.
fn found_around<H: Files + AllocGlobal + Clone + Drop>(
    rt: &H,
    scope: &Scope,
    state: &mut State,
    path: &str,
    placed: &Placed,
    shows_edits: bool,
) -> Result<Vec<Diagnostic>, AllocError> {
    let alloc = rt.alloc();
    match gather(rt, scope, state, folder_of(path), placed)? {
        Some(gathered) => said_of(alloc, scope, state, placed, &gathered, shows_edits),
        None => Ok(Vec::new(alloc)),
    }
}

/// Diagnostics of a manifest at the levels that are set for it.
fn with_levels(
    alloc: Global,
    scope: &Scope,
    state: &State,
    placed: &Placed,
    found: Vec<Diagnostic>,
) -> Result<Vec<Diagnostic>, AllocError> {
    let Some(document) = placed.document(state) else {
        return Ok(found);
    };
    let levels = levels_for(alloc, scope, state, placed, document)?;
    levels.applied(alloc, found)
}

/// What is said of a manifest, in the order of its text; of suggestions also what they replace, if that is to be shown.
pub fn judge<H: Files + AllocGlobal + Clone + Drop>(
    rt: &H,
    scope: &Scope,
    state: &mut State,
    path: &str,
    placed: &Placed,
    shows_edits: bool,
) -> Result<Vec<Diagnostic>, AllocError> {
    let found = found_around(rt, scope, state, path, placed, shows_edits)?;
    let mut kept = with_levels(rt.alloc(), scope, state, placed, found)?;
    sort(&mut kept)?;
    Ok(kept)
}

/// Puts diagnostics in the order of their places; those at one place stay as they are.
fn sort(diagnostics: &mut Vec<Diagnostic>) -> Result<(), AllocError> {
    diagnostics.sort_by_key(|diagnostic| match diagnostic.span {
        Some(span) => (span.from, span.to),
        None => (0, 0),
    })
}
