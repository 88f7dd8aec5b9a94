//! The root of the workspace that a manifest belongs to, found as Cargo finds it.

use crate::files::Reader;
use crate::judging::said;
use crate::members::{Members, is_excluded, is_matched, members_of};
use crate::paths::{MANIFEST, folder_of, join, resolved};
use crate::tables::{pointer_in, table_in};
use manifest_lint::{Diagnostic, Document, Subject};
use manifest_rules::{Level, Root, Surroundings};
use std::alloc::{AllocError, Global};
use std::collections::BTreeMap;
use std::rt::Files;
use std::{fs, mem};

/// What a manifest above a package is.
#[derive(Drop)]
enum Above {
    /// There is none.
    Absent,
    /// It has no workspace.
    Plain,
    /// Its package belongs to the root with this manifest.
    Pointer(String),
    Root,
    /// Cargo refuses it for what it says.
    FaultyRoot,
    Unreadable,
}

/// A root, with its members if they were asked for.
#[derive(Drop)]
pub struct KeptRoot {
    /// The absolute path of its manifest.
    pub path: String,
    pub document: Document,
    pub(crate) members: Option<Members>,
}

/// Where the root of a manifest is.
#[derive(Drop)]
pub(crate) enum FoundRoot {
    /// Nobody looked for it.
    Unknown,
    /// It is the manifest itself.
    Own,
    Missing,
    /// A manifest above, at this path, cannot be read.
    Unreadable(String),
    /// It is the one that is kept.
    Kept,
}

/// What finds roots: it keeps the last root, and of each other manifest above a package what it is.
#[derive(Drop)]
pub(crate) struct Roots {
    above: BTreeMap<String, Above>,
    kept: Option<KeptRoot>,
}

/// Whether the schema refuses a document, with nothing around it.
fn is_faulty(alloc: Global, document: &Document) -> Result<bool, AllocError> {
    let around = Surroundings {
        root: Root::Unknown,
        is_root: table_in(&document.table, "workspace").is_some(),
        is_listed: None,
        folders: None,
        packages: None,
        members: None,
        config: None,
        publishes: false,
    };
    let found = said(alloc, document, &around, None, false)?;
    Ok(found.iter().any(|one| is_fault(one)))
}

/// Whether it is an error of the schema.
fn is_fault(diagnostic: &Diagnostic) -> bool {
    diagnostic.level == Level::Error && matches!(&diagnostic.subject, Subject::Fault(_, _))
}

/// What a manifest above a package is, by its document.
fn above_by(alloc: Global, path: &str, document: &Document) -> Result<Above, AllocError> {
    let is_faulty = is_faulty(alloc, document)?;
    let is_root = table_in(&document.table, "workspace").is_some();
    match (is_root, is_faulty) {
        (true, true) => Ok(Above::FaultyRoot),
        (true, false) => Ok(Above::Root),
        (false, true) => Ok(Above::Unreadable),
        (false, false) => match pointer_in(&document.table) {
            Some(pointer) => Ok(Above::Pointer(pointed(alloc, path, pointer)?)),
            None => Ok(Above::Plain),
        },
    }
}

/// Whether Cargo looks no further up than the folder.
fn is_packaged(folder: &str) -> bool {
    folder.ends_with("/target/package")
}

impl Roots {
    /// Nothing is known yet.
    pub(crate) fn new(alloc: Global) -> Roots {
        Roots {
            above: BTreeMap::new(alloc),
            kept: None,
        }
    }

    /// The root that is kept.
    pub(crate) fn kept(&self) -> Option<&KeptRoot> {
        self.kept.as_ref()
    }

    /// Keeps a root in place of the last one.
    pub(crate) fn keep(&mut self, path: String, document: Document) {
        let _last = mem::replace(
            &mut self.kept,
            Some(KeptRoot {
                path,
                document,
                members: None,
            }),
        );
    }

    /// Takes out the root that is kept, to be changed and kept again.
    pub(crate) fn take(&mut self) -> Option<KeptRoot> {
        self.kept.take()
    }

    /// Whether the root at this path is the one that is kept.
    fn keeps(&self, path: &str) -> bool {
        match &self.kept {
            Some(kept) => kept.path.as_str() == path,
            None => false,
        }
    }

    /// Reads a manifest above a package, and keeps it if it is a root.
    fn read_above<H: Files + AllocGlobal>(
        &mut self,
        rt: &H,
        reader: &Reader,
        path: &str,
    ) -> Result<Above, AllocError> {
        if !reader.texts.contains_key(path) && fs::metadata(rt, path).is_err() {
            return Ok(Above::Absent);
        }
        let Some(document) = reader.document(rt, path)? else {
            return Ok(Above::Unreadable);
        };
        let above = above_by(rt.alloc(), path, &document)?;
        if matches!(&above, Above::Root | Above::FaultyRoot) {
            self.keep(String::from_str(rt.alloc(), path)?, document);
        }
        Ok(above)
    }

    /// Keeps the root at this path, where it is not the one that is kept. It says whether it could be read.
    fn load<H: Files + AllocGlobal>(
        &mut self,
        rt: &H,
        reader: &Reader,
        path: &str,
    ) -> Result<bool, AllocError> {
        if self.keeps(path) {
            return Ok(true);
        }
        let read = self.read_above(rt, reader, path)?;
        Ok(matches!(&read, Above::Root | Above::FaultyRoot))
    }

    /// What the manifest at this path is: it is not read where it is the root that is kept.
    fn first_look<H: Files + AllocGlobal>(
        &mut self,
        rt: &H,
        reader: &Reader,
        path: &str,
    ) -> Result<Above, AllocError> {
        match &self.kept {
            Some(kept) if kept.path.as_str() == path => {
                let is_faulty = is_faulty(rt.alloc(), &kept.document)?;
                Ok(if is_faulty {
                    Above::FaultyRoot
                } else {
                    Above::Root
                })
            }
            _ => self.read_above(rt, reader, path),
        }
    }

    /// Looks what the manifest at this path is, at the first question.
    fn look<H: Files + AllocGlobal>(
        &mut self,
        rt: &H,
        reader: &Reader,
        path: &str,
    ) -> Result<(), AllocError> {
        if !self.above.contains_key(path) {
            let above = self.first_look(rt, reader, path)?;
            self.above
                .insert(String::from_str(rt.alloc(), path)?, above)?;
        }
        Ok(())
    }

    /// What the manifest at this path is to the packages below it, as it was at the first question.
    fn step<H: Files + AllocGlobal>(
        &mut self,
        rt: &H,
        reader: &Reader,
        path: &str,
        folder: &str,
    ) -> Result<Option<FoundRoot>, AllocError> {
        let alloc = rt.alloc();
        self.look(rt, reader, path)?;
        let pointer = match self.above.get(path) {
            Some(Above::Root | Above::FaultyRoot) => String::from_str(alloc, path)?,
            Some(Above::Pointer(pointer)) => pointer.clone()?,
            Some(Above::Unreadable) => {
                return Ok(Some(FoundRoot::Unreadable(String::from_str(alloc, path)?)));
            }
            _ => return Ok(None),
        };
        if !self.load(rt, reader, pointer.as_str())? {
            return Ok(Some(FoundRoot::Missing));
        }
        let is_own = pointer.as_str() == path;
        self.loaded(alloc, path, folder, is_own)
    }

    /// What the root that was loaded is to the packages in a folder: it is that of the manifest at this path, or that
    /// manifest itself.
    fn loaded(
        &self,
        alloc: Global,
        path: &str,
        folder: &str,
        is_own: bool,
    ) -> Result<Option<FoundRoot>, AllocError> {
        if is_own && self.excludes(alloc, folder)? {
            return Ok(None);
        }
        if self.is_unknown(alloc, path, folder)? {
            return Ok(Some(FoundRoot::Unreadable(String::from_str(alloc, path)?)));
        }
        Ok(Some(FoundRoot::Kept))
    }

    /// Whether the manifest at this path is a root that Cargo refuses, and no pattern of it means the folder.
    fn is_unknown(&self, alloc: Global, path: &str, folder: &str) -> Result<bool, AllocError> {
        match (self.above.get(path), &self.kept) {
            (Some(Above::FaultyRoot), Some(kept)) => {
                let root = folder_of(kept.path.as_str());
                Ok(!is_matched(alloc, root, &kept.document.table, folder)?)
            }
            _ => Ok(false),
        }
    }

    /// Whether the root that is kept leaves the folder out.
    fn excludes(&self, alloc: Global, folder: &str) -> Result<bool, AllocError> {
        match &self.kept {
            Some(kept) => {
                let root = folder_of(kept.path.as_str());
                is_excluded(alloc, root, &kept.document.table, folder)
            }
            None => Ok(false),
        }
    }

    /// The root of a manifest: itself, the one that `package.workspace` leads to, or the nearest one above that does not
    /// leave it out.
    pub(crate) fn find<H: Files + AllocGlobal>(
        &mut self,
        rt: &H,
        reader: &Reader,
        manifest: &str,
        document: &Document,
    ) -> Result<FoundRoot, AllocError> {
        let alloc = rt.alloc();
        if table_in(&document.table, "workspace").is_some() {
            return Ok(FoundRoot::Own);
        }
        if let Some(pointer) = pointer_in(&document.table) {
            let path = pointed(alloc, manifest, pointer)?;
            let is_root = self.load(rt, reader, path.as_str())?;
            return Ok(if is_root {
                FoundRoot::Kept
            } else {
                FoundRoot::Missing
            });
        }
        let folder = folder_of(manifest);
        let mut above = folder;
        for _ in 0..folder.len() {
            above = folder_of(above);
            if is_packaged(above) || above.is_empty() {
                return Ok(FoundRoot::Missing);
            }
            let path = join(alloc, above, MANIFEST)?;
            if let Some(found) = self.step(rt, reader, path.as_str(), folder)? {
                return Ok(found);
            }
            if above == "/" {
                return Ok(FoundRoot::Missing);
            }
        }
        Ok(FoundRoot::Missing)
    }

    /// Gathers the members of the root that is kept, where that is not done.
    pub(crate) fn gather<H: Files + AllocGlobal + Clone + Drop>(
        &mut self,
        rt: &H,
        reader: &Reader,
    ) -> Result<(), AllocError> {
        let Some(mut kept) = self.take() else {
            return Ok(());
        };
        if kept.members.is_none() {
            let path = kept.path.as_str();
            kept.members = Some(members_of(rt, reader, path, &kept.document)?);
        }
        self.kept = Some(kept);
        Ok(())
    }

    /// Whether the root that is kept lists the package in this folder.
    pub(crate) fn lists<H: Files + AllocGlobal + Clone + Drop>(
        &mut self,
        rt: &H,
        reader: &Reader,
        folder: &str,
    ) -> Result<bool, AllocError> {
        let alloc = rt.alloc();
        if let Some(kept) = &self.kept {
            let root = folder_of(kept.path.as_str());
            if is_matched(alloc, root, &kept.document.table, folder)? {
                return Ok(true);
            }
        }
        self.gather(rt, reader)?;
        match &self.kept {
            Some(
                KeptRoot {
                    members: Some(members),
                    ..
                },
            ) => Ok(members.has(folder)),
            _ => Ok(false),
        }
    }
}

/// The manifest to which `package.workspace` of another leads.
fn pointed(alloc: Global, manifest: &str, pointer: &str) -> Result<String, AllocError> {
    let folder = resolved(alloc, folder_of(manifest), pointer)?;
    join(alloc, folder.as_str(), MANIFEST)
}
