//! The packages to which the `path` of a dependency leads.

use crate::files::Reader;
use crate::paths::{MANIFEST, join, resolved};
use crate::tables::{table_in, text_in};
use manifest_lint::{Document, asked_packages};
use manifest_rules::PathPackage;
use std::alloc::{AllocError, Global};
use std::collections::BTreeMap;
use std::rt::Files;

/// The names of packages by the absolute paths of their folders: each manifest is read once, and not kept.
#[derive(Drop)]
pub(crate) struct PackageNames {
    names: BTreeMap<String, Option<String>>,
}

fn copied(alloc: Global, name: Option<&str>) -> Result<Option<String>, AllocError> {
    match name {
        Some(name) => Ok(Some(String::from_str(alloc, name)?)),
        None => Ok(None),
    }
}

/// The name of the package in a folder; `None` where there is none.
fn name_in<H: Files + AllocGlobal>(
    rt: &H,
    reader: &Reader,
    folder: &str,
) -> Result<Option<String>, AllocError> {
    let alloc = rt.alloc();
    let manifest = join(alloc, folder, MANIFEST)?;
    match reader.document(rt, manifest.as_str())? {
        Some(document) => {
            let name = match table_in(&document.table, "package") {
                Some(package) => text_in(package, "name"),
                None => None,
            };
            copied(alloc, name)
        }
        None => Ok(None),
    }
}

impl PackageNames {
    pub(crate) fn new(alloc: Global) -> PackageNames {
        PackageNames {
            names: BTreeMap::new(alloc),
        }
    }

    /// The name of the package in a folder, as it was at the first question.
    fn name<H: Files + AllocGlobal>(
        &mut self,
        rt: &H,
        reader: &Reader,
        folder: &str,
    ) -> Result<Option<String>, AllocError> {
        let alloc = rt.alloc();
        if let Some(name) = self.names.get(folder) {
            return copied(alloc, name.as_ref().map(|name| name.as_str()));
        }
        let name = name_in(rt, reader, folder)?;
        self.keep(alloc, folder, name.as_ref().map(|name| name.as_str()))?;
        Ok(name)
    }

    /// Keeps the name of the package in a folder.
    fn keep(&mut self, alloc: Global, folder: &str, name: Option<&str>) -> Result<(), AllocError> {
        let copy = copied(alloc, name)?;
        self.names.insert(String::from_str(alloc, folder)?, copy)?;
        Ok(())
    }

    /// The name of the package to which a path leads from a folder.
    fn name_at<H: Files + AllocGlobal>(
        &mut self,
        rt: &H,
        reader: &Reader,
        folder: &str,
        path: &str,
    ) -> Result<Option<String>, AllocError> {
        let target = resolved(rt.alloc(), folder, path)?;
        self.name(rt, reader, target.as_str())
    }

    /// Gathers the package to which a path leads from a folder.
    fn push<H: Files + AllocGlobal>(
        &mut self,
        rt: &H,
        reader: &Reader,
        folder: &str,
        path: String,
        all: &mut Vec<PathPackage>,
    ) -> Result<(), AllocError> {
        let name = self.name_at(rt, reader, folder, path.as_str())?;
        all.push(PathPackage { path, name })?;
        Ok(())
    }

    /// The packages to which the dependencies of a document in this folder lead.
    pub(crate) fn of<H: Files + AllocGlobal>(
        &mut self,
        rt: &H,
        reader: &Reader,
        folder: &str,
        document: &Document,
    ) -> Result<Vec<PathPackage>, AllocError> {
        let alloc = rt.alloc();
        let mut all = Vec::new(alloc);
        for path in asked_packages(alloc, &document.table)? {
            self.push(rt, reader, folder, path, &mut all)?;
        }
        Ok(all)
    }
}
