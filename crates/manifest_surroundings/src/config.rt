//! The configuration of Cargo above a manifest.

use crate::files::{Reader, Unread, Unreadable};
use crate::paths::{folder_of, join};
use manifest_lint::Document;
use std::alloc::{AllocError, Global};
use std::collections::{BTreeMap, BTreeSet};
use std::rt::Files;
use toml::{Table, Value};

/// The names of a configuration: where both are there, Cargo reads the first one.
const NAMES: [&str; 2] = [".cargo/config", ".cargo/config.toml"];

/// What reads configurations: it keeps the last one, and of each folder whether it has one.
#[derive(Drop)]
pub(crate) struct Configs {
    files: BTreeMap<String, Option<String>>,
    /// The files that the kept configuration is made of, the nearest first.
    kept_of: Vec<String>,
    kept: Option<Table>,
    /// The files that cannot be read, of which nothing was said yet.
    unread: Vec<Unread>,
    /// Those of which something was said.
    said: BTreeSet<String>,
}

/// The file of the configuration in a folder.
fn file_in<H: Files + AllocGlobal>(
    rt: &H,
    reader: &Reader,
    folder: &str,
) -> Result<Option<String>, AllocError> {
    for name in &NAMES {
        let path = join(rt.alloc(), folder, *name)?;
        if reader.is_file(rt, path.as_str()) {
            return Ok(Some(path));
        }
    }
    Ok(None)
}

/// The document of a configuration, or why it is not read.
fn table_at<H: Files + AllocGlobal>(
    rt: &H,
    reader: &Reader,
    path: &str,
) -> Result<Result<Table, String>, AllocError> {
    let alloc = rt.alloc();
    let bytes = match reader.read(rt, path) {
        Ok(bytes) => bytes,
        Err(fault) => return unread(alloc, fault),
    };
    match Document::read(alloc, bytes.as_slice()) {
        Ok(Document { table, .. }) => Ok(Ok(table)),
        Err(fault) => Ok(Err(reason_of(alloc, fault)?)),
    }
}

/// Why a file is no configuration, unless memory ran out.
fn unread(alloc: Global, fault: Unreadable) -> Result<Result<Table, String>, AllocError> {
    let reason = format!(in alloc; "{fault}")?;
    fault.unless_out_of_memory().and(Ok(Err(reason)))
}

/// Why bytes are no configuration.
fn reason_of(alloc: Global, fault: manifest_lint::Unread) -> Result<String, AllocError> {
    match fault {
        manifest_lint::Unread::Memory(refused) => Err(refused),
        manifest_lint::Unread::NotToml(message, _span) => {
            let message = message.as_str();
            format!(in alloc; "it is not TOML: {message}")
        }
        manifest_lint::Unread::NotUtf8(_offset) => String::from_str(alloc, "it is not UTF-8"),
        manifest_lint::Unread::TooDeep(_offset) => String::from_str(alloc, "it nests too deep"),
    }
}

/// Puts into a table the entries of another that it does not have.
fn add_missing(table: &mut Table, more: Table) -> Result<(), AllocError> {
    for (key, value) in more {
        if !table.contains_key(key.as_str()) {
            table.insert(key, value)?;
        }
    }
    Ok(())
}

/// Puts into a configuration what one further away has and it has not, by the names in its tables.
fn add_further(near: &mut Table, far: Table) -> Result<(), AllocError> {
    for (key, value) in far {
        if !near.contains_key(key.as_str()) {
            near.insert(key, value)?;
        } else if let Value::Table(more) = value {
            add_to_table(near, key.as_str(), more)?;
        }
    }
    Ok(())
}

/// Puts into a table of a configuration the entries of another that it does not have.
fn add_to_table(near: &mut Table, key: &str, more: Table) -> Result<(), AllocError> {
    match near.get_mut(key) {
        Some(Value::Table(inner)) => add_missing(inner, more),
        _ => Ok(()),
    }
}

/// Whether two lists of paths are equal.
fn same_paths(a: &[String], b: &[String]) -> bool {
    a.len() == b.len()
        && a.iter()
            .zip(b.iter())
            .all(|(x, y)| x.as_str() == y.as_str())
}

impl Configs {
    /// Nothing is known yet.
    pub(crate) fn new(alloc: Global) -> Configs {
        Configs {
            files: BTreeMap::new(alloc),
            kept_of: Vec::new(alloc),
            kept: None,
            unread: Vec::new(alloc),
            said: BTreeSet::new(alloc),
        }
    }

    /// The file of the configuration in a folder, as it was at the first question.
    fn file<H: Files + AllocGlobal>(
        &mut self,
        rt: &H,
        reader: &Reader,
        folder: &str,
    ) -> Result<Option<String>, AllocError> {
        if !self.files.contains_key(folder) {
            let file = file_in(rt, reader, folder)?;
            self.files
                .insert(String::from_str(rt.alloc(), folder)?, file)?;
        }
        match self.files.get(folder) {
            Some(Some(file)) => Ok(Some(file.clone()?)),
            _ => Ok(None),
        }
    }

    /// The files of the configurations of a folder and those above it, the nearest first.
    fn files_above<H: Files + AllocGlobal>(
        &mut self,
        rt: &H,
        reader: &Reader,
        folder: &str,
    ) -> Result<Vec<String>, AllocError> {
        let mut files = Vec::new(rt.alloc());
        let mut above = folder;
        for _ in 0..folder.len() {
            if let Some(file) = self.file(rt, reader, above)? {
                files.push(file)?;
            }
            if above == "/" {
                return Ok(files);
            }
            above = folder_of(above);
        }
        Ok(files)
    }

    /// Reads one file, and keeps it as the configuration.
    pub(crate) fn load_file<H: Files + AllocGlobal>(
        &mut self,
        rt: &H,
        reader: &Reader,
        path: &str,
    ) -> Result<(), AllocError> {
        let mut files = Vec::new(rt.alloc());
        files.push(String::from_str(rt.alloc(), path)?)?;
        self.load_files(rt, reader, files)
    }

    /// Reads the configuration for a folder, where it is not the one that is kept: of each entry the nearest counts.
    pub(crate) fn load<H: Files + AllocGlobal>(
        &mut self,
        rt: &H,
        reader: &Reader,
        folder: &str,
    ) -> Result<(), AllocError> {
        let files = self.files_above(rt, reader, folder)?;
        self.load_files(rt, reader, files)
    }

    /// Puts into a configuration what a file further away has, or notes that it cannot be read.
    fn add_file<H: Files + AllocGlobal>(
        &mut self,
        rt: &H,
        reader: &Reader,
        path: &str,
        merged: &mut Table,
    ) -> Result<(), AllocError> {
        match table_at(rt, reader, path)? {
            Ok(table) => add_further(merged, table),
            Err(reason) => self.note_unread(path, reason),
        }
    }

    /// The configuration that these files make, the nearest first.
    fn merged<H: Files + AllocGlobal>(
        &mut self,
        rt: &H,
        reader: &Reader,
        files: &[String],
    ) -> Result<Table, AllocError> {
        let mut merged = Table::new(rt.alloc());
        for file in files {
            self.add_file(rt, reader, file.as_str(), &mut merged)?;
        }
        Ok(merged)
    }

    /// Reads these files, the nearest first, where they are not those that are kept.
    fn load_files<H: Files + AllocGlobal>(
        &mut self,
        rt: &H,
        reader: &Reader,
        files: Vec<String>,
    ) -> Result<(), AllocError> {
        if same_paths(files.as_slice(), self.kept_of.as_slice()) {
            return Ok(());
        }
        let merged = self.merged(rt, reader, files.as_slice())?;
        self.kept = if files.is_empty() { None } else { Some(merged) };
        self.kept_of = files;
        Ok(())
    }

    /// Notes a file that cannot be read, once.
    fn note_unread(&mut self, path: &str, reason: String) -> Result<(), AllocError> {
        let alloc = *self.kept_of.allocator();
        if self.said.insert(String::from_str(alloc, path)?)? {
            let path = String::from_str(alloc, path)?;
            self.unread.push(Unread { path, reason })?;
        }
        Ok(())
    }

    /// The next file that cannot be read, and of which nothing was said yet.
    pub(crate) fn next_unread(&mut self) -> Option<Unread> {
        self.unread.pop()
    }

    /// The configuration that is kept.
    pub(crate) fn kept(&self) -> Option<&Table> {
        self.kept.as_ref()
    }
}
