//! The targets that Cargo finds in the folders of a package.
//! (<https://doc.rust-lang.org/cargo/guide/project-layout.html>)

use crate::files::{below, names_in, plain_path};
use crate::look::{DeclaredTarget, Edition, Kind, Look, flag_in, text_in};
use std::alloc::{AllocError, Global};
use std::collections::{BTreeMap, BTreeSet};

/// A file that is a target by where it stands.
#[derive(Drop)]
pub struct FoundFile {
    pub name: String,
    pub path: String,
}

impl Kind {
    /// The folder whose files are targets of this kind.
    pub fn folder<'a>(self) -> &'a str {
        match self {
            Kind::Lib => "src",
            Kind::Bin => "src/bin",
            Kind::Example => "examples",
            Kind::Test => "tests",
            Kind::Bench => "benches",
        }
    }

    /// The key by which a package says whether they are found.
    fn auto_key(self) -> &'static str {
        match self {
            Kind::Lib => "autolib",
            Kind::Bin => "autobins",
            Kind::Example => "autoexamples",
            Kind::Test => "autotests",
            Kind::Bench => "autobenches",
        }
    }

    /// The key by which a target of this kind says where its file is.
    pub fn path_key<'a>(self) -> &'a str {
        match self {
            Kind::Lib => "lib.path",
            Kind::Bin => "bin.path",
            Kind::Example => "example.path",
            Kind::Test => "test.path",
            Kind::Bench => "bench.path",
        }
    }

    /// What it is called.
    pub fn words<'a>(self) -> &'a str {
        match self {
            Kind::Lib => "library",
            Kind::Bin => "binary",
            Kind::Example => "example",
            Kind::Test => "test",
            Kind::Bench => "bench",
        }
    }
}

/// The kinds of which there may be several targets.
pub const LISTED: [Kind; 4] = [Kind::Bin, Kind::Example, Kind::Test, Kind::Bench];

/// Whether targets of this kind are found: the package says so, or it says nothing and its edition is 2018 or later, or it
/// declares none of the kind.
pub fn finds(look: &Look<'_>, kind: Kind) -> bool {
    match says_auto(look, kind) {
        Some(flag) => flag,
        None => look.edition != Edition::E2015 || kind == Kind::Lib || !declares(look, kind),
    }
}

/// What the package says of finding targets of this kind.
pub fn says_auto(look: &Look<'_>, kind: Kind) -> Option<bool> {
    flag_in(look.package?, kind.auto_key())
}

/// Whether the manifest has a table of this kind.
pub fn declares(look: &Look<'_>, kind: Kind) -> bool {
    look.document.contains_key(kind.key())
}

/// The name of the package, where it has one.
pub fn package_name<'a>(look: &Look<'a>) -> Option<&'a str> {
    text_in(look.package?, "name")
}

/// The targets of one kind that the manifest declares.
#[derive(Drop)]
pub struct Declared<'a> {
    /// By their names; of several with one name the first.
    pub names: BTreeMap<String, &'a DeclaredTarget<'a>>,
    /// The paths of their files, of those that have one.
    paths: BTreeSet<String>,
}

impl<'a> Declared<'a> {
    fn add(&mut self, alloc: Global, target: &'a DeclaredTarget<'a>) -> Result<(), AllocError> {
        if let Some(path) = text_in(target.table, "path") {
            let path = plain_path(alloc, path)?;
            let _is_new = self.paths.insert(path)?;
        }
        match text_in(target.table, "name") {
            Some(name) if !self.names.contains_key(name) => {
                let name = String::from_str(alloc, name)?;
                let _none = self.names.insert(name, target)?;
            }
            _ => {}
        }
        Ok(())
    }

    /// Whether the target that a file would be is declared, by its name or by its path.
    pub fn has(&self, file: &FoundFile) -> bool {
        self.names.contains_key(file.name.as_str()) || self.paths.contains(file.path.as_str())
    }
}

/// The targets of this kind that the manifest declares.
pub fn declared_of<'a>(look: &'a Look<'_>, kind: Kind) -> Result<Declared<'a>, AllocError> {
    let mut declared = Declared {
        names: BTreeMap::new(look.alloc),
        paths: BTreeSet::new(look.alloc),
    };
    for target in &look.targets {
        if target.kind == kind {
            declared.add(look.alloc, target)?;
        }
    }
    Ok(declared)
}

/// The files that are targets of this kind by where they stand, whether or not they are found: of a binary that of the
/// package first.
pub fn files_of(look: &Look<'_>, kind: Kind) -> Result<Vec<FoundFile>, AllocError> {
    let mut all = Vec::new(look.alloc);
    if kind == Kind::Bin {
        if let Some(name) = package_name(look) {
            push_main(look, name, "src", &mut all)?;
        }
    }
    let folder = kind.folder();
    if let Some(names) = names_in(look, folder) {
        for name in names {
            push_named(look, folder, name.as_str(), &mut all)?;
        }
    }
    Ok(all)
}

/// The target of this entry of a folder: `NAME.rs`, or the folder `NAME` with a file `main.rs`.
fn push_named(
    look: &Look<'_>,
    folder: &str,
    name: &str,
    all: &mut Vec<FoundFile>,
) -> Result<(), AllocError> {
    if name.starts_with('.') {
        return Ok(());
    }
    let inner = below(look.alloc, folder, name)?;
    if names_in(look, inner.as_str()).is_some() {
        return push_main(look, name, inner.as_str(), all);
    }
    match name.strip_suffix(".rs") {
        Some(stem) => push_found(look.alloc, stem, folder, name, all),
        None => Ok(()),
    }
}

/// The target of this name whose file is the `main.rs` of a folder, where that is there.
fn push_main(
    look: &Look<'_>,
    name: &str,
    folder: &str,
    all: &mut Vec<FoundFile>,
) -> Result<(), AllocError> {
    if has_file(look, folder, "main.rs") {
        push_found(look.alloc, name, folder, "main.rs", all)?;
    }
    Ok(())
}

fn push_found(
    alloc: Global,
    name: &str,
    folder: &str,
    file: &str,
    all: &mut Vec<FoundFile>,
) -> Result<(), AllocError> {
    let name = String::from_str(alloc, name)?;
    let path = below(alloc, folder, file)?;
    all.push(FoundFile { name, path })?;
    Ok(())
}

/// Whether a listed folder has an entry of this name.
pub fn has_file(look: &Look<'_>, folder: &str, name: &str) -> bool {
    match names_in(look, folder) {
        Some(names) => names.contains(name),
        None => false,
    }
}
