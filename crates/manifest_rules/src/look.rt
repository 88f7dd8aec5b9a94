//! What the rules look at: the tables of a document, and what else is known of the package.

use crate::report::At;
use std::alloc::{AllocError, Global};
use std::collections::{BTreeMap, BTreeSet};
use toml::{Table, Value};

/// An edition of Rust.
#[derive(Clone, Copy, PartialEq, Eq, PartialOrd, Ord)]
pub enum Edition {
    E2015,
    E2018,
    E2021,
    E2024,
}

impl Edition {
    /// The edition of this name.
    pub fn named(name: &str) -> Option<Edition> {
        match name {
            "2015" => Some(Edition::E2015),
            "2018" => Some(Edition::E2018),
            "2021" => Some(Edition::E2021),
            "2024" => Some(Edition::E2024),
            _ => None,
        }
    }
}

/// What is known of the workspace's root.
#[derive(Clone, Copy)]
pub enum Root<'a> {
    /// Nobody looked for it.
    Unknown,
    /// There is none in the folders above, or where `package.workspace` leads to.
    Missing,
    /// A `Cargo.toml` above, at this path, cannot be read, so Cargo finds no root.
    Unreadable(&'a str),
    /// Its document; that of the manifest itself where that is the root.
    Found(&'a Table),
}

/// The names in folders, by the path of the folder from that of the manifest, with `/` between the parts; the path of the
/// folder itself is the empty text. A folder that was looked for and is not there has no entry.
#[derive(Drop)]
pub struct Folders {
    pub names: BTreeMap<String, BTreeSet<String>>,
    /// The paths that were looked for.
    pub asked: BTreeSet<String>,
}

/// What the rules of a root have to know of a member.
#[derive(Drop)]
pub struct Member {
    /// The path of its folder from that of the root.
    pub path: String,
    /// The indexes of the patterns in `workspace.members` that lead to it; none where a `path` dependency does.
    pub patterns: Vec<usize>,
    /// Whether its folder has a `Cargo.toml`, as each folder has to that a pattern fits.
    pub has_manifest: bool,
    /// Its name, where it has one.
    pub name: Option<String>,
    pub edition: Edition,
    /// Whether it is the root of a workspace itself.
    pub is_root: bool,
    /// The dependencies that it inherits.
    pub inherited: Vec<String>,
}

/// A package to which the `path` of a dependency leads.
#[derive(Drop)]
pub struct PathPackage {
    /// The path as it is written.
    pub path: String,
    /// The name of the package there; `None` where there is none.
    pub name: Option<String>,
}

/// What is known in addition to the document.
#[derive(Drop)]
pub struct Surroundings<'a> {
    pub root: Root<'a>,
    /// Whether the manifest is that of the root itself.
    pub is_root: bool,
    /// Whether the root lists the package, by a pattern or a `path`, or excludes it; `None` where that is not known.
    pub is_listed: Option<bool>,
    pub folders: Option<&'a Folders>,
    pub packages: Option<&'a [PathPackage]>,
    /// The members of the workspace whose root the manifest is.
    pub members: Option<&'a [Member]>,
    /// The configuration of Cargo, merged.
    pub config: Option<&'a Table>,
    /// Whether to say what a registry wants.
    pub publishes: bool,
}

impl Surroundings<'static> {
    /// Where nothing is known.
    pub fn nothing() -> Surroundings<'static> {
        Surroundings {
            root: Root::Unknown,
            is_root: false,
            is_listed: None,
            folders: None,
            packages: None,
            members: None,
            config: None,
            publishes: false,
        }
    }
}

/// Where a table of dependencies stands.
#[derive(Clone, Copy, PartialEq, Eq)]
pub enum Section {
    Normal,
    Dev,
    Build,
    Workspace,
    Patch,
    Replace,
}

impl Section {
    /// Whether these are dependencies of the package.
    pub fn is_of_package(self) -> bool {
        matches!(self, Section::Normal | Section::Dev | Section::Build)
    }
}

/// A table of dependencies.
#[derive(Drop)]
pub struct DependencyTable<'a> {
    pub section: Section,
    pub path: Vec<At<'a>>,
    pub table: &'a Table,
}

impl DependencyTable<'_> {
    /// Whether this dependency of the table is inherited.
    pub fn inherits(&self, dependency: &Value) -> bool {
        self.section.is_of_package() && is_inherited(dependency)
    }
}

/// A kind of target.
#[derive(Clone, Copy, PartialEq, Eq)]
pub enum Kind {
    Lib,
    Bin,
    Example,
    Test,
    Bench,
}

impl Kind {
    /// The key of its table, or of its array of tables.
    pub fn key(self) -> &'static str {
        match self {
            Kind::Lib => "lib",
            Kind::Bin => "bin",
            Kind::Example => "example",
            Kind::Test => "test",
            Kind::Bench => "bench",
        }
    }
}

/// A target that the manifest declares.
#[derive(Drop)]
pub struct DeclaredTarget<'a> {
    pub kind: Kind,
    pub path: Vec<At<'a>>,
    pub table: &'a Table,
}

/// What the rules look at.
#[derive(Drop)]
pub struct Look<'a> {
    pub alloc: Global,
    pub text: &'a str,
    pub document: &'a Table,
    /// The table of the package, and its key: `package`, or `project`.
    pub package: Option<&'a Table>,
    pub package_key: &'static str,
    pub workspace: Option<&'a Table>,
    pub edition: Edition,
    pub around: &'a Surroundings<'a>,
    pub dependencies: Vec<DependencyTable<'a>>,
    pub targets: Vec<DeclaredTarget<'a>>,
}

pub fn table_in<'a>(table: &'a Table, key: &str) -> Option<&'a Table> {
    match table.get(key) {
        Some(Value::Table(inner)) => Some(inner),
        _ => None,
    }
}

pub fn text_in<'a>(table: &'a Table, key: &str) -> Option<&'a str> {
    match table.get(key) {
        Some(Value::String(text)) => Some(text.as_str()),
        _ => None,
    }
}

pub fn flag_in(table: &Table, key: &str) -> Option<bool> {
    match table.get(key) {
        Some(Value::Boolean(flag)) => Some(*flag),
        _ => None,
    }
}

pub fn items_in<'a>(table: &'a Table, key: &str) -> &'a [Value] {
    match table.get(key) {
        Some(Value::Array(items)) => items.as_slice(),
        _ => &[],
    }
}

/// Whether a value is inherited: it is a table whose `workspace` is true.
pub fn is_inherited(value: &Value) -> bool {
    match value {
        Value::Table(inner) => flag_in(inner, "workspace") == Some(true),
        _ => false,
    }
}

/// Whether the value of the key is inherited.
pub fn inherits(table: &Table, key: &str) -> bool {
    match table.get(key) {
        Some(value) => is_inherited(value),
        None => false,
    }
}

/// The tables of dependencies of a table that has them: the document, or a platform.
fn push_sections<'a>(
    alloc: Global,
    base: &[At<'a>],
    table: &'a Table,
    all: &mut Vec<DependencyTable<'a>>,
) -> Result<(), AllocError> {
    push_section(alloc, Section::Normal, base, "dependencies", table, all)?;
    push_section(alloc, Section::Dev, base, "dev-dependencies", table, all)?;
    push_section(alloc, Section::Dev, base, "dev_dependencies", table, all)?;
    push_section(
        alloc,
        Section::Build,
        base,
        "build-dependencies",
        table,
        all,
    )?;
    push_section(
        alloc,
        Section::Build,
        base,
        "build_dependencies",
        table,
        all,
    )?;
    Ok(())
}

fn push_section<'a>(
    alloc: Global,
    section: Section,
    base: &[At<'a>],
    key: &'a str,
    table: &'a Table,
    all: &mut Vec<DependencyTable<'a>>,
) -> Result<(), AllocError> {
    if let Some(inner) = table_in(table, key) {
        let mut path = Vec::new(alloc);
        for at in base {
            path.push(*at)?;
        }
        path.push(At::Key(key))?;
        all.push(DependencyTable {
            section,
            path,
            table: inner,
        })?;
    }
    Ok(())
}

/// All tables of dependencies of the document: of the package, of its platforms, of the workspace, of patches and
/// replacements.
fn dependency_tables<'a>(
    alloc: Global,
    document: &'a Table,
) -> Result<Vec<DependencyTable<'a>>, AllocError> {
    let mut all = Vec::new(alloc);
    push_dependency_tables(alloc, document, &mut all)?;
    Ok(all)
}

fn push_dependency_tables<'a>(
    alloc: Global,
    document: &'a Table,
    all: &mut Vec<DependencyTable<'a>>,
) -> Result<(), AllocError> {
    push_sections(alloc, &[], document, all)?;
    if let Some(platforms) = table_in(document, "target") {
        for (name, platform) in platforms {
            if let Value::Table(inner) = platform {
                let base = [At::Key("target"), At::Key(name.as_str())];
                push_sections(alloc, &base, inner, all)?;
            }
        }
    }
    if let Some(workspace) = table_in(document, "workspace") {
        let base = [At::Key("workspace")];
        push_section(
            alloc,
            Section::Workspace,
            &base,
            "dependencies",
            workspace,
            all,
        )?;
    }
    if let Some(patches) = table_in(document, "patch") {
        for (name, _patch) in patches {
            let base = [At::Key("patch")];
            push_section(alloc, Section::Patch, &base, name.as_str(), patches, all)?;
        }
    }
    push_section(alloc, Section::Replace, &[], "replace", document, all)
}

fn push_targets<'a>(
    alloc: Global,
    kind: Kind,
    document: &'a Table,
    all: &mut Vec<DeclaredTarget<'a>>,
) -> Result<(), AllocError> {
    let mut index = 0usize;
    for item in items_in(document, kind.key()) {
        if let Value::Table(table) = item {
            let mut path = Vec::new(alloc);
            path.push(At::Key(kind.key()))?;
            path.push(At::Index(index))?;
            all.push(DeclaredTarget { kind, path, table })?;
        }
        index = index.saturating_add(1);
    }
    Ok(())
}

/// The targets that the document declares, the library first.
fn declared_targets<'a>(
    alloc: Global,
    document: &'a Table,
) -> Result<Vec<DeclaredTarget<'a>>, AllocError> {
    let mut all = Vec::new(alloc);
    push_library(alloc, document, &mut all)?;
    for kind in [Kind::Bin, Kind::Example, Kind::Test, Kind::Bench] {
        push_targets(alloc, kind, document, &mut all)?;
    }
    Ok(all)
}

fn push_library<'a>(
    alloc: Global,
    document: &'a Table,
    all: &mut Vec<DeclaredTarget<'a>>,
) -> Result<(), AllocError> {
    if let Some(table) = table_in(document, "lib") {
        let mut path = Vec::new(alloc);
        path.push(At::Key("lib"))?;
        all.push(DeclaredTarget {
            kind: Kind::Lib,
            path,
            table,
        })?;
    }
    Ok(())
}

/// The workspace of the root, where there is one.
pub fn workspace_of<'a>(root: Root<'a>) -> Option<&'a Table> {
    match root {
        Root::Found(document) => table_in(document, "workspace"),
        _ => None,
    }
}

/// The edition of a package: its own, or that of the workspace which it inherits; 2015 where there is none.
fn edition_of(package: Option<&Table>, root: Root<'_>) -> Edition {
    let Some(package) = package else {
        return Edition::E2015;
    };
    let own = text_in(package, "edition");
    let name = if inherits(package, "edition") {
        inherited_edition(root)
    } else {
        own
    };
    match name {
        Some(name) => Edition::named(name).unwrap_or(Edition::E2015),
        None => Edition::E2015,
    }
}

fn inherited_edition<'a>(root: Root<'a>) -> Option<&'a str> {
    let workspace = workspace_of(root)?;
    let package = table_in(workspace, "package")?;
    text_in(package, "edition")
}

impl<'a> Look<'a> {
    /// What the rules look at in a document with this text.
    pub fn new(
        alloc: Global,
        text: &'a str,
        document: &'a Table,
        around: &'a Surroundings<'a>,
    ) -> Result<Look<'a>, AllocError> {
        let own = table_in(document, "package");
        let (package, package_key) = match own {
            Some(table) => (Some(table), "package"),
            None => (table_in(document, "project"), "project"),
        };
        Ok(Look {
            alloc,
            text,
            document,
            package,
            package_key,
            workspace: table_in(document, "workspace"),
            edition: edition_in(document, around.root),
            around,
            dependencies: dependency_tables(alloc, document)?,
            targets: declared_targets(alloc, document)?,
        })
    }
}

/// What the rules of a root have to know of a member with this document, in this folder.
pub fn member_of(
    alloc: Global,
    path: &str,
    patterns: &[usize],
    document: &Table,
    root: Root<'_>,
) -> Result<Member, AllocError> {
    let package = table_in(document, "package");
    let name = match package {
        Some(package) => owned(alloc, text_in(package, "name"))?,
        None => None,
    };
    Ok(Member {
        path: String::from_str(alloc, path)?,
        patterns: Vec::from_slice(alloc, patterns)?,
        has_manifest: true,
        name,
        edition: edition_of(package, root),
        is_root: document.contains_key("workspace"),
        inherited: inherited_names(alloc, document)?,
    })
}

/// A member whose manifest cannot be read, or is not there.
pub fn unread_member(
    alloc: Global,
    path: &str,
    patterns: &[usize],
    has_manifest: bool,
) -> Result<Member, AllocError> {
    Ok(Member {
        path: String::from_str(alloc, path)?,
        patterns: Vec::from_slice(alloc, patterns)?,
        has_manifest,
        name: None,
        edition: Edition::E2015,
        is_root: false,
        inherited: Vec::new(alloc),
    })
}

fn owned(alloc: Global, text: Option<&str>) -> Result<Option<String>, AllocError> {
    match text {
        Some(text) => Ok(Some(String::from_str(alloc, text)?)),
        None => Ok(None),
    }
}

/// The names of the dependencies that a document inherits.
fn inherited_names(alloc: Global, document: &Table) -> Result<Vec<String>, AllocError> {
    let mut names = Vec::new(alloc);
    for section in dependency_tables(alloc, document)? {
        for (name, dependency) in section.table {
            if is_inherited(dependency) {
                names.push(String::from_str(alloc, name.as_str())?)?;
            }
        }
    }
    Ok(names)
}

/// The edition of the package of a document, its own or that which it inherits; 2015 where there is none.
pub fn edition_in(document: &Table, root: Root<'_>) -> Edition {
    match table_in(document, "package") {
        Some(package) => edition_of(Some(package), root),
        None => edition_of(table_in(document, "project"), root),
    }
}
