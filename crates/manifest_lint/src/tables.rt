//! Which table of a manifest stands at a key path, and which keys it may have.

use cargo_manifest::{
    DependencyDetail, InheritedDependencyDetail, LintConfig, Manifest, Package, Product, Profile,
    Target, Workspace, WorkspacePackage,
};
use manifest_fault::Step;
use manifest_value::{Rowed, Spellings};
use toml::{Table, Value};

/// A kind of table.
#[derive(Clone, Copy, PartialEq, Eq)]
pub(crate) enum TableKind {
    Top,
    Package,
    Workspace,
    WorkspacePackage,
    Dependency,
    MemberDependency,
    /// One of the workspace or of a patch whose `workspace` is true, of which Cargo takes no notice there.
    SharedDependency,
    /// A field of a package that is inherited.
    InheritedField,
    Platform,
    Target,
    Profile,
    Lint,
    Badges,
    Other,
}

/// The value at a path.
pub(crate) fn value_at<'t>(document: &'t Table, path: &[Step]) -> Option<&'t Value> {
    let (first, rest) = path.split_first()?;
    let mut now = match first {
        Step::Key(key) => document.get(key.as_str())?,
        Step::Index(_) => return None,
    };
    for step in rest {
        now = match step {
            Step::Key(key) => now.get(key.as_str())?,
            Step::Index(index) => now.get(*index)?,
        };
    }
    Some(now)
}

/// The last key of a path; of an empty path, nothing.
pub(crate) fn key_at(path: &[Step]) -> &str {
    let mut last = "";
    for step in path {
        if let Step::Key(key) = step {
            last = key.as_str();
        }
    }
    last
}

/// The key at this step, and nothing where there is none.
fn key_of(path: &[Step], at: usize) -> &str {
    match path.get(at) {
        Some(Step::Key(key)) => key.as_str(),
        _ => "",
    }
}

pub(crate) fn is_dependencies(key: &str) -> bool {
    match key {
        "dependencies"
        | "dev-dependencies"
        | "dev_dependencies"
        | "build-dependencies"
        | "build_dependencies" => true,
        _ => false,
    }
}

/// The kind of a dependency's table: whether its `workspace` is true.
fn dependency_kind(document: &Table, path: &[Step]) -> TableKind {
    let Some(value) = value_at(document, path) else {
        return TableKind::Dependency;
    };
    match value.get("workspace") {
        Some(Value::Boolean(true)) => TableKind::MemberDependency,
        _ => TableKind::Dependency,
    }
}

/// Which table stands at the path.
pub(crate) fn table_kind(document: &Table, path: &[Step]) -> TableKind {
    let first = key_of(path, 0);
    match path.len() {
        0 => TableKind::Top,
        1 => match first {
            "package" | "project" => TableKind::Package,
            "workspace" => TableKind::Workspace,
            "lib" => TableKind::Target,
            "badges" => TableKind::Badges,
            _ => TableKind::Other,
        },
        2 => second_kind(document, path, first, key_of(path, 1)),
        _ => deep_kind(document, path, first),
    }
}

fn second_kind(document: &Table, path: &[Step], first: &str, second: &str) -> TableKind {
    match first {
        "package" | "project" => TableKind::InheritedField,
        "workspace" => {
            if second == "package" {
                TableKind::WorkspacePackage
            } else {
                TableKind::Other
            }
        }
        "bin" | "example" | "test" | "bench" => TableKind::Target,
        "profile" => TableKind::Profile,
        "target" => TableKind::Platform,
        _ => {
            if is_dependencies(first) {
                dependency_kind(document, path)
            } else {
                TableKind::Other
            }
        }
    }
}

fn deep_kind(document: &Table, path: &[Step], first: &str) -> TableKind {
    let is_platform = first == "target" && path.len() == 4 && is_dependencies(key_of(path, 2));
    let in_workspace = first == "workspace" && path.len() == 3 && key_of(path, 1) == "dependencies";
    let is_patch = first == "patch" && path.len() == 3;
    if is_platform || in_workspace || is_patch {
        return match dependency_kind(document, path) {
            TableKind::MemberDependency if !is_platform => TableKind::SharedDependency,
            kind => kind,
        };
    }
    if first == "lints" && path.len() == 3 {
        return TableKind::Lint;
    }
    if first == "workspace" && path.len() == 4 && key_of(path, 1) == "lints" {
        return TableKind::Lint;
    }
    TableKind::Other
}

/// The keys that this library reads in a table of this kind.
pub(crate) fn keys_of(kind: TableKind) -> &'static [Spellings] {
    match kind {
        TableKind::Top => <Manifest>::names(),
        TableKind::Package => <Package>::names(),
        TableKind::Workspace => <Workspace>::names(),
        TableKind::WorkspacePackage => WorkspacePackage::names(),
        TableKind::Dependency => DependencyDetail::names(),
        TableKind::MemberDependency => InheritedDependencyDetail::names(),
        TableKind::Platform => Target::names(),
        TableKind::Target => Product::names(),
        TableKind::Profile => Profile::names(),
        TableKind::Lint => LintConfig::names(),
        TableKind::InheritedField => &[],
        TableKind::SharedDependency => &[],
        TableKind::Badges => &[],
        TableKind::Other => &[],
    }
}
