//! Rules of workspaces and of their members.
//! (<https://doc.rust-lang.org/cargo/reference/workspaces.html>)

use crate::inherited::inherited_dependencies;
use manifest_rules::codes::{
    Code, IGNORED_IN_MEMBER, INVALID_MEMBER_PATTERN, LINTS_NOT_INHERITED, MISSING_MEMBER,
    MISSING_RESOLVER, NESTED_WORKSPACE, NOT_A_MEMBER, REPEATED_PACKAGE_NAME,
    UNKNOWN_DEFAULT_MEMBER, UNREADABLE_ROOT, UNUSED_WORKSPACE_DEPENDENCY, WRONG_WORKSPACE_PATH,
};
use manifest_rules::files::plain_path;
use manifest_rules::found::package_name;
use manifest_rules::look::{Edition, Look, Member, Root, items_in, table_in, text_in};
use manifest_rules::report::{At, File, Out, Part};
use std::alloc::{AllocError, Global};
use std::collections::{BTreeMap, BTreeSet};
use toml::{Table, Value};

/// All rules of a workspace's root, and of a member and its root.
pub fn workspace(look: &Look<'_>, out: &mut Out) {
    member_patterns(look, out);
    if let Some(members) = look.around.members {
        missing_members(look, members, out);
        default_members(look, members, out);
        members_alone(look, members, out);
        missing_resolver(look, members, out);
        unused_dependencies(look, out);
    }
    match look.around.root {
        Root::Unreadable(file) => unreadable_root(look, file, out),
        Root::Missing => wrong_workspace_path(look, out),
        Root::Found(root) => of_member(look, root, out),
        Root::Unknown => {}
    }
}

/// Where the fault of a pattern is, which is one of the crate `glob`: `*` may stand once or twice in a row, twice as a
/// whole part alone, and brackets are closed.
fn pattern_fault(pattern: &str) -> Option<&str> {
    for part in pattern.split('/') {
        if part.contains("***") {
            return Some("wildcards are either regular `*` or recursive `**`");
        }
        if part.contains("**") && part != "**" {
            return Some("recursive wildcards must form a single path component");
        }
    }
    bracket_fault(pattern)
}

/// A bracket that is not closed: after `[`, or `[!`, comes one character at least, and then `]`.
fn bracket_fault(pattern: &str) -> Option<&str> {
    let mut rest = pattern;
    for _ in 0..pattern.len() {
        let Some((_before, after)) = rest.split_once('[') else {
            return None;
        };
        let inner = after.strip_prefix('!').unwrap_or(after);
        let mut chars = inner.chars();
        if chars.next().is_none() {
            return Some("invalid range pattern");
        }
        let Some((_class, after_class)) = chars.as_str().split_once(']') else {
            return Some("invalid range pattern");
        };
        rest = after_class;
    }
    None
}

fn member_patterns(look: &Look<'_>, out: &mut Out) {
    let Some(workspace) = look.workspace else {
        return;
    };
    for key in ["members", "default-members"] {
        let mut index = 0usize;
        for item in items_in(workspace, key) {
            if let Value::String(pattern) = item {
                member_pattern(key, index, pattern.as_str(), out);
            }
            index = index.saturating_add(1);
        }
    }
}

fn member_pattern(key: &str, index: usize, pattern: &str, out: &mut Out) {
    let Some(fault) = pattern_fault(pattern) else {
        return;
    };
    let words = ["could not parse pattern `{}`: {}", pattern, fault];
    let path = [At::Key("workspace"), At::Key(key), At::Index(index)];
    out.value(INVALID_MEMBER_PATTERN, &path, &[], &words);
}

/// What the patterns of `members` lead to.
#[derive(Drop)]
struct PatternFolders<'a> {
    /// The indexes of those that lead to a member.
    patterns: BTreeSet<usize>,
    /// The first folder without a `Cargo.toml` of each of those that lead to one.
    bare: BTreeMap<usize, &'a str>,
}

fn fitted<'a>(alloc: Global, members: &'a [Member]) -> Result<PatternFolders<'a>, AllocError> {
    let mut fitted = PatternFolders {
        patterns: BTreeSet::new(alloc),
        bare: BTreeMap::new(alloc),
    };
    for member in members {
        for index in &member.patterns {
            if member.has_manifest {
                let _is_new = fitted.patterns.insert(*index)?;
            } else if !fitted.bare.contains_key(index) {
                let _none = fitted.bare.insert(*index, member.path.as_str())?;
            }
        }
    }
    Ok(fitted)
}

/// Each pattern leads to a member, and each folder to which it leads has a `Cargo.toml`.
fn missing_members(look: &Look<'_>, members: &[Member], out: &mut Out) {
    let Some(workspace) = look.workspace else {
        return;
    };
    let Some(found) = out.made(fitted(look.alloc, members)) else {
        return;
    };
    for (index, item) in items_in(workspace, "members").iter().enumerate() {
        if let Some(pattern) = item.as_str() {
            missing_member(&found, index, pattern, out);
        }
    }
}

fn missing_member(found: &PatternFolders<'_>, index: usize, pattern: &str, out: &mut Out) {
    let path = [At::Key("workspace"), At::Key("members"), At::Index(index)];
    if let Some(folder) = found.bare.get(&index) {
        let words = [
            "failed to load manifest for workspace member `{}`: the folder `{}` has no Cargo.toml",
            pattern,
            &**folder,
        ];
        out.value(MISSING_MEMBER, &path, &[], &words);
        return;
    }
    // (the root itself may stand there too)
    if found.patterns.contains(&index)
        || pattern_fault(pattern).is_some()
        || out.text(plain_path(out.alloc, pattern)).is_empty()
    {
        return;
    }
    let words = [
        "failed to load manifest for workspace member `{}`: it leads to no Cargo.toml",
        pattern,
    ];
    out.value(MISSING_MEMBER, &path, &[], &words);
}

fn default_members(look: &Look<'_>, members: &[Member], out: &mut Out) {
    let Some(workspace) = look.workspace else {
        return;
    };
    let mut paths = BTreeSet::new(look.alloc);
    for member in members {
        let path = out.text(member.path.clone());
        let _is_new = out.made(paths.insert(path).map_err(AllocError::from));
    }
    for (index, item) in items_in(workspace, "default-members").iter().enumerate() {
        if let Some(path) = item.as_str() {
            if out.made(is_default_member(look, &paths, path)) == Some(false) {
                unknown_default_member(index, path, out);
            }
        }
    }
}

/// Whether the path is that of a member or of the root, or a pattern.
fn is_default_member(
    look: &Look<'_>,
    paths: &BTreeSet<String>,
    path: &str,
) -> Result<bool, AllocError> {
    let plain = plain_path(look.alloc, path)?;
    let is_pattern = path.contains('*') || path.contains('?') || path.contains('[');
    let is_root = plain.is_empty() && look.package.is_some();
    Ok(is_pattern || is_root || paths.contains(plain.as_str()))
}

fn unknown_default_member(index: usize, path: &str, out: &mut Out) {
    let words = [
        "package `{}` is listed in default-members but is not a member",
        path,
    ];
    let at = [
        At::Key("workspace"),
        At::Key("default-members"),
        At::Index(index),
    ];
    out.value(UNKNOWN_DEFAULT_MEMBER, &at, &[], &words);
}

/// Says this of a member in the root: at the pattern that leads to it.
fn say_of_member(code: Code, member: &Member, words: &[&str], out: &mut Out) {
    match member.patterns.first().copied() {
        Some(index) => {
            let path = [At::Key("workspace"), At::Key("members"), At::Index(index)];
            out.value(code, &path, &[], words);
        }
        None => out.value(code, &[At::Key("workspace")], &[], words),
    }
}

/// No two members have one name, and none is a root itself.
fn members_alone(look: &Look<'_>, members: &[Member], out: &mut Out) {
    let mut names = BTreeMap::new(look.alloc);
    if let Some(own) = package_name(look) {
        let _none = out.made(names.insert(own, ".").map_err(AllocError::from));
    }
    for member in members {
        nested_workspace(member, out);
        let Some(name) = &member.name else {
            continue;
        };
        let name = name.as_str();
        let before = names.insert(name, member.path.as_str());
        if let Some(Some(other)) = out.made(before.map_err(AllocError::from)) {
            repeated_package_name(member, name, other, out);
        }
    }
}

fn nested_workspace(member: &Member, out: &mut Out) {
    let path = member.path.as_str();
    if !member.is_root || path.is_empty() {
        return;
    }
    let words = [
        "multiple workspace roots found in the same workspace: `{}` is one too",
        path,
    ];
    say_of_member(NESTED_WORKSPACE, member, &words, out);
}

fn repeated_package_name<'a>(member: &'a Member, name: &'a str, other: &'a str, out: &mut Out) {
    let words = [
        "two packages named `{}` in this workspace: `{}` and `{}`",
        name,
        other,
        member.path.as_str(),
    ];
    say_of_member(REPEATED_PACKAGE_NAME, member, &words, out);
}

/// Where there is no package and no resolver, Cargo takes the first one, whatever the editions of the members are.
fn missing_resolver(look: &Look<'_>, members: &[Member], out: &mut Out) {
    let Some(workspace) = look.workspace else {
        return;
    };
    if look.package.is_some() || workspace.contains_key("resolver") {
        return;
    }
    let mut latest = Edition::E2015;
    for member in members {
        if member.edition > latest {
            latest = member.edition;
        }
    }
    let (edition, resolver) = match latest {
        Edition::E2015 => return,
        Edition::E2018 => return,
        Edition::E2021 => ("2021", "2"),
        Edition::E2024 => ("2024", "3"),
    };
    let words = [
        "virtual workspace defaulting to `resolver = \"1\"` despite one or more workspace members being on edition {} which implies `resolver = \"{}\"`",
        edition,
        resolver,
    ];
    out.header(MISSING_RESOLVER, &[At::Key("workspace")], &[], &words);
}

fn unused_dependencies(look: &Look<'_>, out: &mut Out) {
    let Some(workspace) = look.workspace else {
        return;
    };
    let Some(shared) = table_in(workspace, "dependencies") else {
        return;
    };
    let Some(used) = out.made(inherited_dependencies(look)) else {
        return;
    };
    for (name, _dependency) in shared {
        let name = name.as_str();
        if !used.contains(name) {
            let words = ["no member inherits `workspace.dependencies.{}`", name];
            let path = [At::Key("workspace"), At::Key("dependencies"), At::Key(name)];
            out.key(UNUSED_WORKSPACE_DEPENDENCY, &path, &[], &words);
        }
    }
}

/// Says this where a package says that it belongs to a workspace: at `package.workspace`, or at the package itself.
fn say_of_package(look: &Look<'_>, code: Code, words: &[&str], out: &mut Out) {
    let says = match look.package {
        Some(package) => package.contains_key("workspace"),
        None => false,
    };
    let base = [At::Key(look.package_key)];
    if says {
        out.value(code, &base, &[At::Key("workspace")], words);
    } else {
        out.header(code, &base, &[], words);
    }
}

fn unreadable_root(look: &Look<'_>, file: &str, out: &mut Out) {
    let words = [
        "Cargo cannot read `{}`, where it looks for the root of the workspace",
        file,
    ];
    say_of_package(look, UNREADABLE_ROOT, &words, out);
}

fn wrong_workspace_path(look: &Look<'_>, out: &mut Out) {
    let Some(package) = look.package else {
        return;
    };
    let Some(path) = text_in(package, "workspace") else {
        return;
    };
    if look.workspace.is_some() {
        return;
    }
    let words = [
        "`package.workspace` leads to `{}`, where no workspace is",
        path,
    ];
    let at = [At::Key(look.package_key), At::Key("workspace")];
    out.value(WRONG_WORKSPACE_PATH, &at, &[], &words);
}

/// The rules of a package whose root is known.
fn of_member(look: &Look<'_>, root: &Table, out: &mut Out) {
    if look.package.is_none() {
        return;
    }
    if look.around.is_root {
        lints_not_inherited(look, root, out);
        return;
    }
    if look.around.is_listed == Some(false) {
        let words = [
            "current package believes it's in a workspace when it's not: the root neither lists nor excludes it",
        ];
        say_of_package(look, NOT_A_MEMBER, &words, out);
        return;
    }
    if look.around.is_listed != Some(true) {
        return;
    }
    ignored_in_member(look, root, out);
    lints_not_inherited(look, root, out);
}

/// What counts in the root alone.
fn ignored_in_member(look: &Look<'_>, root: &Table, out: &mut Out) {
    for key in ["profile", "patch", "replace"] {
        if look.document.contains_key(key) {
            say_ignored(&[At::Key(key)], key, out);
        }
    }
    let Some(package) = look.package else {
        return;
    };
    let Some(own) = text_in(package, "resolver") else {
        return;
    };
    if Some(own) == resolver_of(root) {
        return;
    }
    let path = [At::Key(look.package_key), At::Key("resolver")];
    say_ignored(&path, "resolver", out);
}

fn say_ignored(path: &[At<'_>], key: &str, out: &mut Out) {
    let words = [
        "`{}` for the non root package will be ignored, specify it at the workspace root",
        key,
    ];
    out.key(IGNORED_IN_MEMBER, path, &[], &words);
}

/// The resolver that a root says.
fn resolver_of<'a>(root: &'a Table) -> Option<&'a str> {
    for key in ["workspace", "package"] {
        if let Some(table) = table_in(root, key) {
            if let Some(resolver) = text_in(table, "resolver") {
                return Some(resolver);
            }
        }
    }
    None
}

fn lints_not_inherited(look: &Look<'_>, root: &Table, out: &mut Out) {
    let Some(workspace) = table_in(root, "workspace") else {
        return;
    };
    if !workspace.contains_key("lints") || look.document.contains_key("lints") {
        return;
    }
    let words = ["the lints of the workspace are not taken: `lints.workspace = true` takes them"];
    let path = [At::Key(look.package_key)];
    out.header(LINTS_NOT_INHERITED, &path, &[], &words);
    let lints = [At::Key("workspace"), At::Key("lints")];
    out.label(File::Root, Part::Header, &lints, &[], &["these"]);
}
