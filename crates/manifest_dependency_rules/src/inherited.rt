//! Rules of what a member inherits from its workspace.
//! (<https://doc.rust-lang.org/cargo/reference/workspaces.html>)

use manifest_rules::codes::{
    IGNORED_DEFAULT_FEATURES, NO_WORKSPACE, NOT_IN_WORKSPACE, OLD_SPELLING,
};
use manifest_rules::look::{Look, Root, flag_in, inherits, table_in};
use manifest_rules::report::{At, File, Out, Part};
use std::alloc::AllocError;
use std::collections::BTreeSet;
use toml::{Table, Value};

/// All rules of what is inherited.
pub fn inherited(look: &Look<'_>, out: &mut Out) {
    match look.around.root {
        Root::Unknown => {}
        Root::Unreadable(_) => {}
        Root::Missing => no_workspace(look, out),
        Root::Found(document) => match table_in(document, "workspace") {
            Some(workspace) => {
                fields(look, workspace, out);
                dependencies(look, workspace, out);
                lints(look, workspace, out);
            }
            None => no_workspace(look, out),
        },
    }
}

/// The fields that a package may inherit.
static FIELDS: [&str; 16] = [
    "edition",
    "version",
    "authors",
    "description",
    "homepage",
    "documentation",
    "readme",
    "keywords",
    "categories",
    "license",
    "license-file",
    "repository",
    "rust-version",
    "exclude",
    "include",
    "publish",
];

/// The first thing that is inherited where there is no workspace. (One is said of it: the others have the same reason.)
fn no_workspace(look: &Look<'_>, out: &mut Out) {
    let words = ["failed to find a workspace root"];
    if let Some(package) = look.package {
        for field in &FIELDS {
            if inherits(package, *field) {
                let path = [At::Key(look.package_key), At::Key(*field)];
                out.key(NO_WORKSPACE, &path, &[], &words);
                return;
            }
        }
    }
    for section in &look.dependencies {
        for (name, dependency) in section.table {
            if section.inherits(dependency) {
                let rest = [At::Key(name.as_str())];
                out.key(NO_WORKSPACE, section.path.as_slice(), &rest, &words);
                return;
            }
        }
    }
    if inherits(look.document, "lints") {
        out.key(NO_WORKSPACE, &[At::Key("lints")], &[], &words);
    }
}

/// The second place of what a workspace lacks: a table of the root.
fn not_in_root(path: &[At<'_>], out: &mut Out) {
    out.label(File::Root, Part::Header, path, &[], &["it is not here"]);
}

fn fields(look: &Look<'_>, workspace: &Table, out: &mut Out) {
    let Some(package) = look.package else {
        return;
    };
    let shared = table_in(workspace, "package");
    for field in &FIELDS {
        let field = *field;
        if !inherits(package, field) {
            continue;
        }
        if shared.is_some_and(|shared| is_shared(shared, field)) {
            continue;
        }
        let words = [
            "error inheriting `{}` from workspace root manifest's `workspace.package.{}`: it is not defined",
            field,
            field,
        ];
        let path = [At::Key(look.package_key), At::Key(field)];
        out.key(NOT_IN_WORKSPACE, &path, &[], &words);
        not_in_root(&[At::Key("workspace"), At::Key("package")], out);
    }
}

/// Whether the table `workspace.package` gives this field to members. Where it has no `readme`, Cargo looks for the file in
/// the folder of the root.
fn is_shared(shared: &Table, field: &str) -> bool {
    if field == "readme" {
        flag_in(shared, field) != Some(false)
    } else {
        shared.contains_key(field)
    }
}

/// The dependencies of the workspace that the package or a member inherits, as far as that is known.
pub(crate) fn inherited_dependencies(look: &Look<'_>) -> Result<BTreeSet<String>, AllocError> {
    let mut names = BTreeSet::new(look.alloc);
    for member in look.around.members.unwrap_or(&[]) {
        for name in &member.inherited {
            let _is_new = names.insert(name.clone()?)?;
        }
    }
    for section in &look.dependencies {
        for (name, dependency) in section.table {
            if section.inherits(dependency) {
                let _is_new = names.insert(String::from_str(look.alloc, name.as_str())?)?;
            }
        }
    }
    Ok(names)
}

fn dependencies(look: &Look<'_>, workspace: &Table, out: &mut Out) {
    let shared = table_in(workspace, "dependencies");
    for section in &look.dependencies {
        for (name, dependency) in section.table {
            if !section.inherits(dependency) {
                continue;
            }
            let name = name.as_str();
            let base = section.path.as_slice();
            match shared.and_then(|shared| shared.get(name)) {
                None => unknown_dependency(base, name, shared, out),
                Some(shared) => default_features(look, base, name, dependency, shared, out),
            }
        }
    }
}

fn unknown_dependency<'a>(
    base: &[At<'_>],
    name: &'a str,
    shared: Option<&'a Table>,
    out: &mut Out,
) {
    let near = match shared {
        Some(shared) => nearest_key(name, shared, out),
        None => None,
    };
    let rest = [At::Key(name)];
    let words = [
        "`dependency.{}` was not found in `workspace.dependencies`",
        name,
    ];
    out.key(NOT_IN_WORKSPACE, base, &rest, &words);
    not_in_root(&[At::Key("workspace"), At::Key("dependencies")], out);
    let Some(word) = near else {
        return;
    };
    let help = ["a dependency with a similar name exists: `{}`", word];
    out.rename(base, &rest, word, false, &help);
}

/// The key of the table that is nearest to a name.
fn nearest_key<'a>(name: &'a str, table: &'a Table, out: &mut Out) -> Option<&'a str> {
    let mut nearest = out.nearest(name);
    for (key, _value) in table {
        out.offer(&mut nearest, key.as_str());
    }
    nearest.found()
}

/// The key by which a table says whether the default features are wanted.
fn default_features_key(table: &Table) -> Option<&'static str> {
    for key in ["default-features", "default_features"] {
        if table.contains_key(key) {
            return Some(key);
        }
    }
    None
}

/// What a table says of the default features.
fn default_features_of(table: &Table) -> Option<bool> {
    flag_in(table, default_features_key(table)?)
}

/// `default-features = false` of a member counts for nothing where the workspace does not say false.
fn default_features(
    look: &Look<'_>,
    base: &[At<'_>],
    name: &str,
    dependency: &Value,
    shared: &Value,
    out: &mut Out,
) {
    let shared = match shared.as_table() {
        Some(table) => {
            old_spelling_in_root(look, base, name, table, out);
            default_features_of(table)
        }
        None => None,
    };
    let Some(own) = dependency.as_table() else {
        return;
    };
    let Some(key) = default_features_key(own) else {
        return;
    };
    if flag_in(own, key) != Some(false) || shared == Some(false) {
        return;
    }
    ignored_default_features(base, name, key, out);
}

fn ignored_default_features(base: &[At<'_>], name: &str, key: &'static str, out: &mut Out) {
    let rest = [At::Key(name), At::Key(key)];
    let words = [
        "`{}` is ignored for {}, since it is not false for `workspace.dependencies.{}`, and this is refused in the 2024 edition",
        key,
        name,
        name,
    ];
    out.key(IGNORED_DEFAULT_FEATURES, base, &rest, &words);
    let root = [At::Key("workspace"), At::Key("dependencies"), At::Key(name)];
    out.label(File::Root, Part::Value, &root, &[], &["what is inherited"]);
    out.remove(base, &rest, true, &["remove it"]);
}

/// `default_features` of a dependency of the workspace, which a member inherits.
fn old_spelling_in_root(
    look: &Look<'_>,
    base: &[At<'_>],
    name: &str,
    shared: &Table,
    out: &mut Out,
) {
    if look.around.is_root
        || !shared.contains_key("default_features")
        || shared.contains_key("default-features")
    {
        return;
    }
    let words = [
        "`default_features` of `workspace.dependencies.{}` is deprecated in favor of `default-features`",
        name,
    ];
    out.key(OLD_SPELLING, base, &[At::Key(name)], &words);
    let root = [At::Key("workspace"), At::Key("dependencies"), At::Key(name)];
    let rest = [At::Key("default_features")];
    out.label(File::Root, Part::Key, &root, &rest, &["it stands here"]);
}

fn lints(look: &Look<'_>, workspace: &Table, out: &mut Out) {
    let Some(own) = table_in(look.document, "lints") else {
        return;
    };
    if flag_in(own, "workspace") != Some(true) || workspace.contains_key("lints") {
        return;
    }
    let words = [
        "error inheriting `lints` from workspace root manifest's `workspace.lints`: it is not defined",
    ];
    out.key(NOT_IN_WORKSPACE, &[At::Key("lints")], &[], &words);
    not_in_root(&[At::Key("workspace")], out);
}
