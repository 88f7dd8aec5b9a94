//! Keys that nothing reads: what each of them is.

ghost use Rattle.std.specs.Prelude.{◌≡◌, ◌∷◌, [], IfOk};
ghost use Rattle.manifest_fault.specs.Faults.{path_of};
ghost use Rattle.manifest_schema.specs.Findings.{unused};
ghost use Rattle.manifest_lint.specs.Lint.{reported_by};

use crate::diagnostic::{Diagnostic, Fix, Subject};
use crate::tables::{TableKind, is_dependencies, keys_of, table_kind, value_at};
use manifest_fault::{KeyPath, Step};
use manifest_places::Edit;
use manifest_rules::codes::{
    ARTIFACT_WITHOUT_ARTIFACT, BASE_WITHOUT_PATH, CARGO_KEY, CONFIGURATION_KEY, IGNORED_LINT_KEY,
    IGNORED_WHEN_INHERITED, MISPLACED_CARGO_FEATURES, MISSPELLED_KEY, NOT_TRUE, OLD_SPELLING,
    REMOVED_DIR_NAME, UNKNOWN_KEY, UNSTABLE_KEY,
};
use manifest_rules::{Code, Edition, Nearest, Part, copied};
use std::alloc::{AllocError, Global};
use toml::{Table, Value};

/// What is known of a key that Cargo reads, or that it read once.
#[derive(Clone, Copy)]
struct Known {
    code: Code,
    /// What there is to say of it.
    says: &'static str,
}

/// A key that Cargo reads and this library does not keep.
fn cargo(says: &'static str) -> Known {
    Known {
        code: CARGO_KEY,
        says,
    }
}

/// A key for which Cargo wants a nightly toolchain.
fn unstable(says: &'static str) -> Known {
    Known {
        code: UNSTABLE_KEY,
        says,
    }
}

fn known_at_top(key: &str) -> Option<Known> {
    match key {
        "project" => Some(Known {
            code: OLD_SPELLING,
            says: "`project` is the old name of `package`, which is read in its place",
        }),
        "replace" => Some(cargo(
            "`replace` is read by Cargo, which prefers `patch`, and is not kept here",
        )),
        "hints" => Some(cargo("`hints` is read by Cargo since 1.90, and is not kept here")),
        "paths"
        | "alias"
        | "build"
        | "credential-alias"
        | "doc"
        | "env"
        | "future-incompat-report"
        | "cache"
        | "cargo-new"
        | "http"
        | "install"
        | "net"
        | "resolver"
        | "registries"
        | "registry"
        | "source"
        | "term" => Some(Known {
            code: CONFIGURATION_KEY,
            says: "this table belongs into `.cargo/config.toml`",
        }),
        _ => None,
    }
}

fn known_in_package(key: &str) -> Option<Known> {
    match key {
        "cargo-features" => Some(Known {
            code: MISPLACED_CARGO_FEATURES,
            says: "`cargo-features` belongs to the top of the manifest",
        }),
        "metabuild" => Some(unstable("`metabuild` wants the unstable feature `metabuild`")),
        "default-target" => {
            Some(unstable("`default-target` wants the unstable feature `per-package-target`"))
        }
        "forced-target" => {
            Some(unstable("`forced-target` wants the unstable feature `per-package-target`"))
        }
        "im-a-teapot" => Some(unstable("`im-a-teapot` is for the tests of Cargo")),
        _ => None,
    }
}

/// Whether the path leads into the dependencies of a package, or of a platform.
fn is_of_package(path: &[Step]) -> bool {
    match path.first() {
        Some(Step::Key(first)) => is_dependencies(first.as_str()) || first.as_str() == "target",
        _ => false,
    }
}

fn is_false(document: &Table, path: &[Step]) -> bool {
    match value_at(document, path) {
        Some(Value::Boolean(flag)) => !*flag,
        _ => false,
    }
}

/// Of a key that stands without the one that it goes with.
fn lone(code: Code, says: &'static str) -> Known {
    Known { code, says }
}

/// What is known of a key of a dependency, by the table in which it stands.
fn known_in_dependency(document: &Table, path: &[Step], key: &str) -> Option<Known> {
    match key {
        // (what is no boolean Cargo ignores, and only a dependency of a package can be inherited)
        "workspace" if is_of_package(path) && is_false(document, path) => {
            Some(lone(NOT_TRUE, "`workspace` cannot be false"))
        }
        "public" => Some(PUBLIC),
        "artifact" => Some(unstable("`artifact` wants the unstable option `-Z bindeps`")),
        "lib" | "target" if !has_beside(document, path, "artifact") => {
            Some(lone(
                ARTIFACT_WITHOUT_ARTIFACT,
                "it is allowed only with `artifact`",
            ))
        }
        "lib" | "target" => Some(unstable("it wants the unstable option `-Z bindeps`")),
        "base" if !has_beside(document, path, "path") => {
            Some(lone(BASE_WITHOUT_PATH, "`base` is allowed only with `path`"))
        }
        "base" => Some(unstable("`base` wants the unstable feature `path-bases`")),
        _ => None,
    }
}

const PUBLIC: Known = Known {
    code: UNSTABLE_KEY,
    says: "`public` wants the unstable feature `public-dependency`",
};

fn known_in_profile(key: &str) -> Option<Known> {
    match key {
        "dir-name" => Some(Known {
            code: REMOVED_DIR_NAME,
            says: "`dir-name` was removed: the folder has the name of the profile",
        }),
        "codegen-backend" => {
            Some(unstable("`codegen-backend` wants the unstable feature `codegen-backend`"))
        }
        "rustflags" => Some(unstable("`rustflags` wants the unstable feature `profile-rustflags`")),
        "trim-paths" => Some(unstable("`trim-paths` wants the unstable feature `trim-paths`")),
        "hint-mostly-unused" => {
            Some(unstable("`hint-mostly-unused` wants the unstable option of that name"))
        }
        _ => None,
    }
}

fn known_in_target(path: &[Step], key: &str) -> Option<Known> {
    match key {
        "doc-scrape-examples" => {
            Some(cargo("`doc-scrape-examples` is read by Cargo since 1.67, and is not kept here"))
        }
        "filename" if path.len() == 2 => {
            Some(cargo("`filename` of a library is read by Cargo, and has no effect"))
        }
        "filename" => {
            Some(unstable("`filename` wants the unstable feature `different-binary-name`"))
        }
        _ => None,
    }
}

fn known_in_lint(path: &[Step], key: &str) -> Known {
    match path.get(path.len().saturating_sub(2)) {
        Some(Step::Key(lint)) if key == "check-cfg" && lint.as_str() == "unexpected_cfgs" => {
            cargo("`check-cfg` is read by Cargo since 1.80, and is not kept here")
        }
        _ => Known {
            code: IGNORED_LINT_KEY,
            says: "a lint has a level and a priority, and Cargo ignores all else",
        },
    }
}

/// What is known of this key in a table of this kind.
fn known_in(document: &Table, kind: TableKind, path: &[Step], key: &str) -> Option<Known> {
    match kind {
        TableKind::Top => known_at_top(key),
        TableKind::Package => known_in_package(key),
        TableKind::WorkspacePackage => match key {
            "badges" => Some(cargo("`badges` is read by Cargo, and nothing takes them")),
            _ => None,
        },
        TableKind::Dependency => known_in_dependency(document, path, key),
        TableKind::MemberDependency => match key {
            "public" => Some(PUBLIC),
            _ => Some(BESIDE_WORKSPACE),
        },
        TableKind::InheritedField => Some(BESIDE_WORKSPACE),
        TableKind::Profile => known_in_profile(key),
        TableKind::Target => known_in_target(path, key),
        TableKind::Lint => Some(known_in_lint(path, key)),
        TableKind::SharedDependency => Some(cargo(
            "Cargo reads it whatever `workspace` says here, and this library does not keep it",
        )),
        TableKind::Badges => Some(cargo(
            "Cargo takes any badge, and this library keeps those that crates.io has shown",
        )),
        _ => None,
    }
}

/// Of a key that stands with `workspace = true`.
const BESIDE_WORKSPACE: Known = Known {
    code: IGNORED_WHEN_INHERITED,
    says: "Cargo ignores it next to `workspace = true`",
};

/// Whether the table in which the path ends has this key too.
fn has_beside(document: &Table, path: &[Step], key: &str) -> bool {
    match path.split_last() {
        Some((_key, above)) => has_key(document, above, key),
        None => false,
    }
}

/// The key that may have been meant in a table of this kind.
fn nearest_key<'a>(
    alloc: Global,
    kind: TableKind,
    key: &'a str,
) -> Result<Option<&'a str>, AllocError> {
    let mut nearest = Nearest::to(key);
    for row in keys_of(kind) {
        nearest.offer(alloc, row.first)?;
    }
    Ok(nearest.found())
}

fn has_key(document: &Table, above: &[Step], key: &str) -> bool {
    if above.is_empty() {
        return document.contains_key(key);
    }
    match value_at(document, above) {
        Some(value) => value.get(key).is_some(),
        None => false,
    }
}

/// What is said of a key that is known, or of one that is not: its code and its message.
fn words_of(
    alloc: Global,
    known: Option<Known>,
    nearest: Option<&str>,
    name: &str,
) -> Result<(Code, String), AllocError> {
    match known {
        Some(known) => Ok((known.code, String::from_str(alloc, known.says)?)),
        None => {
            let code = if nearest.is_some() {
                MISSPELLED_KEY
            } else {
                UNKNOWN_KEY
            };
            Ok((code, format!(in alloc; "unused manifest key: {name}")?))
        }
    }
}

/// The diagnostic of a key that nothing reads, at its path.
pub(crate) fn unused_key(
    alloc: Global,
    document: &Table,
    edition: Edition,
    path: KeyPath,
    key: &str,
) -> Result<Diagnostic, AllocError>
    ensures { IfOk result (λ d. reported_by d.subject d ≡ unused (path_of path) ∷ []) }
{
    let (code, message, nearest) = report_of_key(alloc, document, &path, key)?;
    let fix = match nearest {
        Some(word) => Some(rename_fix(alloc, document, &path, word)?),
        None => None,
    };
    let mut diagnostic = Diagnostic::new(
        alloc,
        code,
        edition,
        Subject::Unused,
        path,
        if code == NOT_TRUE {
            Part::Value
        } else {
            Part::Key
        },
        message,
    );
    if let Some(fix) = fix {
        diagnostic.fixes.push(fix)?;
    }
    Ok(diagnostic)
}

/// The code, the message and the key that may have been meant.
fn report_of_key<'a>(
    alloc: Global,
    document: &Table,
    path: &KeyPath,
    key: &'a str,
) -> Result<(Code, String, Option<&'a str>), AllocError> {
    let above = above_of(path);
    let kind = table_kind(document, above);
    let known = known_in(document, kind, path.steps.as_slice(), key);
    let nearest = match known {
        Some(_) => None,
        None => nearest_key(alloc, kind, key)?,
    };
    let name = path.to_text(alloc)?;
    let (code, message) = words_of(alloc, known, nearest, name.as_str())?;
    Ok((code, message, nearest))
}

fn above_of(path: &KeyPath) -> &[Step] {
    match path.steps.as_slice().split_last() {
        Some((_key, above)) => above,
        None => &[],
    }
}

/// The suggestion to give the entry at the path another key; in words alone where its table has that key too.
fn rename_fix(
    alloc: Global,
    document: &Table,
    path: &KeyPath,
    word: &str,
) -> Result<Fix, AllocError> {
    let mut edits = Vec::new(alloc);
    if !has_key(document, above_of(path), word) {
        let steps = copied(alloc, path.steps.as_slice())?;
        edits.push(Edit::Rename(steps, String::from_str(alloc, word)?))?;
    }
    Ok(Fix {
        text: format!(in alloc; "a key with a similar name exists: `{word}`")?,
        edits,
        replaced: Vec::new(alloc),
        is_certain: false,
    })
}
