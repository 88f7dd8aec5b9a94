//! Rules of targets that look at the files of the package.

use crate::shared_files::shared_files;
use manifest_rules::codes::{
    AMBIGUOUS_TARGET_FILE, MISSING_TARGET_FILE, NO_TARGETS, REPEATED_TARGET_NAME,
    RESERVED_BINARY_NAME, UNDECLARED_TARGET_FILES, UNKNOWN_DEFAULT_RUN, WRONG_TARGET_PATH,
};
use manifest_rules::files::{FileState, file_state};
use manifest_rules::found::{
    Declared, FoundFile, LISTED, declared_of, declares, files_of, finds, has_file, package_name,
    says_auto,
};
use manifest_rules::look::{DeclaredTarget, Edition, Kind, Look, text_in};
use manifest_rules::report::{At, File, Out, Part};
use std::alloc::AllocError;
use std::collections::BTreeMap;

/// All rules of targets and their files.
pub fn target_files(look: &Look<'_>, out: &mut Out) {
    for target in &look.targets {
        reserved_name(target, out);
    }
    for kind in LISTED {
        targets_of_kind(look, kind, out);
    }
    let compared = shared_files(look, out);
    let _done = out.made(compared);
    if look.around.folders.is_none() || look.package.is_none() {
        return;
    }
    paths(look, out);
    no_targets(look, out);
    unknown_default_run(look, out);
}

/// The rules of the targets of this kind, declared and found.
fn targets_of_kind(look: &Look<'_>, kind: Kind, out: &mut Out) {
    let Some(declared) = out.made(declared_of(look, kind)) else {
        return;
    };
    repeated_names(look, kind, &declared, out);
    if look.around.folders.is_some() && look.package.is_some() {
        files_of_kind(look, kind, &declared, out);
    }
}

/// The rules of the files of declared targets that have a path, and of that of the library.
fn paths(look: &Look<'_>, out: &mut Out) {
    for target in &look.targets {
        match text_in(target.table, "path") {
            Some(path) => target_path(look, target, path, out),
            None if target.kind == Kind::Lib => library_file(look, target, out),
            None => {}
        }
    }
}

/// The rules of the files that are targets of this kind by where they stand.
fn files_of_kind(look: &Look<'_>, kind: Kind, declared: &Declared<'_>, out: &mut Out) {
    let Some(files) = out.made(files_of(look, kind)) else {
        return;
    };
    declared_files(look, kind, files.as_slice(), out);
    if finds(look, kind) {
        found_names(look, kind, files.as_slice(), declared, out);
    } else {
        undeclared_files(look, kind, files.as_slice(), declared, out);
    }
}

fn is_reserved(name: &str) -> bool {
    matches!(name, "deps" | "examples" | "build" | "incremental")
}

fn reserved_name(target: &DeclaredTarget<'_>, out: &mut Out) {
    let Some(name) = text_in(target.table, "name") else {
        return;
    };
    if target.kind != Kind::Bin || !is_reserved(name) {
        return;
    }
    say_reserved(
        Part::Value,
        target.path.as_slice(),
        &[At::Key("name")],
        name,
        out,
    );
}

fn say_reserved(part: Part, base: &[At<'_>], rest: &[At<'_>], name: &str, out: &mut Out) {
    let words = [
        "the binary target name `{}` is forbidden, it conflicts with cargo's build directory names",
        name,
    ];
    out.say(RESERVED_BINARY_NAME, part, base, rest, &words);
}

/// No two declared targets of one kind have one name.
fn repeated_names(look: &Look<'_>, kind: Kind, declared: &Declared<'_>, out: &mut Out) {
    for target in &look.targets {
        let Some(name) = text_in(target.table, "name") else {
            continue;
        };
        let Some(first) = declared.names.get(name) else {
            continue;
        };
        if target.kind == kind && first.path.as_slice() != target.path.as_slice() {
            repeated_name(target, first, name, out);
        }
    }
}

fn repeated_name(
    target: &DeclaredTarget<'_>,
    first: &DeclaredTarget<'_>,
    name: &str,
    out: &mut Out,
) {
    let rest = [At::Key("name")];
    say_repeated(
        Part::Value,
        target.path.as_slice(),
        &rest,
        target.kind,
        name,
        out,
    );
    let label = ["the first one of this name"];
    out.label(File::Own, Part::Value, first.path.as_slice(), &rest, &label);
}

fn say_repeated(
    part: Part,
    base: &[At<'_>],
    rest: &[At<'_>],
    kind: Kind,
    name: &str,
    out: &mut Out,
) {
    let of_kind = kind.words();
    let words = [
        "found duplicate {} name {}, but all {} targets must have a unique name",
        of_kind,
        name,
        of_kind,
    ];
    out.say(REPEATED_TARGET_NAME, part, base, rest, &words);
}

/// Each declared target of this kind that has no path has one of these files.
fn declared_files(look: &Look<'_>, kind: Kind, files: &[FoundFile], out: &mut Out) {
    let mut counts = BTreeMap::new(look.alloc);
    for file in files {
        let name = file.name.as_str();
        let count = counts.get(&name).copied().unwrap_or(0usize);
        let counted = counts.insert(name, count.saturating_add(1));
        let _before = out.made(counted.map_err(AllocError::from));
    }
    for target in &look.targets {
        let Some(name) = text_in(target.table, "name") else {
            continue;
        };
        if target.kind != kind || text_in(target.table, "path").is_some() {
            continue;
        }
        match counts.get(&name) {
            None => missing_file(look, target, name, out),
            Some(count) if *count > 1 => ambiguous_file(target, name, out),
            Some(_) => {}
        }
    }
}

fn target_path(look: &Look<'_>, target: &DeclaredTarget<'_>, path: &str, out: &mut Out) {
    let base = target.path.as_slice();
    let rest = [At::Key("path")];
    match out.made(file_state(look, path)) {
        Some(FileState::There | FileState::Unknown) | None => {}
        Some(FileState::Folder) => {
            let of_kind = target.kind.words();
            let words = [
                "path `{}` for the {} is a directory, but a source file was expected",
                path,
                of_kind,
            ];
            out.value(WRONG_TARGET_PATH, base, &rest, &words);
        }
        Some(FileState::Absent) => {
            let words = ["couldn't read `{}`: there is no such file", path];
            out.value(WRONG_TARGET_PATH, base, &rest, &words);
        }
    }
}

fn library_file(look: &Look<'_>, target: &DeclaredTarget<'_>, out: &mut Out) {
    if has_file(look, "src", "lib.rs") {
        return;
    }
    let name = match text_in(target.table, "name") {
        Some(name) => name,
        None => package_name(look).unwrap_or(""),
    };
    if look.edition == Edition::E2015 && out.made(has_file_of_name(look, name)) == Some(true) {
        return;
    }
    let words = [
        "can't find library `{}`, rename file to `src/lib.rs` or specify lib.path",
        name,
    ];
    out.header(MISSING_TARGET_FILE, target.path.as_slice(), &[], &words);
}

/// Whether the folder `src` has the file `NAME.rs`.
fn has_file_of_name(look: &Look<'_>, name: &str) -> Result<bool, AllocError> {
    let file = [name, ".rs"].concat(look.alloc)?;
    Ok(has_file(look, "src", file.as_str()))
}

fn missing_file(look: &Look<'_>, target: &DeclaredTarget<'_>, name: &str, out: &mut Out) {
    if look.edition == Edition::E2015
        && out.made(has_old_file(look, target.kind, name)) == Some(true)
    {
        return;
    }
    let folder = target.kind.folder();
    let of_kind = target.kind.words();
    let key = target.kind.path_key();
    let words = [
        "can't find `{}` {} at `{}/{}.rs` or `{}/{}/main.rs`. Please specify {} if you want to use a non-default path.",
        name,
        of_kind,
        folder,
        name,
        folder,
        name,
        key,
    ];
    out.header(MISSING_TARGET_FILE, target.path.as_slice(), &[], &words);
}

/// Whether a file stands where the edition 2015 looks too.
fn has_old_file(look: &Look<'_>, kind: Kind, name: &str) -> Result<bool, AllocError> {
    if has_file_of_name(look, name)? {
        return Ok(true);
    }
    match kind {
        Kind::Bin => Ok(has_file(look, "src/bin", "main.rs") || has_file(look, "src", "main.rs")),
        Kind::Bench => Ok(has_file(look, "src", "bench.rs")),
        _ => Ok(false),
    }
}

fn ambiguous_file(target: &DeclaredTarget<'_>, name: &str, out: &mut Out) {
    let of_kind = target.kind.words();
    let key = target.kind.path_key();
    let words = [
        "cannot infer path for `{}` {}: several files fit, so `{}` has to say which",
        name,
        of_kind,
        key,
    ];
    out.header(AMBIGUOUS_TARGET_FILE, target.path.as_slice(), &[], &words);
}

/// No two files of one kind are found with one name, and no binary with a name that Cargo keeps; but for those that the
/// manifest declares.
fn found_names(
    look: &Look<'_>,
    kind: Kind,
    files: &[FoundFile],
    declared: &Declared<'_>,
    out: &mut Out,
) {
    let mut seen = BTreeMap::new(look.alloc);
    for file in files {
        if declared.has(file) {
            continue;
        }
        if kind == Kind::Bin && is_reserved(file.name.as_str()) {
            reserved_file(look, file, out);
        }
        let Some(first) = seen.get(&file.name.as_str()) else {
            let kept = seen.insert(file.name.as_str(), file.path.as_str());
            let _none = out.made(kept.map_err(AllocError::from));
            continue;
        };
        repeated_file(look, kind, file, first, out);
    }
}

/// A binary that is found has a name that Cargo keeps: that of the package, or of its file.
fn reserved_file(look: &Look<'_>, file: &FoundFile, out: &mut Out) {
    let name = file.name.as_str();
    let path = file.path.as_str();
    let package = [At::Key(look.package_key)];
    if path == "src/main.rs" {
        say_reserved(Part::Value, &package, &[At::Key("name")], name, out);
    } else {
        say_reserved(Part::Header, &package, &[], name, out);
    }
    out.note(&["it is that of `{}`", path]);
}

fn repeated_file<'a>(
    look: &Look<'_>,
    kind: Kind,
    file: &'a FoundFile,
    first: &'a str,
    out: &mut Out,
) {
    let package = [At::Key(look.package_key)];
    say_repeated(Part::Header, &package, &[], kind, file.name.as_str(), out);
    out.note(&["`{}` and `{}` are both found", first, file.path.as_str()]);
}

/// In the edition 2015 files are not found where targets of their kind are declared, unless the package says so.
fn undeclared_files(
    look: &Look<'_>,
    kind: Kind,
    files: &[FoundFile],
    declared: &Declared<'_>,
    out: &mut Out,
) {
    if says_auto(look, kind).is_some() {
        return;
    }
    for file in files {
        if !declared.has(file) {
            undeclared_file(kind, file.path.as_str(), out);
            return;
        }
    }
}

fn undeclared_file(kind: Kind, path: &str, out: &mut Out) {
    let of_kind = kind.words();
    let words = [
        "an explicit {} section is specified in Cargo.toml which currently disables Cargo from automatically inferring other {} targets, as `{}`",
        of_kind,
        of_kind,
        path,
    ];
    let first = [At::Key(kind.key()), At::Index(0)];
    out.header(UNDECLARED_TARGET_FILES, &first, &[], &words);
}

/// Whether there is a file that is found as a target of this kind.
fn finds_any(look: &Look<'_>, kind: Kind, out: &mut Out) -> bool {
    if !finds(look, kind) {
        return false;
    }
    match out.made(files_of(look, kind)) {
        Some(files) => !files.is_empty(),
        None => false,
    }
}

/// A package has something to build.
fn no_targets(look: &Look<'_>, out: &mut Out) {
    if declares(look, Kind::Lib) || (finds(look, Kind::Lib) && has_file(look, "src", "lib.rs")) {
        return;
    }
    for kind in LISTED {
        if declares(look, kind) || finds_any(look, kind, out) {
            return;
        }
    }
    let words = [
        "no targets specified in the manifest\n  either src/lib.rs, src/main.rs, a [lib] section, or [[bin]] section must be present",
    ];
    out.header(NO_TARGETS, &[At::Key(look.package_key)], &[], &words);
}

/// `default-run` names a binary, declared or found.
fn unknown_default_run(look: &Look<'_>, out: &mut Out) {
    let Some(package) = look.package else {
        return;
    };
    let Some(name) = text_in(package, "default-run") else {
        return;
    };
    let Some(declared) = out.made(declared_of(look, Kind::Bin)) else {
        return;
    };
    if declared.names.contains_key(name) {
        return;
    }
    default_run_of_files(look, &declared, name, out);
}

/// The same for a name that no binary is declared by: it may be that of one that is found.
fn default_run_of_files(look: &Look<'_>, declared: &Declared<'_>, name: &str, out: &mut Out) {
    let Some(files) = out.made(files_of(look, Kind::Bin)) else {
        return;
    };
    let mut nearest = out.nearest(name);
    if finds(look, Kind::Bin) {
        for file in &files {
            if file.name.as_str() == name && !declared.has(file) {
                return;
            }
            out.offer(&mut nearest, file.name.as_str());
        }
    }
    for target in &look.targets {
        if target.kind == Kind::Bin {
            out.offer(&mut nearest, text_in(target.table, "name").unwrap_or(""));
        }
    }
    say_unknown_default_run(look.package_key, name, nearest.found(), out);
}

fn say_unknown_default_run(package: &str, name: &str, near: Option<&str>, out: &mut Out) {
    let path = [At::Key(package), At::Key("default-run")];
    let words = ["default-run target `{}` not found", name];
    out.value(UNKNOWN_DEFAULT_RUN, &path, &[], &words);
    if let Some(word) = near {
        out.help(&["a target with a similar name exists: `{}`", word]);
    }
}
