//! Rules of `[package]` and of `[workspace.package]`.
//! (<https://doc.rust-lang.org/cargo/reference/manifest.html>)

use manifest_rules::codes::{
    INVALID_BUILD_PATH, INVALID_PACKAGE_NAME, INVALID_RUST_VERSION, INVALID_VERSION,
    LICENSE_AND_LICENSE_FILE, LINKS_WITHOUT_BUILD_SCRIPT, MISSING_BUILD_SCRIPT, MISSING_EDITION,
    MISSING_VERSION, RUST_VERSION_BELOW_EDITION, TWO_RESOLVERS, UNSTABLE_KEY,
    WORKSPACE_BESIDE_ROOT,
};
use manifest_rules::files::{FileState, file_state};
use manifest_rules::look::{Edition, Look, flag_in, table_in, text_in};
use manifest_rules::report::{At, File, Out, Part};
use manifest_rules::words::{WrongWord, name_fault, say_wrong_word, version_fault};
use std::alloc::{AllocError, Global};
use toml::{Table, Value};

/// All rules of a package.
pub fn package(look: &Look<'_>, out: &mut Out) {
    let workspace_path = [At::Key("workspace"), At::Key("package")];
    if let Some(workspace) = look.workspace {
        if let Some(shared) = table_in(workspace, "package") {
            version(&workspace_path, shared, false, out);
            rust_version(&workspace_path, shared, out);
        }
    }
    let Some(package) = look.package else {
        return;
    };
    let path = [At::Key(look.package_key)];
    package_name(&path, package, out);
    version(&path, package, true, out);
    missing_version(&path, package, out);
    rust_version(&path, package, out);
    missing_edition(&path, package, out);
    rust_version_below_edition(look, &path, package, out);
    license_and_license_file(&path, package, out);
    build_script(look, &path, package, out);
    links_without_build_script(look, &path, package, out);
    two_resolvers(look, &path, package, out);
    workspace_beside_root(look, &path, package, out);
}

fn package_name(path: &[At<'_>], package: &Table, out: &mut Out) {
    let Some(name) = text_in(package, "name") else {
        return;
    };
    let rest = [At::Key("name")];
    if let Some(fault) = name_fault(name) {
        let wrong = WrongWord {
            what: "package name",
            word: name,
            fault,
        };
        say_wrong_word(INVALID_PACKAGE_NAME, Part::Value, path, &rest, &wrong, out);
        return;
    }
    if name.contains("::") {
        let words = ["`::` in a package name wants the unstable feature `open-namespaces`"];
        out.value(UNSTABLE_KEY, path, &rest, &words);
    }
}

/// A version is a whole semantic version; of a package white space around it is cut off.
fn version(path: &[At<'_>], table: &Table, is_trimmed: bool, out: &mut Out) {
    let Some(written) = text_in(table, "version") else {
        return;
    };
    let text = if is_trimmed { written.trim() } else { written };
    let Some(Some(fault)) = out.made(version_fault(out.alloc, text)) else {
        return;
    };
    say_invalid_version(path, written, fault, out);
    for more in [".0", ".0.0"] {
        if say_whole_version(path, text, more, out) {
            break;
        }
    }
}

fn say_invalid_version(path: &[At<'_>], written: &str, fault: semver::Error, out: &mut Out) {
    let fault = out.shown(&fault);
    let words = ["invalid version `{}`: {}", written, fault.as_str()];
    out.value(INVALID_VERSION, path, &[At::Key("version")], &words);
}

/// Whether the text with more numbers is a version, which is suggested then.
fn say_whole_version<'a>(path: &[At<'_>], text: &'a str, more: &'a str, out: &mut Out) -> bool {
    if out.made(is_version(out.alloc, text, more)) != Some(true) {
        return false;
    }
    let words = ["a version has three numbers: `{}{}`", text, more];
    let value = ["\"{}{}\"", text, more];
    out.set(path, &[At::Key("version")], &value, false, &words);
    true
}

/// Whether the text with more after it is a version.
fn is_version<'a>(alloc: Global, text: &'a str, more: &'a str) -> Result<bool, AllocError> {
    let longer = [text, more].concat(alloc)?;
    version_fault(alloc, longer.as_str()).map(|fault| fault.is_none())
}

/// Whether the package is to be published: `publish` is true, or a list that is not empty.
fn is_published(package: &Table) -> bool {
    match package.get("publish") {
        Some(Value::Boolean(flag)) => *flag,
        Some(Value::Array(registries)) => !registries.is_empty(),
        _ => false,
    }
}

fn missing_version(path: &[At<'_>], package: &Table, out: &mut Out) {
    if package.contains_key("version") || !is_published(package) {
        return;
    }
    let words = ["`package.publish` requires `package.version` be specified"];
    out.header(MISSING_VERSION, path, &[], &words);
}

/// The numbers of a `rust-version`, of which there are one to three: the first two, where the second may be absent.
pub(crate) fn rust_version_numbers(text: &str) -> Option<(u64, u64)> {
    let mut numbers = [0u64; 3];
    let mut count = 0usize;
    for part in text.trim_matches(' ').split('.') {
        let number = plain_number(part)?;
        *numbers.get_mut(count)? = number;
        count = count.saturating_add(1);
    }
    Some((numbers[0], numbers[1]))
}

/// A number of digits alone, with no zero at its beginning.
fn plain_number(text: &str) -> Option<u64> {
    if text.is_empty() || text.len() > 19 || (text.len() > 1 && text.starts_with('0')) {
        return None;
    }
    let mut number = 0u64;
    for ch in text.chars() {
        let digit = ch.to_digit(10)?;
        number = number.checked_mul(10)?.checked_add(u64::from(digit))?;
    }
    Some(number)
}

fn rust_version(path: &[At<'_>], table: &Table, out: &mut Out) {
    let Some(text) = text_in(table, "rust-version") else {
        return;
    };
    if rust_version_numbers(text).is_some() {
        return;
    }
    let words = [
        "invalid `rust-version` `{}`: it has one, two or three numbers and nothing else, as `1.70`",
        text,
    ];
    out.value(
        INVALID_RUST_VERSION,
        path,
        &[At::Key("rust-version")],
        &words,
    );
}

/// A package without an edition has that of 2015, which Cargo warns of, unless its `rust-version` knows no other.
fn missing_edition(path: &[At<'_>], package: &Table, out: &mut Out) {
    if package.contains_key("edition") {
        return;
    }
    if let Some(text) = text_in(package, "rust-version") {
        match rust_version_numbers(text) {
            Some((1, minor)) if minor < 31 => return,
            Some((0, _)) => return,
            _ => {}
        }
    }
    let words = ["no edition set: defaulting to the 2015 edition while the latest is 2024"];
    out.header(MISSING_EDITION, path, &[], &words);
    let help = ["say which edition is meant, as `edition = \"2015\"`"];
    out.insert_text(path, &[At::Key("edition")], "2015", false, &help);
}

/// The minor version of Rust 1 from which on an edition is known, and its digits; nothing where each knows it.
fn first_of_edition<'a>(edition: Edition) -> Option<(u64, &'a str)> {
    match edition {
        Edition::E2015 => None,
        Edition::E2018 => Some((31, "31")),
        Edition::E2021 => Some((56, "56")),
        Edition::E2024 => Some((85, "85")),
    }
}

fn rust_version_below_edition(look: &Look<'_>, path: &[At<'_>], package: &Table, out: &mut Out) {
    let Some(text) = text_in(package, "rust-version") else {
        return;
    };
    let Some((major, minor)) = rust_version_numbers(text) else {
        return;
    };
    let Some((first, digits)) = first_of_edition(look.edition) else {
        return;
    };
    if major == 1 && minor >= first {
        return;
    }
    let words = [
        "`rust-version` `{}` is incompatible with the edition, which needs 1.{} or a later 1.x",
        text,
        digits,
    ];
    out.value(
        RUST_VERSION_BELOW_EDITION,
        path,
        &[At::Key("rust-version")],
        &words,
    );
    let edition = [At::Key("edition")];
    out.label(File::Own, Part::Value, path, &edition, &["the edition"]);
}

fn license_and_license_file(path: &[At<'_>], package: &Table, out: &mut Out) {
    if !package.contains_key("license") || !package.contains_key("license-file") {
        return;
    }
    let words = ["only one of `license` or `license-file` is necessary"];
    out.key(
        LICENSE_AND_LICENSE_FILE,
        path,
        &[At::Key("license-file")],
        &words,
    );
    let label = ["this is for a license that SPDX knows"];
    out.label(File::Own, Part::Key, path, &[At::Key("license")], &label);
}

/// The path of the build script that `build` names: a path, or `build.rs` where it is true.
fn build_path(package: &Table) -> Option<&str> {
    match package.get("build") {
        Some(Value::String(path)) => Some(path.as_str()),
        Some(Value::Boolean(true)) => Some("build.rs"),
        _ => None,
    }
}

/// A path has a file name: its last part is none of nothing, `.` and `..`.
fn has_file_name(path: &str) -> bool {
    let trimmed = path.trim_end_matches('/');
    match trimmed.rsplit('/').next() {
        Some(last) => !last.is_empty() && last != ".." && last != ".",
        None => false,
    }
}

fn build_script(look: &Look<'_>, path: &[At<'_>], package: &Table, out: &mut Out) {
    let Some(file) = build_path(package) else {
        return;
    };
    let rest = [At::Key("build")];
    if !has_file_name(file) {
        let words = ["the build script `{}` has no file name", file];
        out.value(INVALID_BUILD_PATH, path, &rest, &words);
        return;
    }
    if out.made(file_state(look, file)) == Some(FileState::Absent) {
        let words = ["couldn't find the build script `{}`", file];
        out.value(MISSING_BUILD_SCRIPT, path, &rest, &words);
    }
}

/// A package with `links` has a build script: one that `build` names, or `build.rs` where there is no `build`.
fn links_without_build_script(look: &Look<'_>, path: &[At<'_>], package: &Table, out: &mut Out) {
    if text_in(package, "links").is_none() || build_path(package).is_some() {
        return;
    }
    let is_off = flag_in(package, "build") == Some(false);
    if !is_off
        && (package.contains_key("build")
            || out.made(file_state(look, "build.rs")) != Some(FileState::Absent))
    {
        return;
    }
    let words = ["package specifies `links` but does not have a custom build script"];
    out.key(
        LINKS_WITHOUT_BUILD_SCRIPT,
        path,
        &[At::Key("links")],
        &words,
    );
}

fn two_resolvers(look: &Look<'_>, path: &[At<'_>], package: &Table, out: &mut Out) {
    let Some(workspace) = look.workspace else {
        return;
    };
    if !package.contains_key("resolver") || !workspace.contains_key("resolver") {
        return;
    }
    let words = ["cannot specify `resolver` in both `[workspace]` and `[package]`"];
    out.key(TWO_RESOLVERS, path, &[At::Key("resolver")], &words);
    let other = [At::Key("workspace"), At::Key("resolver")];
    let label = ["the resolver of the workspace"];
    out.label(File::Own, Part::Key, &other, &[], &label);
}

fn workspace_beside_root(look: &Look<'_>, path: &[At<'_>], package: &Table, out: &mut Out) {
    if look.workspace.is_none() || !package.contains_key("workspace") {
        return;
    }
    let words = [
        "cannot configure both `package.workspace` and `[workspace]`, only one can be specified",
    ];
    out.key(WORKSPACE_BESIDE_ROOT, path, &[At::Key("workspace")], &words);
}
