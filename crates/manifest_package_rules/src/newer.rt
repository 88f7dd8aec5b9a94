//! What is newer than the `rust-version` of a package says.
//! (<https://doc.rust-lang.org/cargo/CHANGELOG.html>)

use crate::cfg::facts;
use crate::package::rust_version_numbers;
use crate::platforms::expression;
use manifest_rules::codes::NEWER_THAN_RUST_VERSION;
use manifest_rules::look::{Look, items_in, table_in, text_in};
use manifest_rules::report::{At, Out, Part};
use std::alloc::{AllocError, Global};
use toml::{Table, Value};

/// All that is newer.
pub fn newer(look: &Look<'_>, out: &mut Out) {
    let Some(package) = look.package else {
        return;
    };
    let Some(text) = text_in(package, "rust-version") else {
        return;
    };
    let Some((1, minor)) = rust_version_numbers(text) else {
        return;
    };
    newer_in_package(look, minor, package, out);
    if let Some(workspace) = look.workspace {
        newer_in_workspace(minor, workspace, out);
    }
    newer_profiles(look, minor, out);
    newer_features(look, minor, out);
    newer_platforms(look, minor, out);
    newer_names(look, minor, out);
}

fn newer_in_package(look: &Look<'_>, minor: u64, package: &Table, out: &mut Out) {
    let base = [At::Key(look.package_key)];
    key(minor, 83, package, &base, "autolib", out);
    resolver(minor, package, &base, out);
    if !package.contains_key("version") {
        missing_version(minor, &base, out);
    }
    key(minor, 74, look.document, &[], "lints", out);
}

fn newer_in_workspace(minor: u64, workspace: &Table, out: &mut Out) {
    let base = [At::Key("workspace")];
    key(minor, 64, workspace, &base, "package", out);
    key(minor, 64, workspace, &base, "dependencies", out);
    key(minor, 74, workspace, &base, "lints", out);
    key(minor, 46, workspace, &base, "metadata", out);
    resolver(minor, workspace, &base, out);
}

/// Says that this, which stands at a path, is newer, where it is.
fn say(
    minor: u64,
    since: u64,
    part: Part,
    base: &[At<'_>],
    rest: &[At<'_>],
    what: &str,
    out: &mut Out,
) {
    if minor >= since {
        return;
    }
    let ages = out.text(format!(in out.alloc;
        " is known since Rust 1.{since}, and `rust-version` is 1.{minor}"
    ));
    out.say(
        NEWER_THAN_RUST_VERSION,
        part,
        base,
        rest,
        &["{}{}", what, ages.as_str()],
    );
}

/// A package without a version.
fn missing_version(minor: u64, base: &[At<'_>], out: &mut Out) {
    let what = "a package without a version";
    say(minor, 75, Part::Header, base, &[], what, out);
}

/// The resolver, whose versions are of different ages.
fn resolver(minor: u64, table: &Table, base: &[At<'_>], out: &mut Out) {
    let since = match text_in(table, "resolver") {
        Some("3") => 84,
        Some(_) => 51,
        None => return,
    };
    let rest = [At::Key("resolver")];
    say(minor, since, Part::Value, base, &rest, "this resolver", out);
}

fn key(minor: u64, since: u64, table: &Table, base: &[At<'_>], key: &str, out: &mut Out) {
    if minor >= since || !table.contains_key(key) {
        return;
    }
    let what = out.text(["`", key, "`"].concat(out.alloc));
    let rest = [At::Key(key)];
    say(minor, since, Part::Key, base, &rest, what.as_str(), out);
}

fn newer_profiles(look: &Look<'_>, minor: u64, out: &mut Out) {
    let Some(profiles) = table_in(look.document, "profile") else {
        return;
    };
    for (name, profile) in profiles {
        let name = name.as_str();
        let path = [At::Key("profile"), At::Key(name)];
        if !matches!(name, "dev" | "release" | "test" | "bench" | "doc") {
            let what = "a profile of one's own";
            say(minor, 57, Part::Key, &path, &[], what, out);
        }
        if let Value::Table(profile) = profile {
            key(minor, 59, profile, &path, "strip", out);
        }
    }
}

fn newer_features(look: &Look<'_>, minor: u64, out: &mut Out) {
    let Some(features) = table_in(look.document, "features") else {
        return;
    };
    for (name, _enabled) in features {
        let mut index = 0usize;
        for item in items_in(features, name.as_str()) {
            let path = [
                At::Key("features"),
                At::Key(name.as_str()),
                At::Index(index),
            ];
            if item.as_str().is_some_and(|text| text.starts_with("dep:")) {
                say(minor, 60, Part::Value, &path, &[], "`dep:`", out);
            }
            if item.as_str().is_some_and(|text| text.contains("?/")) {
                say(minor, 60, Part::Value, &path, &[], "`?/`", out);
            }
            index = index.saturating_add(1);
        }
    }
}

/// Platforms whose expression has `true` or `false` in it.
fn newer_platforms(look: &Look<'_>, minor: u64, out: &mut Out) {
    let Some(platforms) = table_in(look.document, "target") else {
        return;
    };
    for (name, _platform) in platforms {
        let name = name.as_str();
        let Some(text) = expression(name) else {
            continue;
        };
        if minor < 88 && out.made(has_boolean(look.alloc, text)) == Some(true) {
            let path = [At::Key("target"), At::Key(name)];
            let what = "a boolean in a `cfg`";
            say(minor, 88, Part::Key, &path, &[], what, out);
        }
    }
}

fn has_boolean(alloc: Global, text: &str) -> Result<bool, AllocError> {
    match facts(alloc, text)? {
        Ok(facts) => Ok(
            facts.iter().any(|fact| {
                !fact.is_raw && fact.value.is_none() && matches!(fact.name, "true" | "false")
            }),
        ),
        Err(_) => Ok(false),
    }
}

/// Dependencies by another name than their package's.
fn newer_names(look: &Look<'_>, minor: u64, out: &mut Out) {
    for section in &look.dependencies {
        for (name, dependency) in section.table {
            if let Value::Table(table) = dependency {
                if section.section.is_of_package() && table.contains_key("package") {
                    let base = section.path.as_slice();
                    let rest = [At::Key(name.as_str()), At::Key("package")];
                    let what = "`package` of a dependency";
                    say(minor, 31, Part::Key, base, &rest, what, out);
                }
            }
        }
    }
}
