//! Rules of the targets that a manifest declares: their names, their types and their features.
//! (<https://doc.rust-lang.org/cargo/reference/cargo-targets.html>)

use manifest_rules::codes::{
    CRATE_TYPE_OF_BINARY, DYLIB_AND_CDYLIB, EDITION_OF_TARGET, EMPTY_TARGET_NAME,
    INVALID_LIBRARY_NAME, INVALID_LIBRARY_TYPE, INVALID_REQUIRED_FEATURE, INVALID_TARGET_NAME,
    Level, MISSING_TARGET_NAME, PROC_MACRO_BINARY, PROC_MACRO_CRATE_TYPE, UNKNOWN_CRATE_TYPE,
    UNKNOWN_REQUIRED_FEATURE,
};
use manifest_rules::look::{DeclaredTarget, Kind, Look, flag_in, items_in, table_in, text_in};
use manifest_rules::report::{At, Out};
use std::alloc::{AllocError, Global};
use toml::Value;

/// All rules of declared targets that look at the text alone.
pub fn targets(look: &Look<'_>, out: &mut Out) {
    for target in &look.targets {
        target_name(target, out);
        crate_types(target, out);
        proc_macro_binary(target, out);
        edition_of_target(target, out);
        required_features(look, target, out);
    }
}

fn target_name(target: &DeclaredTarget<'_>, out: &mut Out) {
    let path = target.path.as_slice();
    let of_kind = target.kind.words();
    let Some(name) = text_in(target.table, "name") else {
        if target.kind == Kind::Lib || target.table.contains_key("name") {
            return;
        }
        missing_target_name(path, of_kind, out);
        return;
    };
    if name.trim().is_empty() {
        empty_target_name(path, of_kind, out);
        return;
    }
    if target.kind == Kind::Lib && name.contains('-') {
        library_name_with_hyphen(path, name, out);
        return;
    }
    if has_other_characters(name) {
        let words = ["invalid character in crate name: `{}`", name];
        out.value(INVALID_TARGET_NAME, path, &[At::Key("name")], &words);
    }
}

fn missing_target_name(path: &[At<'_>], of_kind: &str, out: &mut Out) {
    let words = ["{} target `{}.name` is required", of_kind, of_kind];
    out.header(MISSING_TARGET_NAME, path, &[], &words);
}

fn empty_target_name(path: &[At<'_>], of_kind: &str, out: &mut Out) {
    let words = ["{} target names cannot be empty", of_kind];
    out.value(EMPTY_TARGET_NAME, path, &[At::Key("name")], &words);
}

fn library_name_with_hyphen(path: &[At<'_>], name: &str, out: &mut Out) {
    let rest = [At::Key("name")];
    let words = ["library target names cannot contain hyphens: {}", name];
    out.value(INVALID_LIBRARY_NAME, path, &rest, &words);
    if has_other_characters(name) {
        return;
    }
    let other = out.text(without_hyphens(out.alloc, name));
    let other = other.as_str();
    let help = ["write `{}`", other];
    out.set(path, &rest, &["\"{}\"", other], false, &help);
}

/// The same name with `_` in place of `-`.
fn without_hyphens(alloc: Global, name: &str) -> Result<String, AllocError> {
    let mut other = String::new(alloc);
    for ch in name.chars() {
        other.push(if ch == '-' { '_' } else { ch })?;
    }
    Ok(other)
}

/// Whether rustc refuses the name of a crate: it has another character than letters, digits, `_` and `-`.
fn has_other_characters(name: &str) -> bool {
    for ch in name.chars() {
        if !ch.is_alphanumeric() && ch != '_' && ch != '-' {
            return true;
        }
    }
    false
}

/// The crate types of a target, and the key under which they stand.
fn types_of<'a>(target: &DeclaredTarget<'a>) -> Option<(&'static str, &'a [Value])> {
    for key in ["crate-type", "crate_type"] {
        if let Some(Value::Array(items)) = target.table.get(key) {
            return Some((key, items.as_slice()));
        }
    }
    None
}

fn has_type(items: &[Value], name: &str) -> bool {
    for item in items {
        if item.as_str() == Some(name) {
            return true;
        }
    }
    false
}

fn crate_types(target: &DeclaredTarget<'_>, out: &mut Out) {
    let Some((key, items)) = types_of(target) else {
        return;
    };
    match target.kind {
        Kind::Bin if !items.is_empty() => {
            let words = ["a binary target cannot have a crate type"];
            let path = target.path.as_slice();
            out.value(CRATE_TYPE_OF_BINARY, path, &[At::Key(key)], &words);
        }
        Kind::Lib => library_types(target, key, items, out),
        Kind::Example => unknown_types(target, key, items, out),
        _ => {}
    }
}

fn library_types(target: &DeclaredTarget<'_>, key: &str, items: &[Value], out: &mut Out) {
    let path = target.path.as_slice();
    if has_type(items, "dylib") && has_type(items, "cdylib") {
        let words = ["library target cannot set the crate type of both `dylib` and `cdylib`"];
        out.value(DYLIB_AND_CDYLIB, path, &[At::Key(key)], &words);
    }
    if items.is_empty() {
        let words = ["a library target has at least one crate type"];
        out.value(INVALID_LIBRARY_TYPE, path, &[At::Key(key)], &words);
        return;
    }
    if has_type(items, "proc-macro") {
        proc_macro_type(path, key, items, out);
    }
    unknown_types(target, key, items, out);
}

/// `proc-macro` is said by its own key; among the crate types Cargo warns of it, and refuses it with others.
fn proc_macro_type(path: &[At<'_>], key: &str, items: &[Value], out: &mut Out) {
    let index = items
        .iter()
        .position(|item| item.as_str() == Some("proc-macro"))
        .unwrap_or(0);
    let rest = [At::Key(key), At::Index(index)];
    if items.len() > 1 {
        let words = ["cannot mix `proc-macro` crate type with others"];
        out.value(PROC_MACRO_CRATE_TYPE, path, &rest, &words);
        out.at_level(Level::Error);
        return;
    }
    let words = ["library should only specify `proc-macro = true` instead of setting `crate-type`"];
    out.value(PROC_MACRO_CRATE_TYPE, path, &rest, &words);
}

fn unknown_types(target: &DeclaredTarget<'_>, key: &str, items: &[Value], out: &mut Out) {
    let mut index = 0usize;
    for item in items {
        if let Some(name) = item.as_str() {
            unknown_type(target, &[At::Key(key), At::Index(index)], name, out);
        }
        index = index.saturating_add(1);
    }
}

/// The crate types that rustc knows, but for `bin`.
static CRATE_TYPES: [&str; 6] = ["lib", "rlib", "dylib", "cdylib", "staticlib", "proc-macro"];

fn unknown_type(target: &DeclaredTarget<'_>, rest: &[At<'_>], name: &str, out: &mut Out) {
    let path = target.path.as_slice();
    if name == "bin" && target.kind == Kind::Lib {
        let words = ["a library target cannot have the crate type `bin`"];
        out.value(INVALID_LIBRARY_TYPE, path, rest, &words);
        return;
    }
    if name == "bin" || CRATE_TYPES.contains(&name) {
        return;
    }
    let words = ["unknown crate type: `{}`", name];
    out.value(UNKNOWN_CRATE_TYPE, path, rest, &words);
}

fn proc_macro_binary(target: &DeclaredTarget<'_>, out: &mut Out) {
    if target.kind != Kind::Bin {
        return;
    }
    let path = target.path.as_slice();
    for key in ["proc-macro", "proc_macro"] {
        if flag_in(target.table, key) == Some(true) {
            let words = ["a binary target cannot be a procedural macro"];
            out.value(PROC_MACRO_BINARY, path, &[At::Key(key)], &words);
        }
    }
}

fn edition_of_target(target: &DeclaredTarget<'_>, out: &mut Out) {
    if !target.table.contains_key("edition") {
        return;
    }
    let of_kind = target.kind.words();
    say_edition(target.path.as_slice(), of_kind, out);
}

fn say_edition(path: &[At<'_>], of_kind: &str, out: &mut Out) {
    let words = [
        "`edition` is set on the {}, which is deprecated: it is set on the package",
        of_kind,
    ];
    out.key(EDITION_OF_TARGET, path, &[At::Key("edition")], &words);
}

fn required_features(look: &Look<'_>, target: &DeclaredTarget<'_>, out: &mut Out) {
    let key = if target.table.contains_key("required-features") {
        "required-features"
    } else {
        return;
    };
    let mut index = 0usize;
    for item in items_in(target.table, key) {
        if let Value::String(name) = item {
            let rest = [At::Key(key), At::Index(index)];
            required_feature(look, target.path.as_slice(), &rest, name.as_str(), out);
        }
        index = index.saturating_add(1);
    }
}

/// A required feature is one of the package, or one of a dependency as `x/y`.
fn required_feature(look: &Look<'_>, path: &[At<'_>], rest: &[At<'_>], name: &str, out: &mut Out) {
    if name.starts_with("dep:") || name.contains("?/") {
        let words = ["`{}` is not a valid required feature", name];
        out.value(INVALID_REQUIRED_FEATURE, path, rest, &words);
        return;
    }
    let known = match name.split_once('/') {
        Some((dependency, _feature)) => has_dependency(look, dependency),
        None => has_feature(look, name),
    };
    if known {
        return;
    }
    let words = [
        "invalid feature `{}` in required-features: it is not present in [features] section",
        name,
    ];
    out.value(UNKNOWN_REQUIRED_FEATURE, path, rest, &words);
}

/// Whether the package has this feature: one of its own, or that of an optional dependency.
fn has_feature(look: &Look<'_>, name: &str) -> bool {
    if let Some(features) = table_in(look.document, "features") {
        if features.contains_key(name) {
            return true;
        }
    }
    for section in &look.dependencies {
        if let Some(dependency) = table_in(section.table, name) {
            if section.section.is_of_package() && flag_in(dependency, "optional") == Some(true) {
                return true;
            }
        }
    }
    false
}

fn has_dependency(look: &Look<'_>, name: &str) -> bool {
    for section in &look.dependencies {
        if section.section.is_of_package() && section.table.contains_key(name) {
            return true;
        }
    }
    false
}
