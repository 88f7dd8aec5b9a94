//! What is asked of parts of a manifest.

use crate::answers::{error_text, line_of_value, read_as};
use cargo_manifest::{
    Dependency, Error, Lint, MaybeInheritedLintsSet, Package, Publish, Schema, StripSetting, Value,
};
use std::alloc::{AllocError, Global};

/// What a dependency says.
fn words_of_dependency(alloc: Global, dependency: &Dependency) -> Result<String, AllocError> {
    let req = dependency.req(); // of `{ path = '../a' }`, "*"
    let features = dependency.req_features(); // of `{ version = '1', features = ['x'] }`, "x" alone
    let is_optional = dependency.optional(); // of `{ workspace = true, optional = true }`, true
    let package = dependency.package(); // of `{ version = '1', package = 'b' }`, "b"
    let git = dependency.git(); // of `{ git = 'https://example.com/a' }`, this address
    let is_crates_io = dependency.is_crates_io(); // of `{ version = '1', path = '../a' }`, false
    let has_detail = dependency.detail().is_some();
    format!(in alloc;
        "requirement {req}, features {features:?}, optional {is_optional}, package {package:?}, git {git:?}, from crates.io {is_crates_io}, detail {has_detail}"
    )
}

/// What a dependency says, and in a second line what it is simplified to.
pub fn dependency(alloc: Global, text: &str) -> anyhow::Result<String> {
    let dependency: Dependency = read_as(alloc, text)?;
    let words = words_of_dependency(alloc, &dependency);
    let dependency = dependency.simplify(); // of `{ workspace = false, version = '1' }`, `Simple` of this version
    let simplified = dependency.to_value(alloc);
    drop(dependency);
    let (words, simplified) = (words?, line_of_value(alloc, simplified?)?);
    Ok(format!(in alloc; "{words}\n{simplified}")?)
}

/// Whether it is as `true`, and as `false`, where a package may be published.
pub fn publish(alloc: Global, text: &str) -> anyhow::Result<String> {
    let publish: Publish = read_as(alloc, text)?;
    let may_be_published = publish.eq_bool(true); // of `['crates-io']`, true
    let may_not = publish.eq_bool(false);
    Ok(format!(in alloc; "as true {may_be_published}, as false {may_not}")?)
}

/// The version of a package.
pub fn version(alloc: Global, text: &str) -> anyhow::Result<String> {
    let package: Package<Value> = read_as(alloc, text)?;
    let version = package.version(); // of `{ name = 'a' }`, `Local("0.0.0")`
    let answer = String::from_str(alloc, version.as_local().unwrap_or("inherited"));
    drop(package);
    Ok(answer?)
}

/// The level and the priority of a lint.
pub fn lint(alloc: Global, text: &str) -> anyhow::Result<String> {
    let lint: Lint = read_as(alloc, text)?;
    let level = lint.level(); // of `{ level = 'deny', priority = -1 }`, `Deny`
    let priority = lint.priority(); // of `'deny'`, 0
    let level = level.as_str();
    Ok(format!(in alloc; "{level} {priority}")?)
}

/// Whether lints are inherited.
pub fn lints(alloc: Global, text: &str) -> anyhow::Result<String> {
    let lints: MaybeInheritedLintsSet = read_as(alloc, text)?;
    let is_inherited = lints.is_inherited(); // of `{ workspace = true }`, true
    drop(lints);
    Ok(format!(in alloc; "inherited {is_inherited}")?)
}

/// The name of what is stripped, or how it was refused.
fn name_of_setting(
    alloc: Global,
    read: &Result<StripSetting, Error>,
) -> Result<String, AllocError> {
    match read {
        Ok(StripSetting::None) => String::from_str(alloc, "none"),
        Ok(StripSetting::Debuginfo) => String::from_str(alloc, "debuginfo"),
        Ok(StripSetting::Symbols) => String::from_str(alloc, "symbols"),
        Err(error) => error_text(alloc, error),
    }
}

/// What is stripped, by the second way to read it.
pub fn strip(alloc: Global, text: &str) -> anyhow::Result<String> {
    let value = Value::from_str(alloc, text)?;
    Ok(name_of_setting(alloc, &StripSetting::try_from(alloc, value))?)
}
