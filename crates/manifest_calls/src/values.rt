//! Values, each read as one of a type and written.

use crate::answers::answer_of_read;
use anyhow::bail;
use cargo_manifest::{
    Badge, Badges, Dependency, DependencyDetail, Edition, InheritedDependencyDetail, Lint,
    LintConfig, LintLevel, Maintenance, MaintenanceStatus, Manifest, MaybeInherited,
    MaybeInheritedLintsSet, Package, Product, Profile, Profiles, Publish, Resolver, Schema,
    StringOrBool, StripSetting, Target, True, Value, Workspace, WorkspacePackage,
};
use manifest_fault::error::refusal;
use manifest_value::{holds_float, raw};
use std::alloc::{AllocError, Global};
use std::collections::BTreeMap;

/// What is written of the value of a text, read as a `T`, or how it is refused.
fn answer_as<T: Schema>(alloc: Global, text: &str) -> anyhow::Result<String> {
    let value = Value::from_str(alloc, text)?;
    let read = T::from_value(alloc, &value);
    drop(value);
    Ok(answer_of_read(alloc, read)?)
}

/// The same for a value that is kept as it is; and a further line where its copy, or whether it holds a float, is
/// answered otherwise.
fn answer_kept(alloc: Global, text: &str) -> anyhow::Result<String> {
    let value = Value::from_str(alloc, text)?;
    let answer = answer_twice(alloc, &value);
    drop(value);
    Ok(answer?)
}

/// What is written of a value that is kept as it is, after it is compared with what is written of its copy.
fn answer_twice(alloc: Global, value: &Value) -> Result<String, AllocError> {
    let line = answer_of_read(alloc, Value::from_value(alloc, value))?;
    let holds = line.starts_with("error: holds a float") == holds_float(value);
    let copy = answer_of_read(alloc, raw(alloc, value).map_err(refusal));
    compared_with(alloc, line, copy, holds)
}

/// A line, and a further one where another answer differs from it, or where something else does not hold.
fn compared_with(
    alloc: Global,
    line: String,
    other: Result<String, AllocError>,
    holds: bool,
) -> Result<String, AllocError> {
    match other {
        Ok(copy) if copy != line || !holds => {
            format!(in alloc; "{line}\nwhich is not the answer to its copy: {copy}")
        }
        other => other.and(Ok(line)),
    }
}

/// The same for the type of a wider form.
fn answer_of_form(alloc: Global, of: &str, text: &str) -> anyhow::Result<String> {
    match of {
        "Product" => answer_as::<Product>(alloc, text),
        "Profile" => answer_as::<Profile>(alloc, text),
        "Profiles" => answer_as::<Profiles>(alloc, text),
        "Badge" => answer_as::<Badge>(alloc, text),
        "Maintenance" => answer_as::<Maintenance>(alloc, text),
        "Badges" => answer_as::<Badges>(alloc, text),
        "Package" => answer_as::<Package<Value>>(alloc, text),
        "WorkspacePackage" => answer_as::<WorkspacePackage>(alloc, text),
        "Workspace" => answer_as::<Workspace<Value>>(alloc, text),
        "Manifest" => answer_as::<Manifest<Value, Value>>(alloc, text),
        _ => bail!("there is no type of this name"),
    }
}

/// The same for a type of what may be inherited, of dependencies or of lints, or of a wider form.
fn answer_of_part(alloc: Global, of: &str, text: &str) -> anyhow::Result<String> {
    match of {
        "MaybeInherited<String>" => answer_as::<MaybeInherited<String>>(alloc, text),
        "MaybeInherited<Edition>" => answer_as::<MaybeInherited<Edition>>(alloc, text),
        "MaybeInherited<StringOrBool>" => answer_as::<MaybeInherited<StringOrBool>>(alloc, text),
        "MaybeInherited<Vec<String>>" => answer_as::<MaybeInherited<Vec<String>>>(alloc, text),
        "MaybeInherited<Publish>" => answer_as::<MaybeInherited<Publish>>(alloc, text),
        "InheritedDependencyDetail" => answer_as::<InheritedDependencyDetail>(alloc, text),
        "DependencyDetail" => answer_as::<DependencyDetail>(alloc, text),
        "Dependency" => answer_as::<Dependency>(alloc, text),
        "Target" => answer_as::<Target>(alloc, text),
        "LintConfig" => answer_as::<LintConfig>(alloc, text),
        "Lint" => answer_as::<Lint>(alloc, text),
        "MaybeInheritedLintsSet" => answer_as::<MaybeInheritedLintsSet>(alloc, text),
        _ => answer_of_form(alloc, of, text),
    }
}

/// What is written of a value, read as one of the type of this name, or how it is refused.
pub fn answer(alloc: Global, of: &str, text: &str) -> anyhow::Result<String> {
    match of {
        "String" => answer_as::<String>(alloc, text),
        "bool" => answer_as::<bool>(alloc, text),
        "u16" => answer_as::<u16>(alloc, text),
        "i8" => answer_as::<i8>(alloc, text),
        "Vec<String>" => answer_as::<Vec<String>>(alloc, text),
        "BTreeMap<String, Vec<String>>" => {
            answer_as::<BTreeMap<String, Vec<String>>>(alloc, text)
        }
        "Value" => answer_kept(alloc, text),
        "Edition" => answer_as::<Edition>(alloc, text),
        "Resolver" => answer_as::<Resolver>(alloc, text),
        "LintLevel" => answer_as::<LintLevel>(alloc, text),
        "MaintenanceStatus" => answer_as::<MaintenanceStatus>(alloc, text),
        "StripSetting" => answer_as::<StripSetting>(alloc, text),
        "StringOrBool" => answer_as::<StringOrBool>(alloc, text),
        "Publish" => answer_as::<Publish>(alloc, text),
        "True" => answer_as::<True>(alloc, text),
        _ => answer_of_part(alloc, of, text),
    }
}
