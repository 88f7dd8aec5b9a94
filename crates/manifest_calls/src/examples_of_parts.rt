//! The examples of the calls on parts of a manifest that no value shows: each stands as it does in the comment of its
//! call.

use crate::answers::read_as;
use crate::lines::{push_flag, push_line, push_value};
use cargo_manifest::{Dependency, Edition, LintLevel, MaybeInherited, Product, StripSetting};
use manifest_json::Text;
use manifest_parts::inherited::{has_workspace, says_workspace};
use std::alloc::Global;
use toml::{Table, Value};

/// Whether a value says that it is inherited.
fn value_says_workspace(alloc: Global) -> anyhow::Result<bool> {
    let value = Value::from_str(alloc, "{ workspace = true, version = '1' }")?;
    let is_inherited = says_workspace(&value); // true
    Ok(is_inherited)
}

/// Whether a table does.
fn table_says_workspace(table: &Table) -> bool {
    let is_inherited = has_workspace(table); // of `workspace = false` false, as without the key
    is_inherited
}

/// Writes whether values and tables say that they are inherited.
pub fn push_inherited(alloc: Global, out: &mut Text) -> anyhow::Result<()> {
    push_flag("a value", value_says_workspace(alloc)?, out);
    let table = toml::table_from_str(alloc, "workspace = false")?;
    push_flag("workspace = false", table_says_workspace(&table), out);
    let table = toml::table_from_str(alloc, "version = '1'")?;
    push_flag("without the key", table_says_workspace(&table), out);
    Ok(())
}

/// Writes what is stripped by a boolean.
fn push_strip(alloc: Global, out: &mut Text) -> Result<(), cargo_manifest::Error> {
    let strip = StripSetting::try_from(alloc, Value::Boolean(true))?; // `Symbols`
    push_flag("symbols", strip == StripSetting::Symbols, out);
    Ok(())
}

/// Writes the texts of choices, what is stripped by a boolean, and a target as it is by default.
pub fn push_choices(alloc: Global, out: &mut Text) -> anyhow::Result<()> {
    let text = Edition::E2021.as_str(); // "2021"
    push_line(text, out);
    let text = LintLevel::Deny.as_str(); // "deny"
    push_line(text, out);
    push_strip(alloc, out)?;
    let product = Product::default(alloc);
    push_value(alloc, &product, out);
    Ok(())
}

/// Writes the version that the detail of a dependency has, and whether it is optional.
fn push_detail_of(dependency: &Dependency, out: &mut Text) {
    let detail = dependency.detail(); // of `{ version = '1', optional = true }`, with these two fields
    if let Some(detail) = detail {
        out.push_str("version ");
        push_line(detail.version.as_deref().unwrap_or("none"), out);
        push_flag("optional", detail.optional == Some(true), out);
    }
}

/// Writes them of a dependency that has both.
pub fn push_detail(alloc: Global, out: &mut Text) -> anyhow::Result<()> {
    let dependency: Dependency = read_as(alloc, "{ version = '1', optional = true }")?;
    push_detail_of(&dependency, out);
    drop(dependency);
    Ok(())
}

/// Writes what a value says that may be inherited.
pub fn push_maybe_inherited(out: &mut Text) {
    let edition = MaybeInherited::<Edition>::inherited();
    let inherited = MaybeInherited::<&Edition>::inherited();
    push_flag("inherited by reference", edition.as_ref() == inherited, out);
    push_flag("inherited is local", edition.as_local().is_some(), out);
    let edition = MaybeInherited::Local(Edition::E2021).as_local(); // `Some(E2021)`
    match edition {
        Some(edition) => push_line(edition.as_str(), out),
        None => push_line("none", out),
    }
    let version = MaybeInherited::Local(1);
    let version = version.as_ref(); // of `Local(x)`, `Local(&x)`
    out.push_number(version.as_local().copied().unwrap_or(0));
    out.push('\n');
}
