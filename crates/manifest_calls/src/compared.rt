//! Which values are equal, hash alike and stand before which. A list of values is read twice, and each value of the first
//! reading is compared with each of the second, a line for each of the first: `=` where they are alike, and else `.`.

use crate::answers::read_as;
use anyhow::bail;
use cargo_manifest::{
    Badge, Badges, Dependency, DependencyDetail, Edition, InheritedDependencyDetail, LintLevel,
    MaintenanceStatus, MaybeInherited, MaybeInheritedLintsSet, Product, Publish, Resolver, Schema,
    StringOrBool, StripSetting, Target, WorkspacePackage,
};
use manifest_json::Text;
use std::alloc::{AllocError, Global};
use std::cmp::Ordering;
use std::hash::{DefaultHasher, Hash, Hasher};

/// Writes whether two values are alike.
fn push_alike(are_alike: bool, out: &mut Text) {
    out.push(if are_alike { '=' } else { '.' });
}

/// Which values of the one list are equal to which of the other.
fn lines_of_equal<T: PartialEq>(
    alloc: Global,
    list: &[T],
    others: &[T],
) -> Result<String, AllocError> {
    let mut out = Text::new(alloc);
    for x in list {
        for y in others {
            push_alike(x == y, &mut out);
        }
        out.push('\n');
    }
    out.finish()
}

/// Which values of a list are equal.
fn equal<T: Schema + PartialEq>(alloc: Global, text: &str) -> anyhow::Result<String> {
    let list: Vec<T> = read_as(alloc, text)?;
    let others: Vec<T> = read_as(alloc, text)?;
    Ok(lines_of_equal(alloc, list.as_slice(), others.as_slice())?)
}

/// The hash of a value.
fn hash_of<T: Hash>(x: &T) -> u64 {
    let mut state = DefaultHasher::new();
    x.hash(&mut state);
    state.finish()
}

/// Which values of the one list hash as which of the other.
fn lines_of_hashes<T: Hash>(alloc: Global, list: &[T], others: &[T]) -> Result<String, AllocError> {
    let mut out = Text::new(alloc);
    for x in list {
        for y in others {
            push_alike(hash_of(x) == hash_of(y), &mut out);
        }
        out.push('\n');
    }
    out.finish()
}

/// Which values of a list hash alike.
fn hashed<T: Schema + Hash>(alloc: Global, text: &str) -> anyhow::Result<String> {
    let list: Vec<T> = read_as(alloc, text)?;
    let others: Vec<T> = read_as(alloc, text)?;
    Ok(lines_of_hashes(alloc, list.as_slice(), others.as_slice())?)
}

/// How the settings of a list stand to each other.
fn lines_of_order(alloc: Global, list: &[StripSetting]) -> Result<String, AllocError> {
    let mut out = Text::new(alloc);
    for x in list {
        for y in list {
            out.push(match x.cmp(y) {
                Ordering::Less => '<',
                Ordering::Equal => '=',
                Ordering::Greater => '>',
            });
        }
        out.push('\n');
    }
    out.finish()
}

/// The same for a list of names.
pub fn order(alloc: Global, text: &str) -> anyhow::Result<String> {
    let list: Vec<StripSetting> = read_as(alloc, text)?;
    Ok(lines_of_order(alloc, list.as_slice())?)
}

/// Which values of a list hash alike, read as those of the type of this name.
pub fn hashes(alloc: Global, of: &str, text: &str) -> anyhow::Result<String> {
    match of {
        "Edition" => hashed::<Edition>(alloc, text),
        "Resolver" => hashed::<Resolver>(alloc, text),
        "LintLevel" => hashed::<LintLevel>(alloc, text),
        "MaintenanceStatus" => hashed::<MaintenanceStatus>(alloc, text),
        _ => bail!("there is no type of this name"),
    }
}

/// Which values of a list are equal, of the type of a choice.
fn apart_of_choice(alloc: Global, of: &str, text: &str) -> anyhow::Result<String> {
    match of {
        "Edition" => equal::<Edition>(alloc, text),
        "Resolver" => equal::<Resolver>(alloc, text),
        "LintLevel" => equal::<LintLevel>(alloc, text),
        "MaintenanceStatus" => equal::<MaintenanceStatus>(alloc, text),
        "StripSetting" => equal::<StripSetting>(alloc, text),
        "StringOrBool" => equal::<StringOrBool>(alloc, text),
        "Publish" => equal::<Publish>(alloc, text),
        "MaybeInherited<Edition>" => equal::<MaybeInherited<Edition>>(alloc, text),
        _ => bail!("there is no type of this name"),
    }
}

/// Which values of a list are equal, read as those of the type of this name.
pub fn apart(alloc: Global, of: &str, text: &str) -> anyhow::Result<String> {
    match of {
        "DependencyDetail" => equal::<DependencyDetail>(alloc, text),
        "InheritedDependencyDetail" => equal::<InheritedDependencyDetail>(alloc, text),
        "Dependency" => equal::<Dependency>(alloc, text),
        "Product" => equal::<Product>(alloc, text),
        "Target" => equal::<Target>(alloc, text),
        "Badge" => equal::<Badge>(alloc, text),
        "Badges" => equal::<Badges>(alloc, text),
        "WorkspacePackage" => equal::<WorkspacePackage>(alloc, text),
        "MaybeInheritedLintsSet" => equal::<MaybeInheritedLintsSet>(alloc, text),
        _ => apart_of_choice(alloc, of, text),
    }
}
