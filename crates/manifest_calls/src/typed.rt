//! Manifests with metadata of a type, and which values are well-formed.

use crate::answers::read_as;
use crate::documents::line_of_read;
use crate::score::{Level, Score};
use anyhow::bail;
use cargo_manifest::{
    Error, Manifest, MaybeInheritedLintsSet, Package, Profile, Profiles, Schema, Unread, Value,
    Workspace,
};
use std::alloc::{AllocError, Global};
use std::mem;

/// A manifest whose package has a score.
fn manifest_with_score(alloc: Global, bytes: &[u8]) -> Result<Manifest<Score>, Error> {
    let manifest = Manifest::<Score>::from_slice_with_metadata(alloc, bytes)?; // for a type `Score: Metadata`
    Ok(manifest)
}

/// A manifest of which neither metadata is looked at.
fn manifest_of_both(alloc: Global, bytes: &[u8]) -> Result<Manifest<Unread, Unread>, Error> {
    let manifest: Manifest<Unread, Unread> = Manifest::from_slice_with_both_metadata(alloc, bytes)?;
    Ok(manifest)
}

/// What is written of a document, read with metadata of this type, or how it is refused: a score, none at all, what is
/// not looked at, and neither of the package nor of the workspace.
pub fn answer(alloc: Global, of: &str, document: &str) -> anyhow::Result<String> {
    let bytes = document.as_bytes();
    match of {
        "Score" => line_of_read(alloc, manifest_with_score(alloc, bytes)),
        "()" => line_of_read(
            alloc,
            Manifest::<(), Value>::from_slice_with_metadata(alloc, bytes),
        ),
        "Unread" => {
            let read = Manifest::<Unread, Value>::from_slice_with_metadata(alloc, bytes);
            line_of_read(alloc, read)
        }
        "both" => line_of_read(alloc, manifest_of_both(alloc, bytes)),
        _ => bail!("there is no type of this name"),
    }
}

/// Whether a value of a text is well-formed.
fn reads_well<T: Schema>(alloc: Global, text: &str) -> anyhow::Result<bool> {
    let x: T = read_as(alloc, text)?;
    Ok(x.is_well_formed())
}

/// Whether custom profiles are well-formed, which may have any name but those that Cargo names.
fn are_custom(alloc: Global, text: &str) -> anyhow::Result<bool> {
    let custom = read_as(alloc, text)?;
    let mut profiles = Profiles::default(alloc);
    drop(mem::replace(&mut profiles.custom, custom));
    let can_be_written = profiles.is_well_formed();
    drop(profiles);
    Ok(can_be_written)
}

/// Whether the lints of tools are well-formed, which may have any name but `workspace`.
fn are_tools(alloc: Global, text: &str) -> anyhow::Result<bool> {
    let lints = MaybeInheritedLintsSet {
        workspace: None,
        lints: read_as(alloc, text)?,
    };
    let can_be_written = lints.is_well_formed();
    drop(lints);
    Ok(can_be_written)
}

/// Whether a score of this number is well-formed.
fn is_score(text: &str) -> anyhow::Result<bool> {
    let number = text.parse::<u8>()?;
    let score = Score {
        level: Level { number },
    };
    Ok(score.is_well_formed())
}

/// Whether what a text says is well-formed, as what the name says.
fn is_well_formed(alloc: Global, of: &str, text: &str) -> anyhow::Result<bool> {
    match of {
        "custom" => are_custom(alloc, text),
        "tools" => are_tools(alloc, text),
        "Score" => is_score(text),
        "Unread" => Ok(Unread.is_well_formed()),
        "Profile" => reads_well::<Profile>(alloc, text),
        "Package" => reads_well::<Package<Value>>(alloc, text),
        "Workspace" => reads_well::<Workspace<Value>>(alloc, text),
        _ => bail!("there is no type of this name"),
    }
}

/// The answer in a word.
pub fn well_formed(alloc: Global, of: &str, text: &str) -> anyhow::Result<String> {
    let can_be_written = is_well_formed(alloc, of, text)?;
    Ok(word_of(alloc, can_be_written)?)
}

/// Yes or no.
fn word_of(alloc: Global, is_so: bool) -> Result<String, AllocError> {
    String::from_str(alloc, if is_so { "true" } else { "false" })
}
