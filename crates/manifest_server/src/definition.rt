//! Where that stands which a value refers to.

use crate::forms::is_of_dependencies;
use crate::hover::{inherited_at, value_at};
use crate::session::Known;
use crate::spots::{ITEM, names_of, spot_at, value_by};
use manifest_places::{Span, Step, places_of};
use manifest_surroundings::{MANIFEST, folder_of, join, resolved};
use std::alloc::{AllocError, Global};
use toml::{Table, Value};

/// What a value refers to.
#[derive(Drop)]
pub(crate) enum Target {
    /// A range of the text itself.
    Own(Span),
    /// A range of the root's text.
    Root(Span),
    /// The file with an absolute path.
    File(String),
}

/// The steps of a path of keys.
fn steps_of(alloc: Global, names: &[&str]) -> Result<Vec<Step>, AllocError> {
    let mut steps = Vec::new(alloc);
    for name in names {
        steps.push(Step::Key(String::from_str(alloc, *name)?))?;
    }
    Ok(steps)
}

/// Where in a text the key or the header stands that belongs to a path of keys.
pub(crate) fn standing(
    alloc: Global,
    text: &str,
    names: &[&str],
) -> Result<Option<Span>, AllocError> {
    let Some(places) = places_of(alloc, text)? else {
        return Ok(None);
    };
    let steps = steps_of(alloc, names)?;
    let located = places.locate(steps.as_slice());
    if located.steps < names.len() {
        return Ok(None);
    }
    Ok(located.key.or(located.header).or(located.value))
}

/// The dependency or the feature that an item of a feature names: `serde` of `dep:serde` and of `serde?/derive`.
fn named(text: &str) -> &str {
    let name = text.strip_prefix("dep:").unwrap_or(text);
    let name = match name.split_once('/') {
        Some((name, _feature)) => name,
        None => name,
    };
    name.strip_suffix('?').unwrap_or(name)
}

/// Where in the text that stands which an item of a feature names.
fn of_feature(
    alloc: Global,
    text: &str,
    document: &Table,
    item: &str,
) -> Result<Option<Target>, AllocError> {
    let name = named(item);
    let tables = [
        "features",
        "dependencies",
        "build-dependencies",
        "dev-dependencies",
    ];
    for table in &tables {
        let path = [*table, name];
        if value_at(document, &path).is_some()
            && !(item.starts_with("dep:") && *table == "features")
        {
            return Ok(standing(alloc, text, &path)?.map(|span| Target::Own(span)));
        }
    }
    Ok(None)
}

/// The file to which the text of a `path` leads: of a dependency its manifest.
fn of_path(
    alloc: Global,
    manifest: &str,
    names: &[&str],
    path: &str,
) -> Result<Option<Target>, AllocError> {
    let leads = resolved(alloc, folder_of(manifest), path)?;
    let section = names.get(names.len().saturating_sub(3)).copied();
    let is_dependency = match section {
        Some(name) => is_of_dependencies(name),
        None => false,
    };
    Ok(Some(Target::File(if is_dependency {
        join(alloc, leads.as_str(), MANIFEST)?
    } else {
        leads
    })))
}

/// What the text at an offset refers to.
pub(crate) fn target_at(
    alloc: Global,
    known: &Known<'_>,
    offset: usize,
) -> Result<Option<Target>, AllocError> {
    let Some(places) = places_of(alloc, known.text)? else {
        return Ok(None);
    };
    let Some(spot) = spot_at(&places, offset) else {
        return Ok(None);
    };
    let names = names_of(alloc, spot.path)?;
    let path = inherited_at(alloc, known.document, names.as_slice())?;
    if let (Some(path), Some(root)) = (path, known.root) {
        let found = standing(alloc, root.document.text.as_str(), path.as_slice())?;
        return Ok(found.map(|span| Target::Root(span)));
    }
    if spot.is_header {
        return Ok(None);
    }
    of_value(alloc, known, names.as_slice(), spot.path)
}

/// What the value at a path refers to.
fn of_value(
    alloc: Global,
    known: &Known<'_>,
    names: &[&str],
    path: &[Step],
) -> Result<Option<Target>, AllocError> {
    let Some(Value::String(text)) = value_by(known.document, path) else {
        return Ok(None);
    };
    let text = text.as_str();
    match names {
        ["features", _feature, item] if *item == ITEM => {
            of_feature(alloc, known.text, known.document, text)
        }
        _ if names.last() == Some(&"path") => of_path(alloc, known.manifest, names, text),
        _ => Ok(None),
    }
}
