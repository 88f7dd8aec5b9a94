//! What a key means, what a value that is inherited is, and what a target is built from.

use crate::definition::standing;
use crate::forms::{inherited_key, is_of_dependencies, key_at};
use crate::session::{Known, KnownRoot};
use crate::spots::{ITEM, Spot, names_of, spot_at};
use crate::targets::{file_of, is_of_target};
use manifest_json::Text;
use manifest_places::{Span, Step, places_of, position_of};
use manifest_surroundings::Reader;
use std::alloc::{AllocError, Global};
use std::rt::Files;
use toml::{Table, Value};

/// Where the reference of Cargo stands.
const REFERENCE: &str = "https://doc.rust-lang.org/cargo/reference";

/// Writes what a key means.
fn push_meaning(out: &mut Text, names: &[&str]) {
    let Some((name, table)) = names.split_last() else {
        return;
    };
    let name = *name;
    let key = if name == "workspace" && table.len() > 1 {
        inherited_key()
    } else {
        key_at(table, name)
    };
    let Some(key) = key else {
        return;
    };
    let parts = [
        "`",
        key.name,
        "`: ",
        key.holds,
        ", ",
        key.needed,
        "\n\n",
        key.about,
        "\n\n[Cargo reference](",
        REFERENCE,
        "/",
        key.page,
        ")",
    ];
    for part in &parts {
        out.push_str(*part);
    }
}

/// What stands at a path of a document.
pub(crate) fn value_at<'a>(document: &'a Table, names: &[&str]) -> Option<&'a Value> {
    let (first, rest) = names.split_first()?;
    let mut value = document.get(*first)?;
    for name in rest {
        value = match value {
            Value::Table(table) => table.get(*name)?,
            _ => return None,
        };
    }
    Some(value)
}

/// Whether a value is a table that inherits.
fn inherits(value: &Value) -> bool {
    match value {
        Value::Table(table) => matches!(table.get("workspace"), Some(Value::Boolean(true))),
        _ => false,
    }
}

/// The names of what inherits: those before a last `workspace`.
fn without_mark<'s, 'a>(names: &'s [&'a str]) -> &'s [&'a str] {
    let is_marked = names.len() > 2 && names.last() == Some(&"workspace");
    let count = if is_marked {
        names.len().saturating_sub(1)
    } else {
        names.len()
    };
    names.get(..count).unwrap_or(names)
}

/// The path, in the root of the workspace, of what stands at a path of the manifest, where that is inherited.
pub(crate) fn inherited_at<'a>(
    alloc: Global,
    document: &Table,
    names: &[&'a str],
) -> Result<Option<Vec<&'a str>>, AllocError> {
    let own = without_mark(names);
    if !value_at(document, own).is_some_and(|value| inherits(value)) {
        return Ok(None);
    }
    let (Some((name, _)), Some(section)) = (own.split_last(), own.get(own.len().saturating_sub(2)))
    else {
        return Ok(None);
    };
    let table = if is_of_dependencies(*section) {
        "dependencies"
    } else if own.len() == 2 && *section == "package" {
        "package"
    } else {
        return Ok(None);
    };
    let mut path = Vec::new(alloc);
    path.push("workspace")?;
    path.push(table)?;
    path.push(*name)?;
    Ok(Some(path))
}

/// Writes what is inherited.
fn push_value(alloc: Global, out: &mut Text, value: &Value) {
    if let Some(value) = out.made(format!(in alloc; "{value}")) {
        out.push_str("Inherited from the workspace: `");
        out.push_str(value.as_str());
        out.push('`');
    }
}

/// Writes where in the root a path of keys stands, if it has a line there.
fn push_place(alloc: Global, out: &mut Text, root: KnownRoot<'_>, path: &[&str]) {
    let text = root.document.text.as_str();
    let Some(found) = out.made(standing(alloc, text, path)) else {
        return;
    };
    if let Some(position) = found.and_then(|span| position_of(text, span.from)) {
        out.push_str(" (line ");
        out.push_number(position.line);
        out.push_str(" of ");
        out.push_str(root.path);
        out.push(')');
    }
}

/// Writes what is inherited at a path, and where it stands.
fn push_inherited(alloc: Global, out: &mut Text, known: &Known<'_>, names: &[&str]) {
    let path = out.made(inherited_at(alloc, known.document, names));
    let (Some(Some(path)), Some(root)) = (path, known.root) else {
        return;
    };
    let Some(value) = value_at(&root.document.table, path.as_slice()) else {
        return;
    };
    begin_part(out);
    push_value(alloc, out, value);
    push_place(alloc, out, root, path.as_slice());
}

/// Begins a part of its own after what is written already.
fn begin_part(out: &mut Text) {
    if !out.as_str().is_empty() {
        out.push_str("\n\n");
    }
}

/// The names of the table of a target that a path leads to or into, and its index in its list.
fn target_in<'s, 'a>(names: &'s [&'a str], path: &[Step]) -> (&'s [&'a str], Option<usize>) {
    let count = if names.get(1) == Some(&ITEM) { 2 } else { 1 };
    let index = match path.get(1) {
        Some(Step::Index(index)) => Some(*index),
        _ => None,
    };
    (names.get(..count).unwrap_or(names), index)
}

/// Writes which file the target at a path is built from.
fn push_file<H: Files + AllocGlobal>(
    rt: &H,
    reader: &Reader,
    out: &mut Text,
    known: &Known<'_>,
    names: &[&str],
    path: &[Step],
) {
    let (table, index) = target_in(names, path);
    if !is_of_target(table) {
        return;
    }
    let file = file_of(rt, reader, known.manifest, known.document, table, index);
    let Some(file) = out.made(file) else {
        return;
    };
    begin_part(out);
    match &file {
        Some(file) => {
            out.push_str("Built from `");
            out.push_str(file.as_str());
            out.push('`');
        }
        None => out.push_str("No file of this target is there"),
    }
}

/// What is known of a key or a value; the empty text where nothing is.
fn meaning_of<H: Files + AllocGlobal>(
    rt: &H,
    reader: &Reader,
    known: &Known<'_>,
    spot: &Spot<'_>,
) -> Result<String, AllocError> {
    let alloc = rt.alloc();
    let mut names = names_of(alloc, spot.path)?;
    let mut file = Text::new(alloc);
    push_file(rt, reader, &mut file, known, names.as_slice(), spot.path);
    let file = file.finish()?;
    // (of an item of a list the list is meant, and not of a list of tables)
    if names.len() > 2 && names.last() == Some(&ITEM) {
        let _item = names.pop();
    }
    let mut meaning = Text::new(alloc);
    push_meaning(&mut meaning, names.as_slice());
    push_inherited(alloc, &mut meaning, known, names.as_slice());
    begin_part(&mut meaning);
    meaning.push_str(file.as_str());
    meaning.finish()
}

/// What is known of what stands at an offset, and the range that it is about.
pub(crate) fn meaning_at<H: Files + AllocGlobal>(
    rt: &H,
    reader: &Reader,
    known: &Known<'_>,
    offset: usize,
) -> Result<Option<(String, Span)>, AllocError> {
    let Some(places) = places_of(rt.alloc(), known.text)? else {
        return Ok(None);
    };
    match spot_at(&places, offset) {
        Some(spot) => {
            let meaning = meaning_of(rt, reader, known, &spot)?;
            Ok(if meaning.is_empty() {
                None
            } else {
                Some((meaning, spot.span))
            })
        }
        None => Ok(None),
    }
}
