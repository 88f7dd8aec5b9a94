//! What can be written at an offset: keys of its table, words of a choice, features, and dependencies of the workspace. The
//! text need be no document there: what stands in the other lines counts.

use crate::forms::{Key, is_of_dependencies, key_at, keys_at, words_of};
use crate::hover::value_at;
use crate::session::Known;
use crate::spots::ITEM;
use crate::targets::{files_for, is_of_target};
use manifest_json::Text;
use manifest_lint::Document;
use manifest_surroundings::document_of;
use std::alloc::{AllocError, Global};
use std::rt::Files;
use toml::{Table, Value};

/// What kinds of things an editor offers: a key, a word, a module.
const KEY: usize = 10;

const WORD: usize = 12;

const MODULE: usize = 9;

const FILE: usize = 17;

/// Where in a text something is to be written, and what is known around it.
#[derive(Drop)]
struct Place<'a> {
    /// The line up to there.
    front: &'a str,
    /// The names of the table that the line belongs to.
    names: Vec<String>,
    /// The document that the other lines are, where they are one.
    document: Option<Table>,
}

/// Puts the names of a header's path into a list: those of a table with one entry in another.
fn push_names(names: &mut Vec<String>, table: Table) -> Result<(), AllocError> {
    let mut table = table;
    for _ in 0..u64::MAX {
        let Some((key, value)) = table.pop_first() else {
            return Ok(());
        };
        names.push(key)?;
        table = match value {
            Value::Table(inner) => inner,
            Value::Array(items) => {
                names.push(String::from_str(*names.allocator(), ITEM)?)?;
                match items.into_iter().next() {
                    Some(Value::Table(inner)) => inner,
                    _ => return Ok(()),
                }
            }
            _ => return Ok(()),
        };
    }
    Ok(())
}

/// The names of the path of the last header in some lines.
fn names_above(alloc: Global, above: &str) -> Result<Vec<String>, AllocError> {
    let mut names = Vec::new(alloc);
    for line in above.lines().rev() {
        if line.trim_start().starts_with('[') {
            if let Some(Document { table, .. }) = document_of(alloc, line.as_bytes())? {
                push_names(&mut names, table)?;
            }
            return Ok(names);
        }
    }
    Ok(names)
}

/// The table that a text is, where it is a document.
fn table_of(alloc: Global, text: Text) -> Result<Option<Table>, AllocError> {
    let text = text.finish()?;
    match document_of(alloc, text.as_bytes())? {
        Some(Document { table, .. }) => Ok(Some(table)),
        None => Ok(None),
    }
}

/// What is known around an offset.
fn place_at(alloc: Global, text: &str, offset: usize) -> Result<Place<'_>, AllocError> {
    let front = text.get(..offset).unwrap_or("");
    let rest = text.get(offset..).unwrap_or("");
    let (above, line) = match front.rsplit_once('\n') {
        Some((above, line)) => (above, line),
        None => ("", front),
    };
    let below = match rest.split_once('\n') {
        Some((_line, below)) => below,
        None => "",
    };
    let mut others = Text::new(alloc);
    others.push_str(above);
    others.push('\n');
    others.push_str(below);
    let document = table_of(alloc, others)?;
    Ok(Place {
        front: line,
        names: names_above(alloc, above)?,
        document,
    })
}

/// Whether a line ends within quotes.
fn is_quoted(front: &str) -> bool {
    front.matches('"').count() % 2 == 1
}

/// The last key of a line, before its equals sign: of `a = { b = "` it is `b`.
fn last_key(front: &str) -> &str {
    let Some((before, _value)) = front.rsplit_once('=') else {
        return "";
    };
    match before.rsplit_once(['{', ',']) {
        Some((_others, key)) => key.trim(),
        None => before.trim(),
    }
}

/// The key whose inline table a line is in, if it is in one.
fn key_of_inline(front: &str) -> Option<&str> {
    let (before, inside) = front.split_once('{')?;
    if inside.contains('}') {
        return None;
    }
    let (key, _) = before.split_once('=')?;
    Some(key.trim())
}

/// Writes an item.
fn push_item(body: &mut Text, label: &str, kind: usize, detail: &str, insert: &str) {
    body.open();
    body.text_member("label", label);
    body.number_member("kind", kind);
    if !detail.is_empty() {
        body.text_member("detail", detail);
    }
    body.text_member("insertText", insert);
}

/// Offers a key.
fn push_key_item(body: &mut Text, key: Key) {
    let alloc = body.allocator();
    let (name, holds, needed) = (key.name, key.holds, key.needed);
    let detail = body.made(format!(in alloc; "{holds}, {needed}"));
    let insert = body.made(format!(in alloc; "{name} = "));
    let (Some(detail), Some(insert)) = (detail, insert) else {
        return;
    };
    push_item(body, name, KEY, detail.as_str(), insert.as_str());
    body.open_member("documentation");
    body.text_member("kind", "markdown");
    body.text_member("value", key.about);
    body.close();
    body.close();
}

/// The table at a path of a document.
fn table_at<'a>(document: &'a Table, names: &[&str]) -> Option<&'a Table> {
    if names.is_empty() {
        return Some(document);
    }
    match value_at(document, names) {
        Some(Value::Table(table)) => Some(table),
        _ => None,
    }
}

/// Whether a table has the key, by one of its spellings.
fn is_there(table: Option<&Table>, key: Key) -> bool {
    match table {
        Some(table) => table.keys().any(|name| key.is_called(name.as_str())),
        None => false,
    }
}

/// Offers the keys of a table that it has not yet.
fn push_keys(body: &mut Text, document: Option<&Table>, names: &[&str]) {
    let table = match document {
        Some(document) => table_at(document, names),
        None => None,
    };
    let keys = keys_at(body.allocator(), names);
    let Some(keys) = body.made(keys) else {
        return;
    };
    for key in keys {
        if !is_there(table, key) {
            push_key_item(body, key);
        }
    }
}

/// Offers the words of the choice that a key holds.
fn push_words(body: &mut Text, names: &[&str], key: &str) {
    let Some(known) = key_at(names, key) else {
        return;
    };
    let choice = match known.holds.split_once(',') {
        Some((choice, _or_inherited)) => choice,
        None => known.holds,
    };
    let words = words_of(body.allocator(), choice);
    let Some(words) = body.made(words) else {
        return;
    };
    for word in words {
        push_item(body, word, WORD, "", word);
        body.close();
    }
}

/// Offers an optional dependency, as features name it.
fn push_module(body: &mut Text, name: &str) {
    let item = format!(in body.allocator(); "dep:{name}");
    if let Some(item) = body.made(item) {
        push_item(body, item.as_str(), MODULE, "", item.as_str());
        body.close();
    }
}

/// Offers the dependencies of a table that are optional.
fn push_optional(body: &mut Text, table: &Table) {
    for (name, value) in table {
        if let Value::Table(dependency) = value {
            if let Some(Value::Boolean(true)) = dependency.get("optional") {
                push_module(body, name.as_str());
            }
        }
    }
}

/// Offers what a feature can enable.
fn push_features(body: &mut Text, document: &Table) {
    if let Some(Value::Table(features)) = document.get("features") {
        for (name, _items) in features {
            push_item(body, name.as_str(), WORD, "", name.as_str());
            body.close();
        }
    }
    for (section, value) in document {
        if let Value::Table(table) = value {
            if is_of_dependencies(section.as_str()) {
                push_optional(body, table);
            }
        }
    }
}

/// Offers a dependency of the workspace, which has this value there.
fn push_shared(body: &mut Text, name: &str, value: &Value) {
    let alloc = body.allocator();
    let detail = body.made(format!(in alloc; "{value}"));
    let insert = body.made(format!(in alloc; "{name}.workspace = true"));
    if let (Some(detail), Some(insert)) = (detail, insert) {
        push_item(body, name, MODULE, detail.as_str(), insert.as_str());
        body.close();
    }
}

/// Offers the dependencies that can be inherited from the workspace, as far as the table has them not.
fn push_inheritable(
    body: &mut Text,
    document: Option<&Table>,
    root: Option<&Table>,
    names: &[&str],
) {
    let Some(root) = root else {
        return;
    };
    let Some(Value::Table(shared)) = value_at(root, &["workspace", "dependencies"]) else {
        return;
    };
    let table = match document {
        Some(document) => table_at(document, names),
        None => None,
    };
    for (name, value) in shared {
        let name = name.as_str();
        let is_there = table.is_some_and(|table| table.contains_key(name));
        if !is_there {
            push_shared(body, name, value);
        }
    }
}

/// The names of a table's path, and those of a key that stands in it with dots, without its last part.
fn names_with<'a>(
    alloc: Global,
    names: &'a [String],
    key: &'a str,
) -> Result<Vec<&'a str>, AllocError> {
    let mut all = Vec::new(alloc);
    for name in names {
        all.push(name.as_str())?;
    }
    for part in key.split('.') {
        if !part.is_empty() {
            all.push(part.trim())?;
        }
    }
    Ok(all)
}

/// Offers the files in which a target can be.
fn push_files<H: Files + AllocGlobal + Clone + Drop>(
    rt: &H,
    body: &mut Text,
    manifest: &str,
    names: &[&str],
) {
    let Some(files) = body.made(files_for(rt, manifest, names)) else {
        return;
    };
    for file in &files {
        push_item(body, file.as_str(), FILE, "", file.as_str());
        body.close();
    }
}

/// Offers what can stand within quotes.
fn push_quoted<H: Files + AllocGlobal + Clone + Drop>(
    rt: &H,
    body: &mut Text,
    manifest: &str,
    place: &Place<'_>,
) {
    let alloc = rt.alloc();
    if place
        .names
        .first()
        .is_some_and(|name| name.as_str() == "features")
    {
        if let Some(document) = &place.document {
            push_features(body, document);
        }
        return;
    }
    let table = key_of_inline(place.front).unwrap_or("");
    let Some(names) = body.made(names_with(alloc, place.names.as_slice(), table)) else {
        return;
    };
    let key = last_key(place.front);
    if key == "path" && is_of_target(names.as_slice()) {
        push_files(rt, body, manifest, names.as_slice());
    } else {
        push_words(body, names.as_slice(), key);
    }
}

/// Offers the keys of an inline table.
fn push_inline(alloc: Global, body: &mut Text, place: &Place<'_>, key: &str) {
    if let Some(names) = body.made(names_with(alloc, place.names.as_slice(), key)) {
        push_keys(body, None, names.as_slice());
    }
}

/// Offers keys.
fn push_unquoted(alloc: Global, body: &mut Text, place: &Place<'_>, root: Option<&Table>) {
    let document = place.document.as_ref();
    if let Some(key) = key_of_inline(place.front) {
        push_inline(alloc, body, place, key);
        return;
    }
    if place.front.contains('=') || place.front.trim_start().starts_with('[') {
        return;
    }
    let begun = match place.front.rsplit_once('.') {
        Some((begun, _last)) => begun,
        None => "",
    };
    let Some(names) = body.made(names_with(alloc, place.names.as_slice(), begun)) else {
        return;
    };
    push_keys(body, document, names.as_slice());
    match names.last() {
        Some(section) if is_of_dependencies(*section) => {
            push_inheritable(body, document, root, names.as_slice());
        }
        _ => {}
    }
}

/// Offers what can be written at an offset.
pub(crate) fn push_offers<H: Files + AllocGlobal + Clone + Drop>(
    rt: &H,
    body: &mut Text,
    known: &Known<'_>,
    offset: usize,
) {
    let Some(place) = body.made(place_at(rt.alloc(), known.text, offset)) else {
        return;
    };
    if is_quoted(place.front) {
        push_quoted(rt, body, known.manifest, &place);
    } else {
        let root = known.root.map(|root| &root.document.table);
        push_unquoted(rt.alloc(), body, &place, root);
    }
}
