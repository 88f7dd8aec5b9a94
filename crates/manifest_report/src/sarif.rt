//! SARIF 2.1.0: one log for all manifests.

use crate::format::level_name;
use crate::marks::{Mark, Shown, ShownFix};
use crate::pages::explained;
use crate::source::Sources;
use manifest_json::Text;
use manifest_rules::{ALL, Code};
use percent_encoding::{AsciiSet, CONTROLS, utf8_percent_encode};
use std::alloc::{AllocError, Global};

/// What stands before the rules, between the rules and the results, and after the results.
const HEAD: &str =
    r#"{"$schema":"https://json.schemastore.org/sarif-2.1.0.json","version":"2.1.0","runs":[{"tool":{"driver":{"name":"manifest_check","rules":["#;

const MIDDLE: &str = r#"]}},"columnKind":"unicodeCodePoints","results":["#;

const FOOT: &str = "]}]}\n";

/// The characters that have an escape in the path of a URI.
fn escaped() -> AsciiSet {
    CONTROLS
        .add(b' ')
        .add(b'"')
        .add(b'#')
        .add(b'%')
        .add(b'<')
        .add(b'>')
        .add(b'?')
        .add(b'[')
        .add(b'\\')
        .add(b']')
        .add(b'^')
        .add(b'`')
        .add(b'{')
        .add(b'|')
        .add(b'}')
}

/// The path of a file as a URI.
fn uri_of(alloc: Global, file: &str) -> Result<String, AllocError> {
    let scheme = if file.starts_with('/') { "file://" } else { "" };
    let mut uri = String::from_str(alloc, scheme)?;
    let path = file.strip_prefix("./").unwrap_or(file);
    utf8_percent_encode(path, escaped()).append_to(&mut uri)?;
    Ok(uri)
}

/// Writes which file it is, by the path of the file as a URI.
fn push_artifact(alloc: Global, out: &mut Text, file: &str) {
    let Some(uri) = out.made(uri_of(alloc, file)) else {
        return;
    };
    out.open_member("artifactLocation");
    out.text_member("uri", uri.as_str());
    out.close();
}

/// Writes a range.
fn push_region(out: &mut Text, key: &str, mark: &Mark<'_>) {
    let start = mark.from.characters.saturating_add(1);
    let end = mark.to.characters.saturating_add(1);
    out.open_member(key);
    out.number_member("startLine", mark.from.line);
    out.number_member("startColumn", start);
    out.number_member("endLine", mark.to.line);
    out.number_member("endColumn", end);
    out.close();
}

/// Writes a member that is a text in an object of its own.
fn push_words(out: &mut Text, key: &str, text: &str) {
    out.open_member(key);
    out.text_member("text", text);
    out.close();
}

/// Writes a place: a range of a file, or a file without one.
fn push_physical(alloc: Global, out: &mut Text, file: &str, mark: Option<&Mark<'_>>) {
    out.open_member("physicalLocation");
    push_artifact(alloc, out, file);
    if let Some(mark) = mark {
        push_region(out, "region", mark);
    }
    out.close();
}

/// Writes a second place, and what is said there.
fn push_related_one(alloc: Global, out: &mut Text, mark: &Mark<'_>) {
    out.open();
    push_physical(alloc, out, mark.source.name, Some(mark));
    if !mark.text.is_empty() {
        push_words(out, "message", mark.text);
    }
    out.close();
}

/// Writes the second places of a diagnostic.
fn push_related(alloc: Global, out: &mut Text, shown: &Shown<'_>) {
    out.open_list("relatedLocations");
    for mark in &shown.marks {
        if !mark.is_primary {
            push_related_one(alloc, out, mark);
        }
    }
    out.close_list();
}

/// Writes a part of a suggestion.
fn push_replacement(out: &mut Text, part: &Mark<'_>) {
    out.open();
    push_region(out, "deletedRegion", part);
    push_words(out, "insertedContent", part.text);
    out.close();
}

/// Writes a suggestion.
fn push_fix(alloc: Global, out: &mut Text, file: &str, fix: &ShownFix<'_>) {
    let inner = fix.fix;
    out.open();
    push_words(out, "description", inner.text.as_str());
    out.open_list("artifactChanges");
    out.open();
    push_artifact(alloc, out, file);
    out.open_list("replacements");
    for part in &fix.parts {
        push_replacement(out, part);
    }
    out.close_list();
    out.close();
    out.close_list();
    out.close();
}

/// Writes the suggestions of a diagnostic that replace something.
fn push_fixes(alloc: Global, out: &mut Text, file: &str, shown: &Shown<'_>) {
    out.open_list("fixes");
    for fix in &shown.fixes {
        if !fix.parts.is_empty() {
            push_fix(alloc, out, file, fix);
        }
    }
    out.close_list();
}

/// Writes what is said of a code.
fn push_rule(out: &mut Text, code: Code) {
    let page = explained(code.name);
    out.open();
    out.text_member("id", code.name);
    if !page.is_empty() {
        push_words(out, "fullDescription", page);
    }
    out.open_member("defaultConfiguration");
    out.text_member("level", level_name(code.level));
    out.close();
    out.close();
}

/// Writes what stands before the results.
pub(crate) fn push_head(out: &mut Text) {
    out.push_str(HEAD);
    for code in ALL {
        push_rule(out, *code);
    }
    out.push_str(MIDDLE);
}

/// Writes what stands after the results.
pub(crate) fn push_foot(out: &mut Text) {
    out.push_str(FOOT);
}

/// Writes the place of a diagnostic.
fn push_locations(alloc: Global, out: &mut Text, file: &str, shown: &Shown<'_>) {
    out.open_list("locations");
    out.open();
    push_physical(alloc, out, file, shown.primary());
    out.close();
    out.close_list();
}

/// Writes a diagnostic as a result, with a comma before it where it is not the first one.
pub(crate) fn push_sarif<'a>(
    alloc: Global,
    out: &mut Text,
    is_first: bool,
    sources: &Sources<'a>,
    shown: &Shown<'a>,
) {
    let own = sources.own;
    let file = own.name;
    let diagnostic = shown.diagnostic;
    if !is_first {
        out.push_str(",\n");
    }
    out.open();
    out.text_member("ruleId", diagnostic.code.name);
    out.text_member("level", level_name(diagnostic.level));
    push_words(out, "message", diagnostic.message.as_str());
    push_locations(alloc, out, file, shown);
    push_related(alloc, out, shown);
    push_fixes(alloc, out, file, shown);
    out.close();
}
