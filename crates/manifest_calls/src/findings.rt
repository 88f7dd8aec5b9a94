//! What is found in the table of a document.

use crate::lines::{finished, push_lines, push_list, push_made_displayed};
use cargo_manifest::{
    Cause, Choices, Finding, Findings, KeyPath, SchemaFault, Step, Unread, faults, ignored,
    inspect, inspect_with_metadata, unused_keys,
};
use manifest_json::Text;
use std::alloc::{AllocError, Global};
use toml::Table;

/// Writes a line of a cause at a path, with the words of a choice, each after a blank.
fn push_fault(alloc: Global, cause: Cause, path: &KeyPath, choices: Choices, out: &mut Text) {
    out.push_str(cause.as_str());
    out.push_str(" at ");
    if let Some(path) = out.made(path.to_text(alloc)) {
        out.push_str(path.as_str());
    }
    for word in choices {
        out.push(' ');
        out.push_str(word);
    }
    out.push('\n');
}

/// The path of a key in the table at a path.
fn path_of_key(path: KeyPath, key: &String) -> Result<KeyPath, AllocError> {
    let mut path = path;
    path.steps.push(Step::Key(key.clone()?))?;
    Ok(path)
}

/// Writes a line of a finding.
fn push_finding(alloc: Global, path: KeyPath, finding: &Finding, out: &mut Text) {
    match finding {
        Finding::Fault(cause, choices) => push_fault(alloc, *cause, &path, *choices, out),
        Finding::Ignored(cause, choices) => {
            out.push_str("ignored: ");
            push_fault(alloc, *cause, &path, *choices, out);
        }
        Finding::Unused(key) => {
            out.push_str("unused: ");
            push_made_displayed(alloc, path_of_key(path, key), out);
        }
    }
}

/// Writes all findings, a line each.
fn push_findings(alloc: Global, found: &Findings<Finding>, out: &mut Text) {
    if let Some(list) = out.made(found.to_vec(alloc)) {
        for (path, finding) in list {
            push_finding(alloc, path, finding, out);
        }
    }
}

/// The lines of all findings.
fn lines_of(alloc: Global, found: &Findings<Finding>) -> Result<String, AllocError> {
    let mut out = Text::new(alloc);
    push_findings(alloc, found, &mut out);
    finished(alloc, out)
}

/// All that is found in a document, a line each.
pub fn answer(alloc: Global, document: &str) -> anyhow::Result<String> {
    let table = toml::table_from_str(alloc, document)?;
    let found = inspect(alloc, &table)?;
    Ok(lines_of(alloc, &found)?)
}

/// What is found in a table by the three calls, and then all findings, a line each.
fn lines_apart(
    alloc: Global,
    table: &Table,
    found: &Findings<Finding>,
) -> Result<String, AllocError> {
    let mut out = Text::new(alloc);
    push_list(alloc, faults(alloc, table), &mut out);
    push_list(alloc, ignored(alloc, table), &mut out);
    push_list(alloc, unused_keys(alloc, table), &mut out);
    push_findings(alloc, found, &mut out);
    finished(alloc, out)
}

/// What is found in a document by the three calls, and then with metadata that is not looked at, a line each.
pub fn apart(alloc: Global, document: &str) -> anyhow::Result<String> {
    let table = toml::table_from_str(alloc, document)?;
    let found = inspect_with_metadata::<Unread, Unread>(alloc, &table)?; // metadata is not looked at
    Ok(lines_apart(alloc, &table, &found)?)
}

/// What is found in a package of two keys.
fn findings_of_a_package(alloc: Global) -> anyhow::Result<Findings<Finding>> {
    let table = toml::table_from_str(alloc, "[package]\nname = 1\nedtion = '2021'")?;
    let found = inspect(alloc, &table)?; // `wrong kind at package.name`, and nothing reads `package.edtion`
    Ok(found)
}

/// The faults of a package.
fn all_faults(alloc: Global) -> anyhow::Result<Vec<SchemaFault>> {
    let table = toml::table_from_str(alloc, "[package]\nname = 1\nauthors = [2]")?;
    let all = faults(alloc, &table)?; // `wrong kind` at `package.name` and at `package.authors[0]`
    Ok(all)
}

/// What is ignored in a manifest.
fn dropped_badge(alloc: Global) -> anyhow::Result<Vec<SchemaFault>> {
    let table = toml::table_from_str(alloc, "package.name = 'a'\nbadges.gitlab = 1")?;
    let dropped = ignored(alloc, &table)?; // `wrong kind` at `badges.gitlab`
    Ok(dropped)
}

/// The keys of a manifest that nothing reads.
fn misspelled_key(alloc: Global) -> anyhow::Result<Vec<KeyPath>> {
    let table = toml::table_from_str(alloc, "[package]\nname = 'a'\nedtion = '2021'")?;
    let keys = unused_keys(alloc, &table)?; // `package.edtion`
    Ok(keys)
}

/// What the examples of the calls find, a line each.
pub fn push_examples(alloc: Global, out: &mut Text) -> anyhow::Result<()> {
    push_findings(alloc, &findings_of_a_package(alloc)?, out);
    push_lines(alloc, all_faults(alloc)?.as_slice(), out);
    push_lines(alloc, dropped_badge(alloc)?.as_slice(), out);
    push_lines(alloc, misspelled_key(alloc)?.as_slice(), out);
    Ok(())
}
