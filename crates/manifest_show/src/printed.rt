//! What a package builds and inherits, as lines for people or as JSON.

use crate::canonical_text::Refused;
use crate::inherited::{Inherited, Pair, push_inherited};
use crate::lines::Lines;
use crate::targets::{Target, targets_of};
use manifest_json::Text;
use std::alloc::{AllocError, Global};
use std::rt::Files;
use toml::Table;

/// The manifest of a workspace's root.
#[derive(Clone, Copy)]
pub struct RootText<'a> {
    /// The name of its file.
    pub name: &'a str,
    pub text: &'a str,
}

fn text_of(text: &Option<String>) -> Option<&str> {
    text.as_ref().map(|text| text.as_str())
}

/// Writes a target as JSON.
fn push_target_json(out: &mut Text, target: &Target) {
    out.open();
    out.text_member("kind", target.kind);
    out.text_member("name", target.name.as_str());
    out.optional_text("path", text_of(&target.path));
    out.optional_number("declared_at", target.line);
    out.close();
}

/// Writes an inherited value as JSON.
fn push_inherited_json(out: &mut Text, root: Option<&str>, value: &Inherited) {
    out.open();
    out.text_member("key", value.key.as_str());
    out.optional_number("line", value.line);
    out.optional_text("file", root);
    out.optional_number("file_line", value.root_line);
    out.optional_text("value", text_of(&value.value));
    out.close();
}

/// All of it as one line of JSON.
fn json(
    alloc: Global,
    targets: &[Target],
    inherited: &[Inherited],
    root: Option<&str>,
) -> Result<String, AllocError> {
    let mut out = Text::new(alloc);
    out.open();
    out.open_list("targets");
    for target in targets {
        push_target_json(&mut out, target);
    }
    out.close_list();
    out.open_list("inherited");
    for value in inherited {
        push_inherited_json(&mut out, root, value);
    }
    out.close_list();
    out.close();
    out.push('\n');
    out.finish()
}

/// Writes `FILE:LINE`.
fn push_place(out: &mut Text, file: &str, line: usize) {
    out.push_str(file);
    out.push(':');
    out.push_number(line);
}

/// Writes `bin tool src/bin/tool.rs (found)`.
fn push_target(out: &mut Text, name: &str, target: &Target) {
    out.push_str(target.kind);
    out.push(' ');
    out.push_str(target.name.as_str());
    if let Some(path) = &target.path {
        out.push(' ');
        out.push_str(path.as_str());
    }
    match target.line {
        Some(line) => {
            out.push_str(" (declared at ");
            push_place(out, name, line);
            out.push_str(")\n");
        }
        None => out.push_str(" (found)\n"),
    }
}

/// Writes `package.version = "1.0.0" (Cargo.toml:3, from ../Cargo.toml:7)`.
fn push_value(out: &mut Text, name: &str, root: Option<&str>, value: &Inherited) {
    out.push_str(value.key.as_str());
    if let Some(text) = &value.value {
        out.push_str(" = ");
        out.push_str(text.as_str().lines().next().unwrap_or(""));
    }
    out.push_str(" (");
    if let Some(line) = value.line {
        push_place(out, name, line);
        out.push_str(", ");
    }
    match (root, value.root_line) {
        (Some(root), Some(line)) => {
            out.push_str("from ");
            push_place(out, root, line);
            out.push_str(")\n");
        }
        (Some(root), None) => {
            out.push_str("not in ");
            out.push_str(root);
            out.push_str(")\n");
        }
        (None, _) => out.push_str("no workspace)\n"),
    }
}

/// All of it as lines.
fn lines_of(
    alloc: Global,
    name: &str,
    targets: &[Target],
    inherited: &[Inherited],
    root: Option<&str>,
) -> Result<String, AllocError> {
    let mut out = Text::new(alloc);
    for target in targets {
        push_target(&mut out, name, target);
    }
    for value in inherited {
        push_value(&mut out, name, root, value);
    }
    out.finish()
}

/// What is known of a package whose targets are these, with what it inherits.
fn with_targets(
    alloc: Global,
    name: &str,
    document: &Table,
    pair: Pair<'_>,
    targets: &[Target],
    root: Option<&str>,
    is_json: bool,
) -> Result<String, AllocError> {
    let mut inherited = Vec::new(alloc);
    push_inherited(alloc, pair, document, &mut inherited)?;
    if is_json {
        json(alloc, targets, inherited.as_slice(), root)
    } else {
        lines_of(alloc, name, targets, inherited.as_slice(), root)
    }
}

/// What the package in a folder builds, and what it inherits from its root: a line for each target with where it is
/// declared, or that it is found, and a line for each inherited value with its places in both files; or one line of JSON.
/// `text` is the manifest, `document` its table, and `name` the name of its file.
pub fn show<H: Files + AllocGlobal + Clone + Drop>(
    rt: &H,
    folder: &str,
    name: &str,
    text: &str,
    document: &Table,
    root: Option<RootText<'_>>,
    is_json: bool,
) -> Result<String, Refused> {
    let alloc = rt.alloc();
    let lines = Lines::new(alloc, text)?;
    let root_lines = match root {
        Some(root) => Some(Lines::new(alloc, root.text)?),
        None => None,
    };
    let pair = Pair {
        member: &lines,
        root: root_lines.as_ref(),
    };
    let targets = targets_of(rt, folder, document, &lines, text)?;
    let targets = targets.as_slice();
    let root = root.map(|root| root.name);
    let shown = with_targets(alloc, name, document, pair, targets, root, is_json)?;
    Ok(shown)
}
