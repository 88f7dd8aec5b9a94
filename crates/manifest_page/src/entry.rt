//! What a page says of a manifest, as JSON.

use manifest_json::Text;
use manifest_lint::Diagnostic;
use manifest_places::position_of;
use manifest_rules::Level;
use toml::{Table, Value};

/// A manifest that is shown.
#[derive(Clone, Copy)]
pub struct Entry<'a> {
    /// Its path, as it is shown.
    pub file: &'a str,
    pub text: &'a str,
    /// Its document, if the text is one.
    pub document: Option<&'a Table>,
    /// What its package builds and inherits, as members of an object of JSON; the empty text where that is not known.
    pub built: &'a str,
    /// What is said of it.
    pub diagnostics: &'a [Diagnostic],
}

/// The tables of dependencies of a package, and of each of its platforms, each with its old spelling.
const SECTIONS: [(&str, &str); 3] = [
    ("dependencies", "dependencies"),
    ("dev-dependencies", "dev_dependencies"),
    ("build-dependencies", "build_dependencies"),
];

/// The keys that say where a dependency comes from.
const SOURCES: [&str; 6] = ["path", "git", "branch", "tag", "rev", "registry"];

/// The longest line of a text that is shown, in characters.
const LONGEST: usize = 200;

fn table_in<'a>(table: &'a Table, key: &str) -> Option<&'a Table> {
    match table.get(key) {
        Some(Value::Table(inner)) => Some(inner),
        _ => None,
    }
}

fn text_in<'a>(table: &'a Table, key: &str) -> Option<&'a str> {
    table.get(key)?.as_str()
}

/// Writes the name and the version of the package; null where there is none.
fn push_package(out: &mut Text, document: &Table) {
    let package = table_in(document, "package").or(table_in(document, "project"));
    let Some(package) = package else {
        out.null_member("package");
        return;
    };
    out.open_member("package");
    out.optional_text("name", text_in(package, "name"));
    out.optional_text("version", text_in(package, "version"));
    out.optional_text("description", text_in(package, "description"));
    out.close();
}

/// Writes what a dependency in detail asks for, in a line.
fn push_detail(out: &mut Text, table: &Table) {
    if let Some(Value::Boolean(true)) = table.get("workspace") {
        out.text_member("spec", "inherited");
        return;
    }
    let mut spec = Text::new(out.allocator());
    if let Some(version) = text_in(table, "version") {
        spec.push_str(version);
    }
    for key in &SOURCES {
        if let Some(text) = text_in(table, *key) {
            if !spec.is_empty() {
                spec.push_str(", ");
            }
            spec.push_str(*key);
            spec.push(' ');
            spec.push_str(text);
        }
    }
    if let Some(spec) = out.made(spec.finish()) {
        out.text_member("spec", spec.as_str());
    }
}

/// Writes a dependency.
fn push_dependency(
    out: &mut Text,
    section: &str,
    platform: Option<&str>,
    key: &str,
    value: &Value,
) {
    out.open();
    out.text_member("section", section);
    out.optional_text("platform", platform);
    out.text_member("key", key);
    match value {
        Value::String(version) => out.text_member("spec", version.as_str()),
        Value::Table(table) => {
            push_detail(out, table);
            out.optional_text("path", text_in(table, "path"));
        }
        _ => out.text_member("spec", ""),
    }
    out.close();
}

/// Writes the dependencies of a table.
fn push_section(out: &mut Text, section: &str, platform: Option<&str>, table: Option<&Table>) {
    if let Some(table) = table {
        for (key, value) in table {
            push_dependency(out, section, platform, key.as_str(), value);
        }
    }
}

/// Writes the dependencies of a package, or of one of its platforms.
fn push_sections(out: &mut Text, platform: Option<&str>, tables: &Table) {
    for (section, old) in &SECTIONS {
        let table = table_in(tables, *section).or(table_in(tables, *old));
        push_section(out, *section, platform, table);
    }
}

/// Writes all dependencies of a document, and those that its members can inherit.
fn push_dependencies(out: &mut Text, document: &Table) {
    out.open_list("dependencies");
    push_sections(out, None, document);
    if let Some(platforms) = table_in(document, "target") {
        for (platform, tables) in platforms {
            if let Value::Table(tables) = tables {
                push_sections(out, Some(platform.as_str()), tables);
            }
        }
    }
    if let Some(workspace) = table_in(document, "workspace") {
        let table = table_in(workspace, "dependencies");
        push_section(out, "workspace.dependencies", None, table);
    }
    out.close_list();
}

/// Writes the items of a feature.
fn push_feature(out: &mut Text, name: &str, value: &Value) {
    out.open_list(name);
    if let Value::Array(items) = value {
        let mut is_first = true;
        for item in items {
            if let Value::String(text) = item {
                if !is_first {
                    out.push(',');
                }
                is_first = false;
                out.push_quoted(text.as_str());
            }
        }
    }
    out.close_list();
}

/// Writes the features of a document.
fn push_features(out: &mut Text, document: &Table) {
    out.open_member("features");
    if let Some(features) = table_in(document, "features") {
        for (name, value) in features {
            push_feature(out, name.as_str(), value);
        }
    }
    out.close();
}

/// The name of a level.
fn name_of(level: Level) -> &'static str {
    match level {
        Level::Error => "error",
        Level::Warning => "warning",
        Level::Note => "note",
    }
}

/// The line of a text that an offset is in, as far as it is shown.
fn line_at(text: &str, offset: usize) -> &str {
    let before = text.get(..offset).unwrap_or("");
    let start = match before.rsplit_once('\n') {
        Some((above, _line)) => above.len().saturating_add(1),
        None => 0,
    };
    let line = text.get(start..).unwrap_or("").lines().next().unwrap_or("");
    match line.char_indices().nth(LONGEST) {
        Some((end, _char)) => line.get(..end).unwrap_or(""),
        None => line,
    }
}

/// Writes where a diagnostic is.
fn push_place(out: &mut Text, text: &str, offset: usize) {
    let Some(position) = position_of(text, offset) else {
        return;
    };
    out.number_member("line", position.line);
    out.number_member("column", position.characters.saturating_add(1));
    out.text_member("excerpt", line_at(text, offset));
}

/// Writes a diagnostic.
fn push_diagnostic(out: &mut Text, text: &str, diagnostic: &Diagnostic) {
    out.open();
    out.text_member("code", diagnostic.code.name);
    out.text_member("level", name_of(diagnostic.level));
    out.text_member("message", diagnostic.message.as_str());
    if let Some(span) = diagnostic.span {
        push_place(out, text, span.from);
    }
    out.open_list("notes");
    let mut is_first = true;
    for note in &diagnostic.notes {
        if !is_first {
            out.push(',');
        }
        is_first = false;
        out.push_quoted(note.as_str());
    }
    out.close_list();
    out.close();
}

/// Writes what is known of a manifest as an object of JSON.
///
/// ```ignore
/// push_entry(&mut out, &entry); // {"file":"Cargo.toml","targets":[..],"inherited":[..],"package":{..},..}
/// ```
pub fn push_entry(out: &mut Text, entry: &Entry<'_>) {
    out.open();
    out.text_member("file", entry.file);
    if entry.built.is_empty() {
        out.open_list("targets");
        out.close_list();
        out.open_list("inherited");
        out.close_list();
    } else {
        out.push(',');
        out.push_str(entry.built);
    }
    match entry.document {
        Some(document) => {
            push_package(out, document);
            push_dependencies(out, document);
            push_features(out, document);
        }
        None => out.null_member("package"),
    }
    out.open_list("diagnostics");
    for diagnostic in entry.diagnostics {
        push_diagnostic(out, entry.text, diagnostic);
    }
    out.close_list();
    out.close();
}
