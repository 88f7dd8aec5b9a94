//! The codes, and their pages.

use manifest_json::Text;
use manifest_report::level_name;
use manifest_report::pages::explained;
use manifest_rules::{ALL, Code, code_named};

/// Writes the level of a code, with that in a package of the edition 2024 where it is another one.
fn push_level(out: &mut Text, code: Code) {
    out.push_str(level_name(code.level));
    if code.in_2024 != code.level {
        out.push_str(" (");
        out.push_str(level_name(code.in_2024));
        out.push_str(" in the edition 2024)");
    }
}

/// Writes a line for each code: its name and its level.
pub(crate) fn push_list(out: &mut Text) {
    for code in ALL {
        out.push_str(code.name);
        out.push_str(": ");
        push_level(out, *code);
        out.push('\n');
    }
}

/// Writes the page of a code, or its line where it has none.
pub(crate) fn push_page(out: &mut Text, name: &str) {
    let page = explained(name);
    if !page.is_empty() {
        out.push_str(page);
        if !page.ends_with('\n') {
            out.push('\n');
        }
        return;
    }
    out.push_str(name);
    out.push_str(": ");
    if let Some(code) = code_named(name) {
        push_level(out, code);
    }
    out.push('\n');
}
