//! The commands by which an action of GitHub puts messages at the lines of a change.

use crate::escape::push_char;
use crate::marks::{Mark, Shown};
use manifest_json::Text;
use manifest_rules::Level;

/// Writes a text with the escapes of such commands; in the value of a property `:` and `,` have one too.
fn push_value(out: &mut Text, text: &str, is_property: bool) {
    for c in text.chars() {
        match c {
            '%' => out.push_str("%25"),
            '\r' => out.push_str("%0D"),
            '\n' => out.push_str("%0A"),
            ':' if is_property => out.push_str("%3A"),
            ',' if is_property => out.push_str("%2C"),
            _ => push_char(out, c),
        }
    }
}

/// The name of the command for a level.
fn command(level: Level) -> &'static str {
    match level {
        Level::Error => "error",
        Level::Warning => "warning",
        Level::Note => "notice",
    }
}

/// Writes `,line=..,col=..,endLine=..,endColumn=..`.
fn push_range(out: &mut Text, mark: &Mark<'_>) {
    out.push_str(",line=");
    out.push_number(mark.from.line);
    out.push_str(",col=");
    out.push_number(mark.from.characters.saturating_add(1));
    out.push_str(",endLine=");
    out.push_number(mark.to.line);
    out.push_str(",endColumn=");
    out.push_number(mark.to.characters.saturating_add(1));
}

/// Writes `::error file=..,line=..,col=..,endLine=..,endColumn=..,title=CODE::MESSAGE`.
pub(crate) fn push_github(out: &mut Text, file: &str, shown: &Shown<'_>) {
    let diagnostic = shown.diagnostic;
    let name = command(diagnostic.level);
    out.push_str("::");
    out.push_str(name);
    out.push_str(" file=");
    push_value(out, file, true);
    if let Some(mark) = shown.primary() {
        push_range(out, mark);
    }
    out.push_str(",title=");
    push_value(out, diagnostic.code.name, true);
    out.push_str("::");
    push_value(out, diagnostic.message.as_str(), false);
    for note in &diagnostic.notes {
        out.push_str("%0Anote: ");
        push_value(out, note.as_str(), false);
    }
    out.push('\n');
}
