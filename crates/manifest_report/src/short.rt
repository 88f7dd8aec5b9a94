//! One line for each diagnostic.

use crate::escape::push_escaped;
use crate::format::level_name;
use crate::marks::Shown;
use manifest_json::Text;

/// Writes `FILE:LINE:COLUMN: error[CODE]: MESSAGE`. The first line and column are 1; columns count characters, and so
/// stands what has no place of its own.
pub(crate) fn push_short(out: &mut Text, file: &str, shown: &Shown<'_>) {
    let (line, column) = match shown.primary() {
        Some(mark) => (mark.from.line, mark.from.characters.saturating_add(1)),
        None => (1, 1),
    };
    let diagnostic = shown.diagnostic;
    let level = level_name(diagnostic.level);
    let code = diagnostic.code.name;
    push_escaped(out, file);
    out.push(':');
    out.push_number(line);
    out.push(':');
    out.push_number(column);
    out.push_str(": ");
    out.push_str(level);
    out.push('[');
    out.push_str(code);
    out.push_str("]: ");
    push_escaped(out, diagnostic.message.as_str());
    out.push('\n');
}
