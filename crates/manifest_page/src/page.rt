//! The page: its text, with what is known of the manifests in it.

ghost use Rattle.std.specs.Prelude.{◌≡◌, ◌++◌, IfOk, string_bytes};
ghost use Rattle.std.specs.Char.{encode_utf8};
ghost use Rattle.manifest_page.specs.Page.{harmless, HasNoTag};

use crate::page_text::{AFTER, BEFORE};
use manifest_json::Text;
use std::alloc::AllocError;

/// Writes what the page begins with, up to its data.
pub fn push_begin(out: &mut Text) {
    for text in &BEFORE {
        out.push_str(*text);
    }
}

/// Writes JSON into the page, each `<` of it as an escape of JSON. So it cannot end the element of the data, whatever texts
/// it holds ([`data_has_no_tag`]).
///
/// ```ignore
/// push_data(&mut out, "\"</script>\"")?; // "\u003c/script>"
/// ```
pub fn push_data(out: &mut String, json: &str) -> Result<(), AllocError>
    ensures { IfOk result (λ _. string_bytes out.new ≡ string_bytes out.old ++ harmless json.now) }
{
    for c in json.chars() {
        push_harmless(out, c)?;
    }
    Ok(())
}

/// What is written of any JSON has no `<`, with which each tag of HTML begins: a law, with an empty body.
#[tactic(auto, using(crate::proofs::NoTag::has_no_tag))]
pub fn data_has_no_tag(json: &str)
    ensures { HasNoTag (harmless json.now) }
{}

/// Writes a character, or its escape.
#[tactic(auto, using(crate::proofs::NoTag::harmless_char))]
fn push_harmless(out: &mut String, c: char) -> Result<(), AllocError>
    ensures { IfOk result
        (λ _. string_bytes out.new ≡ string_bytes out.old ++ harmless (encode_utf8 c)) }
{
    if c == '<' {
        out.push_str("\\u003c")
    } else {
        out.push(c)
    }
}

/// Writes what the page ends with, after its data.
pub fn push_end(out: &mut Text) {
    for text in &AFTER {
        out.push_str(*text);
    }
}
