//! What follows a string or a comment of a text, which is not looked at.

ghost use Rattle.std.specs.Prelude.{◌≡◌, false, drop};
ghost use Rattle.manifest_nesting.specs.Skipped as spec;

/// The byte at a place of a text; 0 where it ends before.
#[inline(always)]
pub(crate) fn byte_at(text: &[u8], at: usize) -> u8
    ensures { result ≡ spec.byte_at at text.now }
{
    if at < text.len() { text[at] } else { 0 }
}

/// Whether a text begins with three quotes, and no fourth: these end a string of several lines, which may have one or
/// two quotes just before them.
#[inline(always)]
fn has_last_three(quote: u8, text: &[u8]) -> bool
    ensures { result ≡ spec.has_last_three quote text.now }
{
    byte_at(text, 0) == quote
        && byte_at(text, 1) == quote
        && byte_at(text, 2) == quote
        && byte_at(text, 3) != quote
}

/// What follows a string of one line, or of several lines where `several` is true; the text begins within it. A string
/// that does not end takes all of the text.
#[inline(always)]
#[tactic(auto, unfolding(crate::specs::Skipped::after_content))]
fn after_content(several: bool, quote: u8, text: &[u8]) -> &[u8]
    ensures { result.now ≡ spec.after_content several quote false text.now }
{
    let mut escaped = false;
    for at in 0..text.len() {
        let byte = text[at];
        if escaped {
            escaped = false;
        } else if several && has_last_three(quote, &text[at..]) {
            return &text[at + 3..];
        } else if !several && byte == quote {
            return &text[at + 1..];
        } else {
            escaped = byte == b'\\' && quote == b'"';
        }
    }
    &text[text.len()..]
}

/// What follows the first bytes of a text.
#[inline(always)]
pub(crate) fn skip(text: &[u8], count: usize) -> &[u8]
    ensures { result.now ≡ drop count text.now }
{
    if count <= text.len() {
        &text[count..]
    } else {
        &text[text.len()..]
    }
}

/// What follows the string that a text begins with.
pub(crate) fn after_string(text: &[u8]) -> &[u8]
    ensures { result.now ≡ spec.after_string text.now }
{
    let quote = byte_at(text, 0);
    if byte_at(text, 1) == quote && byte_at(text, 2) == quote {
        after_content(true, quote, skip(text, 3))
    } else {
        after_content(false, quote, skip(text, 1))
    }
}

/// What follows the comment that a text begins with: its line feed and all after it.
#[tactic(auto, unfolding(crate::specs::Skipped::after_comment))]
pub(crate) fn after_comment(text: &[u8]) -> &[u8]
    ensures { result.now ≡ spec.after_comment text.now }
{
    for at in 0..text.len() {
        if text[at] == b'\n' {
            return &text[at..];
        }
    }
    &text[text.len()..]
}
