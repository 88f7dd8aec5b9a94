//! License expressions of SPDX.
//! (<https://spdx.github.io/spdx-spec/v2.3/SPDX-license-expressions/>)

use crate::licenses::{EXCEPTIONS, LICENSES};

/// What may come next in an expression.
#[derive(Clone, Copy, PartialEq, Eq)]
enum Wants {
    /// A license, or an opening parenthesis.
    License,
    /// `AND`, `OR`, `WITH`, a closing parenthesis, or the end.
    Word,
    /// An exception.
    Exception,
    /// `AND`, `OR`, a closing parenthesis, or the end.
    WordAfterException,
}

/// Whether the text is a license expression: licenses with `AND`, `OR` and `WITH` between them, and parentheses; crates.io
/// takes `/` for `OR` too.
pub(crate) fn is_license(text: &str) -> bool {
    let mut wants = Wants::License;
    let mut depth = 0usize;
    for word in text.split(' ') {
        let mut is_first = true;
        for part in word.split('/') {
            if !is_first {
                wants = match after(wants, "OR") {
                    Some(next) => next,
                    None => return false,
                };
            }
            is_first = false;
            if part.is_empty() {
                continue;
            }
            match after_word(wants, depth, part) {
                Some((next, inner)) => {
                    wants = next;
                    depth = inner;
                }
                None => return false,
            }
        }
    }
    depth == 0 && (wants == Wants::Word || wants == Wants::WordAfterException)
}

/// What comes after a word with its parentheses, and how many are open.
fn after_word(wants: Wants, depth: usize, word: &str) -> Option<(Wants, usize)> {
    let opened = word.trim_start_matches('(');
    let inner = opened.trim_end_matches(')');
    let open = word.len().saturating_sub(opened.len());
    let close = opened.len().saturating_sub(inner.len());
    if open > 0 && wants != Wants::License {
        return None;
    }
    let next = if inner.is_empty() {
        wants
    } else {
        after(wants, inner)?
    };
    if close > 0 && next == Wants::License {
        return None;
    }
    let depth = depth.checked_add(open)?.checked_sub(close)?;
    Some((next, depth))
}

fn after(wants: Wants, word: &str) -> Option<Wants> {
    match (wants, word) {
        (Wants::Word, "AND" | "OR") => Some(Wants::License),
        (Wants::WordAfterException, "AND" | "OR") => Some(Wants::License),
        (Wants::Word, "WITH") => Some(Wants::Exception),
        (Wants::License, _) if is_license_name(word) => Some(Wants::Word),
        (Wants::Exception, _) if is_one_of(EXCEPTIONS, word) => Some(Wants::WordAfterException),
        _ => None,
    }
}

/// Whether the word is one of these lines.
fn is_one_of(words: &str, word: &str) -> bool {
    words.split('\n').any(|one| one == word)
}

/// Whether the word is a license of the list, with a `+` after it or not, or refers to one that is elsewhere:
/// `LicenseRef-NAME` or `DocumentRef-NAME:LicenseRef-NAME`.
fn is_license_name(word: &str) -> bool {
    if is_one_of(LICENSES, word.strip_suffix('+').unwrap_or(word)) {
        return true;
    }
    let own = match word.strip_prefix("DocumentRef-") {
        Some(rest) => match rest.split_once(':') {
            Some((document, own)) if is_plain(document) => own,
            _ => return false,
        },
        None => word,
    };
    own.strip_prefix("LicenseRef-")
        .is_some_and(|name| is_plain(name))
}

/// Whether a name is of letters, digits, `-` and `.`.
fn is_plain(name: &str) -> bool {
    !name.is_empty()
        && name
            .chars()
            .all(|ch| ch.is_ascii_alphanumeric() || ch == '-' || ch == '.')
}
