//! Patterns of names, as the members of a workspace are given by: `*`, `?` and `[a-z]`.

use std::alloc::{AllocError, Global};

/// A part of a pattern.
#[derive(Drop)]
enum Token {
    /// Any characters, or none.
    Many,
    /// Any one character.
    One,
    /// This character.
    Exactly(char),
    /// One of these ranges; or none of them, where it is negated.
    Among {
        ranges: Vec<(char, char)>,
        is_negated: bool,
    },
}

/// Whether a name in a path is a pattern.
pub(crate) fn is_pattern(name: &str) -> bool {
    name.contains('*') || name.contains('?') || name.contains('[')
}

/// The ranges of what stands between brackets.
fn ranges_of(alloc: Global, inner: &str) -> Result<Vec<(char, char)>, AllocError> {
    let mut ranges = Vec::new(alloc);
    let mut last: Option<char> = None;
    let mut is_open = false;
    for c in inner.chars() {
        match last {
            Some(first) if is_open => {
                ranges.push((first, c))?;
                last = None;
                is_open = false;
            }
            Some(_) if c == '-' => is_open = true,
            Some(first) => {
                ranges.push((first, first))?;
                last = Some(c);
            }
            None => last = Some(c),
        }
    }
    if let Some(first) = last {
        ranges.push((first, first))?;
    }
    if is_open {
        ranges.push(('-', '-'))?;
    }
    Ok(ranges)
}

/// What stands between the brackets at the beginning of a pattern, and what is after them.
fn bracketed(pattern: &str) -> Option<(&str, &str)> {
    let rest = pattern.strip_prefix('[')?;
    let (first, others) = rest.split_at_checked(1)?;
    let length = others.find(']')?;
    let (inner, after) = rest.split_at_checked(length.saturating_add(first.len()))?;
    Some((inner, after.strip_prefix(']')?))
}

/// The token at the beginning of a pattern.
fn first_token(alloc: Global, pattern: &str) -> Result<Option<Token>, AllocError> {
    let Some(first) = pattern.chars().next() else {
        return Ok(None);
    };
    let token = match (first, bracketed(pattern)) {
        ('*', _) => Token::Many,
        ('?', _) => Token::One,
        (_, Some((inner, _after))) => Token::Among {
            ranges: ranges_of(alloc, inner.strip_prefix('!').unwrap_or(inner))?,
            is_negated: inner.starts_with('!'),
        },
        (_, None) => Token::Exactly(first),
    };
    Ok(Some(token))
}

/// What is left of a pattern after the token at its beginning.
fn after_token(pattern: &str) -> &str {
    if let Some((_inner, after)) = bracketed(pattern) {
        return after;
    }
    match pattern.chars().next() {
        Some(first) => pattern.get(first.len_utf8()..).unwrap_or(""),
        None => "",
    }
}

/// Whether a token that is one character takes this one.
fn takes(token: &Token, c: char) -> bool {
    match token {
        Token::Many | Token::One => true,
        Token::Exactly(wanted) => *wanted == c,
        Token::Among { ranges, is_negated } => {
            let is_among = ranges.iter().any(|range| range.0 <= c && c <= range.1);
            is_among != *is_negated
        }
    }
}

/// Which beginnings of a name are taken by the tokens so far and one more: `reached` has a flag for each.
fn step(
    alloc: Global,
    reached: &[bool],
    token: &Token,
    name: &str,
) -> Result<Vec<bool>, AllocError> {
    let mut next = Vec::new(alloc);
    let is_many = matches!(token, Token::Many);
    let mut is_reached = is_many && reached.first() == Some(&true);
    next.push(is_reached)?;
    for (index, c) in name.chars().enumerate() {
        let before = reached.get(index) == Some(&true);
        let after = reached.get(index.saturating_add(1)) == Some(&true);
        is_reached = if is_many {
            is_reached || after
        } else {
            before && takes(token, c)
        };
        next.push(is_reached)?;
    }
    Ok(next)
}

/// Takes the token at the beginning of a pattern, where there is one.
fn advance(
    alloc: Global,
    reached: &mut Vec<bool>,
    pattern: &str,
    name: &str,
) -> Result<(), AllocError> {
    if let Some(token) = first_token(alloc, pattern)? {
        let next = step(alloc, reached.as_slice(), &token, name)?;
        *reached = next;
    }
    Ok(())
}

/// Whether a name is one that the pattern means.
pub(crate) fn matches_name(alloc: Global, pattern: &str, name: &str) -> Result<bool, AllocError> {
    let mut reached = Vec::new(alloc);
    reached.push(true)?;
    for _c in name.chars() {
        reached.push(false)?;
    }
    let mut rest = pattern;
    for _ in 0..pattern.len() {
        advance(alloc, &mut reached, rest, name)?;
        rest = after_token(rest);
    }
    Ok(reached.last() == Some(&true))
}

/// Whether a path is one that the pattern means, name by name.
pub(crate) fn matches_path(
    alloc: Global,
    pattern: &[&str],
    names: &[&str],
) -> Result<bool, AllocError> {
    if pattern.len() != names.len() {
        return Ok(false);
    }
    for (one, name) in pattern.iter().zip(names.iter()) {
        if !matches_name(alloc, *one, *name)? {
            return Ok(false);
        }
    }
    Ok(true)
}
