//! The difference of two texts.

use crate::escape::push_escaped;
use manifest_json::Text;
use std::alloc::{AllocError, Global};
use std::collections::BTreeMap;

/// How many lines stand around a change.
const AROUND: usize = 3;

/// A range of lines of the old text, and the range of the new one that takes its place.
#[derive(Clone, Copy)]
struct Hunk {
    old_from: usize,
    old_to: usize,
    new_from: usize,
    new_to: usize,
}

/// Where a line stands, if it stands in a text once.
#[derive(Clone, Copy)]
struct Once {
    at: usize,
    is_once: bool,
}

/// The lines of a text, each with its line feed.
fn lines_of<'a>(alloc: Global, text: &'a str) -> Result<Vec<&'a str>, AllocError> {
    let mut lines = Vec::new(alloc);
    for line in text.split_inclusive('\n') {
        lines.push(line)?;
    }
    Ok(lines)
}

/// The lines that stand in a text once.
fn lines_once<'a>(alloc: Global, lines: &[&'a str]) -> Result<BTreeMap<&'a str, Once>, AllocError> {
    let mut all: BTreeMap<&'a str, Once> = BTreeMap::new(alloc);
    for (at, line) in lines.iter().enumerate() {
        let is_once = all.get(line).is_none();
        all.insert(*line, Once { at, is_once })?;
    }
    Ok(all)
}

/// A pair of equal lines, and the pair before it in the longest row of pairs that ends with it.
#[derive(Clone, Copy)]
struct Pair {
    old: usize,
    new: usize,
    before: Option<usize>,
}

/// The lines that stand once in both texts, in the order of the old one.
fn pairs<'x>(alloc: Global, old: &[&'x str], new: &[&'x str]) -> Result<Vec<Pair>, AllocError> {
    let in_old = lines_once(alloc, old)?;
    let in_new = lines_once(alloc, new)?;
    let mut pairs = Vec::new(alloc);
    for (at, line) in old.iter().enumerate() {
        if let (Some(a), Some(b)) = (in_old.get(line), in_new.get(line)) {
            if a.is_once && b.is_once {
                pairs.push(Pair {
                    old: at,
                    new: b.at,
                    before: None,
                })?;
            }
        }
    }
    Ok(pairs)
}

/// The longest row of pairs that ascend in both texts, from its last one to its first one.
fn longest(alloc: Global, pairs: Vec<Pair>) -> Result<Vec<Pair>, AllocError> {
    let mut pairs = pairs;
    let mut tops: Vec<(usize, usize)> = Vec::new(alloc);
    for index in 0..pairs.len() {
        let Some(pair) = pairs.get_mut(index) else {
            continue;
        };
        let place = tops.partition_point(|top| top.0 < pair.new);
        pair.before = match place.checked_sub(1) {
            Some(last) => tops.get(last).map(|top| top.1),
            None => None,
        };
        let top = (pair.new, index);
        match tops.get_mut(place) {
            Some(old) => *old = top,
            None => tops.push(top)?,
        }
    }
    let mut row = Vec::new(alloc);
    let mut next = tops.last().map(|top| top.1);
    for _ in 0..pairs.len() {
        if let Some(index) = next {
            if let Some(pair) = pairs.get(index) {
                row.push(*pair)?;
                next = pair.before;
            }
        }
    }
    Ok(row)
}

/// How many lines are equal from these on.
fn equal_after(old: &[&str], new: &[&str]) -> usize {
    let mut count = 0usize;
    for (a, b) in old.iter().zip(new.iter()) {
        if *a != *b {
            return count;
        }
        count = count.saturating_add(1);
    }
    count
}

/// How many lines are equal up to the ends of these.
fn equal_before(old: &[&str], new: &[&str]) -> usize {
    let mut count = 0usize;
    for (a, b) in old.iter().rev().zip(new.iter().rev()) {
        if *a != *b {
            return count;
        }
        count = count.saturating_add(1);
    }
    count
}

/// The change between two pairs of equal lines, without the equal lines at its beginning and its end; `None` where it
/// changes nothing.
fn hunk_in(old: &[&str], new: &[&str], range: Hunk) -> Option<Hunk> {
    let olds = old.get(range.old_from..range.old_to)?;
    let news = new.get(range.new_from..range.new_to)?;
    let front = equal_after(olds, news);
    let olds = olds.get(front..)?;
    let news = news.get(front..)?;
    let back = equal_before(olds, news);
    if olds.is_empty() && news.is_empty() {
        return None;
    }
    Some(Hunk {
        old_from: range.old_from.saturating_add(front),
        old_to: range.old_to.saturating_sub(back),
        new_from: range.new_from.saturating_add(front),
        new_to: range.new_to.saturating_sub(back),
    })
}

/// What changes from one text to the other, in the order of the lines.
fn hunks(alloc: Global, old: &[&str], new: &[&str]) -> Result<Vec<Hunk>, AllocError> {
    let mut row = longest(alloc, pairs(alloc, old, new)?)?;
    row.reverse();
    row.push(Pair {
        old: old.len(),
        new: new.len(),
        before: None,
    })?;
    let mut all = Vec::new(alloc);
    let mut old_from = 0usize;
    let mut new_from = 0usize;
    for pair in &row {
        let range = Hunk {
            old_from,
            old_to: pair.old,
            new_from,
            new_to: pair.new,
        };
        if let Some(change) = hunk_in(old, new, range) {
            all.push(change)?;
        }
        old_from = pair.old.saturating_add(1);
        new_from = pair.new.saturating_add(1);
    }
    Ok(all)
}

/// Writes lines with a sign before each.
fn push_lines(out: &mut Text, sign: &str, lines: &[&str], from: usize, to: usize) {
    for line in lines.get(from..to).unwrap_or(&[]) {
        out.push_str(sign);
        out.push_str(*line);
        if !line.ends_with('\n') {
            out.push_str("\n\\ No newline at end of file\n");
        }
    }
}

/// Writes the numbers of a range of lines: the first one, and how many they are.
fn push_range(out: &mut Text, sign: &str, from: usize, to: usize) {
    let count = to.saturating_sub(from);
    let first = if count == 0 {
        from
    } else {
        from.saturating_add(1)
    };
    out.push(' ');
    out.push_str(sign);
    out.push_number(first);
    if count != 1 {
        out.push(',');
        out.push_number(count);
    }
}

/// Writes some changes with the lines around them.
fn push_group(out: &mut Text, old: &[&str], new: &[&str], hunks: &[Hunk]) {
    let (Some(first), Some(last)) = (hunks.first(), hunks.last()) else {
        return;
    };
    let before = first.old_from.min(AROUND);
    let from = first.old_from.saturating_sub(before);
    let after = old.len().saturating_sub(last.old_to).min(AROUND);
    out.push_str("@@");
    push_range(out, "-", from, last.old_to.saturating_add(after));
    let new_from = first.new_from.saturating_sub(before);
    push_range(out, "+", new_from, last.new_to.saturating_add(after));
    out.push_str(" @@\n");
    let mut at = from;
    for hunk in hunks {
        push_lines(out, " ", old, at, hunk.old_from);
        push_lines(out, "-", old, hunk.old_from, hunk.old_to);
        push_lines(out, "+", new, hunk.new_from, hunk.new_to);
        at = hunk.old_to;
    }
    push_lines(out, " ", old, at, last.old_to.saturating_add(after));
}

/// Writes the names of the old file and of the new one.
fn push_names(out: &mut Text, file: &str) {
    let path = file
        .strip_prefix("./")
        .unwrap_or(file)
        .trim_start_matches('/');
    out.push_str("--- a/");
    push_escaped(out, path);
    out.push_str("\n+++ b/");
    push_escaped(out, path);
    out.push('\n');
}

/// Writes the difference of two texts of a file as a unified diff, which `patch -p1` takes; nothing where they are equal.
/// It takes the time of sorting their lines. What is written are bytes of the texts: nothing is escaped in them.
pub fn push_diff(alloc: Global, out: &mut Text, file: &str, old: &str, new: &str) {
    let Some(olds) = out.made(lines_of(alloc, old)) else {
        return;
    };
    let Some(news) = out.made(lines_of(alloc, new)) else {
        return;
    };
    let (old, new) = (olds.as_slice(), news.as_slice());
    let Some(hunks) = out.made(hunks(alloc, old, new)) else {
        return;
    };
    if hunks.is_empty() {
        return;
    }
    push_names(out, file);
    let is_near = |a: &Hunk, b: &Hunk| b.old_from.saturating_sub(a.old_to) <= AROUND * 2;
    for group in hunks.as_slice().chunk_by(is_near) {
        push_group(out, old, new, group);
    }
}
