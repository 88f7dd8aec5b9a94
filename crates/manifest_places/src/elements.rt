//! Items of arrays and entries of tables, and what is taken out with one of them. Nothing is promised of it: `planning.rt`
//! has it checked.

use crate::company::Company;
use crate::keys::Span;
use crate::layout::{after_blanks, before_blanks, begins_line, line_end, line_start};
use crate::walk::{FoundValue, Survey};
use std::alloc::{AllocError, Global};
use toml_parser::text::byte_at;

/// An item of an array or an entry of an inline table: where it begins, at its key, and ends, and whether it is taken out.
#[derive(Clone, Copy)]
pub(crate) struct Element {
    pub start: usize,
    pub end: usize,
    pub goes: bool,
}

/// What is taken out with a value: itself with what stands around it, and one more range.
#[derive(Clone, Copy)]
pub(crate) struct Taken {
    pub entry: Span,
    pub more: Option<Span>,
}

/// What stands around an element.
#[derive(Clone, Copy)]
struct Neighbours {
    /// How many blanks stand before the first one.
    lead: usize,
    /// The one before it, if it is taken out.
    gone_before: Option<Element>,
    stays_before: bool,
    stays_after: bool,
    is_last: bool,
    /// Whether a comma stands after the last one.
    has_trailing_comma: bool,
}

/// Where the value with its key begins.
pub(crate) fn start_of(found: &FoundValue) -> usize {
    match found.parts.as_slice().first() {
        Some(part) => part.from,
        None => found.value.from,
    }
}

/// The elements of the value that was found.
pub(crate) fn elements_of(
    alloc: Global,
    survey: &Survey,
    company: &Company,
    container: &FoundValue,
) -> Result<Vec<Element>, AllocError> {
    let level = container.level.saturating_add(1);
    let mut elements = Vec::new(alloc);
    for found in &survey.values {
        if found.level == level && stands_in(found.value, container.value) {
            elements.push(Element {
                start: start_of(found),
                end: found.value.to,
                goes: company.takes(found.value.from),
            })?;
        }
    }
    Ok(elements)
}

fn stands_in(inner: Span, outer: Span) -> bool {
    inner.from > outer.from && inner.to < outer.to
}

/// The value that this one is an element of.
pub(crate) fn container_of<'s>(survey: &'s Survey, found: &FoundValue) -> Option<&'s FoundValue> {
    for outer in &survey.values {
        if outer.level.saturating_add(1) == found.level && stands_in(found.value, outer.value) {
            return Some(outer);
        }
    }
    None
}

/// What is taken out with the value: the rest of its line, if it has one of its own, and else one comma. With the last
/// line of an array or an inline table that has no comma after it goes the comma before it; and with the line between two
/// blank ones the second of these.
pub(crate) fn taken_with(
    alloc: Global,
    text: &str,
    survey: &Survey,
    company: &Company,
    found: &FoundValue,
) -> Result<Taken, AllocError> {
    match container_of(survey, found) {
        None => {
            let entry = line_taken(text, survey, company, found);
            let more = blank_after(text, company, entry);
            Ok(Taken { entry, more })
        }
        Some(container) => {
            let elements = elements_of(alloc, survey, company, container)?;
            let start = start_of(found);
            let around = neighbours_of(text, elements.as_slice(), start);
            let entry = element_taken(text, start, found.value.to, &around);
            let lines = has_own_lines(text, start, found.value.to, around.is_last);
            let more = if lines && leaves_comma(company, &around) {
                comma_before(text, elements.as_slice(), start)
            } else {
                None
            };
            Ok(Taken { entry, more })
        }
    }
}

/// The lines of an entry: with the line end before them where there is none after, but where that goes already.
fn line_taken(text: &str, survey: &Survey, company: &Company, found: &FoundValue) -> Span {
    let mut from = before_blanks(text, start_of(found), false);
    let to = line_end(text, found.value.to);
    if !begins_line(text, to)
        && begins_line(text, from)
        && !line_goes(text, survey, company, from)
    {
        from = from.saturating_sub(1);
        if from > 0 && byte_at(text, from.saturating_sub(1)) == b'\r' {
            from = from.saturating_sub(1);
        }
    }
    Span { from, to }
}

/// The blank line after the lines that are taken out, where one stands before them too.
fn blank_after(text: &str, company: &Company, lines: Span) -> Option<Span> {
    let Span { from, to } = lines;
    let before = line_start(text, from.saturating_sub(1));
    if company.inserts() || before >= from || !begins_line(text, from) || !begins_line(text, to) {
        return None;
    }
    if is_blank_line(text, before) && is_blank_line(text, to) {
        Some(Span {
            from: to,
            to: line_end(text, to),
        })
    } else {
        None
    }
}

/// Whether nothing but blanks stands in the line that begins there, which has an end.
fn is_blank_line(text: &str, at: usize) -> bool {
    ends_line(text, after_blanks(text, at, false))
}

/// Whether the line that ends there is taken out, or there is none.
fn line_goes(text: &str, survey: &Survey, company: &Company, end: usize) -> bool {
    for found in &survey.values {
        if found.level == 0
            && company.takes(found.value.from)
            && line_end(text, found.value.to) == end
        {
            return true;
        }
    }
    end == 0
}

/// What stands around the element that begins there.
fn neighbours_of(text: &str, elements: &[Element], start: usize) -> Neighbours {
    let mut around = Neighbours {
        lead: match elements.first() {
            Some(first) => first
                .start
                .saturating_sub(before_blanks(text, first.start, false)),
            None => 0,
        },
        gone_before: None,
        stays_before: false,
        stays_after: false,
        is_last: true,
        has_trailing_comma: false,
    };
    for element in elements {
        if element.start < start {
            around.stays_before |= !element.goes;
            around.gone_before = if element.goes { Some(*element) } else { None };
        }
        if element.start > start {
            around.stays_after |= !element.goes;
            around.is_last = false;
        }
        around.has_trailing_comma = has_comma(text, element.end);
    }
    around
}

/// Whether the comma before the element would be one after the last of those that stay, which had none.
fn leaves_comma(company: &Company, around: &Neighbours) -> bool {
    around.is_last && around.stays_before && !around.has_trailing_comma && !company.inserts()
}

/// The comma after the element before the one that begins there, where that one stays.
fn comma_before(text: &str, elements: &[Element], start: usize) -> Option<Span> {
    let before = elements.iter().rev().find(|element| element.start < start)?;
    let comma = after_blanks(text, before.end, true);
    if before.goes || byte_at(text, comma) != b',' {
        return None;
    }
    Some(Span {
        from: comma,
        to: comma.saturating_add(1),
    })
}

/// Whether a comma comes next, after blanks.
fn has_comma(text: &str, at: usize) -> bool {
    byte_at(text, after_blanks(text, at, true)) == b','
}

/// What is taken out with an element.
fn element_taken(text: &str, start: usize, end: usize, around: &Neighbours) -> Span {
    if has_own_lines(text, start, end, around.is_last) {
        return Span {
            from: before_blanks(text, start, false),
            to: line_end(text, end),
        };
    }
    if !around.stays_after && around.stays_before && !around.has_trailing_comma {
        with_comma_before(text, start, end, around)
    } else {
        with_comma_after(text, start, end, around)
    }
}

/// Whether nothing else stands in the lines of the element but its comma, and a comment.
pub(crate) fn has_own_lines(text: &str, start: usize, end: usize, is_last: bool) -> bool {
    if !begins_line(text, before_blanks(text, start, false)) {
        return false;
    }
    let mut at = after_blanks(text, end, false);
    if byte_at(text, at) == b',' {
        at = after_blanks(text, at.saturating_add(1), false);
    } else if !is_last {
        return false;
    }
    ends_line(text, at) || byte_at(text, at) == b'#'
}

fn ends_line(text: &str, at: usize) -> bool {
    byte_at(text, at) == b'\n' || byte_at(text, at) == b'\r'
}

/// An element after which none stays takes the comma before it, where that does not go with the element before.
fn with_comma_before(text: &str, start: usize, end: usize, around: &Neighbours) -> Span {
    let comma = before_blanks(text, start, true).saturating_sub(1);
    let goes = match around.gone_before {
        Some(before) => has_own_lines(text, before.start, before.end, false),
        None => false,
    };
    if byte_at(text, comma) == b',' && !goes {
        Span {
            from: comma,
            to: end,
        }
    } else {
        Span {
            from: before_blanks(text, start, false),
            to: end,
        }
    }
}

/// Any other element takes the comma after it, if there is one, and the blanks that would be left alone. (Those within
/// braces go where there are as many after the last entry as before the first one.)
fn with_comma_after(text: &str, start: usize, end: usize, around: &Neighbours) -> Span {
    let mut from = start;
    let mut to = end;
    let comma = after_blanks(text, end, true);
    if byte_at(text, comma) == b',' {
        to = comma.saturating_add(1);
        if !around.is_last {
            to = after_blanks(text, to, false);
        }
    }
    if around.gone_before.is_none() && (!around.stays_after || ends_line(text, to)) {
        from = before_blanks(text, start, false);
    }
    let after = after_blanks(text, to, false);
    if around.is_last
        && !around.stays_before
        && byte_at(text, after) == b'}'
        && after.saturating_sub(to) == around.lead
    {
        to = after;
    }
    Span { from, to }
}
