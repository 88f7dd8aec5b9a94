//! Where a new entry or item is put in, and what stands around it there. Nothing is promised of it: `planning.rt` has it
//! checked.

use crate::company::{Company, Others};
use crate::elements::{Element, container_of, elements_of, has_own_lines, start_of};
use crate::keys::Span;
use crate::layout::{
    after_blanks, before_blanks, begins_line, indent_of, key_text, line_break, line_end,
    line_start, mark_of,
};
use crate::step::Step;
use crate::walk::{FoundValue, Survey};
use std::alloc::{AllocError, Global};
use toml_parser::text::byte_at;

/// Where a new value is put in, and what is put in with it. The lead, the header, the gap and the name come before it, in
/// this order, and the trail after it.
#[derive(Drop)]
pub(crate) struct Insertion {
    /// Where a comma is put in for it, if it is not in the lead.
    pub comma: Option<usize>,
    pub at: usize,
    pub lead: String,
    /// The header of a new table.
    pub header: String,
    pub gap: String,
    /// The key and `=`; none for an item.
    pub name: String,
    pub trail: String,
}

/// Where the value at the path is put in, or `None` where there is no place for it.
pub(crate) fn insertion_for(
    alloc: Global,
    text: &str,
    survey: &Survey,
    company: &Company,
    number: usize,
    path: &[Step],
) -> Result<Option<Insertion>, AllocError> {
    let others = company.others(number);
    match path.split_last() {
        None => Ok(None),
        Some((Step::Index(index), front)) => {
            item_insertion(alloc, text, survey, company, others, front, *index)
        }
        Some((Step::Key(key), front)) => {
            entry_insertion(alloc, text, survey, company, others, front, key.as_str())
        }
    }
}

/// An item at the end of the array at the path, of as many items.
fn item_insertion(
    alloc: Global,
    text: &str,
    survey: &Survey,
    company: &Company,
    others: Others,
    array: &[Step],
    index: usize,
) -> Result<Option<Insertion>, AllocError> {
    let Some(found) = survey.value(array) else {
        return Ok(None);
    };
    let elements = elements_of(alloc, survey, company, found)?;
    if byte_at(text, found.value.from) != b'[' || elements.len() != index {
        return Ok(None);
    }
    let insertion = element_insertion(
        alloc,
        text,
        elements.as_slice(),
        others,
        found.value,
        String::new(alloc),
    )?;
    Ok(Some(insertion))
}

/// An entry of the table at the path.
fn entry_insertion(
    alloc: Global,
    text: &str,
    survey: &Survey,
    company: &Company,
    others: Others,
    table: &[Step],
    key: &str,
) -> Result<Option<Insertion>, AllocError> {
    let name = name_text(alloc, &[], key)?;
    if let Some(found) = survey.value(table) {
        if byte_at(text, found.value.from) != b'{' {
            return Ok(None);
        }
        let insertion = element_at_end(alloc, text, survey, company, others, found, name)?;
        return Ok(Some(insertion));
    }
    if let Some(section) = survey.section(text, table) {
        let insertion = section_insertion(alloc, text, survey, others, table, section, name)?;
        return Ok(Some(insertion));
    }
    match last_through(survey, table) {
        Some(found) => {
            let insertion = dotted_insertion(
                alloc, text, survey, company, others, found, table, key,
            )?;
            Ok(Some(insertion))
        }
        None => {
            let insertion = table_insertion(alloc, text, others, table, name)?;
            Ok(Some(insertion))
        }
    }
}

/// An entry at the end of the inline table that was found.
fn element_at_end(
    alloc: Global,
    text: &str,
    survey: &Survey,
    company: &Company,
    others: Others,
    found: &FoundValue,
    name: String,
) -> Result<Insertion, AllocError> {
    let elements = elements_of(alloc, survey, company, found)?;
    element_insertion(alloc, text, elements.as_slice(), others, found.value, name)
}

/// The last value whose dotted key goes through the table.
fn last_through<'s>(survey: &'s Survey, table: &[Step]) -> Option<&'s FoundValue> {
    let mut last = None;
    for found in &survey.values {
        if found.path.len() > table.len() {
            let below = found.path.len().saturating_sub(table.len());
            if found.parts.len() > below
                && found.path.as_slice().get(..table.len()) == Some(table)
            {
                last = Some(found);
            }
        }
    }
    last
}

/// An entry after another one whose dotted key goes through the table.
fn dotted_insertion(
    alloc: Global,
    text: &str,
    survey: &Survey,
    company: &Company,
    others: Others,
    found: &FoundValue,
    table: &[Step],
    key: &str,
) -> Result<Insertion, AllocError> {
    let base = found.path.len().saturating_sub(found.parts.len());
    let front = match table.get(base..) {
        Some(front) => front,
        None => table,
    };
    let name = name_text(alloc, front, key)?;
    match container_of(survey, found) {
        Some(container) => { element_at_end(alloc, text, survey, company, others, container, name) }
        None => line_after(alloc, text, start_of(found), found.value.to, name),
    }
}

/// The key after others, with `=`.
fn name_text(alloc: Global, front: &[Step], key: &str) -> Result<String, AllocError> {
    let mut name = String::new(alloc);
    for step in front {
        if let Step::Key(part) = step {
            name.push_str(key_text(alloc, part.as_str())?.as_str())?;
            name.push_str(".")?;
        }
    }
    name.push_str(key_text(alloc, key)?.as_str())?;
    name.push_str(" = ")?;
    Ok(name)
}

/// A line of its own after that of an entry, as far in as it.
fn line_after(
    alloc: Global,
    text: &str,
    start: usize,
    end: usize,
    name: String,
) -> Result<Insertion, AllocError> {
    let indent = indent_of(text, start);
    lines_at(alloc, text, line_end(text, end), indent, name)
}

/// A line of its own at the offset, where a line begins or the text ends.
fn lines_at(
    alloc: Global,
    text: &str,
    at: usize,
    indent: &str,
    name: String,
) -> Result<Insertion, AllocError> {
    let ending = line_break(text);
    let (lead, trail) = if begins_line(text, at) || at <= mark_of(text) {
        (
            String::from_str(alloc, indent)?,
            String::from_str(alloc, ending)?,
        )
    } else {
        (format!(in alloc; "{ending}{indent}")?, String::new(alloc))
    };
    Ok(Insertion {
        comma: None,
        at,
        lead,
        header: String::new(alloc),
        gap: String::new(alloc),
        name,
        trail,
    })
}

/// At the end of the table's own lines, before the comment that belongs to the next header.
fn section_insertion(
    alloc: Global,
    text: &str,
    survey: &Survey,
    others: Others,
    table: &[Step],
    section: Span,
    name: String,
) -> Result<Insertion, AllocError> {
    let mut last = None;
    for found in &survey.values {
        let value = found.value;
        if found.level == 0 && value.from >= section.from && value.to <= section.to {
            last = Some(found);
        }
    }
    if let Some(found) = last {
        return line_after(alloc, text, start_of(found), found.value.to, name);
    }
    if !table.is_empty() {
        return lines_at(alloc, text, line_end(text, section.from), "", name);
    }
    let at = before_comments(text, section.to);
    let mut insertion = lines_at(alloc, text, at, "", name)?;
    if at > section.from && at < text.len() && !others.after {
        insertion.trail.push_str(line_break(text))?;
    }
    Ok(insertion)
}

/// Where the comments begin that stand in the lines before the offset, with none between: at the end of the text, that is
/// the offset.
fn before_comments(text: &str, at: usize) -> usize {
    let mut start = before_blanks(text, at, false);
    if start >= text.len() {
        return at;
    }
    for _line in 0..at {
        let line = line_start(text, start.saturating_sub(1));
        if start == 0 || line >= start || byte_at(text, after_blanks(text, line, false)) != b'#' {
            return start;
        }
        start = line;
    }
    start
}

/// A new table by a header of its own at the end of the text.
fn table_insertion(
    alloc: Global,
    text: &str,
    others: Others,
    table: &[Step],
    name: String,
) -> Result<Insertion, AllocError> {
    let ending = line_break(text);
    let mut lead = String::new(alloc);
    let mut header = String::new(alloc);
    let mut gap = String::new(alloc);
    if !others.before {
        if !begins_line(text, text.len()) {
            lead.push_str(ending)?;
        }
        if !text.is_empty() {
            lead.push_str(ending)?;
        }
        header = header_text(alloc, table)?;
        gap.push_str(ending)?;
    }
    Ok(Insertion {
        comma: None,
        at: text.len(),
        lead,
        header,
        gap,
        name,
        trail: String::from_str(alloc, ending)?,
    })
}

/// The header of this table, through the last item of each array of tables.
fn header_text(alloc: Global, table: &[Step]) -> Result<String, AllocError> {
    let mut header = String::new(alloc);
    let mut before = "[";
    for step in table {
        if let Step::Key(key) = step {
            header.push_str(before)?;
            header.push_str(key_text(alloc, key.as_str())?.as_str())?;
            before = ".";
        }
    }
    header.push_str("]")?;
    Ok(header)
}

/// At the end of an array or an inline table, in the style of the last element.
fn element_insertion(
    alloc: Global,
    text: &str,
    elements: &[Element],
    others: Others,
    container: Span,
    name: String,
) -> Result<Insertion, AllocError> {
    let closing = container.to.saturating_sub(1);
    let Some(last) = elements.last() else {
        let line = before_blanks(text, closing, false);
        if begins_line(text, line) {
            let indent = indent_of(text, closing);
            let lead = format!(in alloc; "{indent}    ")?;
            let ending = line_break(text);
            let trail = format!(in alloc; ",{ending}")?;
            return Ok(element_at(alloc, None, line, lead, name, trail));
        }
        let at = container.from.saturating_add(1);
        return only_element(alloc, text, others, container, at, name);
    };
    if has_own_lines(text, last.start, last.end, true) {
        return element_in_lines(alloc, text, last, others, name);
    }
    if elements.iter().all(|element| element.goes) {
        return only_element(alloc, text, others, container, closing, name);
    }
    let comma = after_blanks(text, last.end, true);
    if byte_at(text, comma) == b',' {
        let lead = String::from_str(alloc, " ")?;
        let trail = String::from_str(alloc, ",")?;
        return Ok(element_at(alloc, None, comma.saturating_add(1), lead, name, trail));
    }
    let lead = String::from_str(alloc, ", ")?;
    Ok(element_at(alloc, None, last.end, lead, name, String::new(alloc)))
}

fn element_at(
    alloc: Global,
    comma: Option<usize>,
    at: usize,
    lead: String,
    name: String,
    trail: String,
) -> Insertion {
    Insertion {
        comma,
        at,
        lead,
        header: String::new(alloc),
        gap: String::new(alloc),
        name,
        trail,
    }
}

/// The first element of an array, or of an inline table, where blanks stand within the braces. Where there are blanks
/// already, what is put in is such that its removal leaves as many.
fn only_element(
    alloc: Global,
    text: &str,
    others: Others,
    container: Span,
    at: usize,
    name: String,
) -> Result<Insertion, AllocError> {
    let inside = container.from.saturating_add(1);
    let is_table = byte_at(text, container.from) == b'{';
    let blanks = if at == inside {
        after_blanks(text, inside, false).saturating_sub(inside)
    } else {
        0
    };
    let is_spaced = if is_table { blanks != 1 } else { blanks > 0 };
    let lead = match (others.before, is_spaced) {
        (true, _) => ", ",
        (false, true) => " ",
        (false, false) => "",
    };
    let trail = if is_table && blanks == 0 && !others.after {
        " "
    } else {
        ""
    };
    let lead = String::from_str(alloc, lead)?;
    let trail = String::from_str(alloc, trail)?;
    Ok(element_at(alloc, None, at, lead, name, trail))
}

/// A line of its own after that of the last element, with a comma where that has one.
fn element_in_lines(
    alloc: Global,
    text: &str,
    last: &Element,
    others: Others,
    name: String,
) -> Result<Insertion, AllocError> {
    let has_comma = byte_at(text, after_blanks(text, last.end, false)) == b',';
    let ending = line_break(text);
    let lead = String::from_str(alloc, indent_of(text, last.start))?;
    let trail = if has_comma || others.after {
        format!(in alloc; ",{ending}")?
    } else {
        String::from_str(alloc, ending)?
    };
    let comma = if has_comma || last.goes || others.before {
        None
    } else {
        Some(last.end)
    };
    Ok(element_at(alloc, comma, line_end(text, last.end), lead, name, trail))
}
