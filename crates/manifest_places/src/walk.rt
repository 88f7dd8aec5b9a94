//! Finds the values, keys and headers of a text in one walk over it. Nothing is promised of what it finds: `finding.rt`
//! has it checked.

ghost use Rattle.std.specs.Prelude.{◌<◌, ◌≤◌, length, IfOk};
ghost use Rattle.toml_parser.specs.Reading.{Shortens};

use crate::index::{Below, Entry, Index, Node};
use crate::keys::Span;
use crate::step::{Step, copied};
use std::alloc::{AllocError, Global};
use std::collections::BTreeMap;
use toml_parser::text::{byte_at, first, skip, skip_blank, skip_ws};
use toml_parser::{ErrorKind, ParseError, RECURSION_LIMIT, bytes, quoted, starts_string, unquoted};

/// How many bytes the paths of what is found may take together, for each byte of the text and of 4,096 more. Where long
/// keys stand above many short lines they would take more, and the walk ends: so its memory stays within some times the
/// text.
const ROOM: usize = 256;

/// A value that was found.
#[derive(Drop)]
pub(crate) struct FoundValue {
    pub path: Vec<Step>,
    pub value: Span,
    /// The parts of its key, none for an item of an array.
    pub parts: Vec<Span>,
    /// How many values it stands in.
    pub level: usize,
}

/// A header that was found, the path of its table, and the parts of its key.
#[derive(Drop)]
pub(crate) struct FoundHeader {
    pub path: Vec<Step>,
    pub header: Span,
    pub parts: Vec<Span>,
}

/// What was found, in the order of the text: a value after those that stand in it.
#[derive(Drop)]
pub(crate) struct Survey {
    pub values: Vec<FoundValue>,
    pub headers: Vec<FoundHeader>,
    /// The bytes of the text. Below, a place is given by how many bytes are left from it on.
    total: usize,
    /// How many items each array of tables has so far, by its path as a text.
    counts: BTreeMap<String, usize>,
    /// The values, in one round, and the headers by their paths.
    index: Index,
    /// How many bytes more the paths may take.
    room: usize,
}

/// A part of a key: its text, and where it begins and ends.
#[derive(Drop)]
struct Part {
    text: String,
    from: usize,
    to: usize,
}

/// What stands in the text, with an index of it, or the fault at which the walk stops.
pub(crate) fn walk(alloc: Global, text: &str) -> Result<Survey, ParseError> {
    let mut survey = surveyed(alloc, text)?;
    survey.add_to_index(alloc)?;
    Ok(survey)
}

/// The same without an index.
pub(crate) fn surveyed(alloc: Global, text: &str) -> Result<Survey, ParseError> {
    let mut survey = Survey {
        values: Vec::new(alloc),
        headers: Vec::new(alloc),
        total: text.len(),
        counts: BTreeMap::new(alloc),
        index: Index::new(alloc)?,
        room: text.len().saturating_add(4096).saturating_mul(ROOM),
    };
    walk_lines(alloc, skip_bom(text), &mut survey)?;
    Ok(survey)
}

fn skip_bom(text: &str) -> &str {
    match text.strip_prefix("\u{FEFF}") {
        Some(rest) => rest,
        None => text,
    }
}

fn walk_lines(alloc: Global, text: &str, survey: &mut Survey) -> Result<(), ParseError> {
    let mut base = Vec::new(alloc);
    let mut rest = text;
    'lines: loop {
        let start = skip_blank(rest, true);
        if start.is_empty() {
            return Ok(());
        }
        if first(start) == b'[' {
            let (path, after) = header(alloc, start, survey)?;
            base = path;
            rest = after;
        } else {
            rest = pair(alloc, start, base.as_slice(), RECURSION_LIMIT, survey)?;
        }
    }
}

/// A header: the path of its table, and the text after it.
fn header<'t>(
    alloc: Global,
    start: &'t str,
    survey: &mut Survey,
) -> Result<(Vec<Step>, &'t str), ParseError>
    ensures { Shortens start.now result }
{
    let (key, after) = header_key(alloc, start)?;
    let path = header_path(alloc, key.parts.as_slice(), key.many, survey)?;
    survey.take_room(path.as_slice(), start)?;
    let found = FoundHeader {
        path: copied(alloc, path.as_slice())?,
        header: survey.span(start.len(), after.len()),
        parts: survey.spans(alloc, key.parts.as_slice())?,
    };
    survey.headers.push(found)?;
    Ok((path, after))
}

/// The key of a header, and whether that has double brackets.
#[derive(Drop)]
struct HeaderKey {
    parts: Vec<Part>,
    many: bool,
}

/// The key of a header, and the text after its brackets.
fn header_key(alloc: Global, start: &str) -> Result<(HeaderKey, &str), ParseError>
    ensures { Shortens start.now result }
{
    if first(start) != b'[' {
        return Err(ParseError::at(ErrorKind::UnclosedTable, start));
    }
    let mut inner = skip(start, 1);
    let many = first(inner) == b'[';
    if many {
        inner = skip(inner, 1);
    }
    let (parts, after) = key_parts(alloc, skip_ws(inner))?;
    if first(after) != b']' {
        return Err(ParseError::at(ErrorKind::UnclosedTable, after));
    }
    let mut after = skip(after, 1);
    if many && first(after) == b']' {
        after = skip(after, 1);
    }
    Ok((HeaderKey { parts, many }, after))
}

/// The path that the parts of a header's key lead to: through the last item of each array of tables, and with double
/// brackets to a new item.
fn header_path(
    alloc: Global,
    parts: &[Part],
    many: bool,
    survey: &mut Survey,
) -> Result<Vec<Step>, ParseError> {
    let mut path = Vec::new(alloc);
    let mut name = String::new(alloc);
    let mut left = parts.len();
    for part in parts {
        left = left.saturating_sub(1);
        path.push(Step::Key(String::from_str(alloc, part.text.as_str())?))?;
        let length = part.text.len();
        name.push_str(format!(in alloc; "{length}:")?.as_str())?;
        name.push_str(part.text.as_str())?;
        if let Some(item) = survey.item(alloc, name.as_str(), many && left == 0)? {
            path.push(Step::Index(item))?;
            name.push_str(format!(in alloc; "[{item}]")?.as_str())?;
        }
    }
    Ok(path)
}

impl Survey {
    /// All that was found into the index.
    fn add_to_index(&mut self, alloc: Global) -> Result<(), ParseError> {
        for (i, header) in self.headers.iter().enumerate() {
            self.index.add_header(alloc, header.path.as_slice(), i)?;
        }
        for (index, found) in self.values.iter().enumerate() {
            let entry = Entry { round: 0, index };
            self.index
                .add_value(alloc, found.path.as_slice(), found.parts.len(), entry)?;
        }
        Ok(())
    }

    /// What the index has at the path.
    fn node(&self, path: &[Step]) -> Option<&Node> {
        let (steps, node) = self.index.reached(path);
        if steps == path.len() { node } else { None }
    }

    /// The value at the path.
    pub(crate) fn value(&self, path: &[Step]) -> Option<&FoundValue> {
        let entry = self.node(path)?.value?;
        self.values.get(entry.index)
    }

    /// What stands at the path and below it.
    pub(crate) fn below(&self, alloc: Global, path: &[Step]) -> Result<Vec<Below>, AllocError> {
        self.index.below(alloc, path)
    }

    /// The value there whose key goes through the path that this many steps before it leads to.
    pub(crate) fn key_through(&self, at: &Below) -> Option<&FoundValue> {
        let found = self.values.get(at.value?)?;
        if found.parts.len() > at.steps {
            Some(found)
        } else {
            None
        }
    }

    /// The header that opens the table there, which is below the path.
    pub(crate) fn header_at(&self, path: &[Step], at: &Below) -> Option<&FoundHeader> {
        let found = self.headers.get(at.header?)?;
        if found.path.len() == path.len().saturating_add(at.steps) {
            Some(found)
        } else {
            None
        }
    }

    /// Where the text begins, after a byte order mark.
    pub(crate) fn begin(&self, text: &str) -> usize {
        text.len().saturating_sub(skip_bom(text).len())
    }

    /// What stands after the header of this table, up to the next one.
    pub(crate) fn section(&self, text: &str, table: &[Step]) -> Option<Span> {
        let (from, next) = self.after_header(text, table)?;
        let to = match self.headers.get(next) {
            Some(header) => header.header.from,
            None => self.total,
        };
        Some(Span { from, to })
    }

    /// Where the header of this table ends, and the index of the next one.
    fn after_header(&self, text: &str, table: &[Step]) -> Option<(usize, usize)> {
        if table.is_empty() {
            return Some((self.begin(text), 0));
        }
        let index = self.node(table)?.header?;
        let header = self.headers.get(index)?;
        if header.path.as_slice() == table {
            Some((header.header.to, index.saturating_add(1)))
        } else {
            None
        }
    }

    /// Where the last of the values ends that stand in this range, each in this many others.
    pub(crate) fn last_end(&self, level: usize, range: Span) -> Option<usize> {
        let end = self
            .values
            .partition_point(|found| found.value.to <= range.to);
        for found in self.values.get(..end)?.iter().rev() {
            let value = found.value;
            if value.to <= range.from {
                return None;
            }
            if found.level == level && value.from >= range.from {
                return Some(value.to);
            }
        }
        None
    }

    /// The index of the last item of the array of tables with this name, or of a new one.
    fn item(&mut self, alloc: Global, name: &str, new: bool) -> Result<Option<usize>, ParseError> {
        if let Some(count) = self.counts.get_mut(name) {
            if new {
                *count = count.saturating_add(1);
            }
            return Ok(Some(count.saturating_sub(1)));
        }
        if new {
            self.counts.insert(String::from_str(alloc, name)?, 1)?;
            return Ok(Some(0));
        }
        Ok(None)
    }

    /// Takes the room of a path, or ends the walk where there is less.
    fn take_room(&mut self, path: &[Step], at: &str) -> Result<(), ParseError> {
        for step in path {
            match self.room.checked_sub(room_of(step)) {
                Some(room) => self.room = room,
                None => return Err(ParseError::at(ErrorKind::Recursion, at)),
            }
        }
        Ok(())
    }

    /// The range between two places.
    fn span(&self, from: usize, to: usize) -> Span {
        Span {
            from: self.total.saturating_sub(from),
            to: self.total.saturating_sub(to),
        }
    }

    /// The ranges of the parts.
    fn spans(&self, alloc: Global, parts: &[Part]) -> Result<Vec<Span>, ParseError> {
        let mut spans = Vec::new(alloc);
        for part in parts {
            spans.push(self.span(part.from, part.to))?;
        }
        Ok(spans)
    }
}

/// How many bytes a step takes, about.
fn room_of(step: &Step) -> usize {
    match step {
        Step::Key(key) => key.len().saturating_add(48),
        Step::Index(_) => 48,
    }
}

/// The parts of a key, and the text after it and its white space.
fn key_parts(alloc: Global, start: &str) -> Result<(Vec<Part>, &str), ParseError>
    ensures { Shortens start.now result }
{
    let mut parts = Vec::new(alloc);
    let mut rest = start;
    'parts: loop {
        let (text, after) = part_text(alloc, rest)?;
        parts.push(Part {
            text,
            from: rest.len(),
            to: after.len(),
        })?;
        let after = skip_ws(after);
        if first(after) != b'.' {
            return Ok((parts, after));
        }
        rest = skip_ws(skip(after, 1));
    }
}

/// The text of one part of a key, and what follows it.
fn part_text(alloc: Global, start: &str) -> Result<(String, &str), ParseError>
    ensures { Shortens start.now result }
{
    if starts_string(start) {
        return quoted(alloc, start);
    }
    let mut length = 0usize;
    for byte in start.as_bytes() {
        if !bytes::is_bare(*byte) {
            break;
        }
        length = length.saturating_add(1);
    }
    if length == 0 {
        return Err(ParseError::at(ErrorKind::Key, start));
    }
    match start.split_at_checked(length) {
        Some((text, rest)) => Ok((String::from_str(alloc, text)?, rest)),
        None => Err(ParseError::at(ErrorKind::Key, start)),
    }
}

/// The path, and the parts of a key after it.
fn extended(alloc: Global, path: &[Step], parts: &[Part]) -> Result<Vec<Step>, ParseError> {
    let mut steps = copied(alloc, path)?;
    for part in parts {
        steps.push(Step::Key(String::from_str(alloc, part.text.as_str())?))?;
    }
    Ok(steps)
}

/// A key and its value: the text after it.
#[cycle(walk)]
fn pair<'t>(
    alloc: Global,
    start: &'t str,
    base: &[Step],
    depth: usize,
    survey: &mut Survey,
) -> Result<&'t str, ParseError>
    ensures { IfOk result (λ rest. length rest.now < length start.now) }
{
    let (parts, after) = key_parts(alloc, start)?;
    if first(after) != b'=' {
        return Err(ParseError::at(ErrorKind::MissingEquals, after));
    }
    let at_value = skip_ws(skip(after, 1));
    let path = extended(alloc, base, parts.as_slice())?;
    survey.take_room(path.as_slice(), start)?;
    let rest = value(alloc, at_value, path.as_slice(), depth, survey)?;
    let found = FoundValue {
        path,
        value: survey.span(at_value.len(), rest.len()),
        parts: survey.spans(alloc, parts.as_slice())?,
        level: RECURSION_LIMIT.saturating_sub(depth),
    };
    survey.values.push(found)?;
    Ok(rest)
}

/// A value: the text after it.
#[cycle(walk)]
fn value<'t>(
    alloc: Global,
    start: &'t str,
    path: &[Step],
    depth: usize,
    survey: &mut Survey,
) -> Result<&'t str, ParseError>
    ensures { IfOk result (λ rest. length rest.now < length start.now) }
{
    let byte = first(start);
    if byte != b'[' && byte != b'{' {
        return atom(alloc, start);
    }
    if depth == 0 {
        return Err(ParseError::at(ErrorKind::Recursion, start));
    }
    if byte == b'[' {
        items(alloc, skip(start, 1), path, depth - 1, survey)
    } else {
        members(alloc, skip(start, 1), path, depth - 1, survey)
    }
}

/// The text after a string or a scalar.
fn atom(alloc: Global, start: &str) -> Result<&str, ParseError>
    ensures { IfOk result (λ rest. length rest.now < length start.now) }
{
    if starts_string(start) {
        let (_text, rest) = quoted(alloc, start)?;
        Ok(rest)
    } else {
        let (_scalar, rest) = unquoted(alloc, start)?;
        Ok(rest)
    }
}

/// The items of an array after its opening bracket: the text after the closing one.
#[cycle(walk)]
fn items<'t>(
    alloc: Global,
    start: &'t str,
    base: &[Step],
    depth: usize,
    survey: &mut Survey,
) -> Result<&'t str, ParseError>
    ensures { IfOk result (λ rest. length rest.now < length start.now) }
{
    let mut count = 0usize;
    let mut rest = start;
    'items: loop {
        let at_item = skip_blank(rest, true);
        if first(at_item) == b']' {
            return Ok(skip(at_item, 1));
        }
        let mut path = copied(alloc, base)?;
        path.push(Step::Index(count))?;
        survey.take_room(path.as_slice(), at_item)?;
        let after = value(alloc, at_item, path.as_slice(), depth, survey)?;
        let found = FoundValue {
            path,
            value: survey.span(at_item.len(), after.len()),
            parts: Vec::new(alloc),
            level: RECURSION_LIMIT.saturating_sub(depth),
        };
        survey.values.push(found)?;
        count = count.saturating_add(1);
        rest = after_element(after, b']')?;
    }
}

/// The entries of an inline table after its opening brace: the text after the closing one.
#[cycle(walk)]
fn members<'t>(
    alloc: Global,
    start: &'t str,
    base: &[Step],
    depth: usize,
    survey: &mut Survey,
) -> Result<&'t str, ParseError>
    ensures { IfOk result (λ rest. length rest.now < length start.now) }
{
    let mut rest = start;
    'members: loop {
        let at_pair = skip_blank(rest, true);
        if first(at_pair) == b'}' {
            return Ok(skip(at_pair, 1));
        }
        let after = pair(alloc, at_pair, base, depth, survey)?;
        rest = after_element(after, b'}')?;
    }
}

/// After a comma, or at the closing bracket.
fn after_element(start: &str, closing: u8) -> Result<&str, ParseError>
    ensures { IfOk result (λ rest. length rest.now ≤ length start.now) }
{
    let rest = skip_blank(start, true);
    if first(rest) == b',' {
        Ok(skip(rest, 1))
    } else if first(rest) == closing {
        Ok(rest)
    } else {
        Err(ParseError::at(ErrorKind::Array, rest))
    }
}
