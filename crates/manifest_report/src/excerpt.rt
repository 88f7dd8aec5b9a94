//! Lines of a file with what is pointed to in them.

use crate::escape::push_escaped;
use crate::ink::{Ink, Style, begin, end, put, put_escaped, repeat};
use crate::lines::{Line, Strip, line_at, line_before, next_line, strip_of};
use crate::marks::Mark;
use manifest_json::Text;
use manifest_rules::Level;
use std::alloc::{AllocError, Global};

/// How a message is laid out.
#[derive(Clone, Copy)]
pub(crate) struct Frame {
    pub(crate) style: Style,
    pub(crate) level: Level,
    /// How many columns the numbers of lines take.
    pub(crate) digits: usize,
}

impl Frame {
    /// How many bytes of a line are shown.
    pub(crate) fn room(self) -> usize {
        let taken = self.digits.saturating_add(11);
        self.style.columns.saturating_sub(taken).max(20)
    }

    fn ink(self, is_primary: bool) -> Ink {
        if is_primary {
            Ink::of(self.level)
        } else {
            Ink::Gutter
        }
    }
}

/// How many digits a number has.
pub(crate) fn digits(number: usize) -> usize {
    let mut rest = number / 10;
    let mut digits = 1usize;
    for _ in 0..20 {
        if rest == 0 {
            return digits;
        }
        rest /= 10;
        digits = digits.saturating_add(1);
    }
    digits
}

/// Writes the margin of a row: a number or nothing, and a sign; and then the row, if there is something in it.
pub(crate) fn push_row(out: &mut Text, frame: Frame, number: Option<usize>, row: &str) {
    push_margin(out, frame, number, Ink::Gutter, "|");
    if !row.is_empty() {
        out.push(' ');
        out.push_str(row);
    }
    out.push('\n');
}

/// Writes the margin of a row without a number, up to where the row begins, in which there is something.
fn begin_row(out: &mut Text, frame: Frame) {
    push_margin(out, frame, None, Ink::Gutter, "|");
    out.push(' ');
}

/// Writes a number, or nothing, in the columns for it, a space and a sign.
pub(crate) fn push_margin(
    out: &mut Text,
    frame: Frame,
    number: Option<usize>,
    ink: Ink,
    sign: &str,
) {
    if let Some(number) = number {
        begin(out, frame.style, Ink::Gutter);
        out.push_number(number);
        end(out, frame.style);
    }
    let taken = number.map(|number| digits(number)).unwrap_or(0);
    repeat(out, " ", frame.digits.saturating_sub(taken));
    out.push(' ');
    put(out, frame.style, ink, sign);
}

/// A range of several lines that a bar before them shows.
#[derive(Clone, Copy)]
struct Bar<'a> {
    mark: Mark<'a>,
    /// Whether only white space stands before it in its first line.
    begins_line: bool,
}

impl Bar<'_> {
    /// What stands before a line.
    fn before(&self, number: usize) -> &'static str {
        if number == self.mark.from.line && self.begins_line {
            "/ "
        } else if self.mark.from.line < number && number <= self.mark.to.line {
            "| "
        } else {
            "  "
        }
    }

    /// What stands before the rows below a line.
    fn below(&self, number: usize) -> &'static str {
        if self.before(number) == "  " {
            "  "
        } else {
            "| "
        }
    }
}

/// The first of the marks that has several lines.
fn bar_of<'a>(marks: &[Mark<'a>]) -> Option<Bar<'a>> {
    for mark in marks {
        if mark.from.line < mark.to.line {
            let line = line_at(mark.span.from, mark.from);
            let before = mark.source.text.get(line.start..mark.span.from);
            return Some(Bar {
                mark: *mark,
                begins_line: before.unwrap_or("").trim().is_empty(),
            });
        }
    }
    None
}

/// The lines that are shown for a range of several lines: its first four and its last two.
fn push_lines_of_bar(lines: &mut Vec<Line>, bar: &Bar<'_>) -> Result<(), AllocError> {
    let text = bar.mark.source.text;
    let last = line_at(bar.mark.span.to, bar.mark.to);
    let mut line = line_at(bar.mark.span.from, bar.mark.from);
    lines.push(line)?;
    for _ in 0..3 {
        if let Some(next) = next_line(text, line) {
            if next.number < last.number {
                lines.push(next)?;
                line = next;
            }
        }
    }
    if let Some(before) = line_before(text, last) {
        lines.push(before)?;
    }
    lines.push(last)?;
    Ok(())
}

/// The lines that are shown for these marks of one file.
fn lines_of(
    alloc: Global,
    marks: &[Mark<'_>],
    bar: Option<&Bar<'_>>,
) -> Result<Vec<Line>, AllocError> {
    let mut lines = Vec::new(alloc);
    for mark in marks {
        lines.push(line_at(mark.span.from, mark.from))?;
    }
    if let Some(bar) = bar {
        push_lines_of_bar(&mut lines, bar)?;
    }
    lines.sort_by_key(|line| line.number)?;
    Ok(lines)
}

/// A range of a line that is pointed to, in columns.
#[derive(Clone, Copy)]
struct Pointer<'a> {
    from: usize,
    to: usize,
    is_primary: bool,
    text: &'a str,
}

/// What is pointed to in a line, from left to right.
fn pointers_in<'a>(
    alloc: Global,
    marks: &[Mark<'a>],
    bar: Option<&Bar<'_>>,
    line: Line,
    strip: &Strip<'_>,
) -> Result<Vec<Pointer<'a>>, AllocError> {
    let mut pointers = Vec::new(alloc);
    for mark in marks {
        if mark.from.line == line.number && !is_bar(mark, bar) {
            let from = strip.column(mark.span.from);
            let to = if mark.to.line == line.number {
                strip.column(mark.span.to)
            } else {
                strip.columns()
            };
            pointers.push(Pointer {
                from,
                to: to.max(from.saturating_add(1)),
                is_primary: mark.is_primary,
                text: mark.text,
            })?;
        }
    }
    pointers.sort_by_key(|pointer| pointer.from)?;
    Ok(pointers)
}

/// Whether the mark is the one that is shown by the bar.
fn is_bar(mark: &Mark<'_>, bar: Option<&Bar<'_>>) -> bool {
    match bar {
        Some(bar) => mark.span == bar.mark.span && mark.from.line < mark.to.line,
        None => false,
    }
}

/// Writes the signs below what is pointed to: `^` below the primary place, `-` below others; and the label of the last
/// one, if no other reaches below it.
fn push_signs(
    out: &mut Text,
    frame: Frame,
    pointers: &[Pointer<'_>],
    inline: Option<&Pointer<'_>>,
) {
    let mut at = 0usize;
    for pointer in pointers {
        let from = pointer.from.max(at);
        if pointer.to > from {
            repeat(out, " ", from.saturating_sub(at));
            let sign = if pointer.is_primary { "^" } else { "-" };
            begin(out, frame.style, frame.ink(pointer.is_primary));
            repeat(out, sign, pointer.to.saturating_sub(from));
            end(out, frame.style);
            at = pointer.to;
        }
    }
    if let Some(last) = inline {
        out.push(' ');
        push_label(out, frame, last);
    }
}

/// Writes the text of a label on one line.
fn push_label(out: &mut Text, frame: Frame, pointer: &Pointer<'_>) {
    let ink = frame.ink(pointer.is_primary);
    put_escaped(out, frame.style, ink, pointer.text);
}

/// The last of the pointers, if its label can stand on the row of the signs.
fn inline_of<'p, 'a>(pointers: &'p [Pointer<'a>]) -> Option<&'p Pointer<'a>> {
    let (last, others) = pointers.split_last()?;
    if last.text.is_empty() {
        return None;
    }
    for other in others {
        if other.to > last.from {
            return None;
        }
    }
    Some(last)
}

/// Writes `|` below each of these that have a label, and returns the column after the last one.
fn push_stems(out: &mut Text, frame: Frame, pointers: &[Pointer<'_>]) -> usize {
    let mut at = 0usize;
    for pointer in pointers {
        if !pointer.text.is_empty() && pointer.from >= at {
            repeat(out, " ", pointer.from.saturating_sub(at));
            put(out, frame.style, frame.ink(pointer.is_primary), "|");
            at = pointer.from.saturating_add(1);
        }
    }
    at
}

/// Writes the labels that hang below the signs, from the last one to the first one.
fn push_hanging(out: &mut Text, frame: Frame, prefix: &str, pointers: &[Pointer<'_>]) {
    let mut is_first = true;
    for index in (0..pointers.len()).rev() {
        let Some((before, [pointer, ..])) = pointers.split_at_checked(index) else {
            continue;
        };
        if pointer.text.is_empty() {
            continue;
        }
        if is_first {
            begin_row(out, frame);
            out.push_str(prefix);
            push_stems(out, frame, pointers);
            out.push('\n');
            is_first = false;
        }
        begin_row(out, frame);
        out.push_str(prefix);
        let at = push_stems(out, frame, before);
        repeat(out, " ", pointer.from.saturating_sub(at));
        push_label(out, frame, pointer);
        out.push('\n');
    }
}

/// How many of the pointers, from the first one on, have labels that hang below the signs.
fn hanging_count(pointers: &[Pointer<'_>], has_inline: bool) -> usize {
    if has_inline {
        pointers.len().saturating_sub(1)
    } else {
        pointers.len()
    }
}

/// Writes the rows below a line.
fn push_pointers(out: &mut Text, frame: Frame, prefix: &str, pointers: &[Pointer<'_>]) {
    if pointers.is_empty() {
        return;
    }
    let inline = inline_of(pointers);
    let count = hanging_count(pointers, inline.is_some());
    begin_row(out, frame);
    out.push_str(prefix);
    push_signs(out, frame, pointers, inline);
    out.push('\n');
    if let Some(hanging) = pointers.get(..count) {
        push_hanging(out, frame, prefix, hanging);
    }
}

/// Writes the row in which a bar begins within its line, or ends: `lead`, a line up to the column, and `^`.
fn push_bar_row(
    out: &mut Text,
    frame: Frame,
    bar: &Bar<'_>,
    lead: &str,
    column: usize,
    label: &str,
) {
    begin_row(out, frame);
    begin(out, frame.style, frame.ink(bar.mark.is_primary));
    out.push_str(lead);
    repeat(out, "_", column.saturating_add(1));
    out.push(if bar.mark.is_primary { '^' } else { '-' });
    if !label.is_empty() {
        out.push(' ');
        push_escaped(out, label);
    }
    end(out, frame.style);
    out.push('\n');
}

/// Writes the rows in which the bar begins and ends.
fn push_bar_rows(out: &mut Text, frame: Frame, bar: &Bar<'_>, line: Line, strip: &Strip<'_>) {
    if line.number == bar.mark.from.line && !bar.begins_line {
        let column = strip.column(bar.mark.span.from);
        push_bar_row(out, frame, bar, " ", column, "");
    }
    if line.number == bar.mark.to.line {
        let column = strip.column(bar.mark.span.to).saturating_sub(1);
        push_bar_row(out, frame, bar, "|", column, bar.mark.text);
    }
}

/// The offset around which a line is shown: the first that is pointed to in it.
fn around(marks: &[Mark<'_>], bar: Option<&Bar<'_>>, line: Line) -> usize {
    for mark in marks {
        if mark.from.line == line.number {
            return mark.span.from;
        }
    }
    match bar {
        Some(bar) if bar.mark.to.line == line.number => bar.mark.span.to,
        _ => line.start,
    }
}

/// Writes the row of a line, after what the bar puts before it.
fn push_strip(
    alloc: Global,
    out: &mut Text,
    frame: Frame,
    before: &str,
    line: Line,
    strip: &Strip<'_>,
) {
    let mut row = Text::new(alloc);
    if !before.trim().is_empty() || !strip.text.is_empty() {
        row.push_str(before);
    }
    strip.push(&mut row);
    if let Some(row) = out.made(row.finish()) {
        push_row(out, frame, Some(line.number), row.as_str().trim_end());
    }
}

/// Writes a line, and the rows below it. `marks` are those that begin in it.
fn push_line(
    alloc: Global,
    out: &mut Text,
    frame: Frame,
    text: &str,
    marks: &[Mark<'_>],
    bar: Option<&Bar<'_>>,
    line: Line,
) {
    let strip = strip_of(text, line, around(marks, bar, line), frame.room());
    let (before, below) = match bar {
        Some(bar) => (bar.before(line.number), bar.below(line.number)),
        None => ("", ""),
    };
    push_strip(alloc, out, frame, before, line, &strip);
    let Some(pointers) = out.made(pointers_in(alloc, marks, bar, line, &strip)) else {
        return;
    };
    push_pointers(out, frame, below, pointers.as_slice());
    if let Some(bar) = bar {
        push_bar_rows(out, frame, bar, line, &strip);
    }
}

/// Writes what stands between two lines that are shown: nothing, the one line between them, or dots.
fn push_gap(
    alloc: Global,
    out: &mut Text,
    frame: Frame,
    text: &str,
    bar: Option<&Bar<'_>>,
    last: Line,
    line: Line,
) {
    let gap = line.number.saturating_sub(last.number);
    if gap < 2 {
        return;
    }
    if gap == 2 {
        if let Some(between) = next_line(text, last) {
            push_line(alloc, out, frame, text, &[], bar, between);
        }
        return;
    }
    put(out, frame.style, Ink::Gutter, "...");
    if let Some(bar) = bar {
        if bar.mark.from.line < line.number && line.number <= bar.mark.to.line {
            repeat(out, " ", frame.digits);
            put(out, frame.style, frame.ink(bar.mark.is_primary), "|");
        }
    }
    out.push('\n');
}

/// Those of the marks, which ascend, that begin in this line.
fn marks_in<'m, 'a>(marks: &'m [Mark<'a>], number: usize) -> Option<&'m [Mark<'a>]> {
    let from = marks.partition_point(|mark| mark.from.line < number);
    let to = marks.partition_point(|mark| mark.from.line <= number);
    marks.get(from..to)
}

/// Writes the lines of one file that these marks, which ascend, point to.
pub(crate) fn push_excerpt_of(
    alloc: Global,
    out: &mut Text,
    frame: Frame,
    text: &str,
    marks: &[Mark<'_>],
) {
    let bar = bar_of(marks);
    let Some(lines) = out.made(lines_of(alloc, marks, bar.as_ref())) else {
        return;
    };
    push_row(out, frame, None, "");
    let mut last: Option<Line> = None;
    for line in &lines {
        let is_new = match last {
            Some(last) => last.number < line.number,
            None => true,
        };
        if is_new {
            if let Some(last) = last {
                push_gap(alloc, out, frame, text, bar.as_ref(), last, *line);
            }
            if let Some(inside) = marks_in(marks, line.number) {
                push_line(alloc, out, frame, text, inside, bar.as_ref(), *line);
            }
            last = Some(*line);
        }
    }
}
