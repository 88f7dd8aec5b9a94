//! Lines that are written to the text of an answer.

use crate::answers::{error_text, line_of_value, lines_or_none, reported};
use crate::documents::line_of_read;
use cargo_manifest::{Error, Manifest, Metadata, Schema};
use manifest_json::Text;
use std::alloc::{AllocError, Global};
use std::fmt::Display;

/// The lines of what is written, or the word for none.
pub fn finished(alloc: Global, out: Text) -> Result<String, AllocError> {
    let text = out.finish()?;
    lines_or_none(alloc, text.as_str())
}

/// Writes a line.
pub fn push_line(line: &str, out: &mut Text) {
    out.push_str(line);
    out.push('\n');
}

/// Writes a line that was made, if there was memory for it.
pub fn push_made(line: Result<String, AllocError>, out: &mut Text) {
    if let Some(line) = out.made(line) {
        push_line(line.as_str(), out);
    }
}

/// Writes a line of a name and of what was found of it.
pub fn push_flag(name: &str, flag: bool, out: &mut Text) {
    out.push_str(name);
    push_line(if flag { " true" } else { " false" }, out);
}

/// Writes a line of what is displayed.
pub fn push_displayed<T: Display>(alloc: Global, x: &T, out: &mut Text) {
    push_made(format!(in alloc; "{x}"), out);
}

/// Writes a line of what was made and is displayed, if there was memory for it.
pub fn push_made_displayed<T: Display + Drop>(
    alloc: Global,
    made: Result<T, AllocError>,
    out: &mut Text,
) {
    if let Some(x) = out.made(made) {
        push_displayed(alloc, &x, out);
    }
}

/// Writes a line for each item of a list.
pub fn push_lines<T: Display>(alloc: Global, list: &[T], out: &mut Text) {
    for item in list {
        push_displayed(alloc, item, out);
    }
}

/// Writes a line for each item of a list that was made, if there was memory for it.
pub fn push_list<T: Display + Drop>(
    alloc: Global,
    list: Result<Vec<T>, AllocError>,
    out: &mut Text,
) {
    if let Some(list) = out.made(list) {
        push_lines(alloc, list.as_slice(), out);
    }
}

/// Keeps that memory ran out, if it did.
pub fn keep(made: Result<(), AllocError>, out: &mut Text) {
    if let Err(error) = made {
        out.fail(error);
    }
}

/// Writes how the rest was refused, if it was.
pub fn keep_refusal(alloc: Global, made: Result<(), Error>, out: &mut Text) {
    if let Err(error) = made {
        push_refused(alloc, error, out);
    }
}

/// Writes a line of how something was refused.
pub fn push_error(alloc: Global, error: &Error, out: &mut Text) {
    push_made(error_text(alloc, error), out);
}

/// Writes a line of how something was refused whose error is needed no more.
pub fn push_refused(alloc: Global, error: Error, out: &mut Text) {
    push_made(reported(alloc, error), out);
}

/// Writes a line of what is written of a value.
pub fn push_value<T: Schema>(alloc: Global, x: &T, out: &mut Text) {
    if let Some(written) = out.made(x.to_value(alloc)) {
        push_made(line_of_value(alloc, written), out);
    }
}

/// Writes a line of what is written of a value that was read, or how it was refused.
pub fn push_read<T: Schema>(alloc: Global, read: Result<T, Error>, out: &mut Text) {
    match read {
        Ok(x) => push_value(alloc, &x, out),
        Err(error) => push_refused(alloc, error, out),
    }
}

/// Writes a line of what is written of a manifest that was read, or how it was refused.
pub fn push_manifest<P: Metadata, W: Metadata>(
    alloc: Global,
    read: Result<Manifest<P, W>, Error>,
    out: &mut Text,
) {
    match line_of_read(alloc, read) {
        Ok(line) => push_line(line.as_str(), out),
        Err(_) => push_line("not answered", out),
    }
}
