//! Copies of errors and their texts, errors that `?` makes, and the words of causes.

use crate::answers::reported;
use crate::lines::{push_displayed, push_error, push_flag, push_line, push_made, push_refused};
use cargo_manifest::{Cause, Error, Manifest, ParseFault, ReadFault, SchemaFault, Step};
use manifest_fault::error::refusal;
use manifest_fault::fault::{fault_here, fault_under_key, fault_under_step};
use manifest_json::Text;
use manifest_value::rows::at_key;
use manifest_value::text;
use std::alloc::{AllocError, Global};
use std::io;
use std::io::ErrorKind;
use std::rc::Rc;
use toml::Value;

/// Whether two errors say the same: one fault of `toml` that both share, the same path and cause, kind, fault or text.
fn says_the_same(one: &Error, other: &Error) -> bool {
    match (one, other) {
        (Error::Parse(ParseFault::Toml(a)), Error::Parse(ParseFault::Toml(b))) => {
            Rc::ptr_eq(a, b)
        }
        (Error::Parse(ParseFault::Schema(a)), Error::Parse(ParseFault::Schema(b))) => {
            a.path == b.path && a.cause == b.cause
        }
        (Error::Io(a), Error::Io(b)) => a.kind() == b.kind(),
        (Error::Utf8(a), Error::Utf8(b)) => a == b,
        (Error::Other(a), Error::Other(b)) => a.as_str() == b.as_str(),
        (Error::Memory(_), Error::Memory(_)) => true,
        _ => false,
    }
}

/// Writes how the copy of an error is reported, and whether it says the same.
fn push_copied(alloc: Global, error: &Error, out: &mut Text) {
    if let Some(copy) = out.made(error.clone(alloc)) {
        push_error(alloc, &copy, out);
        push_flag("copy says the same", says_the_same(error, &copy), out);
        drop(copy);
    }
}

/// Writes the copy of the error with which a document is refused.
fn push_refusal_copied(alloc: Global, document: &[u8], out: &mut Text) {
    let refused: Option<Error> = Manifest::from_slice(alloc, document).err();
    match &refused {
        Some(error) => push_copied(alloc, error, out),
        None => push_line("accepted", out),
    }
}

/// A document with a fault at a path of three steps.
const AUTHORS: &[u8] = b"[package]\nname = 'p'\nauthors = ['a', 1]";

/// Writes the copies of errors of each sort.
pub fn push_copies(alloc: Global, out: &mut Text) -> Result<(), AllocError> {
    push_refusal_copied(alloc, b"a = ", out);
    push_refusal_copied(alloc, AUTHORS, out);
    push_refusal_copied(alloc, b"\xff", out);
    push_copied(alloc, &Error::Io(io::Error::from(ErrorKind::NotFound)), out);
    let text = String::from_str(alloc, "a text")?;
    push_copied(alloc, &Error::Other(text), out);
    push_copied(alloc, &Error::Memory(AllocError), out);
    Ok(())
}

/// Writes how many steps the path of a copied fault has, whether the copy is equal to the fault, and how it, the fault
/// and the fault's parts are displayed.
fn push_same_fault(alloc: Global, fault: &SchemaFault, copy: &SchemaFault, out: &mut Text) {
    out.push_number(copy.path.steps.len());
    out.push('\n');
    let is_same = copy.path == fault.path && copy.cause == fault.cause;
    push_flag("copy is equal", is_same, out);
    push_displayed(alloc, copy, out);
    push_displayed(alloc, fault, out);
    push_displayed(alloc, &fault.cause, out);
    push_displayed(alloc, &fault.path, out);
}

/// Writes how the fault of a document is displayed, and its copy.
pub fn push_fault(alloc: Global, out: &mut Text) {
    let refused: Option<Error> = Manifest::from_slice(alloc, AUTHORS).err();
    match &refused {
        Some(error) => push_fault_of(alloc, error, out),
        None => push_line("accepted", out),
    }
}

/// The same for an error.
fn push_fault_of(alloc: Global, error: &Error, out: &mut Text) {
    push_displayed(alloc, error, out);
    match error {
        Error::Parse(ParseFault::Schema(fault)) => {
            if let Some(copy) = out.made(fault.clone(alloc)) {
                push_same_fault(alloc, fault, &copy, out);
            }
        }
        _ => push_line("another refusal", out),
    }
}

/// A text in a list, and then a value that is no text: `?` passes on a reader's fault, and out-of-memory errors of
/// every type.
fn list_with_a_fault(alloc: Global, value: &str) -> Result<Vec<String>, Error> {
    let value = Value::string(alloc, value)?;
    let mut texts = Vec::new(alloc);
    texts.push(text(alloc, &value)?)?;
    texts.push(text(alloc, &Value::Integer(1))?)?;
    Ok(texts)
}

/// Writes how this list is refused.
pub fn push_fault_of_a_reader(alloc: Global, out: &mut Text) {
    match list_with_a_fault(alloc, "a") {
        Ok(_) => push_line("accepted", out),
        Err(error) => push_refused(alloc, error, out),
    }
}

/// Writes how a reader's fault is reported.
pub fn push_read_fault(alloc: Global, fault: ReadFault, out: &mut Text) {
    push_made(reported(alloc, refusal(fault)), out);
}

/// A fault at a key that has to be quoted.
fn not_true(alloc: Global) -> ReadFault {
    at_key(alloc, "a b", Cause::NotTrue)
}

/// Writes faults under steps.
pub fn push_steps(alloc: Global, out: &mut Text) {
    push_read_fault(alloc, fault_here(alloc, Cause::Missing), out);
    push_read_fault(alloc, not_true(alloc), out);
    push_read_fault(alloc, fault_under_key(alloc, "x", not_true(alloc)), out);
    push_read_fault(
        alloc,
        fault_under_step(Step::Index(3), not_true(alloc)),
        out,
    );
}

/// Writes the words of each cause.
pub fn push_causes(out: &mut Text) {
    for cause in [
        Cause::WrongKind,
        Cause::Missing,
        Cause::TwoSpellings,
        Cause::NotAChoice,
        Cause::OutOfRange,
        Cause::NotTrue,
        Cause::HoldsFloat,
        Cause::Metadata,
    ] {
        push_line(cause.as_str(), out);
    }
}
