//! Why nothing is printed, and the line that says so.

ghost use Rattle.std.specs.Prelude.{◌≡◌, IfOk, string_bytes};
ghost use Rattle.manifest_schema.specs.PathTexts.{key_text};

use cargo_manifest::{Error, KeyPath, ParseFault, Step};
use manifest_inherit::{FinishError, Refusal, ResolveError};
use std::alloc::{AllocError, Global};
use std::io::Write;

/// The line that the program prints to standard error for an error of a manifest, with its line feed. It is `error:
/// toml` also where memory ran out while the text was parsed.
fn error_line(alloc: Global, error: &Error) -> Result<String, AllocError> {
    match error {
        Error::Parse(ParseFault::Toml(_)) => String::from_str(alloc, "error: toml\n"),
        Error::Parse(ParseFault::Schema(fault)) => format!(in alloc; "error: schema: {fault}\n"),
        Error::Io(_) => String::from_str(alloc, "error: io\n"),
        Error::Utf8(_) => String::from_str(alloc, "error: utf8\n"),
        Error::Other(text) => format!(in alloc; "error: other: {text}\n"),
        Error::Memory(_) => String::from_str(alloc, "error: memory\n"),
    }
}

/// A name as it is written in a key path: between quotes where it is no bare key.
fn key_text(alloc: Global, name: &str) -> Result<String, AllocError>
    ensures { IfOk result (λ text. string_bytes text ≡ key_text name.now) }
{
    let mut steps = Vec::new(alloc);
    steps.push(Step::Key(String::from_str(alloc, name)?))?;
    KeyPath { steps }.to_text(alloc)
}

/// The line that the program prints to standard error where a member is not resolved, with its line feed: what is
/// refused, without its path. A key or a name in it is written as in a key path.
fn refused_line(alloc: Global, refusal: &Refusal) -> Result<String, AllocError> {
    match refusal {
        Refusal::NotInWorkspace(name) => {
            let key = key_text(alloc, name.as_str())?;
            format!(in alloc; "error: not in workspace: {key}\n")
        }
        Refusal::InheritedInWorkspace(name) => {
            let key = key_text(alloc, name.as_str())?;
            format!(in alloc; "error: inherited in workspace: {key}\n")
        }
        Refusal::MixedLints => String::from_str(alloc, "error: mixed lints\n"),
        Refusal::ToolNamedWorkspace => String::from_str(alloc, "error: tool named workspace\n"),
    }
}

/// The line that the program prints to standard error for a refusal, with its line feed. Fails only when out of memory.
fn line_of(alloc: Global, refusal: &FinishError) -> Result<String, AllocError> {
    match refusal {
        FinishError::Manifest(error) => error_line(alloc, error),
        FinishError::NoWorkspace => String::from_str(alloc, "error: no workspace\n"),
        FinishError::Resolve(ResolveError::Refused(fault)) => refused_line(alloc, &fault.refusal),
        FinishError::Resolve(ResolveError::Memory(_)) => {
            String::from_str(alloc, "error: memory\n")
        }
    }
}

/// Writes the line of a refusal, or `error: memory` where there is no memory for the line. A fault of `errors` is
/// ignored.
pub fn tell<E: Write>(alloc: Global, errors: &mut E, refusal: &FinishError) {
    let _ = match line_of(alloc, refusal) {
        Ok(line) => errors.write_all(line.as_bytes()),
        Err(_) => errors.write_all(b"error: memory\n"),
    };
}
