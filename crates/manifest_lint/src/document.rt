//! The text of a manifest, and the document that it is.

ghost use Rattle.std.specs.Prelude.{◌≡◌, None, Some, IfOk, IfErr, string_bytes};
ghost use Rattle.manifest_schema.specs.Prelude.{table_view};
ghost use Rattle.toml.specs.Errors.{IsMemory};
ghost use Rattle.toml.specs.Parse.{parse_document};
ghost use Rattle.manifest_lint.specs.Lint.{IsDocument, IsUnread};

use crate::parts::last_of_header;
use manifest_nesting::nests_too_deep;
use manifest_places::Span;
use std::alloc::{AllocError, Global};
use toml::Table;

/// A text, and the table that it is as TOML.
#[derive(Drop)]
pub struct Document {
    pub text: String,
    pub table: Table,
}

/// Why bytes are no document.
#[derive(Drop)]
pub enum Unread {
    /// They are UTF-8 up to this offset, and no further.
    NotUtf8(usize),
    /// They are no TOML: the message, and where.
    NotToml(String, Option<Span>),
    /// Arrays and tables stand in one another too deep; the offset of what is one too many.
    TooDeep(usize),
    Memory(AllocError),
}

impl From<AllocError> for Unread {
    ghost use Rattle.std.specs.Prelude.{◌≡◌};
    ghost use Rattle.manifest_lint.specs.declared.document.Unread.TheVariants.{Memory};

    ghost from_gives = { λ refused unread. unread ≡ Memory refused };

    fn from(refused: AllocError) -> Unread {
        Unread::Memory(refused)
    }
}

impl Document {
    /// The document that the bytes of a `Cargo.toml` are.
    ///
    /// ```ignore
    /// let document = Document::read(alloc, b"package.name = 'a'")?;
    /// ```
    pub fn read(alloc: Global, bytes: &[u8]) -> Result<Document, Unread>
        ensures ok { IfOk result (IsDocument bytes.now) }
        ensures refused { IfErr result (IsUnread bytes.now) }
    {
        let text = match std::str::from_utf8(bytes) {
            Ok(text) => text,
            Err(fault) => return Err(Unread::NotUtf8(fault.valid_up_to())),
        };
        if nests_too_deep(text) {
            return Err(Unread::TooDeep(too_deep_at(text)));
        }
        match toml::table_from_str(alloc, text) {
            Ok(table) => Ok(Document {
                text: String::from_str(alloc, text)?,
                table,
            }),
            Err(fault) => Err(not_toml(alloc, text, &fault)),
        }
    }
}

/// The offset, or the next one that cuts no character.
fn next_boundary(text: &str, offset: usize) -> usize {
    let mut at = offset;
    for _ in 0..3 {
        if text.get(at..).is_none() {
            at = at.saturating_add(1);
        }
    }
    at
}

/// Where a text that nests too deep does so: the last byte of the least beginning of it that does. It is searched by
/// halves.
fn too_deep_at(text: &str) -> usize {
    let mut fits = 0usize;
    let mut nests = text.len();
    for _ in 0..usize::BITS {
        let middle = next_boundary(text, fits.midpoint(nests));
        if middle <= fits || middle >= nests {
            break;
        }
        match text.get(..middle) {
            Some(beginning) if nests_too_deep(beginning) => nests = middle,
            _ => fits = middle,
        }
    }
    nests.saturating_sub(1)
}

/// What `toml` says of a text with more arrays in one another than it reads.
const NO_RECURSION: &str = "cannot recurse further; max recursion depth met";

fn not_toml(alloc: Global, text: &str, fault: &toml::de::Error) -> Unread
    requires { ¬ IsMemory fault.now → parse_document text.now ≡ None }
    ensures { IsUnread text.now result }
{
    let span = match fault.span() {
        Some(range) => Span {
            from: range.start,
            to: range.end,
        },
        None => return Unread::Memory(AllocError),
    };
    if fault.message() == NO_RECURSION {
        return Unread::TooDeep(span.from);
    }
    // (of a header that is there twice the last part is meant, and not its bracket)
    let span = match text.get(span.from..span.to) {
        Some(header) if header.starts_with('[') && fault.message() == "duplicate key" => {
            last_of_header(text, span)
        }
        _ => span,
    };
    match String::from_str(alloc, fault.message()) {
        Ok(message) => Unread::NotToml(message, Some(span)),
        Err(refused) => Unread::Memory(refused),
    }
}
