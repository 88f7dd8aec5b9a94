//! Causes, key paths and faults as texts.
ghost use Rattle.std.specs.Prelude.{◌≡◌, IfOk, Some, flat_map, string_bytes};
ghost use Rattle.std.specs.Fmt.{WritesOnOk};
ghost use Rattle.std.specs.Char.{encode_utf8};
ghost use Rattle.std.specs.List.{list_all};
ghost use Rattle.manifest_schema.specs.PathTexts.{cause_text, is_bare, is_bare_key, escaped, quoted_byte, quoted, key_text, step_text, next_text, path_text, fault_text};
ghost use Rattle.manifest_fault.specs.Faults.{step_of, path_of, cause_of};

use crate::fault::{Cause, KeyPath, SchemaFault, Step};
use std::alloc::{AllocError, Global};
use std::fmt;

impl Cause {
    /// The cause in plain words, as `wrong kind` or `missing`.
    ///
    /// ```ignore
    /// let text = Cause::TwoSpellings.as_str(); // "two spellings"
    /// ```
    pub fn as_str(&self) -> &'static str
        ensures { result.now ≡ cause_text (cause_of self.now) }
    {
        match self {
            Cause::WrongKind => "wrong kind",
            Cause::Missing => "missing",
            Cause::TwoSpellings => "two spellings",
            Cause::NotAChoice => "not a choice",
            Cause::OutOfRange => "out of range",
            Cause::NotTrue => "not true",
            Cause::HoldsFloat => "holds a float",
            Cause::Metadata => "metadata",
        }
    }
}

/// The text of [`Cause::as_str`].
impl fmt::Display for Cause {
    ghost output = { λ c. Some (cause_text (cause_of c)) };

    fn fmt<W: fmt::Write>(&self, f: &mut fmt::Formatter<W>) -> fmt::Result {
        f.write_str(self.as_str())
    }
}

impl KeyPath {
    /// The path as a text, or `AllocError` where there is no memory for it.
    ///
    /// Keys stand after dots and indexes in brackets, as in `package.authors[0]`, and the path without steps is
    /// `(top)`. A key of the bytes `A` to `Z`, `a` to `z`, `0` to `9`, `_` and `-` stands as it is, as TOML's bare keys
    /// do. Each other key, the empty one among them, stands between quotes, as in `target."cfg(unix)"`, with a
    /// backslash before each quote and each backslash, and with `\u` and four hexadecimal digits for a control
    /// character.
    ///
    /// ```ignore
    /// let text = fault.path.to_text(alloc)?; // "package.authors[0]"
    /// ```
    pub fn to_text(&self, alloc: Global) -> Result<String, AllocError>
        ensures { IfOk result (λ s. string_bytes s ≡ path_text (path_of self.now)) }
    {
        format!(in alloc; "{self}")
    }
}

/// The text of [`KeyPath::to_text`].
impl fmt::Display for KeyPath {
    ghost output = { λ p. Some (path_text (path_of p)) };

    fn fmt<W: fmt::Write>(&self, f: &mut fmt::Formatter<W>) -> fmt::Result {
        let Some((first, rest)) = self.steps.split_first() else {
            return f.write_str("(top)");
        };
        write_step(f, first)?;
        for step in rest {
            write_next_step(f, step)?;
        }
        Ok(())
    }
}

/// The cause and the path, as `wrong kind at package.authors[0]`.
impl fmt::Display for SchemaFault {
    ghost output = { λ fault. Some (fault_text (path_of fault.path) (cause_of fault.cause)) };

    fn fmt<W: fmt::Write>(&self, f: &mut fmt::Formatter<W>) -> fmt::Result {
        let (cause, path) = (&self.cause, &self.path);
        write!(f, "{cause} at {path}")
    }
}

/// Writes a step that begins a path, with no dot before a key: the key as `write_key` does, or an index in brackets.
fn write_step<W: fmt::Write>(f: &mut fmt::Formatter<W>, step: &Step) -> fmt::Result
    ensures { WritesOnOk W.write_str_gives f.old result (step_text (step_of step.now)) f.new }
{
    match step {
        Step::Key(key) => write_key(f, key.as_str()),
        Step::Index(index) => write!(f, "[{index}]"),
    }
}

/// Writes a step that follows another: a dot before a key, and nothing before an index. If it returns `Ok`, exactly the
/// text `next_text` of the step was written.
fn write_next_step<W: fmt::Write>(f: &mut fmt::Formatter<W>, step: &Step) -> fmt::Result
    ensures { WritesOnOk W.write_str_gives f.old result (next_text (step_of step.now)) f.new }
{
    if let Step::Key(_) = step {
        f.write_str(".")?;
    }
    write_step(f, step)
}

/// Writes a key as it stands in a path: a bare key as it is, and any other one between quotes.
fn write_key<W: fmt::Write>(f: &mut fmt::Formatter<W>, key: &str) -> fmt::Result
    ensures { WritesOnOk W.write_str_gives f.old result (key_text key.now) f.new }
{
    if is_bare_key(key) {
        f.write_str(key)
    } else {
        write_quoted(f, key)
    }
}

/// Whether a key stands in a path as it is, without quotes.
#[tactic(auto, using(crate::proofs::TextLemmas::nonempty_is_bare_key))]
fn is_bare_key(key: &str) -> bool
    ensures { result ≡ is_bare_key key.now }
{
    !key.is_empty() && all_bare(key.as_bytes())
}

/// Whether each of the bytes is one of a bare key.
fn all_bare(bytes: &[u8]) -> bool
    ensures { result ≡ list_all is_bare bytes.now }
{
    bytes.iter().all(|byte| is_bare(*byte))
}

/// Whether a bare key may have the byte: `A` to `Z`, `a` to `z`, `0` to `9`, `_` or `-`.
fn is_bare(byte: u8) -> bool
    ensures { result ≡ is_bare byte }
{
    byte.is_ascii_alphanumeric() || byte == b'_' || byte == b'-'
}

/// Writes a key between quotes, each of its characters as `write_quoted_char` does.
fn write_quoted<W: fmt::Write>(f: &mut fmt::Formatter<W>, key: &str) -> fmt::Result
    ensures { WritesOnOk W.write_str_gives f.old result (quoted key.now) f.new }
{
    f.write_char('"')?;
    for c in key.chars() {
        write_quoted_char(f, c)?;
    }
    f.write_char('"')
}

/// Writes a character of a quoted key: with a backslash before it, if it is a quote or a backslash; as `\u` and four
/// digits, if it is a control character; else as it is.
#[tactic(auto, using(crate::proofs::TextLemmas::plain_char))]
fn write_quoted_char<W: fmt::Write>(f: &mut fmt::Formatter<W>, c: char) -> fmt::Result
    ensures { WritesOnOk W.write_str_gives f.old result (flat_map quoted_byte (encode_utf8 c))
        f.new }
{
    if c == '"' || c == '\\' {
        f.write_char('\\')?;
        f.write_char(c)
    } else if c.is_ascii_control() {
        write_escaped(f, c as u8)
    } else {
        f.write_char(c)
    }
}

/// Writes a control character as `\u` and four hexadecimal digits.
#[tactic(auto, using(std::proofs::lemmas::Fmt::hex_byte))]
fn write_escaped<W: fmt::Write>(f: &mut fmt::Formatter<W>, byte: u8) -> fmt::Result
    ensures { WritesOnOk W.write_str_gives f.old result (escaped byte) f.new }
{
    write!(f, "\\u00{byte:02X}")
}
