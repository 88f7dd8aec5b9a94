//! A text with other texts in some of its ranges.

ghost use Rattle.std.specs.Prelude.{IfOk, map, option_map, string_bytes};
ghost use Rattle.manifest_places.specs.Splices.{splice_of, Splices};

use crate::reading::part_of;
use std::alloc::{AllocError, Global};

/// A range of bytes of a text, and the text that takes its place.
#[derive(Debug, PartialEq, Eq, Drop)]
pub struct Splice {
    /// Where the range begins, in bytes.
    pub from: usize,
    /// Where it ends: the first byte after it.
    pub to: usize,
    /// What takes its place.
    pub put: String,
}

/// The text with these texts in these ranges, or `None` where the ranges do not ascend, overlap, reach over the end or
/// cut a character.
///
/// ```ignore
/// let put = String::from_str(alloc, "2")?;
/// let new = spliced(alloc, "a = 1\n", &[Splice { from: 4, to: 5, put }])?; // "a = 2\n"
/// ```
pub fn spliced(alloc: Global, text: &str, splices: &[Splice]) -> Result<Option<String>, AllocError>
    ensures { IfOk result
        (λ made. Splices text.now (map splice_of splices.now) (option_map string_bytes made)) }
{
    let mut new = String::with_capacity(alloc, text.len())?;
    let mut at = 0usize;
    for splice in splices {
        let Some(gap) = part_of(text, at, splice.from) else {
            return Ok(None);
        };
        let Some(_replaced) = part_of(text, splice.from, splice.to) else {
            return Ok(None);
        };
        new.push_str(gap)?;
        new.push_str(splice.put.as_str())?;
        at = splice.to;
    }
    let Some(rest) = part_of(text, at, text.len()) else {
        return Ok(None);
    };
    new.push_str(rest)?;
    Ok(Some(new))
}
