//! A call, as it stands in the input.

use std::alloc::{AllocError, Global};

/// A call.
#[derive(Drop)]
pub struct Call<'a> {
    pub name: &'a str,
    /// What stands after the name, as the type of a value.
    pub argument: &'a str,
    texts: Vec<&'a str>,
}

impl<'a> Call<'a> {
    /// The call of these lines: the first has its name, and the others its texts.
    pub fn of_block(alloc: Global, block: &'a str) -> Result<Call<'a>, AllocError> {
        let (head, text) = halves(block, "\n++");
        let (line, first) = halves(head, "\n");
        let (name, argument) = halves(halves(line, ": ").0, " ");
        let mut texts = Vec::new(alloc);
        texts.push(first)?;
        if head.len() < block.len() {
            for text in text.split("\n++") {
                texts.push(further_text(text))?;
            }
        }
        Ok(Call {
            name,
            argument,
            texts,
        })
    }

    /// A text of the call; one that is not there is empty.
    pub fn text(&self, at: usize) -> &'a str {
        self.texts.get(at).copied().unwrap_or("")
    }
}

/// What stands before a mark and what after it, or all of a text and nothing.
fn halves<'a>(text: &'a str, mark: &str) -> (&'a str, &'a str) {
    text.split_once(mark).unwrap_or((text, ""))
}

/// A further text, of what stands after its mark: a blank and the text, or a line feed and the text.
fn further_text(rest: &str) -> &str {
    let text = rest.strip_prefix(" ").or(rest.strip_prefix("\n"));
    text.unwrap_or(rest)
}
