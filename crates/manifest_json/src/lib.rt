//! JSON, and other text, written from left to right.
#![tactic(auto)]

use std::alloc::{AllocError, Global};

/// A text that is written from left to right.
///
/// Where memory runs out, nothing more is written, and `finish` returns the error: so what writes needs no `?` of its own.
///
/// ```ignore
/// let mut out = Text::new(alloc);
/// out.open();
/// out.text_member("name", "a\"b");
/// out.close();
/// let text = out.finish()?; // {"name":"a\"b"}
/// ```
#[derive(Drop)]
pub struct Text {
    written: String,
    state: Result<(), AllocError>,
}

impl Text {
    /// The empty text.
    pub fn new(alloc: Global) -> Text {
        Text {
            written: String::new(alloc),
            state: Ok(()),
        }
    }

    /// The text that is written. Out of memory where it ran out on the way.
    pub fn finish(self) -> Result<String, AllocError> {
        self.state?;
        Ok(self.written)
    }

    /// Out of memory where it ran out up to now.
    pub fn checked(&self) -> Result<(), AllocError> {
        self.state
    }

    /// Whether nothing is written.
    pub fn is_empty(&self) -> bool {
        self.written.is_empty()
    }

    /// Takes away what is written.
    pub fn clear(&mut self) {
        self.written.clear();
    }

    /// What is written up to now.
    pub fn as_str(&self) -> &str {
        self.written.as_str()
    }

    /// Where its memory comes from.
    pub fn allocator(&self) -> Global {
        *self.written.allocator()
    }

    /// What was made for the text, if there was memory for it. If not, nothing more is written.
    pub fn made<T: Drop>(&mut self, made: Result<T, AllocError>) -> Option<T> {
        match made {
            Ok(made) => Some(made),
            Err(error) => {
                self.state = Err(error);
                None
            }
        }
    }

    /// Writes nothing more, as memory ran out.
    pub fn fail(&mut self, error: AllocError) {
        self.state = Err(error);
    }

    /// Writes a character.
    pub fn push(&mut self, c: char) {
        if self.state.is_ok() {
            self.state = self.written.push(c);
        }
    }

    /// Writes a text as it is.
    pub fn push_str(&mut self, text: &str) {
        if self.state.is_ok() {
            self.state = self.written.push_str(text);
        }
    }

    /// Writes a number.
    pub fn push_number(&mut self, number: usize) {
        if self.state.is_ok() {
            self.state = write!(self.written, "{number}");
        }
    }

    /// Writes a number in hexadecimal.
    pub fn push_hexadecimal(&mut self, number: u32) {
        if self.state.is_ok() {
            self.state = write!(self.written, "{number:x}");
        }
    }

    /// Writes a character of a text in quotes, with the escape that JSON wants.
    fn push_quoted_char(&mut self, c: char) {
        match c {
            '"' => self.push_str("\\\""),
            '\\' => self.push_str("\\\\"),
            '\n' => self.push_str("\\n"),
            '\r' => self.push_str("\\r"),
            '\t' => self.push_str("\\t"),
            '\u{8}' => self.push_str("\\b"),
            '\u{c}' => self.push_str("\\f"),
            _ if c < ' ' => self.push_code(c),
            _ => self.push(c),
        }
    }

    /// Writes a control character by its number.
    fn push_code(&mut self, c: char) {
        if self.state.is_ok() {
            let code = u32::from(c);
            self.state = write!(self.written, "\\u{code:04x}");
        }
    }

    /// Writes a text in quotes.
    ///
    /// ```ignore
    /// out.push_quoted("a\"b\u{1b}"); // "a\"b\u001b"
    /// ```
    pub fn push_quoted(&mut self, text: &str) {
        self.push('"');
        for c in text.chars() {
            self.push_quoted_char(c);
        }
        self.push('"');
    }

    /// Writes what begins an object, after a comma where it follows another one in a list.
    pub fn open(&mut self) {
        if self.written.as_str().ends_with('}') {
            self.push(',');
        }
        self.push('{');
    }

    /// Writes what ends an object.
    pub fn close(&mut self) {
        self.push('}');
    }

    /// Writes the key of a member, after a comma where it is not the first of its object.
    pub fn push_key(&mut self, key: &str) {
        if !self.written.as_str().ends_with('{') {
            self.push(',');
        }
        self.push_quoted(key);
        self.push(':');
    }

    /// Writes a member that is an object, up to where its members begin.
    pub fn open_member(&mut self, key: &str) {
        self.push_key(key);
        self.push('{');
    }

    /// Writes a member that is a list, up to where its items begin.
    pub fn open_list(&mut self, key: &str) {
        self.push_key(key);
        self.push('[');
    }

    /// Writes what ends a list.
    pub fn close_list(&mut self) {
        self.push(']');
    }

    /// Writes a member that is a text.
    pub fn text_member(&mut self, key: &str, text: &str) {
        self.push_key(key);
        self.push_quoted(text);
    }

    /// Writes a member that is a text, or null.
    pub fn optional_text(&mut self, key: &str, text: Option<&str>) {
        match text {
            Some(text) => self.text_member(key, text),
            None => self.null_member(key),
        }
    }

    /// Writes a member that is a number.
    pub fn number_member(&mut self, key: &str, number: usize) {
        self.push_key(key);
        self.push_number(number);
    }

    /// Writes a member that is a number, or null.
    pub fn optional_number(&mut self, key: &str, number: Option<usize>) {
        match number {
            Some(number) => self.number_member(key, number),
            None => self.null_member(key),
        }
    }

    /// Writes a member that is true or false.
    pub fn flag_member(&mut self, key: &str, flag: bool) {
        self.push_key(key);
        self.push_str(if flag { "true" } else { "false" });
    }

    /// Writes a member that is null.
    pub fn null_member(&mut self, key: &str) {
        self.push_key(key);
        self.push_str("null");
    }
}
