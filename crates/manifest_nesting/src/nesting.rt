//! How deep a text nests tables and arrays, counted from its bytes before it is parsed.

ghost use Rattle.std.specs.Prelude.{◌≡◌, ◌≤◌, length, Some, None, option_map, if◌then◌else◌};
ghost use Rattle.std.specs.Bool.{OnFalse};
ghost use Rattle.manifest_nesting.specs.Nesting as spec;

use crate::laws::few_marks_nest_no_deeper;
use crate::skipping::{after_comment, after_string, byte_at, skip};
use arrayvec::ArrayVec;

/// How deep arrays and tables may nest in a table, the table itself not counted: `a = [{}]` is 2 deep.
pub const DEPTH_LIMIT: usize = 128;

/// How deep a dotted key may lead after a header of an array of tables. (`toml` takes more of the stack for an array of
/// tables than for a table: a header and a key that lead through 80 of these and 48 tables take 122 KiB.)
pub const DOTTED_LIMIT: usize = 112;

/// Where a byte stands that is in no string and no comment.
#[derive(Debug, Clone, Copy, PartialEq, Eq)]
pub enum Place {
    /// At the start of a line, after blanks at most, and in no bracket.
    LineStart,
    /// In a header.
    Header,
    /// In a key or a value.
    Line,
}

/// What has been counted up to a byte.
#[derive(Drop)]
pub struct Nesting {
    place: Place,
    /// How deep the table or array is in which the byte stands.
    depth: u8,
    /// The dots since a key or a value began.
    dots: u8,
    /// The dots of the key whose value comes next: each makes a table around the value.
    above: u8,
    /// For each bracket that is open, how deep the table or array is in which it stands.
    outer: ArrayVec<u8, 128>,
    /// Whether a header of an array of tables has begun.
    arrays: bool,
}

/// One more dot. More than 129 of a key lead too deep as 129 do.
#[inline(always)]
fn count_up(count: u8) -> u8
    ensures { result ≡ spec.count_up count }
{
    if count < 129 { count + 1 } else { count }
}

impl Nesting {
    /// Nothing has been read.
    #[inline(always)]
    fn start() -> Nesting
        ensures { result ≡ spec.start }
    {
        Nesting {
            place: Place::LineStart,
            depth: 0,
            dots: 0,
            above: 0,
            outer: ArrayVec::new(),
            arrays: false,
        }
    }

    /// A key or a value has begun.
    #[inline(always)]
    fn begin(&mut self)
        ensures { self.new ≡ spec.begun self.old }
    {
        if self.place == Place::LineStart {
            self.place = Place::Line;
        }
    }

    /// A header begins. It leads to a table of the document.
    #[inline(always)]
    fn begin_header(&mut self)
        ensures { self.new ≡ spec.header self.old }
    {
        self.place = Place::Header;
        self.depth = 1;
    }

    /// A dot of a header leads one deeper. Returns whether that is within the limit.
    #[inline(always)]
    fn dot_of_header(&mut self) -> bool
        ensures { spec.dot_of_header self.old ≡ (if result then Some self.new else None) }
    {
        if self.depth < 128 {
            self.depth = self.depth + 1;
            true
        } else {
            false
        }
    }

    /// A bracket opens: one deeper, and the tables of its key. Returns whether that is within the limit; else nothing changes.
    #[inline(always)]
    fn open(&mut self) -> bool
        ensures opened { spec.opened self.old ≡ (if result then Some self.new else None) }
        ensures kept { OnFalse result (self.new ≡ self.old) }
    {
        let depth = usize::from(self.depth) + usize::from(self.above) + 1;
        if depth <= DEPTH_LIMIT && !self.outer.is_full() {
            self.outer.push(self.depth);
            self.place = Place::Line;
            self.depth = depth as u8;
            self.dots = 0;
            self.above = 0;
            true
        } else {
            false
        }
    }

    /// A bracket closes. Where none is open the depth stays.
    #[inline(always)]
    fn close(&mut self)
        ensures { self.new ≡ spec.closed self.old }
    {
        self.dots = 0;
        self.above = 0;
        if let Some(depth) = self.outer.pop() {
            self.depth = depth;
        }
    }

    /// The dots were those of a key, whose value comes next. Returns whether its tables are within the limit; else nothing
    /// changes.
    #[inline(always)]
    fn equals(&mut self) -> bool
        ensures counted { spec.equals_sign self.old ≡ (if result then Some self.new else None) }
        ensures kept { OnFalse result (self.new ≡ self.old) }
    {
        let limit = if self.arrays {
            DOTTED_LIMIT
        } else {
            DEPTH_LIMIT
        };
        if self.dots == 0 || usize::from(self.depth) + usize::from(self.dots) <= limit {
            self.above = self.dots;
            self.dots = 0;
            true
        } else {
            false
        }
    }

    /// Another key or value comes next.
    #[inline(always)]
    fn separate(&mut self)
        ensures { self.new ≡ spec.separated self.old }
    {
        self.dots = 0;
        self.above = 0;
    }

    /// A line ends.
    #[inline(always)]
    fn end_line(&mut self)
        ensures { self.new ≡ spec.line_ended self.old }
    {
        self.separate();
        self.place = if self.outer.is_empty() {
            Place::LineStart
        } else {
            Place::Line
        };
    }

    /// Counts a byte of a header. Returns whether it leads no deeper than the limit.
    #[inline(always)]
    fn count_in_header(&mut self, byte: u8) -> bool
        ensures { spec.after_in_header byte self.old ≡ (if result then Some self.new else None) }
    {
        match byte {
            b'.' => return self.dot_of_header(),
            b'[' => self.arrays = true,
            _ => {}
        }
        true
    }

    /// Counts a byte of a key or a value. Returns whether it leads no deeper than the limit.
    #[inline(always)]
    fn count_in_line(&mut self, byte: u8) -> bool
        ensures { spec.after_in_line byte self.old ≡ (if result then Some self.new else None) }
    {
        match byte {
            b'[' => return self.open(),
            b'{' => return self.open(),
            b']' => self.close(),
            b'}' => self.close(),
            b'.' => self.dots = count_up(self.dots),
            b'=' => return self.equals(),
            b',' => self.separate(),
            _ => self.begin(),
        }
        true
    }

    /// Counts a byte that is in no string and no comment. Returns whether it leads no deeper than the limit.
    #[inline(always)]
    fn count(&mut self, byte: u8) -> bool
        ensures { spec.after_byte byte self.old ≡ (if result then Some self.new else None) }
    {
        if byte == b'\n' {
            self.end_line();
            return true;
        }
        if byte == b' ' || byte == b'\t' || byte == b'\r' || byte >= 128 {
            return true;
        }
        match self.place {
            Place::Header => self.count_in_header(byte),
            Place::LineStart => {
                if byte == b'[' {
                    self.begin_header();
                    true
                } else {
                    self.count_in_line(byte)
                }
            }
            Place::Line => self.count_in_line(byte),
        }
    }
}

/// Counts the next string, comment or byte of a text, and returns what follows it; `None` where that leads deeper than
/// the limit.
#[inline(always)]
fn turn<'t>(nesting: &mut Nesting, text: &'t [u8]) -> Option<&'t [u8]>
    ensures { option_map (λ rest. (nesting.new, rest.now)) result ≡ spec.turn nesting.old text.now }
{
    let byte = byte_at(text, 0);
    if byte == b'"' || byte == b'\'' {
        nesting.begin();
        Some(after_string(text))
    } else if byte == b'#' {
        Some(after_comment(text))
    } else if nesting.count(byte) {
        Some(skip(text, 1))
    } else {
        None
    }
}

/// Whether a byte leads one deeper, where it leads anywhere.
#[inline(always)]
fn is_mark(byte: u8) -> bool
    ensures { result ≡ spec.is_mark byte }
{
    (byte == b'[') | (byte == b'{') | (byte == b'.')
}

/// How many bytes of a piece are brackets that open, or dots. (The count is a byte as they are, so that a processor adds
/// many at a time.)
#[inline(always)]
fn marks_of(piece: &[u8]) -> u8
    requires { length piece.now ≤ 255 }
    ensures { result ≡ spec.marks piece.now }
{
    let mut marks: u8 = 0;
    for byte in piece {
        marks += u8::from(is_mark(*byte));
    }
    marks
}

/// Whether so few bytes of a text are brackets that open, or dots, that it cannot lead deeper than a limit, wherever they
/// stand.
fn has_few_marks(text: &[u8]) -> bool
    ensures { result ≡ spec.has_few_marks text.now }
{
    let mut marks: usize = 0;
    for piece in text.chunks(255) {
        marks += usize::from(marks_of(piece));
    }
    marks <= DOTTED_LIMIT
}

/// Whether the headers, dotted keys and brackets of a text lead deeper than [`DEPTH_LIMIT`], or a dotted key deeper than
/// [`DOTTED_LIMIT`] after a header of an array of tables. It looks at each byte once or twice, in proportion to the length
/// of the text, and asks for no memory. Strings and comments are skipped as `toml` reads them (the law
/// [`strings_are_skipped`](crate::laws::strings_are_skipped)).
///
/// A text that `toml` prints of a table within the limit does not lead deeper (the law
/// [`printed_nests_as_it_is`](crate::laws::printed_nests_as_it_is)). A header of an array of tables counts one for each of
/// its parts, where the table has two; so a caller looks at the depth of the table too, once there is one. Of a text that
/// is no TOML nothing is said.
///
/// ```ignore
/// nests_too_deep("a = [{ b.c = 1 }]"); // false: it is 3 deep
/// ```
pub fn nests_too_deep(text: &str) -> bool
    ensures { result ≡ spec.nests_too_deep text.now }
{
    if has_few_marks(text.as_bytes()) {
        few_marks_nest_no_deeper();
        return false;
    }
    let mut nesting = Nesting::start();
    let mut rest = text.as_bytes();
    for i in 0..text.len() {
        if rest.is_empty() {
            return false;
        }
        match turn(&mut nesting, rest) {
            Some(left) => rest = left,
            None => return true,
        }
    }
    false
}
