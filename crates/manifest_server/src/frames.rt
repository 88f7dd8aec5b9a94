//! Messages by their bytes: each stands after a header that says how long it is.

use std::alloc::{AllocError, Global};
use std::io;
use std::io::{ErrorKind, Read};

/// The longest message that is taken, and the longest header, in bytes.
const MOST: usize = 1 << 28;

const MOST_HEADER: usize = 4096;

/// What ends a header.
const END: &[u8] = b"\r\n\r\n";

/// What stands next in the input.
#[derive(Drop)]
pub(crate) enum Frame {
    /// The content of a message.
    Content(Vec<u8>),
    /// A header that says no length, or one that is too long. It is passed over.
    Wrong,
}

/// The bytes of the input that were read, and how many of them were taken.
#[derive(Drop)]
pub(crate) struct Frames {
    bytes: Vec<u8>,
    taken: usize,
}

/// The name of the field of a header that says the length.
const LENGTH: &str = "content-length";

/// The number that a line of a header says, where it says the length. (What stands before the name in its line was left by
/// something else, and is passed over.)
fn length_in(line: &str) -> Option<usize> {
    let (name, value) = line.split_once(':')?;
    let name = name.trim_end();
    let end = name.get(name.len().saturating_sub(LENGTH.len())..)?;
    if end.eq_ignore_ascii_case(LENGTH) {
        value.trim().parse::<usize>().ok()
    } else {
        None
    }
}

/// The length that a header says.
fn length_of(header: &[u8]) -> Option<usize> {
    let Ok(text) = str::from_utf8(header) else {
        return None;
    };
    for line in text.split('\n') {
        if let Some(length) = length_in(line) {
            return Some(length);
        }
    }
    None
}

/// Where the header ends with which some bytes begin, if it does so within the longest one.
fn end_of_header(bytes: &[u8]) -> Option<usize> {
    for at in 0..bytes.len().min(MOST_HEADER) {
        if bytes.get(at..at.saturating_add(END.len())) == Some(END) {
            return Some(at);
        }
    }
    None
}

/// What some bytes begin with.
#[derive(Clone, Copy)]
enum Next {
    /// No whole header.
    Nothing,
    /// A header, and a part of its message.
    Part,
    /// What is passed over: that many bytes.
    Wrong(usize),
    /// A whole message: its content is from the first offset to the second.
    Content(usize, usize),
}

/// What some bytes begin with.
fn next_in(bytes: &[u8]) -> Next {
    let Some(end) = end_of_header(bytes) else {
        return if bytes.len() > MOST_HEADER {
            Next::Wrong(bytes.len())
        } else {
            Next::Nothing
        };
    };
    let from = end.saturating_add(END.len());
    match length_of(bytes.get(..end).unwrap_or(&[])) {
        Some(length) if length <= MOST => {
            let to = from.saturating_add(length);
            if to <= bytes.len() {
                Next::Content(from, to)
            } else {
                Next::Part
            }
        }
        _ => Next::Wrong(from),
    }
}

impl Frames {
    /// Nothing is read yet.
    pub(crate) fn new(alloc: Global) -> Frames {
        Frames {
            bytes: Vec::new(alloc),
            taken: 0,
        }
    }

    /// Reads once more. It says whether there was something.
    pub(crate) fn fill<R: Read>(&mut self, input: &mut R) -> io::Result<bool> {
        let mut chunk = [0u8; 16384];
        for _ in 0..u64::MAX {
            match input.read(&mut chunk) {
                Ok(0) => return Ok(false),
                Ok(count) => {
                    self.bytes.extend_from_slice(&chunk[..count])?;
                    return Ok(true);
                }
                Err(fault) if fault.kind() == ErrorKind::Interrupted => {}
                Err(fault) => return Err(fault),
            }
        }
        Ok(false)
    }

    /// The bytes that were not taken yet.
    fn left(&self) -> &[u8] {
        self.bytes.get(self.taken..).unwrap_or(&[])
    }

    /// Takes that many bytes.
    fn take(&mut self, count: usize) {
        self.taken = self.taken.saturating_add(count);
    }

    /// Gives the room of what was taken back.
    fn trim(&mut self) -> Result<(), AllocError> {
        let mut rest = Vec::new(*self.bytes.allocator());
        rest.extend_from_slice(self.left())?;
        self.bytes = rest;
        self.taken = 0;
        Ok(())
    }

    /// The next whole message, or a header that is wrong; `None` where more has to be read first.
    pub(crate) fn next(&mut self) -> Result<Option<Frame>, AllocError> {
        match next_in(self.left()) {
            Next::Nothing => {
                self.trim()?;
                Ok(None)
            }
            Next::Part => Ok(None),
            Next::Wrong(count) => {
                self.take(count);
                Ok(Some(Frame::Wrong))
            }
            Next::Content(from, to) => {
                let mut content = Vec::new(*self.bytes.allocator());
                content.extend_from_slice(self.left().get(from..to).unwrap_or(&[]))?;
                self.take(to);
                Ok(Some(Frame::Content(content)))
            }
        }
    }
}
