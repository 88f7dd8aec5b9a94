//! A run of the program over any reader and writers, and over the files, the environment and the clock of a runtime.

use manifest_checking::{Streams, Terminals, VERSION, Words, answer, perform, words_of};
use manifest_server::serve as serve_editor;
use std::io;
use std::io::{Read, Write};
use std::rt::{Clock, Env, Files};

/// Does what the words ask for.
fn serve<H, R, W, E>(
    rt: &H,
    words: &[String],
    terminals: Terminals,
    input: &mut R,
    streams: &mut Streams<'_, W, E>,
) -> io::Result<u8>
where
    H: Files + Env + Clock + AllocGlobal + Clone + Drop,
    R: Read,
    W: Write,
    E: Write,
{
    match words_of(rt.alloc(), words)? {
        Words::Request(request) => perform(rt, request, terminals, input, streams),
        Words::Answer { text, is_asked } => answer(streams, text.as_str(), is_asked),
        Words::Serve => {
            let has_ended = serve_editor(rt, VERSION, input, streams.output)?;
            Ok(if has_ended { 0 } else { 1 })
        }
    }
}

/// Does what the words after the program's name ask for, and answers the status: 0 where there is no error, 1 where there
/// is one, 2 where the words are wrong, and 3 where something could not be read or written, which a line on `errors` says.
/// What is found goes to `output`, manifest by manifest; at the end a line on `errors` says how much it was.
pub fn run<H, R, W, E>(
    rt: &H,
    words: &[String],
    terminals: Terminals,
    input: &mut R,
    output: &mut W,
    errors: &mut E,
) -> u8
where
    H: Files + Env + Clock + AllocGlobal + Clone + Drop,
    R: Read,
    W: Write,
    E: Write,
{
    let mut streams = Streams::new(rt, terminals, output, errors);
    match serve(rt, words, terminals, input, &mut streams) {
        Ok(status) => status,
        Err(fault) => {
            let _ = writeln!(streams.errors, "error: {fault}");
            3
        }
    }
}
