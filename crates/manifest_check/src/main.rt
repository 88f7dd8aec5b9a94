//! The program `manifest_check`: words and streams come in; messages and a status come out. Begin with `src/run.rt`: it works
//! over any reader and writers, and over the files of a runtime, and `main` only takes the words and the streams, and calls
//! [`run`].
#![tactic(auto)]

mod run;

use crate::run::run;
use manifest_checking::Terminals;
use std::io::{ErrorKind, IsTerminal, Write};
use std::process::ExitCode;
use std::{env, io};

/// The arguments after the program's name; an error where one is not UTF-8, or where memory runs out.
fn given_words(rt: &HostRuntime) -> io::Result<Vec<String>> {
    let mut words = Vec::new(rt.alloc());
    let mut is_first = true;
    for word in env::args(rt)? {
        if !is_first {
            words.push(word)?;
        }
        is_first = false;
    }
    Ok(words)
}

/// Runs the program on its arguments and streams.
fn main(rt: HostRuntime) -> ExitCode {
    let mut errors = rt.stderr();
    let words = match given_words(&rt) {
        Ok(words) => words,
        Err(fault) => {
            let is_memory = fault.kind() == ErrorKind::OutOfMemory;
            let line: &[u8] = if is_memory {
                b"error: out of memory\n"
            } else {
                b"error: a word is not UTF-8\n"
            };
            let _ = errors.write_all(line);
            return ExitCode::from(if is_memory { 3 } else { 2 });
        }
    };
    let mut input = rt.stdin();
    let mut output = rt.stdout();
    let terminals = Terminals {
        output: output.is_terminal(),
        errors: errors.is_terminal(),
    };
    let words = words.as_slice();
    ExitCode::from(run(&rt, words, terminals, &mut input, &mut output, &mut errors))
}
