//! Reads calls from standard input, and prints each as it was read and after it the answer. So a row of a test is some
//! lines of a file: `stdin` has the calls, and `stdout` the same lines with the answers that are wanted.
//!
//! ```text
//! == value Edition
//! '2015'
//! -> "2015"
//!
//! == complete: a library in legacy mode
//! [package]
//! name = 'p'
//! [lib]
//! ++ src|p.rs;.
//! -> { lib = { .. }, package = { name = "p" } }
//! ```
//!
//! A call begins with `== ` and its name. What it takes other than texts stands after the name, and after `: ` may
//! stand a note. The lines below are its first text. A line that begins with `++` begins a further text, which stands
//! after `++ ` or on the lines below. An empty line ends the call. Each line of the answer begins with `-> `.
#![tactic(auto)]

mod answers;
mod asked;
mod bytes;
mod call;
mod code;
mod compared;
mod completion;
mod copies;
mod documents;
mod errors;
mod example_of_completion;
mod examples;
mod examples_of_manifests;
mod examples_of_parts;
mod files;
mod findings;
mod folders;
mod inheritance;
mod lines;
mod places;
mod queries;
mod readers;
mod retried;
mod rows;
mod runs;
mod score;
mod tables;
mod targets;
mod typed;
mod values;
mod walks;

use anyhow::bail;
use call::Call;
use std::alloc::Global;
use std::io;
use std::io::{BufWriter, Write};

/// The lines of the answer to a query of a part of a manifest.
fn answer_of_query(alloc: Global, call: &Call<'_>) -> anyhow::Result<String> {
    let text = call.text(0);
    match call.name {
        "dependency" => queries::dependency(alloc, text),
        "publish" => queries::publish(alloc, text),
        "version" => queries::version(alloc, text),
        "lint" => queries::lint(alloc, text),
        "lints" => queries::lints(alloc, text),
        "strip" => queries::strip(alloc, text),
        _ => bail!("there is no call of this name"),
    }
}

/// The lines of the answer to a call on a value or on a part of a manifest.
fn answer_of_value(alloc: Global, call: &Call<'_>) -> anyhow::Result<String> {
    let (of, text) = (call.argument, call.text(0));
    match call.name {
        "value" => values::answer(alloc, of, text),
        "copy" => copies::answer(alloc, of, text),
        "read" => readers::answer(alloc, of, text),
        "encode" => bytes::encode(alloc, text),
        "decode" => bytes::decode(alloc, of, text),
        "path" => tables::path(alloc, text),
        "depth" => tables::depth_up_to(alloc, of, text),
        "bound" => tables::bound(alloc, text),
        _ => answer_of_query(alloc, call),
    }
}

/// The lines of the answer to a call that makes or compares something of its own.
fn answer_apart(alloc: Global, call: &Call<'_>) -> anyhow::Result<String> {
    let (of, first, second) = (call.argument, call.text(0), call.text(1));
    match call.name {
        "code" => code::answer(alloc, of),
        "apart" => compared::apart(alloc, of, first),
        "hashes" => compared::hashes(alloc, of, first),
        "order" => compared::order(alloc, first),
        "metadata" => typed::answer(alloc, of, first),
        "well-formed" => typed::well_formed(alloc, of, first),
        "inherits-at-most" => inheritance::inherits(alloc, of, first, second),
        _ => answer_of_value(alloc, call),
    }
}

/// The lines of the answer to a call on a document, for its places, as an example, or over folders that are watched.
fn answer_of_document(alloc: Global, call: &Call<'_>) -> anyhow::Result<String> {
    let (first, second) = (call.text(0), call.text(1));
    match call.name {
        "places" => places::places(alloc, first),
        "locate" => places::locate(alloc, first, second),
        "positions" => places::positions(alloc, first, second),
        "canonical" => examples::canonical_line(alloc, first),
        "complaint" => examples::complaint_line(alloc, first),
        "completed" => example_of_completion::answer(alloc, first, second),
        "find-apart" => findings::apart(alloc, first),
        "asked" => asked::answer(alloc, call.argument, first, second),
        "thrice" => asked::thrice(alloc, first, second, call.text(2)),
        _ => answer_apart(alloc, call),
    }
}

/// The lines of the answer to a call on a whole manifest.
fn answer_of_manifest(alloc: Global, call: &Call<'_>) -> anyhow::Result<String> {
    let (first, second, third) = (call.text(0), call.text(1), call.text(2));
    match call.name {
        "document" => documents::answer(alloc, first),
        "bytes" => documents::answer_of_bytes(alloc, first),
        "complete" => completion::complete(alloc, first, second),
        "unfound" => completion::unfound(alloc, first, second),
        "resolve" => inheritance::resolve_member(alloc, first, second),
        "adopt" => inheritance::adopt(alloc, first, second, third),
        "finish" => inheritance::finish(alloc, first, second, third),
        "refusals" => inheritance::refusals_of_member(alloc, first, second),
        "find" => findings::answer(alloc, first),
        "clone" => copies::clone_of_manifest(alloc, first),
        "retry" => retried::answer(alloc, call.argument, first, second),
        _ => answer_of_document(alloc, call),
    }
}

/// The lines of the answer to a call.
fn answer(rt: HostRuntime, call: &Call<'_>) -> anyhow::Result<String> {
    match call.name {
        "files" => files::answer(rt, call.argument),
        "without-parent" => files::without_a_parent(rt, call.text(0)),
        "unflushed" => runs::answer(rt),
        _ => answer_of_manifest(rt.alloc(), call),
    }
}

/// Prints the lines of an answer.
fn print_lines<W: Write>(lines: &str, output: &mut W) -> io::Result<()> {
    for line in lines.strip_suffix("\n").unwrap_or(lines).split('\n') {
        writeln!(output, "-> {line}")?;
    }
    Ok(())
}

/// Prints a call as it was read, and the lines of its answer. A call that cannot be made is answered with why.
fn print_answered<W: Write>(rt: HostRuntime, block: &str, output: &mut W) -> anyhow::Result<()> {
    writeln!(output, "== {block}")?;
    match answer(rt, &Call::of_block(rt.alloc(), block)?) {
        Ok(lines) => print_lines(lines.as_str(), output)?,
        Err(reason) => writeln!(output, "-> not answered: {reason}")?,
    }
    writeln!(output, "")?;
    Ok(())
}

fn main(rt: HostRuntime) -> anyhow::Result<()> {
    let alloc = rt.alloc();
    let input = io::read_to_string(alloc, rt.stdin())?;
    let mut output = BufWriter::new(alloc, rt.stdout())?;
    let calls = input.as_str().strip_prefix("== ").unwrap_or("");
    for block in calls.strip_suffix("\n").unwrap_or(calls).split("\n== ") {
        let block = block.strip_suffix("\n").unwrap_or(block); // without the empty line that ends it
        print_answered(rt, block, &mut output)?;
    }
    output.flush()?;
    Ok(())
}
