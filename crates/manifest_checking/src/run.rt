//! What the program does, but serving an editor, over any reader and writers, and over the files, the environment and the clock of
//! a runtime.

use crate::checking::{Context, Counts, Run};
use crate::explaining::{push_list, push_page};
use crate::options::{Color, Form, Inquiry, Options, Request};
use crate::progress::Progress;
use crate::walk::{Found, manifests};
use manifest_json::Text;
use manifest_report::{Reporter, Style};
use manifest_surroundings::{Reader, State, read_limited};
use std::alloc::{AllocError, Global};
use std::io::{Read, Write};
use std::rt::{Clock, Env, Files};
use std::time::{Duration, Instant};
use std::{env, io};

/// Which of the streams are terminals.
#[derive(Clone, Copy)]
pub struct Terminals {
    pub output: bool,
    pub errors: bool,
}

/// How wide an excerpt is where nothing says it.
const COLUMNS: usize = 140;

/// The name of a manifest of standard input whose path is not given.
const INPUT: &str = "<stdin>";

/// Whether an environment variable is there and not empty.
fn is_set<H: Env + AllocGlobal>(rt: &H, name: &str) -> bool {
    match env::var(rt, name) {
        Ok(value) => !value.is_empty(),
        Err(_) => false,
    }
}

/// The width of the terminal, where the environment says it.
fn columns<H: Env + AllocGlobal>(rt: &H) -> Option<usize> {
    match env::var(rt, "COLUMNS") {
        Ok(value) => value.as_str().parse::<usize>().ok(),
        Err(_) => None,
    }
}

/// How messages look: in colours where they are asked for, or on a terminal unless `NO_COLOR` is set.
fn style_of<H: Env + AllocGlobal>(rt: &H, options: &Options, terminals: Terminals) -> Style {
    let is_colored = match options.color {
        Color::Always => true,
        Color::Never => false,
        Color::Auto => terminals.output && !is_set(rt, "NO_COLOR"),
    };
    let width = if terminals.output { columns(rt) } else { None };
    Style {
        is_colored,
        columns: options.width.or(width).unwrap_or(COLUMNS).max(40),
    }
}

/// Writes how many there are, with the noun.
fn push_count(out: &mut Text, count: usize, noun: &str) {
    out.push_number(count);
    out.push(' ');
    out.push_str(noun);
    if count != 1 {
        out.push('s');
    }
}

/// Writes ` in 0.01 s`.
fn push_time(out: &mut Text, time: Duration) {
    let seconds = time.as_secs();
    let hundredths = time.subsec_millis() / 10;
    let taken = format!(in out.allocator(); " in {seconds}.{hundredths:02} s");
    if let Some(taken) = out.made(taken) {
        out.push_str(taken.as_str());
    }
}

/// Writes `checked 2 manifests: 1 error, 3 warnings in 0.01 s`.
fn push_summary(out: &mut Text, counts: Counts, time: Option<Duration>) {
    out.push_str("checked ");
    push_count(out, counts.files, "manifest");
    out.push_str(": ");
    push_count(out, counts.errors, "error");
    out.push_str(", ");
    push_count(out, counts.warnings, "warning");
    if counts.unread > 0 {
        out.push_str(", ");
        out.push_number(counts.unread);
        out.push_str(" not read or written");
    }
    if let Some(time) = time {
        push_time(out, time);
    }
    out.push('\n');
}

/// The streams of a run.
#[derive(Drop)]
pub struct Streams<'s, W, E> {
    pub output: &'s mut W,
    pub errors: &'s mut E,
    progress: Progress,
}

impl<'s, W: Write, E: Write> Streams<'s, W, E> {
    /// These streams, with a line on the errors that says how far a run is where they are a terminal.
    pub fn new<H: Clock>(
        rt: &H,
        terminals: Terminals,
        output: &'s mut W,
        errors: &'s mut E,
    ) -> Streams<'s, W, E> {
        Streams {
            output,
            errors,
            progress: Progress::new(rt, terminals.errors),
        }
    }

    /// Writes what a run has to say so far, unless memory ran out for it. A fault of the errors changes nothing.
    fn pass_on(&mut self, run: &mut Run) -> io::Result<()> {
        run.checked()?;
        if run.out.is_empty() && run.messages.is_empty() {
            return Ok(());
        }
        self.clear_progress();
        if !run.out.is_empty() {
            self.output.write_all(run.out.as_str().as_bytes())?;
            self.output.flush()?;
            run.out.clear();
        }
        if !run.messages.is_empty() {
            let _ = self.errors.write_all(run.messages.as_str().as_bytes());
            let _ = self.errors.flush();
            run.messages.clear();
        }
        Ok(())
    }

    /// Takes the line away that says how far a run is.
    fn clear_progress(&mut self) {
        let line = self.progress.clear();
        if !line.is_empty() {
            let _ = self.errors.write_all(line.as_bytes());
        }
    }

    /// Says how far a run is, if it is time for that.
    fn tell_progress<H: Clock + AllocGlobal>(
        &mut self,
        rt: &H,
        done: usize,
        all: usize,
    ) -> Result<(), AllocError> {
        let mut line = Text::new(rt.alloc());
        self.progress.push_line(rt, &mut line, done, all);
        let line = line.finish()?;
        if !line.is_empty() {
            let _ = self.errors.write_all(line.as_bytes());
            let _ = self.errors.flush();
        }
        Ok(())
    }
}

/// Checks standard input.
fn check_input<H: Files + AllocGlobal + Clone + Drop, R: Read>(
    rt: &H,
    input: &mut R,
    run: &mut Run,
) -> Result<(), AllocError> {
    let alloc = rt.alloc();
    let name = match &run.context.options.stdin_path {
        Some(path) => path.as_str(),
        None => INPUT,
    };
    let name = String::from_str(alloc, name)?;
    let read = read_limited(alloc, input, run.context.options.most);
    run.check_read(rt, name.as_str(), read);
    Ok(())
}

/// The paths that were given, without `-`; and whether that was given.
fn split_paths(alloc: Global, options: &Options) -> Result<(Vec<String>, bool), AllocError> {
    let mut paths = Vec::new(alloc);
    let mut has_input = false;
    for path in &options.paths {
        if path.as_str() == "-" {
            has_input = true;
        } else {
            paths.push(path.clone()?)?;
        }
    }
    Ok((paths, has_input))
}

/// Checks all manifests, and passes on what is said of each before the next one is read.
fn check_all<H, R, W, E>(
    rt: &H,
    input: &mut R,
    run: &mut Run,
    streams: &mut Streams<'_, W, E>,
) -> io::Result<()>
where
    H: Files + Clock + AllocGlobal + Clone + Drop,
    R: Read,
    W: Write,
    E: Write,
{
    let (paths, has_input) = split_paths(rt.alloc(), &run.context.options)?;
    run.reporter.begin(&mut run.out);
    if has_input {
        check_input(rt, input, run)?;
        streams.pass_on(run)?;
    }
    let found = manifests(rt, paths.as_slice())?;
    run.tell_all_unread(found.unread.as_slice());
    let all = found.files.len();
    for (done, file) in found.files.iter().enumerate() {
        let read = run.context.state.reader.read(rt, file.as_str());
        run.check_read(rt, file.as_str(), read);
        streams.pass_on(run)?;
        streams.tell_progress(rt, done, all)?;
    }
    run.reporter.end(&mut run.out);
    streams.pass_on(run)
}

/// The status of a run: 3 where something could not be read or written, 1 where there is an error, and else 0.
fn status_of(counts: Counts) -> u8 {
    if counts.unread > 0 {
        3
    } else if counts.errors > 0 {
        1
    } else {
        0
    }
}

/// The time since an instant, where the clock says it.
fn since<H: Clock>(rt: &H, start: io::Result<Instant>) -> Option<Duration> {
    match start {
        Ok(start) => start.elapsed(rt).ok(),
        Err(_) => None,
    }
}

/// A run with these options.
fn new_run<H: Env + AllocGlobal>(
    rt: &H,
    options: Options,
    terminals: Terminals,
) -> io::Result<Run> {
    let alloc = rt.alloc();
    let style = style_of(rt, &options, terminals);
    let current = env::current_dir(rt)?;
    Ok(Run {
        reporter: Reporter::new(alloc, options.format, style),
        context: Context {
            current: current.into_string(),
            state: State::new(alloc, Reader::new(alloc, options.most)),
            options,
        },
        counts: Counts::NONE,
        out: Text::new(alloc),
        messages: Text::new(alloc),
    })
}

/// Checks what was asked for, says how much it was, and answers the status.
fn check_and_sum_up<H, R, W, E>(
    rt: &H,
    input: &mut R,
    run: &mut Run,
    streams: &mut Streams<'_, W, E>,
) -> io::Result<u8>
where
    H: Files + Clock + AllocGlobal + Clone + Drop,
    R: Read,
    W: Write,
    E: Write,
{
    let start = Instant::now(rt);
    check_all(rt, input, run, streams)?;
    push_summary(&mut run.messages, run.counts, since(rt, start));
    streams.pass_on(run)?;
    Ok(status_of(run.counts))
}

/// Checks what was asked for, and answers the status.
fn check<H, R, W, E>(
    rt: &H,
    options: Options,
    terminals: Terminals,
    input: &mut R,
    streams: &mut Streams<'_, W, E>,
) -> io::Result<u8>
where
    H: Files + Env + Clock + AllocGlobal + Clone + Drop,
    R: Read,
    W: Write,
    E: Write,
{
    let mut run = new_run(rt, options, terminals)?;
    let status = check_and_sum_up(rt, input, &mut run, streams);
    drop(run);
    status
}

/// How it is shown: lines of several manifests stand each after the name of its manifest.
fn form_for(inquiry: &Inquiry, found: &Found) -> Form {
    match inquiry.form {
        Form::Lines if found.files.len() > 1 => Form::NamedLines,
        form => form,
    }
}

/// Shows what packages build and inherit, in a run.
fn show_in<H, W, E>(
    rt: &H,
    inquiry: &Inquiry,
    run: &mut Run,
    streams: &mut Streams<'_, W, E>,
) -> io::Result<u8>
where
    H: Files + AllocGlobal + Clone + Drop,
    W: Write,
    E: Write,
{
    let found = manifests(rt, inquiry.paths.as_slice())?;
    run.tell_all_unread(found.unread.as_slice());
    let form = form_for(inquiry, &found);
    run.begin_shown(form);
    let mut is_first = true;
    for file in &found.files {
        run.show(rt, file.as_str(), form, is_first);
        is_first = false;
        streams.pass_on(run)?;
    }
    run.end_shown(form);
    streams.pass_on(run)?;
    Ok(status_of(run.counts))
}

/// Shows what packages build and inherit.
fn show<H, W, E>(
    rt: &H,
    inquiry: &Inquiry,
    terminals: Terminals,
    streams: &mut Streams<'_, W, E>,
) -> io::Result<u8>
where
    H: Files + Env + AllocGlobal + Clone + Drop,
    W: Write,
    E: Write,
{
    let alloc = rt.alloc();
    let mut run = new_run(rt, Options::plain(alloc, Vec::new(alloc)), terminals)?;
    let status = show_in(rt, inquiry, &mut run, streams);
    drop(run);
    status
}

/// Tells which of the manifests that were found are not canonical.
fn compare_all<H, W, E>(
    rt: &H,
    found: &Found,
    run: &mut Run,
    streams: &mut Streams<'_, W, E>,
) -> io::Result<u8>
where
    H: Files + AllocGlobal,
    W: Write,
    E: Write,
{
    run.tell_all_unread(found.unread.as_slice());
    for file in &found.files {
        run.compare(rt, file.as_str());
        streams.pass_on(run)?;
    }
    streams.pass_on(run)?;
    Ok(status_of(run.counts))
}

/// Tells which manifests are not canonical.
fn compare<H, W, E>(
    rt: &H,
    paths: Vec<String>,
    terminals: Terminals,
    streams: &mut Streams<'_, W, E>,
) -> io::Result<u8>
where
    H: Files + Env + AllocGlobal + Clone + Drop,
    W: Write,
    E: Write,
{
    let found = manifests(rt, paths.as_slice())?;
    let mut run = new_run(rt, Options::plain(rt.alloc(), paths), terminals)?;
    let status = compare_all(rt, &found, &mut run, streams);
    drop(run);
    status
}

/// Writes a text to standard output.
fn print<W: Write>(output: &mut W, text: &str) -> io::Result<()> {
    output.write_all(text.as_bytes())?;
    output.flush()
}

/// Writes a text that was asked for to the output, and one that was not to the errors, and answers the status.
pub fn answer<W: Write, E: Write>(
    streams: &mut Streams<'_, W, E>,
    text: &str,
    is_asked: bool,
) -> io::Result<u8> {
    if is_asked {
        print(streams.output, text)?;
        return Ok(0);
    }
    let _ = streams.errors.write_all(text.as_bytes());
    Ok(2)
}

/// Prints the page of a code.
fn explain<W: Write, E: Write>(
    alloc: Global,
    streams: &mut Streams<'_, W, E>,
    name: &str,
) -> io::Result<u8> {
    let mut text = Text::new(alloc);
    push_page(&mut text, name);
    let text = text.finish()?;
    answer(streams, text.as_str(), true)
}

/// Prints all codes.
fn list<W: Write, E: Write>(alloc: Global, streams: &mut Streams<'_, W, E>) -> io::Result<u8> {
    let mut text = Text::new(alloc);
    push_list(&mut text);
    let text = text.finish()?;
    answer(streams, text.as_str(), true)
}

/// Does what was asked for, and answers the status: 0 where there is no error, 1 where there is one, and 3 where something could
/// not be read or written, which a line on the errors says. What is found goes to the output, manifest by manifest; at the end of
/// a check a line on the errors says how much it was.
pub fn perform<H, R, W, E>(
    rt: &H,
    request: Request,
    terminals: Terminals,
    input: &mut R,
    streams: &mut Streams<'_, W, E>,
) -> io::Result<u8>
where
    H: Files + Env + Clock + AllocGlobal + Clone + Drop,
    R: Read,
    W: Write,
    E: Write,
{
    match request {
        Request::Check(options) => check(rt, options, terminals, input, streams),
        Request::Show(inquiry) => show(rt, &inquiry, terminals, streams),
        Request::Canon(paths) => compare(rt, paths, terminals, streams),
        Request::Explain(name) => explain(rt.alloc(), streams, name.as_str()),
        Request::List => list(rt.alloc(), streams),
    }
}
