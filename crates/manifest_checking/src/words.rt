//! The words of the program: its command-line arguments.

use crate::options::{Color, Fixing, Form, Inquiry, Options, Request};
use clap::{Arg, ArgAction, ArgMatches, Command, Error};
use manifest_json::Text;
use manifest_report::{Format, push_escaped};
use manifest_rules::code_named;
use manifest_surroundings::{LevelWord, MOST, SETTINGS, Scope, Setting};
use std::alloc::{AllocError, Global};

/// What the words ask for, or what is said instead: a text, and whether it was asked for (help, the version).
#[derive(Drop)]
pub enum Words {
    Request(Request),
    /// To serve an editor.
    Serve,
    Answer { text: String, is_asked: bool },
}

/// The version of the program.
pub const VERSION: &str = "0.2.0";

/// What an option takes.
#[derive(Clone, Copy)]
enum Takes {
    Nothing,
    /// Nothing, and it goes only with the option of this name.
    NothingWith(&'static str),
    /// A text.
    Text(&'static str),
    /// A text, each time that it is given.
    Texts(&'static str),
    /// One of these words; the first is meant where it is not given.
    Word(&'static str, &'static [&'static str]),
    /// A number of bytes, with what is meant where it is not given.
    Bytes(&'static str),
    /// A number of columns.
    Columns,
}

/// An option: its name, what it takes, and its help.
type Row = (&'static str, Takes, &'static str);

/// The options of a check: what is checked, how it is reported, and what else is done.
static CHECKING: [Row; 16] = [
    (
        "stdin-path",
        Takes::Text("FILE"),
        "The path that standard input is taken to have",
    ),
    (
        "no-workspace",
        Takes::Nothing,
        "Look for no root of a workspace",
    ),
    ("no-config", Takes::Nothing, "Read no .cargo/config.toml"),
    (
        "config",
        Takes::Text("FILE"),
        "Read this configuration, and none above",
    ),
    ("publish", Takes::Nothing, "Say what a registry wants too"),
    (
        "max-size",
        Takes::Bytes("67108864"),
        "Read no file of more bytes",
    ),
    (
        "format",
        Takes::Word("FORMAT", &["people", "short", "json", "github", "sarif"]),
        "How diagnostics are written",
    ),
    (
        "color",
        Takes::Word("WHEN", &["auto", "always", "never"]),
        "When colours are used",
    ),
    ("width", Takes::Columns, "How wide an excerpt may be"),
    (
        "deny",
        Takes::Texts("CODE"),
        "Take a code, or `all`, for an error",
    ),
    (
        "warn",
        Takes::Texts("CODE"),
        "Take a code, or `all`, for a warning",
    ),
    (
        "allow",
        Takes::Texts("CODE"),
        "Do not tell a code, or `all`",
    ),
    (
        "fix",
        Takes::Nothing,
        "Make the suggestions that are certain",
    ),
    (
        "dry-run",
        Takes::NothingWith("fix"),
        "Show what --fix would change, and change nothing",
    ),
    ("explain", Takes::Text("CODE"), "Print the page of a code"),
    ("list", Takes::Nothing, "Print all codes with their levels"),
];

/// The options of `show`.
static SHOWING: [Row; 1] = [(
    "format",
    Takes::Word("FORMAT", &["people", "json", "html"]),
    "How it is written",
)];

/// The option of a row.
fn option<'a>(alloc: Global, row: &Row) -> Result<Arg<'a>, AllocError> {
    let (name, takes, help) = *row;
    let arg = Arg::new(alloc, name).long(name).help(help);
    Ok(match takes {
        Takes::Nothing => arg.action(ArgAction::SetTrue),
        Takes::NothingWith(other) => arg.action(ArgAction::SetTrue).requires_arg(other)?,
        Takes::Text(value) => arg.action(ArgAction::Set).value_name(value),
        Takes::Texts(value) => arg.action(ArgAction::Append).value_name(value),
        Takes::Word(value, words) => arg
            .action(ArgAction::Set)
            .value_name(value)
            .default_value(words.first().copied().unwrap_or(""))
            .value_parser(words),
        Takes::Bytes(most) => arg
            .action(ArgAction::Set)
            .value_name("BYTES")
            .default_value(most)
            .value_parser(clap::value_parser!(u64)),
        Takes::Columns => arg
            .action(ArgAction::Set)
            .value_name("COLUMNS")
            .value_parser(clap::value_parser!(u16)),
    })
}

/// A command with paths, and with the options of these rows.
fn with_options<'a>(
    alloc: Global,
    command: Command<'a>,
    help: &'static str,
    rows: &'static [Row],
) -> Result<Command<'a>, AllocError> {
    let paths = Arg::new(alloc, "PATHS")
        .action(ArgAction::Append)
        .num_args(0..)
        .help(help);
    let mut command = command.arg(paths)?;
    for row in rows {
        command = command.arg(option(alloc, row)?)?;
    }
    Ok(command)
}

/// The command `show`.
fn show_command<'a>(alloc: Global) -> Result<Command<'a>, AllocError> {
    let command = Command::new(alloc, "show").about(
        "Shows what packages build, and what they inherit, with where each comes from",
    );
    let help = "Manifests, and folders with manifests [default: .]";
    with_options(alloc, command, help, &SHOWING)
}

/// The command `canon`.
fn canon_command<'a>(alloc: Global) -> Result<Command<'a>, AllocError> {
    let check = option(alloc, &("check", Takes::Nothing, "Change nothing"))?;
    let paths = Arg::new(alloc, "PATHS")
        .required(true)
        .action(ArgAction::Append)
        .num_args(1..)
        .help("Manifests, and folders with manifests");
    Command::new(alloc, "canon")
        .about("Tells which manifests are not canonical, with the difference")
        .arg(check.required(true))?
        .arg(paths)
}

/// The command `lsp`.
fn lsp_command<'a>(alloc: Global) -> Command<'a> {
    Command::new(alloc, "lsp").about(
        "Serves an editor by the Language Server Protocol, on standard input and output",
    )
}

fn command<'a>(alloc: Global) -> Result<Command<'a>, AllocError> {
    let command = Command::new(alloc, "manifest_check")
        .about(
            "Tells everything that is wrong with Cargo manifests, at its place, with what to write",
        )
        .version(VERSION)
        .args_conflicts_with_subcommands(true)
        .subcommand(show_command(alloc)?)?
        .subcommand(canon_command(alloc)?)?
        .subcommand(lsp_command(alloc))?;
    let help = "Manifests, and folders with manifests; `-` is standard input [default: .]";
    with_options(alloc, command, help, &CHECKING)
}

fn copied(alloc: Global, text: Option<&str>) -> Result<Option<String>, AllocError> {
    match text {
        Some(text) => Ok(Some(String::from_str(alloc, text)?)),
        None => Ok(None),
    }
}

/// The paths that were given.
fn paths_of(alloc: Global, matches: &ArgMatches<'_>) -> Result<Vec<String>, AllocError> {
    let mut paths = Vec::new(alloc);
    for path in matches.get_strs("PATHS").unwrap_or(&[]) {
        paths.push(String::from_str(alloc, *path)?)?;
    }
    Ok(paths)
}

/// The paths that were given; `.` where there is none.
fn paths_or_here(alloc: Global, matches: &ArgMatches<'_>) -> Result<Vec<String>, AllocError> {
    let mut paths = paths_of(alloc, matches)?;
    if paths.is_empty() {
        paths.push(String::from_str(alloc, ".")?)?;
    }
    Ok(paths)
}

/// The settings of codes by one option.
fn push_levels(
    alloc: Global,
    matches: &ArgMatches<'_>,
    option: &str,
    setting: Setting,
    levels: &mut Vec<LevelWord>,
) -> Result<(), AllocError> {
    let names = matches.get_strs(option).unwrap_or(&[]);
    let places = matches.indices_of(option).unwrap_or(&[]);
    for (name, at) in names.iter().zip(places.iter()) {
        levels.push(LevelWord {
            at: *at,
            name: String::from_str(alloc, *name)?,
            setting,
        })?;
    }
    Ok(())
}

/// The settings of codes, in the order of the words.
fn levels_of(alloc: Global, matches: &ArgMatches<'_>) -> Result<Vec<LevelWord>, AllocError> {
    let mut levels = Vec::new(alloc);
    for (option, setting) in &SETTINGS {
        push_levels(alloc, matches, *option, *setting, &mut levels)?;
    }
    levels.sort_by_key(|level| level.at)?;
    Ok(levels)
}

fn color_of(matches: &ArgMatches<'_>) -> Color {
    match matches.get_str("color") {
        Some("always") => Color::Always,
        Some("never") => Color::Never,
        _ => Color::Auto,
    }
}

fn fixing_of(matches: &ArgMatches<'_>) -> Fixing {
    if !matches.get_flag("fix") {
        Fixing::No
    } else if matches.get_flag("dry-run") {
        Fixing::Show
    } else {
        Fixing::Write
    }
}

fn scope_of(alloc: Global, matches: &ArgMatches<'_>) -> Result<Scope, AllocError> {
    Ok(Scope {
        uses_workspace: !matches.get_flag("no-workspace"),
        uses_config: !matches.get_flag("no-config"),
        config: copied(alloc, matches.get_str("config"))?,
        publishes: matches.get_flag("publish"),
        levels: levels_of(alloc, matches)?,
    })
}

fn options_of(alloc: Global, matches: &ArgMatches<'_>) -> Result<Options, AllocError> {
    let format = matches.get_str("format").unwrap_or("people");
    Ok(Options {
        paths: paths_or_here(alloc, matches)?,
        stdin_path: copied(alloc, matches.get_str("stdin-path"))?,
        format: Format::named(format).unwrap_or(Format::People),
        color: color_of(matches),
        width: matches
            .get_one::<u16>("width")
            .map(|width| usize::from(width)),
        scope: scope_of(alloc, matches)?,
        fixing: fixing_of(matches),
        most: matches.get_one::<u64>("max-size").unwrap_or(MOST),
    })
}

/// What the words after the name of a command ask for.
fn subrequest_of(
    alloc: Global,
    name: &str,
    matches: &ArgMatches<'_>,
) -> Result<Request, AllocError> {
    if name == "canon" {
        return Ok(Request::Canon(paths_of(alloc, matches)?));
    }
    let form = match matches.get_str("format") {
        Some("json") => Form::Json,
        Some("html") => Form::Html,
        _ => Form::Lines,
    };
    Ok(Request::Show(Inquiry {
        paths: paths_or_here(alloc, matches)?,
        form,
    }))
}

fn request_of(alloc: Global, matches: &ArgMatches<'_>) -> Result<Request, AllocError> {
    if let Some((name, matches)) = matches.subcommand() {
        return subrequest_of(alloc, name, matches);
    }
    if let Some(code) = matches.get_str("explain") {
        return Ok(Request::Explain(String::from_str(alloc, code)?));
    }
    if matches.get_flag("list") {
        return Ok(Request::List);
    }
    Ok(Request::Check(options_of(alloc, matches)?))
}

/// A name among the words that is no code, if there is one.
fn unknown_code(request: &Request) -> Option<&str> {
    match request {
        Request::Explain(name) => {
            if code_named(name.as_str()).is_none() {
                return Some(name.as_str());
            }
            None
        }
        Request::Check(options) => {
            for level in &options.scope.levels {
                let name = level.name.as_str();
                if name != "all" && code_named(name).is_none() {
                    return Some(name);
                }
            }
            None
        }
        Request::List | Request::Show(_) | Request::Canon(_) => None,
    }
}

/// Why the words go together with no run, if they do not.
fn conflict(request: &Request) -> Option<&'static str> {
    let Request::Check(options) = request else {
        return None;
    };
    let has_input = options.paths.iter().any(|path| path.as_str() == "-");
    if has_input && options.fixing == Fixing::Write {
        return Some("--fix writes files: with `-` it needs --dry-run");
    }
    if options.stdin_path.is_some() && !has_input {
        return Some("--stdin-path says where `-` is, and there is no `-`");
    }
    None
}

/// A text of clap's, in memory of its own, with what a terminal would not show of the words escaped.
fn answer_of(alloc: Global, error: &Error) -> Result<Words, AllocError> {
    let written = format!(in alloc; "{error}")?;
    let mut text = Text::new(alloc);
    for line in written.as_str().lines() {
        push_escaped(&mut text, line);
        text.push('\n');
    }
    Ok(Words::Answer {
        text: text.finish()?,
        is_asked: !error.use_stderr(),
    })
}

/// What is wrong with a request; the empty text where nothing is.
fn fault_of(alloc: Global, request: &Request) -> Result<String, AllocError> {
    let mut text = Text::new(alloc);
    if let Some(name) = unknown_code(request) {
        text.push_str("error: no code has the name `");
        push_escaped(&mut text, name);
        text.push_str("` (see --list)\n");
    } else if let Some(reason) = conflict(request) {
        text.push_str("error: ");
        text.push_str(reason);
        text.push('\n');
    }
    text.finish()
}

/// A request, if there is nothing wrong with it.
fn judged(alloc: Global, request: Request) -> Result<Words, AllocError> {
    let text = fault_of(alloc, &request)?;
    if text.is_empty() {
        return Ok(Words::Request(request));
    }
    Ok(Words::Answer {
        text,
        is_asked: false,
    })
}

/// What is asked for.
fn asked(alloc: Global, matches: &ArgMatches<'_>) -> Result<Words, AllocError> {
    match matches.subcommand() {
        Some(("lsp", _)) => Ok(Words::Serve),
        _ => judged(alloc, request_of(alloc, matches)?),
    }
}

/// What all words ask for, the program's name first.
fn parsed<'a>(alloc: Global, words: &'a [String]) -> Result<Words, AllocError> {
    match command(alloc)?.try_get_matches_from(words) {
        Ok(matches) => asked(alloc, &matches),
        Err(error) => answer_of(alloc, &error),
    }
}

/// What the words after the program's name ask for.
pub fn words_of(alloc: Global, given: &[String]) -> Result<Words, AllocError> {
    let mut words = Vec::new(alloc);
    words.push(String::from_str(alloc, "manifest_check")?)?;
    for word in given {
        words.push(word.clone()?)?;
    }
    parsed(alloc, words.as_slice())
}
