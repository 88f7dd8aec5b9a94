//! The [expressions](https://doc.rust-lang.org/reference/conditional-compilation.html) in `cfg(..)`, as Cargo reads
//! them: `name`, `name = "text"`, `all(..)`, `any(..)`, `not(..)`.

use std::alloc::{AllocError, Global};
use std::fmt;

/// What an expression asks of the platform: a name, and its value where it has one.
#[derive(Clone, Copy)]
pub(crate) struct Fact<'a> {
    pub(crate) name: &'a str,
    /// Whether the name is written with `r#` before it.
    pub(crate) is_raw: bool,
    pub(crate) value: Option<&'a str>,
}

/// Why a text is no expression.
#[derive(Clone, Copy)]
pub(crate) enum CfgFault<'a> {
    /// No token begins with this character.
    Character(char),
    /// A text without its second `"`.
    Unterminated,
    /// This token is not one that may stand here.
    Unexpected {
        wanted: &'static str,
        found: Token<'a>,
    },
    /// The text ends where this is wanted.
    Incomplete(&'static str),
}

impl fmt::Display for CfgFault<'_> {
    fn fmt<W: fmt::Write>(&self, f: &mut fmt::Formatter<W>) -> fmt::Result {
        match self {
            CfgFault::Character(ch) => write!(f, "unexpected character `{ch}`"),
            CfgFault::Unterminated => f.write_str("unterminated string"),
            CfgFault::Unexpected { wanted, found } => {
                write!(f, "expected {wanted}, found {found}")
            }
            CfgFault::Incomplete(wanted) => write!(f, "expected {wanted}, but it ended"),
        }
    }
}

/// A token of an expression.
#[derive(Clone, Copy, PartialEq, Eq)]
pub(crate) enum Token<'a> {
    Open,
    Close,
    Comma,
    Equals,
    Text(&'a str),
    Name { name: &'a str, is_raw: bool },
}

impl fmt::Display for Token<'_> {
    fn fmt<W: fmt::Write>(&self, f: &mut fmt::Formatter<W>) -> fmt::Result {
        match self {
            Token::Open => f.write_str("`(`"),
            Token::Close => f.write_str("`)`"),
            Token::Comma => f.write_str("`,`"),
            Token::Equals => f.write_str("`=`"),
            Token::Text(_text) => f.write_str("a string"),
            Token::Name { name, .. } => write!(f, "`{name}`"),
        }
    }
}

fn begins_name(ch: char) -> bool {
    ch.is_ascii_alphabetic() || ch == '_'
}

fn is_in_name(ch: char) -> bool {
    ch.is_ascii_alphanumeric() || ch == '_'
}

/// A name at the beginning of the text, and what follows it.
fn split_name(text: &str) -> (&str, &str) {
    match text.find(|ch: char| !is_in_name(ch)) {
        Some(end) => text.split_at_checked(end).unwrap_or((text, "")),
        None => (text, ""),
    }
}

/// The token at the beginning of a text that is not empty and begins with no space, and what follows it.
fn split_token(text: &str) -> Result<(Token<'_>, &str), CfgFault<'_>> {
    let mut rest = text.chars();
    let Some(first) = rest.next() else {
        return Err(CfgFault::Incomplete("a token"));
    };
    let rest = rest.as_str();
    match first {
        '(' => Ok((Token::Open, rest)),
        ')' => Ok((Token::Close, rest)),
        ',' => Ok((Token::Comma, rest)),
        '=' => Ok((Token::Equals, rest)),
        '"' => match rest.split_once('"') {
            Some((inner, rest)) => Ok((Token::Text(inner), rest)),
            None => Err(CfgFault::Unterminated),
        },
        _ => match text.strip_prefix("r#") {
            Some(bare) => named_token(bare, true),
            None => named_token(text, false),
        },
    }
}

fn named_token(text: &str, is_raw: bool) -> Result<(Token<'_>, &str), CfgFault<'_>> {
    match text.chars().next() {
        Some(first) if begins_name(first) => {
            let (name, rest) = split_name(text);
            Ok((Token::Name { name, is_raw }, rest))
        }
        Some(first) => Err(CfgFault::Character(first)),
        None => Err(CfgFault::Incomplete("an identifier")),
    }
}

/// What may stand at a place of an expression.
#[derive(Clone, Copy)]
enum State<'a> {
    /// An expression begins; in a list the list may end.
    Start { may_close: bool },
    /// `(` after `all` or `any`, or after `not`.
    Opening(Group),
    /// `=`, or what stands after an expression.
    AfterName(Fact<'a>),
    /// The text after `=`.
    Value(Fact<'a>),
    /// What stands after an expression.
    After,
}

/// What is open: a list of expressions, or one alone.
#[derive(Clone, Copy, PartialEq, Eq)]
enum Group {
    List,
    Single,
}

/// A reader of expressions, between two tokens.
#[derive(Drop)]
struct Reader<'a> {
    state: State<'a>,
    open: Vec<Group>,
    facts: Vec<Fact<'a>>,
}

impl<'a> Reader<'a> {
    /// Reads one more token.
    fn read(&mut self, token: Token<'a>) -> Result<Result<(), CfgFault<'a>>, AllocError> {
        let next = match self.state {
            State::Start { may_close } => self.started(token, may_close),
            State::Opening(group) if token == Token::Open => {
                self.open.push(group)?;
                Ok(State::Start {
                    may_close: group == Group::List,
                })
            }
            State::Opening(_group) => unexpected("`(`", token),
            State::AfterName(fact) if token == Token::Equals => Ok(State::Value(fact)),
            State::AfterName(fact) => {
                self.facts.push(fact)?;
                self.ended(token)
            }
            State::Value(fact) => match token {
                Token::Text(text) => {
                    self.facts.push(Fact {
                        value: Some(text),
                        ..fact
                    })?;
                    Ok(State::After)
                }
                _ => unexpected("a string", token),
            },
            State::After => self.ended(token),
        };
        Ok(next.map(|state| self.state = state))
    }

    /// After a token where an expression begins.
    fn started(&mut self, token: Token<'a>, may_close: bool) -> Result<State<'a>, CfgFault<'a>> {
        match token {
            Token::Close if may_close => {
                let _group = self.open.pop();
                Ok(State::After)
            }
            Token::Name { name, is_raw } => Ok(match name {
                "all" | "any" if !is_raw => State::Opening(Group::List),
                "not" if !is_raw => State::Opening(Group::Single),
                _ => State::AfterName(Fact {
                    name,
                    is_raw,
                    value: None,
                }),
            }),
            _ => unexpected("an identifier", token),
        }
    }

    /// After a token that stands after an expression.
    fn ended(&mut self, token: Token<'a>) -> Result<State<'a>, CfgFault<'a>> {
        match (token, self.open.last()) {
            (Token::Close, Some(_group)) => {
                let _group = self.open.pop();
                Ok(State::After)
            }
            (Token::Comma, Some(Group::List)) => Ok(State::Start { may_close: true }),
            (_, Some(Group::List)) => unexpected("`,` or `)`", token),
            (_, Some(Group::Single)) => unexpected("`)`", token),
            (_, None) => unexpected("the end", token),
        }
    }

    /// The facts, where the text may end here.
    fn finished(self) -> Result<Result<Vec<Fact<'a>>, CfgFault<'a>>, AllocError> {
        let Reader { state, open, facts } = self;
        let mut facts = facts;
        if let State::AfterName(fact) = state {
            facts.push(fact)?;
        }
        let wanted = match state {
            State::Start { .. } => "the start of an expression",
            State::Opening(_group) => "`(`",
            State::Value(_fact) => "a string",
            _ if !open.is_empty() => "`)`",
            _ => return Ok(Ok(facts)),
        };
        Ok(Err(CfgFault::Incomplete(wanted)))
    }
}

fn unexpected<'a, T>(wanted: &'static str, found: Token<'a>) -> Result<T, CfgFault<'a>> {
    Err(CfgFault::Unexpected { wanted, found })
}

/// What the expression asks of the platform, from left to right; or why the text is no expression.
pub(crate) fn facts(
    alloc: Global,
    text: &str,
) -> Result<Result<Vec<Fact<'_>>, CfgFault<'_>>, AllocError> {
    let mut reader = Reader {
        state: State::Start { may_close: false },
        open: Vec::new(alloc),
        facts: Vec::new(alloc),
    };
    let mut rest = text.trim_start_matches(' ');
    for _token in 0..text.len() {
        if rest.is_empty() {
            break;
        }
        let (token, after) = match split_token(rest) {
            Ok(split) => split,
            Err(fault) => return Ok(Err(fault)),
        };
        if let Err(fault) = reader.read(token)? {
            return Ok(Err(fault));
        }
        rest = after.trim_start_matches(' ');
    }
    reader.finished()
}
