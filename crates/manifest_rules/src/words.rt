//! The words that rules share: names, versions, URLs and package ids, and the name that is nearest to another.

ghost use Rattle.std.specs.Prelude.{◌≤◌};

use crate::codes::Code;
use crate::report::{At, Out, Part};
use semver::{Op, Version, VersionReq};
use std::alloc::{AllocError, Global};
use std::fmt;
use url::{ParseError, Url};

/// A kind of words.
#[derive(Clone, Copy, PartialEq, Eq)]
pub enum Word {
    /// A name of a package, of a dependency or of a registry.
    Name,
    Feature,
    Profile,
}

/// What is wrong with a word.
#[derive(Clone, Copy)]
pub enum WordFault {
    Empty,
    /// It may not begin with this character.
    First(char),
    /// It may not hold this character.
    Other(char),
}

impl Word {
    /// Whether such a word may begin with the character.
    fn may_begin(self, ch: char) -> bool {
        match self {
            Word::Name => unicode_ident::is_xid_start(ch) || ch == '_',
            Word::Feature => unicode_ident::is_xid_start(ch) || ch == '_' || ch.is_ascii_digit(),
            Word::Profile => self.may_hold(ch),
        }
    }

    /// Whether such a word may hold the character after its first one.
    fn may_hold(self, ch: char) -> bool {
        match self {
            Word::Name => unicode_ident::is_xid_continue(ch) || ch == '-',
            Word::Feature => unicode_ident::is_xid_continue(ch) || matches!(ch, '-' | '+' | '.'),
            Word::Profile => ch.is_alphanumeric() || ch == '_' || ch == '-',
        }
    }

    /// What is wrong with the text; nothing where it is such a word.
    pub fn fault(self, text: &str) -> Option<WordFault> {
        let mut is_first = true;
        for ch in text.chars() {
            if is_first && !self.may_begin(ch) {
                return Some(WordFault::First(ch));
            }
            if !is_first && !self.may_hold(ch) {
                return Some(WordFault::Other(ch));
            }
            is_first = false;
        }
        if is_first && self != Word::Profile {
            return Some(WordFault::Empty);
        }
        None
    }

    /// Of what such a word is made.
    pub fn rule(self) -> &'static str {
        match self {
            Word::Name => {
                "a name begins with a letter or `_`; letters, digits, `_` and `-` may follow"
            }
            Word::Feature => {
                "a feature begins with a letter, a digit or `_`; letters, digits, `_`, `-`, `+` and `.` may follow"
            }
            Word::Profile => "a profile is named by letters, digits, `_` and `-`",
        }
    }
}

/// What is wrong with a name of a package or of a dependency, whose parts stand between `::`.
pub fn name_fault(name: &str) -> Option<WordFault> {
    for part in name.split("::") {
        let fault = Word::Name.fault(part);
        if fault.is_some() {
            return fault;
        }
    }
    None
}

/// A word that is wrong.
#[derive(Clone, Copy)]
pub struct WrongWord<'a> {
    /// The kind of it, as "package name".
    pub what: &'a str,
    pub word: &'a str,
    pub fault: WordFault,
}

/// Says what is wrong with the word that stands there.
pub fn say_wrong_word(
    code: Code,
    part: Part,
    base: &[At<'_>],
    rest: &[At<'_>],
    wrong: &WrongWord<'_>,
    out: &mut Out,
) {
    let WrongWord { what, word, fault } = *wrong;
    match fault {
        WordFault::Empty if word.is_empty() => {
            out.say(code, part, base, rest, &["{} cannot be empty", what]);
        }
        WordFault::Empty => {
            let words = ["empty part in {} `{}`", what, word];
            out.say(code, part, base, rest, &words);
        }
        WordFault::First(ch) => {
            let ch = out.shown(&ch);
            let before = "` cannot begin with the character `";
            let words = ["{} `{}{}{}`", what, word, before, ch.as_str()];
            out.say(code, part, base, rest, &words);
        }
        WordFault::Other(ch) => {
            let ch = out.shown(&ch);
            let words = ["invalid character `{}` in {} `{}`", ch.as_str(), what, word];
            out.say(code, part, base, rest, &words);
        }
    }
}

/// The fault of a version or of a requirement, or that memory ran out.
fn unless_out_of_memory(fault: semver::Error) -> Result<semver::Error, AllocError> {
    if fault == semver::Error::from(AllocError) {
        return Err(AllocError);
    }
    Ok(fault)
}

/// Why the text is no whole version; nothing where it is one.
pub fn version_fault(alloc: Global, text: &str) -> Result<Option<semver::Error>, AllocError> {
    match Version::parse(alloc, text) {
        Ok(_version) => Ok(None),
        Err(fault) => Ok(Some(unless_out_of_memory(fault)?)),
    }
}

/// Why the text is no requirement of versions; nothing where it is one.
pub fn requirement_fault(alloc: Global, text: &str) -> Result<Option<semver::Error>, AllocError> {
    match VersionReq::parse(alloc, text) {
        Ok(_requirement) => Ok(None),
        Err(fault) => Ok(Some(unless_out_of_memory(fault)?)),
    }
}

/// Why Cargo takes a text for no URL.
#[derive(Clone, Copy)]
pub enum UrlFault {
    NoUrl(ParseError),
    /// Nothing can stand below it, as in `a:b`.
    NoBase,
}

impl fmt::Display for UrlFault {
    fn fmt<W: fmt::Write>(&self, f: &mut fmt::Formatter<W>) -> fmt::Result {
        match self {
            UrlFault::NoUrl(fault) => write!(f, "{fault}"),
            UrlFault::NoBase => f.write_str("cannot-be-a-base-URLs are not supported"),
        }
    }
}

/// The URL of a text, or why it is invalid.
fn url_of(alloc: Global, text: &str) -> Result<Result<Url, ParseError>, AllocError> {
    match Url::parse(alloc, text) {
        Ok(url) => Ok(Ok(url)),
        Err(ParseError::OutOfMemory) => Err(AllocError),
        Err(fault) => Ok(Err(fault)),
    }
}

/// Why Cargo takes the text for no URL; nothing where it does.
pub fn url_fault(alloc: Global, text: &str) -> Result<Option<UrlFault>, AllocError> {
    match url_of(alloc, text)? {
        Ok(url) if url.cannot_be_a_base() => Ok(Some(UrlFault::NoBase)),
        Ok(_url) => Ok(None),
        Err(fault) => Ok(Some(UrlFault::NoUrl(fault))),
    }
}

/// The version of a package id.
#[derive(Clone, Copy)]
pub enum IdVersion {
    Absent,
    /// As `1` or `1.2`.
    Part,
    /// As `1.2.3`.
    Whole,
}

/// The version of a [package id](https://doc.rust-lang.org/cargo/reference/pkgid-spec.html), as `name`, `name@1.2`
/// or `url#name@1.2.3`; nothing where the text is not one.
pub fn package_id(alloc: Global, text: &str) -> Result<Option<IdVersion>, AllocError> {
    if text.contains("://") {
        if let Ok(url) = url_of(alloc, text)? {
            return id_by_url(alloc, &url);
        }
    }
    id_by_name(alloc, text)
}

/// The version of an id by a name.
fn id_by_name(alloc: Global, text: &str) -> Result<Option<IdVersion>, AllocError> {
    let (name, version) = match split_id(text) {
        Some((name, version)) => (name, partial_version(alloc, version)?),
        None => (text, Some(IdVersion::Absent)),
    };
    Ok(version.filter(|_version| name_fault(name).is_none()))
}

/// A name and the version after it, as in `name@1.2` and `name:1.2`.
fn split_id(text: &str) -> Option<(&str, &str)> {
    let at = text.rsplit_once('@');
    if at.is_some() {
        return at;
    }
    let (name, version) = text.rsplit_once(':')?;
    if name.ends_with(':') {
        return None;
    }
    Some((name, version))
}

/// How much of a version the text is: all of it, or its first one or two numbers.
fn partial_version(alloc: Global, text: &str) -> Result<Option<IdVersion>, AllocError> {
    if version_fault(alloc, text)?.is_none() {
        return Ok(Some(IdVersion::Whole));
    }
    if text.starts_with('^') {
        return Ok(None);
    }
    let requirement = match VersionReq::parse(alloc, text) {
        Ok(requirement) => requirement,
        Err(fault) => {
            let _fault = unless_out_of_memory(fault)?;
            return Ok(None);
        }
    };
    match requirement.comparators.as_slice() {
        [only] if only.op == Op::Caret && only.patch.is_some() => Ok(Some(IdVersion::Whole)),
        [only] if only.op == Op::Caret => Ok(Some(IdVersion::Part)),
        _ => Ok(None),
    }
}

/// The version of an id by a URL, of which the kind of the source may stand before it, as in `git+https://host/path`.
fn id_by_url(alloc: Global, url: &Url) -> Result<Option<IdVersion>, AllocError> {
    let Some((kind, scheme)) = url.scheme().split_once('+') else {
        if url.query().is_some() {
            return Ok(None);
        }
        return id_by_bare_url(alloc, url);
    };
    let is_taken = match kind {
        "git" => true,
        "registry" => url.query().is_none(),
        "path" => url.query().is_none() && scheme == "file",
        "sparse" => url.query().is_none(),
        _ => false,
    };
    if !is_taken {
        return Ok(None);
    }
    if kind == "sparse" {
        return id_by_bare_url(alloc, url);
    }
    let Some((_kind, bare)) = url.as_str().split_once('+') else {
        return Ok(None);
    };
    match url_of(alloc, bare)? {
        Ok(bare) => id_by_bare_url(alloc, &bare),
        Err(_fault) => Ok(None),
    }
}

/// The same without the kind before it: the name is that of the fragment, or the last part of the path.
fn id_by_bare_url(alloc: Global, url: &Url) -> Result<Option<IdVersion>, AllocError> {
    let Some((_folder, last)) = url.path().rsplit_once('/') else {
        return Ok(None);
    };
    let Some(fragment) = url.fragment() else {
        return id_without_version(last);
    };
    if split_id(fragment).is_some() {
        return id_by_name(alloc, fragment);
    }
    match fragment.chars().next() {
        Some(first) if first.is_alphabetic() => id_without_version(fragment),
        Some(_first) if name_fault(last).is_none() => partial_version(alloc, fragment),
        _ => Ok(None),
    }
}

/// The same for a name that has no version.
fn id_without_version(name: &str) -> Result<Option<IdVersion>, AllocError> {
    if name_fault(name).is_some() {
        return Ok(None);
    }
    Ok(Some(IdVersion::Absent))
}

/// How many edits away a name may be that is meant instead: a third of its characters, and three at most.
fn reach(text: &str) -> usize
    ensures { result ≤ 3 }
{
    match text.chars().count() / 3 {
        0 => 0,
        1 => 1,
        2 => 2,
        _ => 3,
    }
}

/// How many names are compared with one text at most.
const NAMES_AT_MOST: usize = 1000;

/// The search for the name that is nearest to a text, for "did you mean".
#[derive(Drop)]
pub struct Nearest<'a> {
    text: &'a str,
    /// How many edits lead to the best name; one more than may be, where there is none.
    distance: usize,
    best: Option<&'a str>,
    /// How many more names are compared.
    left: usize,
}

impl<'a> Nearest<'a> {
    /// A search with no names yet. It finds nothing for a text that is very long.
    pub fn to(text: &'a str) -> Nearest<'a> {
        Nearest {
            text,
            distance: reach(text).saturating_add(1),
            best: None,
            left: if text.len() <= 64 { NAMES_AT_MOST } else { 0 },
        }
    }

    /// A search that finds nothing, for where too many were made.
    pub fn given_up(text: &'a str) -> Nearest<'a> {
        Nearest {
            text,
            distance: 0,
            best: None,
            left: 0,
        }
    }

    /// Takes the name if it is nearer than those before.
    pub fn offer(&mut self, alloc: Global, name: &'a str) -> Result<(), AllocError> {
        // A character has four bytes at most.
        let is_far = name.len().abs_diff(self.text.len()) / 4 >= self.distance;
        if self.left == 0 || is_far || name == self.text {
            return Ok(());
        }
        self.left = self.left.saturating_sub(1);
        let distance = strsim::osa_distance(alloc, self.text, name)?;
        if distance < self.distance {
            self.distance = distance;
            self.best = Some(name);
        }
        Ok(())
    }

    /// The nearest name, where one is near.
    pub fn found(&self) -> Option<&'a str> {
        self.best
    }
}
