//! What a rule says: at which place, in which words, and what can be written instead.

ghost use Rattle.std.specs.Prelude.{◌≡◌, IfOk, map};
ghost use Rattle.manifest_fault.specs.Faults.{step_of};

use crate::codes::{Code, Level};
use crate::look::Edition;
use crate::words::Nearest;
use manifest_places::{Edit, Step};
use std::alloc::{AllocError, Global};
use std::fmt;
use toml::Value;

/// A step to a value: to the entry of a table, or to the item of an array.
#[derive(Clone, Copy, PartialEq, Eq)]
pub enum At<'a> {
    Key(&'a str),
    Index(usize),
}

/// What of an entry is meant.
#[derive(Clone, Copy, PartialEq, Eq)]
pub enum Part {
    /// The value, and where it has no place of its own its key or its header.
    Value,
    /// The key, and where there is none the header or the value.
    Key,
    /// The header of the table, or its value where it stands inline.
    Header,
}

/// A place in a text.
#[derive(Drop)]
pub enum Spot {
    /// What stands at a key path.
    Path(Vec<Step>, Part),
    /// The bytes from the first offset to the second.
    Bytes(usize, usize),
}

/// The text in which a place is.
#[derive(Clone, Copy, PartialEq, Eq)]
pub enum File {
    /// The manifest itself.
    Own,
    /// The manifest of the workspace's root.
    Root,
    /// The manifest of the member with this index.
    Member(usize),
}

/// A second place, and what is to be said there.
#[derive(Drop)]
pub struct Label {
    pub file: File,
    pub spot: Spot,
    pub text: String,
}

/// What can be written instead.
#[derive(Drop)]
pub struct Suggestion {
    pub text: String,
    /// Edits of the manifest itself.
    pub edits: Vec<Edit>,
    /// Whether the edits mean what was meant, so that a program may make them.
    pub is_certain: bool,
}

/// One thing that a rule says.
#[derive(Drop)]
pub struct Report {
    pub code: Code,
    pub level: Level,
    pub message: String,
    pub spot: Spot,
    pub labels: Vec<Label>,
    pub notes: Vec<String>,
    pub suggestions: Vec<Suggestion>,
}

/// The steps of one path after those of another, in memory of their own.
fn steps(alloc: Global, base: &[At<'_>], rest: &[At<'_>]) -> Result<Vec<Step>, AllocError> {
    let mut path = Vec::new(alloc);
    for at in base {
        path.push(step(alloc, *at)?)?;
    }
    for at in rest {
        path.push(step(alloc, *at)?)?;
    }
    Ok(path)
}

fn step(alloc: Global, at: At<'_>) -> Result<Step, AllocError> {
    match at {
        At::Key(key) => Ok(Step::Key(String::from_str(alloc, key)?)),
        At::Index(index) => Ok(Step::Index(index)),
    }
}

/// A value as it is printed.
pub fn shown<T: fmt::Display>(alloc: Global, value: &T) -> Result<String, AllocError> {
    format!(in alloc; "{value}")
}

/// A text as TOML writes it, in quotes.
pub fn quoted(alloc: Global, text: &str) -> Result<String, AllocError> {
    let value = Value::string(alloc, text)?;
    format!(in alloc; "{value}")
}

/// The first of the words, with the others in the place of each `{}` in it, one after another.
fn filled(alloc: Global, words: &[&str]) -> Result<String, AllocError> {
    let mut text = String::new(alloc);
    let Some((first, others)) = words.split_first() else {
        return Ok(text);
    };
    let mut rest = *first;
    for word in others {
        let Some((before, after)) = rest.split_once("{}") else {
            break;
        };
        text.push_str(before)?;
        text.push_str(*word)?;
        rest = after;
    }
    text.push_str(rest)?;
    Ok(text)
}

/// The same steps, in memory of their own.
pub fn copied(alloc: Global, path: &[Step]) -> Result<Vec<Step>, AllocError>
    ensures { IfOk result (λ steps. map step_of steps.items ≡ map step_of path.now) }
{
    let mut steps = Vec::new(alloc);
    for step in path {
        let copy = copy_of(alloc, step)?;
        steps.push(copy)?;
    }
    Ok(steps)
}

fn copy_of(alloc: Global, step: &Step) -> Result<Step, AllocError>
    ensures { IfOk result (λ s. step_of s ≡ step_of step.now) }
{
    match step {
        Step::Key(key) => Ok(Step::Key(String::from_str(alloc, key.as_str())?)),
        Step::Index(index) => Ok(Step::Index(*index)),
    }
}

/// The same edits, in memory of their own.
pub fn copied_edits(alloc: Global, edits: &[Edit]) -> Result<Vec<Edit>, AllocError> {
    let mut all = Vec::new(alloc);
    for edit in edits {
        all.push(match edit {
            Edit::Set(path, text) => { Edit::Set(copied(alloc, path.as_slice())?, text.clone()?) }
            Edit::Insert(path, text) => {
                Edit::Insert(copied(alloc, path.as_slice())?, text.clone()?)
            }
            Edit::Remove(path) => Edit::Remove(copied(alloc, path.as_slice())?),
            Edit::Rename(path, key) => {
                Edit::Rename(copied(alloc, path.as_slice())?, key.clone()?)
            }
        })?;
    }
    Ok(all)
}

impl Report {
    /// This message, of the code's level, at this place.
    fn new(alloc: Global, code: Code, spot: Spot, message: String) -> Report {
        Report {
            code,
            level: code.level,
            message,
            spot,
            labels: Vec::new(alloc),
            notes: Vec::new(alloc),
            suggestions: Vec::new(alloc),
        }
    }
}

/// The bytes of all messages and paths that are reported of one manifest, at most. A long key above many wrong values
/// stands in the path of each of them, so that without a bound a small manifest could take all memory.
const ROOM: usize = 1 << 28;

/// Where rules say things, of a package of this edition.
///
/// Where memory runs out, nothing more is said, and `finish` returns the error: so a rule needs no `?` where it says something.
#[derive(Drop)]
pub struct Out {
    pub alloc: Global,
    pub edition: Edition,
    reports: Vec<Report>,
    /// How many bytes of messages and paths there is room for.
    room: usize,
    /// Whether there was memory for all of it.
    state: Result<(), AllocError>,
}

/// The bytes of the names in a path.
fn bytes_of(path: &[Step]) -> usize {
    let mut bytes = 0usize;
    for step in path {
        if let Step::Key(key) = step {
            bytes = bytes.saturating_add(key.len());
        }
    }
    bytes
}

impl Out {
    /// Nothing is said yet.
    pub fn new(alloc: Global, edition: Edition) -> Out {
        Out {
            alloc,
            edition,
            reports: Vec::new(alloc),
            room: ROOM,
            state: Ok(()),
        }
    }

    /// All that is said. Out of memory where it ran out on the way.
    pub fn finish(self) -> Result<Vec<Report>, AllocError> {
        self.state?;
        Ok(self.reports)
    }

    /// What was made for a rule, if there was memory for it. If not, nothing more is said.
    pub fn made<T: Drop>(&mut self, made: Result<T, AllocError>) -> Option<T> {
        match made {
            Ok(made) => Some(made),
            Err(error) => {
                self.state = Err(error);
                None
            }
        }
    }

    /// The text that was made for a rule; the empty one if there was no memory for it, after which nothing more is said.
    pub fn text(&mut self, made: Result<String, AllocError>) -> String {
        match made {
            Ok(text) => text,
            Err(error) => {
                self.state = Err(error);
                String::new(self.alloc)
            }
        }
    }

    /// A value as it is printed; the empty text if there was no memory for it.
    pub fn shown<T: fmt::Display>(&mut self, value: &T) -> String {
        let made = shown(self.alloc, value);
        self.text(made)
    }

    /// Keeps why something could not be said.
    fn keep(&mut self, said: Result<(), AllocError>) {
        if said.is_err() {
            self.state = said;
        }
    }

    /// Says this, at the level that its code has in the edition. Out of memory where all that is said takes too much.
    fn tell(&mut self, report: Report) -> Result<(), AllocError> {
        let path = match &report.spot {
            Spot::Path(path, _) => bytes_of(path.as_slice()),
            Spot::Bytes(_, _) => 0,
        };
        let bytes = path.saturating_add(report.message.len());
        let Some(room) = self.room.checked_sub(bytes) else {
            return Err(AllocError);
        };
        self.room = room;
        let mut report = report;
        report.level = report.code.level_in(self.edition);
        self.reports.push(report)?;
        Ok(())
    }

    /// A search for the name that is nearest to a text. Where much is reported already, it finds nothing: that would take
    /// long for a manifest with many wrong names.
    pub fn nearest<'a>(&self, text: &'a str) -> Nearest<'a> {
        if self.reports.len() < 100 && self.state.is_ok() {
            Nearest::to(text)
        } else {
            Nearest::given_up(text)
        }
    }

    /// The nearest of these names to a text.
    pub fn nearest_of<'a>(&mut self, text: &'a str, names: &[&'static str]) -> Option<&'a str> {
        let mut nearest = self.nearest(text);
        for name in names {
            self.offer(&mut nearest, *name);
        }
        nearest.found()
    }

    /// Offers a name to a search for the nearest one.
    pub fn offer<'a>(&mut self, nearest: &mut Nearest<'a>, name: &'a str) {
        let offered = nearest.offer(self.alloc, name);
        self.keep(offered);
    }

    /// Says this, in these words, of a part of what stands at a path: the first is the message, and the others stand in
    /// the place of each `{}` in it.
    pub fn say(
        &mut self,
        code: Code,
        part: Part,
        base: &[At<'_>],
        rest: &[At<'_>],
        words: &[&str],
    ) {
        if self.state.is_ok() {
            self.state = self.try_say(code, part, base, rest, words);
        }
    }

    fn try_say(
        &mut self,
        code: Code,
        part: Part,
        base: &[At<'_>],
        rest: &[At<'_>],
        words: &[&str],
    ) -> Result<(), AllocError> {
        let path = steps(self.alloc, base, rest)?;
        self.say_at(code, Spot::Path(path, part), words)
    }

    /// Says this of the value at a path.
    pub fn value(&mut self, code: Code, base: &[At<'_>], rest: &[At<'_>], words: &[&str]) {
        self.say(code, Part::Value, base, rest, words);
    }

    /// Says this of the key at a path.
    pub fn key(&mut self, code: Code, base: &[At<'_>], rest: &[At<'_>], words: &[&str]) {
        self.say(code, Part::Key, base, rest, words);
    }

    /// Says this of the header of the table at a path, as something is missing in it.
    pub fn header(&mut self, code: Code, base: &[At<'_>], rest: &[At<'_>], words: &[&str]) {
        self.say(code, Part::Header, base, rest, words);
    }

    /// Says this of the bytes of the text from the first offset to the second.
    pub fn bytes(&mut self, code: Code, start: usize, end: usize, words: &[&str]) {
        if self.state.is_ok() {
            self.state = self.say_at(code, Spot::Bytes(start, end), words);
        }
    }

    fn say_at(&mut self, code: Code, spot: Spot, words: &[&str]) -> Result<(), AllocError> {
        let message = filled(self.alloc, words)?;
        self.tell(Report::new(self.alloc, code, spot, message))
    }

    /// Of what was said last: it has another level than its code.
    pub fn at_level(&mut self, level: Level) {
        if let Some(last) = self.reports.last_mut() {
            last.level = level;
        }
    }

    /// Of what was said last: one more note.
    pub fn note(&mut self, words: &[&str]) {
        if self.state.is_ok() {
            self.state = self.try_note(words);
        }
    }

    fn try_note(&mut self, words: &[&str]) -> Result<(), AllocError> {
        let note = filled(self.alloc, words)?;
        if let Some(last) = self.reports.last_mut() {
            last.notes.push(note)?;
        }
        Ok(())
    }

    /// Of what was said last: one more place, and these words there.
    pub fn label(
        &mut self,
        file: File,
        part: Part,
        base: &[At<'_>],
        rest: &[At<'_>],
        words: &[&str],
    ) {
        if self.state.is_ok() {
            self.state = self.try_label(file, part, base, rest, words);
        }
    }

    fn try_label(
        &mut self,
        file: File,
        part: Part,
        base: &[At<'_>],
        rest: &[At<'_>],
        words: &[&str],
    ) -> Result<(), AllocError> {
        let spot = Spot::Path(steps(self.alloc, base, rest)?, part);
        let text = filled(self.alloc, words)?;
        if let Some(last) = self.reports.last_mut() {
            last.labels.push(Label { file, spot, text })?;
        }
        Ok(())
    }

    /// Of what was said last: words of what can be written, and no edit.
    pub fn help(&mut self, words: &[&str]) {
        if self.state.is_ok() {
            self.state = self.suggest(Vec::new(self.alloc), false, words);
        }
    }

    /// Of what was said last: what is at a path can have this key.
    pub fn rename(
        &mut self,
        base: &[At<'_>],
        rest: &[At<'_>],
        key: &str,
        is_certain: bool,
        words: &[&str],
    ) {
        let edit = renaming(self.alloc, base, rest, key);
        self.suggest_edit(edit, is_certain, words);
    }

    /// Of what was said last: this can be written as the value at a path.
    pub fn set(
        &mut self,
        base: &[At<'_>],
        rest: &[At<'_>],
        value: &[&str],
        is_certain: bool,
        words: &[&str],
    ) {
        let edit = setting(self.alloc, base, rest, value);
        self.suggest_edit(edit, is_certain, words);
    }

    /// Of what was said last: this text can be written, in quotes, at a path.
    pub fn set_text(
        &mut self,
        base: &[At<'_>],
        rest: &[At<'_>],
        text: &str,
        is_certain: bool,
        words: &[&str],
    ) {
        let edit = setting_text(self.alloc, base, rest, text);
        self.suggest_edit(edit, is_certain, words);
    }

    /// Of what was said last: this text can be inserted, in quotes, at a path.
    pub fn insert_text(
        &mut self,
        base: &[At<'_>],
        rest: &[At<'_>],
        text: &str,
        is_certain: bool,
        words: &[&str],
    ) {
        let edit = inserting_text(self.alloc, base, rest, text);
        self.suggest_edit(edit, is_certain, words);
    }

    /// Of what was said last: what is at a path can be removed.
    pub fn remove(&mut self, base: &[At<'_>], rest: &[At<'_>], is_certain: bool, words: &[&str]) {
        let edit = removing(self.alloc, base, rest);
        self.suggest_edit(edit, is_certain, words);
    }

    fn suggest_edit(&mut self, edit: Result<Edit, AllocError>, is_certain: bool, words: &[&str]) {
        if self.state.is_ok() {
            self.state = self.try_suggest(edit, is_certain, words);
        }
    }

    fn try_suggest(
        &mut self,
        edit: Result<Edit, AllocError>,
        is_certain: bool,
        words: &[&str],
    ) -> Result<(), AllocError> {
        let mut edits = Vec::new(self.alloc);
        edits.push(edit?)?;
        self.suggest(edits, is_certain, words)
    }

    fn suggest(
        &mut self,
        edits: Vec<Edit>,
        is_certain: bool,
        words: &[&str],
    ) -> Result<(), AllocError> {
        let text = filled(self.alloc, words)?;
        let suggestion = Suggestion {
            text,
            edits,
            is_certain,
        };
        if let Some(last) = self.reports.last_mut() {
            last.suggestions.push(suggestion)?;
        }
        Ok(())
    }
}

fn renaming(
    alloc: Global,
    base: &[At<'_>],
    rest: &[At<'_>],
    key: &str,
) -> Result<Edit, AllocError> {
    let path = steps(alloc, base, rest)?;
    Ok(Edit::Rename(path, String::from_str(alloc, key)?))
}

fn setting(
    alloc: Global,
    base: &[At<'_>],
    rest: &[At<'_>],
    value: &[&str],
) -> Result<Edit, AllocError> {
    let path = steps(alloc, base, rest)?;
    Ok(Edit::Set(path, filled(alloc, value)?))
}

fn setting_text(
    alloc: Global,
    base: &[At<'_>],
    rest: &[At<'_>],
    text: &str,
) -> Result<Edit, AllocError> {
    let path = steps(alloc, base, rest)?;
    Ok(Edit::Set(path, quoted(alloc, text)?))
}

fn inserting_text(
    alloc: Global,
    base: &[At<'_>],
    rest: &[At<'_>],
    text: &str,
) -> Result<Edit, AllocError> {
    let path = steps(alloc, base, rest)?;
    Ok(Edit::Insert(path, quoted(alloc, text)?))
}

fn removing(alloc: Global, base: &[At<'_>], rest: &[At<'_>]) -> Result<Edit, AllocError> {
    Ok(Edit::Remove(steps(alloc, base, rest)?))
}
