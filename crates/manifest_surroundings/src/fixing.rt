//! Suggestions that are certain, made in a manifest.

use crate::files::document_of;
use crate::judging::{Placed, State, judge, place};
use crate::scope::Scope;
use manifest_json::Text;
use manifest_lint::{Diagnostic, Fix};
use manifest_places::{Edit, EditError, Edited, Step, with_edits};
use manifest_rules::{Level, copied_edits};
use std::alloc::{AllocError, Global};
use std::collections::BTreeMap;
use std::rt::Files;

/// How often suggestions are made of a manifest that the ones before have changed.
const ROUNDS: usize = 16;

/// How often a manifest is tried with suggestions, at most. One that has to be left out is found by halves, so that among a
/// thousand it takes some twenty tries.
const MOST_TRIES: usize = 256;

/// The bytes that may be read in all tries of a manifest, which a long one has used up earlier.
const MOST_READ: usize = 64 << 20;

/// How often a manifest of this text is tried: each round once, even if the text is long.
fn most_tries(text: &str) -> usize {
    match MOST_READ.checked_div(text.len()) {
        Some(count) => count.min(MOST_TRIES).max(ROUNDS),
        None => MOST_TRIES,
    }
}

/// A suggestion that is left out. Its edits alone would not do: an item that is removed gives its index to the next one.
#[derive(Drop)]
struct Refused {
    /// That of its diagnostic.
    message: String,
    edits: Vec<Edit>,
}

/// A manifest with suggestions made.
#[derive(Drop)]
pub struct Fixed {
    pub placed: Placed,
    pub diagnostics: Vec<Diagnostic>,
    /// Its text.
    pub text: String,
    /// How many were made.
    pub made: usize,
    /// Those that are left out, since they would have made new errors or cannot be made.
    refused: Vec<Refused>,
    /// How often the manifest may still be tried.
    tries: usize,
    /// Whether there are suggestions that were not tried any more.
    pub has_given_up: bool,
}

impl Fixed {
    /// Whether suggestions are left out.
    pub fn is_refused(&self) -> bool {
        !self.refused.is_empty()
    }

    /// Its text, where suggestions were made.
    pub fn changed_text(self) -> Option<String> {
        if self.made > 0 { Some(self.text) } else { None }
    }

    /// Whether this suggestion of a diagnostic is one of those that are left out.
    fn is_left_out(&self, diagnostic: &Diagnostic, fix: &Fix) -> bool {
        let message = diagnostic.message.as_str();
        let edits = fix.edits.as_slice();
        self.refused.iter().any(|one| one.message.as_str() == message
            && one.edits.as_slice() == edits)
    }
}

/// The ranges that a suggestion replaces, from the first byte to the last; the first is after the last where they are not
/// known.
fn reach(fix: &Fix) -> (usize, usize) {
    let mut from = usize::MAX;
    let mut to = 0usize;
    for splice in &fix.replaced {
        from = from.min(splice.from);
        to = to.max(splice.to);
    }
    (from, to)
}

/// A suggestion of a list of diagnostics: its place in the list, and where it replaces something.
#[derive(Clone, Copy)]
struct Choice {
    diagnostic: usize,
    fix: usize,
    from: usize,
    to: usize,
}

/// The first suggestion of a diagnostic that is certain, and that is not left out.
fn certain_fix<'a>(fixed: &Fixed, diagnostic: &'a Diagnostic) -> Option<(usize, &'a Fix)> {
    for (index, fix) in diagnostic.fixes.iter().enumerate() {
        if fix.is_certain && !fix.edits.is_empty() && !fixed.is_left_out(diagnostic, fix) {
            return Some((index, fix));
        }
    }
    None
}

/// The suggestions that are certain, by where they begin; those of which that is not known come last.
fn certain(alloc: Global, fixed: &Fixed) -> Result<Vec<Choice>, AllocError> {
    let mut all = Vec::new(alloc);
    for (index, diagnostic) in fixed.diagnostics.iter().enumerate() {
        if let Some((fix, suggestion)) = certain_fix(fixed, diagnostic) {
            let (from, to) = reach(suggestion);
            all.push(Choice {
                diagnostic: index,
                fix,
                from,
                to,
            })?;
        }
    }
    all.sort_by_key(|choice| (choice.from, choice.to))?;
    Ok(all)
}

/// Suggestions that are certain and, as far as that is known, do not touch one another, from the beginning of the text to
/// its end.
fn chosen(alloc: Global, fixed: &Fixed) -> Result<Vec<Choice>, AllocError> {
    let mut chosen = Vec::new(alloc);
    let mut last = 0usize;
    for choice in &certain(alloc, fixed)? {
        let is_known = choice.from <= choice.to;
        if !is_known || chosen.is_empty() || choice.from > last {
            chosen.push(*choice)?;
        }
        if is_known {
            last = last.max(choice.to);
        }
    }
    Ok(chosen)
}

/// A suggestion, and the diagnostic that it is of.
fn suggestion<'a>(
    diagnostics: &'a [Diagnostic],
    choice: &Choice,
) -> Option<(&'a Diagnostic, &'a Fix)> {
    let diagnostic = diagnostics.get(choice.diagnostic)?;
    let fix = diagnostic.fixes.get(choice.fix)?;
    Some((diagnostic, fix))
}

/// Gathers the edits of a suggestion.
fn push_edits(alloc: Global, edits: &mut Vec<Edit>, fix: &Fix) -> Result<(), AllocError> {
    for edit in copied_edits(alloc, fix.edits.as_slice())? {
        edits.push(edit)?;
    }
    Ok(())
}

/// The edits of these suggestions.
fn all_edits(
    alloc: Global,
    diagnostics: &[Diagnostic],
    choices: &[Choice],
) -> Result<Vec<Edit>, AllocError> {
    let mut edits = Vec::new(alloc);
    for choice in choices {
        if let Some((_, fix)) = suggestion(diagnostics, choice) {
            push_edits(alloc, &mut edits, fix)?;
        }
    }
    Ok(edits)
}

/// The errors that are reported: how many there are, and how many of each message and at each place.
#[derive(Drop)]
struct Errors {
    count: usize,
    of_messages: BTreeMap<String, usize>,
    of_places: BTreeMap<String, usize>,
}

/// An error by its code and its message.
fn by_message(alloc: Global, diagnostic: &Diagnostic) -> Result<String, AllocError> {
    let mut name = Text::new(alloc);
    name.push_str(diagnostic.code.name);
    name.push(' ');
    name.push_str(diagnostic.message.as_str());
    name.finish()
}

/// An error by its code and its key path, which is the same whatever the spelling of the keys is. A message can name the key
/// as it is written, so that the same error has another one after the key is renamed.
fn by_place(alloc: Global, diagnostic: &Diagnostic) -> Result<String, AllocError> {
    let mut name = Text::new(alloc);
    name.push_str(diagnostic.code.name);
    for step in &diagnostic.path.steps {
        name.push(' ');
        match step {
            Step::Key(key) if key.as_str() == "project" => name.push_str("package"),
            Step::Key(key) => {
                for ch in key.chars() {
                    name.push(if ch == '_' { '-' } else { ch });
                }
            },
            Step::Index(index) => name.push_number(*index),
        }
    }
    name.finish()
}

fn count_one(counts: &mut BTreeMap<String, usize>, name: String) -> Result<(), AllocError> {
    let count = counts.entry(name)?.or_insert(0usize);
    *count = count.saturating_add(1);
    Ok(())
}

/// Whether there is one more of this name, which then counts no more.
fn takes_one(counts: &mut BTreeMap<String, usize>, name: &str) -> bool {
    match counts.get_mut(name) {
        Some(count) if *count > 0 => {
            *count = count.saturating_sub(1);
            true
        },
        _ => false,
    }
}

impl Errors {
    /// Counts an error.
    fn add(&mut self, alloc: Global, diagnostic: &Diagnostic) -> Result<(), AllocError> {
        self.count = self.count.saturating_add(1);
        count_one(&mut self.of_messages, by_message(alloc, diagnostic)?)?;
        count_one(&mut self.of_places, by_place(alloc, diagnostic)?)
    }

    /// Whether there is one more error with the message of this one, which then counts no more.
    fn takes_message(
        &mut self,
        alloc: Global,
        diagnostic: &Diagnostic,
    ) -> Result<bool, AllocError> {
        let message = by_message(alloc, diagnostic)?;
        Ok(takes_one(&mut self.of_messages, message.as_str()))
    }

    /// Whether there is one more error at the place of this one, which then counts no more.
    fn takes_place(&mut self, alloc: Global, diagnostic: &Diagnostic) -> Result<bool, AllocError> {
        let place = by_place(alloc, diagnostic)?;
        Ok(takes_one(&mut self.of_places, place.as_str()))
    }
}

fn errors_of(alloc: Global, diagnostics: &[Diagnostic]) -> Result<Errors, AllocError> {
    let mut errors = Errors {
        count: 0,
        of_messages: BTreeMap::new(alloc),
        of_places: BTreeMap::new(alloc),
    };
    for diagnostic in diagnostics {
        if diagnostic.level == Level::Error {
            errors.add(alloc, diagnostic)?;
        }
    }
    Ok(errors)
}

/// Whether there is an error after a change that was not there before it: one more than there were, or one that is neither
/// by its message nor by its place one of them.
fn has_new_error(
    alloc: Global,
    before: &[Diagnostic],
    after: &[Diagnostic],
) -> Result<bool, AllocError> {
    let mut old = errors_of(alloc, before)?;
    let mut count = 0usize;
    for diagnostic in after {
        if diagnostic.level != Level::Error {
            continue;
        }
        count = count.saturating_add(1);
        let has_message = old.takes_message(alloc, diagnostic)?;
        let has_place = old.takes_place(alloc, diagnostic)?;
        if !has_message && !has_place || count > old.count {
            return Ok(true);
        }
    }
    Ok(false)
}

/// The text with these edits made; `None` where they cannot be made.
fn edited(alloc: Global, text: &str, edits: Vec<Edit>) -> Result<Option<String>, AllocError> {
    match with_edits(alloc, text, edits) {
        Ok(Edited { text, .. }) => Ok(Some(text)),
        Err(EditError::Memory) => Err(AllocError),
        Err(_) => Ok(None),
    }
}

/// A manifest to be mended: where it is, and how it is judged.
#[derive(Clone, Copy)]
struct Task<'a> {
    scope: &'a Scope,
    path: &'a str,
}

/// What comes of some suggestions.
#[derive(Drop)]
enum Outcome {
    /// The text with them.
    Fine(String),
    /// There is an error that was not there.
    NewError,
    /// They cannot be made, or not together.
    NotMade,
}

/// What is said of a manifest with this text; `None` where the text is no document.
fn judged<H: Files + AllocGlobal + Clone + Drop>(
    rt: &H,
    task: &Task<'_>,
    state: &mut State,
    text: &str,
) -> Result<Option<Vec<Diagnostic>>, AllocError> {
    let Some(document) = document_of(rt.alloc(), text.as_bytes())? else {
        return Ok(None);
    };
    let placed = place(rt, task.scope, state, task.path, document)?;
    let found = judge(rt, task.scope, state, task.path, &placed, false)?;
    Ok(Some(found))
}

/// Whether there is an error in this text that was not there before; `None` where the text is no document.
fn makes_error<H: Files + AllocGlobal + Clone + Drop>(
    rt: &H,
    task: &Task<'_>,
    state: &mut State,
    before: &[Diagnostic],
    text: &str,
) -> Result<Option<bool>, AllocError> {
    let Some(after) = judged(rt, task, state, text)? else {
        return Ok(None);
    };
    Ok(Some(has_new_error(rt.alloc(), before, after.as_slice())?))
}

/// What comes of these suggestions together.
fn outcome_of<H: Files + AllocGlobal + Clone + Drop>(
    rt: &H,
    task: &Task<'_>,
    state: &mut State,
    fixed: &Fixed,
    choices: &[Choice],
) -> Result<Outcome, AllocError> {
    let alloc = rt.alloc();
    let before = fixed.diagnostics.as_slice();
    let edits = all_edits(alloc, before, choices)?;
    let Some(text) = edited(alloc, fixed.text.as_str(), edits)? else {
        return Ok(Outcome::NotMade);
    };
    Ok(match makes_error(rt, task, state, before, text.as_str())? {
        Some(false) => Outcome::Fine(text),
        Some(true) => Outcome::NewError,
        None => Outcome::NotMade,
    })
}

/// A round of suggestions.
#[derive(Drop)]
struct Round<'a> {
    /// Those that are fine together.
    kept: Vec<Choice>,
    /// The text with them; `None` where there are none.
    best: Option<String>,
    /// Those that are still to be tried, the next ones last.
    waiting: Vec<&'a [Choice]>,
}

/// A suggestion of a diagnostic, as one that is left out.
fn refused_of(alloc: Global, diagnostic: &Diagnostic, fix: &Fix) -> Result<Refused, AllocError> {
    let edits = copied_edits(alloc, fix.edits.as_slice())?;
    Ok(Refused {
        message: diagnostic.message.clone()?,
        edits,
    })
}

/// Leaves a suggestion out from now on.
fn refuse(alloc: Global, fixed: &mut Fixed, choice: &Choice) -> Result<(), AllocError> {
    if let Some((diagnostic, fix)) = suggestion(fixed.diagnostics.as_slice(), choice) {
        fixed.refused.push(refused_of(alloc, diagnostic, fix)?)?;
    }
    Ok(())
}

/// Those that are kept, and these.
fn with_part(alloc: Global, kept: &[Choice], part: &[Choice]) -> Result<Vec<Choice>, AllocError> {
    let mut choices = Vec::from_slice(alloc, kept)?;
    for choice in part {
        choices.push(*choice)?;
    }
    Ok(choices)
}

/// Tries some suggestions together with those that are kept. Where that fails, each half of them is to be tried, and one by
/// itself is left out; but one that only cannot be made together with those that are kept may be made in a later round.
fn try_part<'a, H: Files + AllocGlobal + Clone + Drop>(
    rt: &H,
    task: &Task<'_>,
    state: &mut State,
    fixed: &mut Fixed,
    round: &mut Round<'a>,
    part: &'a [Choice],
) -> Result<(), AllocError> {
    let choices = with_part(rt.alloc(), round.kept.as_slice(), part)?;
    let outcome = outcome_of(rt, task, state, fixed, choices.as_slice())?;
    let is_made = !matches!(&outcome, Outcome::NotMade);
    if let Outcome::Fine(text) = outcome {
        round.kept = choices;
        round.best = Some(text);
        return Ok(());
    }
    leave_out(rt.alloc(), fixed, round, part, is_made)
}

/// Leaves a suggestion out that fails by itself; of some that fail, each half is to be tried.
fn leave_out<'a>(
    alloc: Global,
    fixed: &mut Fixed,
    round: &mut Round<'a>,
    part: &'a [Choice],
    is_made: bool,
) -> Result<(), AllocError> {
    if let [choice] = part {
        if is_made || round.kept.is_empty() {
            refuse(alloc, fixed, choice)?;
        }
        return Ok(());
    }
    let (front, back) = part.split_at(part.len() / 2);
    round.waiting.push(back)?;
    round.waiting.push(front)?;
    Ok(())
}

/// Tries these suggestions: all together first, so that a manifest of which all are fine is judged once.
fn try_all<'a, H: Files + AllocGlobal + Clone + Drop>(
    rt: &H,
    task: &Task<'_>,
    state: &mut State,
    fixed: &mut Fixed,
    choices: &'a [Choice],
) -> Result<Round<'a>, AllocError> {
    let alloc = rt.alloc();
    let mut round = Round {
        kept: Vec::new(alloc),
        best: None,
        waiting: Vec::new(alloc),
    };
    round.waiting.push(choices)?;
    try_waiting(rt, task, state, fixed, &mut round)?;
    Ok(round)
}

/// Tries the suggestions that are still to be tried, as often as the manifest may be tried.
fn try_waiting<'a, H: Files + AllocGlobal + Clone + Drop>(
    rt: &H,
    task: &Task<'_>,
    state: &mut State,
    fixed: &mut Fixed,
    round: &mut Round<'a>,
) -> Result<(), AllocError> {
    for _ in 0..fixed.tries {
        let Some(part) = round.waiting.pop() else {
            return Ok(());
        };
        fixed.tries = fixed.tries.saturating_sub(1);
        try_part(rt, task, state, fixed, round, part)?;
    }
    fixed.has_given_up = !round.waiting.is_empty();
    Ok(())
}

/// Puts those suggestions into the text that are fine together. It says whether there are some; `None` where none is to be
/// tried.
fn make_best<H: Files + AllocGlobal + Clone + Drop>(
    rt: &H,
    task: &Task<'_>,
    state: &mut State,
    fixed: &mut Fixed,
) -> Result<Option<bool>, AllocError> {
    let choices = chosen(rt.alloc(), fixed)?;
    if choices.is_empty() {
        return Ok(None);
    }
    let Round {
        kept,
        best,
        waiting: _,
    } = try_all(rt, task, state, fixed, choices.as_slice())?;
    let is_changed = best.is_some();
    if let Some(text) = best {
        fixed.text = text;
        fixed.made = fixed.made.saturating_add(kept.len());
    }
    Ok(Some(is_changed))
}

/// Makes one round of suggestions. It says whether there may be more.
fn fix_once<H: Files + AllocGlobal + Clone + Drop>(
    rt: &H,
    task: &Task<'_>,
    state: &mut State,
    fixed: &mut Fixed,
) -> Result<bool, AllocError> {
    let Some(is_changed) = make_best(rt, task, state, fixed)? else {
        return Ok(false);
    };
    // (what is kept of a root is the document that was tried last)
    let Some(document) = document_of(rt.alloc(), fixed.text.as_bytes())? else {
        return Ok(false);
    };
    fixed.placed = place(rt, task.scope, state, task.path, document)?;
    if is_changed {
        fixed.diagnostics = judge(rt, task.scope, state, task.path, &fixed.placed, true)?;
    }
    Ok(is_changed)
}

/// Makes the suggestions that are certain, and looks at the manifest anew each time, until there are none left. Those that
/// cannot be made, or would make an error that was not there, are left out.
pub fn with_fixes<H: Files + AllocGlobal + Clone + Drop>(
    rt: &H,
    scope: &Scope,
    state: &mut State,
    path: &str,
    text: String,
    placed: Placed,
    diagnostics: Vec<Diagnostic>,
) -> Result<Fixed, AllocError> {
    let alloc = rt.alloc();
    let mut fixed = Fixed {
        placed,
        diagnostics,
        tries: most_tries(text.as_str()),
        text,
        made: 0,
        refused: Vec::new(alloc),
        has_given_up: false,
    };
    let task = Task { scope, path };
    for _ in 0..ROUNDS {
        if !fix_once(rt, &task, state, &mut fixed)? {
            return Ok(fixed);
        }
    }
    fixed.has_given_up = !chosen(alloc, &fixed)?.is_empty();
    Ok(fixed)
}
