//! Which folders are asked while a manifest is completed, or its declared targets are looked for, and what is answered
//! where one question is refused, or where the folders change.

use crate::answers::written_text;
use crate::completion::{ending_of_completion, line_of_endings, lines_of_paths};
use crate::folders::listings;
use anyhow::bail;
use cargo_manifest::{AbstractFilesystem, Listings, Manifest};
use manifest_json::Text;
use std::alloc::Global;
use std::cell::{Cell, RefCell};
use std::collections::BTreeSet;
use std::io;
use std::io::ErrorKind;

/// A filesystem that keeps the paths that it is asked, and refuses one question.
#[derive(Drop)]
struct Recorder<'a> {
    listings: &'a Listings,
    /// Which question is refused, from 1 on, and the kind of the fault.
    refused: Option<(usize, ErrorKind)>,
    /// How many questions there were.
    count: Cell<usize>,
    /// The line of their paths, with `;` after each.
    asked: RefCell<Text>,
}

/// How the line of paths begins.
fn first_line(alloc: Global) -> Text {
    let mut line = Text::new(alloc);
    line.push_str("asked ");
    line
}

impl<'a> Recorder<'a> {
    /// One that has not been asked anything.
    fn new(
        alloc: Global,
        listings: &'a Listings,
        refused: Option<(usize, ErrorKind)>,
    ) -> Recorder<'a> {
        Recorder {
            listings,
            refused,
            count: Cell::new(0),
            asked: RefCell::new(first_line(alloc)),
        }
    }

    /// Keeps a path that is asked; the number of the question.
    fn keep(&self, rel_path: &str) -> usize {
        if let Ok(mut asked) = self.asked.try_borrow_mut() {
            asked.push_str(rel_path);
            asked.push(';');
        }
        let number = self.count.get().wrapping_add(1);
        self.count.set(number);
        number
    }
}

impl AbstractFilesystem for Recorder<'_> {
    ghost allows = { λ _ _ _. Unit {0} };

    fn file_names_in(&self, alloc: Global, rel_path: &str) -> io::Result<BTreeSet<String>> {
        let number = self.keep(rel_path);
        match self.refused {
            Some((question, kind)) if question == number => Err(io::Error::from(kind)),
            _ => self.listings.file_names_in(alloc, rel_path),
        }
    }
}

/// A filesystem that has other folders each time that `src` is asked: the first ones, the second ones, and the first
/// again.
#[derive(Drop)]
struct Changing<'a> {
    first: &'a Listings,
    second: &'a Listings,
    is_first: Cell<bool>,
}

impl AbstractFilesystem for Changing<'_> {
    ghost allows = { λ _ _ _. Unit {0} };

    fn file_names_in(&self, alloc: Global, rel_path: &str) -> io::Result<BTreeSet<String>> {
        if rel_path == "src" {
            self.is_first.set(!self.is_first.get());
        }
        if self.is_first.get() {
            self.first.file_names_in(alloc, rel_path)
        } else {
            self.second.file_names_in(alloc, rel_path)
        }
    }
}

/// The line of a manifest that is completed: what is written of it, or the refusal; and a further line where a refusal
/// changed it.
fn line_of_completion<F: AbstractFilesystem>(
    alloc: Global,
    manifest: &mut Manifest,
    folders: &F,
) -> anyhow::Result<String> {
    let before = written_text(alloc, manifest)?;
    let ending = ending_of_completion(alloc, manifest, folders)?;
    line_of_endings(alloc, &before, &ending, &ending)
}

/// Completes the manifest of a document.
fn complete(alloc: Global, document: &str, folders: &Recorder<'_>) -> anyhow::Result<String> {
    let mut manifest = Manifest::from_str(alloc, document)?;
    let line = line_of_completion(alloc, &mut manifest, folders);
    drop(manifest);
    line
}

/// The declared targets of a document without a file, a line each.
fn unfound(alloc: Global, document: &str, folders: &Recorder<'_>) -> anyhow::Result<String> {
    let manifest = Manifest::from_str(alloc, document)?;
    let paths = manifest.unfound_targets(alloc, folders);
    drop(manifest);
    Ok(lines_of_paths(alloc, paths)?)
}

/// The question that is refused, of its number and the kind of the fault; of an empty text, none.
fn question_of(text: &str) -> anyhow::Result<Option<(usize, ErrorKind)>> {
    let (number, kind) = text.split_once(" ").unwrap_or((text, ""));
    match kind {
        "other" => Ok(Some((number.parse::<usize>()?, ErrorKind::Other))),
        "memory" => Ok(Some((number.parse::<usize>()?, ErrorKind::OutOfMemory))),
        "" => Ok(None),
        _ => bail!("there is no kind of this name"),
    }
}

/// What the call of this name answers.
fn answer_over(
    alloc: Global,
    of: &str,
    document: &str,
    folders: &Recorder<'_>,
) -> anyhow::Result<String> {
    match of {
        "complete" => complete(alloc, document, folders),
        "unfound" => unfound(alloc, document, folders),
        _ => bail!("there is no call of this name"),
    }
}

/// The paths that the call of this name asks of folders, and then what it answers. After the name may stand the number
/// of the question that is refused, and as what.
pub fn answer(
    alloc: Global,
    argument: &str,
    document: &str,
    folders: &str,
) -> anyhow::Result<String> {
    let (of, question) = argument.split_once(" ").unwrap_or((argument, ""));
    let refused = question_of(question)?;
    let listings = listings(alloc, folders)?;
    answer_after(
        alloc,
        of,
        document,
        Recorder::new(alloc, &listings, refused),
    )
}

/// The paths that the call of this name asks, and then what it answers.
fn answer_after(
    alloc: Global,
    of: &str,
    document: &str,
    recorder: Recorder<'_>,
) -> anyhow::Result<String> {
    let answer = answer_over(alloc, of, document, &recorder)?;
    let mut lines = recorder.asked.into_inner();
    lines.push('\n');
    lines.push_str(answer.as_str());
    Ok(lines.finish()?)
}

/// What is written of a manifest after each of three completions.
fn lines_of_three(
    alloc: Global,
    manifest: &mut Manifest,
    folders: &Changing<'_>,
) -> anyhow::Result<String> {
    let mut out = Text::new(alloc);
    out.push_str(line_of_completion(alloc, manifest, folders)?.as_str());
    out.push('\n');
    out.push_str(line_of_completion(alloc, manifest, folders)?.as_str());
    out.push('\n');
    out.push_str(line_of_completion(alloc, manifest, folders)?.as_str());
    Ok(out.finish()?)
}

/// What is written of the manifest of a document after each of three completions: from the first folders, from the
/// second ones, and from the first again.
pub fn thrice(alloc: Global, document: &str, first: &str, second: &str) -> anyhow::Result<String> {
    let first = listings(alloc, first)?;
    let second = listings(alloc, second)?;
    let folders = Changing {
        first: &first,
        second: &second,
        is_first: Cell::new(false),
    };
    three_of_document(alloc, document, &folders)
}

/// The same over folders that change.
fn three_of_document(
    alloc: Global,
    document: &str,
    folders: &Changing<'_>,
) -> anyhow::Result<String> {
    let mut manifest = Manifest::from_str(alloc, document)?;
    let lines = lines_of_three(alloc, &mut manifest, folders);
    drop(manifest);
    lines
}
