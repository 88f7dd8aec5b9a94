//! What the words ask for.

use manifest_report::Format;
use manifest_surroundings::{MOST, Scope};
use std::alloc::Global;

/// When colours are used.
#[derive(Clone, Copy, PartialEq, Eq)]
pub(crate) enum Color {
    Auto,
    Always,
    Never,
}

impl Options {
    /// What holds where no words say anything else, for these paths.
    pub(crate) fn plain(alloc: Global, paths: Vec<String>) -> Options {
        Options {
            paths,
            stdin_path: None,
            format: Format::People,
            color: Color::Never,
            width: None,
            scope: Scope::whole(alloc),
            fixing: Fixing::No,
            most: MOST,
        }
    }
}

/// What is done with certain suggestions.
#[derive(Clone, Copy, PartialEq, Eq)]
pub(crate) enum Fixing {
    /// They are reported.
    No,
    /// They are made in the files.
    Write,
    /// It is shown what would be made.
    Show,
}

/// How manifests are checked.
#[derive(Drop)]
pub struct Options {
    pub(crate) paths: Vec<String>,
    /// The path that the manifest of standard input is taken to have.
    pub(crate) stdin_path: Option<String>,
    pub(crate) format: Format,
    pub(crate) color: Color,
    pub(crate) width: Option<usize>,
    pub(crate) scope: Scope,
    pub(crate) fixing: Fixing,
    /// How many bytes a file may have.
    pub(crate) most: u64,
}

/// How it is shown what packages build and inherit.
#[derive(Clone, Copy, PartialEq, Eq)]
pub(crate) enum Form {
    /// Lines, of one manifest.
    Lines,
    /// Lines, after the name of the manifest.
    NamedLines,
    /// An object of JSON in a line of its own.
    Json,
    /// A part of a page.
    Html,
}

/// A question about the packages of manifests.
#[derive(Drop)]
pub struct Inquiry {
    pub(crate) paths: Vec<String>,
    pub(crate) form: Form,
}

/// What is asked for.
#[derive(Drop)]
pub enum Request {
    Check(Options),
    /// The page of a code.
    Explain(String),
    /// All codes.
    List,
    /// What packages build and inherit.
    Show(Inquiry),
    /// Which of the manifests at these paths are not canonical.
    Canon(Vec<String>),
}
