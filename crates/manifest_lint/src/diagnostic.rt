//! What is said of a manifest.

ghost use Rattle.std.specs.Prelude.{◌≡◌};

use manifest_fault::{Cause, Choices, KeyPath};
use manifest_places::{Edit, Located, Span, Splice};
use manifest_rules::{Code, Edition, File, Level, Part};
use std::alloc::Global;

/// What a diagnostic is about.
#[derive(Clone, Copy, PartialEq, Eq)]
pub enum Subject {
    /// A fault of the schema, and of a choice the words that there are.
    Fault(Cause, Choices),
    /// What does not fit where that is no fault.
    Ignored(Cause, Choices),
    /// A key that nothing reads.
    Unused,
    /// A rule of Cargo's, or one beyond it.
    Rule,
}

/// A second place, and what is said there.
#[derive(Drop)]
pub struct PlacedLabel {
    pub file: File,
    /// Where in the text of that file; `None` where it has no place.
    pub span: Option<Span>,
    pub text: String,
}

/// What can be written instead.
#[derive(Drop)]
pub struct Fix {
    pub text: String,
    /// The edits; none where there are only words.
    pub edits: Vec<Edit>,
    /// What they replace in the text; nothing where they cannot be made.
    pub replaced: Vec<Splice>,
    /// Whether the edits are certain to mean what was meant, so that a program may make them.
    pub is_certain: bool,
}

/// One thing that is said of a manifest.
#[derive(Drop)]
pub struct Diagnostic {
    pub code: Code,
    pub level: Level,
    pub subject: Subject,
    pub message: String,
    /// The key path of what it is about; empty where it is about a range of the text.
    pub path: KeyPath,
    /// What of the entry at that path is meant.
    pub part: Part,
    /// Where what belongs to the path stands; `None` where nothing has a place.
    pub located: Option<Located>,
    /// The range of the text that is meant; `None` where it is the document itself.
    pub span: Option<Span>,
    pub labels: Vec<PlacedLabel>,
    pub notes: Vec<String>,
    pub fixes: Vec<Fix>,
}

impl Diagnostic {
    /// A diagnostic of this code, at its level in a package of this edition, with no place yet.
    pub(crate) fn new(
        alloc: Global,
        code: Code,
        edition: Edition,
        subject: Subject,
        path: KeyPath,
        part: Part,
        message: String,
    ) -> Diagnostic
        ensures subject { result.subject ≡ subject }
        ensures path { result.path ≡ path }
    {
        Diagnostic {
            code,
            level: code.level_in(edition),
            subject,
            message,
            path,
            part,
            located: None,
            span: None,
            labels: Vec::new(alloc),
            notes: Vec::new(alloc),
            fixes: Vec::new(alloc),
        }
    }
}
