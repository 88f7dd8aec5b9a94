//! What is known of the texts of an editor, and what is said of them.

use crate::lines::{Lines, Point, Units};
use crate::message::{items_at, number_at, text_at};
use crate::reports::{View, Views};
use crate::uris::{path_of, uri_of};
use manifest_json::Text;
use manifest_lint::{Diagnostic, Document, unread_diagnostic};
use manifest_surroundings::{MOST, Placed, Reader, Scope, State, document_of, judge, place};
use serde_json::Value;
use std::alloc::{AllocError, Global};
use std::collections::BTreeMap;
use std::rt::Files;
use toml::Table;

/// A text that an editor has open.
#[derive(Drop)]
pub(crate) struct Opened {
    pub(crate) uri: String,
    pub(crate) version: Option<usize>,
}

/// What was said so far, and what is known of the editor.
#[derive(Clone, Copy, PartialEq, Eq)]
pub(crate) enum Stage {
    /// Nothing was asked yet.
    New,
    Running,
    /// It was asked to end.
    Ending,
}

/// A session with an editor.
#[derive(Drop)]
pub(crate) struct Session {
    pub(crate) stage: Stage,
    pub(crate) units: Units,
    /// Whether the editor asks for diagnostics by itself.
    pub(crate) pulls: bool,
    /// Whether a text has changed since diagnostics were sent.
    pub(crate) is_changed: bool,
    pub(crate) state: State,
    pub(crate) scope: Scope,
    /// The texts by their paths.
    pub(crate) opened: BTreeMap<String, Opened>,
}

/// What is said of a text, and where its root is, if it is a document.
#[derive(Drop)]
pub(crate) struct Checked {
    pub(crate) placed: Option<Placed>,
    pub(crate) found: Vec<Diagnostic>,
}

/// The root of a workspace, and the path of its manifest.
#[derive(Clone, Copy)]
pub(crate) struct KnownRoot<'a> {
    pub(crate) path: &'a str,
    pub(crate) document: &'a Document,
}

/// A manifest with its path, its text and its document, which is empty where the text is not one, and the root of its
/// workspace: of a root it is itself.
#[derive(Clone, Copy)]
pub(crate) struct Known<'a> {
    pub(crate) manifest: &'a str,
    pub(crate) text: &'a str,
    pub(crate) document: &'a Table,
    pub(crate) root: Option<KnownRoot<'a>>,
}

/// Where lines begin, of a text and of that of its root, whose URI is with it.
#[derive(Drop)]
pub(crate) struct AllLines {
    pub(crate) own: Lines,
    root: Option<(String, Lines)>,
}

/// Whether a path is that of a manifest.
pub(crate) fn is_manifest(path: &str) -> bool {
    path.ends_with("/Cargo.toml")
}

/// The range that a change replaces; `None` where it is the whole text.
fn range_in(
    alloc: Global,
    text: &str,
    change: &Value,
    units: Units,
) -> Result<Option<(usize, usize)>, AllocError> {
    let (Some(from), Some(to)) = (
        point_at(change, "/range/start/line", "/range/start/character"),
        point_at(change, "/range/end/line", "/range/end/character"),
    ) else {
        return Ok(None);
    };
    let lines = Lines::of(alloc, text)?;
    let start = lines.offset(text, from, units);
    let end = lines.offset(text, to, units);
    Ok(Some((start, end.max(start))))
}

/// The point at two pointers.
pub(crate) fn point_at(params: &Value, line: &str, character: &str) -> Option<Point> {
    Some(Point {
        line: number_at(params, line)?,
        units: number_at(params, character)?,
    })
}

/// A text with a range replaced.
fn replaced(
    alloc: Global,
    text: &str,
    from: usize,
    to: usize,
    new: &str,
) -> Result<String, AllocError> {
    let mut all = Text::new(alloc);
    all.push_str(text.get(..from).unwrap_or(""));
    all.push_str(new);
    all.push_str(text.get(to..).unwrap_or(""));
    all.finish()
}

/// A text after a change.
fn changed(alloc: Global, text: &str, change: &Value, units: Units) -> Result<String, AllocError> {
    let new = text_at(change, "/text").unwrap_or("");
    match range_in(alloc, text, change, units)? {
        Some((from, to)) => replaced(alloc, text, from, to, new),
        None => String::from_str(alloc, new),
    }
}

/// The URI of a document's path, and its lines.
fn lines_and_uri(
    alloc: Global,
    path: &str,
    document: &Document,
) -> Result<(String, Lines), AllocError> {
    let lines = Lines::of(alloc, document.text.as_str())?;
    Ok((uri_of(alloc, path)?, lines))
}

/// The list of one diagnostic.
fn only(alloc: Global, diagnostic: Diagnostic) -> Result<Vec<Diagnostic>, AllocError> {
    let mut found = Vec::new(alloc);
    found.push(diagnostic)?;
    Ok(found)
}

/// A text after some changes.
fn all_changed(
    alloc: Global,
    text: &str,
    changes: &[Value],
    units: Units,
) -> Result<String, AllocError> {
    let mut text = String::from_str(alloc, text)?;
    for change in changes {
        text = changed(alloc, text.as_str(), change, units)?;
    }
    Ok(text)
}

impl Session {
    /// A session of which nothing is known.
    pub(crate) fn new(alloc: Global) -> Session {
        Session {
            stage: Stage::New,
            units: Units::Utf16,
            pulls: false,
            is_changed: false,
            state: State::new(alloc, Reader::new(alloc, MOST)),
            scope: Scope::whole(alloc),
            opened: BTreeMap::new(alloc),
        }
    }

    /// The path of the manifest that is meant, where it is open.
    pub(crate) fn path_in(
        &self,
        alloc: Global,
        params: &Value,
    ) -> Result<Option<String>, AllocError> {
        let Some(uri) = text_at(params, "/textDocument/uri") else {
            return Ok(None);
        };
        match path_of(alloc, uri)? {
            Some(path) if self.opened.contains_key(path.as_str()) => Ok(Some(path)),
            _ => Ok(None),
        }
    }

    /// The text that is open at a path.
    pub(crate) fn text(&self, path: &str) -> &str {
        match self.state.reader.texts.get(path) {
            Some(text) => text.as_str(),
            None => "",
        }
    }

    /// Keeps a text that was opened.
    pub(crate) fn open(&mut self, alloc: Global, params: &Value) -> Result<(), AllocError> {
        let (Some(uri), Some(text)) = (
            text_at(params, "/textDocument/uri"),
            text_at(params, "/textDocument/text"),
        ) else {
            return Ok(());
        };
        let Some(path) = path_of(alloc, uri)? else {
            return Ok(());
        };
        self.keep(alloc, path.as_str(), text)?;
        let opened = Opened {
            uri: String::from_str(alloc, uri)?,
            version: number_at(params, "/textDocument/version"),
        };
        self.opened.insert(path, opened)?;
        self.is_changed = true;
        Ok(())
    }

    /// Keeps a text at a path.
    fn keep(&mut self, alloc: Global, path: &str, text: &str) -> Result<(), AllocError> {
        let text = String::from_str(alloc, text)?;
        self.state
            .reader
            .texts
            .insert(String::from_str(alloc, path)?, text)?;
        Ok(())
    }

    /// Makes the changes of a text.
    pub(crate) fn change(&mut self, alloc: Global, params: &Value) -> Result<(), AllocError> {
        let Some(path) = self.path_in(alloc, params)? else {
            return Ok(());
        };
        let changes = items_at(params, "/contentChanges");
        let text = all_changed(alloc, self.text(path.as_str()), changes, self.units)?;
        if let Some(opened) = self.opened.get_mut(path.as_str()) {
            opened.version = number_at(params, "/textDocument/version");
        }
        self.state.reader.texts.insert(path, text)?;
        self.is_changed = true;
        Ok(())
    }

    /// Forgets a text: from now on the file counts. It says which URI it had.
    pub(crate) fn close(
        &mut self,
        alloc: Global,
        params: &Value,
    ) -> Result<Option<String>, AllocError> {
        let Some(path) = self.path_in(alloc, params)? else {
            return Ok(None);
        };
        let _text = self.state.reader.texts.remove(path.as_str());
        self.is_changed = true;
        match self.opened.remove(path.as_str()) {
            Some(Opened { uri, version: _ }) => Ok(Some(uri)),
            None => Ok(None),
        }
    }

    /// What is said of the text that is open at a path; of suggestions also what they replace, if that is to be shown.
    pub(crate) fn check<H: Files + AllocGlobal + Clone + Drop>(
        &mut self,
        rt: &H,
        path: &str,
        shows_edits: bool,
    ) -> Result<Checked, AllocError> {
        let alloc = rt.alloc();
        if !is_manifest(path) {
            return Ok(Checked {
                placed: None,
                found: Vec::new(alloc),
            });
        }
        match Document::read(alloc, self.text(path).as_bytes()) {
            Ok(document) => {
                let (placed, found) = self.judged(rt, path, document, shows_edits)?;
                Ok(Checked {
                    placed: Some(placed),
                    found,
                })
            }
            Err(unread) => Ok(Checked {
                placed: None,
                found: only(alloc, unread_diagnostic(alloc, unread)?)?,
            }),
        }
    }

    /// Where the root of a document at a path is, and what is said of it, with all that is around it as it is now.
    pub(crate) fn judged<H: Files + AllocGlobal + Clone + Drop>(
        &mut self,
        rt: &H,
        path: &str,
        document: Document,
        shows_edits: bool,
    ) -> Result<(Placed, Vec<Diagnostic>), AllocError> {
        self.state.forget(rt.alloc());
        let placed = place(rt, &self.scope, &mut self.state, path, document)?;
        let state = &mut self.state;
        let found = judge(rt, &self.scope, state, path, &placed, shows_edits)?;
        Ok((placed, found))
    }

    /// Where the root is of the text that is open at a path: where it is no document for the moment, that of an empty one.
    pub(crate) fn placed<H: Files + AllocGlobal + Clone + Drop>(
        &mut self,
        rt: &H,
        path: &str,
    ) -> Result<Option<Placed>, AllocError> {
        let alloc = rt.alloc();
        let read = match document_of(alloc, self.text(path).as_bytes())? {
            Some(document) => document,
            None => Document {
                text: String::new(alloc),
                table: Table::new(alloc),
            },
        };
        self.state.forget(alloc);
        Ok(Some(place(rt, &self.scope, &mut self.state, path, read)?))
    }

    /// The root of what was checked, at this path.
    fn known_root<'a>(&'a self, path: &'a str, checked: &'a Checked) -> Option<KnownRoot<'a>> {
        let placed = checked.placed.as_ref()?;
        if placed.is_root() {
            let document = placed.document(&self.state)?;
            return Some(KnownRoot { path, document });
        }
        let root = placed.other_root(&self.state)?;
        Some(KnownRoot {
            path: root.path.as_str(),
            document: &root.document,
        })
    }

    /// What is known of what was checked, at this path.
    pub(crate) fn known<'a>(&'a self, path: &'a str, checked: &'a Checked) -> Option<Known<'a>> {
        let document = checked.placed.as_ref()?.document(&self.state)?;
        Some(Known {
            manifest: path,
            text: self.text(path),
            document: &document.table,
            root: self.known_root(path, checked),
        })
    }

    /// The lines of a text that was checked, and of its root.
    pub(crate) fn lines_of(
        &self,
        alloc: Global,
        path: &str,
        checked: &Checked,
    ) -> Result<AllLines, AllocError> {
        let own = Lines::of(alloc, self.text(path))?;
        let root = match &checked.placed {
            Some(placed) => placed.other_root(&self.state),
            None => None,
        };
        let root = match root {
            Some(root) => Some(lines_and_uri(alloc, root.path.as_str(), &root.document)?),
            None => None,
        };
        Ok(AllLines { own, root })
    }

    /// The text at a path and that of its root, with their lines.
    pub(crate) fn views<'a>(
        &'a self,
        path: &'a str,
        checked: &'a Checked,
        lines: &'a AllLines,
    ) -> Views<'a> {
        let uri = match self.opened.get(path) {
            Some(opened) => opened.uri.as_str(),
            None => "",
        };
        let own = View {
            uri,
            text: self.text(path),
            lines: &lines.own,
            units: self.units,
        };
        Views {
            own,
            root: self.root_view(checked, lines),
        }
    }

    /// The text of the root of what was checked.
    fn root_view<'a>(&'a self, checked: &'a Checked, lines: &'a AllLines) -> Option<View<'a>> {
        let root = checked.placed.as_ref()?.other_root(&self.state)?;
        let (uri, lines) = lines.root.as_ref()?;
        Some(View {
            uri: uri.as_str(),
            text: root.document.text.as_str(),
            lines,
            units: self.units,
        })
    }
}
