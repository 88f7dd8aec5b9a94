//! What a package builds and inherits; and which manifests are not canonical.

use crate::checking::{Context, Run, readable};
use crate::options::Form;
use manifest_json::Text;
use manifest_lint::{Diagnostic, Document, Unread, unread_diagnostic};
use manifest_page::{Entry, push_begin, push_data, push_end, push_entry};
use manifest_report::{push_diff, push_escaped};
use manifest_show::{Refused, RootText, canonical, show};
use manifest_surroundings::{
    Placed, State, document_of, folder_of, opened, place, resolved, shown,
};
use std::alloc::{AllocError, Global};
use std::rt::Files;
use std::slice;
use toml::Table;

/// Writes lines, with what a terminal would not show escaped.
fn push_lines(out: &mut Text, text: &str) {
    for line in text.lines() {
        push_escaped(out, line);
        out.push('\n');
    }
}

/// The root of a manifest, where there is one.
fn root_text<'x>(
    state: &'x State,
    current: &'x str,
    name: &'x str,
    placed: &'x Placed,
) -> Option<RootText<'x>> {
    if placed.is_root() {
        let document = placed.document(state)?;
        return Some(RootText {
            name,
            text: document.text.as_str(),
        });
    }
    let root = placed.other_root(state)?;
    Some(RootText {
        name: shown(root.path.as_str(), current),
        text: root.document.text.as_str(),
    })
}

/// What the package of a manifest builds and inherits.
fn answer_for<'x, H: Files + AllocGlobal + Clone + Drop>(
    rt: &H,
    context: &'x Context,
    name: &'x str,
    placed: &'x Placed,
    is_json: bool,
) -> Result<String, Refused> {
    let state = &context.state;
    let Some(document) = placed.document(state) else {
        return Ok(String::new(rt.alloc()));
    };
    let root = root_text(state, context.current.as_str(), name, placed);
    let folder = opened(folder_of(name));
    let text = document.text.as_str();
    show(rt, folder, name, text, &document.table, root, is_json)
}

/// What the package of a manifest builds and inherits, as an object of JSON; the empty text where the manifest is refused.
fn built_by<'x, H: Files + AllocGlobal + Clone + Drop>(
    rt: &H,
    context: &'x Context,
    name: &'x str,
    placed: &'x Placed,
) -> Result<String, AllocError> {
    match answer_for(rt, context, name, placed, true) {
        Ok(json) => Ok(json),
        Err(Refused::Manifest(_reason)) => Ok(String::new(rt.alloc())),
        Err(Refused::Memory(fault)) => Err(fault),
    }
}

/// The members of an object of JSON.
fn members_in(json: &str) -> &str {
    let inner = json.trim().strip_prefix('{').unwrap_or("");
    inner.strip_suffix('}').unwrap_or("")
}

/// Writes what is known of a manifest, as an object of JSON.
fn push_known<'x>(
    out: &mut Text,
    file: &'x str,
    text: &'x str,
    document: Option<&'x Table>,
    built: &'x str,
    diagnostics: &'x [Diagnostic],
) {
    let entry = Entry {
        file,
        text,
        document,
        built,
        diagnostics,
    };
    push_entry(out, &entry);
}

/// Writes what is known of bytes that are no document.
fn push_unread<'x>(alloc: Global, out: &mut Text, name: &'x str, bytes: &'x [u8], unread: Unread) {
    if let Some(diagnostic) = out.made(unread_diagnostic(alloc, unread)) {
        let found = slice::from_ref(&diagnostic);
        push_known(out, name, readable(bytes), None, "", found);
    }
}

/// Writes what is known of a document.
fn push_document<'x>(
    context: &'x Context,
    out: &mut Text,
    name: &'x str,
    placed: &'x Placed,
    built: &'x str,
    diagnostics: &'x [Diagnostic],
) {
    if let Some(document) = placed.document(&context.state) {
        let text = document.text.as_str();
        let built = members_in(built);
        push_known(out, name, text, Some(&document.table), built, diagnostics);
    }
}

/// JSON as it stands in the page.
fn data_of(alloc: Global, json: &str) -> Result<String, AllocError> {
    let mut data = String::new(alloc);
    push_data(&mut data, json)?;
    Ok(data)
}

impl Run {
    /// Tells why there is no answer for a manifest.
    fn tell_refused(&mut self, name: &str, refused: Refused) {
        match refused {
            Refused::Manifest(reason) => self.tell_unread(name, reason.as_str()),
            Refused::Memory(fault) => self.messages.fail(fault),
        }
    }

    /// Where a document with this name stands.
    fn placed<H: Files + AllocGlobal + Clone + Drop>(
        &mut self,
        rt: &H,
        name: &str,
        document: Document,
    ) -> Result<Placed, AllocError> {
        let path = resolved(rt.alloc(), self.context.current.as_str(), name)?;
        self.placed_at(rt, path.as_str(), document)
    }

    /// Writes what the package of a document builds and inherits, as lines.
    fn show_document<H: Files + AllocGlobal + Clone + Drop>(
        &mut self,
        rt: &H,
        name: &str,
        placed: &Placed,
        is_named: bool,
    ) {
        match answer_for(rt, &self.context, name, placed, false) {
            Ok(text) => {
                if is_named {
                    push_escaped(&mut self.out, name);
                    self.out.push_str(":\n");
                }
                push_lines(&mut self.out, text.as_str());
            }
            Err(refused) => self.tell_refused(name, refused),
        }
    }

    /// Writes what the package of a manifest builds and inherits, as lines.
    fn show_lines<H: Files + AllocGlobal + Clone + Drop>(
        &mut self,
        rt: &H,
        name: &str,
        bytes: &[u8],
        is_named: bool,
    ) {
        let Some(read) = self.out.made(document_of(rt.alloc(), bytes)) else {
            return;
        };
        let Some(document) = read else {
            self.tell_unread(name, "it is no TOML: check it first");
            return;
        };
        let placed = self.placed(rt, name, document);
        if let Some(placed) = self.out.made(placed) {
            self.show_document(rt, name, &placed, is_named);
        }
    }

    /// Everything that is said of a document with this name.
    fn judged_as<H: Files + AllocGlobal + Clone + Drop>(
        &mut self,
        rt: &H,
        name: &str,
        placed: &Placed,
    ) -> Result<Vec<Diagnostic>, AllocError> {
        let path = resolved(rt.alloc(), self.context.current.as_str(), name)?;
        self.judged(rt, path.as_str(), placed)
    }

    /// Writes what is known of a document, as an object of JSON.
    fn push_known_document<H: Files + AllocGlobal + Clone + Drop>(
        &mut self,
        rt: &H,
        out: &mut Text,
        name: &str,
        document: Document,
    ) {
        let Some(placed) = out.made(self.placed(rt, name, document)) else {
            return;
        };
        let Some(found) = out.made(self.judged_as(rt, name, &placed)) else {
            return;
        };
        let context = &self.context;
        if let Some(built) = out.made(built_by(rt, context, name, &placed)) {
            push_document(
                context,
                out,
                name,
                &placed,
                built.as_str(),
                found.as_slice(),
            );
        }
    }

    /// What is known of a manifest, as an object of JSON.
    fn known<H: Files + AllocGlobal + Clone + Drop>(
        &mut self,
        rt: &H,
        name: &str,
        bytes: &[u8],
    ) -> Result<String, AllocError> {
        let alloc = rt.alloc();
        let mut json = Text::new(alloc);
        match Document::read(alloc, bytes) {
            Ok(document) => self.push_known_document(rt, &mut json, name, document),
            Err(unread) => push_unread(alloc, &mut json, name, bytes, unread),
        }
        json.finish()
    }

    /// Writes what stands before all that is shown.
    pub(crate) fn begin_shown(&mut self, form: Form) {
        if form == Form::Html {
            push_begin(&mut self.out);
            self.out.push('[');
        }
    }

    /// Writes what stands after all that is shown.
    pub(crate) fn end_shown(&mut self, form: Form) {
        if form == Form::Html {
            self.out.push(']');
            push_end(&mut self.out);
        }
    }

    /// Writes what is known of a manifest, in a line of its own.
    fn show_json<H: Files + AllocGlobal + Clone + Drop>(
        &mut self,
        rt: &H,
        name: &str,
        bytes: &[u8],
    ) {
        let json = self.known(rt, name, bytes);
        if let Some(json) = self.out.made(json) {
            self.out.push_str(json.as_str());
            self.out.push('\n');
        }
    }

    /// Writes what is known of a manifest into the page, after a comma where it is not the first one.
    fn show_in_page<H: Files + AllocGlobal + Clone + Drop>(
        &mut self,
        rt: &H,
        name: &str,
        bytes: &[u8],
        is_first: bool,
    ) {
        let json = self.known(rt, name, bytes);
        let Some(json) = self.out.made(json) else {
            return;
        };
        let Some(data) = self.out.made(data_of(rt.alloc(), json.as_str())) else {
            return;
        };
        if !is_first {
            self.out.push_str(",\n");
        }
        self.out.push_str(data.as_str());
    }

    /// Writes what the package of a manifest builds and inherits; as JSON and on a page also what is said of it.
    pub(crate) fn show<H: Files + AllocGlobal + Clone + Drop>(
        &mut self,
        rt: &H,
        name: &str,
        form: Form,
        is_first: bool,
    ) {
        let bytes = match self.context.state.reader.read(rt, name) {
            Ok(bytes) => bytes,
            Err(fault) => {
                self.tell_unreadable(name, &fault);
                return;
            }
        };
        let bytes = bytes.as_slice();
        match form {
            Form::Lines => self.show_lines(rt, name, bytes, false),
            Form::NamedLines => self.show_lines(rt, name, bytes, true),
            Form::Json => self.show_json(rt, name, bytes),
            Form::Html => self.show_in_page(rt, name, bytes, is_first),
        }
    }

    /// Writes the difference of a manifest, whose bytes these are, from its canonical text, if there is one.
    fn compare_bytes(&mut self, alloc: Global, name: &str, bytes: &[u8]) {
        let text = match canonical(alloc, bytes) {
            Ok(text) => text,
            Err(refused) => {
                self.tell_refused(name, refused);
                return;
            }
        };
        let Ok(old) = str::from_utf8(bytes) else {
            self.tell_unread(name, "it is not UTF-8");
            return;
        };
        self.counts.files = self.counts.files.saturating_add(1);
        if old != text.as_str() {
            self.counts.errors = self.counts.errors.saturating_add(1);
            push_escaped(&mut self.messages, name);
            self.messages.push_str(": not canonical\n");
            push_diff(alloc, &mut self.out, name, old, text.as_str());
        }
    }

    /// Writes the difference of a manifest from its canonical text, if there is one.
    pub(crate) fn compare<H: Files + AllocGlobal>(&mut self, rt: &H, name: &str) {
        match self.context.state.reader.read(rt, name) {
            Ok(bytes) => self.compare_bytes(rt.alloc(), name, bytes.as_slice()),
            Err(fault) => self.tell_unreadable(name, &fault),
        }
    }
}
