//! One manifest after the other: read, judged, reported, and mended where that is asked for.

use crate::options::{Fixing, Options};
use manifest_json::Text;
use manifest_lint::{Diagnostic, Document, unread_diagnostic};
use manifest_report::{MemberSource, Reporter, Source, Sources, push_diff, push_escaped};
use manifest_rules::{File, Level};
use manifest_surroundings::{
    Fixed, Members, NotReplaced, Placed, Reader, State, Unread, Unreadable, judge, place,
    replace_file, resolved, shown, with_fixes,
};
use std::alloc::{AllocError, Global};
use std::collections::BTreeSet;
use std::rt::Files;
use std::slice;

/// How much was found.
#[derive(Clone, Copy)]
pub(crate) struct Counts {
    pub(crate) files: usize,
    pub(crate) errors: usize,
    pub(crate) warnings: usize,
    /// How many could not be read or written.
    pub(crate) unread: usize,
}

impl Counts {
    pub(crate) const NONE: Counts = Counts {
        files: 0,
        errors: 0,
        warnings: 0,
        unread: 0,
    };

    fn add(&mut self, diagnostics: &[Diagnostic]) {
        self.files = self.files.saturating_add(1);
        for diagnostic in diagnostics {
            match diagnostic.level {
                Level::Error => self.errors = self.errors.saturating_add(1),
                Level::Warning => self.warnings = self.warnings.saturating_add(1),
                Level::Note => {}
            }
        }
    }
}

/// What was asked for, where the program runs, and what is kept from one manifest to the next.
#[derive(Drop)]
pub(crate) struct Context {
    pub(crate) options: Options,
    /// The absolute path of the folder that the program runs in.
    pub(crate) current: String,
    pub(crate) state: State,
}

/// What is reported where suggestions are not made.
const REFUSED: &str = "suggestions that cannot be made, or would make new errors, are left out";

const GIVEN_UP: &str = "too many suggestions cannot be made together, and not all were tried";

/// A run over manifests: its context, what was counted, and the texts that are to be written.
#[derive(Drop)]
pub(crate) struct Run {
    pub(crate) context: Context,
    pub(crate) reporter: Reporter,
    pub(crate) counts: Counts,
    /// What is to be written to standard output.
    pub(crate) out: Text,
    /// What is to be written to standard error.
    pub(crate) messages: Text,
}

/// The text of bytes, up to the first one that is no UTF-8.
pub(crate) fn readable(bytes: &[u8]) -> &str {
    match str::from_utf8(bytes) {
        Ok(text) => text,
        Err(fault) => {
            let front = bytes.get(..fault.valid_up_to()).unwrap_or(&[]);
            str::from_utf8(front).unwrap_or("")
        }
    }
}

/// The indexes of the members that labels of these diagnostics lead to.
fn labelled(alloc: Global, diagnostics: &[Diagnostic]) -> Result<BTreeSet<usize>, AllocError> {
    let mut indexes = BTreeSet::new(alloc);
    for diagnostic in diagnostics {
        for label in &diagnostic.labels {
            if let File::Member(index) = label.file {
                indexes.insert(index)?;
            }
        }
    }
    Ok(indexes)
}

/// The text of a member, as it is now; `None` where it cannot be read.
fn member_source<H: Files + AllocGlobal>(
    rt: &H,
    reader: &Reader,
    index: usize,
    path: &str,
    current: &str,
) -> Result<Option<MemberSource>, AllocError> {
    let alloc = rt.alloc();
    let Some(bytes) = reader.bytes(rt, path)? else {
        return Ok(None);
    };
    let Ok(text) = String::from_utf8(bytes) else {
        return Ok(None);
    };
    Ok(Some(MemberSource {
        index,
        name: String::from_str(alloc, shown(path, current))?,
        text,
    }))
}

/// The texts of the members that labels of these diagnostics lead to.
fn member_sources<H: Files + AllocGlobal>(
    rt: &H,
    reader: &Reader,
    members: Option<&Members>,
    diagnostics: &[Diagnostic],
    current: &str,
) -> Result<Vec<MemberSource>, AllocError> {
    let alloc = rt.alloc();
    let mut sources = Vec::new(alloc);
    let Some(members) = members else {
        return Ok(sources);
    };
    for index in &labelled(alloc, diagnostics)? {
        if let Some(path) = members.manifests.get(*index) {
            if let Some(source) = member_source(rt, reader, *index, path.as_str(), current)? {
                sources.push(source)?;
            }
        }
    }
    Ok(sources)
}

/// The texts that the places of a manifest's diagnostics are in.
fn sources_of<'x>(
    state: &'x State,
    current: &'x str,
    name: &'x str,
    placed: &'x Placed,
    members: &'x [MemberSource],
) -> Option<Sources<'x>> {
    let document = placed.document(state)?;
    let root = match placed.other_root(state) {
        Some(root) => Some(Source {
            name: shown(root.path.as_str(), current),
            text: root.document.text.as_str(),
        }),
        None => None,
    };
    Some(Sources {
        own: Source {
            name,
            text: document.text.as_str(),
        },
        root,
        members,
    })
}

/// Writes what is said of a manifest. `members` are those that labels lead to.
fn push_report<'x>(
    context: &'x Context,
    reporter: &mut Reporter,
    out: &mut Text,
    name: &'x str,
    placed: &'x Placed,
    diagnostics: &'x [Diagnostic],
    members: &'x [MemberSource],
) {
    let current = context.current.as_str();
    if let Some(sources) = sources_of(&context.state, current, name, placed, members) {
        reporter.report(out, &sources, diagnostics);
    }
}

impl Run {
    /// Out of memory where it ran out for what is to be written.
    pub(crate) fn checked(&self) -> Result<(), AllocError> {
        self.out.checked()?;
        self.messages.checked()
    }

    /// Tells what is said of bytes that are no document.
    fn report_unread<'x>(&mut self, name: &'x str, bytes: &'x [u8], diagnostic: &'x Diagnostic) {
        let diagnostics = slice::from_ref(diagnostic);
        let sources = Sources {
            own: Source {
                name,
                text: readable(bytes),
            },
            root: None,
            members: &[],
        };
        self.counts.add(diagnostics);
        self.reporter.report(&mut self.out, &sources, diagnostics);
    }

    /// Tells what is said of a manifest.
    fn report<H: Files + AllocGlobal>(
        &mut self,
        rt: &H,
        name: &str,
        placed: &Placed,
        diagnostics: &[Diagnostic],
    ) {
        self.counts.add(diagnostics);
        if self.context.options.fixing == Fixing::Show {
            return;
        }
        let context = &self.context;
        let members = member_sources(
            rt,
            &context.state.reader,
            placed.members(&context.state),
            diagnostics,
            context.current.as_str(),
        );
        let Some(members) = self.out.made(members) else {
            return;
        };
        push_report(
            &self.context,
            &mut self.reporter,
            &mut self.out,
            name,
            placed,
            diagnostics,
            members.as_slice(),
        );
    }

    /// Tells of what could not be read or written.
    pub(crate) fn tell_unread(&mut self, name: &str, reason: &str) {
        self.counts.unread = self.counts.unread.saturating_add(1);
        self.messages.push_str("error: ");
        push_escaped(&mut self.messages, name);
        self.messages.push_str(": ");
        push_escaped(&mut self.messages, reason);
        self.messages.push('\n');
    }

    /// Tells why a file was not read.
    pub(crate) fn tell_unreadable(&mut self, name: &str, fault: &Unreadable) {
        let reason = format!(in self.messages.allocator(); "{fault}");
        if let Some(reason) = self.messages.made(reason) {
            self.tell_unread(name, reason.as_str());
        }
    }

    /// Tells of all paths that could not be read.
    pub(crate) fn tell_all_unread(&mut self, unread: &[Unread]) {
        for one in unread {
            self.tell_unread(one.path.as_str(), one.reason.as_str());
        }
    }

    /// Tells of the configurations that could not be read, each once.
    fn tell_unread_configuration(&mut self) {
        for _ in 0..u64::MAX {
            let Some(unread) = self.context.state.next_unread() else {
                return;
            };
            self.tell_unread(unread.path.as_str(), unread.reason.as_str());
        }
    }

    fn tell_not_written(&mut self, name: &str, fault: &NotReplaced) {
        let reason = format!(in self.messages.allocator(); "not written: {fault}");
        if let Some(reason) = self.messages.made(reason) {
            self.tell_unread(name, reason.as_str());
        }
    }

    /// Tells which suggestions were not made.
    fn tell_left_out(&mut self, name: &str, fixed: &Fixed) {
        if fixed.is_refused() {
            push_escaped(&mut self.messages, name);
            self.messages.push_str(": ");
            self.messages.push_str(REFUSED);
            self.messages.push('\n');
        }
        if fixed.has_given_up {
            push_escaped(&mut self.messages, name);
            self.messages.push_str(": ");
            self.messages.push_str(GIVEN_UP);
            self.messages.push('\n');
        }
    }

    /// Tells that a manifest was written with this many suggestions made.
    fn tell_fixed(&mut self, name: &str, made: usize) {
        self.messages.push_str("fixed ");
        push_escaped(&mut self.messages, name);
        self.messages.push_str(": ");
        self.messages.push_number(made);
        self.messages.push_str(if made == 1 {
            " suggestion\n"
        } else {
            " suggestions\n"
        });
    }

    /// Writes a manifest with suggestions made, or shows what would change. Where memory ran out, the file stays as it is.
    fn put<H: Files + AllocGlobal>(&mut self, rt: &H, name: &str, old: &str, fixed: &Fixed) {
        self.tell_left_out(name, fixed);
        if fixed.made == 0 || self.checked().is_err() {
            return;
        }
        let new = fixed.text.as_str();
        if self.context.options.fixing == Fixing::Show {
            push_diff(rt.alloc(), &mut self.out, name, old, new);
            return;
        }
        match replace_file(rt, name, old, new) {
            Ok(()) => self.tell_fixed(name, fixed.made),
            Err(fault) => self.tell_not_written(name, &fault),
        }
    }

    /// Everything that is said of a manifest at this path; what of its configurations could not be read is reported.
    pub(crate) fn judged<H: Files + AllocGlobal + Clone + Drop>(
        &mut self,
        rt: &H,
        path: &str,
        placed: &Placed,
    ) -> Result<Vec<Diagnostic>, AllocError> {
        let context = &mut self.context;
        let found = judge(
            rt,
            &context.options.scope,
            &mut context.state,
            path,
            placed,
            true,
        )?;
        self.tell_unread_configuration();
        Ok(found)
    }

    /// Tells what is said of a manifest at this path.
    fn report_judged<H: Files + AllocGlobal + Clone + Drop>(
        &mut self,
        rt: &H,
        name: &str,
        path: &str,
        placed: &Placed,
    ) {
        let found = self.judged(rt, path, placed);
        if let Some(found) = self.out.made(found) {
            self.report(rt, name, placed, found.as_slice());
        }
    }

    /// A document at this path, in its surroundings.
    pub(crate) fn placed_at<H: Files + AllocGlobal + Clone + Drop>(
        &mut self,
        rt: &H,
        path: &str,
        document: Document,
    ) -> Result<Placed, AllocError> {
        let context = &mut self.context;
        let scope = &context.options.scope;
        place(rt, scope, &mut context.state, path, document)
    }

    /// A document at this path, whose text is `old`, with its suggestions made.
    fn fixed<H: Files + AllocGlobal + Clone + Drop>(
        &mut self,
        rt: &H,
        path: &str,
        old: &str,
        document: Document,
    ) -> Result<Fixed, AllocError> {
        let placed = self.placed_at(rt, path, document)?;
        let found = self.judged(rt, path, &placed)?;
        let text = String::from_str(rt.alloc(), old)?;
        let context = &mut self.context;
        let scope = &context.options.scope;
        with_fixes(rt, scope, &mut context.state, path, text, placed, found)
    }

    /// Makes the suggestions of a document at this path, whose text is `old`, and tells what is left.
    fn fix<H: Files + AllocGlobal + Clone + Drop>(
        &mut self,
        rt: &H,
        name: &str,
        path: &str,
        old: &str,
        document: Document,
    ) {
        let fixed = self.fixed(rt, path, old, document);
        if let Some(fixed) = self.out.made(fixed) {
            self.put(rt, name, old, &fixed);
            self.report(rt, name, &fixed.placed, fixed.diagnostics.as_slice());
        }
    }

    /// Checks a document at this path.
    fn check_document<H: Files + AllocGlobal + Clone + Drop>(
        &mut self,
        rt: &H,
        name: &str,
        path: &str,
        document: Document,
    ) {
        if self.context.options.fixing != Fixing::No {
            let old: Result<String, AllocError> = document.text.clone();
            if let Some(old) = self.out.made(old) {
                self.fix(rt, name, path, old.as_str(), document);
            }
            return;
        }
        let placed = self.placed_at(rt, path, document);
        if let Some(placed) = self.out.made(placed) {
            self.report_judged(rt, name, path, &placed);
        }
    }

    /// Checks the bytes of a manifest with this name.
    pub(crate) fn check_bytes<H: Files + AllocGlobal + Clone + Drop>(
        &mut self,
        rt: &H,
        name: &str,
        bytes: Vec<u8>,
    ) {
        let alloc = rt.alloc();
        match Document::read(alloc, bytes.as_slice()) {
            Ok(document) => {
                drop(bytes);
                let path = resolved(alloc, self.context.current.as_str(), name);
                if let Some(path) = self.out.made(path) {
                    self.check_document(rt, name, path.as_str(), document);
                }
            }
            Err(unread) => {
                let diagnostic = unread_diagnostic(alloc, unread);
                if let Some(diagnostic) = self.out.made(diagnostic) {
                    self.report_unread(name, bytes.as_slice(), &diagnostic);
                }
            }
        }
    }

    /// Checks what was read under this name, or tells why it was not.
    pub(crate) fn check_read<H: Files + AllocGlobal + Clone + Drop>(
        &mut self,
        rt: &H,
        name: &str,
        read: Result<Vec<u8>, Unreadable>,
    ) {
        match read {
            Ok(bytes) => self.check_bytes(rt, name, bytes),
            Err(fault) => self.tell_unreadable(name, &fault),
        }
    }
}
