//! What is asked of the server, and what it answers.

use crate::answers::{Refusal, begun, begun_notification, push_error, push_frame};
use crate::completion::push_offers;
use crate::definition::{Target, target_at};
use crate::hover::meaning_at;
use crate::lines::{Lines, Point, Units};
use crate::message::{Call, items_at, text_at};
use crate::moving::push_moves;
use crate::reports::{
    View, push_action, push_changes, push_diagnostics, push_range, push_rewriting, raw_member,
    span_of,
};
use crate::session::{Checked, Known, Session, Stage, is_manifest, point_at};
use crate::spots::spot_at;
use crate::symbols::push_symbols;
use crate::uris::uri_of;
use crate::uses::{Use, named_at, renaming, uses_of};
use manifest_json::Text;
use manifest_lint::Diagnostic;
use manifest_places::{Edit, EditError, Edited, Places, Span, places_of, with_edits};
use manifest_surroundings::{document_of, with_fixes};
use serde_json::Value;
use std::alloc::{AllocError, Global};
use std::rt::Files;
use toml::Table;

/// Writes what the server can do.
fn push_capabilities(body: &mut Text, units: Units, version: &str) {
    body.open_member("result");
    body.open_member("capabilities");
    let encoding = match units {
        Units::Bytes => "utf-8",
        Units::Utf16 => "utf-16",
    };
    body.text_member("positionEncoding", encoding);
    raw_member(
        body,
        "textDocumentSync",
        "{\"openClose\":true,\"change\":2,\"save\":true}",
    );
    raw_member(
        body,
        "codeActionProvider",
        "{\"codeActionKinds\":[\"quickfix\",\"refactor.rewrite\",\"source.fixAll\"]}",
    );
    raw_member(
        body,
        "completionProvider",
        "{\"triggerCharacters\":[\"\\\"\",\".\"]}",
    );
    body.flag_member("documentSymbolProvider", true);
    body.flag_member("hoverProvider", true);
    body.flag_member("definitionProvider", true);
    body.flag_member("referencesProvider", true);
    body.flag_member("renameProvider", true);
    body.open_member("diagnosticProvider");
    body.flag_member("interFileDependencies", true);
    body.flag_member("workspaceDiagnostics", false);
    body.close();
    body.close();
    body.open_member("serverInfo");
    body.text_member("name", "manifest_check");
    body.text_member("version", version);
    body.close();
    body.close();
}

/// Whether the client names a value in the list at a pointer.
fn names(params: &Value, pointer: &str, name: &str) -> bool {
    for item in items_at(params, pointer) {
        if item.as_str() == Some(name) {
            return true;
        }
    }
    false
}

/// Whether a kind of actions is asked for: all are, where none is named. A kind has those below it.
fn asks_for(params: &Value, kind: &str) -> bool {
    let asked = items_at(params, "/context/only");
    if asked.is_empty() {
        return true;
    }
    for item in asked {
        if let Some(name) = item.as_str() {
            let below = kind.strip_prefix(name);
            if below.is_some_and(|rest| rest.is_empty() || rest.starts_with('.')) {
                return true;
            }
        }
    }
    false
}

/// Whether a diagnostic touches a range.
fn touches(diagnostic: &Diagnostic, range: Span) -> bool {
    let span = span_of(diagnostic);
    span.from <= range.to && span.to >= range.from
}

/// Whether a suggestion can be made by the editor, without a question.
fn has_certain(diagnostic: &Diagnostic) -> bool {
    for fix in &diagnostic.fixes {
        if fix.is_certain && !fix.replaced.is_empty() {
            return true;
        }
    }
    false
}

/// Where the feature or the dependency at an offset is named; nowhere, where there is none.
fn uses_at(
    alloc: Global,
    places: &Places,
    document: &Table,
    offset: usize,
) -> Result<Vec<Use>, AllocError> {
    let named = match spot_at(places, offset) {
        Some(spot) => named_at(alloc, document, spot.path)?,
        None => None,
    };
    match named {
        Some(named) => uses_of(alloc, document, named),
        None => Ok(Vec::new(alloc)),
    }
}

/// Writes the places at which the feature or the dependency at an offset is named.
fn push_uses(alloc: Global, body: &mut Text, view: &View<'_>, document: &Table, offset: usize) {
    let Some(Some(places)) = body.made(places_of(alloc, view.text)) else {
        return;
    };
    let Some(uses) = body.made(uses_at(alloc, &places, document, offset)) else {
        return;
    };
    for one in &uses {
        if let Some(span) = one.span(&places) {
            body.open();
            body.text_member("uri", view.uri);
            push_range(body, view, span);
            body.close();
        }
    }
}

/// The edits by which the feature or the dependency at an offset has another name; `None` where there is none, or where it
/// cannot have that name.
fn renaming_at(
    alloc: Global,
    known: &Known<'_>,
    offset: usize,
    name: &str,
) -> Result<Option<Vec<Edit>>, AllocError> {
    let Some(places) = places_of(alloc, known.text)? else {
        return Ok(None);
    };
    let Some(spot) = spot_at(&places, offset) else {
        return Ok(None);
    };
    match named_at(alloc, known.document, spot.path)? {
        Some(named) => renaming(alloc, known.document, named, name),
        None => Ok(None),
    }
}

/// The text with these edits made; `None` where there are none, or where they cannot be made.
fn renamed(
    alloc: Global,
    known: &Known<'_>,
    offset: usize,
    name: &str,
) -> Result<Option<Edited>, AllocError> {
    let Some(edits) = renaming_at(alloc, known, offset, name)? else {
        return Ok(None);
    };
    match with_edits(alloc, known.text, edits) {
        Ok(edited) => Ok(Some(edited)),
        Err(EditError::Memory) => Err(AllocError),
        Err(_) => Ok(None),
    }
}

/// Answers a range of a text.
fn push_location(body: &mut Text, view: &View<'_>, span: Span) {
    body.open_member("result");
    body.text_member("uri", view.uri);
    push_range(body, view, span);
    body.close();
}

/// Answers the beginning of a file.
fn push_file(alloc: Global, body: &mut Text, path: &str) {
    let Some(uri) = body.made(uri_of(alloc, path)) else {
        return;
    };
    body.open_member("result");
    body.text_member("uri", uri.as_str());
    let origin = "{\"line\":0,\"character\":0}";
    body.open_member("range");
    raw_member(body, "start", origin);
    raw_member(body, "end", origin);
    body.close();
    body.close();
}

/// Why a method cannot be called now; `None` where it can.
fn untimely(stage: Stage, method: &str) -> Option<Refusal> {
    match (stage, method == "initialize") {
        (Stage::New, true) | (Stage::Running, false) => None,
        (Stage::New, false) => Some(Refusal::NotInitialized),
        _ => Some(Refusal::NotAMessage),
    }
}

impl Session {
    /// Writes diagnostics as a member.
    fn push_found(&self, alloc: Global, body: &mut Text, key: &str, path: &str, checked: &Checked) {
        let Some(lines) = body.made(self.lines_of(alloc, path, checked)) else {
            return;
        };
        let views = self.views(path, checked, &lines);
        push_diagnostics(body, key, &views, checked.found.as_slice());
    }

    /// Tells what is said of a text now.
    fn publish<H: Files + AllocGlobal + Clone + Drop>(
        &mut self,
        rt: &H,
        path: &str,
        out: &mut Text,
    ) {
        let alloc = rt.alloc();
        let Some(checked) = out.made(self.check(rt, path, false)) else {
            return;
        };
        let mut body = begun_notification(alloc, "textDocument/publishDiagnostics");
        if let Some(opened) = self.opened.get(path) {
            body.text_member("uri", opened.uri.as_str());
            if let Some(version) = opened.version {
                body.number_member("version", version);
            }
        }
        self.push_found(alloc, &mut body, "diagnostics", path, &checked);
        body.close();
        body.close();
        push_frame(out, body);
    }

    /// The paths of the texts that are open.
    fn open_paths(&self, alloc: Global) -> Result<Vec<String>, AllocError> {
        let mut paths = Vec::new(alloc);
        for (path, _opened) in &self.opened {
            paths.push(path.clone()?)?;
        }
        Ok(paths)
    }

    /// Tells what is said of all texts, where one has changed and nobody asks for it.
    pub(crate) fn publish_all<H: Files + AllocGlobal + Clone + Drop>(
        &mut self,
        rt: &H,
        out: &mut Text,
    ) {
        if !self.is_changed || self.pulls {
            return;
        }
        self.is_changed = false;
        let Some(paths) = out.made(self.open_paths(rt.alloc())) else {
            return;
        };
        for path in &paths {
            self.publish(rt, path.as_str(), out);
        }
    }

    /// Takes diagnostics back of a text that is no longer open.
    fn unpublish(&self, out: &mut Text, uri: &str) {
        if self.pulls {
            return;
        }
        let mut body = begun_notification(out.allocator(), "textDocument/publishDiagnostics");
        body.text_member("uri", uri);
        body.open_list("diagnostics");
        body.close_list();
        body.close();
        body.close();
        push_frame(out, body);
    }

    /// Answers what the server can do, and notes what the client can.
    fn initialize(&mut self, params: &Value, version: &str, body: &mut Text) {
        self.stage = Stage::Running;
        if names(params, "/capabilities/general/positionEncodings", "utf-8") {
            self.units = Units::Bytes;
        }
        self.pulls = params
            .pointer("/capabilities/textDocument/diagnostic")
            .is_some();
        push_capabilities(body, self.units, version);
    }

    /// Writes the diagnostics of a text as they are now.
    fn push_items<H: Files + AllocGlobal + Clone + Drop>(
        &mut self,
        rt: &H,
        body: &mut Text,
        path: &str,
    ) {
        if let Some(checked) = body.made(self.check(rt, path, false)) {
            self.push_found(rt.alloc(), body, "items", path, &checked);
        }
    }

    /// Answers the diagnostics of a text.
    fn pull<H: Files + AllocGlobal + Clone + Drop>(
        &mut self,
        rt: &H,
        params: &Value,
        body: &mut Text,
    ) {
        let alloc = rt.alloc();
        body.open_member("result");
        body.text_member("kind", "full");
        match body.made(self.path_in(alloc, params)) {
            Some(Some(path)) => self.push_items(rt, body, path.as_str()),
            _ => {
                body.open_list("items");
                body.close_list();
            }
        }
        body.close();
    }

    /// The text with all suggestions made that are certain; `None` where there are none.
    fn mended<H: Files + AllocGlobal + Clone + Drop>(
        &mut self,
        rt: &H,
        path: &str,
    ) -> Result<Option<String>, AllocError> {
        let alloc = rt.alloc();
        let Some(document) = document_of(alloc, self.text(path).as_bytes())? else {
            return Ok(None);
        };
        let (placed, found) = self.judged(rt, path, document, true)?;
        let text = String::from_str(alloc, self.text(path))?;
        let state = &mut self.state;
        let fixed = with_fixes(rt, &self.scope, state, path, text, placed, found)?;
        self.state.forget(alloc);
        Ok(fixed.changed_text())
    }

    /// Writes the suggestions at a range as actions. It says whether one of them is certain.
    fn push_actions_at(
        &self,
        alloc: Global,
        params: &Value,
        body: &mut Text,
        path: &str,
        checked: &Checked,
    ) -> bool {
        let Some(lines) = body.made(self.lines_of(alloc, path, checked)) else {
            return false;
        };
        let views = self.views(path, checked, &lines);
        let text = views.own.text;
        let (Some(from), Some(to)) = (
            point_at(params, "/range/start/line", "/range/start/character"),
            point_at(params, "/range/end/line", "/range/end/character"),
        ) else {
            return false;
        };
        let range = Span {
            from: lines.own.offset(text, from, self.units),
            to: lines.own.offset(text, to, self.units),
        };
        let mut is_certain = false;
        for diagnostic in &checked.found {
            if touches(diagnostic, range) {
                is_certain = is_certain || has_certain(diagnostic);
                for fix in &diagnostic.fixes {
                    if !fix.replaced.is_empty() && asks_for(params, "quickfix") {
                        push_action(body, &views, diagnostic, fix);
                    }
                }
            }
        }
        is_certain
    }

    /// Writes the action by which the dependency at the beginning of a range is inherited, where that is certain.
    fn push_moves_at(
        &self,
        alloc: Global,
        params: &Value,
        body: &mut Text,
        path: &str,
        checked: &Checked,
    ) {
        let point = point_at(params, "/range/start/line", "/range/start/character");
        let (Some(known), Some(point)) = (self.known(path, checked), point) else {
            return;
        };
        let Some(root) = known.root else {
            return;
        };
        let Some(lines) = body.made(self.lines_of(alloc, path, checked)) else {
            return;
        };
        let views = self.views(path, checked, &lines);
        let offset = lines.own.offset(views.own.text, point, self.units);
        push_moves(
            alloc,
            body,
            &views,
            known.document,
            &root.document.table,
            offset,
        );
    }

    /// Writes the action that makes all suggestions which are certain, where there are some.
    fn push_all<H: Files + AllocGlobal + Clone + Drop>(
        &mut self,
        rt: &H,
        body: &mut Text,
        path: &str,
    ) {
        let Some(Some(new)) = body.made(self.mended(rt, path)) else {
            return;
        };
        let checked = Checked {
            placed: None,
            found: Vec::new(rt.alloc()),
        };
        let Some(lines) = body.made(self.lines_of(rt.alloc(), path, &checked)) else {
            return;
        };
        let views = self.views(path, &checked, &lines);
        push_rewriting(body, &views.own, new.as_str());
    }

    /// Writes the actions at a range of a text.
    fn push_actions<H: Files + AllocGlobal + Clone + Drop>(
        &mut self,
        rt: &H,
        params: &Value,
        body: &mut Text,
        path: &str,
    ) {
        let alloc = rt.alloc();
        let Some(checked) = body.made(self.check(rt, path, true)) else {
            return;
        };
        let is_certain = self.push_actions_at(alloc, params, body, path, &checked);
        if asks_for(params, "refactor.rewrite") {
            self.push_moves_at(alloc, params, body, path, &checked);
        }
        let is_asked = names(params, "/context/only", "source.fixAll")
            || names(params, "/context/only", "source");
        if (is_certain && asks_for(params, "source.fixAll")) || is_asked {
            self.push_all(rt, body, path);
        }
    }

    /// Answers the actions at a range of a text.
    fn actions<H: Files + AllocGlobal + Clone + Drop>(
        &mut self,
        rt: &H,
        params: &Value,
        body: &mut Text,
    ) {
        body.open_list("result");
        if let Some(Some(path)) = body.made(self.path_in(rt.alloc(), params)) {
            self.push_actions(rt, params, body, path.as_str());
        }
        body.close_list();
    }

    /// Writes the tables and keys of a text.
    fn push_symbols_of(&self, alloc: Global, body: &mut Text, path: &str) {
        let checked = Checked {
            placed: None,
            found: Vec::new(alloc),
        };
        let Some(lines) = body.made(self.lines_of(alloc, path, &checked)) else {
            return;
        };
        let views = self.views(path, &checked, &lines);
        push_symbols(alloc, body, &views.own);
    }

    /// Answers the tables and keys of a text.
    fn symbols(&mut self, alloc: Global, params: &Value, body: &mut Text) {
        body.open_list("result");
        if let Some(Some(path)) = body.made(self.path_in(alloc, params)) {
            self.push_symbols_of(alloc, body, path.as_str());
        }
        body.close_list();
    }

    /// What is known of the text at a position: its path, how it stands in its workspace, and the offset.
    fn position<H: Files + AllocGlobal + Clone + Drop>(
        &mut self,
        rt: &H,
        params: &Value,
    ) -> Result<Option<(String, Checked, usize)>, AllocError> {
        let point = point_at(params, "/position/line", "/position/character");
        let (Some(path), Some(point)) = (self.path_in(rt.alloc(), params)?, point) else {
            return Ok(None);
        };
        if !is_manifest(path.as_str()) {
            return Ok(None);
        }
        let (checked, offset) = self.position_in(rt, path.as_str(), point)?;
        Ok(Some((path, checked, offset)))
    }

    /// How the text at a path stands in its workspace, and the offset of a point in it.
    fn position_in<H: Files + AllocGlobal + Clone + Drop>(
        &mut self,
        rt: &H,
        path: &str,
        point: Point,
    ) -> Result<(Checked, usize), AllocError> {
        let text = self.text(path);
        let offset = Lines::of(rt.alloc(), text)?.offset(text, point, self.units);
        let placed = self.placed(rt, path)?;
        let found = Vec::new(rt.alloc());
        Ok((Checked { placed, found }, offset))
    }

    /// Answers what the key at an offset means.
    fn push_hover<H: Files + AllocGlobal + Clone + Drop>(
        &self,
        rt: &H,
        body: &mut Text,
        path: &str,
        checked: &Checked,
        offset: usize,
    ) {
        let found = match self.known(path, checked) {
            Some(known) => meaning_at(rt, &self.state.reader, &known, offset),
            None => Ok(None),
        };
        let Some(Some((meaning, span))) = body.made(found) else {
            body.null_member("result");
            return;
        };
        let Some(lines) = body.made(self.lines_of(rt.alloc(), path, checked)) else {
            return;
        };
        let views = self.views(path, checked, &lines);
        body.open_member("result");
        body.open_member("contents");
        body.text_member("kind", "markdown");
        body.text_member("value", meaning.as_str());
        body.close();
        push_range(body, &views.own, span);
        body.close();
    }

    /// Answers what the key at a position means.
    fn hover<H: Files + AllocGlobal + Clone + Drop>(
        &mut self,
        rt: &H,
        params: &Value,
        body: &mut Text,
    ) {
        match body.made(self.position(rt, params)) {
            Some(Some((path, checked, offset))) => {
                self.push_hover(rt, body, path.as_str(), &checked, offset);
            }
            _ => body.null_member("result"),
        }
    }

    /// Answers where that stands which was found.
    fn push_target(
        &self,
        alloc: Global,
        body: &mut Text,
        path: &str,
        checked: &Checked,
        target: &Target,
    ) {
        let Some(lines) = body.made(self.lines_of(alloc, path, checked)) else {
            return;
        };
        let views = self.views(path, checked, &lines);
        match (target, views.root) {
            (Target::Own(span), _) => push_location(body, &views.own, *span),
            (Target::Root(span), Some(root)) => push_location(body, &root, *span),
            // (a root inherits from itself)
            (Target::Root(span), None) => push_location(body, &views.own, *span),
            (Target::File(file), _) => push_file(alloc, body, file.as_str()),
        }
    }

    /// Answers where that stands to which the text at an offset refers.
    fn push_definition(
        &self,
        alloc: Global,
        body: &mut Text,
        path: &str,
        checked: &Checked,
        offset: usize,
    ) {
        let found = match self.known(path, checked) {
            Some(known) => target_at(alloc, &known, offset),
            None => Ok(None),
        };
        match body.made(found) {
            Some(Some(target)) => self.push_target(alloc, body, path, checked, &target),
            _ => body.null_member("result"),
        }
    }

    /// Answers where that stands to which the text at a position refers.
    fn define<H: Files + AllocGlobal + Clone + Drop>(
        &mut self,
        rt: &H,
        params: &Value,
        body: &mut Text,
    ) {
        match body.made(self.position(rt, params)) {
            Some(Some((path, checked, offset))) => {
                self.push_definition(rt.alloc(), body, path.as_str(), &checked, offset);
            }
            _ => body.null_member("result"),
        }
    }

    /// Writes where the feature or the dependency at an offset is named.
    fn push_references(
        &self,
        alloc: Global,
        body: &mut Text,
        path: &str,
        checked: &Checked,
        offset: usize,
    ) {
        let Some(known) = self.known(path, checked) else {
            return;
        };
        let Some(lines) = body.made(self.lines_of(alloc, path, checked)) else {
            return;
        };
        let views = self.views(path, checked, &lines);
        push_uses(alloc, body, &views.own, known.document, offset);
    }

    /// Answers where the feature or the dependency at a position is named.
    fn refer<H: Files + AllocGlobal + Clone + Drop>(
        &mut self,
        rt: &H,
        params: &Value,
        body: &mut Text,
    ) {
        body.open_list("result");
        if let Some(Some((path, checked, offset))) = body.made(self.position(rt, params)) {
            self.push_references(rt.alloc(), body, path.as_str(), &checked, offset);
        }
        body.close_list();
    }

    /// Answers the edits that give the feature or the dependency at an offset another name.
    fn push_renaming(
        &self,
        alloc: Global,
        body: &mut Text,
        path: &str,
        checked: &Checked,
        offset: usize,
        name: &str,
    ) {
        let found = match self.known(path, checked) {
            Some(known) => renamed(alloc, &known, offset, name),
            None => Ok(None),
        };
        let Some(Some(edited)) = body.made(found) else {
            body.null_member("result");
            return;
        };
        let Some(lines) = body.made(self.lines_of(alloc, path, checked)) else {
            return;
        };
        let views = self.views(path, checked, &lines);
        body.open_member("result");
        push_changes(body, &views.own, edited.replaced.as_slice());
        body.close();
    }

    /// Answers the edits that give the feature or the dependency at a position another name.
    fn rename<H: Files + AllocGlobal + Clone + Drop>(
        &mut self,
        rt: &H,
        params: &Value,
        body: &mut Text,
    ) {
        let position = body.made(self.position(rt, params));
        match (position, text_at(params, "/newName")) {
            (Some(Some((path, checked, offset))), Some(name)) => {
                self.push_renaming(rt.alloc(), body, path.as_str(), &checked, offset, name);
            }
            _ => body.null_member("result"),
        }
    }

    /// Answers what can be written at a position.
    fn complete<H: Files + AllocGlobal + Clone + Drop>(
        &mut self,
        rt: &H,
        params: &Value,
        body: &mut Text,
    ) {
        body.open_list("result");
        if let Some(Some((path, checked, offset))) = body.made(self.position(rt, params)) {
            if let Some(known) = self.known(path.as_str(), &checked) {
                push_offers(rt, body, &known, offset);
            }
        }
        body.close_list();
    }

    /// Writes what is answered to a request that can be made now.
    fn push_answer<H: Files + AllocGlobal + Clone + Drop>(
        &mut self,
        rt: &H,
        call: &Call,
        version: &str,
        body: &mut Text,
    ) {
        let params = &call.params;
        match call.method.as_str() {
            "initialize" => self.initialize(params, version, body),
            "shutdown" => {
                self.stage = Stage::Ending;
                body.null_member("result");
            }
            "textDocument/diagnostic" => self.pull(rt, params, body),
            "textDocument/codeAction" => self.actions(rt, params, body),
            "textDocument/documentSymbol" => self.symbols(rt.alloc(), params, body),
            "textDocument/hover" => self.hover(rt, params, body),
            "textDocument/definition" => self.define(rt, params, body),
            "textDocument/completion" => self.complete(rt, params, body),
            "textDocument/references" => self.refer(rt, params, body),
            "textDocument/rename" => self.rename(rt, params, body),
            _ => push_error(body, Refusal::UnknownMethod),
        }
    }

    /// Answers a request.
    pub(crate) fn answer<H: Files + AllocGlobal + Clone + Drop>(
        &mut self,
        rt: &H,
        id: &str,
        call: &Call,
        version: &str,
        out: &mut Text,
    ) {
        let mut body = begun(rt.alloc(), id);
        match untimely(self.stage, call.method.as_str()) {
            Some(refusal) => push_error(&mut body, refusal),
            None => self.push_answer(rt, call, version, &mut body),
        }
        body.close();
        push_frame(out, body);
    }

    /// Takes a notification. Those that are not known are passed over.
    pub(crate) fn note(&mut self, alloc: Global, call: &Call, out: &mut Text) {
        if self.stage != Stage::Running {
            return;
        }
        match call.method.as_str() {
            "textDocument/didOpen" => {
                let _ = out.made(self.open(alloc, &call.params));
            }
            "textDocument/didChange" => {
                let _ = out.made(self.change(alloc, &call.params));
            }
            "textDocument/didSave" | "workspace/didChangeWatchedFiles" => self.is_changed = true,
            "textDocument/didClose" => {
                if let Some(Some(uri)) = out.made(self.close(alloc, &call.params)) {
                    self.unpublish(out, uri.as_str());
                }
            }
            _ => {}
        }
    }
}
