//! Dependencies that can be inherited from the workspace, or moved there, where that is certain to mean the same.

use crate::forms::is_of_dependencies;
use crate::hover::value_at;
use crate::reports::{View, Views, push_splices};
use crate::spots::{names_of, spot_at};
use manifest_json::Text;
use manifest_places::{Edit, EditError, Edited, Step, places_of, with_edits};
use std::alloc::{AllocError, Global};
use toml::{Table, Value};

/// What stands in the place of a version that is inherited.
const INHERITED: &str = "{ workspace = true }";

/// A dependency of a package that has a version and nothing else.
#[derive(Drop)]
struct Plain {
    path: Vec<Step>,
    name: String,
    version: String,
}

/// What the workspace has by the name of a dependency.
#[derive(Clone, Copy, PartialEq, Eq)]
enum There {
    Nothing,
    /// The same version, and nothing else.
    Same,
    Other,
}

/// The dependency at an offset, where it has a version and nothing else.
fn plain_at(
    alloc: Global,
    text: &str,
    document: &Table,
    offset: usize,
) -> Result<Option<Plain>, AllocError> {
    let Some(places) = places_of(alloc, text)? else {
        return Ok(None);
    };
    let Some(spot) = spot_at(&places, offset) else {
        return Ok(None);
    };
    let names = names_of(alloc, spot.path)?;
    match (names.as_slice(), value_at(document, names.as_slice())) {
        ([section, name], Some(Value::String(version))) if is_of_dependencies(*section) => {
            Ok(Some(Plain {
                path: manifest_rules::copied(alloc, spot.path)?,
                name: String::from_str(alloc, *name)?,
                version: version.clone()?,
            }))
        }
        _ => Ok(None),
    }
}

/// What the workspace has by this name.
fn standing_of(root: &Table, name: &str, version: &str) -> There {
    match value_at(root, &["workspace", "dependencies", name]) {
        None => There::Nothing,
        Some(Value::String(text)) if text.as_str() == version => There::Same,
        Some(_) => There::Other,
    }
}

/// The text with one edit made; `None` where it cannot be made.
fn edited(alloc: Global, text: &str, edit: Edit) -> Result<Option<Edited>, AllocError> {
    let mut edits = Vec::new(alloc);
    edits.push(edit)?;
    match with_edits(alloc, text, edits) {
        Ok(edited) => Ok(Some(edited)),
        Err(EditError::Memory) => Err(AllocError),
        Err(_) => Ok(None),
    }
}

/// The root's text with a dependency in its workspace; `None` where it has no table for that.
fn with_dependency(
    alloc: Global,
    root: &View<'_>,
    dependency: &Plain,
) -> Result<Option<Edited>, AllocError> {
    let mut path = Vec::new(alloc);
    for name in &["workspace", "dependencies", dependency.name.as_str()] {
        path.push(Step::Key(String::from_str(alloc, *name)?))?;
    }
    let version = Value::string(alloc, dependency.version.as_str())?;
    let value = format!(in alloc; "{version}")?;
    edited(alloc, root.text, Edit::Insert(path, value))
}

/// Writes the edits by which a dependency is inherited, after those of the root, if there are some.
fn push_edits(body: &mut Text, views: &Views<'_>, own: &Edited, root: Option<&Edited>) {
    body.open_member("edit");
    body.open_member("changes");
    if let (Some(edited), Some(view)) = (root, views.root) {
        push_splices(body, &view, edited.replaced.as_slice());
    }
    push_splices(body, &views.own, own.replaced.as_slice());
    body.close();
    body.close();
}

/// The text in which the dependency at a path is inherited; `None` where it cannot be written so.
fn with_inherited(alloc: Global, text: &str, path: &[Step]) -> Result<Option<Edited>, AllocError> {
    let path = manifest_rules::copied(alloc, path)?;
    let value = String::from_str(alloc, INHERITED)?;
    edited(alloc, text, Edit::Set(path, value))
}

/// Writes an action by which a dependency is inherited.
fn push_move(
    alloc: Global,
    body: &mut Text,
    views: &Views<'_>,
    dependency: &Plain,
    root: Option<&Edited>,
) {
    let own = with_inherited(alloc, views.own.text, dependency.path.as_slice());
    let Some(Some(own)) = body.made(own) else {
        return;
    };
    let name = dependency.name.as_str();
    let title = if root.is_some() {
        format!(in alloc; "move `{name}` to the workspace, and inherit it")
    } else {
        format!(in alloc; "inherit `{name}` from the workspace")
    };
    let Some(title) = body.made(title) else {
        return;
    };
    body.open();
    body.text_member("title", title.as_str());
    body.text_member("kind", "refactor.rewrite");
    push_edits(body, views, &own, root);
    body.close();
}

/// Writes the action by which the dependency at an offset is inherited from the workspace, where that means the same: the
/// workspace has it with the same version, or can be given it.
pub(crate) fn push_moves(
    alloc: Global,
    body: &mut Text,
    views: &Views<'_>,
    document: &Table,
    root: &Table,
    offset: usize,
) {
    let found = body.made(plain_at(alloc, views.own.text, document, offset));
    let Some(Some(dependency)) = found else {
        return;
    };
    match (
        standing_of(root, dependency.name.as_str(), dependency.version.as_str()),
        views.root,
    ) {
        (There::Same, _) => push_move(alloc, body, views, &dependency, None),
        (There::Nothing, Some(view)) => {
            let edited = with_dependency(alloc, &view, &dependency);
            if let Some(Some(edited)) = body.made(edited) {
                push_move(alloc, body, views, &dependency, Some(&edited));
            }
        }
        _ => {}
    }
}
