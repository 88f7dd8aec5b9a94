//! How much a manifest inherits of a workspace's dependencies, counted before any of it is copied.

ghost use Rattle.std.specs.Prelude.{◌≡◌, map, option_map, string_bytes};
ghost use Rattle.manifest_parts.specs.Records.{dependency_content, detail_content};
ghost use Rattle.cargo_manifest.specs.Tables.{workspace_of};
ghost use Rattle.cargo_manifest.specs.Whole.{manifest_of};
ghost use Rattle.manifest_value.specs.Entries.{entries_content};
ghost use Rattle.manifest_inherit.specs.ForProofs.{shared_by_map};
ghost use Rattle.manifest_inherit.specs.Sizes.{text_size, optional_size, texts_size, optional_texts_size, detail_size, given_size, dependency_size, entries_size, optional_entries_size, inherited_size_of, inherits_at_most, Leaves};

use crate::dependency::workspace_dependency;
use crate::maps::Resolvable;
use cargo_manifest::{Manifest, Metadata, Workspace};
use manifest_parts::{Dependency, DependencyDetail, DepsSet};
use std::collections::BTreeMap;

/// What is left of `most` after a text; `None` where that takes more.
fn less_text(most: usize, text: &str) -> Option<usize>
    ensures { Leaves most (text_size text.now) result }
{
    most.checked_sub(text.len())?.checked_sub(2)
}

/// What is left of `most` after a text that may be absent.
fn less_optional(most: usize, text: &Option<String>) -> Option<usize>
    ensures { Leaves most (optional_size (option_map string_bytes text.now)) result }
{
    match text {
        Some(text) => less_text(most, text.as_str()),
        None => Some(most),
    }
}

/// What is left of `most` after texts.
fn less_texts(most: usize, texts: &[String]) -> Option<usize>
    ensures { Leaves most (texts_size (map string_bytes texts.now)) result }
{
    let mut left = most;
    for text in texts {
        left = less_text(left, text.as_str())?;
    }
    Some(left)
}

/// What is left of `most` after texts that may be absent.
fn less_optional_texts(most: usize, texts: &Option<Vec<String>>) -> Option<usize>
    ensures { Leaves most
        (optional_texts_size (option_map (λ v. map string_bytes v.items) texts.now)) result }
{
    match texts {
        Some(texts) => less_texts(most, texts.as_slice()),
        None => Some(most),
    }
}

/// What is left of `most` after the texts of a detail.
fn less_detail(most: usize, detail: &DependencyDetail) -> Option<usize>
    ensures { Leaves most (detail_size (detail_content detail.now)) result }
{
    let left = less_optional(most, &detail.version)?;
    let left = less_optional(left, &detail.registry)?;
    let left = less_optional(left, &detail.registry_index)?;
    let left = less_optional(left, &detail.path)?;
    let left = less_optional(left, &detail.git)?;
    let left = less_optional(left, &detail.branch)?;
    let left = less_optional(left, &detail.tag)?;
    let left = less_optional(left, &detail.rev)?;
    let left = less_optional_texts(left, &detail.features)?;
    less_optional(left, &detail.package)
}

/// What is left of `most` after what a dependency of this name inherits of the workspace's dependencies (`shared`).
pub(crate) fn less_dependency(
    most: usize,
    shared: &Option<DepsSet>,
    name: &str,
    own: &Dependency,
) -> Option<usize>
    ensures { let d = dependency_content own.now in
        Leaves most (dependency_size (shared_by_map shared.now) name.now d) result }
{
    match own {
        Dependency::Simple(_) => Some(most),
        Dependency::Detailed(_) => Some(most),
        Dependency::Inherited(_) => match workspace_dependency(shared, name) {
            None => Some(most),
            Some(Dependency::Inherited(_)) => Some(most),
            Some(Dependency::Simple(version)) => less_text(most, version.as_str()),
            Some(Dependency::Detailed(detail)) => less_detail(most, detail),
        },
    }
}

/// What is left of `most` after what each value of a map inherits, under its name.
pub(crate) fn less_map<T: Resolvable>(
    most: usize,
    shared: &Option<DepsSet>,
    own: &BTreeMap<String, T>,
) -> Option<usize>
    ensures { let size = T.size (shared_by_map shared.now) in
        Leaves most (entries_size size (entries_content T.content own.now.entries)) result }
{
    let mut left = most;
    for (key, x) in own.iter() {
        left = x.less_inherited(left, shared, key.as_str())?;
    }
    Some(left)
}

/// What is left of `most` after what a map inherits that may be absent.
fn less_optional_map<T: Resolvable>(
    most: usize,
    shared: &Option<DepsSet>,
    own: &Option<BTreeMap<String, T>>,
) -> Option<usize>
    ensures { let size = T.size (shared_by_map shared.now) in
        let o = option_map (λ m. entries_content T.content m.entries) own.now in
        Leaves most (optional_entries_size size o) result }
{
    match own {
        Some(own) => less_map(most, shared, own),
        None => Some(most),
    }
}

/// What is left of `most` after all that a manifest inherits of the workspace's dependencies (`shared`).
fn less_inherited<P: Metadata, W: Metadata>(
    most: usize,
    shared: &Option<DepsSet>,
    manifest: &Manifest<P, W>,
) -> Option<usize>
    ensures { let m = manifest_of P.kind W.kind P.content W.content manifest.now in
        Leaves most (inherited_size_of (shared_by_map shared.now) m) result }
{
    let left = less_optional_map(most, shared, &manifest.dependencies)?;
    let left = less_optional_map(left, shared, &manifest.dev_dependencies)?;
    let left = less_optional_map(left, shared, &manifest.build_dependencies)?;
    less_optional_map(left, shared, &manifest.target)
}

/// Whether what a manifest inherits of a workspace's dependencies takes at most `most` bytes: the texts of each
/// dependency, with two bytes more for each text, at each place that inherits it. Nothing is copied for that.
///
/// [`resolve`](crate::resolve) copies a dependency to each place that inherits it. So a manifest with many platforms
/// that inherit one long dependency takes as much memory as the square of the two files; a program that resolves the
/// manifests of others asks this first.
///
/// ```ignore
/// let is_short = inherits_at_most(manifest, workspace, most); // 5 bytes for each place that inherits `a = '2.0'`
/// ```
pub fn inherits_at_most<P: Metadata, W: Metadata, V: Metadata>(
    manifest: &Manifest<P, W>,
    workspace: &Workspace<V>,
    most: usize,
) -> bool
    ensures { let m = manifest_of P.kind W.kind P.content W.content manifest.now in
        let w = workspace_of V.kind V.content workspace.now in
        result ≡ inherits_at_most m w most }
{
    less_inherited(most, &workspace.dependencies, manifest).is_some()
}
