//! What is found in the table of a document: each fault, what does not fit where that is no fault, and each key that
//! nothing reads.

ghost use Rattle.manifest_schema.specs.Prelude.{get_member, table_view, raw, tree_of, manifest_findings, manifest_faults, manifest_ignored, manifest_unused, old_findings};
ghost use Rattle.std.specs.Prelude.{◌≡◌, codes, map, IfOk};
ghost use Rattle.manifest_fault.specs.Faults.{path_of};
ghost use Rattle.manifest_fault.specs.Found.{fault_of, found};

use crate::manifest::Manifest;
use crate::package::Package;
use crate::reading::has_package_or_workspace;
use manifest_value::form_findings::{
    and_unused, entries_left_over, findings_of_closed, findings_of_form,
};
use manifest_value::readers::find;
use manifest_value::{Found, KeyPath, Metadata, Schema, SchemaFault, entries_without, spelled};
use std::alloc::{AllocError, Global};
use toml::{Table, Value};

/// What is found in a table without a header: by the rows of a manifest, and then in `project`, if it is there, or else
/// by the rows of a package; and then each key that nothing reads.
#[tactic(auto, using(manifest_fault::proofs::FindingTrees::finding_steps))]
fn old_findings<P: Metadata, W: Metadata>(alloc: Global, table: &Table) -> Found
    ensures { let ms = table_view table.now in
        IfOk result (λ f. found f ≡ old_findings (tree_of P.kind) (tree_of W.kind) ms
        (get_member (codes "project") ms)) }
{
    let (rows, rest) = findings_of_closed::<Manifest<P, W>>(alloc, table)?;
    match find(table, "project") {
        Some(project) => {
            let inside = Package::<P>::findings(alloc, project)?;
            let left = entries_without(alloc, rest, &spelled!["project"])?;
            let found = rows.and_under(alloc, "project", inside)?;
            let found = and_unused(alloc, found, left)?;
            Ok(found)
        }
        None => {
            let (package, _) = findings_of_closed::<Package<P>>(alloc, table)?;
            let left = entries_left_over::<Package<P>>(alloc, rest)?;
            let found = rows.and(and_unused(alloc, package, left)?)?;
            Ok(found)
        }
    }
}

/// What is found in the table of a document, with the package's metadata as a `P` and the workspace's as a `W`: in the
/// order of the rows of the forms each fault, what is ignored as it does not fit where that is no fault, and, after
/// the rows of a table, each of its keys that nothing reads. Nothing is found below such a key.
///
/// The findings have no fault exactly where the table means a manifest, if each value has a reading or a fault as
/// metadata; and their first fault is the one with which the table is refused. It fails only when out of memory.
///
/// ```ignore
/// let found = inspect_with_metadata::<Unread, Unread>(alloc, &table)?; // metadata is not looked at
/// ```
pub fn inspect_with_metadata<P: Metadata, W: Metadata>(alloc: Global, table: &Table) -> Found
    ensures { IfOk result (λ f. found f
        ≡ manifest_findings (tree_of P.kind) (tree_of W.kind) (table_view table.now)) }
{
    if has_package_or_workspace(table) {
        findings_of_form::<Manifest<P, W>>(alloc, table)
    } else {
        old_findings::<P, W>(alloc, table)
    }
}

/// What is found in the table of a document, with metadata kept as it is: [`inspect_with_metadata`].
///
/// ```ignore
/// let table = toml::table_from_str(alloc, "[package]\nname = 1\nedtion = '2021'")?;
/// let found = inspect(alloc, &table)?; // `wrong kind at package.name`, and nothing reads `package.edtion`
/// ```
pub fn inspect(alloc: Global, table: &Table) -> Found
    ensures { IfOk result (λ f. found f
        ≡ manifest_findings (tree_of raw) (tree_of raw) (table_view table.now)) }
{
    inspect_with_metadata::<Value, Value>(alloc, table)
}

/// Every fault of the table of a document, in order: none exactly where [`Manifest::from_slice`] reads it, and else the
/// first is the one with which that refuses it. It fails only when out of memory.
///
/// Each path has a copy of its keys, so the list can be as long as the square of the document, where a long key stands
/// above many faults; [`inspect`] answers a tree, in which each key stands once.
///
/// ```ignore
/// let table = toml::table_from_str(alloc, "[package]\nname = 1\nauthors = [2]")?;
/// let all = faults(alloc, &table)?; // `wrong kind` at `package.name` and at `package.authors[0]`
/// ```
pub fn faults(alloc: Global, table: &Table) -> Result<Vec<SchemaFault>, AllocError>
    ensures { IfOk result (λ v. map fault_of v.items
        ≡ manifest_faults (tree_of raw) (tree_of raw) (table_view table.now)) }
{
    inspect(alloc, table)?.faults(alloc)
}

/// What does not fit in the table of a document where that is no fault, since the field counts as absent: an invalid
/// badge. In order; it fails only when out of memory. The list can be long, as that of [`faults`].
///
/// ```ignore
/// let table = toml::table_from_str(alloc, "package.name = 'a'\nbadges.gitlab = 1")?;
/// let dropped = ignored(alloc, &table)?; // `wrong kind` at `badges.gitlab`
/// ```
pub fn ignored(alloc: Global, table: &Table) -> Result<Vec<SchemaFault>, AllocError>
    ensures { IfOk result (λ v. map fault_of v.items
        ≡ manifest_ignored (tree_of raw) (tree_of raw) (table_view table.now)) }
{
    inspect(alloc, table)?.ignored(alloc)
}

/// The paths of the keys of the table of a document that nothing reads: a manifest does not hold them, and they are
/// dropped where it is written. In order, and none below another; it fails only when out of memory. The list can be
/// long, as that of [`faults`].
///
/// ```ignore
/// let table = toml::table_from_str(alloc, "[package]\nname = 'a'\nedtion = '2021'")?;
/// let keys = unused_keys(alloc, &table)?; // `package.edtion`
/// ```
pub fn unused_keys(alloc: Global, table: &Table) -> Result<Vec<KeyPath>, AllocError>
    ensures { IfOk result (λ v. map path_of v.items
        ≡ manifest_unused (tree_of raw) (tree_of raw) (table_view table.now)) }
{
    inspect(alloc, table)?.unused(alloc)
}
