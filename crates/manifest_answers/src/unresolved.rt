//! Why a member cannot inherit what it inherits, and where that stands in its text and in the root's, as tagged bytes.

ghost use Rattle.manifest_schema.specs.Prelude.{view};
ghost use Rattle.std.specs.Prelude.{◌≡◌, IfOk};
ghost use Rattle.cargo_manifest.specs.Tables.{workspace_content};
ghost use Rattle.cargo_manifest.specs.Whole.{manifest_content};
ghost use Rattle.manifest_inherit.specs.Refused.{all_refusals};
ghost use Rattle.manifest_inherit.specs.Answers.{refusal_of};
ghost use Rattle.manifest_places.specs.Paths.{path_of};
ghost use Rattle.manifest_answers.specs.Made.{IsMade};
ghost use Rattle.manifest_answers.specs.Unresolved.{shared_part, shared_under, first_key, asked_by, asked_for, asked_for_by, refusal_data, refused_among, SayRefusals, GivesRefused, RefusesRefused, GivesByRoot, RefusesByRoot, GivesOfMember, RefusesOfMember, GivesRefusals, RefusesRefusals};

use crate::inspecting::{Reported, nodes_value, triple};
use crate::making::tagged_bytes;
use crate::placing::{located, places_value};
use crate::reading::{Input, read, release};
use crate::refusal::Refusal;
use crate::reporting::{refusal_name, refusal_status};
use cargo_manifest::{FindingNode, Manifest, Step, Value, Workspace};
use manifest_inherit::{FinishError, Refusal as Unresolved, refusals};
use manifest_places::{AtItsPath, Located, LooksAt, Places};
use manifest_written::Written;
use std::alloc::{AllocError, Global};

/// A refusal as a value: the number 0, the status by which a call is refused for it, and the text of that status.
fn refusal_value(alloc: Global, refusal: &Unresolved) -> Result<Value, AllocError>
    ensures { IfOk result (λ v. view v ≡ refusal_data refusal.now) }
{
    let status = Value::Integer(i64::from(refusal_status(refusal)));
    let name = Value::string(alloc, refusal_name(refusal))?;
    triple(alloc, Value::Integer(0), status, name)
}

impl Reported for Unresolved {
    ghost reported = { refusal_data };

    fn reported_value(&self, alloc: Global) -> Result<Value, AllocError> {
        refusal_value(alloc, self)
    }
}

/// The path of a part of the workspace, as `workspace.lints`.
fn shared_part(alloc: Global, part: &str) -> Result<Vec<Step>, AllocError>
    ensures { IfOk result (λ steps. path_of steps.items ≡ shared_part part.now) }
{
    let mut steps = Vec::new(alloc);
    steps.push(Step::Key(String::from_str(alloc, "workspace")?))?;
    steps.push(Step::Key(String::from_str(alloc, part)?))?;
    Ok(steps)
}

/// The path of what stands under a name in a part of the workspace, as `workspace.dependencies.serde`.
fn shared_under(alloc: Global, part: &str, name: &str) -> Result<Vec<Step>, AllocError>
    ensures { IfOk result (λ steps. path_of steps.items ≡ shared_under part.now name.now) }
{
    let mut steps = shared_part(alloc, part)?;
    steps.push(Step::Key(String::from_str(alloc, name)?))?;
    Ok(steps)
}

/// The first key of a path, where it begins with one.
fn first_key(path: &[Step]) -> &str
    ensures { result.now ≡ first_key (path_of path.now) }
{
    match path.first() {
        Some(Step::Key(key)) => key.as_str(),
        _ => "",
    }
}

/// The path in the root of what its workspace does not have, by the first key of the path in the member and by its name.
fn asked_by(alloc: Global, part: &str, name: &str) -> Result<Vec<Step>, AllocError>
    ensures { IfOk result (λ steps. path_of steps.items ≡ asked_by part.now name.now) }
{
    if part == "package" {
        shared_under(alloc, "package", name)
    } else if part == "lints" {
        shared_part(alloc, "lints")
    } else {
        shared_under(alloc, "dependencies", name)
    }
}

/// The path in the root of what a refusal asks for, by that of the refusal in the member.
fn asked_for(alloc: Global, path: &[Step], refusal: &Unresolved) -> Result<Vec<Step>, AllocError>
    ensures { IfOk result
        (λ steps. path_of steps.items ≡ asked_for (path_of path.now) (refusal_of refusal.now)) }
{
    match refusal {
        Unresolved::NotInWorkspace(name) => asked_by(alloc, first_key(path), name.as_str()),
        Unresolved::InheritedInWorkspace(name) => {
            shared_under(alloc, "dependencies", name.as_str())
        }
        Unresolved::MixedLints => shared_part(alloc, "lints"),
        Unresolved::ToolNamedWorkspace => shared_under(alloc, "lints", "workspace"),
    }
}

/// A refusal is looked for where that is, in the document of the root, which it asks for.
struct InWorkspace;

impl LooksAt<Unresolved> for InWorkspace {
    ghost leads = { asked_for_by };

    fn located(
        places: &Places,
        alloc: Global,
        refusal: &Unresolved,
        path: &mut Vec<Step>,
    ) -> Result<Located, AllocError> {
        let asked = asked_for(alloc, path.as_slice(), refusal)?;
        let located = places.locate(asked.as_slice());
        drop(asked);
        Ok(located)
    }
}

/// The refusals that the nodes say, where they stand in the text of the member, and where that stands in the text of the root
/// which they ask for, as a value.
fn refusals_value(
    alloc: Global,
    bytes: &[u8],
    root: &[u8],
    nodes: &[FindingNode<Unresolved>],
) -> Result<Value, AllocError>
    ensures { IfOk result
        (λ v. SayRefusals bytes.now root.now (refused_among nodes.now) (view v)) }
{
    let own = located::<Unresolved, AtItsPath>(alloc, bytes, nodes)?;
    let own_places = places_value(alloc, own.as_slice())?;
    let shared = located::<Unresolved, InWorkspace>(alloc, root, nodes)?;
    let shared_places = places_value(alloc, shared.as_slice())?;
    let tree = nodes_value(alloc, nodes)?;
    let value = triple(alloc, tree, own_places, shared_places)?;
    Ok(value)
}

/// The tagged bytes of the refusals that the nodes say, and of where they stand in both texts.
fn bytes_of_refusals(
    alloc: Global,
    bytes: &[u8],
    root: &[u8],
    nodes: &[FindingNode<Unresolved>],
    most: usize,
) -> Result<Vec<u8>, Refusal>
    ensures { let refusals = refused_among nodes.now in
        IsMade (GivesRefused most bytes.now root.now refusals)
        (RefusesRefused most bytes.now root.now refusals) result }
{
    let value = refusals_value(alloc, bytes, root, nodes)?;
    tagged_bytes(alloc, &Written::Value(&value), most)
}

/// The tagged bytes of all refusals of the member over the workspace of the root.
fn refusals_over(
    alloc: Global,
    bytes: &[u8],
    root: &[u8],
    member: &Manifest,
    workspace: &Workspace,
    most: usize,
) -> Result<Vec<u8>, Refusal>
    ensures { let m = manifest_content view view member.now in
        let found = all_refusals m (workspace_content view workspace.now) in
        IsMade (GivesRefused most bytes.now root.now found)
        (RefusesRefused most bytes.now root.now found) result }
{
    let found = refusals(alloc, member, workspace)?;
    bytes_of_refusals(alloc, bytes, root, found.nodes(), most)
}

/// The tagged bytes of all refusals of the member over the workspace of the root's manifest. Refuses one without a workspace.
fn refusals_by_root(
    alloc: Global,
    bytes: &[u8],
    root: &[u8],
    member: &Manifest,
    lender: &Manifest,
    most: usize,
) -> Result<Vec<u8>, Refusal>
    ensures { let m = manifest_content view view member.now in
        let r = manifest_content view view lender.now in
        IsMade (GivesByRoot most bytes.now root.now m r)
        (RefusesByRoot most bytes.now root.now m r) result }
{
    match &lender.workspace {
        Some(workspace) => refusals_over(alloc, bytes, root, member, workspace, most),
        None => Err(Refusal::Finishing(FinishError::NoWorkspace)),
    }
}

/// The tagged bytes of all refusals of the member over the workspace of the root, which is read first.
fn refusals_of_member(
    alloc: Global,
    bytes: &[u8],
    root: &[u8],
    member: &Manifest,
    most: usize,
) -> Result<Vec<u8>, Refusal>
    ensures { let m = manifest_content view view member.now in
        IsMade (GivesOfMember most bytes.now root.now m)
        (RefusesOfMember most bytes.now root.now m) result }
{
    match read(alloc, Input::Toml, root) {
        Ok(lender) => {
            let found = refusals_by_root(alloc, bytes, root, member, &lender, most);
            release(lender);
            found
        }
        Err(refused) => Err(Refusal::Root(refused)),
    }
}

/// The tagged bytes of all refusals of the member that the bytes are over the workspace of the root, of where they stand in
/// the text of the member, and of where that stands in the text of the root which they ask for. Refuses a member or a root
/// that is not read, a root without a workspace, tagged bytes that are more than `most`, and when out of memory.
pub(crate) fn placed_refusals(
    alloc: Global,
    bytes: &[u8],
    root: &[u8],
    most: usize,
) -> Result<Vec<u8>, Refusal>
    ensures { IsMade (GivesRefusals most bytes.now root.now)
        (RefusesRefusals most bytes.now root.now) result }
{
    match read(alloc, Input::Toml, bytes) {
        Ok(member) => {
            let found = refusals_of_member(alloc, bytes, root, &member, most);
            release(member);
            found
        }
        Err(refused) => Err(Refusal::Bytes(refused)),
    }
}
