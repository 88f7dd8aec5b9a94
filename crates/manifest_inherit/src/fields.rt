//! The fields of a package that may be inherited from a workspace.

ghost use Rattle.std.specs.Prelude.{◌≡◌, ◌<◌, Some, IfOk, length, option_map};
ghost use Rattle.manifest_parts.specs.Parts.{inh_content};
ghost use Rattle.cargo_manifest.specs.Tables.{workspace_package_content, package_of};
ghost use Rattle.manifest_inherit.specs.Fields.{lendable};
ghost use Rattle.manifest_inherit.specs.Resolved.{resolved_field, resolved_package};
ghost use Rattle.manifest_inherit.specs.Refused.{field_refusals, fields_refusals, some_refusals};
ghost use Rattle.manifest_inherit.specs.Answers.{refused};
ghost use Rattle.manifest_inherit.specs.ForProofs.{how_many, refusals_at};

use crate::error::{Refusals, not_in_workspace};
use cargo_manifest::{Package, WorkspacePackage};
use manifest_parts::MaybeInherited;
use manifest_value::{Findings, Metadata, Schema, at_place};
use std::alloc::Global;

/// Why a field is not resolved, under its key: the package inherits it (`own`), and the workspace does not have it
/// (`shared`).
#[tactic(auto, using(crate::proofs::ListLemmas::refusal_steps))]
fn field_refusals<T: Schema>(
    alloc: Global,
    key: &str,
    own: &Option<MaybeInherited<T>>,
    shared: &Option<T>,
) -> Refusals
    ensures { let o = option_map (inh_content T.content) own.now in
        let l = option_map T.content shared.now in
        IfOk result (λ f. refused f ≡ field_refusals key.now o l) }
{
    match (own, shared) {
        (Some(MaybeInherited::Inherited { .. }), None) => {
            let here = Findings::alone(alloc, not_in_workspace(alloc, key)?)?;
            let found = Findings::none(alloc).and_under(alloc, key, here)?;
            Ok(found)
        }
        _ => Ok(Findings::none(alloc)),
    }
}

/// The fields that may be inherited from a workspace, each with its key, in the order of the definitions.
/// `lendable!(put_of(own, shared))` calls `put_of!` with these arguments and then the fields.
macro_rules! lendable {
    ($make:ident $given:tt) => {
        $make! { $given
            edition: "edition";
            version: "version";
            authors: "authors";
            description: "description";
            homepage: "homepage";
            documentation: "documentation";
            readme: "readme";
            keywords: "keywords";
            categories: "categories";
            license: "license";
            license_file: "license-file";
            repository: "repository";
            rust_version: "rust-version";
            exclude: "exclude";
            include: "include";
            publish: "publish";
        }
    };
}

/// The keys of the fields, as a slice.
macro_rules! keys_of {
    (() $($field:ident: $key:literal;)*) => { &[$($key),*] };
}

/// The body of `refusals_at` by the list, a `match` on `i`.
macro_rules! refusals_of {
    (($alloc:ident, $own:ident, $shared:ident, $i:ident) $($field:ident: $key:literal;)*) => {
        at_place!($i; Ok(Findings::none($alloc));
            $({ field_refusals($alloc, $key, &$own.$field, &$shared.$field) })*)
    };
}

/// The body of `put_fields` by the list.
macro_rules! put_of {
    (($own:ident, $shared:ident) $($field:ident: $key:literal;)*) => {{
        let WorkspacePackage { $($field),* } = $shared;
        $(put_field(&mut $own.$field, $field);)*
    }};
}

static KEYS: &[&str] = lendable!(keys_of());

/// The keys of the fields that a package can inherit. The contract says only how many there are, by which they are
/// counted through.
#[tactic(auto, unfolding(crate::specs::Fields::lendable))]
fn keys() -> &'static [&'static str]
    ensures { length result.now ≡ how_many lendable }
{
    KEYS
}

/// Why field `i` of the list is not resolved, as [`field_refusals`] says. The macro makes a `match` on `i`, with a call
/// of `field_refusals` for each field.
#[tactic(auto, unfolding(crate::specs::Fields::lendable))]
fn refusals_at<M: Metadata>(
    alloc: Global,
    own: &Package<M>,
    shared: &WorkspacePackage,
    i: usize,
) -> Refusals
    requires { i < how_many lendable }
    ensures { let p = package_of M.kind M.content own.now in
        let w = Some (workspace_package_content shared.now) in
        IfOk result (λ f. refused f ≡ refusals_at i lendable w p) }
{
    lendable!(refusals_of(alloc, own, shared, i))
}

/// All refusals of the fields of a package (`own`): each that it inherits and the workspace (`shared`) does not have,
/// under its key.
fn fields_refusals<M: Metadata>(
    alloc: Global,
    own: &Package<M>,
    shared: &WorkspacePackage,
) -> Refusals
    ensures { let p = package_of M.kind M.content own.now in
        let w = Some (workspace_package_content shared.now) in
        IfOk result (λ f. refused f ≡ fields_refusals lendable w p) }
{
    let mut list = Findings::none(alloc);
    for i in 0..keys().len() {
        list = list.and(refusals_at(alloc, own, shared, i)?)?;
    }
    Ok(list)
}

/// The same over the workspace's fields where it may have none (`shared`): then each field that is inherited is refused.
pub(crate) fn package_refusals<M: Metadata>(
    alloc: Global,
    own: &Package<M>,
    shared: &Option<WorkspacePackage>,
) -> Refusals
    ensures { let w = option_map workspace_package_content shared.now in
        let p = package_of M.kind M.content own.now in
        IfOk result (λ f. refused f ≡ fields_refusals lendable w p) }
{
    match shared {
        Some(shared) => fields_refusals(alloc, own, shared),
        None => {
            let nothing = WorkspacePackage::default();
            let answer = fields_refusals(alloc, own, &nothing);
            drop(nothing);
            answer
        }
    }
}

/// All refusals of the package, where there is one, as [`package_refusals`] has them.
pub(crate) fn optional_package_refusals<M: Metadata>(
    alloc: Global,
    own: &Option<Package<M>>,
    shared: &Option<WorkspacePackage>,
) -> Refusals
    ensures { let w = option_map workspace_package_content shared.now in
        let o = option_map (package_of M.kind M.content) own.now in
        IfOk result (λ f. refused f ≡ some_refusals (fields_refusals lendable w) o) }
{
    match own {
        Some(own) => package_refusals(alloc, own, shared),
        None => Ok(Findings::none(alloc)),
    }
}

/// Sets `place`, a field of the package, to the workspace's value, if the field is inherited and the workspace has one
/// (`shared`); else the field stays as it is.
fn put_field<T: Schema>(place: &mut Option<MaybeInherited<T>>, shared: Option<T>)
    ensures { option_map (inh_content T.content) place.new
        ≡ resolved_field (option_map (inh_content T.content) place.old)
        (option_map T.content shared) }
{
    match place {
        Some(MaybeInherited::Inherited { .. }) => {
            if let Some(x) = shared {
                *place = Some(MaybeInherited::Local(x));
            }
        }
        Some(MaybeInherited::Local(_)) => {}
        None => {}
    }
}

/// Sets each field that the package inherits to that of the workspace, as [`put_field`] does; all else of the package
/// stays as it is. The macro makes one call of `put_field` for each field.
#[tactic(auto, unfolding(crate::specs::Resolved::resolved_package, crate::specs::Fields::lendable))]
pub(crate) fn put_fields<M: Metadata>(own: &mut Package<M>, shared: WorkspacePackage)
    ensures { package_of M.kind M.content own.new
        ≡ resolved_package (Some (workspace_package_content shared))
        (package_of M.kind M.content own.old) }
{
    lendable!(put_of(own, shared))
}
