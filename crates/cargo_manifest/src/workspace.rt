//! The workspace of a manifest, and the package fields that members can inherit from it.
#![tactic(auto, unfolding(manifest_schema::specs::ManifestForms::workspace_package_rows, manifest_schema::specs::ManifestForms::workspace_rows))]

ghost use Rattle.manifest_schema.specs.Prelude.{Data, no_members, form, tree_of, raw, workspace_package_rows, workspace_rows};
ghost use Rattle.std.specs.Prelude.{OnOk, OnErr};
ghost use Rattle.manifest_schema.specs.Contents;
ghost use Rattle.manifest_schema.proofs.Values.KindLaws.{tree_sound};
ghost use Rattle.manifest_schema.proofs.Forms.ManifestLaws.{workspace_package_sound, workspace_sound};
ghost use Rattle.cargo_manifest.specs.Tables.{workspace_package_content, workspace_content, workspace_of};
ghost use Rattle.manifest_value.specs.Reading.{IsOfTable};

use manifest_parts::{DepsSet, Edition, LintsSet, Publish, Resolver, StringOrBool};
use manifest_value::form::{RowPut, RowRead, Rowed, Word};
use manifest_value::row_slots::RowSlot;
use manifest_value::{
    Form, Found, Metadata, Spellings, empty_of, findings_of_row, good_row_of, names_of_rows,
    put_row_of, read_row_of,
};
use manifest_written::Pairs;
use std::alloc::{AllocError, Global};
use toml::Value;

/// The package fields that members can inherit from a workspace, each by `{ workspace = true }`. See the
/// [Cargo reference](https://doc.rust-lang.org/cargo/reference/workspaces.html#the-package-table).
#[derive(Debug, PartialEq, Eq, Drop)]
pub struct WorkspacePackage {
    // (made by scripts/keys --write)
    /// The edition that members can inherit.
    ///
    /// [Cargo reference](https://doc.rust-lang.org/cargo/reference/manifest.html#the-edition-field).
    pub edition: Option<Edition>,
    /// The version that members can inherit.
    ///
    /// [Cargo reference](https://doc.rust-lang.org/cargo/reference/manifest.html#the-version-field).
    pub version: Option<String>,
    /// The authors that members can inherit.
    ///
    /// [Cargo reference](https://doc.rust-lang.org/cargo/reference/manifest.html#the-authors-field).
    pub authors: Option<Vec<String>>,
    /// The description that members can inherit, in plain text.
    ///
    /// [Cargo reference](https://doc.rust-lang.org/cargo/reference/manifest.html#the-description-field).
    pub description: Option<String>,
    /// The URL of the home page that members can inherit.
    ///
    /// [Cargo reference](https://doc.rust-lang.org/cargo/reference/manifest.html#the-homepage-field).
    pub homepage: Option<String>,
    /// The URL of the documentation that members can inherit.
    ///
    /// [Cargo reference](https://doc.rust-lang.org/cargo/reference/manifest.html#the-documentation-field).
    pub documentation: Option<String>,
    /// The readme that members can inherit: its path, relative to the workspace's root, or a boolean.
    ///
    /// [Cargo reference](https://doc.rust-lang.org/cargo/reference/manifest.html#the-readme-field).
    pub readme: Option<StringOrBool>,
    /// The keywords that members can inherit.
    ///
    /// [Cargo reference](https://doc.rust-lang.org/cargo/reference/manifest.html#the-keywords-field).
    pub keywords: Option<Vec<String>>,
    /// The categories that members can inherit.
    ///
    /// [Cargo reference](https://doc.rust-lang.org/cargo/reference/manifest.html#the-categories-field).
    pub categories: Option<Vec<String>>,
    /// The licence that members can inherit, as an SPDX expression.
    ///
    /// [Cargo reference](https://doc.rust-lang.org/cargo/reference/manifest.html#the-license-and-license-file-fields).
    pub license: Option<String>,
    /// The path of the licence's text that members can inherit, relative to the workspace's root.
    ///
    /// [Cargo reference](https://doc.rust-lang.org/cargo/reference/manifest.html#the-license-and-license-file-fields).
    pub license_file: Option<String>,
    /// The URL of the source repository that members can inherit.
    ///
    /// [Cargo reference](https://doc.rust-lang.org/cargo/reference/manifest.html#the-repository-field).
    pub repository: Option<String>,
    /// The oldest supported version of Rust that members can inherit.
    ///
    /// [Cargo reference](https://doc.rust-lang.org/cargo/reference/manifest.html#the-rust-version-field).
    pub rust_version: Option<String>,
    /// The patterns that members can inherit of files that are not packaged, relative to each member.
    ///
    /// [Cargo reference](https://doc.rust-lang.org/cargo/reference/manifest.html#the-exclude-and-include-fields).
    pub exclude: Option<Vec<String>>,
    /// The patterns that members can inherit of files that are packaged, relative to each member.
    ///
    /// [Cargo reference](https://doc.rust-lang.org/cargo/reference/manifest.html#the-exclude-and-include-fields).
    pub include: Option<Vec<String>>,
    /// Whether, or to which registries, members that inherit it may be published.
    ///
    /// [Cargo reference](https://doc.rust-lang.org/cargo/reference/manifest.html#the-publish-field).
    pub publish: Option<Publish>,
}

impl Clone for WorkspacePackage {
    // (made by scripts/keys --write)
    ghost is_clone = { λ x y.
        ⟦<Option<Edition> as Clone>⟧.is_clone x.edition y.edition ×
        ⟦<Option<String> as Clone>⟧.is_clone x.version y.version ×
        ⟦<Option<Vec<String>> as Clone>⟧.is_clone x.authors y.authors ×
        ⟦<Option<String> as Clone>⟧.is_clone x.description y.description ×
        ⟦<Option<String> as Clone>⟧.is_clone x.homepage y.homepage ×
        ⟦<Option<String> as Clone>⟧.is_clone x.documentation y.documentation ×
        ⟦<Option<StringOrBool> as Clone>⟧.is_clone x.readme y.readme ×
        ⟦<Option<Vec<String>> as Clone>⟧.is_clone x.keywords y.keywords ×
        ⟦<Option<Vec<String>> as Clone>⟧.is_clone x.categories y.categories ×
        ⟦<Option<String> as Clone>⟧.is_clone x.license y.license ×
        ⟦<Option<String> as Clone>⟧.is_clone x.license_file y.license_file ×
        ⟦<Option<String> as Clone>⟧.is_clone x.repository y.repository ×
        ⟦<Option<String> as Clone>⟧.is_clone x.rust_version y.rust_version ×
        ⟦<Option<Vec<String>> as Clone>⟧.is_clone x.exclude y.exclude ×
        ⟦<Option<Vec<String>> as Clone>⟧.is_clone x.include y.include ×
        ⟦<Option<Publish> as Clone>⟧.is_clone x.publish y.publish };

    ghost is_infallible = { λ x.
        ⟦<Option<Edition> as Clone>⟧.is_infallible x.edition ×
        ⟦<Option<String> as Clone>⟧.is_infallible x.version ×
        ⟦<Option<Vec<String>> as Clone>⟧.is_infallible x.authors ×
        ⟦<Option<String> as Clone>⟧.is_infallible x.description ×
        ⟦<Option<String> as Clone>⟧.is_infallible x.homepage ×
        ⟦<Option<String> as Clone>⟧.is_infallible x.documentation ×
        ⟦<Option<StringOrBool> as Clone>⟧.is_infallible x.readme ×
        ⟦<Option<Vec<String>> as Clone>⟧.is_infallible x.keywords ×
        ⟦<Option<Vec<String>> as Clone>⟧.is_infallible x.categories ×
        ⟦<Option<String> as Clone>⟧.is_infallible x.license ×
        ⟦<Option<String> as Clone>⟧.is_infallible x.license_file ×
        ⟦<Option<String> as Clone>⟧.is_infallible x.repository ×
        ⟦<Option<String> as Clone>⟧.is_infallible x.rust_version ×
        ⟦<Option<Vec<String>> as Clone>⟧.is_infallible x.exclude ×
        ⟦<Option<Vec<String>> as Clone>⟧.is_infallible x.include ×
        ⟦<Option<Publish> as Clone>⟧.is_infallible x.publish };

    fn clone(&self) -> Result<WorkspacePackage, AllocError> {
        let mut copy = WorkspacePackage::default();
        match copy_package_fields(self, &mut copy) {
            Ok(()) => Ok(copy),
            Err(error) => {
                drop(copy);
                Err(error)
            }
        }
    }
}

/// Copies each field into that of another record.
fn copy_package_fields(from: &WorkspacePackage, to: &mut WorkspacePackage) -> Result<(), AllocError>
    ensures copied { OnOk result (⟦<WorkspacePackage as Clone>⟧.is_clone from.now to.new) }
    ensures refused { OnErr result (¬ (⟦<WorkspacePackage as Clone>⟧.is_infallible from.now)) }
{
    // (made by scripts/keys --write)
    to.edition.clone_from(&from.edition)?;
    to.version.clone_from(&from.version)?;
    to.authors.clone_from(&from.authors)?;
    to.description.clone_from(&from.description)?;
    to.homepage.clone_from(&from.homepage)?;
    to.documentation.clone_from(&from.documentation)?;
    to.readme.clone_from(&from.readme)?;
    to.keywords.clone_from(&from.keywords)?;
    to.categories.clone_from(&from.categories)?;
    to.license.clone_from(&from.license)?;
    to.license_file.clone_from(&from.license_file)?;
    to.repository.clone_from(&from.repository)?;
    to.rust_version.clone_from(&from.rust_version)?;
    to.exclude.clone_from(&from.exclude)?;
    to.include.clone_from(&from.include)?;
    to.publish.clone_from(&from.publish)?;
    Ok(())
}

/// The rows of the package fields of a workspace, for the macros of `manifest_value::row_macros`.
macro_rules! workspace_package {
    ($make:ident $given:tt) => {
        $make! { $given
            // (made by scripts/keys --write)
            edition: optional "edition";
            version: optional "version";
            authors: optional "authors";
            description: optional "description";
            homepage: optional "homepage";
            documentation: optional "documentation";
            readme: optional "readme";
            keywords: optional "keywords";
            categories: optional "categories";
            license: optional "license";
            license_file: optional "license-file";
            repository: optional "repository";
            rust_version: optional "rust-version";
            exclude: optional "exclude";
            include: optional "include";
            publish: optional "publish";
        }
    };
}

static WORKSPACE_PACKAGE: &[Spellings] = workspace_package!(names_of_rows());

/// [`Rowed`] says what each method does. The body `workspace_package!(read_row_of(..))` is made of the rows of
/// `workspace_package!`, as a `match` on the row's index `i`, and so are the others (`manifest_value::row_macros`).
impl Rowed for WorkspacePackage {
    // (made by scripts/keys --write)
    ghost Content = { Contents.WorkspacePackage };

    ghost content = { workspace_package_content };

    ghost rows = { workspace_package_rows };

    fn names() -> &'static [Spellings] {
        WORKSPACE_PACKAGE
    }

    fn empty(_alloc: Global) -> WorkspacePackage {
        WorkspacePackage::default()
    }

    fn read_row(&mut self, alloc: Global, i: usize, key: Word, slot: &mut RowSlot<'_>) -> RowRead {
        workspace_package!(read_row_of(self, alloc, i, key, slot))
    }

    fn row_findings(&self, alloc: Global, i: usize, key: Word, slot: &RowSlot<'_>) -> Found {
        workspace_package!(findings_of_row(self, alloc, i, key, slot))
    }

    fn put_row<'a>(&'a self, alloc: Global, i: usize, key: Word, out: &mut Pairs<'a>) -> RowPut {
        workspace_package!(put_row_of(self, alloc, i, key, out))
    }

    fn row_is_well_formed(&self, i: usize) -> bool {
        workspace_package!(good_row_of(self, i))
    }
}

/// A form: each field is a row, so it is read and written by its list alone, and `Schema` comes with it. `covers` is a
/// law, with an empty body.
impl Form for WorkspacePackage {
    fn covers() {}

    ghost lawful = { workspace_package_sound };
}

/// What the empty table is read as: each field is `None`.
impl Default for WorkspacePackage {
    // (made by scripts/keys --write)
    ghost is_default = { IsOfTable workspace_package_rows workspace_package_content no_members };

    fn default() -> WorkspacePackage {
        // the struct; no row needs the allocator, and none is required
        workspace_package!(empty_of(WorkspacePackage, (), ()))
    }
}

/// The workspace of a manifest; `M` is the type of its metadata. See the
/// [Cargo reference](https://doc.rust-lang.org/cargo/reference/workspaces.html#the-workspace-section).
///
/// It is well-formed where its metadata is absent or well-formed.
#[derive(Debug, PartialEq, Eq, Drop)]
pub struct Workspace<M = Value> {
    // (made by scripts/keys --write)
    /// The paths of members, or globs; not all, since the root package and path dependencies inside are members
    /// too. Default: empty.
    ///
    /// [Cargo reference](https://doc.rust-lang.org/cargo/reference/workspaces.html#the-members-and-exclude-fields).
    pub members: Vec<String>,
    /// The members, by paths or globs, on which a command at the workspace's root works by default.
    ///
    /// [Cargo reference](https://doc.rust-lang.org/cargo/reference/workspaces.html#the-default-members-field).
    pub default_members: Option<Vec<String>>,
    /// The paths that are not members, though `members` or a path dependency names them.
    ///
    /// [Cargo reference](https://doc.rust-lang.org/cargo/reference/workspaces.html#the-members-and-exclude-fields).
    pub exclude: Option<Vec<String>>,
    /// The resolver of all members; by default that of the root package, or 1 in a virtual workspace.
    ///
    /// [Cargo reference](https://doc.rust-lang.org/cargo/reference/resolver.html#resolver-versions).
    pub resolver: Option<Resolver>,
    /// `[workspace.dependencies]`: the dependencies that members can inherit; Cargo allows no optional one.
    ///
    /// [Cargo reference](https://doc.rust-lang.org/cargo/reference/workspaces.html#the-dependencies-table).
    pub dependencies: Option<DepsSet>,
    /// `[workspace.package]`: the package fields that members can inherit.
    ///
    /// [Cargo reference](https://doc.rust-lang.org/cargo/reference/workspaces.html#the-package-table).
    pub package: Option<WorkspacePackage>,
    /// `[workspace.metadata]`: what tools other than Cargo read.
    ///
    /// [Cargo reference](https://doc.rust-lang.org/cargo/reference/workspaces.html#the-metadata-table).
    pub metadata: Option<M>,
    /// `[workspace.lints]`: the lints that members can inherit, by tool and by the name of the lint or lint group.
    ///
    /// [Cargo reference](https://doc.rust-lang.org/cargo/reference/workspaces.html#the-lints-table).
    pub lints: Option<LintsSet>,
}

impl<M: Clone> Clone for Workspace<M> {
    // (made by scripts/keys --write)
    ghost is_clone = { λ x y.
        ⟦<Vec<String> as Clone>⟧.is_clone x.members y.members ×
        ⟦<Option<Vec<String>> as Clone>⟧.is_clone x.default_members y.default_members ×
        ⟦<Option<Vec<String>> as Clone>⟧.is_clone x.exclude y.exclude ×
        ⟦<Option<Resolver> as Clone>⟧.is_clone x.resolver y.resolver ×
        ⟦<Option<DepsSet> as Clone>⟧.is_clone x.dependencies y.dependencies ×
        ⟦<Option<WorkspacePackage> as Clone>⟧.is_clone x.package y.package ×
        ⟦<Option<M> as Clone>⟧.is_clone x.metadata y.metadata ×
        ⟦<Option<LintsSet> as Clone>⟧.is_clone x.lints y.lints };

    ghost is_infallible = { λ x.
        ⟦<Vec<String> as Clone>⟧.is_infallible x.members ×
        ⟦<Option<Vec<String>> as Clone>⟧.is_infallible x.default_members ×
        ⟦<Option<Vec<String>> as Clone>⟧.is_infallible x.exclude ×
        ⟦<Option<Resolver> as Clone>⟧.is_infallible x.resolver ×
        ⟦<Option<DepsSet> as Clone>⟧.is_infallible x.dependencies ×
        ⟦<Option<WorkspacePackage> as Clone>⟧.is_infallible x.package ×
        ⟦<Option<M> as Clone>⟧.is_infallible x.metadata ×
        ⟦<Option<LintsSet> as Clone>⟧.is_infallible x.lints };

    fn clone(&self) -> Result<Workspace<M>, AllocError> {
        let mut copy = Workspace::default(*self.members.allocator());
        match copy_fields(self, &mut copy) {
            Ok(()) => Ok(copy),
            Err(error) => {
                drop(copy);
                Err(error)
            }
        }
    }
}

/// Copies each field into that of another record.
fn copy_fields<M: Clone>(from: &Workspace<M>, to: &mut Workspace<M>) -> Result<(), AllocError>
    ensures copied { OnOk result (⟦<Workspace<M> as Clone>⟧.is_clone from.now to.new) }
    ensures refused { OnErr result (¬ (⟦<Workspace<M> as Clone>⟧.is_infallible from.now)) }
{
    // (made by scripts/keys --write)
    to.members.clone_from(&from.members)?;
    to.default_members.clone_from(&from.default_members)?;
    to.exclude.clone_from(&from.exclude)?;
    to.resolver.clone_from(&from.resolver)?;
    to.dependencies.clone_from(&from.dependencies)?;
    to.package.clone_from(&from.package)?;
    to.metadata.clone_from(&from.metadata)?;
    to.lints.clone_from(&from.lints)?;
    Ok(())
}

/// The rows of a workspace, for the macros of `manifest_value::row_macros`.
macro_rules! workspace {
    ($make:ident $given:tt) => {
        $make! { $given
            // (made by scripts/keys --write)
            members: default_list "members";
            default_members: optional "default-members" | "default_members";
            exclude: optional "exclude";
            resolver: optional "resolver";
            dependencies: optional "dependencies";
            package: optional "package";
            metadata: tree "metadata";
            lints: optional "lints";
        }
    };
}

static WORKSPACE: &[Spellings] = workspace!(names_of_rows());

impl<M> Workspace<M> {
    /// A workspace with nothing in it: no members, and every option is `None`.
    ///
    /// ```ignore
    /// let workspace = Workspace::<Value>::default(alloc);
    /// ```
    pub fn default(alloc: Global) -> Workspace<M>
        ensures { (f : M → Data)
            → IsOfTable (workspace_rows raw) (workspace_content f) no_members result }
    {
        // the struct and the allocator; no row is required
        workspace!(empty_of(Workspace, alloc, ()))
    }
}

/// [`Rowed`] says what each method does. The body `workspace!(read_row_of(..))` is made of the rows of `workspace!`, as
/// a `match` on the row's index `i`, and so are the others (`manifest_value::row_macros`).
impl<M: Metadata> Rowed for Workspace<M> {
    // (made by scripts/keys --write)
    ghost Content = { Contents.Workspace };

    ghost content = { workspace_of M.kind M.content };

    ghost rows = { workspace_rows (tree_of M.kind) };

    fn names() -> &'static [Spellings] {
        WORKSPACE
    }

    fn empty(alloc: Global) -> Workspace<M> {
        Workspace::default(alloc)
    }

    fn read_row(&mut self, alloc: Global, i: usize, key: Word, slot: &mut RowSlot<'_>) -> RowRead {
        workspace!(read_row_of(self, alloc, i, key, slot))
    }

    fn row_findings(&self, alloc: Global, i: usize, key: Word, slot: &RowSlot<'_>) -> Found {
        workspace!(findings_of_row(self, alloc, i, key, slot))
    }

    fn put_row<'a>(&'a self, alloc: Global, i: usize, key: Word, out: &mut Pairs<'a>) -> RowPut {
        workspace!(put_row_of(self, alloc, i, key, out))
    }

    fn row_is_well_formed(&self, i: usize) -> bool {
        workspace!(good_row_of(self, i))
    }
}

/// A form: each field is a row, so it is read and written by its list alone, and `Schema` comes with it. `covers` is a
/// law, with an empty body.
impl<M: Metadata> Form for Workspace<M> {
    fn covers() {}

    ghost lawful = { workspace_sound (tree_of M.kind) (tree_sound M.lawful) };
}
