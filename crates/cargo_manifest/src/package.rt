//! The package of a manifest.
#![tactic(auto, unfolding(manifest_schema::specs::ManifestForms::package_rows))]

ghost use Rattle.manifest_schema.specs.Prelude.{Data, string, no_members, member, tree_of, raw, form, package_rows};
ghost use Rattle.std.specs.Prelude.{◌≡◌, Some, string_bytes, codes, OnOk, OnErr};
ghost use Rattle.manifest_schema.specs.Contents;
ghost use Rattle.manifest_schema.proofs.Values.KindLaws.{tree_sound};
ghost use Rattle.manifest_schema.proofs.Forms.ManifestLaws.{package_sound};
ghost use Rattle.manifest_value.specs.Reading.{data_of, Gives, IsOfTable};
ghost use Rattle.manifest_parts.specs.Parts.{inh_content};
ghost use Rattle.manifest_parts.specs.Queries.{version_of};
ghost use Rattle.cargo_manifest.specs.Tables.{package_content, package_of, package_form};

use manifest_parts::{Edition, MaybeInherited, Publish, Resolver, StringOrBool};
use manifest_value::form::{RowPut, RowRead, Rowed, Word, read_form};
use manifest_value::row_slots::RowSlot;
use manifest_value::{
    Form, Found, Metadata, ReadFault, Spellings, TableSource, empty_of, findings_of_row,
    good_row_of, names_of_rows, put_row_of, read_row_of,
};
use manifest_written::Pairs;
use std::alloc::{AllocError, Global};
use toml::{Table, Value};

/// The package of a manifest; `M` is the type of its metadata. What is `MaybeInherited` may be inherited: then it
/// stands in the workspace's manifest alone. See the
/// [Cargo reference](https://doc.rust-lang.org/cargo/reference/manifest.html#the-package-section).
///
/// It is well-formed where its metadata is absent or well-formed; a float in metadata of the type `Value` is not.
#[derive(Debug, PartialEq, Drop)]
pub struct Package<M = Value> {
    // (made by scripts/keys --write)
    /// The name, from which its library and its main binary take theirs by default; it may have capital letters.
    ///
    /// [Cargo reference](https://doc.rust-lang.org/cargo/reference/manifest.html#the-name-field).
    pub name: String,
    /// The edition of its targets, its own or inherited; Cargo takes 2015 where there is none.
    ///
    /// [Cargo reference](https://doc.rust-lang.org/cargo/reference/manifest.html#the-edition-field).
    pub edition: Option<MaybeInherited<Edition>>,
    /// The version, its own or inherited; Cargo takes `0.0.0` where there is none: [`Package::version`] says which
    /// one holds.
    ///
    /// [Cargo reference](https://doc.rust-lang.org/cargo/reference/manifest.html#the-version-field).
    pub version: Option<MaybeInherited<String>>,
    /// The build script by its path, or false for none; absent or true, it is discovered: completion fills it in.
    ///
    /// [Cargo reference](https://doc.rust-lang.org/cargo/reference/manifest.html#the-build-field).
    pub build: Option<StringOrBool>,
    /// The path of its workspace's root; Cargo searches the folders above where there is none.
    ///
    /// [Cargo reference](https://doc.rust-lang.org/cargo/reference/manifest.html#the-workspace-field).
    pub workspace: Option<String>,
    /// The people and organizations that made it, such as `Alice <alice@example.com>`.
    ///
    /// [Cargo reference](https://doc.rust-lang.org/cargo/reference/manifest.html#the-authors-field).
    pub authors: Option<MaybeInherited<Vec<String>>>,
    /// The name of the native library that it links to.
    ///
    /// [Cargo reference](https://doc.rust-lang.org/cargo/reference/manifest.html#the-links-field).
    pub links: Option<String>,
    /// What it is, in a few words of plain text, not Markdown.
    ///
    /// [Cargo reference](https://doc.rust-lang.org/cargo/reference/manifest.html#the-description-field).
    pub description: Option<MaybeInherited<String>>,
    /// The URL of its home page.
    ///
    /// [Cargo reference](https://doc.rust-lang.org/cargo/reference/manifest.html#the-homepage-field).
    pub homepage: Option<MaybeInherited<String>>,
    /// The URL of its documentation; crates.io links to docs.rs where there is none.
    ///
    /// [Cargo reference](https://doc.rust-lang.org/cargo/reference/manifest.html#the-documentation-field).
    pub documentation: Option<MaybeInherited<String>>,
    /// The readme by its path, relative to the manifest; true for `README.md`, false for none.
    ///
    /// [Cargo reference](https://doc.rust-lang.org/cargo/reference/manifest.html#the-readme-field).
    pub readme: Option<MaybeInherited<StringOrBool>>,
    /// The keywords by which a registry finds it; crates.io takes at most five.
    ///
    /// [Cargo reference](https://doc.rust-lang.org/cargo/reference/manifest.html#the-keywords-field).
    pub keywords: Option<MaybeInherited<Vec<String>>>,
    /// The categories of crates.io in which it stands, by their slugs; at most five.
    ///
    /// [Cargo reference](https://doc.rust-lang.org/cargo/reference/manifest.html#the-categories-field).
    pub categories: Option<MaybeInherited<Vec<String>>>,
    /// The licence: an SPDX expression such as `MIT OR Apache-2.0`.
    ///
    /// [Cargo reference](https://doc.rust-lang.org/cargo/reference/manifest.html#the-license-and-license-file-fields).
    pub license: Option<MaybeInherited<String>>,
    /// The path of the licence's text, relative to the manifest, where the licence is not a standard one.
    ///
    /// [Cargo reference](https://doc.rust-lang.org/cargo/reference/manifest.html#the-license-and-license-file-fields).
    pub license_file: Option<MaybeInherited<String>>,
    /// The URL of its source repository.
    ///
    /// [Cargo reference](https://doc.rust-lang.org/cargo/reference/manifest.html#the-repository-field).
    pub repository: Option<MaybeInherited<String>>,
    /// `[package.metadata]`: what tools other than Cargo read.
    ///
    /// [Cargo reference](https://doc.rust-lang.org/cargo/reference/manifest.html#the-metadata-table).
    pub metadata: Option<M>,
    /// The oldest version of Rust that it supports, such as `1.75`: a bare version, no requirement.
    ///
    /// [Cargo reference](https://doc.rust-lang.org/cargo/reference/manifest.html#the-rust-version-field).
    pub rust_version: Option<MaybeInherited<String>>,
    /// The files that are not packaged, by patterns as of gitignore; of no effect next to `include`.
    ///
    /// [Cargo reference](https://doc.rust-lang.org/cargo/reference/manifest.html#the-exclude-and-include-fields).
    pub exclude: Option<MaybeInherited<Vec<String>>>,
    /// The files that are packaged, by patterns as of gitignore.
    ///
    /// [Cargo reference](https://doc.rust-lang.org/cargo/reference/manifest.html#the-exclude-and-include-fields).
    pub include: Option<MaybeInherited<Vec<String>>>,
    /// The name of the binary that `cargo run` takes by default.
    ///
    /// [Cargo reference](https://doc.rust-lang.org/cargo/reference/manifest.html#the-default-run-field).
    pub default_run: Option<String>,
    /// False turns the discovery of a library off.
    ///
    /// [Cargo reference](https://doc.rust-lang.org/cargo/reference/cargo-targets.html#target-auto-discovery).
    pub autolib: Option<bool>,
    /// Whether binaries are discovered, where the package says it;
    /// [`Manifest::autobins`](crate::Manifest::autobins) says what holds.
    ///
    /// [Cargo reference](https://doc.rust-lang.org/cargo/reference/cargo-targets.html#target-auto-discovery).
    pub autobins: Option<bool>,
    /// Whether examples are discovered, where the package says it;
    /// [`Manifest::autoexamples`](crate::Manifest::autoexamples) says what holds.
    ///
    /// [Cargo reference](https://doc.rust-lang.org/cargo/reference/cargo-targets.html#target-auto-discovery).
    pub autoexamples: Option<bool>,
    /// Whether tests are discovered, where the package says it; [`Manifest::autotests`](crate::Manifest::autotests)
    /// says what holds.
    ///
    /// [Cargo reference](https://doc.rust-lang.org/cargo/reference/cargo-targets.html#target-auto-discovery).
    pub autotests: Option<bool>,
    /// Whether benches are discovered, where the package says it;
    /// [`Manifest::autobenches`](crate::Manifest::autobenches) says what holds.
    ///
    /// [Cargo reference](https://doc.rust-lang.org/cargo/reference/cargo-targets.html#target-auto-discovery).
    pub autobenches: Option<bool>,
    /// Whether, or to which registries, it may be published; to any where nothing is said.
    ///
    /// [Cargo reference](https://doc.rust-lang.org/cargo/reference/manifest.html#the-publish-field).
    pub publish: Option<MaybeInherited<Publish>>,
    /// The resolver, of a root package alone; by default 1, in the edition 2021 it is 2, and in 2024 it is 3.
    ///
    /// [Cargo reference](https://doc.rust-lang.org/cargo/reference/resolver.html#resolver-versions).
    pub resolver: Option<Resolver>,
}

impl<M: Clone> Clone for Package<M> {
    // (made by scripts/keys --write)
    ghost is_clone = { λ x y.
        ⟦<String as Clone>⟧.is_clone x.name y.name ×
        ⟦<Option<MaybeInherited<Edition>> as Clone>⟧.is_clone x.edition y.edition ×
        ⟦<Option<MaybeInherited<String>> as Clone>⟧.is_clone x.version y.version ×
        ⟦<Option<StringOrBool> as Clone>⟧.is_clone x.build y.build ×
        ⟦<Option<String> as Clone>⟧.is_clone x.workspace y.workspace ×
        ⟦<Option<MaybeInherited<Vec<String>>> as Clone>⟧.is_clone x.authors y.authors ×
        ⟦<Option<String> as Clone>⟧.is_clone x.links y.links ×
        ⟦<Option<MaybeInherited<String>> as Clone>⟧.is_clone x.description y.description ×
        ⟦<Option<MaybeInherited<String>> as Clone>⟧.is_clone x.homepage y.homepage ×
        ⟦<Option<MaybeInherited<String>> as Clone>⟧.is_clone x.documentation y.documentation ×
        ⟦<Option<MaybeInherited<StringOrBool>> as Clone>⟧.is_clone x.readme y.readme ×
        ⟦<Option<MaybeInherited<Vec<String>>> as Clone>⟧.is_clone x.keywords y.keywords ×
        ⟦<Option<MaybeInherited<Vec<String>>> as Clone>⟧.is_clone x.categories y.categories ×
        ⟦<Option<MaybeInherited<String>> as Clone>⟧.is_clone x.license y.license ×
        ⟦<Option<MaybeInherited<String>> as Clone>⟧.is_clone x.license_file y.license_file ×
        ⟦<Option<MaybeInherited<String>> as Clone>⟧.is_clone x.repository y.repository ×
        ⟦<Option<M> as Clone>⟧.is_clone x.metadata y.metadata ×
        ⟦<Option<MaybeInherited<String>> as Clone>⟧.is_clone x.rust_version y.rust_version ×
        ⟦<Option<MaybeInherited<Vec<String>>> as Clone>⟧.is_clone x.exclude y.exclude ×
        ⟦<Option<MaybeInherited<Vec<String>>> as Clone>⟧.is_clone x.include y.include ×
        ⟦<Option<String> as Clone>⟧.is_clone x.default_run y.default_run ×
        ⟦<Option<bool> as Clone>⟧.is_clone x.autolib y.autolib ×
        ⟦<Option<bool> as Clone>⟧.is_clone x.autobins y.autobins ×
        ⟦<Option<bool> as Clone>⟧.is_clone x.autoexamples y.autoexamples ×
        ⟦<Option<bool> as Clone>⟧.is_clone x.autotests y.autotests ×
        ⟦<Option<bool> as Clone>⟧.is_clone x.autobenches y.autobenches ×
        ⟦<Option<MaybeInherited<Publish>> as Clone>⟧.is_clone x.publish y.publish ×
        ⟦<Option<Resolver> as Clone>⟧.is_clone x.resolver y.resolver };

    ghost is_infallible = { λ x.
        ⟦<String as Clone>⟧.is_infallible x.name ×
        ⟦<Option<MaybeInherited<Edition>> as Clone>⟧.is_infallible x.edition ×
        ⟦<Option<MaybeInherited<String>> as Clone>⟧.is_infallible x.version ×
        ⟦<Option<StringOrBool> as Clone>⟧.is_infallible x.build ×
        ⟦<Option<String> as Clone>⟧.is_infallible x.workspace ×
        ⟦<Option<MaybeInherited<Vec<String>>> as Clone>⟧.is_infallible x.authors ×
        ⟦<Option<String> as Clone>⟧.is_infallible x.links ×
        ⟦<Option<MaybeInherited<String>> as Clone>⟧.is_infallible x.description ×
        ⟦<Option<MaybeInherited<String>> as Clone>⟧.is_infallible x.homepage ×
        ⟦<Option<MaybeInherited<String>> as Clone>⟧.is_infallible x.documentation ×
        ⟦<Option<MaybeInherited<StringOrBool>> as Clone>⟧.is_infallible x.readme ×
        ⟦<Option<MaybeInherited<Vec<String>>> as Clone>⟧.is_infallible x.keywords ×
        ⟦<Option<MaybeInherited<Vec<String>>> as Clone>⟧.is_infallible x.categories ×
        ⟦<Option<MaybeInherited<String>> as Clone>⟧.is_infallible x.license ×
        ⟦<Option<MaybeInherited<String>> as Clone>⟧.is_infallible x.license_file ×
        ⟦<Option<MaybeInherited<String>> as Clone>⟧.is_infallible x.repository ×
        ⟦<Option<M> as Clone>⟧.is_infallible x.metadata ×
        ⟦<Option<MaybeInherited<String>> as Clone>⟧.is_infallible x.rust_version ×
        ⟦<Option<MaybeInherited<Vec<String>>> as Clone>⟧.is_infallible x.exclude ×
        ⟦<Option<MaybeInherited<Vec<String>>> as Clone>⟧.is_infallible x.include ×
        ⟦<Option<String> as Clone>⟧.is_infallible x.default_run ×
        ⟦<Option<bool> as Clone>⟧.is_infallible x.autolib ×
        ⟦<Option<bool> as Clone>⟧.is_infallible x.autobins ×
        ⟦<Option<bool> as Clone>⟧.is_infallible x.autoexamples ×
        ⟦<Option<bool> as Clone>⟧.is_infallible x.autotests ×
        ⟦<Option<bool> as Clone>⟧.is_infallible x.autobenches ×
        ⟦<Option<MaybeInherited<Publish>> as Clone>⟧.is_infallible x.publish ×
        ⟦<Option<Resolver> as Clone>⟧.is_infallible x.resolver };

    fn clone(&self) -> Result<Package<M>, AllocError> {
        let mut copy = package_with_name(String::new(*self.name.allocator()));
        match copy_fields(self, &mut copy) {
            Ok(()) => Ok(copy),
            Err(error) => {
                drop(copy);
                Err(error)
            }
        }
    }
}

/// Copies each field into that of another record.
fn copy_fields<M: Clone>(from: &Package<M>, to: &mut Package<M>) -> Result<(), AllocError>
    ensures copied { OnOk result (⟦<Package<M> as Clone>⟧.is_clone from.now to.new) }
    ensures refused { OnErr result (¬ (⟦<Package<M> as Clone>⟧.is_infallible from.now)) }
{
    // (made by scripts/keys --write)
    to.name.clone_from(&from.name)?;
    to.edition.clone_from(&from.edition)?;
    to.version.clone_from(&from.version)?;
    to.build.clone_from(&from.build)?;
    to.workspace.clone_from(&from.workspace)?;
    to.authors.clone_from(&from.authors)?;
    to.links.clone_from(&from.links)?;
    to.description.clone_from(&from.description)?;
    to.homepage.clone_from(&from.homepage)?;
    to.documentation.clone_from(&from.documentation)?;
    to.readme.clone_from(&from.readme)?;
    to.keywords.clone_from(&from.keywords)?;
    to.categories.clone_from(&from.categories)?;
    to.license.clone_from(&from.license)?;
    to.license_file.clone_from(&from.license_file)?;
    to.repository.clone_from(&from.repository)?;
    to.metadata.clone_from(&from.metadata)?;
    to.rust_version.clone_from(&from.rust_version)?;
    to.exclude.clone_from(&from.exclude)?;
    to.include.clone_from(&from.include)?;
    to.default_run.clone_from(&from.default_run)?;
    to.autolib.clone_from(&from.autolib)?;
    to.autobins.clone_from(&from.autobins)?;
    to.autoexamples.clone_from(&from.autoexamples)?;
    to.autotests.clone_from(&from.autotests)?;
    to.autobenches.clone_from(&from.autobenches)?;
    to.publish.clone_from(&from.publish)?;
    to.resolver.clone_from(&from.resolver)?;
    Ok(())
}

/// The rows of a package, for the macros of `manifest_value::row_macros`.
macro_rules! package {
    ($make:ident $given:tt) => {
        $make! { $given
            // (made by scripts/keys --write)
            name: required "name";
            edition: optional "edition";
            version: optional "version";
            build: optional "build";
            workspace: optional "workspace";
            authors: optional "authors";
            links: optional "links";
            description: optional "description";
            homepage: optional "homepage";
            documentation: optional "documentation";
            readme: optional "readme";
            keywords: optional "keywords";
            categories: optional "categories";
            license: optional "license";
            license_file: optional "license-file";
            repository: optional "repository";
            metadata: tree "metadata";
            rust_version: optional "rust-version";
            exclude: optional "exclude";
            include: optional "include";
            default_run: optional "default-run";
            autolib: optional "autolib";
            autobins: optional "autobins";
            autoexamples: optional "autoexamples";
            autotests: optional "autotests";
            autobenches: optional "autobenches";
            publish: optional "publish";
            resolver: optional "resolver";
        }
    };
}

static PACKAGE: &[Spellings] = package!(names_of_rows());

impl<M> Package<M> {
    /// A package of this name and this version of its own, and nothing else.
    ///
    /// ```ignore
    /// let name = String::from_str(alloc, "a")?;
    /// let package = Package::<Value>::new(name, String::from_str(alloc, "1.0.0")?);
    /// ```
    pub fn new(name: String, version: String) -> Package<M>
        ensures { (f : M → Data)
            → IsOfTable (package_rows raw) (package_content f)
            (member (codes "name") (string (string_bytes name))
            (member (codes "version") (string (string_bytes version)) no_members)) result }
    {
        Package {
            version: Some(MaybeInherited::Local(version)),
            ..package_with_name(name)
        }
    }

    /// The version of the package, or the mark that it is inherited from the workspace. A package that names none has
    /// the version 0.0.0, as the
    /// [Cargo reference](https://doc.rust-lang.org/cargo/reference/manifest.html#the-version-field) says.
    ///
    /// ```ignore
    /// let version = package.version(); // of `{ name = 'a' }`, `Local("0.0.0")`
    /// ```
    pub fn version(&self) -> MaybeInherited<&str>
        ensures { (f : M → Data)
            → inh_content (λ s. s.now) result ≡ version_of (package_content f self.now) }
    {
        match &self.version {
            None => MaybeInherited::Local("0.0.0"),
            Some(MaybeInherited::Inherited { .. }) => MaybeInherited::inherited(),
            Some(MaybeInherited::Local(version)) => MaybeInherited::Local(version.as_str()),
        }
    }
}

/// What the table `{ name = NAME }` is read as: a package of this name, in which every other field is `None`.
fn package_with_name<M>(name: String) -> Package<M>
    ensures { (f : M → Data)
        → IsOfTable (package_rows raw) (package_content f)
        (member (codes "name") (string (string_bytes name)) no_members) result }
{
    // the struct, nothing in place of the allocator, and what `name`, the required row, holds
    package!(empty_of(Package, (), name))
}

/// Reads a package from a table: the one reading of the table by the form of a package, as of a value that is this
/// table.
///
/// Refuses with the fault of a row, its key path beginning at the table, or as out of memory. The package under an
/// old header, which is the whole manifest, is read by it.
///
/// ```ignore
/// let table = toml::table_from_str(alloc, "name = 'a'")?;
/// let package: Package<Value> = package_from(alloc, &table)?; // without a version
/// ```
pub fn package_from<M: Metadata>(alloc: Global, table: &Table) -> Result<Package<M>, ReadFault>
    ensures { Gives (package_form M.kind) (package_of M.kind M.content) (data_of table.now) result }
{
    read_form(alloc, TableSource::Borrowed(table))
}

/// [`Rowed`] says what each method does. The body `package!(read_row_of(..))` is made of the rows of `package!`, as a
/// `match` on the row's index `i`, and so are the others (`manifest_value::row_macros`).
impl<M: Metadata> Rowed for Package<M> {
    // (made by scripts/keys --write)
    ghost Content = { Contents.Package };

    ghost content = { package_of M.kind M.content };

    ghost rows = { package_rows (tree_of M.kind) };

    fn names() -> &'static [Spellings] {
        PACKAGE
    }

    fn empty(alloc: Global) -> Package<M> {
        package_with_name(String::new(alloc))
    }

    // (made by scripts/keys --write)
    fn read_row(&mut self, alloc: Global, i: usize, key: Word, slot: &mut RowSlot<'_>) -> RowRead {
        package!(read_row_of(self, alloc, i, key, slot))
    }

    fn row_findings(&self, alloc: Global, i: usize, key: Word, slot: &RowSlot<'_>) -> Found {
        package!(findings_of_row(self, alloc, i, key, slot))
    }

    fn put_row<'a>(&'a self, alloc: Global, i: usize, key: Word, out: &mut Pairs<'a>) -> RowPut {
        package!(put_row_of(self, alloc, i, key, out))
    }

    fn row_is_well_formed(&self, i: usize) -> bool {
        package!(good_row_of(self, i))
    }
}

/// A form: each field is a row, so it is read and written by its list alone, and `Schema` comes with it. `covers` is a
/// law, with an empty body.
impl<M: Metadata> Form for Package<M> {
    fn covers() {}

    ghost lawful = { package_sound (tree_of M.kind) (tree_sound M.lawful) };
}
