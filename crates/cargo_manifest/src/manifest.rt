//! A manifest.
#![tactic(auto, unfolding(manifest_schema::specs::ManifestForms::manifest_rows))]

ghost use Rattle.manifest_schema.specs.Prelude.{Data, no_members, table_view, form, tree_of, raw, manifest_rows, rewritten};
ghost use Rattle.std.specs.Prelude.{◌≡◌, IfOk};
ghost use Rattle.manifest_schema.specs.Contents;
ghost use Rattle.manifest_schema.proofs.Values.KindLaws.{tree_sound};
ghost use Rattle.manifest_schema.proofs.Forms.ManifestLaws.{manifest_sound};
ghost use Rattle.cargo_manifest.specs.Whole.{manifest_content, manifest_of};
ghost use Rattle.manifest_value.specs.Reading.{IsOfTable};

use crate::package::Package;
use crate::profiles::Profiles;
use crate::workspace::Workspace;
use manifest_parts::{
    Badges, DepsSet, FeatureSet, MaybeInheritedLintsSet, PatchSet, Product, TargetDepsSet,
};
use manifest_value::form::{RowPut, RowRead, Rowed, Word, write_form};
use manifest_value::row_slots::RowSlot;
use manifest_value::{
    Form, Found, Metadata, Spellings, empty_of, findings_of_row, good_row_of, names_of_rows,
    put_row_of, read_row_of,
};
use manifest_written::Pairs;
use std::alloc::{AllocError, Global};
use toml::{Table, Value};

/// What a `Cargo.toml` says; `P` and `W` are the types of the metadata of its package and of its workspace. See the
/// [Cargo reference](https://doc.rust-lang.org/cargo/reference/manifest.html).
///
/// It is well-formed where its package, its workspace, its profiles and its lints, where they are there, are. With a
/// custom profile `dev`, or a tool of lints named `workspace`, it is not.
///
/// ```ignore
/// if manifest.is_well_formed() {
///     let text = manifest.to_toml_string(alloc)?; // is read back as this manifest, where it is at most 80 deep
/// }
/// ```
#[derive(Clone, Debug, PartialEq, Drop)]
pub struct Manifest<P = Value, W = Value> {
    // (made by scripts/keys --write)
    /// `[package]`; a virtual workspace has none.
    ///
    /// [Cargo reference](https://doc.rust-lang.org/cargo/reference/manifest.html#the-package-section).
    pub package: Option<Package<P>>,
    /// The unstable features of Cargo that are enabled; only a nightly Cargo has them.
    ///
    /// [Cargo reference](https://doc.rust-lang.org/cargo/reference/unstable.html).
    pub cargo_features: Option<Vec<String>>,
    /// `[workspace]`, where the manifest is that of a workspace's root.
    ///
    /// [Cargo reference](https://doc.rust-lang.org/cargo/reference/workspaces.html).
    pub workspace: Option<Workspace<W>>,
    /// `[dependencies]`, by name; one that is renamed by its new name.
    ///
    /// [Cargo reference](https://doc.rust-lang.org/cargo/reference/specifying-dependencies.html).
    pub dependencies: Option<DepsSet>,
    /// `[dev-dependencies]`: those of tests, examples and benches.
    ///
    /// [Cargo reference](https://doc.rust-lang.org/cargo/reference/specifying-dependencies.html#development-dependencies).
    pub dev_dependencies: Option<DepsSet>,
    /// `[build-dependencies]`: those of the build script.
    ///
    /// [Cargo reference](https://doc.rust-lang.org/cargo/reference/specifying-dependencies.html#build-dependencies).
    pub build_dependencies: Option<DepsSet>,
    /// `[target]`: the dependencies for single platforms, by target triple or `cfg(..)`.
    ///
    /// [Cargo reference](https://doc.rust-lang.org/cargo/reference/specifying-dependencies.html#platform-specific-dependencies).
    pub target: Option<TargetDepsSet>,
    /// `[features]`: each with what it enables; an optional dependency can be a feature that is not listed.
    ///
    /// [Cargo reference](https://doc.rust-lang.org/cargo/reference/features.html#the-features-section).
    pub features: Option<FeatureSet>,
    /// Each `[[bin]]`: not all binaries, unless the manifest is completed, since others are discovered. Default:
    /// empty.
    ///
    /// [Cargo reference](https://doc.rust-lang.org/cargo/reference/cargo-targets.html#binaries).
    pub bin: Vec<Product>,
    /// Each `[[bench]]`: not all benches, unless the manifest is completed, since others are discovered. Default:
    /// empty.
    ///
    /// [Cargo reference](https://doc.rust-lang.org/cargo/reference/cargo-targets.html#benchmarks).
    pub bench: Vec<Product>,
    /// Each `[[test]]`: not all integration tests, unless the manifest is completed, since others are discovered.
    /// Default: empty.
    ///
    /// [Cargo reference](https://doc.rust-lang.org/cargo/reference/cargo-targets.html#tests).
    pub test: Vec<Product>,
    /// Each `[[example]]`: not all examples, unless the manifest is completed, since others are discovered.
    /// Default: empty.
    ///
    /// [Cargo reference](https://doc.rust-lang.org/cargo/reference/cargo-targets.html#examples).
    pub example: Vec<Product>,
    /// `[patch]`: the dependencies that patch others, by the registry or URL of these; Cargo takes those of the
    /// root alone.
    ///
    /// [Cargo reference](https://doc.rust-lang.org/cargo/reference/overriding-dependencies.html#the-patch-section).
    pub patch: Option<PatchSet>,
    /// `[lib]`; where there is none, one may be discovered, unless the manifest is completed.
    ///
    /// [Cargo reference](https://doc.rust-lang.org/cargo/reference/cargo-targets.html#library).
    pub lib: Option<Product>,
    /// `[profile]`; Cargo takes those of the workspace's root alone.
    ///
    /// [Cargo reference](https://doc.rust-lang.org/cargo/reference/profiles.html).
    pub profile: Option<Profiles>,
    /// `[badges]`.
    ///
    /// [Cargo reference](https://doc.rust-lang.org/cargo/reference/manifest.html#the-badges-section).
    pub badges: Option<Badges>,
    /// `[lints]`: the package's own, or inherited.
    ///
    /// [Cargo reference](https://doc.rust-lang.org/cargo/reference/manifest.html#the-lints-section).
    pub lints: Option<MaybeInheritedLintsSet>,
}

/// The rows of a manifest, for the macros of `manifest_value::row_macros`.
macro_rules! manifest {
    ($make:ident $given:tt) => {
        $make! { $given
            // (made by scripts/keys --write)
            package: optional "package";
            cargo_features: optional "cargo-features";
            workspace: optional "workspace";
            dependencies: optional "dependencies";
            dev_dependencies: optional "dev-dependencies" | "dev_dependencies";
            build_dependencies: optional "build-dependencies" | "build_dependencies";
            target: optional "target";
            features: optional "features";
            bin: nonempty_list "bin";
            bench: nonempty_list "bench";
            test: nonempty_list "test";
            example: nonempty_list "example";
            patch: optional "patch";
            lib: optional "lib";
            profile: optional "profile";
            badges: optional "badges";
            lints: optional "lints";
        }
    };
}

static MANIFEST: &[Spellings] = manifest!(names_of_rows());

impl<P, W> Manifest<P, W> {
    /// A manifest with nothing in it: every option is `None`, and every list is empty.
    ///
    /// ```ignore
    /// let mut manifest = Manifest::<Value, Value>::default(alloc);
    /// manifest.package = Some(package);
    /// ```
    pub fn default(alloc: Global) -> Manifest<P, W>
        ensures { (f : P → Data) (g : W → Data)
            → IsOfTable (manifest_rows raw raw) (manifest_content f g) no_members result }
    {
        // the struct and the allocator; no row is required
        manifest!(empty_of(Manifest, alloc, ()))
    }
}

/// [`Rowed`] says what each method does. The body `manifest!(read_row_of(..))` is made of the rows of `manifest!`, as a
/// `match` on the row's index `i`, and so are the others (`manifest_value::row_macros`).
impl<P: Metadata, W: Metadata> Rowed for Manifest<P, W> {
    // (made by scripts/keys --write)
    ghost Content = { Contents.Manifest };

    ghost content = { manifest_of P.kind W.kind P.content W.content };

    ghost rows = { manifest_rows (tree_of P.kind) (tree_of W.kind) };

    fn names() -> &'static [Spellings] {
        MANIFEST
    }

    fn empty(alloc: Global) -> Manifest<P, W> {
        Manifest::default(alloc)
    }

    fn read_row(&mut self, alloc: Global, i: usize, key: Word, slot: &mut RowSlot<'_>) -> RowRead {
        manifest!(read_row_of(self, alloc, i, key, slot))
    }

    fn row_findings(&self, alloc: Global, i: usize, key: Word, slot: &RowSlot<'_>) -> Found {
        manifest!(findings_of_row(self, alloc, i, key, slot))
    }

    fn put_row<'a>(&'a self, alloc: Global, i: usize, key: Word, out: &mut Pairs<'a>) -> RowPut {
        manifest!(put_row_of(self, alloc, i, key, out))
    }

    fn row_is_well_formed(&self, i: usize) -> bool {
        manifest!(good_row_of(self, i))
    }
}

/// A form: each field is a row, so it is read and written by its list alone, and `Schema` comes with it. `covers` is a
/// law, with an empty body.
impl<P: Metadata, W: Metadata> Form for Manifest<P, W> {
    fn covers() {}

    ghost lawful = { manifest_sound (tree_of P.kind) (tree_of W.kind) (tree_sound P.lawful)
        (tree_sound W.lawful) };
}

/// The canonical table of a manifest: each row under its first spelling, where it is written.
pub(crate) fn manifest_table<P: Metadata, W: Metadata>(
    alloc: Global,
    x: &Manifest<P, W>,
) -> Result<Table, AllocError>
    ensures { IfOk result (λ t. table_view t ≡ rewritten (tree_of P.kind) (tree_of W.kind)
        (manifest_of P.kind W.kind P.content W.content x.now)) }
{
    write_form(x, alloc)
}
