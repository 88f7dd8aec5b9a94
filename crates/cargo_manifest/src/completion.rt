//! Completion of a manifest from the listings of a filesystem, the flags that it uses, and the declared targets for
//! which it finds no file.

ghost use Rattle.std.specs.Prelude.{◌≡◌, [], IsOkAnd, OnErr, Ok, Some, None};
ghost use Rattle.manifest_schema.specs.Contents;
ghost use Rattle.cargo_manifest.specs.Tables.{package_of};
ghost use Rattle.manifest_completion.specs.Completed.{targets_of, with_targets, flag_by, autobins, autoexamples, autotests, autobenches};
ghost use Rattle.manifest_completion.specs.Outcome.{declared_content, completed_content};
ghost use Rattle.cargo_manifest.specs.Completes.{Completes, IsUnfound};
ghost use Rattle.cargo_manifest.specs.Whole.{manifest_raw};

use crate::manifest::Manifest;
use crate::package::Package;
use manifest_completion::{
    AbstractFilesystem, CompletedTargets, DeclaredTargets, TargetFolder, complete, unfound_targets,
};
use manifest_value::{Error, KeyPath, Metadata};
use std::alloc::Global;
use toml::Value;

/// Borrows what completion reads of a package and of its manifest: its names, flags and declared targets.
fn declared_targets<'a, P: Metadata>(
    manifest: &'a Manifest<P, Value>,
    package: &'a Package<P>,
) -> DeclaredTargets<'a>
    ensures { declared_content result
        ≡ targets_of (package_of P.kind P.content «package».now)
        (manifest_raw P.kind P.content manifest.now) }
{
    DeclaredTargets {
        name: package.name.as_str(),
        edition: &package.edition,
        autolib: package.autolib,
        autobins: package.autobins,
        autoexamples: package.autoexamples,
        autotests: package.autotests,
        autobenches: package.autobenches,
        build: &package.build,
        lib: &manifest.lib,
        bin: &manifest.bin,
        example: &manifest.example,
        test: &manifest.test,
        bench: &manifest.bench,
    }
}

/// Whether found targets are added to a list; false without a package.
fn adds<P: Metadata>(manifest: &Manifest<P, Value>, folder: TargetFolder) -> bool
    ensures { let m = manifest_raw P.kind P.content manifest.now in
        result ≡ flag_by m.«package» m folder }
{
    match &manifest.package {
        Some(package) => declared_targets(manifest, package).adds(folder),
        None => false,
    }
}

/// Puts the completed library, lists and build script into a manifest that has a package; all else stays as it is. Of a
/// manifest without a package the contract says nothing: it is not called with one. `completed_content before c` is
/// what `c` holds, with the name, the edition and the flags of `before`, which `c` does not have.
fn put_targets<P: Metadata>(manifest: &mut Manifest<P, Value>, completed: CompletedTargets)
    ensures { let old = manifest_raw P.kind P.content manifest.old in
        (p : Contents.Package) → old.«package» ≡ Some p
        → manifest_raw P.kind P.content manifest.new
        ≡ with_targets p old (completed_content (targets_of p old) completed) }
{
    let CompletedTargets {
        build,
        lib,
        bin,
        example,
        test,
        bench,
    } = completed;
    if let Some(package) = &mut manifest.package {
        package.build = build;
    }
    manifest.lib = lib;
    manifest.bin = bin;
    manifest.example = example;
    manifest.test = test;
    manifest.bench = bench;
}

impl<P: Metadata> Manifest<P, Value> {
    /// Whether found binaries are added to `bin`: as the package's `autobins` says, and where it says nothing, unless
    /// the edition is absent or 2015 and there is a binary. False without a package. See the
    /// [Cargo reference](https://doc.rust-lang.org/cargo/reference/cargo-targets.html#target-auto-discovery).
    ///
    /// ```ignore
    /// let manifest = Manifest::from_str(alloc, "[package]\nname = 'a'\nautobins = false")?;
    /// let adds = manifest.autobins(); // false
    /// ```
    pub fn autobins(&self) -> bool
        ensures { result ≡ autobins (manifest_raw P.kind P.content self.now) }
    {
        adds(self, TargetFolder::Bins)
    }

    /// Whether found examples are added to `example`, as [`Manifest::autobins`] says of binaries.
    ///
    /// ```ignore
    /// let adds = manifest.autoexamples();
    /// ```
    pub fn autoexamples(&self) -> bool
        ensures { result ≡ autoexamples (manifest_raw P.kind P.content self.now) }
    {
        adds(self, TargetFolder::Examples)
    }

    /// Whether found tests are added to `test`, as [`Manifest::autobins`] says of binaries.
    ///
    /// ```ignore
    /// let adds = manifest.autotests();
    /// ```
    pub fn autotests(&self) -> bool
        ensures { result ≡ autotests (manifest_raw P.kind P.content self.now) }
    {
        adds(self, TargetFolder::Tests)
    }

    /// Whether found benches are added to `bench`, as [`Manifest::autobins`] says of binaries.
    ///
    /// ```ignore
    /// let adds = manifest.autobenches();
    /// ```
    pub fn autobenches(&self) -> bool
        ensures { result ≡ autobenches (manifest_raw P.kind P.content self.now) }
    {
        adds(self, TargetFolder::Benches)
    }

    /// Completes the manifest by what the filesystem lists: the library, the binaries, examples, tests and benches, and
    /// the build script. `docs/COMPLETION.md` says how. Without a package nothing is asked and nothing changes.
    ///
    /// It asks for `src`; `src/bin` and each of its entries; `examples`, `tests`, `benches`, each with its entries; and
    /// `.`, where `build` is absent or true. Refuses with [`Error::Io`] where `src` has another fault than that it is
    /// not there, where memory runs out for the listing of a target folder or of an entry, and where `.` has a fault;
    /// with [`Error::Other`] where a declared library has no file; and with [`Error::Memory`] when out of memory. After
    /// a refusal the manifest is what it was.
    ///
    /// ```ignore
    /// let mut names = BTreeSet::new(alloc);
    /// names.insert(String::from_str(alloc, "main.rs")?)?;
    /// let mut listings = Listings::new(alloc);
    /// listings.put(alloc, "src", Listing::Names(names))?;
    /// listings.put(alloc, ".", Listing::Names(BTreeSet::new(alloc)))?; // no build script
    /// manifest.complete_from_abstract_filesystem(alloc, &listings)?; // one binary, at `src/main.rs`
    /// ```
    pub fn complete_from_abstract_filesystem<FS: AbstractFilesystem>(
        &mut self,
        alloc: Global,
        fs: &FS,
    ) -> Result<(), Error>
        ensures answers { Completes (FS.allows fs.now) (manifest_raw P.kind P.content self.old)
            (manifest_raw P.kind P.content self.new) result }
        ensures refused { OnErr result (self.new ≡ self.old) }
        ensures without { self.old.«package» ≡ None → (result ≡ Ok tt) × (self.new ≡ self.old) }
    {
        let completed = match &self.package {
            Some(package) => complete(alloc, fs, &declared_targets(self, package))?,
            None => return Ok(()),
        };
        put_targets(self, completed);
        Ok(())
    }

    /// Where the declared targets stand for which the filesystem has no file: `lib`, where the completion of the
    /// manifest is refused for the library, and as `bin[1]` each binary, example, test or bench that the completion
    /// leaves without a path. The library is first, and then each list is in order; without a package nothing is
    /// unfound. A path that is declared is not looked up, and the manifest is not changed.
    ///
    /// It asks for `src`; `src/bin` and each of its entries; and `examples`, `tests`, `benches`, each with its entries.
    /// Without a package nothing is asked. Refuses with [`Error::Io`] where `src` has another fault than that it is not
    /// there, and where memory runs out for the listing of a target folder or of an entry; and with [`Error::Memory`]
    /// when out of memory.
    ///
    /// ```ignore
    /// let manifest = Manifest::from_str(alloc, "package.name = 'a'\nlib = {}\n[[bin]]\nname = 'b'")?;
    /// let paths = manifest.unfound_targets(alloc, &Listings::new(alloc))?; // `lib` and `bin[0]`
    /// ```
    pub fn unfound_targets<FS: AbstractFilesystem>(
        &self,
        alloc: Global,
        fs: &FS,
    ) -> Result<Vec<KeyPath>, Error>
        ensures answers { IsUnfound (FS.allows fs.now) (manifest_raw P.kind P.content self.now)
            result }
        ensures without { self.now.«package» ≡ None → IsOkAnd result (λ v. v.items ≡ []) }
    {
        match &self.package {
            Some(package) => unfound_targets(alloc, fs, &declared_targets(self, package)),
            None => Ok(Vec::new(alloc)),
        }
    }
}
