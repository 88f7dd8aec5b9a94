//! A manifest from a file, completed by the folder that the file stands in.

ghost use Rattle.manifest_schema.specs.Prelude.{view, raw, tree_of};
ghost use Rattle.std.specs.Prelude.{◌≡◌, ◌⊎◌, Ok, None, IfOk, IfErr, OnErr, IsSome};
ghost use Rattle.cargo_manifest.specs.Answers.{Refuses};
ghost use Rattle.cargo_manifest.specs.Whole.{manifest_content, manifest_raw};
ghost use Rattle.cargo_manifest.specs.Folders.{folder_of, CompletesIn, IsCompletedOf, RefusesCompleted, IsOfPath, RefusesPath};

use crate::manifest::Manifest;
use manifest_completion::Filesystem;
use manifest_value::{Error, Metadata};
use std::path::Path;
use std::rt::Files;
use std::{fs, io};
use toml::Value;

/// The manifest that the bytes mean, completed over the folder in which the file at `path` stands. The file itself is
/// not read.
fn from_bytes<P: Metadata, R: Files + AllocGlobal + Clone + Drop>(
    rt: &R,
    path: Path<'_>,
    bytes: &[u8],
) -> Result<Manifest<P, Value>, Error>
    ensures ok { IfOk result (λ m.
        IsCompletedOf (tree_of P.kind) (tree_of raw) (folder_of path.entry) bytes.now
        (manifest_raw P.kind P.content m)) }
    ensures refused { IfErr result (λ e. Refuses (tree_of P.kind) (tree_of raw) bytes.now e
        ⊎ RefusesCompleted (tree_of P.kind) (tree_of raw) (folder_of path.entry) bytes.now e) }
{
    let mut manifest = match Manifest::from_slice_with_metadata(rt.alloc(), bytes) {
        Ok(manifest) => manifest,
        Err(refused) => return Err(refused),
    };
    match manifest.complete_from_path(rt, path) {
        Ok(()) => Ok(manifest),
        Err(refused) => {
            drop(manifest);
            Err(refused)
        }
    }
}

impl<P: Metadata> Manifest<P, Value> {
    /// Completes the manifest by the folder that a path stands in, its parent: as
    /// [`Manifest::complete_from_abstract_filesystem`] does over [`Filesystem`]. The folder of a bare name is the
    /// working folder.
    ///
    /// Refuses a path without a parent, which is `/` or the empty one, with [`Error::Io`] of the kind `Other`, also
    /// without a package; then as `complete_from_abstract_filesystem` does. After a refusal the manifest is what it
    /// was.
    ///
    /// ```ignore
    /// let path = Path::new("foo-bar/Cargo.toml");
    /// manifest.complete_from_path(&rt, path)?; // by the folder `foo-bar`
    /// ```
    pub fn complete_from_path<R: Files + AllocGlobal + Clone + Drop>(
        &mut self,
        rt: &R,
        path: Path<'_>,
    ) -> Result<(), Error>
        ensures answers { CompletesIn (folder_of path.entry)
            (manifest_raw P.kind P.content self.old)
            (manifest_raw P.kind P.content self.new) result }
        ensures refused { OnErr result (self.new ≡ self.old) }
        ensures without { self.old.«package» ≡ None → IsSome (folder_of path.entry)
            → (result ≡ Ok tt) × (self.new ≡ self.old) }
    {
        match path.parent() {
            Some(folder) => {
                let fs = Filesystem::new(rt, folder);
                self.complete_from_abstract_filesystem(rt.alloc(), &fs)
            }
            None => Err(Error::Io(io::Error::other("the path has no parent"))),
        }
    }

    /// Reads a `Cargo.toml` from its file, with the package's metadata as a `P`, and completes it by the folder that it
    /// stands in.
    ///
    /// Refuses a file that cannot be read with [`Error::Io`]; then its bytes as [`Manifest::from_slice_with_metadata`]
    /// does; then as [`Manifest::complete_from_path`] does.
    ///
    /// ```ignore
    /// let manifest = Manifest::<Score>::from_path_with_metadata(&rt, Path::new("Cargo.toml"))?; // for a type `Score: Metadata`
    /// ```
    pub fn from_path_with_metadata<R: Files + AllocGlobal + Clone + Drop>(
        rt: &R,
        path: Path<'_>,
    ) -> Result<Manifest<P, Value>, Error>
        ensures ok { IfOk result (λ m.
            IsOfPath (tree_of P.kind) (tree_of raw) (folder_of path.entry)
            (manifest_raw P.kind P.content m)) }
        ensures refused { IfErr result
            (RefusesPath (tree_of P.kind) (tree_of raw) (folder_of path.entry)) }
    {
        match fs::read(rt, path) {
            Ok(bytes) => from_bytes(rt, path, bytes.as_slice()),
            Err(fault) => Err(Error::Io(fault)),
        }
    }
}

impl Manifest<Value, Value> {
    /// Reads a `Cargo.toml` from its file and completes it: [`Manifest::from_path_with_metadata`] with metadata kept as
    /// it is.
    ///
    /// ```ignore
    /// let manifest = Manifest::from_path(&rt, Path::new("Cargo.toml"))?; // completed by the working folder
    /// ```
    pub fn from_path<R: Files + AllocGlobal + Clone + Drop>(
        rt: &R,
        path: Path<'_>,
    ) -> Result<Manifest<Value, Value>, Error>
        ensures ok { IfOk result (λ m.
            IsOfPath (tree_of raw) (tree_of raw) (folder_of path.entry)
            (manifest_content view view m)) }
        ensures refused { IfErr result
            (RefusesPath (tree_of raw) (tree_of raw) (folder_of path.entry)) }
    {
        Manifest::from_path_with_metadata(rt, path)
    }
}
