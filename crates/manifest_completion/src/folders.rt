//! The folders of the real filesystem.

ghost use Rattle.std.specs.Prelude.{◌≡◌};
ghost use Rattle.std.specs.Path.{path_bytes};
ghost use Rattle.manifest_completion.specs.Listings.{AnyAscending};

use crate::ask::names_ascend;
use crate::filesystem::AbstractFilesystem;
use std::alloc::Global;
use std::collections::BTreeSet;
use std::io::ErrorKind;
use std::path::Path;
use std::rt::Files;
use std::{fs, io};

/// The folders under a path of the real filesystem. What they hold is the system's to say, so each answer is allowed
/// whose names ascend.
///
/// It answers the names in a folder, of files, folders and all else. An entry whose name is not UTF-8, or that cannot
/// be read, is left out. Under the empty path it lists folders of the working folder.
#[derive(Clone, Copy)]
pub struct Filesystem<'a, R> {
    rt: &'a R,
    path: Path<'a>,
}

impl<'a, R> Filesystem<'a, R> {
    /// The folders under this path, by this runtime. Nothing is asked of the system yet.
    ///
    /// ```ignore
    /// let fs = Filesystem::new(&rt, Path::new("crates/a"));
    /// manifest.complete_from_abstract_filesystem(rt.alloc(), &fs)?;
    /// ```
    pub fn new(rt: &'a R, path: Path<'a>) -> Filesystem<'a, R>
        ensures { path_bytes result.path ≡ path_bytes path.entry }
    {
        Filesystem { rt, path }
    }
}

/// The names of all entries of a folder of the disk, without those that are not UTF-8 and those that cannot be read.
fn names_in<R: Files + AllocGlobal + Clone + Drop>(
    rt: &R,
    alloc: Global,
    folder: Path<'_>,
) -> io::Result<BTreeSet<String>> {
    let mut names = BTreeSet::new(alloc);
    for entry in fs::read_dir(rt, folder)? {
        match entry {
            Ok(entry) => {
                names.insert(String::from_str(alloc, entry.file_name())?)?;
            }
            Err(fault) if fault.kind() == ErrorKind::OutOfMemory => return Err(fault),
            Err(_) => {}
        }
    }
    Ok(names)
}

/// Lists a folder of the disk, below the path of this filesystem. All that is promised of the names is that they
/// ascend.
impl<R: Files + AllocGlobal + Clone + Drop> AbstractFilesystem for Filesystem<'_, R> {
    ghost allows = { λ _ path answer. AnyAscending path answer };

    #[tactic(auto, using(crate::proofs::AskLemmas::none_ascend))]
    fn file_names_in(&self, alloc: Global, rel_path: &str) -> io::Result<BTreeSet<String>> {
        let folder = match self.path.join(alloc, rel_path) {
            Ok(folder) => folder,
            Err(refused) => return Err(io::Error::from(refused)),
        };
        match names_in(self.rt, alloc, folder.as_path()) {
            Ok(names) => {
                names_ascend(&names);
                Ok(names)
            }
            Err(fault) => Err(fault),
        }
    }
}
