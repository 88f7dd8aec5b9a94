//! A filesystem, as completion sees it.

ghost use Rattle.std.specs.Prelude.{List, ℕ};
ghost use Rattle.manifest_completion.specs.Listings.{Answer};
ghost use Rattle.manifest_completion.specs.Answered.{answer_of};

use std::alloc::Global;
use std::collections::BTreeSet;
use std::io;

/// What lists folders. An implementation names the answers that it may give at a path; it may answer the same path
/// otherwise each time.
pub trait AbstractFilesystem {
    /// The answers that may be given at a path.
    ghost allows: { Self → List ℕ → Answer → Type 0 };

    /// The names of the files and folders in the folder at this path, which is relative to the folder of the manifest
    /// and has `/` between its parts; `.` is that folder itself. It should answer `NotFound` for a folder that is not
    /// there, and `OutOfMemory` where there is no memory for the names.
    fn file_names_in(&self, alloc: Global, rel_path: &str) -> io::Result<BTreeSet<String>>
        ensures { allows self.now rel_path.now (answer_of result) };
}
