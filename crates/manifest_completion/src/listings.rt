//! A filesystem in memory.

ghost use Rattle.manifest_schema.specs.Prelude.{bytes_eq, NotFound};
ghost use Rattle.std.specs.Prelude.{◌≡◌, ℕ, List, Some, OnOk, OnErr, if◌then◌else◌};
ghost use Rattle.manifest_completion.specs.Listings.{fault};
ghost use Rattle.manifest_completion.specs.Stored.{stored_at, stored_answer, AnswersAsStored};

use crate::filesystem::AbstractFilesystem;
use std::alloc::{AllocError, Global};
use std::collections::{BTreeMap, BTreeSet};
use std::io;
use std::io::ErrorKind;

/// What a path of [`Listings`] is answered with.
#[derive(Debug, Drop)]
pub enum Listing {
    /// These names.
    Names(BTreeSet<String>),
    /// A fault of the kind `Other`.
    Fault,
}

/// A filesystem in memory: at each path it answers what was put there last, and `NotFound` elsewhere. Where there is no
/// memory for the copy of its names it answers `OutOfMemory`. So what was put decides a completion over it:
/// `laws::stored_decides`.
#[derive(Debug, Drop)]
pub struct Listings {
    /// What was put last at each path.
    pub listed: BTreeMap<String, Listing>,
}

impl Listings {
    /// A filesystem without any folder.
    ///
    /// ```ignore
    /// let listings = Listings::new(alloc); // each path is `NotFound`
    /// ```
    pub fn new(alloc: Global) -> Listings
        ensures { (path : List ℕ) → stored_at result.listed path ≡ fault NotFound }
    {
        Listings {
            listed: BTreeMap::new(alloc),
        }
    }

    /// Puts a listing at a path, in place of one that is there. When out of memory it changes nothing.
    ///
    /// ```ignore
    /// let mut names = BTreeSet::new(alloc);
    /// names.insert(String::from_str(alloc, "lib.rs")?)?;
    /// listings.put(alloc, "src", Listing::Names(names))?;
    /// ```
    pub fn put(&mut self, alloc: Global, path: &str, listing: Listing) -> Result<(), AllocError>
        ensures put { OnOk result
            ((at : List ℕ) → stored_at self.new.listed at
            ≡ (if bytes_eq path.now at then stored_answer (Some listing)
            else stored_at self.old.listed at)) }
        ensures refused { OnErr result (self.new.listed.entries ≡ self.old.listed.entries) }
    {
        let key = String::from_str(alloc, path)?;
        self.listed.insert(key, listing)?;
        Ok(())
    }
}

/// Answers what was put at the path last, and `NotFound` where nothing was.
impl AbstractFilesystem for Listings {
    ghost allows = { λ it path answer. AnswersAsStored (stored_at it.listed) path answer };

    fn file_names_in(&self, _alloc: Global, rel_path: &str) -> io::Result<BTreeSet<String>> {
        match self.listed.get(rel_path) {
            None => Err(io::Error::from(ErrorKind::NotFound)),
            Some(Listing::Fault) => Err(io::Error::from(ErrorKind::Other)),
            Some(Listing::Names(names)) => Ok(names.clone()?),
        }
    }
}
