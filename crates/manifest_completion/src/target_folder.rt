//! The folders of targets, one for each list of a manifest.

ghost use Rattle.std.specs.Prelude.{◌≡◌};
ghost use Rattle.manifest_completion.specs.Listings.{folder_text, is_bins, is_examples};
ghost use Rattle.manifest_completion.specs.Unfound.{list_key};

/// A folder of targets; it stands for the list of its targets too.
#[derive(Clone, Copy)]
pub enum TargetFolder {
    /// `src/bin`, of the list `bin`.
    Bins,
    /// `examples`, of the list `example`.
    Examples,
    /// `tests`, of the list `test`.
    Tests,
    /// `benches`, of the list `bench`.
    Benches,
}

impl TargetFolder {
    /// The path that the filesystem is asked with.
    pub(crate) fn path(self) -> &'static str
        ensures { result.now ≡ folder_text self }
    {
        match self {
            TargetFolder::Bins => "src/bin",
            TargetFolder::Examples => "examples",
            TargetFolder::Tests => "tests",
            TargetFolder::Benches => "benches",
        }
    }

    /// The key of the list.
    pub(crate) fn key(self) -> &'static str
        ensures { result.now ≡ list_key self }
    {
        match self {
            TargetFolder::Bins => "bin",
            TargetFolder::Examples => "example",
            TargetFolder::Tests => "test",
            TargetFolder::Benches => "bench",
        }
    }

    /// Whether it is the folder of the binaries.
    pub(crate) fn is_bins(self) -> bool
        ensures { result ≡ is_bins self }
    {
        matches!(self, TargetFolder::Bins)
    }

    /// Whether it is the folder of the examples.
    pub(crate) fn is_examples(self) -> bool
        ensures { result ≡ is_examples self }
    {
        matches!(self, TargetFolder::Examples)
    }
}
