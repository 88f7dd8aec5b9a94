//! What is looked up while a list is made: the path of a name, and whether a text is in a set.

ghost use Rattle.std.specs.Prelude.{◌≡◌, List, ◌++◌, ◌∷◌, [], IfOk, OnOk, not};
ghost use Rattle.std.specs.Bool.{OnFalse};
ghost use Rattle.std.specs.Option.{option_copied};
ghost use Rattle.manifest_completion.specs.Finds.{Discovered};
ghost use Rattle.manifest_completion.specs.Targets.{first_path, has_path};
ghost use Rattle.manifest_completion.specs.Steps.{all_discovered_content};
ghost use Rattle.manifest_completion.specs.Index.{Indexes, paths_in, SamePaths};

use crate::discovered::FoundTarget;
use std::alloc::{AllocError, Global};
use std::collections::{BTreeMap, BTreeSet};
use std::marker::Model;

/// Some finds, with the path of the first find of each name.
#[derive(Drop)]
pub struct IndexedTargets<'a> {
    discovered: &'a [FoundTarget],
    paths: BTreeMap<&'a str, &'a str>,
}

/// A contract sees the finds; it is kept that `paths` has the path of the first find of each name.
impl<'a> Model for IndexedTargets<'a> {
    ghost Value = { List Discovered };

    ghost view = { λ it. all_discovered_content it.discovered.now };

    ghost invariant = { λ it. Indexes it.paths (all_discovered_content it.discovered.now) };
}

impl<'a> IndexedTargets<'a> {
    /// Makes the index. It goes from the last find to the first, so that the first of a name is what stays.
    pub fn new(
        alloc: Global,
        discovered: &'a [FoundTarget],
    ) -> Result<IndexedTargets<'a>, AllocError>
        ensures { IfOk result (λ it. it ≡ all_discovered_content discovered.now) }
    {
        let mut paths = BTreeMap::new(alloc);
        for target_found in discovered.iter().rev() {
            paths.insert(target_found.name.as_str(), target_found.path.as_str())?;
        }
        Ok(IndexedTargets { discovered, paths })
    }

    /// The path of the first find of a name; `None` where no find has the name.
    pub fn first_path(&self, name: &str) -> Option<&'a str>
        ensures { option_copied result ≡ first_path self.now name.now }
    {
        self.paths.get(name).copied()
    }
}

/// Adds a text to a set. Returns whether it was not in it before; where it was, the set stays as it is.
///
/// ```ignore
/// let is_new = add_text(&mut taken, "src/main.rs")?;
/// ```
pub fn add_text<'a>(texts: &mut BTreeSet<&'a str>, text: &'a str) -> Result<bool, AllocError>
    ensures new { IfOk result (λ is_new. is_new ≡ not (has_path (paths_in texts.old) text.now)) }
    ensures added { let more = paths_in texts.old ++ text.now ∷ [] in
        OnOk result (SamePaths (paths_in texts.new) more) }
    ensures kept { IfOk result
        (λ is_new. OnFalse is_new (paths_in texts.new ≡ paths_in texts.old)) }
{
    Ok(texts.insert(text)?)
}
