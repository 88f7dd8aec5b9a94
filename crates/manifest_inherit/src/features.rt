//! The features of a dependency inherited from the workspace: the workspace's, and those that the member adds.

ghost use Rattle.std.specs.Prelude.{◌≡◌, ◌++◌, ◌∷◌, [], List, ℕ, OnOk, IfOk, map, option_map, string_bytes};
ghost use Rattle.manifest_completion.specs.Index.{paths_in as texts_in, SamePaths as SameTexts};
ghost use Rattle.manifest_inherit.specs.Resolved.{new_features, joined_features};
ghost use Rattle.manifest_inherit.specs.ForProofs.{borrowed_texts};

use manifest_completion::index::add_text;
use std::alloc::{AllocError, Global};
use std::collections::BTreeSet;

/// The set of some features.
fn set_of<'a>(alloc: Global, features: &'a [String]) -> Result<BTreeSet<&'a str>, AllocError>
    ensures { IfOk result (λ s. SameTexts (texts_in s) (map string_bytes features.now)) }
{
    let mut there = BTreeSet::new(alloc);
    for feature in features {
        add_text(&mut there, feature.as_str())?;
    }
    Ok(there)
}

/// Appends a feature to the new ones, where it is not among those that are there, and adds it to these.
fn push_new<'h, 'o: 'h>(
    there: &mut BTreeSet<&'h str>,
    new: &mut Vec<&'o str>,
    feature: &'o str,
) -> Result<(), AllocError>
    ensures { (fs : List (List ℕ)) → OnOk result
        (borrowed_texts new.new.items ++ new_features (texts_in there.new) fs
        ≡ borrowed_texts new.old.items ++ new_features (texts_in there.old) (feature.now ∷ fs)) }
{
    let seen: &'h str = feature;
    if add_text(there, seen)? {
        new.push(feature)?;
        Ok(())
    } else {
        Ok(())
    }
}

/// The features that are not among those that are there, in their order, each once.
fn new_among<'h, 'o: 'h>(
    alloc: Global,
    mut there: BTreeSet<&'h str>,
    features: &'o [String],
) -> Result<Vec<&'o str>, AllocError>
    ensures { IfOk result (λ v. borrowed_texts v.items
        ≡ new_features (texts_in there.entry) (map string_bytes features.now)) }
{
    let mut new = Vec::new(alloc);
    for feature in features {
        push_new(&mut there, &mut new, feature.as_str())?;
    }
    Ok(new)
}

/// Appends copies of some texts to the features. After an error it may have some of them.
fn append(alloc: Global, features: &mut Vec<String>, new: &[&str]) -> Result<(), AllocError>
    ensures { OnOk result (map string_bytes features.new.items
        ≡ map string_bytes features.old.items ++ borrowed_texts new.now) }
{
    for feature in new {
        features.push(String::from_str(alloc, feature)?)?;
    }
    Ok(())
}

/// Appends to the workspace's `features` a copy of each of the member's (`own`) that the list does not have yet, in
/// their order, in n log n steps. After an error it may have some of them.
fn add_new(alloc: Global, features: &mut Vec<String>, own: &[String]) -> Result<(), AllocError>
    ensures { let had = map string_bytes features.old.items in
        OnOk result (map string_bytes features.new.items
        ≡ had ++ new_features had (map string_bytes own.now)) }
{
    let there = set_of(alloc, features.as_slice())?;
    let new = new_among(alloc, there, own)?;
    append(alloc, features, new.as_slice())
}

/// Adds to the workspace's features (`features`) those of the member (`own`) that are not among them, in their order;
/// `None` of both stays `None`.
pub(crate) fn join_features(
    alloc: Global,
    features: &mut Option<Vec<String>>,
    own: &Option<Vec<String>>,
) -> Result<(), AllocError>
    ensures { OnOk result (option_map (λ v. map string_bytes v.items) features.new
        ≡ joined_features (option_map (λ v. map string_bytes v.items) features.old)
        (option_map (λ v. map string_bytes v.items) own.now)) }
{
    match own {
        Some(own) => match features {
            Some(features) => add_new(alloc, features, own.as_slice()),
            None => {
                let mut all = Vec::new(alloc);
                add_new(alloc, &mut all, own.as_slice())?;
                *features = Some(all);
                Ok(())
            }
        },
        None => Ok(()),
    }
}
