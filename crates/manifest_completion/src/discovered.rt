//! The targets that the listings of a folder hold.

ghost use Rattle.std.specs.Prelude.{◌≡◌, ◌++◌, OnOk, IfOk, string_bytes};
ghost use Rattle.std.specs.Option.{option_copied};
ghost use Rattle.manifest_completion.specs.Listings.{lists};
ghost use Rattle.manifest_completion.specs.Answered.{answer_of};
ghost use Rattle.manifest_completion.specs.Finds.{stem, discovered_in_entry, discovered_main, list_finds};
ghost use Rattle.manifest_completion.specs.Steps.{all_discovered_content, folder_paired, paired};

use crate::ask::{Answers, FolderAnswers, join};
use crate::target_folder::TargetFolder;
use std::alloc::{AllocError, Global};
use std::collections::BTreeSet;
use std::io;

/// A target that was found.
#[derive(Drop)]
pub struct FoundTarget {
    pub name: String,
    pub path: String,
}

/// A name without its ending `.rs`; `None` where it does not end so.
#[tactic(auto, using(crate::proofs::DiscoveredLemmas::stem_is))]
fn stem(name: &str) -> Option<&str>
    ensures { option_copied result ≡ stem name.now }
{
    name.strip_suffix(".rs")
}

/// Whether an answer lists a name: false of a fault.
pub fn lists(answer: &io::Result<BTreeSet<String>>, name: &str) -> bool
    ensures { result ≡ lists (answer_of answer.now) name.now }
{
    match answer {
        Ok(names) => names.contains(name),
        Err(_) => false,
    }
}

/// Appends the finds of one entry of a folder of targets: a file `x.rs` is a target `x`, and so is a folder `x` whose
/// listing, `answer`, has `main.rs`.
fn push_discovered_in_entry(
    discovered: &mut Vec<FoundTarget>,
    alloc: Global,
    folder: &str,
    name: &str,
    answer: &io::Result<BTreeSet<String>>,
) -> Result<(), AllocError>
    ensures { OnOk result
        (all_discovered_content discovered.new.items
        ≡ all_discovered_content discovered.old.items
        ++ discovered_in_entry folder.now name.now (answer_of answer.now)) }
{
    if let Some(stem) = stem(name) {
        discovered.push(FoundTarget {
            name: String::from_str(alloc, stem)?,
            path: join(alloc, folder, name)?,
        })?;
    }
    if lists(answer, "main.rs") {
        let inside = join(alloc, folder, name)?;
        discovered.push(FoundTarget {
            name: String::from_str(alloc, name)?,
            path: join(alloc, inside.as_str(), "main.rs")?,
        })?;
    }
    Ok(())
}

/// The finds of a folder, as [`push_discovered_in_entry`] makes them of each of its names and the answer at it, in
/// the order of the names; none where the folder itself was answered with a fault.
#[tactic(auto, using(crate::proofs::DiscoveredLemmas::paired_none))]
fn discovered_in_folder(
    alloc: Global,
    folder: &str,
    answers: &FolderAnswers,
) -> Result<Vec<FoundTarget>, AllocError>
    ensures { IfOk result
        (λ v. all_discovered_content v.items ≡ folder_paired folder.now answers.now) }
{
    let mut discovered = Vec::new(alloc);
    let Ok(names) = &answers.own else {
        return Ok(discovered);
    };
    let mut entries = answers.entries.iter();
    for name in names.iter() {
        match entries.next() {
            Some(answer) => {
                push_discovered_in_entry(&mut discovered, alloc, folder, name.as_str(), answer)?;
            }
            None => {}
        }
    }
    Ok(discovered)
}

/// Appends the find of `src/main.rs` to those of the binaries, under the package's name, if `source`, the answer at
/// `src`, lists it.
fn push_discovered_main(
    discovered: &mut Vec<FoundTarget>,
    alloc: Global,
    name: &str,
    source: &io::Result<BTreeSet<String>>,
    folder: TargetFolder,
) -> Result<(), AllocError>
    ensures { OnOk result
        (all_discovered_content discovered.new.items
        ≡ all_discovered_content discovered.old.items
        ++ discovered_main name.now (answer_of source.now) folder) }
{
    if folder.is_bins() & lists(source, "main.rs") {
        discovered.push(FoundTarget {
            name: String::from_str(alloc, name)?,
            path: String::from_str(alloc, "src/main.rs")?,
        })?;
    }
    Ok(())
}

/// The finds of a list, by what was answered: those of its folder, and of the binaries `src/main.rs`, after them.
pub fn discovered_targets(
    alloc: Global,
    name: &str,
    answers: &Answers,
    folder: TargetFolder,
) -> Result<Vec<FoundTarget>, AllocError>
    ensures { IfOk result (λ v. all_discovered_content v.items
        ≡ list_finds name.now (answer_of answers.now.source) (paired answers.now) folder) }
{
    let mut discovered = discovered_in_folder(alloc, folder.path(), answers.of(folder))?;
    push_discovered_main(&mut discovered, alloc, name, &answers.source, folder)?;
    Ok(discovered)
}
