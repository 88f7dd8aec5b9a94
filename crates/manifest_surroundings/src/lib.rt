//! A manifest in its surroundings: the root of its workspace and the members, the folders and packages around it, and the
//! configurations above it, all of them read from files, or from texts in the place of some; what is said of it there; and
//! the same manifest with the suggestions made that are certain. Begin with `src/judging.rt`.
#![tactic(auto)]

mod config;
mod dependencies;
mod files;
mod fixing;
mod judging;
mod levels;
mod members;
mod packages;
mod paths;
mod patterns;
mod roots;
mod scope;
mod tables;

pub use files::{
    NotReplaced, Reader, Unread, Unreadable, document_of, is_folder, names_in, read_limited,
    replace_file,
};
pub use fixing::{Fixed, with_fixes};
pub use judging::{Placed, State, judge, place};
pub use levels::{SETTINGS, Setting};
pub use members::Members;
pub use paths::{MANIFEST, folder_of, join, opened, resolved, shown};
pub use roots::KeptRoot;
pub use scope::{LevelWord, MOST, Scope};
