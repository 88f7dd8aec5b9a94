//! Completion of a manifest from the listings of a filesystem. The declared targets of a package and a filesystem come
//! in; the completed targets and the build script come out, or why there are none. Begin with `specs/Completed.antt`,
//! what completion makes, and `src/completion.rt`; `docs/COMPLETION.md` says how to read the definitions.
#![tactic(auto)]

mod ask;
pub mod completion;
mod copies;
mod discovered;
pub mod filesystem;
pub mod folders;
pub mod index;
pub mod laws;
mod library;
pub mod listings;
mod target_folder;
mod targets;
pub mod unfound;

pub use completion::{CompletedTargets, DeclaredTargets, complete, is_legacy};
pub use filesystem::AbstractFilesystem;
pub use folders::Filesystem;
pub use listings::{Listing, Listings};
pub use target_folder::TargetFolder;
pub use unfound::unfound_targets;
