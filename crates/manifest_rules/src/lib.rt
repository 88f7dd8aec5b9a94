//! What the rules of manifests look at, and what they say. Begin with `src/codes.rt`, the table of the rules, and `src/look.rt`,
//! what they look at; each rule is a function of `manifest_package_rules` or of `manifest_dependency_rules`.
#![tactic(auto)]

mod asked;
pub mod codes;
pub mod files;
pub mod found;
pub mod look;
pub mod report;
pub mod words;

pub use asked::{asked_folders, asked_packages};
pub use codes::{ALL, Code, Level, Needs, code_named};
pub use look::{
    Edition, Folders, Member, PathPackage, Root, Surroundings, edition_in, member_of, unread_member,
};
pub use report::{At, File, Label, Part, Report, Spot, Suggestion, copied, copied_edits};
pub use words::Nearest;
