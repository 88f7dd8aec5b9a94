//! What is known of manifests, as JSON, and as a page of HTML that shows it: one file, with no other origin. Begin with
//! `src/entry.rt`.
#![tactic(auto)]

mod entry;
mod page;
mod page_text;

pub use entry::{Entry, push_entry};
pub use page::{data_has_no_tag, push_begin, push_data, push_end};
