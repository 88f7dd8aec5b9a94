//! What each call of the library for programs in C, Rust and Python answers. A request comes in (bytes, a root, folders);
//! an [`Answer`] comes out, and a text or tagged bytes in the caller's memory. Begin with `src/answer.rt`. The calls
//! themselves, by the names and in the form that such programs call, are those of `manifest_ffi`, and each is one call of
//! a function of this crate.
#![tactic(auto)]

mod answer;
mod around;
mod checked;
mod checking;
mod editing;
mod folders;
mod inspecting;
mod making;
mod placing;
mod positions;
mod reading;
mod refusal;
mod reporting;
mod unfound;
mod unread;
mod unresolved;

pub use answer::{
    Answer, Asked, Request, respond, respond_diagnostics, respond_document, respond_edited,
    respond_findings, respond_placed_findings, respond_placed_refusals,
    respond_placed_unfound_targets, respond_positions, respond_request, respond_unread,
};
pub use around::{CheckRequest, GivenMember, GivenPackage};
pub use editing::{GivenEdit, GivenStep};
pub use folders::Folder;
pub use making::Output;
pub use reading::Input;
