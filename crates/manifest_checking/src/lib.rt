//! What the program `manifest_check` does, but serving an editor, over any reader and writers. Begin with `src/words.rt`, what can be
//! asked for, and `src/run.rt`, what is done then.
#![tactic(auto)]

mod checking;
mod explaining;
mod options;
mod progress;
mod run;
mod showing;
mod walk;
mod words;

pub use options::Request;
pub use run::{Streams, Terminals, answer, perform};
pub use words::{VERSION, Words, words_of};
