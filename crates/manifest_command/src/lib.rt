//! What the program `manifest_canon` does. Arguments and an input come in; a text comes out, or one line on the error, and
//! a status. Begin with `src/run.rt`: it works over any reader and writers and over the files of a runtime, and the
//! program's `main` only takes the arguments and the streams, and calls [`run::run`].
#![tactic(auto)]

mod files;
mod printing;
mod refusal;
pub mod run;
pub mod words;
