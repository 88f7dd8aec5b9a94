//! A language server for manifests: messages of the Language Server Protocol come in by a reader, and go out by a writer. It
//! shows what `manifest_surroundings` says of texts that an editor has open, and makes their suggestions. Begin with
//! `src/server.rt`.
#![tactic(auto)]

mod answers;
mod completion;
mod definition;
mod forms;
mod frames;
mod hover;
mod keys;
mod lines;
mod message;
mod moving;
mod reports;
mod requests;
mod server;
mod session;
mod spots;
mod symbols;
mod targets;
mod uris;
mod uses;

pub use server::serve;
