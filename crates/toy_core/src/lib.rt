//! A small Jupyter kernel as a machine over the bytes of four connections (Jupyter messaging 5.3 over
//! ZMTP): it runs texts of the toy language. It does no IO and reads no clock: bytes and moments are
//! handed in, and bytes that are due are handed out.
#![tactic(auto)]

mod act;
mod agenda;
mod appending;
mod course;
mod header_tree;
mod kernel;
mod lane;
mod lanes;
pub mod laws;
mod machine;
mod note;
mod outbox;
mod outputs;
mod pouring;
mod reach;
mod reply;
mod request;
mod roles;
mod scribe;
mod toy;

pub use toy::Toy;
