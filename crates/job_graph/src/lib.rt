//! Jobs that need each other: which job needs which and takes what from it, and in which waves they
//! can run. Bytes and numbers only; it reads no file and runs no job.
#![tactic(auto)]

mod given;
mod graph_fault;
pub mod laws;
mod layers;
mod needs;
mod place;
mod plain;
mod reading;
mod shape;
mod take;
mod takes;
mod wave_fault;
mod whole;

pub use graph_fault::GraphFault;
pub use layers::{Needs, Waves, waves};
pub use reading::graph;
pub use take::{Take, Takes};
pub use wave_fault::WaveFault;
pub use whole::Graph;
