//! From the bytes of an input to the notebook that a job works on: JSON nested at most 128 deep, a
//! notebook of nbformat 4.0 to 4.5 raised to 4.5, with the parameters that are asked for.
#![tactic(auto)]

mod load_fault;
mod loading;

pub use load_fault::LoadFault;
pub use loading::load;
