//! Kernel specs (Jupyter, "Making kernels for Jupyter"): what a `kernel.json` says of how a kernel is
//! started, and the connection file that the kernel is given. It does no IO.
#![tactic(auto)]

mod arguments;
mod connection;
mod kernel_json;
pub mod laws;
mod name;
mod spec_fault;
mod start;

pub use arguments::argv;
pub use connection::connection_text;
pub use kernel_json::spec;
pub use name::good_name;
pub use spec_fault::SpecFault;
pub use start::Spec;
