//! From what a job asks and its notebook to a kernel's program that was started (jupyter_client,
//! "Kernel specs" and "Connection files"): the kernel is found by its name, its connection file is
//! written, its program started. It calls the disk, the children and the random source that it is
//! lent.
#![tactic(auto)]

mod connection_fault;
mod connection_file;
mod kernel;
mod kernel_fault;
mod launch_fault;
mod launch_path;
mod random_words;
mod spec_place;

pub use connection_fault::ConnectionFault;
pub use connection_file::{connection_path, write_connection};
pub use kernel::Kernel;
pub use kernel_fault::KernelFault;
pub use launch_fault::LaunchFault;
pub use random_words::{RandomPairs, random_pairs};
