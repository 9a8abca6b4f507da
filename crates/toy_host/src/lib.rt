//! A kernel over real sockets: `serve` listens on four ports of this machine and hands the bytes that
//! come to a `KernelSide`, and those that it gives to the peers. It does nothing else to them.
#![tactic(auto)]

mod connection;
mod held;
mod host;
mod host_fault;
mod lane;
mod sockets;

pub use connection::{Connection, connection_in};
pub use host::serve;
pub use host_fault::HostFault;
pub use sockets::Ports;
