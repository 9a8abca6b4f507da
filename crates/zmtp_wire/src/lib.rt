//! ZMTP 3.0 and 3.1 (RFC 23 and RFC 37 of the ZeroMQ project), read and written as octets. It does
//! no IO. `Decoder` reads a peer's stream in pieces, `whole` all of it at once by a plain program
//! of its own, `laws` says what the definitions imply.
#![tactic(auto)]

mod cause;
mod command;
mod decoder;
mod fault;
mod flag;
mod frame;
mod front;
mod handshake;
pub mod laws;
mod machine;
mod opening;
mod parts;
mod role;
mod state;
mod stream;
mod unit;
mod version;

pub use decoder::Decoder;
pub use fault::WireFault;
pub use frame::{is_message, parts_len, put_command, put_message};
pub use handshake::put_ready;
pub use opening::greeting;
pub use parts::{Messages, Parts};
pub use role::Role;
pub use stream::{Scan, whole};
