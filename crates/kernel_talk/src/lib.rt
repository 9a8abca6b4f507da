//! What a job says to its kernel and what it waits for, without the connections: the session that
//! makes signed requests, the asking whether the kernel is ready, and the pings (Jupyter messaging
//! 5.3). Moments come in as values; it does no IO.
#![tactic(auto)]

mod asking;
mod identifiers;
mod pings;
mod session;

pub use asking::Asking;
pub use identifiers::identifier;
pub use pings::Pings;
pub use session::Session;
