//! Our side of a ZMTP connection, for each kind of socket (RFC 23, 28, 29 and 37 of the ZeroMQ
//! project): what it sends first, envelopes, subscriptions and replies to commands. It does no IO.
#![tactic(auto)]

mod envelope;
pub mod laws;
mod peer;
mod reply;
mod subscription;

pub use envelope::is_body;
pub use peer::Peer;
