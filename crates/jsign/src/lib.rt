//! Signatures of Jupyter messages: HMAC-SHA256 (RFC 2104) of the four dictionary frames,
//! in hexadecimal, and the last signatures that were seen. It does no IO; `laws` says what the
//! definitions imply.
#![tactic(auto)]

mod hmac;
mod key_block;
pub mod laws;
mod seen;
mod signer;

pub use hmac::{check, sign};
pub use seen::Seen;
pub use signer::Signer;
