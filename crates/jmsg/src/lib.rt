//! Signed Jupyter messages (Jupyter messaging 5.3): from the parts of a ZMTP message to a message
//! whose signature holds, and back. It does no IO; `laws` says what the definitions imply.
#![tactic(auto)]

mod date;
mod decoded;
mod dictionaries;
mod encoder;
mod frames;
mod header;
pub mod laws;
mod message;
mod reader;
mod told;

pub use date::date_text;
pub use decoded::Decoded;
pub use dictionaries::dictionary;
pub use encoder::{encode, encode_under};
pub use frames::{delimiter_place, signature};
pub use header::Header;
pub use message::Message;
pub use reader::{decode, decode_under};
