//! What the parts of a message are.

use crate::Message;
use std::fmt::{self, Display, Formatter, Write};

/// What `decode` answers: the message, or the first test that failed, in this order.
#[derive(Debug, Drop)]
pub enum Decoded {
    /// A signed message.
    Good(Message),
    /// No part is `<IDS|MSG>`.
    NoDelimiter,
    /// Fewer than five parts follow the first delimiter.
    Short,
    /// The signature isn't that of the four dictionaries under the key.
    Unsigned,
    /// A dictionary spells no object nested at most 100 deep, or the header has no string `msg_id`
    /// or `msg_type`.
    NotJson,
}

impl Display for Decoded {
    fn fmt<W: Write>(&self, f: &mut Formatter<W>) -> fmt::Result {
        f.write_str(match self {
            Decoded::Good(_) => "a signed message",
            Decoded::NoDelimiter => "no part is <IDS|MSG>",
            Decoded::Short => "fewer than five parts follow <IDS|MSG>",
            Decoded::Unsigned => "the signature is not that of the dictionaries",
            Decoded::NotJson => "a part is no dictionary of a message",
        })
    }
}
