//! A message.

use crate::Header;
use jtext::{Json, Text};
use zmtp_wire::Parts;

/// A Jupyter message. Its dictionaries are objects; a received one's are nested at most 100 deep.
#[derive(Debug, Drop)]
pub struct Message {
    /// What the message says of itself.
    pub header: Header,
    /// The `msg_id` of the parent header, where that is a string: the request to which this
    /// belongs.
    pub parent_id: Option<Text>,
    /// The header of the request, empty where there is none.
    pub parent: Json,
    /// What isn't content.
    pub metadata: Json,
    /// What the message is for, by its `msg_type`.
    pub content: Json,
    /// Raw bytes that follow the dictionaries; no signature covers them.
    pub buffers: Parts,
}
