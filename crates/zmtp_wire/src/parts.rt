//! Messages as lists.

use jtext::{Bytes, List};

/// The parts of a message, the bodies of its frames.
pub type Parts = List<Bytes>;

/// Messages in the order in which they ended.
pub type Messages = List<Parts>;
