//! Identifiers from random words.
ghost use Rattle.std.specs.Prelude.{◌≡◌, IfOk};
ghost use Rattle.kernel_talk.specs.Requests.{identifier};

use jtext::{NoMemory, Text};
use std::alloc::Global;
use uuid::{Builder, Uuid};

/// The text of the version 4 UUID (RFC 9562, section 5.4) of 128 random bits, the high ones first.
pub fn identifier(alloc: Global, high: u64, low: u64) -> Result<Text, NoMemory>
    ensures { IfOk result (λ text. text ≡ identifier high low) }
{
    let bits = Uuid::from_u64_pair(high, low).into_bytes();
    let id = Builder::from_random_bytes(bits).into_uuid();
    let mut buffer = [0u8; 36];
    let text = id.hyphenated().encode_lower(&mut buffer);
    Text::of(alloc, text)
}
