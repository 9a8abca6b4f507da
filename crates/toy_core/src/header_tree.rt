//! The header of a request as it came, with all its keys.
ghost use Rattle.std.specs.Prelude.{◌≡◌, IfOk, option_map};
ghost use Rattle.jmsg.specs.Decoding.{dictionary_in};
ghost use Rattle.toy_core.specs.Requests as requests;

use jmsg::{delimiter_place, dictionary};
use jtext::{Bytes, Json, NoMemory};
use std::alloc::Global;
use zmtp_wire::Parts;

/// The dictionary of the header frame, `None` where there is none.
pub(crate) fn header_tree(alloc: Global, parts: &Parts) -> Result<Option<Json>, NoMemory>
    ensures { IfOk result (λ t. t ≡ requests.header_tree parts.now) }
{
    match header_frame(parts.as_slice()) {
        Some(frame) => dictionary_in(alloc, frame),
        None => Ok(None),
    }
}

fn header_frame(parts: &[Bytes]) -> Option<&[u8]>
    ensures { option_map (λ f. f.now) result ≡ requests.header_frame parts.now }
{
    let place = delimiter_place(parts)?;
    let after = &parts[place + 1..];
    Some(after.get(1)?.bytes())
}

/// The object nested at most 100 deep that the bytes spell.
fn dictionary_in(alloc: Global, bytes: &[u8]) -> Result<Option<Json>, NoMemory>
    ensures { IfOk result (λ t. t ≡ dictionary_in bytes.now) }
{
    dictionary(alloc, bytes)
}
