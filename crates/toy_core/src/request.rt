//! Requests, as they are read from the parts of a message.
ghost use Rattle.std.specs.Prelude.{◌≡◌, ℕ, List, IfOk, IfSome, Some, option_map};
ghost use Rattle.jmsg.specs.Decoding as decoding;
ghost use Rattle.toy_core.specs.Requests as requests;

use crate::header_tree::header_tree;
use jmsg::laws::decoded_is_signed;
use jmsg::{Decoded, Message, decode};
use jtext::{Json, NoMemory, Text, is_true_at, text_at};
use std::alloc::Global;
use world::Chan;
use zmtp_wire::Parts;

/// What a request asks for.
#[derive(Debug, Drop)]
pub(crate) enum Asked {
    /// That this code is run.
    Execute { code: Text },
    /// What the kernel is.
    Info,
    /// That the cell that is running ends.
    Interrupt,
    /// That the kernel ends; `restart` says that it will be started again.
    Shutdown { restart: bool },
}

/// A request, with the header to which it is answered.
#[derive(Debug, Drop)]
pub(crate) struct Request {
    pub(crate) parent: Json,
    pub(crate) asked: Asked,
}

/// The request that parts on a channel are. `None` where they are no signed message, or one that asks
/// for nothing that this kernel does there.
pub(crate) fn request_in(
    alloc: Global,
    key: &Text,
    chan: Chan,
    parts: &Parts,
) -> Result<Option<Request>, NoMemory>
    ensures { IfOk result (λ r. r ≡ requests.request_in key.now chan parts.now) }
{
    let Some(parent) = header_tree(alloc, parts)? else {
        return Ok(None);
    };
    let Some(asked) = asked_in(alloc, key, chan, parts)? else {
        return Ok(None);
    };
    Ok(Some(Request { parent, asked }))
}

/// What the parts ask for, where they are a signed message that asks for anything.
fn asked_in(alloc: Global, key: &Text, chan: Chan, parts: &Parts) -> Result<Option<Asked>, NoMemory>
    ensures { IfOk result (λ a. a ≡ requests.asked_by chan (decoding.decode key.now parts.now)) }
{
    match message_in(alloc, key, parts)? {
        Some(message) => {
            let asked = asked_on(alloc, chan, &message.header.msg_type, &message.content);
            drop(message);
            asked
        }
        None => Ok(None),
    }
}

/// The message that the parts are, signed under the key.
fn message_in(alloc: Global, key: &Text, parts: &Parts) -> Result<Option<Message>, NoMemory>
    ensures { IfOk result (λ m. m ≡ decoding.decode key.now parts.now) }
{
    decoded_is_signed();
    let verdict = decode(alloc, key.bytes(), parts)?;
    Ok(message_of(verdict))
}

fn message_of(verdict: Decoded) -> Option<Message>
    ensures { result ≡ decoding.message_in verdict }
{
    match verdict {
        Decoded::Good(message) => Some(message),
        _ => None,
    }
}

/// What a message of this type on a channel asks for.
fn asked_on(
    alloc: Global,
    chan: Chan,
    kind: &Text,
    content: &Json,
) -> Result<Option<Asked>, NoMemory>
    ensures { IfOk result (λ a. a ≡ requests.ask_of chan kind.now content.now) }
{
    match chan {
        Chan::Shell => asked_on_shell(alloc, kind.as_str(), content),
        Chan::Control => Ok(asked_on_control(kind.as_str(), content)),
        Chan::Iopub => Ok(None),
        Chan::Heart => Ok(None),
    }
}

fn asked_on_shell(alloc: Global, kind: &str, content: &Json) -> Result<Option<Asked>, NoMemory>
    ensures { IfOk result (λ a. a ≡ requests.asked_on_shell kind.now content.now) }
{
    match kind {
        "execute_request" => match text_at(alloc, content, "code")? {
            Some(code) => Ok(Some(Asked::Execute { code })),
            None => Ok(None),
        },
        "kernel_info_request" => Ok(Some(Asked::Info)),
        _ => Ok(None),
    }
}

fn asked_on_control(kind: &str, content: &Json) -> Option<Asked>
    ensures { result ≡ requests.asked_on_control kind.now content.now }
{
    match kind {
        "interrupt_request" => Some(Asked::Interrupt),
        "shutdown_request" => Some(Asked::Shutdown {
            restart: is_true_at(content, "restart"),
        }),
        _ => None,
    }
}
