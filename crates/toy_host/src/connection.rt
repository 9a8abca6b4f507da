//! Connection files (jupyter_client, "Connection files"), as a kernel reads them.
ghost use Rattle.std.specs.Prelude.{◌≡◌, ◌≤◌, IfOk, IfSome};
ghost use Rattle.jtext.specs.declared.json.Json as tree;
ghost use Rattle.jmsg.specs.Dictionary.{IsDictionary};
ghost use Rattle.toy_host.specs.Connection as spec;

use crate::Ports;
use jmsg::dictionary;
use jtext::{Json, NoMemory, Text, field, is_whole_text, short_number, string_at, text_at};
use std::alloc::Global;

/// What a kernel needs of a connection file.
#[derive(Debug, Drop)]
pub struct Connection {
    pub ports: Ports,
    /// The key of the signatures.
    pub key: Text,
}

/// What a connection file says. `None` where it spells no object nested at most 100 deep, or one that
/// lacks a key in its shape: five ports from 1 to 65535, the key, and the address, transport and
/// signature scheme that this kernel has. Other keys are free.
pub fn connection_in(alloc: Global, bytes: &[u8]) -> Result<Option<Connection>, NoMemory>
    ensures some { IfOk result (λ r. IfSome r (λ c. spec.IsConnection c bytes.now)) }
    ensures only { (t : tree.Json) → IsDictionary t bytes.now →
        IfOk result (λ r. r ≡ spec.connection_of t) }
{
    match dictionary(alloc, bytes)? {
        Some(t) => connection_of(alloc, &t),
        None => Ok(None),
    }
}

/// What the object says.
fn connection_of(alloc: Global, t: &Json) -> Result<Option<Connection>, NoMemory>
    ensures { IfOk result (λ c. c ≡ spec.connection_of t.now) }
{
    if !is_served(t) {
        return Ok(None);
    }
    let Some(ports) = ports_of(t) else {
        return Ok(None);
    };
    match text_at(alloc, t, "key")? {
        Some(key) => Ok(Some(Connection { ports, key })),
        None => Ok(None),
    }
}

/// Whether it asks for what this kernel serves.
fn is_served(t: &Json) -> bool
    ensures { result ≡ spec.is_served t.now }
{
    is_text_at(t, "ip", "127.0.0.1")
        && is_text_at(t, "transport", "tcp")
        && is_text_at(t, "signature_scheme", "hmac-sha256")
}

fn is_text_at(t: &Json, key: &str, text: &str) -> bool
    ensures { result ≡ spec.is_text_at t.now key.now text.now }
{
    match string_at(t, key) {
        Some(found) => found.as_str() == text,
        None => false,
    }
}

fn ports_of(t: &Json) -> Option<Ports>
    ensures { result ≡ spec.ports_of t.now }
{
    let shell = port_at(t, "shell_port");
    let control = port_at(t, "control_port");
    let iopub = port_at(t, "iopub_port");
    let heart = port_at(t, "hb_port");
    let input = port_at(t, "stdin_port");
    ports_with(shell, control, iopub, heart, input)
}

fn ports_with(
    shell: Option<u16>,
    control: Option<u16>,
    iopub: Option<u16>,
    heart: Option<u16>,
    input: Option<u16>,
) -> Option<Ports>
    ensures { result ≡ spec.ports_with shell control iopub heart input }
{
    let ports = Ports {
        shell: shell?,
        control: control?,
        iopub: iopub?,
        heart: heart?,
    };
    input?;
    Some(ports)
}

fn port_at(t: &Json, key: &str) -> Option<u16>
    ensures { result ≡ spec.port_at t.now key.now }
{
    match field(t, key) {
        Some(Json::Num(number)) => port(number.as_str()),
        _ => None,
    }
}

/// The port that the text of a number spells, from 1 to 65535.
fn port(text: &str) -> Option<u16>
    ensures { result ≡ spec.port text.now }
{
    if !is_whole_text(text.as_bytes()) || 5 < text.len() {
        return None;
    }
    as_port(short_number(text.as_bytes())?)
}

fn as_port(number: u64) -> Option<u16>
    ensures { result ≡ spec.as_port number }
{
    if 1 <= number && number <= 65_535 {
        Some(number as u16)
    } else {
        None
    }
}
