//! Connection files.
ghost use Rattle.std.specs.Prelude.{◌≡◌, ◌++◌, ◌∷◌, [], IfOk, OnOk};
ghost use Rattle.std.specs.Fmt.{decimal};
ghost use Rattle.jtext.specs.Print.{compact};
ghost use Rattle.jtext.specs.declared.json.Json.TheVariants as json;
ghost use Rattle.kspec.specs.Connection.{connection};

use jtext::{Bytes, Fields, Json, NoMemory, NumText, Text, pair, put_text, write_compact};
use std::alloc::Global;

/// The text of the connection file (jupyter_client, "Connection files") with these ports of this
/// machine, for shell, iopub, stdin, control and heartbeat, and this key of the signatures.
pub fn connection_text(alloc: Global, ports: [u16; 5], key: &Text) -> Result<Bytes, NoMemory>
    ensures { IfOk result (λ text. text ≡ compact (connection ports key.now)) }
{
    write_compact(alloc, &connection(alloc, ports, key)?)
}

/// The object of a connection file.
fn connection(alloc: Global, ports: [u16; 5], key: &Text) -> Result<Json, NoMemory>
    ensures { IfOk result (λ t. t ≡ connection ports key.now) }
{
    let mut fields = Fields::new(alloc);
    put_port(alloc, &mut fields, "control_port", ports[3])?;
    put_port(alloc, &mut fields, "hb_port", ports[4])?;
    put_port(alloc, &mut fields, "iopub_port", ports[1])?;
    put_text(alloc, &mut fields, "ip", "127.0.0.1")?;
    put_text(alloc, &mut fields, "key", key.as_str())?;
    put_port(alloc, &mut fields, "shell_port", ports[0])?;
    put_text(alloc, &mut fields, "signature_scheme", "hmac-sha256")?;
    put_port(alloc, &mut fields, "stdin_port", ports[2])?;
    put_text(alloc, &mut fields, "transport", "tcp")?;
    Ok(Json::Obj(fields))
}

fn put_port(alloc: Global, fields: &mut Fields, key: &str, number: u16) -> Result<(), NoMemory>
    ensures { OnOk result (fields.new ≡ fields.old ++ (key.now, json.Num (decimal number)) ∷ []) }
{
    let digits = format!(in alloc; "{number}")?;
    let number = NumText::of_number(alloc, digits.as_str())?;
    fields.push(pair(alloc, key, Json::Num(number))?)
}
