//! Parameters as Python source.
ghost use Rattle.std.specs.Prelude.{◌≡◌, ◌++◌, ◌∷◌, OnOk, IfOk, map, string_bytes, flat_map};
ghost use Rattle.nb_params.specs.Python as sources;
ghost use Rattle.nb_params.specs.Pairs.{pairs_source};

use crate::literal::put_literal;
use jtext::{Fields, Items, Json, NoMemory, Text};
use std::alloc::Global;

/// The parameters as source, in the form of Papermill's Python translator: a comment, then an
/// assignment a line.
pub fn python(alloc: Global, params: &Fields) -> Result<Text, NoMemory>
    ensures { IfOk result (λ t. t ≡ sources.python params.now) }
{
    let mut out = String::from_str(alloc, "# Parameters\n")?;
    for param in params.as_slice() {
        put_assignment(&mut out, param)?;
    }
    Ok(Text::of_string(out))
}

fn put_assignment(out: &mut String, param: &(Text, Json)) -> Result<(), NoMemory>
    ensures { OnOk result (string_bytes out.new
        ≡ string_bytes out.old ++ sources.assignment param.now) }
{
    let (name, value) = param;
    out.push_str(name.as_str())?;
    out.push_str(" = ")?;
    put_value(out, value)?;
    out.push_str("\n")?;
    Ok(())
}

#[cycle(put)]
fn put_value(out: &mut String, t: &Json) -> Result<(), NoMemory>
    ensures { OnOk result (string_bytes out.new
        ≡ string_bytes out.old ++ sources.value_source t.now) }
{
    match t {
        Json::Null => out.push_str("None")?,
        Json::Bool(true) => out.push_str("True")?,
        Json::Bool(false) => out.push_str("False")?,
        Json::Num(n) => out.push_str(n.as_str())?,
        Json::Str(s) => put_literal(out, s.as_str())?,
        Json::Arr(items) => {
            out.push_str("[")?;
            put_items(out, items)?;
            out.push_str("]")?;
        }
        Json::Obj(fields) => {
            out.push_str("{")?;
            put_pairs(out, fields)?;
            out.push_str("}")?;
        }
    }
    Ok(())
}

#[cycle(put)]
fn put_items(out: &mut String, items: &Items) -> Result<(), NoMemory>
    ensures { OnOk result (string_bytes out.new
        ≡ string_bytes out.old ++ sources.listed_source (map sources.value_source items.now)) }
{
    for (i, item) in items.as_slice().iter().enumerate() {
        if i > 0 {
            out.push_str(", ")?;
        }
        put_value(out, item)?;
    }
    Ok(())
}

#[cycle(put)]
fn put_pairs(out: &mut String, fields: &Fields) -> Result<(), NoMemory>
    ensures { OnOk result (string_bytes out.new ≡ string_bytes out.old ++ pairs_source fields.now) }
{
    for (i, field) in fields.as_slice().iter().enumerate() {
        if i > 0 {
            out.push_str(", ")?;
        }
        let (key, value) = field;
        put_literal(out, key.as_str())?;
        out.push_str(": ")?;
        put_value(out, value)?;
    }
    Ok(())
}
