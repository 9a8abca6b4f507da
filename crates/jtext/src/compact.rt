//! The compact text of a tree.
ghost use Rattle.std.specs.Prelude.{◌≡◌, ◌++◌, IfOk, OnOk};
ghost use Rattle.jtext.specs.Print.{compact, compact_items, compact_fields};

use crate::escape::put_string;
use crate::json::{Fields, Items};
use crate::{Bytes, Json, NoMemory};
use std::alloc::Global;

/// The tree with no white space, and its pairs in their order.
pub fn write_compact(alloc: Global, t: &Json) -> Result<Bytes, NoMemory>
    ensures { IfOk result (λ b. b ≡ compact t.now) }
{
    let mut out = Bytes::new(alloc);
    put_compact(&mut out, t)?;
    Ok(out)
}

/// Appends the tree with no white space, and its pairs in their order.
#[cycle(write)]
pub fn put_compact(out: &mut Bytes, t: &Json) -> Result<(), NoMemory>
    ensures { OnOk result (out.new ≡ out.old ++ compact t.now) }
{
    match t {
        Json::Null => out.add(b"null"),
        Json::Bool(true) => out.add(b"true"),
        Json::Bool(false) => out.add(b"false"),
        Json::Num(n) => out.add(n.as_str().as_bytes()),
        Json::Str(s) => put_string(out, s.as_str()),
        Json::Arr(items) => {
            out.add(b"[")?;
            write_items(out, items)?;
            out.add(b"]")
        }
        Json::Obj(fields) => {
            out.add(b"{")?;
            write_fields(out, fields)?;
            out.add(b"}")
        }
    }
}

#[cycle(write)]
fn write_items(out: &mut Bytes, items: &Items) -> Result<(), NoMemory>
    ensures { OnOk result (out.new ≡ out.old ++ compact_items items.now) }
{
    for (i, item) in items.as_slice().iter().enumerate() {
        if i > 0 {
            out.add(b",")?;
        }
        put_compact(out, item)?;
    }
    Ok(())
}

#[cycle(write)]
fn write_fields(out: &mut Bytes, fields: &Fields) -> Result<(), NoMemory>
    ensures { OnOk result (out.new ≡ out.old ++ compact_fields fields.now) }
{
    for (i, field) in fields.as_slice().iter().enumerate() {
        if i > 0 {
            out.add(b",")?;
        }
        let (key, value) = field;
        put_string(out, key.as_str())?;
        out.add(b":")?;
        put_compact(out, value)?;
    }
    Ok(())
}
