//! The indented text of a tree.
ghost use Rattle.std.specs.Prelude.{◌≡◌, ◌++◌, [], ℕ, List as Plain, replicate, IfOk, OnOk};
ghost use Rattle.jtext.specs.Sorting.{by_key};
ghost use Rattle.jtext.specs.Indent.{print, indent, indent_items, indent_fields};
ghost use Rattle.jtext.specs.Indent.{on_line, further};

use crate::escape::put_string;
use crate::json::{Fields, Items};
use crate::sorted::{place_of, places_by_key};
use crate::{Bytes, Json, NoMemory};
use std::alloc::Global;

/// The tree with its pairs sorted by the bytes of their keys, each item and pair on a line of its
/// own, one space a level, and a line end at the end.
pub fn write_indented(alloc: Global, t: &Json) -> Result<Bytes, NoMemory>
    ensures { IfOk result (λ b. b ≡ print t.now) }
{
    let mut out = write_indented_at(alloc, t, 0)?;
    out.add(b"\n")?;
    Ok(out)
}

/// The text that the value has within an indented text, this many levels deep: without the margin
/// before it, and without a line end after it.
pub fn write_indented_at(alloc: Global, t: &Json, level: usize) -> Result<Bytes, NoMemory>
    ensures { IfOk result (λ b. b ≡ indent t.now (replicate level 32)) }
{
    let mut text = Bytes::new(alloc);
    put_indented(alloc, &mut text, level, t)?;
    Ok(text)
}

/// Appends the text that the value has within an indented text, this many levels deep: without the
/// margin before it, and without a line end after it.
pub fn put_indented(alloc: Global, out: &mut Bytes, level: usize, t: &Json) -> Result<(), NoMemory>
    ensures { OnOk result (out.new ≡ out.old ++ indent t.now (replicate level 32)) }
{
    let mut margin = Bytes::of_vec(vec![in alloc; b' '; level]?);
    indent_value(alloc, out, &mut margin, t)
}

/// Writes the value at that margin, which is as before afterwards.
#[cycle(indent)]
fn indent_value(
    alloc: Global,
    out: &mut Bytes,
    margin: &mut Bytes,
    t: &Json,
) -> Result<(), NoMemory>
    ensures text { OnOk result (out.new ≡ out.old ++ indent t.now margin.old) }
    ensures margin { OnOk result (margin.new ≡ margin.old) }
{
    match t {
        Json::Null => out.add(b"null"),
        Json::Bool(true) => out.add(b"true"),
        Json::Bool(false) => out.add(b"false"),
        Json::Num(n) => out.add(n.as_str().as_bytes()),
        Json::Str(s) => put_string(out, s.as_str()),
        Json::Arr(items) => {
            if items.len() == 0 {
                return out.add(b"[]");
            }
            out.add(b"[")?;
            step_in(margin)?;
            indent_items(alloc, out, margin, items)?;
            step_out(margin);
            new_line(out, margin)?;
            out.add(b"]")
        }
        Json::Obj(fields) => {
            if fields.len() == 0 {
                return out.add(b"{}");
            }
            out.add(b"{")?;
            step_in(margin)?;
            indent_fields(alloc, out, margin, fields)?;
            step_out(margin);
            new_line(out, margin)?;
            out.add(b"}")
        }
    }
}

#[cycle(indent)]
fn indent_items(
    alloc: Global,
    out: &mut Bytes,
    margin: &mut Bytes,
    items: &Items,
) -> Result<(), NoMemory>
    ensures text { OnOk result (out.new ≡ out.old ++ indent_items margin.old items.now) }
    ensures margin { OnOk result (margin.new ≡ margin.old) }
{
    for (i, item) in items.as_slice().iter().enumerate() {
        if i > 0 {
            out.add(b",")?;
        }
        new_line(out, margin)?;
        indent_value(alloc, out, margin, item)?;
    }
    Ok(())
}

#[cycle(indent)]
fn indent_fields(
    alloc: Global,
    out: &mut Bytes,
    margin: &mut Bytes,
    fields: &Fields,
) -> Result<(), NoMemory>
    ensures text { OnOk result
        (out.new ≡ out.old ++ indent_fields margin.old (by_key fields.now)) }
    ensures margin { OnOk result (margin.new ≡ margin.old) }
{
    let pairs = fields.as_slice();
    let places = places_by_key(alloc, pairs)?;
    for i in 0..places.len() {
        if i > 0 {
            out.add(b",")?;
        }
        let (key, value) = &pairs[place_of(pairs, &places, i)];
        new_line(out, margin)?;
        put_string(out, key.as_str())?;
        out.add(b": ")?;
        indent_value(alloc, out, margin, value)?;
    }
    Ok(())
}

fn new_line(out: &mut Bytes, margin: &Bytes) -> Result<(), NoMemory>
    ensures { OnOk result (out.new ≡ out.old ++ on_line margin.now []) }
{
    out.add(b"\n")?;
    out.add(margin.bytes())
}

fn step_in(margin: &mut Bytes) -> Result<(), NoMemory>
    ensures { OnOk result (margin.new ≡ further margin.old) }
{
    margin.push(b' ')
}

/// Takes the last space away.
fn step_out(margin: &mut Bytes)
    ensures { (m : Plain ℕ) → margin.old ≡ further m → margin.new ≡ m }
{
    let len = margin.len();
    if len > 0 {
        margin.take(len - 1);
    }
}
