//! The lines of an object or a list in indented text.
ghost use Rattle.std.specs.Prelude.{◌≡◌, ◌++◌, ◌∷◌, replicate, OnOk};
ghost use Rattle.jtext.specs.declared.json.Json.TheVariants as json;
ghost use Rattle.jtext.specs.Indent.{indent_items};
ghost use Rattle.nb_text.specs.Lines.{line_start, line, named_line};

use jtext::{Bytes, Json, NoMemory, put_indented, put_string};
use std::alloc::Global;

/// Appends the line of a pair, at so many spaces.
pub(crate) fn put_pair(
    alloc: Global,
    out: &mut Bytes,
    level: usize,
    key: &str,
    value: &Json,
) -> Result<(), NoMemory>
    ensures { OnOk result (out.new ≡ out.old ++ line (replicate level 32) (key.now, value.now)) }
{
    put_name(alloc, out, level, key)?;
    put_indented(alloc, out, level, value)?;
    Ok(())
}

/// Appends the line of a pair whose value is a string.
pub(crate) fn put_text_pair(
    alloc: Global,
    out: &mut Bytes,
    level: usize,
    key: &str,
    value: &str,
) -> Result<(), NoMemory>
    ensures { OnOk result (out.new
        ≡ out.old ++ line (replicate level 32) (key.now, json.Str value.now)) }
{
    put_name(alloc, out, level, key)?;
    put_string(out, value)?;
    Ok(())
}

/// Appends the line of a key with a value that is written so.
pub(crate) fn put_line(
    alloc: Global,
    out: &mut Bytes,
    level: usize,
    key: &str,
    value: &[u8],
) -> Result<(), NoMemory>
    ensures { OnOk result (out.new ≡ out.old ++ named_line (replicate level 32) key.now value.now) }
{
    put_name(alloc, out, level, key)?;
    out.add(value)?;
    Ok(())
}

/// Begins the line of a key.
fn put_name(alloc: Global, out: &mut Bytes, level: usize, key: &str) -> Result<(), NoMemory>
    ensures { OnOk result (out.new ≡ out.old ++ line_start (replicate level 32) key.now) }
{
    new_line(alloc, out, level)?;
    put_string(out, key)?;
    out.add(b": ")?;
    Ok(())
}

/// Appends the items of a list, each on a line of its own at so many spaces.
pub(crate) fn put_items(
    alloc: Global,
    out: &mut Bytes,
    level: usize,
    items: &[Json],
) -> Result<(), NoMemory>
    ensures { OnOk result (out.new ≡ out.old ++ indent_items (replicate level 32) items.now) }
{
    for (i, item) in items.iter().enumerate() {
        if i > 0 {
            out.add(b",")?;
        }
        new_line(alloc, out, level)?;
        put_indented(alloc, out, level, item)?;
    }
    Ok(())
}

/// Begins a line with so many spaces.
pub(crate) fn new_line(alloc: Global, out: &mut Bytes, level: usize) -> Result<(), NoMemory>
    ensures { OnOk result (out.new ≡ out.old ++ 10 ∷ replicate level 32) }
{
    let margin = vec![in alloc; b' '; level]?;
    out.add(b"\n")?;
    out.add(margin.as_slice())
}
