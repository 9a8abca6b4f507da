//! The text of a cell, line by line.
ghost use Rattle.std.specs.Prelude.{◌≡◌, ◌++◌, replicate, IfOk, OnOk};
ghost use Rattle.jtext.specs.Indent.{indent_fields};
ghost use Rattle.std.specs.Str.{IsUtf8};
ghost use Rattle.nb_text.specs.Cells.{cell_text, sorted_pairs, common_pairs, prose_pairs, code_pairs, count_line, outputs_line};

use crate::lines::{new_line, put_items, put_line, put_pair, put_text_pair};
use jtext::{Bytes, Json, NoMemory, Text};
use nb_model::{Cell, Kind};
use std::alloc::Global;

/// The text that the cell has among the cells of its notebook's text: without the margin before it
/// and the comma after it.
pub fn cell_text(alloc: Global, c: &Cell) -> Result<Text, NoMemory>
    ensures { IfOk result (λ t. t ≡ cell_text c.now) }
{
    let mut out = Bytes::new(alloc);
    put_cell(alloc, &mut out, c)?;
    nb_model::laws::sound_cell(c);
    Ok(text_of(out))
}

fn text_of(bytes: Bytes) -> Text
    requires { IsUtf8 bytes }
    ensures { result ≡ bytes }
{
    Text::of_string(String::from_utf8(bytes.into_vec()).unwrap())
}

/// Appends the text that the cell has among the cells of its notebook's text.
pub(crate) fn put_cell(alloc: Global, out: &mut Bytes, cell: &Cell) -> Result<(), NoMemory>
    ensures { OnOk result (out.new ≡ out.old ++ cell_text cell.now) }
{
    out.add(b"{")?;
    put_pairs(alloc, out, cell)?;
    new_line(alloc, out, 2)?;
    out.add(b"}")?;
    Ok(())
}

/// Appends the lines of the cell's pairs, sorted by their keys.
fn put_pairs(alloc: Global, out: &mut Bytes, cell: &Cell) -> Result<(), NoMemory>
    ensures { OnOk result (out.new
        ≡ out.old ++ indent_fields (replicate 3 32) (sorted_pairs cell.now)) }
{
    match cell.kind {
        Kind::Raw => put_prose(alloc, out, "raw", cell),
        Kind::Markdown => put_prose(alloc, out, "markdown", cell),
        Kind::Code => put_code(alloc, out, cell),
    }
}

fn put_prose(alloc: Global, out: &mut Bytes, kind: &str, cell: &Cell) -> Result<(), NoMemory>
    ensures { OnOk result (out.new
        ≡ out.old ++ indent_fields (replicate 3 32) (prose_pairs kind.now cell.now)) }
{
    match &cell.attachments {
        Some(attachments) => {
            put_pair(alloc, out, 3, "attachments", attachments)?;
            out.add(b",")?;
            put_common(alloc, out, kind, cell)?;
            Ok(())
        }
        None => put_common(alloc, out, kind, cell),
    }
}

fn put_common(alloc: Global, out: &mut Bytes, kind: &str, cell: &Cell) -> Result<(), NoMemory>
    ensures { OnOk result (out.new
        ≡ out.old ++ indent_fields (replicate 3 32) (common_pairs kind.now cell.now)) }
{
    put_text_pair(alloc, out, 3, "cell_type", kind)?;
    out.add(b",")?;
    put_text_pair(alloc, out, 3, "id", cell.id.as_str())?;
    out.add(b",")?;
    put_pair(alloc, out, 3, "metadata", &cell.metadata)?;
    out.add(b",")?;
    put_pair(alloc, out, 3, "source", &cell.source)?;
    Ok(())
}

fn put_code(alloc: Global, out: &mut Bytes, cell: &Cell) -> Result<(), NoMemory>
    ensures { OnOk result (out.new
        ≡ out.old ++ indent_fields (replicate 3 32) (code_pairs cell.now)) }
{
    put_text_pair(alloc, out, 3, "cell_type", "code")?;
    out.add(b",")?;
    put_count(alloc, out, cell)?;
    out.add(b",")?;
    put_text_pair(alloc, out, 3, "id", cell.id.as_str())?;
    out.add(b",")?;
    put_pair(alloc, out, 3, "metadata", &cell.metadata)?;
    out.add(b",")?;
    put_outputs(alloc, out, cell.outputs.as_slice())?;
    out.add(b",")?;
    put_pair(alloc, out, 3, "source", &cell.source)?;
    Ok(())
}

fn put_count(alloc: Global, out: &mut Bytes, cell: &Cell) -> Result<(), NoMemory>
    ensures { OnOk result (out.new ≡ out.old ++ count_line cell.now.count) }
{
    match &cell.count {
        Some(count) => put_line(alloc, out, 3, "execution_count", count.as_str().as_bytes()),
        None => put_pair(alloc, out, 3, "execution_count", &Json::Null),
    }
}

fn put_outputs(alloc: Global, out: &mut Bytes, outputs: &[Json]) -> Result<(), NoMemory>
    ensures { OnOk result (out.new ≡ out.old ++ outputs_line outputs.now) }
{
    if outputs.is_empty() {
        return put_line(alloc, out, 3, "outputs", b"[]");
    }
    put_line(alloc, out, 3, "outputs", b"[")?;
    put_items(alloc, out, 4, outputs)?;
    new_line(alloc, out, 3)?;
    out.add(b"]")?;
    Ok(())
}
