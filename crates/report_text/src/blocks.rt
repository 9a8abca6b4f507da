//! A notebook as a page of HTML.
ghost use Rattle.std.specs.Prelude.{◌≡◌, ◌++◌, IfOk, OnOk, flat_map};
ghost use Rattle.nb_model.specs.Planned.{code};
ghost use Rattle.nb_model.specs.Tree.{kind_name};
ghost use Rattle.report_text.specs.Page as pages;

use crate::output::{output_class, put_multiline, put_output};
use jtext::{Bytes, Json, NoMemory};
use nb_model::{Cell, Kind, Notebook};
use std::alloc::Global;

/// What stands before the blocks.
const PAGE_START: &[u8] = b"<!DOCTYPE html>
<html><head><meta charset=\"utf-8\"><title>notebook</title></head><body>
";

/// The notebook as a page of HTML: a block for the source of each cell, and for each output of a
/// code cell. All text in it is escaped. Of data by media type it shows the plain text, or else the
/// name of one type.
pub fn page(alloc: Global, n: &Notebook) -> Result<Bytes, NoMemory>
    ensures { IfOk result (λ b. b ≡ pages.page n.now) }
{
    let mut out = Bytes::new(alloc);
    out.add(PAGE_START)?;
    put_cells(&mut out, n.cells.as_slice())?;
    out.add(b"</body></html>\n")?;
    Ok(out)
}

fn put_cells(out: &mut Bytes, cells: &[Cell]) -> Result<(), NoMemory>
    ensures { OnOk result (out.new ≡ out.old ++ flat_map pages.cell_blocks cells.now) }
{
    for cell in cells {
        put_source(out, cell)?;
        put_outputs(out, shown_outputs(cell))?;
    }
    Ok(())
}

/// Appends a block for the source of the cell.
fn put_source(out: &mut Bytes, cell: &Cell) -> Result<(), NoMemory>
    ensures { OnOk result (out.new
        ≡ out.old ++ pages.block (kind_name cell.now.kind) (code cell.now)) }
{
    put_start(out, class_of(cell.kind))?;
    put_multiline(out, &cell.source)?;
    put_end(out)?;
    Ok(())
}

/// Appends a block for each output.
fn put_outputs(out: &mut Bytes, outputs: &[Json]) -> Result<(), NoMemory>
    ensures { OnOk result (out.new ≡ out.old ++ flat_map pages.output_block outputs.now) }
{
    for output in outputs {
        put_block(out, output)?;
    }
    Ok(())
}

/// Appends a block for the output.
fn put_block(out: &mut Bytes, output: &Json) -> Result<(), NoMemory>
    ensures { OnOk result (out.new ≡ out.old ++ pages.output_block output.now) }
{
    put_start(out, output_class(output))?;
    put_output(out, output)?;
    put_end(out)?;
    Ok(())
}

/// Begins a block of that class.
fn put_start(out: &mut Bytes, class: &str) -> Result<(), NoMemory>
    ensures { OnOk result (out.new ≡ out.old ++ pages.block_start class.now) }
{
    out.add(b"<pre class=\"")?;
    out.add(class.as_bytes())?;
    out.add(b"\">")?;
    Ok(())
}

/// Ends a block.
fn put_end(out: &mut Bytes) -> Result<(), NoMemory>
    ensures { OnOk result (out.new ≡ out.old ++ pages.block_end) }
{
    out.add(b"</pre>\n")
}

fn class_of(kind: Kind) -> &'static str
    ensures { result.now ≡ kind_name kind }
{
    match kind {
        Kind::Raw => "raw",
        Kind::Markdown => "markdown",
        Kind::Code => "code",
    }
}

/// The outputs that the page shows: those of a code cell.
fn shown_outputs(cell: &Cell) -> &[Json]
    ensures { result.now ≡ pages.shown_outputs cell.now.kind cell.now.outputs }
{
    match cell.kind {
        Kind::Raw => &[],
        Kind::Markdown => &[],
        Kind::Code => cell.outputs.as_slice(),
    }
}
