//! The text of a notebook, and from the texts of its cells.
ghost use Rattle.std.specs.Prelude.{◌≡◌, ◌++◌, ◌∷◌, [], map, IfOk, OnOk};
ghost use Rattle.nb_text.specs.Cells.{cell_text};
ghost use Rattle.nb_text.specs.Notebooks as notebooks;

use crate::cell_lines::put_cell;
use crate::lines::{new_line, put_line, put_pair};
use jtext::{Bytes, Json, NoMemory, Text, Texts};
use nb_model::{Cell, Notebook};
use std::alloc::Global;

/// The indented text of the notebook's tree (nbformat 4.5), which is what is saved. The tree isn't
/// built.
pub fn text(alloc: Global, n: &Notebook) -> Result<Bytes, NoMemory>
    ensures { IfOk result (λ b. b ≡ notebooks.text_of n.now) }
{
    text_with_capacity(alloc, n, 0)
}

/// The same text in a buffer with room for `capacity` bytes from the start. Who knows roughly how
/// long the text gets spares it growing; the text may be shorter or longer.
pub fn text_with_capacity(alloc: Global, n: &Notebook, capacity: usize) -> Result<Bytes, NoMemory>
    ensures { IfOk result (λ b. b ≡ notebooks.text_of n.now) }
{
    let mut out = Bytes::of_vec(Vec::with_capacity(alloc, capacity)?);
    out.add(b"{")?;
    put_cells(alloc, &mut out, n.cells.as_slice())?;
    put_rest(alloc, &mut out, &n.metadata)?;
    Ok(out)
}

/// The notebook's text from the texts of its cells, which aren't written again: where text `i` is
/// `cell_text` of cell `i`, and there are no more, it is what `text` gives.
pub fn join(alloc: Global, n: &Notebook, texts: &Texts) -> Result<Bytes, NoMemory>
    ensures joined { IfOk result (λ b. b ≡ notebooks.notebook_text n.now.metadata texts.now) }
    ensures text { IfOk result (λ b. texts.now ≡ map cell_text n.now.cells
        → b ≡ notebooks.text_of n.now) }
{
    let mut out = Bytes::new(alloc);
    out.add(b"{")?;
    put_texts(alloc, &mut out, texts.as_slice())?;
    put_rest(alloc, &mut out, &n.metadata)?;
    Ok(out)
}

fn put_cells(alloc: Global, out: &mut Bytes, cells: &[Cell]) -> Result<(), NoMemory>
    ensures { OnOk result (out.new ≡ out.old ++ notebooks.cells_line (map cell_text cells.now)) }
{
    if cells.is_empty() {
        return put_line(alloc, out, 1, "cells", b"[]");
    }
    put_line(alloc, out, 1, "cells", b"[")?;
    put_each_cell(alloc, out, cells)?;
    new_line(alloc, out, 1)?;
    out.add(b"]")?;
    Ok(())
}

/// Appends the cells, each on lines of its own.
fn put_each_cell(alloc: Global, out: &mut Bytes, cells: &[Cell]) -> Result<(), NoMemory>
    ensures { OnOk result (out.new ≡ out.old ++ notebooks.cell_lines (map cell_text cells.now)) }
{
    for (i, cell) in cells.iter().enumerate() {
        if i > 0 {
            out.add(b",")?;
        }
        new_line(alloc, out, 2)?;
        put_cell(alloc, out, cell)?;
    }
    Ok(())
}

fn put_texts(alloc: Global, out: &mut Bytes, texts: &[Text]) -> Result<(), NoMemory>
    ensures { OnOk result (out.new ≡ out.old ++ notebooks.cells_line texts.now) }
{
    if texts.is_empty() {
        return put_line(alloc, out, 1, "cells", b"[]");
    }
    put_line(alloc, out, 1, "cells", b"[")?;
    put_each_text(alloc, out, texts)?;
    new_line(alloc, out, 1)?;
    out.add(b"]")?;
    Ok(())
}

/// Appends the texts of cells, each on lines of its own.
fn put_each_text(alloc: Global, out: &mut Bytes, texts: &[Text]) -> Result<(), NoMemory>
    ensures { OnOk result (out.new ≡ out.old ++ notebooks.cell_lines texts.now) }
{
    for (i, text) in texts.iter().enumerate() {
        if i > 0 {
            out.add(b",")?;
        }
        new_line(alloc, out, 2)?;
        out.add(text.bytes())?;
    }
    Ok(())
}

/// Appends what stands after the cells, up to the end.
fn put_rest(alloc: Global, out: &mut Bytes, metadata: &Json) -> Result<(), NoMemory>
    ensures { OnOk result (out.new ≡ out.old ++ notebooks.rest_text metadata.now) }
{
    out.add(b",")?;
    put_pair(alloc, out, 1, "metadata", metadata)?;
    out.add(b",")?;
    put_line(alloc, out, 1, "nbformat", b"4")?;
    out.add(b",")?;
    put_line(alloc, out, 1, "nbformat_minor", b"5")?;
    out.add(b"\n}\n")?;
    Ok(())
}
