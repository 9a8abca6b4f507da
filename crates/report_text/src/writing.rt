//! A notebook as a script.
ghost use Rattle.std.specs.Prelude.{◌≡◌, ◌++◌, IfOk, OnOk, map, flat_map, string_bytes};
ghost use Rattle.std.specs.Str.{IsUtf8};
ghost use Rattle.report_text.specs.Rows.{rows, ended, text_of_rows};
ghost use Rattle.report_text.specs.Script as scripts;

use crate::row::{HEAD_ROW, marker, row_front, split_row};
use jtext::{Bytes, NoMemory};
use nb_model::{Cell, Notebook, code};
use std::alloc::Global;

/// The notebook as a script in UTF-8: a first line, then for each cell an empty line, a marker that
/// names its kind, and its source. Each line of a source that isn't code follows `# `. Outputs,
/// metadata and ids are left out.
pub fn script(alloc: Global, n: &Notebook) -> Result<Bytes, NoMemory>
    ensures script { IfOk result (λ b. b ≡ scripts.script n.now) }
    ensures utf8 { IfOk result (λ b. IsUtf8 b) }
{
    let mut out = String::new(alloc);
    put_row(&mut out, "", HEAD_ROW)?;
    put_cells(alloc, &mut out, n.cells.as_slice())?;
    Ok(Bytes::of_vec(out.into_bytes()))
}

fn put_cells(alloc: Global, out: &mut String, cells: &[Cell]) -> Result<(), NoMemory>
    ensures { OnOk result (string_bytes out.new
        ≡ string_bytes out.old ++ flat_map scripts.cell_text cells.now) }
{
    for cell in cells {
        put_cell(alloc, out, cell)?;
    }
    Ok(())
}

fn put_cell(alloc: Global, out: &mut String, cell: &Cell) -> Result<(), NoMemory>
    ensures { OnOk result (string_bytes out.new
        ≡ string_bytes out.old ++ scripts.cell_text cell.now) }
{
    put_row(out, "", "")?;
    put_row(out, "", marker(cell.kind))?;
    let source = code(alloc, cell)?;
    put_rows(out, row_front(cell.kind), source.as_str())?;
    Ok(())
}

/// Appends the rows of the text, each after `front`.
fn put_rows(out: &mut String, front: &str, text: &str) -> Result<(), NoMemory>
    ensures { OnOk result (string_bytes out.new
        ≡ string_bytes out.old ++ text_of_rows (map (λ row. front.now ++ row) (rows text.now))) }
{
    let mut rest = text;
    while let Some((row, after)) = split_row(rest) {
        put_row(out, front, row)?;
        rest = after;
    }
    Ok(())
}

fn put_row(out: &mut String, front: &str, row: &str) -> Result<(), NoMemory>
    ensures { OnOk result (string_bytes out.new
        ≡ string_bytes out.old ++ ended (front.now ++ row.now)) }
{
    out.push_str(front)?;
    out.push_str(row)?;
    out.push_str("\n")?;
    Ok(())
}
