//! The scraps of a notebook, cell by cell.
ghost use Rattle.std.specs.Prelude.{◌≡◌, IfOk, OnOk, flat_map};
ghost use Rattle.scrap_book.specs.Merging.{with_pairs};
ghost use Rattle.scrap_book.specs.Scraps as spec;

use crate::output::put_output;
use jtext::{Fields, Json, NoMemory};
use nb_model::{Cell, Notebook};
use std::alloc::Global;

/// The scraps of the notebook: pairs of a name and a value, copied from the outputs of its cells in
/// their order. Each name stands once, in the place of its first pair, with the value of its last.
pub fn scraps(alloc: Global, n: &Notebook) -> Result<Fields, NoMemory>
    ensures { IfOk result (λ r. r ≡ spec.scraps n.now) }
{
    let mut found = Fields::new(alloc);
    put_cells(alloc, &mut found, n.cells.as_slice())?;
    Ok(found)
}

fn put_cells(alloc: Global, found: &mut Fields, cells: &[Cell]) -> Result<(), NoMemory>
    ensures { OnOk result (found.new
        ≡ with_pairs found.old (flat_map spec.cell_scraps cells.now)) }
{
    for cell in cells {
        put_outputs(alloc, found, cell.outputs.as_slice())?;
    }
    Ok(())
}

fn put_outputs(alloc: Global, found: &mut Fields, outputs: &[Json]) -> Result<(), NoMemory>
    ensures { OnOk result (found.new
        ≡ with_pairs found.old (flat_map spec.output_scraps outputs.now)) }
{
    for output in outputs {
        put_output(alloc, found, output)?;
    }
    Ok(())
}
