//! A notebook before it is run.
ghost use Rattle.std.specs.Prelude.{◌≡◌, map, IfOk};
ghost use Rattle.nb_model.specs.Prepared as preparation;

use crate::source::is_code;
use crate::{Cell, Cells, Notebook};
use jtext::{Items, Json, NoMemory, object, pair, set_field, set_within, text_pair};
use std::alloc::Global;

/// The notebook with the outputs and counts of code cells cleared, each cell marked as pending, and
/// no exception on record.
/// Without memory the notebook is gone.
pub fn prepare(alloc: Global, n: Notebook) -> Result<Notebook, NoMemory>
    ensures { IfOk result (λ r. r ≡ preparation.prepared_notebook n) }
{
    let Notebook { metadata, cells } = n;
    let metadata = set_within(alloc, "papermill", "exception", Json::Null, metadata)?;
    let cells = prepare_cells(alloc, cells)?;
    Ok(Notebook { metadata, cells })
}

fn prepare_cells(alloc: Global, cells: Cells) -> Result<Cells, NoMemory>
    ensures { IfOk result (λ r. r ≡ map preparation.prepared_cell cells) }
{
    let mut prepared = Cells::new(alloc);
    for c in cells.into_vec() {
        prepared.push(prepare_cell(alloc, c)?)?;
    }
    Ok(prepared)
}

fn prepare_cell(alloc: Global, c: Cell) -> Result<Cell, NoMemory>
    ensures { IfOk result (λ r. r ≡ preparation.prepared_cell c) }
{
    let Cell {
        kind,
        id,
        metadata,
        source,
        attachments,
        outputs,
        count,
    } = clear(alloc, c);
    let metadata = set_field(alloc, "papermill", pending_mark(alloc)?, metadata)?;
    Ok(Cell {
        kind,
        id,
        metadata,
        source,
        attachments,
        outputs,
        count,
    })
}

fn clear(alloc: Global, mut c: Cell) -> Cell
    ensures { result ≡ preparation.cleared_cell c }
{
    if is_code(c.kind) {
        c.outputs = Items::new(alloc);
        c.count = None;
    }
    c
}

/// The mark of a cell that waits.
fn pending_mark(alloc: Global) -> Result<Json, NoMemory>
    ensures { IfOk result (λ r. r ≡ preparation.pending_mark) }
{
    let exception = pair(alloc, "exception", Json::Null)?;
    let status = text_pair(alloc, "status", "pending")?;
    let mark = object(alloc, [exception, status])?;
    Ok(mark)
}
