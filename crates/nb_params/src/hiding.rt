//! Hidden sources, for a report.
ghost use Rattle.std.specs.Prelude.{◌≡◌, IfOk, map};
ghost use Rattle.nb_params.specs.Injected as injected;

use jtext::{Json, NoMemory, set_within};
use nb_model::{Cell, Cells, Kind};
use std::alloc::Global;

/// The cells with the source of each code cell hidden (`metadata.jupyter.source_hidden`).
pub(crate) fn hide_all(alloc: Global, cells: Cells) -> Result<Cells, NoMemory>
    ensures { IfOk result (λ r. r ≡ map injected.hidden_cell cells) }
{
    let mut out = Cells::new(alloc);
    for cell in cells.into_vec() {
        out.push(hide(alloc, cell)?)?;
    }
    Ok(out)
}

fn hide(alloc: Global, mut cell: Cell) -> Result<Cell, NoMemory>
    ensures { IfOk result (λ r. r ≡ injected.hidden_cell cell) }
{
    match cell.kind {
        Kind::Code => {
            cell.metadata = set_within(
                alloc,
                "jupyter",
                "source_hidden",
                Json::Bool(true),
                cell.metadata,
            )?;
            Ok(cell)
        }
        Kind::Raw | Kind::Markdown => Ok(cell),
    }
}
