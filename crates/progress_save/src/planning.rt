//! Which cells are executed.
ghost use Rattle.std.specs.Prelude.{◌≡◌, IfOk};
ghost use Rattle.nb_model.specs.Planned as planned;

use jtext::NoMemory;
use nb_model::{Cell, Kind, code, tagged};
use std::alloc::Global;
use unicode::properties::is_white_space;

/// Whether the cell is one of its notebook's plan.
pub(crate) fn is_planned(alloc: Global, cell: &Cell) -> Result<bool, NoMemory>
    ensures { IfOk result (λ b. b ≡ planned.is_planned cell.now) }
{
    match cell.kind {
        Kind::Raw | Kind::Markdown => Ok(false),
        Kind::Code => {
            let text = code(alloc, cell)?;
            Ok(!is_blank(text.as_str()) && !tagged(cell, "skip-execution"))
        }
    }
}

fn is_blank(text: &str) -> bool
    ensures { result ≡ planned.is_blank text.now }
{
    text.chars().all(|c| is_white_space(c))
}
