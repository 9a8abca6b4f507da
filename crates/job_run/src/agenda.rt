//! `Agenda`, a notebook and which of its cells are executed.
ghost use Rattle.std.specs.Prelude.{◌≡◌, ◌<◌, ◌^◌, length};
ghost use Rattle.nb_model.specs.Planned.{plan as planned_cells};

use nb_model::{Notebook, Plan};

/// A notebook as it is before its cells are executed, and the cells that are, in their order.
#[derive(Drop)]
pub struct Agenda {
    /// The notebook.
    pub notebook: Notebook,
    /// The cells that are executed.
    pub cells: Plan,
    ghost few: { length notebook.cells < 2 ^ 32 },
    ghost plan: { cells ≡ planned_cells notebook },
}
