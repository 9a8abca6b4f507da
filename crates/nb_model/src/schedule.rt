//! `Plan`, the cells that are executed, and how it is made.
ghost use Rattle.std.specs.Prelude.{◌≡◌, ◌<◌, ◌^◌, length, IfOk};
ghost use Rattle.nb_model.specs.Planned as planned;

use crate::Notebook;
use crate::source::is_planned;
use jtext::{List, NoMemory};
use std::alloc::Global;

/// The indices of the cells to execute, counted from 0 in the notebook, in increasing order.
pub type Plan = List<u32>;

/// The code cells whose source isn't blank and which aren't tagged `skip-execution`.
/// There are fewer than 2^32 cells.
pub fn plan(alloc: Global, n: &Notebook) -> Result<Plan, NoMemory>
    requires { length n.now.cells < 2 ^ 32 }
    ensures { IfOk result (λ plan. plan ≡ planned.plan n.now) }
{
    let mut plan = Plan::new(alloc);
    for (i, cell) in n.cells.as_slice().iter().enumerate() {
        if is_planned(alloc, cell)? {
            plan.push(i as u32)?;
        }
    }
    Ok(plan)
}
