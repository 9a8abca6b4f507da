//! `of_any`, from a tree of any format from 4.0 on to the notebook that it is.
ghost use Rattle.std.specs.Prelude.{◌≡◌, None, IfOk, IfErr};
ghost use Rattle.nb_model.specs.Faults.{fault_of};
ghost use Rattle.nb_migrate.specs.Accepted.{Accepted, accepted_notebook, Refuses};
ghost use Rattle.nb_migrate.specs.Raised.{raised_tree};

use crate::raising::raise;
use jtext::Json;
use nb_model::{NbFault, Notebook, of_json};
use std::alloc::Global;

/// The notebook that a tree is. One of nbformat 4.0 to 4.4 is read by the rules of 4.5, each cell
/// with the id `cell-` and its index; the fault and its place are those of the tree so raised.
pub fn of_any(alloc: Global, t: Json) -> Result<Notebook, NbFault>
    ensures valid { IfOk result (λ _. Accepted t) }
    ensures read { IfOk result (λ n. n ≡ accepted_notebook t) }
    ensures faultless { IfOk result (λ _. fault_of (raised_tree t) ≡ None) }
    ensures refused { IfErr result (λ f. Refuses t f) }
{
    let t = raise(alloc, t)?;
    of_json(alloc, t)
}
