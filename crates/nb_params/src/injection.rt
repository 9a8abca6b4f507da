//! Parameters injected into a notebook.
ghost use Rattle.std.specs.Prelude.{◌≡◌, IfOk, IfErr, position, false, length, ◌≤◌};
ghost use Rattle.nb_model.specs.Tags as tags;
ghost use Rattle.nb_params.specs.Injected as injected;
ghost use Rattle.nb_params.specs.Placing.{with_cell, place_after};
ghost use Rattle.nb_params.specs.Refused.{is_refused, Refuses};

use crate::InjectFault;
use crate::fresh::fresh_id;
use crate::hiding::hide_all;
use crate::language::{has_translator, language};
use crate::new_cell::parameters_cell;
use jtext::{Fields, Json, NoMemory, Text, copy_fields, set_within};
use nb_model::{Cell, Cells, Notebook, tagged};
use std::alloc::Global;

/// Injects the parameters, if there are any, and hides the sources of all code cells for a report.
/// The new cell replaces the first one tagged `injected-parameters`, else it follows the first one
/// tagged `parameters`, else it is the first; `metadata.papermill.parameters` records the values.
pub fn inject(
    alloc: Global,
    n: Notebook,
    params: &Fields,
    report: bool,
) -> Result<Notebook, InjectFault>
    ensures injected { IfOk result (λ m. m ≡ injected.injected_notebook n params.now report) }
    // Refused is exactly the notebook whose language has no translator, where there is a parameter.
    ensures taken { IfOk result (λ m. is_refused n params.now ≡ false) }
    ensures refused { IfErr result (λ e. Refuses n params.now e) }
{
    let n = parametrise(alloc, n, params)?;
    if report {
        let Notebook { metadata, cells } = n;
        let cells = hide_all(alloc, cells)?;
        Ok(Notebook { metadata, cells })
    } else {
        Ok(n)
    }
}

fn parametrise(alloc: Global, n: Notebook, params: &Fields) -> Result<Notebook, InjectFault>
    ensures parametrised { IfOk result (λ m. m ≡ injected.parametrised_notebook n params.now) }
    ensures taken { IfOk result (λ m. is_refused n params.now ≡ false) }
    ensures refused { IfErr result (λ e. Refuses n params.now e) }
{
    if params.len() == 0 {
        return Ok(n);
    }
    if !has_translator(&n) {
        let language = Text::of(alloc, language(&n))?;
        return Err(InjectFault::NoTranslator { language });
    }
    Ok(with_parameters(alloc, n, params)?)
}

fn with_parameters(alloc: Global, n: Notebook, params: &Fields) -> Result<Notebook, NoMemory>
    ensures { IfOk result (λ m. m ≡ record {
      metadata = injected.recorded_metadata params.now n.metadata;
      cells = injected.with_parameters params.now n.cells;
    }) }
{
    let Notebook { metadata, cells } = n;
    let values = copy_fields(alloc, params.as_slice())?;
    let metadata = set_within(
        alloc,
        "papermill",
        "parameters",
        Json::Obj(values),
        metadata,
    )?;
    let cells = place_parameters(alloc, cells, params)?;
    Ok(Notebook { metadata, cells })
}

fn place_parameters(alloc: Global, mut cells: Cells, params: &Fields) -> Result<Cells, NoMemory>
    ensures { IfOk result (λ r. r ≡ injected.with_parameters params.now cells) }
{
    match place_of(cells.as_slice(), "injected-parameters") {
        Some(i) => {
            cells.take(i);
            let replaced = with_cell(alloc, cells, i, params)?;
            Ok(replaced)
        }
        None => {
            let at = place_after(cells.as_slice());
            let added = with_cell(alloc, cells, at, params)?;
            Ok(added)
        }
    }
}

/// The cells with that of the parameters at this place, which isn't past the last.
fn with_cell(alloc: Global, mut cells: Cells, at: usize, params: &Fields) -> Result<Cells, NoMemory>
    requires { at ≤ length cells }
    ensures { IfOk result (λ r. r ≡ with_cell at params.now cells) }
{
    let id = fresh_id(alloc, cells.as_slice())?;
    let cell = parameters_cell(alloc, id, params)?;
    cells.insert(at, cell)?;
    Ok(cells)
}

/// The place after the first cell tagged `parameters`; the first place where there is none.
fn place_after(cells: &[Cell]) -> usize
    ensures place { result ≡ place_after cells.now }
    ensures range { result ≤ length cells.now }
{
    match place_of(cells, "parameters") {
        Some(i) => i + 1,
        None => 0,
    }
}

fn place_of(cells: &[Cell], tag: &str) -> Option<usize>
    ensures { result ≡ position (tags.is_tagged tag.now) cells.now }
{
    cells.iter().position(|cell| tagged(cell, tag))
}
