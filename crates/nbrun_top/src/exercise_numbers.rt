//! The numbers of a saved notebook.
ghost use Rattle.std.specs.Prelude.{◌≡◌, IfOk, None, Some, option_map};
ghost use Rattle.nbrun_top.specs.ExerciseNumbers as spec;
ghost use Rattle.nbrun_top.specs.Exercise.{ask as wanted};

use jtext::{Bytes, NoMemory};
use nb_load::{LoadFault, load};
use nb_model::{Cell, Notebook};
use std::alloc::Global;
use words::Ask;

/// How many cells and outputs the notebook in a file has: none where there is no file, or none with
/// a notebook in it.
pub(crate) fn numbers_in_file(
    alloc: Global,
    ask: &Ask,
    file: Option<&Bytes>,
) -> Result<(u64, u64), NoMemory>
    requires asked { ask.now ≡ wanted }
    ensures { IfOk result (λ r.
        spec.AreNumbers (option_map (λ bytes. bytes.now) file.entry) r.0 r.1) }
{
    match file {
        Some(bytes) => numbers_in_bytes(alloc, ask, bytes),
        None => Ok((0, 0)),
    }
}

fn numbers_in_bytes(alloc: Global, ask: &Ask, bytes: &Bytes) -> Result<(u64, u64), NoMemory>
    requires asked { ask.now ≡ wanted }
    ensures { IfOk result (λ r. spec.AreNumbers (Some bytes.now) r.0 r.1) }
{
    let bytes = Bytes::of(alloc, bytes.bytes())?;
    match load(alloc, bytes, ask) {
        Ok(notebook) => Ok(numbers(&notebook)),
        Err(LoadFault::NotJson(_)) => Ok((0, 0)),
        Err(LoadFault::NotNotebook(_)) => Ok((0, 0)),
        Err(LoadFault::NoTranslator { language: _ }) => Ok((0, 0)),
        Err(LoadFault::NoMemory) => Err(NoMemory),
    }
}

fn numbers(notebook: &Notebook) -> (u64, u64)
    ensures { result ≡ spec.numbers notebook.now }
{
    let cells = notebook.cells.as_slice();
    (cells.len() as u64, outputs(cells))
}

// How many outputs all these cells have, up to the last value of a `u64`.
fn outputs(cells: &[Cell]) -> u64
    ensures { result ≡ spec.outputs_from 0 cells.now }
{
    let mut total: u64 = 0;
    for cell in cells {
        total = total.saturating_add(cell.outputs.len() as u64);
    }
    total
}
