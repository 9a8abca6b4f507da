//! A script read back as a notebook.
ghost use Rattle.std.specs.Prelude.{◌≡◌, ℕ, IfOk, IfErr};
ghost use Rattle.report_text.specs.Rows.{rows};
ghost use Rattle.report_text.specs.Reading as readings;
ghost use Rattle.report_text.specs.Drafts as drafts;

use crate::ScriptFault;
use crate::draft::Draft;
use crate::row::split_row;
use jtext::{Fields, Json};
use nb_model::{Cells, Notebook};
use std::alloc::Global;

/// The notebook that is read of a script: its cells have the ids `cell-0`, `cell-1` and so on, and
/// neither outputs nor metadata. `Line` counts lines from 0.
pub fn unscript(alloc: Global, bytes: &[u8]) -> Result<Notebook, ScriptFault>
    ensures read { IfOk result (λ n. readings.IsReadOf bytes.now n) }
    ensures refused { IfErr result (λ f. readings.Refuses bytes.now f) }
{
    match std::str::from_utf8(bytes) {
        Ok(text) => Ok(Notebook {
            metadata: Json::Obj(Fields::new(alloc)),
            cells: read_rows(alloc, text)?,
        }),
        Err(_) => Err(ScriptFault::Line { number: 0 }),
    }
}

fn read_rows(alloc: Global, text: &str) -> Result<Cells, ScriptFault>
    ensures read { IfOk result (λ cells. drafts.AreReadOf (rows text.now) cells) }
    ensures refused { IfErr result (λ f. drafts.RefusesRows (rows text.now) f) }
{
    let mut draft = Draft::new(alloc);
    let mut rest = text;
    let mut number: u64 = 0;
    while let Some((row, after)) = split_row(rest) {
        if !draft.take(alloc, row)? {
            return Err(ScriptFault::Line { number });
        }
        rest = after;
        number += 1;
    }
    match draft.finish(alloc)? {
        Some(cells) => Ok(cells),
        None => Err(ScriptFault::Line { number }),
    }
}
