//! `settle`, which makes the next prefix of a run.
ghost use Rattle.std.specs.Prelude.{◌≡◌, ◌<◌, ◌≤◌, List as Plain, length, slice_get, slice_set, Some, false, IsTrue, OnOk, OnErr};
ghost use Rattle.nb_model.specs.declared.cell.Cell as whole;
ghost use Rattle.out_fold.specs.declared.used.Used as used;
ghost use Rattle.out_fold.specs.Stands.{StandsFor, cells_of, merge_of, touched_of};
ghost use Rattle.out_fold.specs.Plans.{is_in};
ghost use Rattle.progress_save.specs.Prefix as prefixes;
ghost use Rattle.progress_save.specs.Prefix.{prefix, settled_cell, AreSettled, IsBetween, IsSettled};

use crate::cell_parts::{copy_count, put_metadata, put_run, with_dates, with_mark};
use crate::planning::is_planned;
use crate::step::Step;
use jtext::{Json, NoMemory, copy, set_within};
use nb_model::{Cells, Notebook};
use out_fold::Fold;
use std::alloc::Global;

/// Makes the notebook the prefix of a run that settles its first cells up to the step's end: those
/// of the plan get the outputs, the count and the dates that the fold has of them, all get their
/// mark, and where the run stopped at a cell, that one and the notebook are marked so. What the step
/// begins with stays as it is, but for the cells that the fold has touched. Without memory only a
/// part of this may be done.
pub fn settle(alloc: Global, n: &mut Notebook, f: &Fold, step: Step) -> Result<(), NoMemory>
    requires cells { step.to ≤ length n.old.cells }
    requires fold { step.to ≤ cells_of f.now }
    ensures settled { OnOk result ((us : Plain used.Used) → StandsFor f.now us →
        AreSettled (merge_of f.now) us (touched_of f.now) step.from step.stop n.old.cells →
        n.new ≡ prefix (merge_of f.now) us step.to step.stop n.old) }
    ensures count { length n.new.cells ≡ length n.old.cells }
    ensures refused { OnErr result ((us : Plain used.Used) → StandsFor f.now us →
        AreSettled (merge_of f.now) us (touched_of f.now) step.from step.stop n.old.cells →
        IsBetween n.old (prefix (merge_of f.now) us step.to step.stop n.old) n.new) }
{
    for i in 0..step.to {
        settle_where(alloc, &mut n.cells, f, i, step)?;
    }
    if step.stop.is_some() {
        let metadata = copy(alloc, &n.metadata)?;
        n.metadata = set_within(alloc, "papermill", "exception", Json::Bool(true), metadata)?;
    }
    Ok(())
}

/// Settles the cell at this index, unless it is settled and has not changed. Without memory nothing
/// changes.
fn settle_where(
    alloc: Global,
    cells: &mut Cells,
    f: &Fold,
    i: u32,
    step: Step,
) -> Result<(), NoMemory>
    requires cell { i < length cells.old }
    requires fold { i < cells_of f.now }
    ensures settled { OnOk result ((us : Plain used.Used) (c : whole.Cell) → StandsFor f.now us →
        slice_get cells.old i ≡ Some c →
        IsSettled (merge_of f.now) us (touched_of f.now) step.from step.stop i c →
        cells.new ≡ slice_set cells.old i (settled_cell (merge_of f.now) us step.stop i c)) }
    ensures count { length cells.new ≡ length cells.old }
    ensures refused { OnErr result (cells.new ≡ cells.old) }
{
    if stays(f, i, step) {
        return Ok(());
    }
    settle_cell(alloc, cells, f, i, step.stop)
}

/// Whether the cell at this index is settled, and neither was touched since nor has stopped the run.
fn stays(f: &Fold, i: u32, step: Step) -> bool
    ensures { IsTrue result → (i < step.from) × (is_in (touched_of f.now) i ≡ false)
        × (prefixes.stops_at step.stop i ≡ false) }
{
    i < step.from && !is_touched(f, i) && !stops_at(step.stop, i)
}

/// Whether the fold has touched this cell.
fn is_touched(f: &Fold, i: u32) -> bool
    ensures { result ≡ is_in (touched_of f.now) i }
{
    f.touched().iter().any(|cell| *cell == i)
}

/// Settles the cell at this index. Without memory nothing changes.
fn settle_cell(
    alloc: Global,
    cells: &mut Cells,
    f: &Fold,
    i: u32,
    stop: Option<u32>,
) -> Result<(), NoMemory>
    requires cell { i < length cells.old }
    requires fold { i < cells_of f.now }
    ensures settled { OnOk result ((us : Plain used.Used) (c : whole.Cell) → StandsFor f.now us →
        slice_get cells.old i ≡ Some c →
        cells.new ≡ slice_set cells.old i (settled_cell (merge_of f.now) us stop i c)) }
    ensures count { length cells.new ≡ length cells.old }
    ensures refused { OnErr result (cells.new ≡ cells.old) }
{
    let at = i as usize;
    let stopped = stops_at(stop, i);
    let cell = &cells.as_slice()[at];
    if is_planned(alloc, cell)? {
        let outputs = f.outputs(i)?;
        let count = copy_count(alloc, f.count(i))?;
        let metadata = with_dates(alloc, f.dates(i)?, &cell.metadata)?;
        let metadata = with_mark(alloc, stopped, metadata)?;
        put_run(alloc, cells, at, outputs, count, metadata);
    } else {
        let metadata = copy(alloc, &cell.metadata)?;
        let metadata = with_mark(alloc, stopped, metadata)?;
        put_metadata(alloc, cells, at, metadata);
    }
    Ok(())
}

/// Whether the run stopped at this cell.
fn stops_at(stop: Option<u32>, i: u32) -> bool
    ensures { result ≡ prefixes.stops_at stop i }
{
    match stop {
        Some(s) => s == i,
        None => false,
    }
}
