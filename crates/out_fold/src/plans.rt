//! The cells that may have changed, in increasing order.
ghost use Rattle.std.specs.Prelude.{◌≡◌, ◌==◌, ◌||◌, ◌≤◌, ℕ, true, false, length, Some, IfOk, IfErr, OnOk, OnErr};
ghost use Rattle.std.specs.List.{list_all, list_any};
ghost use Rattle.out_fold.specs.Plans.{is_in, increases, lead, without, cells_before, Covers};

use crate::before::Before;
use display_index::Place;
use jtext::NoMemory;
use nb_model::Plan;
use std::alloc::Global;
use std::mem;

/// Puts the cell and those of the places among the cells, and says how the cells were. Where they
/// have those of the places, as they mostly do, nothing is copied. Without memory nothing changes.
pub(crate) fn touch(
    alloc: Global,
    plan: &mut Plan,
    cell: u32,
    places: &[Place],
) -> Result<Before, NoMemory>
    requires { increases plan.old ≡ true }
    ensures sorted { increases plan.new ≡ true }
    ensures covers { OnOk result (Covers plan.old plan.new cell places.now) }
    ensures before { IfOk result (λ b. cells_before b plan.new ≡ plan.old) }
    ensures err { OnErr result (plan.new ≡ plan.old) }
{
    if has_cells(plan.as_slice(), places) {
        touch_one(plan, cell)
    } else {
        touch_all(alloc, plan, cell, places)
    }
}

/// Makes the cells what they were.
pub(crate) fn restore(plan: &mut Plan, before: Before)
    ensures { plan.new ≡ cells_before before plan.old }
{
    match before {
        Before::Same => {}
        Before::Without(at) => take_out(plan, at),
        Before::Cells(cells) => *plan = cells,
    }
}

fn take_out(plan: &mut Plan, at: usize)
    ensures { plan.new ≡ without (Some at) plan.old }
{
    if at < plan.len() {
        plan.take(at);
    }
}

fn touch_one(plan: &mut Plan, cell: u32) -> Result<Before, NoMemory>
    requires { increases plan.old ≡ true }
    ensures sorted { increases plan.new ≡ true }
    ensures members { OnOk result ((n : ℕ) → is_in plan.new n ≡ (cell == n || is_in plan.old n)) }
    ensures before { IfOk result (λ b. cells_before b plan.new ≡ plan.old) }
    ensures err { OnErr result (plan.new ≡ plan.old) }
{
    match put_cell(plan, cell)? {
        Some(at) => Ok(Before::Without(at)),
        None => Ok(Before::Same),
    }
}

fn touch_all(
    alloc: Global,
    plan: &mut Plan,
    cell: u32,
    places: &[Place],
) -> Result<Before, NoMemory>
    requires { increases plan.old ≡ true }
    ensures sorted { increases plan.new ≡ true }
    ensures covers { OnOk result (Covers plan.old plan.new cell places.now) }
    ensures before { IfOk result (λ b. cells_before b plan.new ≡ plan.old) }
    ensures err { OnErr result (plan.new ≡ plan.old) }
{
    let cells = union(alloc, plan.as_slice(), cell, places)?;
    Ok(Before::Cells(mem::replace(plan, cells)))
}

fn has_cells(plan: &[u32], places: &[Place]) -> bool
    requires { increases plan.now ≡ true }
    ensures { result ≡ list_all (λ p. is_in plan.now p.cell) places.now }
{
    for p in places {
        if !has(plan, p.cell) {
            return false;
        }
    }
    true
}

fn has(plan: &[u32], cell: u32) -> bool
    requires { increases plan.now ≡ true }
    ensures { result ≡ is_in plan.now cell }
{
    match place_in(plan, cell) {
        Ok(_) => true,
        Err(_) => false,
    }
}

/// Where the cell is, or how many come before it where it isn't there.
fn place_in(plan: &[u32], cell: u32) -> Result<usize, usize>
    requires { increases plan.now ≡ true }
    ensures found { IfOk result (λ i. is_in plan.now cell ≡ true) }
    ensures absent { IfErr result (λ i. is_in plan.now cell ≡ false) }
    ensures lead { IfErr result (λ i. i ≡ lead plan.now cell) }
    ensures within { IfErr result (λ i. i ≤ length plan.now) }
{
    plan.binary_search(&cell)
}

/// The cells of the plan, the cell and those of the places. Places whose cells increase are merged.
fn union(alloc: Global, plan: &[u32], cell: u32, places: &[Place]) -> Result<Plan, NoMemory>
    ensures sorted { IfOk result (λ r. increases r ≡ true) }
    ensures members { IfOk result (λ r. (n : ℕ)
        → is_in r n ≡ ((cell == n || is_in plan.now n) || list_any (λ p. p.cell == n) places.now)) }
{
    let mut cells = Plan::new(alloc);
    let mut rest = plan;
    for place in places {
        rest = put_below(&mut cells, rest, place.cell)?;
        put_cell(&mut cells, place.cell)?;
    }
    put_all(&mut cells, rest)?;
    put_cell(&mut cells, cell)?;
    Ok(cells)
}

/// Puts those that come before this cell, and gives back the others.
fn put_below<'a>(cells: &mut Plan, rest: &'a [u32], cell: u32) -> Result<&'a [u32], NoMemory>
    requires { increases cells.old ≡ true }
    ensures sorted { increases cells.new ≡ true }
    ensures members { IfOk result (λ r. (n : ℕ)
        → (is_in cells.new n || is_in r.now n) ≡ (is_in cells.old n || is_in rest.now n)) }
{
    let (below, others) = rest.split_at(cells_below(rest, cell));
    put_all(cells, below)?;
    Ok(others)
}

fn put_all(cells: &mut Plan, others: &[u32]) -> Result<(), NoMemory>
    requires { increases cells.old ≡ true }
    ensures sorted { increases cells.new ≡ true }
    ensures members { OnOk result ((n : ℕ)
        → is_in cells.new n ≡ (is_in cells.old n || is_in others.now n)) }
{
    for n in others {
        put_cell(cells, *n)?;
    }
    Ok(())
}

/// Puts the cell in its place, where it isn't there yet, and says where that is.
fn put_cell(plan: &mut Plan, cell: u32) -> Result<Option<usize>, NoMemory>
    requires { increases plan.old ≡ true }
    ensures sorted { increases plan.new ≡ true }
    ensures members { OnOk result ((n : ℕ) → is_in plan.new n ≡ (cell == n || is_in plan.old n)) }
    ensures before { IfOk result (λ at. without at plan.new ≡ plan.old) }
    ensures err { OnErr result (plan.new ≡ plan.old) }
{
    match place_in(plan.as_slice(), cell) {
        Ok(_) => Ok(None),
        Err(at) => put_at(plan, at, cell),
    }
}

fn put_at(plan: &mut Plan, at: usize, cell: u32) -> Result<Option<usize>, NoMemory>
    requires sorted { increases plan.old ≡ true }
    requires absent { is_in plan.old cell ≡ false }
    requires lead { at ≡ lead plan.old cell }
    requires within { at ≤ length plan.old }
    ensures sorted { increases plan.new ≡ true }
    ensures members { OnOk result ((n : ℕ) → is_in plan.new n ≡ (cell == n || is_in plan.old n)) }
    ensures before { IfOk result (λ at. without at plan.new ≡ plan.old) }
    ensures err { OnErr result (plan.new ≡ plan.old) }
{
    plan.insert(at, cell)?;
    Ok(Some(at))
}

/// How many of the cells come before this one.
fn cells_below(plan: &[u32], cell: u32) -> usize
    ensures value { result ≡ lead plan.now cell }
    ensures within { result ≤ length plan.now }
{
    for (i, n) in plan.iter().enumerate() {
        if *n >= cell {
            return i;
        }
    }
    plan.len()
}
