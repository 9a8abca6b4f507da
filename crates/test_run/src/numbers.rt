//! Runs whose jobs have other numbers than those from 0 on, as jobs that follow others in one world.
ghost use Rattle.std.specs.Prelude.{◌≤◌, All, IfOk};
ghost use Rattle.toy_core.specs.Toy.{latest_of};

use crate::checks::{has_status, holds};
use crate::jobs::{run_from, run_two, world_of};
use crate::toys::toy;
use jtext::NoMemory;
use samples::notebooks::{TWO, TWO_SAVED};
use std::alloc::Global;
use std::process::Abort;
use std::test::Fail;
use toy_core::Toy;
use world::Entry;
use world_mem::{Kernels, MemWorld};

// The kernels of the numbers 0 to 3. A job is well with one whose key has the words that it draws:
// the key of the last kernel has those of the first job that draws any.
fn four(alloc: Global) -> Result<Kernels<Toy>, NoMemory>
    ensures { IfOk result (All (λ toy. latest_of toy ≤ 0)) }
{
    let mut kernels = Kernels::new(alloc);
    kernels.push(toy(alloc, 90, 91)?)?;
    kernels.push(toy(alloc, 92, 93)?)?;
    kernels.push(toy(alloc, 94, 95)?)?;
    kernels.push(toy(alloc, 2, 3)?)?;
    Ok(kernels)
}

// The kernels of the numbers 0 to 2, for three jobs that draw their words one after another.
fn three(alloc: Global) -> Result<Kernels<Toy>, NoMemory>
    ensures { IfOk result (All (λ toy. latest_of toy ≤ 0)) }
{
    let mut kernels = Kernels::new(alloc);
    kernels.push(toy(alloc, 2, 3)?)?;
    kernels.push(toy(alloc, 6, 7)?)?;
    kernels.push(toy(alloc, 10, 11)?)?;
    Ok(kernels)
}

// The number of the job for which a call was made that names one.
fn number_of(entry: &Entry) -> Option<u8> {
    match entry {
        Entry::Ports { job, .. } => Some(*job),
        Entry::Started { job, .. } => Some(*job),
        Entry::Looked { job, .. } => Some(*job),
        Entry::Killed { job } => Some(*job),
        Entry::Connected { conn, .. } => Some(conn.job),
        Entry::Closed { conn } => Some(conn.job),
        Entry::Got { conn, .. } => Some(conn.job),
        Entry::Put { conn, .. } => Some(conn.job),
        _ => None,
    }
}

// How many calls were made for the job of this number.
fn calls_for(w: &MemWorld<Toy>, number: u8) -> usize {
    let mut often: usize = 0;
    if let Some(entries) = w.journal() {
        for entry in entries.iter() {
            if number_of(entry) == Some(number) {
                often = often.saturating_add(1);
            }
        }
    }
    often
}

// The port of the first connect.
fn first_port(w: &MemWorld<Toy>) -> Option<u16> {
    if let Some(entries) = w.journal() {
        for entry in entries.iter() {
            if let Entry::Connected { port, .. } = entry {
                return Some(*port);
            }
        }
    }
    None
}

// Whether a job that has the number 3 is done with the kernel, the child and the ports of that number,
// and nothing is asked for another one.
fn is_third(alloc: Global, w: &mut MemWorld<Toy>) -> Result<bool, NoMemory> {
    let answers = run_from(alloc, w, "in.ipynb out.ipynb", 3)?;
    Ok(
        answers.len() == 1
            && has_status(&answers, 0, 0)
            && holds(alloc, w, "out.ipynb", TWO_SAVED)?
            && calls_for(w, 0) == 0
            && calls_for(w, 1) == 0
            && calls_for(w, 2) == 0
            && calls_for(w, 3) > 0
            && first_port(w) == Some(1016),
    )
}

#[test]
fn a_job_has_the_first_number_of_its_run(rt: HostRuntime) -> Result<(), Fail> {
    let alloc = rt.alloc();
    let mut w = world_of(alloc, TWO, four(alloc)?, &[], &[])?;
    let is_so = is_third(alloc, &mut w);
    drop(w);
    assert!(rt; is_so?);
    Ok(())
}

// Whether a job is done that follows two others in their world, with the next number.
fn follows_two(alloc: Global, w: &mut MemWorld<Toy>) -> Result<bool, NoMemory> {
    let answers = run_two(alloc, w, "in.ipynb a.ipynb", "in.ipynb b.ipynb")?;
    let first = calls_for(w, 0);
    let second = calls_for(w, 1);
    let later = run_from(alloc, w, "in.ipynb out.ipynb", 2)?;
    Ok(
        has_status(&answers, 0, 0)
            && has_status(&answers, 1, 0)
            && has_status(&later, 0, 0)
            && holds(alloc, w, "out.ipynb", TWO_SAVED)?
            && calls_for(w, 0) == first
            && calls_for(w, 1) == second
            && calls_for(w, 2) > 0,
    )
}

#[test]
fn a_later_run_has_the_next_numbers(rt: HostRuntime) -> Result<(), Fail> {
    let alloc = rt.alloc();
    let mut w = world_of(alloc, TWO, three(alloc)?, &[], &[])?;
    let is_so = follows_two(alloc, &mut w);
    drop(w);
    assert!(rt; is_so?);
    Ok(())
}
