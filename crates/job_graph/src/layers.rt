//! The waves in which jobs that need each other can run.
ghost use Rattle.std.specs.Prelude.{◌≡◌, ◌<◌, ◌≤◌, ◌^◌, ◌≢◌, ℕ, Some, IfOk, IfErr, length, All};
ghost use Rattle.std.specs.List.{AllByRecursion, list_all};
ghost use Rattle.job_graph.specs.Layers as layers;
ghost use Rattle.job_graph.specs.Waves as spec;
ghost use Rattle.job_graph.specs.declared.wave_fault.WaveFault.TheVariants as fault;

use crate::WaveFault;
use jtext::{List, NoMemory};
use std::alloc::Global;

/// For each job, from 0, the indices of the jobs that it needs.
pub type Needs = List<List<u32>>;

/// For each wave, from 0, the indices of its jobs in their order.
pub type Waves = List<List<u32>>;

/// The fewest waves in which each job comes after all that it needs: a job's wave is 0 where it needs
/// nothing, and else one more than the greatest wave of those that it needs.
pub fn waves(alloc: Global, needs: &Needs) -> Result<Waves, WaveFault>
    requires few { length needs.now < 2 ^ 32 }
    ensures waves { IfOk result (spec.AreWaves needs.now) }
    // They have no more jobs than there are: each stands once.
    ensures few { IfOk result (λ waves. spec.job_count waves ≤ length needs.now) }
    ensures cycle { IfErr result (λ f. (job : ℕ) → f ≡ fault.Cycle job →
        spec.IsFirstInCycle needs.now job) }
{
    let mut waves = Waves::new(alloc);
    let mut placed = none_placed(alloc, needs.as_slice())?;
    while !are_all(placed.as_slice()) {
        let next = place_more(alloc, needs.as_slice(), placed.as_slice())?;
        let wave = placed_anew(alloc, placed.as_slice(), next.as_slice())?;
        if wave.is_empty() {
            return Err(cycle(placed.as_slice()));
        }
        waves.push(wave)?;
        placed = next;
    }
    Ok(waves)
}

// No job is placed in a wave.
fn none_placed(alloc: Global, needs: &[List<u32>]) -> Result<List<bool>, NoMemory>
    ensures { IfOk result (λ r. r ≡ layers.none_placed needs.now) }
{
    let mut placed = List::new(alloc);
    for _list in needs {
        placed.push(false)?;
    }
    Ok(placed)
}

// The jobs of which all needs are placed.
fn place_more(alloc: Global, needs: &[List<u32>], placed: &[bool]) -> Result<List<bool>, NoMemory>
    ensures { IfOk result (λ r. r ≡ layers.place_more needs.now placed.now) }
{
    let mut next = List::new(alloc);
    for list in needs {
        next.push(are_placed(list.as_slice(), placed))?;
    }
    Ok(next)
}

fn are_placed(list: &[u32], placed: &[bool]) -> bool
    ensures { result ≡ list_all (layers.is_placed placed.now) list.now }
{
    list.iter().all(|job| is_placed(placed, *job))
}

fn is_placed(placed: &[bool], job: u32) -> bool
    ensures { result ≡ layers.is_placed placed.now job }
{
    match placed.get(job as usize) {
        Some(is_placed) => *is_placed,
        None => false,
    }
}

// The jobs that are placed now and weren't before.
fn placed_anew(alloc: Global, placed: &[bool], next: &[bool]) -> Result<List<u32>, NoMemory>
    requires { length next.now < 2 ^ 32 }
    ensures { IfOk result (λ r. r ≡ layers.placed_anew 0 placed.now next.now) }
{
    let mut wave = List::new(alloc);
    for (job, is_next) in next.iter().enumerate() {
        if *is_next && !is_placed(placed, job as u32) {
            wave.push(job as u32)?;
        }
    }
    Ok(wave)
}

fn are_all(placed: &[bool]) -> bool
    ensures { result ≡ list_all (λ b. b) placed.now }
{
    placed.iter().all(|is_placed| *is_placed)
}

// The fault that names the first job that isn't placed.
fn cycle(placed: &[bool]) -> WaveFault
    requires few { length placed.now < 2 ^ 32 }
    ensures { result ≡ fault.Cycle (layers.first_unplaced 0 placed.now) }
{
    for (job, is_placed) in placed.iter().enumerate() {
        if !*is_placed {
            return WaveFault::Cycle { job: job as u32 };
        }
    }
    WaveFault::Cycle {
        job: placed.len() as u32,
    }
}
