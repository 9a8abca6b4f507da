//! The jobs file.
ghost use Rattle.std.specs.Prelude.{◌≡◌, ◌⊎◌, ◌++◌, drop, map, IfOk, IfErr, Some, None};
ghost use Rattle.std.specs.List.{AllByRecursion};
ghost use Rattle.jtext.specs.Within.{IsTextWithin};
ghost use Rattle.jtext.specs.declared.json.Json as tree;
ghost use Rattle.words.specs.JobsAsked.{ask_of_job, asks_of};
ghost use Rattle.words.specs.JobsFaults.{Refused, fault};
ghost use Rattle.words.specs.JobsFile.{IsJobsFile};
ghost use Rattle.words.specs.Places.{pointer};
ghost use Rattle.words.specs.Runnable.{IsRunnable};
ghost use Rattle.words.specs.declared.usage.Usage.TheVariants as usage;

use crate::job::ask_of_job;
use crate::place::Place;
use crate::shape::{jobs_of, shape_fault};
use crate::used_path::{first_equal, paths_of};
use crate::{Ask, Asks, Usage};
use jtext::{Json, NoMemory, Text, read_within};
use std::alloc::Global;

/// The size of the largest jobs file, in bytes.
const LARGEST: usize = 1 << 20;

/// How deep a jobs file may nest.
const DEEP: u32 = 100;

/// Reads a jobs file (RFC 8259) from its bytes: what is asked of each job is what all have in
/// common, but for what the job gives. `file` is its own path, which no job may use. A refusal
/// names the first value that isn't as it has to be, by its JSON pointer (RFC 6901).
pub fn jobs(alloc: Global, bytes: &[u8], file: &Text, common: &Ask) -> Result<Asks, Usage>
    // What is asked is what a tree asks for that the bytes are a text of, and that is a jobs file.
    ensures asked { IfOk result (λ asks. (t : tree.Json) × IsTextWithin 1048576 100 bytes.now t
        × IsJobsFile file.now t × (asks ≡ asks_of common.now t)) }
    ensures runnable { IsRunnable common.now → IfOk result (AllByRecursion IsRunnable) }
    ensures refused { IfErr result (λ u. (u ≡ usage.NoMemory) ⊎ Refused file.now bytes.now u) }
{
    let Some(tree) = read_within(alloc, bytes, LARGEST, DEEP)? else {
        return Err(refusal(alloc, Place::Whole));
    };
    match fault(alloc, file, &tree)? {
        Some(place) => Err(refusal(alloc, place)),
        None => Ok(asks(alloc, common, jobs_of(&tree))?),
    }
}

fn refusal(alloc: Global, place: Place) -> Usage
    ensures { (result ≡ usage.NoMemory) ⊎ (result ≡ usage.BadJobs (pointer place)) }
{
    match place.pointer(alloc) {
        Ok(pointer) => Usage::BadJobs { pointer },
        Err(_) => Usage::NoMemory,
    }
}

/// The fault of the tree, in a jobs file with this path.
fn fault(alloc: Global, file: &Text, tree: &Json) -> Result<Option<Place>, NoMemory>
    ensures { IfOk result (λ o. o ≡ fault file.now tree.now) }
{
    match shape_fault(tree) {
        Some(place) => Ok(Some(place)),
        None => {
            let paths = paths_of(alloc, file, jobs_of(tree))?;
            Ok(first_equal(paths.as_slice()))
        }
    }
}

/// What is asked of each job, in their order.
fn asks(alloc: Global, common: &Ask, jobs: &[Json]) -> Result<Asks, NoMemory>
    ensures { IfOk result (λ r. r ≡ map (ask_of_job common.now) jobs.now) }
{
    let mut asks = Asks::new(alloc);
    for job in jobs {
        asks.push(ask_of_job(alloc, common, job)?)?;
    }
    Ok(asks)
}
