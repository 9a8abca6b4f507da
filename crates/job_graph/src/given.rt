//! What a graph gives: names, needs and takes.
ghost use Rattle.std.specs.Prelude.{◌≡◌, ◌≤◌, IfOk, length, map};
ghost use Rattle.jtext.specs.Find.{fields};
ghost use Rattle.job_graph.specs.Given as spec;
ghost use Rattle.job_graph.specs.Shape as shape;

use crate::shape::{is_named, jobs_of, needs_of, takes_of};
use crate::{Needs, Take, Takes};
use jtext::{Json, List, NoMemory, Text, Texts, string_at};
use std::alloc::Global;

/// The names of the jobs.
pub(crate) fn names_of(alloc: Global, t: &Json) -> Result<Texts, NoMemory>
    ensures { IfOk result (λ r. r ≡ spec.names_of t.now) }
{
    let mut names = Texts::new(alloc);
    for job in jobs_of(t) {
        names.push(Text::of(alloc, text_under(job, "name"))?)?;
    }
    Ok(names)
}

/// For each job the indices of those that it needs.
pub(crate) fn needs_of_graph(alloc: Global, t: &Json) -> Result<Needs, NoMemory>
    requires { length (shape.jobs_of t.now) ≤ 16 }
    ensures { IfOk result (λ r. r ≡ spec.needs_of_graph t.now) }
{
    let jobs = jobs_of(t);
    let mut needs = Needs::new(alloc);
    for job in jobs {
        needs.push(needed_by(alloc, jobs, job)?)?;
    }
    Ok(needs)
}

fn needed_by(alloc: Global, jobs: &[Json], job: &Json) -> Result<List<u32>, NoMemory>
    requires { length jobs.now ≤ 16 }
    ensures { IfOk result (λ r. r ≡ shape.needed_by jobs.now job.now) }
{
    let mut needed = List::new(alloc);
    for v in needs_of(job) {
        needed.push(index_of(jobs, v.text()))?;
    }
    Ok(needed)
}

/// What each job takes from others.
pub(crate) fn takes_of_graph(alloc: Global, t: &Json) -> Result<Takes, NoMemory>
    requires { length (shape.jobs_of t.now) ≤ 16 }
    ensures { IfOk result (λ r. r ≡ spec.takes_of_graph t.now) }
{
    let jobs = jobs_of(t);
    let mut takes = Takes::new(alloc);
    for job in jobs {
        takes.push(taken_by(alloc, jobs, job)?)?;
    }
    Ok(takes)
}

fn taken_by(alloc: Global, jobs: &[Json], job: &Json) -> Result<List<Take>, NoMemory>
    requires { length jobs.now ≤ 16 }
    ensures { IfOk result (λ r. r ≡ spec.taken_by jobs.now job.now) }
{
    let mut taken = List::new(alloc);
    for pair in takes_of(job) {
        taken.push(taken_from(alloc, jobs, pair)?)?;
    }
    Ok(taken)
}

fn taken_from(alloc: Global, jobs: &[Json], pair: &(Text, Json)) -> Result<Take, NoMemory>
    requires { length jobs.now ≤ 16 }
    ensures { IfOk result (λ r. r ≡ spec.taken jobs.now pair.now) }
{
    Ok(Take {
        param: pair.0.copy(alloc)?,
        job: index_of(jobs, text_under(&pair.1, "job")),
        scrap: Text::of(alloc, text_under(&pair.1, "scrap"))?,
    })
}

// The text under a key, and the empty text where there is none.
fn text_under<'a>(v: &'a Json, key: &str) -> &'a str
    ensures { result.now ≡ shape.text_under key.now v.now }
{
    match string_at(v, key) {
        Some(text) => text.as_str(),
        None => "",
    }
}

// The index of the first of these jobs that has the name, and their number where none has.
fn index_of(jobs: &[Json], name: &str) -> u32
    requires { length jobs.now ≤ 16 }
    ensures { result ≡ shape.index_of jobs.now name.now }
{
    for (i, job) in jobs.iter().enumerate() {
        if is_named(name, job) {
            return i as u32;
        }
    }
    jobs.len() as u32
}
