//! What a graph says of its jobs, and the first value that isn't as it has to be.
ghost use Rattle.std.specs.Prelude.{◌≡◌, take};
ghost use Rattle.jtext.specs.Find.{fields};
ghost use Rattle.std.specs.List.{list_any, list_all};
ghost use Rattle.jtext.specs.Look as look;
ghost use Rattle.job_graph.specs.Faults as spec;
ghost use Rattle.job_graph.specs.Shape as shape;

use crate::needs::needs_fault;
use crate::place::Place;
use crate::takes::takes_fault;
use jtext::{Json, Text, field, string_at};

/// The jobs of a graph.
pub(crate) fn jobs_of(t: &Json) -> &[Json]
    ensures { result.now ≡ shape.jobs_of t.now }
{
    match field(t, "jobs") {
        Some(list) => list.items(),
        None => &[],
    }
}

/// What a job takes from others: parameters, with what they are taken from.
pub(crate) fn takes_of(job: &Json) -> &[(Text, Json)]
    ensures { result.now ≡ shape.takes_of job.now }
{
    match field(job, "take") {
        Some(takes) => takes.pairs(),
        None => &[],
    }
}

/// What the job with this index takes.
pub(crate) fn takes_at(t: &Json, i: usize) -> &[(Text, Json)]
    ensures { result.now ≡ shape.takes_at t.now i }
{
    match jobs_of(t).get(i) {
        Some(job) => takes_of(job),
        None => &[],
    }
}

/// What a job says that it needs.
pub(crate) fn needs_of(job: &Json) -> &[Json]
    ensures { result.now ≡ shape.needs_of job.now }
{
    match field(job, "needs") {
        Some(list) => list.items(),
        None => &[],
    }
}

/// Whether the job has this name.
pub(crate) fn is_named(name: &str, job: &Json) -> bool
    ensures { result ≡ shape.is_named name.now job.now }
{
    match string_at(job, "name") {
        Some(text) => name == text.as_str(),
        None => false,
    }
}

/// Whether one of these jobs has this name.
pub(crate) fn has_name(jobs: &[Json], name: &str) -> bool
    ensures { result ≡ list_any (shape.is_named name.now) jobs.now }
{
    jobs.iter().any(|job| is_named(name, job))
}

/// The first value of a graph that isn't as it has to be, in the order of the file.
pub(crate) fn fault(t: &Json) -> Option<Place>
    ensures { result ≡ spec.fault t.now }
{
    if !t.is_object() {
        return Some(Place::Whole);
    }
    match field(t, "jobs") {
        Some(list) => list_fault(list),
        None => Some(Place::Whole),
    }
}

fn list_fault(list: &Json) -> Option<Place>
    ensures { result ≡ spec.list_fault list.now }
{
    if are_objects(list) {
        first_job_fault(list.items())
    } else {
        Some(Place::Jobs)
    }
}

fn are_objects(list: &Json) -> bool
    ensures { result ≡ spec.are_objects list.now }
{
    list.is_list()
        && 1 <= list.items().len()
        && list.items().len() <= 16
        && all_objects(list.items())
}

fn all_objects(items: &[Json]) -> bool
    ensures { result ≡ list_all look.is_object items.now }
{
    items.iter().all(|item| item.is_object())
}

fn first_job_fault(jobs: &[Json]) -> Option<Place>
    ensures { result ≡ spec.first_job_fault jobs.now 0 jobs.now }
{
    for (i, job) in jobs.iter().enumerate() {
        if let Some(place) = job_fault(jobs, i, job) {
            return Some(place);
        }
    }
    None
}

fn job_fault(jobs: &[Json], i: usize, job: &Json) -> Option<Place>
    ensures { result ≡ spec.job_fault jobs.now i job.now }
{
    if field(job, "name").is_some() {
        first_value_fault(jobs, i, job)
    } else {
        Some(Place::Job(i))
    }
}

fn first_value_fault(jobs: &[Json], i: usize, job: &Json) -> Option<Place>
    ensures { result ≡ spec.first_value_fault jobs.now i job.now (fields job.now) }
{
    for pair in job.pairs() {
        if let Some(place) = value_fault(jobs, i, job, pair) {
            return Some(place);
        }
    }
    None
}

fn value_fault(jobs: &[Json], i: usize, job: &Json, pair: &(Text, Json)) -> Option<Place>
    ensures { result ≡ spec.value_fault jobs.now i job.now pair.now }
{
    match pair.0.as_str() {
        "name" => name_fault(jobs, i, &pair.1),
        "needs" => needs_fault(jobs, i, job, &pair.1),
        "take" => takes_fault(i, job, &pair.1),
        _ => None,
    }
}

fn name_fault(jobs: &[Json], i: usize, v: &Json) -> Option<Place>
    ensures { result ≡ spec.name_fault jobs.now i v.now }
{
    if is_full(v) && !has_name(before(jobs, i), v.text()) {
        None
    } else {
        Some(Place::Name(i))
    }
}

fn is_full(v: &Json) -> bool
    ensures { result ≡ spec.is_full v.now }
{
    v.is_string() && 1 <= v.text().len()
}

// The jobs before that one.
fn before(jobs: &[Json], i: usize) -> &[Json]
    ensures { result.now ≡ take i jobs.now }
{
    match jobs.get(..i) {
        Some(front) => front,
        None => jobs,
    }
}
