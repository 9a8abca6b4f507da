//! The needs of a job.
ghost use Rattle.std.specs.Prelude.{◌≡◌, []};
ghost use Rattle.std.specs.List.{list_any};
ghost use Rattle.jtext.specs.Look.{items};
ghost use Rattle.job_graph.specs.Faults as spec;

use crate::place::Place;
use crate::shape::{has_name, is_named};
use jtext::Json;

/// The first fault of a list of needs.
pub(crate) fn needs_fault(jobs: &[Json], i: usize, job: &Json, v: &Json) -> Option<Place>
    ensures { result ≡ spec.needs_fault jobs.now i job.now v.now }
{
    if v.is_list() {
        first_need_fault(jobs, i, job, v.items())
    } else {
        Some(Place::Needs(i))
    }
}

fn first_need_fault(jobs: &[Json], i: usize, job: &Json, needs: &[Json]) -> Option<Place>
    ensures { result ≡ spec.first_need_fault jobs.now i job.now [] needs.now }
{
    for (k, need) in needs.iter().enumerate() {
        if !is_need(jobs, job, &needs[..k], need) {
            return Some(Place::Need(i, k));
        }
    }
    None
}

fn is_need(jobs: &[Json], job: &Json, before: &[Json], v: &Json) -> bool
    ensures { result ≡ spec.is_need jobs.now job.now before.now v.now }
{
    v.is_string() && has_name(jobs, v.text()) && !is_named(v.text(), job) && !is_among(before, v)
}

/// Whether one of these values has the same text.
pub(crate) fn is_among(values: &[Json], v: &Json) -> bool
    ensures { result ≡ list_any (spec.is_same v.now) values.now }
{
    values.iter().any(|other| v.text() == other.text())
}
