//! The values of a graph.
ghost use Rattle.std.specs.Prelude.{◌≡◌, ◌++◌, IfOk, codes};
ghost use Rattle.std.specs.Fmt.{decimal};
ghost use Rattle.job_graph.specs.Places as spec;

use crate::shape::takes_at;
use jtext::{Json, NoMemory, Text};
use std::alloc::Global;

/// A value of a graph: the whole, the list of jobs, a job by its index, or a value in one. Needs and
/// takes have indices in their job.
#[derive(Clone, Copy, Debug, Drop)]
pub(crate) enum Place {
    Whole,
    Jobs,
    Job(usize),
    Name(usize),
    Needs(usize),
    Need(usize, usize),
    Takes(usize),
    Take(usize, usize),
    TakeJob(usize, usize),
    TakeScrap(usize, usize),
}

impl Place {
    /// The JSON pointer to the value in this tree (RFC 6901).
    pub(crate) fn pointer(self, alloc: Global, t: &Json) -> Result<Text, NoMemory>
        ensures { IfOk result (λ r. r ≡ spec.pointer t.now self) }
    {
        match self {
            Place::Whole => Ok(Text::new(alloc)),
            Place::Jobs => Text::of(alloc, "/jobs"),
            Place::Job(i) => in_job(alloc, i, ""),
            Place::Name(i) => in_job(alloc, i, "/name"),
            Place::Needs(i) => in_job(alloc, i, "/needs"),
            Place::Need(i, k) => Ok(Text::of_string(format!(in alloc; "/jobs/{i}/needs/{k}")?)),
            Place::Takes(i) => in_job(alloc, i, "/take"),
            Place::Take(i, p) => in_take(alloc, i, take_name(t, i, p), ""),
            Place::TakeJob(i, p) => in_take(alloc, i, take_name(t, i, p), "/job"),
            Place::TakeScrap(i, p) => in_take(alloc, i, take_name(t, i, p), "/scrap"),
        }
    }
}

fn in_job(alloc: Global, i: usize, rest: &str) -> Result<Text, NoMemory>
    ensures { IfOk result (λ r. r ≡ spec.job_pointer i ++ rest.now) }
{
    Ok(Text::of_string(format!(in alloc; "/jobs/{i}{rest}")?))
}

fn in_take(alloc: Global, i: usize, name: &str, rest: &str) -> Result<Text, NoMemory>
    ensures { IfOk result (λ r.
        r ≡ spec.job_pointer i ++ (codes "/take/" ++ (name.now ++ rest.now))) }
{
    Ok(Text::of_string(format!(in alloc; "/jobs/{i}/take/{name}{rest}")?))
}

// The key with this index among the takes of a job.
fn take_name(t: &Json, i: usize, p: usize) -> &str
    ensures { result.now ≡ spec.take_name t.now i p }
{
    match takes_at(t, i).get(p) {
        Some(pair) => pair.0.as_str(),
        None => "",
    }
}
