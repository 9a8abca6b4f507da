//! The shape of a jobs file: the first value that isn't as it has to be.
ghost use Rattle.std.specs.Prelude.{◌≡◌, ◌&&◌, codes, is_some, length};
ghost use Rattle.std.specs.List.{list_all};
ghost use Rattle.std.specs.Str.{bytes_eq};
ghost use Rattle.words.specs.JobsFaults as spec;
ghost use Rattle.words.specs.JobsFile.{is_count, jobs_of};
ghost use Rattle.words.specs.Members.{has_key, member_of};

use crate::member::Member;
use crate::place::Place;
use jtext::{Json, Text, field};

/// The first value that isn't as it has to be, in the order of the file, whatever the paths.
pub(crate) fn shape_fault(t: &Json) -> Option<Place>
    ensures { result ≡ spec.shape_fault t.now }
{
    if !(t.is_object() && has_only_jobs(t.pairs())) {
        return Some(Place::Whole);
    }
    match field(t, "jobs") {
        Some(list) => list_fault(list),
        None => Some(Place::Whole),
    }
}

/// The jobs, and none where the tree has no list of them.
pub(crate) fn jobs_of(t: &Json) -> &[Json]
    ensures { result.now ≡ jobs_of t.now }
{
    match field(t, "jobs") {
        Some(list) => list.items(),
        None => &[],
    }
}

fn has_only_jobs(pairs: &[(Text, Json)]) -> bool
    ensures { result ≡ list_all (λ p. bytes_eq p.0 (codes "jobs")) pairs.now }
{
    pairs.iter().all(|pair| pair.0.as_str() == "jobs")
}

fn list_fault(list: &Json) -> Option<Place>
    ensures { result ≡ spec.list_fault list.now }
{
    if list.is_list() && is_count(list.items().len()) {
        first_job_fault(list.items())
    } else {
        Some(Place::Jobs)
    }
}

fn is_count(n: usize) -> bool
    ensures { result ≡ is_count n }
{
    1 <= n && n <= 16
}

fn first_job_fault(jobs: &[Json]) -> Option<Place>
    ensures { result ≡ spec.first_job_fault 0 jobs.now }
{
    for (i, job) in jobs.iter().enumerate() {
        if let Some(place) = job_fault(i, job) {
            return Some(place);
        }
    }
    None
}

fn job_fault(i: usize, job: &Json) -> Option<Place>
    ensures { result ≡ spec.job_fault i job.now }
{
    if job.is_object() && has_job_keys(job) {
        first_value_fault(i, job.pairs())
    } else {
        Some(Place::Job(i))
    }
}

fn has_job_keys(job: &Json) -> bool
    ensures { result ≡ spec.has_job_keys job.now }
{
    has_key(job, "input") && has_key(job, "output") && all_members(job.pairs())
}

fn has_key(t: &Json, key: &str) -> bool
    ensures { result ≡ has_key key.now t.now }
{
    field(t, key).is_some()
}

fn all_members(pairs: &[(Text, Json)]) -> bool
    ensures { result ≡ list_all (λ p. is_some (member_of p.0)) pairs.now }
{
    pairs
        .iter()
        .all(|pair| Member::of(pair.0.as_str()).is_some())
}

fn first_value_fault(i: usize, pairs: &[(Text, Json)]) -> Option<Place>
    ensures { result ≡ spec.first_value_fault i pairs.now }
{
    for pair in pairs {
        if let Some(place) = value_fault(i, pair) {
            return Some(place);
        }
    }
    None
}

fn value_fault(i: usize, pair: &(Text, Json)) -> Option<Place>
    ensures { result ≡ spec.value_fault i pair.now }
{
    match Member::of(pair.0.as_str()) {
        Some(member) => {
            if member.takes(&pair.1) {
                None
            } else {
                Some(Place::Value(i, member))
            }
        }
        None => None,
    }
}
