//! What a job takes from others.
ghost use Rattle.std.specs.Prelude.{◌≡◌};
ghost use Rattle.std.specs.List.{list_all};
ghost use Rattle.jtext.specs.Find.{fields};
ghost use Rattle.jtext.specs.Names as names;
ghost use Rattle.job_graph.specs.Faults as spec;

use crate::needs::is_among;
use crate::place::Place;
use crate::shape::needs_of;
use jtext::{Json, Text, field, is_name};

/// The first fault of what a job takes.
pub(crate) fn takes_fault(i: usize, job: &Json, v: &Json) -> Option<Place>
    ensures { result ≡ spec.takes_fault i job.now v.now }
{
    if v.is_object() && all_names(v.pairs()) {
        first_take_fault(i, job, v.pairs())
    } else {
        Some(Place::Takes(i))
    }
}

fn all_names(pairs: &[(Text, Json)]) -> bool
    ensures { result ≡ list_all (λ p. names.is_name p.0) pairs.now }
{
    pairs.iter().all(|pair| is_name(pair.0.bytes()))
}

fn first_take_fault(i: usize, job: &Json, pairs: &[(Text, Json)]) -> Option<Place>
    ensures { result ≡ spec.first_take_fault i job.now 0 pairs.now }
{
    for (p, pair) in pairs.iter().enumerate() {
        if let Some(place) = take_fault(i, job, p, &pair.1) {
            return Some(place);
        }
    }
    None
}

fn take_fault(i: usize, job: &Json, p: usize, v: &Json) -> Option<Place>
    ensures { result ≡ spec.take_fault i job.now p v.now }
{
    if has_take_keys(v) {
        first_member_fault(i, job, p, v.pairs())
    } else {
        Some(Place::Take(i, p))
    }
}

fn has_take_keys(v: &Json) -> bool
    ensures { result ≡ spec.has_take_keys v.now }
{
    v.is_object()
        && field(v, "job").is_some()
        && field(v, "scrap").is_some()
        && all_take_keys(v.pairs())
}

fn all_take_keys(pairs: &[(Text, Json)]) -> bool
    ensures { result ≡ list_all spec.is_take_key pairs.now }
{
    pairs.iter().all(is_take_key)
}

fn is_take_key(pair: &(Text, Json)) -> bool
    ensures { result ≡ spec.is_take_key pair.now }
{
    pair.0.as_str() == "job" || pair.0.as_str() == "scrap"
}

fn first_member_fault(i: usize, job: &Json, p: usize, pairs: &[(Text, Json)]) -> Option<Place>
    ensures { result ≡ spec.first_member_fault i job.now p pairs.now }
{
    for pair in pairs {
        if let Some(place) = member_fault(i, job, p, pair) {
            return Some(place);
        }
    }
    None
}

fn member_fault(i: usize, job: &Json, p: usize, pair: &(Text, Json)) -> Option<Place>
    ensures { result ≡ spec.member_fault i job.now p pair.now }
{
    if pair.0.as_str() == "job" {
        if is_needed(job, &pair.1) {
            None
        } else {
            Some(Place::TakeJob(i, p))
        }
    } else if pair.1.is_string() {
        None
    } else {
        Some(Place::TakeScrap(i, p))
    }
}

fn is_needed(job: &Json, v: &Json) -> bool
    ensures { result ≡ spec.is_needed job.now v.now }
{
    v.is_string() && is_among(needs_of(job), v)
}
