//! The jobs file that stays of a graph.
ghost use Rattle.std.specs.Prelude.{◌≡◌, IfOk, map};
ghost use Rattle.job_graph.specs.Given as spec;

use jtext::{Fields, Items, Json, NoMemory, Text};
use std::alloc::Global;

/// The tree without the names, needs and takes of its jobs.
pub(crate) fn rest_of(alloc: Global, t: Json) -> Result<Json, NoMemory>
    ensures { IfOk result (λ r. r ≡ spec.rest_of t) }
{
    let mut pairs = Fields::new(alloc);
    for pair in t.into_pairs(alloc).into_vec() {
        pairs.push(plain_pair(alloc, pair)?)?;
    }
    Ok(Json::Obj(pairs))
}

fn plain_pair(alloc: Global, pair: (Text, Json)) -> Result<(Text, Json), NoMemory>
    ensures { IfOk result (λ r. r ≡ spec.plain_pair pair) }
{
    let (key, value) = pair;
    if key.as_str() == "jobs" {
        let jobs = plain_jobs(alloc, value.into_items(alloc))?;
        Ok((key, Json::Arr(jobs)))
    } else {
        Ok((key, value))
    }
}

fn plain_jobs(alloc: Global, jobs: Items) -> Result<Items, NoMemory>
    ensures { IfOk result (λ r. r ≡ map spec.plain_job jobs) }
{
    let mut plain = Items::new(alloc);
    for job in jobs.into_vec() {
        plain.push(plain_job(alloc, job)?)?;
    }
    Ok(plain)
}

fn plain_job(alloc: Global, job: Json) -> Result<Json, NoMemory>
    ensures { IfOk result (λ r. r ≡ spec.plain_job job) }
{
    let mut pairs = Fields::new(alloc);
    for pair in job.into_pairs(alloc).into_vec() {
        if !is_of_graph(&pair) {
            pairs.push(pair)?;
        }
    }
    Ok(Json::Obj(pairs))
}

fn is_of_graph(pair: &(Text, Json)) -> bool
    ensures { result ≡ spec.is_of_graph pair.now }
{
    pair.0.as_str() == "name" || pair.0.as_str() == "needs" || pair.0.as_str() == "take"
}
