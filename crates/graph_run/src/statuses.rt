//! The statuses of jobs that have ended.
ghost use Rattle.std.specs.Prelude.{◌≡◌, ◌<◌, ◌^◌};
ghost use Rattle.std.specs.List.{list_all};
ghost use Rattle.graph_run.specs.Answers.{FirstFault};
ghost use Rattle.graph_run.specs.Tests as spec;

use crate::Ended;

/// The status with which a job has ended, if it has.
pub(crate) fn status_of(job: u32, ended: &[Ended]) -> Option<u8>
    ensures { result ≡ spec.status_of job ended.now }
{
    for end in ended {
        if end.job == job {
            return Some(end.status);
        }
    }
    None
}

/// Whether each of these jobs has ended with 0.
pub(crate) fn are_done(ended: &[Ended], jobs: &[u32]) -> bool
    ensures { result ≡ list_all (spec.is_done ended.now) jobs.now }
{
    jobs.iter().all(|job| is_done(ended, *job))
}

fn is_done(ended: &[Ended], job: u32) -> bool
    ensures { result ≡ spec.is_done ended.now job }
{
    match status_of(job, ended) {
        Some(status) => status == 0,
        None => false,
    }
}

/// The status of the first of so many jobs, in the order of the file, that has ended with another
/// status than 0, and 0 where none has.
pub(crate) fn first_fault(ended: &[Ended], count: usize) -> u8
    requires { count < 2 ^ 32 }
    ensures { FirstFault ended.now count result }
{
    for job in 0..count {
        let status = status_of(job as u32, ended).unwrap_or(0);
        if status != 0 {
            return status;
        }
    }
    0
}
