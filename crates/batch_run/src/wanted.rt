//! `Wanted`, the connections that a job wants.

use job_run::Job;

/// The connections that a job wants.
#[derive(Clone, Copy, Debug, Drop, PartialEq, Eq)]
pub(crate) struct Wanted {
    /// The ports for shell, iopub, stdin, control and heartbeat.
    pub ports: [u16; 5],
    /// Whether the heartbeat is wanted.
    pub heart: bool,
}

impl Wanted {
    ghost use Rattle.std.specs.Prelude.{◌≡◌};
    ghost use Rattle.job_run.specs.Task.{ports_of_job, pings_kernel};

    /// Those of this job.
    pub(crate) fn of(job: &Job) -> Wanted
        ensures ports { result.ports ≡ ports_of_job job.now }
        ensures heart { result.heart ≡ pings_kernel job.now }
    {
        Wanted {
            ports: job.ports(),
            heart: job.has_heartbeat(),
        }
    }
}
