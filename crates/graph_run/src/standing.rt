//! `Standing`, how far a graph has come.
ghost use Rattle.std.specs.Prelude.{◌≡◌, ◌++◌, OnOk};
ghost use Rattle.graph_run.specs.Waves as spec;

use crate::Ended;
use job_end::Answer;
use jtext::{List, NoMemory};
use std::alloc::Global;

/// How far a graph has come.
#[derive(Drop)]
pub(crate) struct Standing {
    /// The jobs that have ended, in the order of their ends.
    pub ended: List<Ended>,
    /// How many of them were run. The numbers of later ones begin there.
    pub ran: usize,
}

impl Standing {
    /// Nothing has run.
    pub(crate) fn new(alloc: Global) -> Standing
        ensures { result ≡ spec.outset }
    {
        Standing {
            ended: List::new(alloc),
            ran: 0,
        }
    }

    /// These jobs have ended too.
    pub(crate) fn add(&mut self, ended: &[Ended]) -> Result<(), NoMemory>
        ensures ended { OnOk result (self.new.ended ≡ self.old.ended ++ ended.now) }
        ensures ran { self.new.ran ≡ self.old.ran }
    {
        for end in ended {
            self.ended.push(*end)?;
        }
        Ok(())
    }

    /// These jobs have ended so, too.
    pub(crate) fn add_answers(&mut self, jobs: &[u32], answers: &[Answer]) -> Result<(), NoMemory>
        ensures ended { OnOk result
            (self.new.ended ≡ self.old.ended ++ spec.ends_of jobs.now answers.now) }
        ensures ran { self.new.ran ≡ self.old.ran }
    {
        let mut rest = answers;
        for job in jobs {
            let Some((answer, more)) = rest.split_first() else {
                return Ok(());
            };
            self.ended.push(Ended {
                job: *job,
                status: answer.status,
            })?;
            rest = more;
        }
        Ok(())
    }
}
