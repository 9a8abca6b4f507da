//! `Job`, one job that runs its kernel.
ghost use Rattle.std.specs.Prelude.{◌≡◌, ◌<◌, false, is_some, Some};
ghost use Rattle.job_end.specs.declared.answer.Answer.{Answer as TheAnswer};
ghost use Rattle.cell_core.specs.StandsFor.{task_of};
ghost use Rattle.job_run.specs.Held.{Holds, IsCalm};
ghost use Rattle.job_run.specs.Told.{IsEnding};

use crate::execution::Execution;
use crate::look::Look;
use crate::paths::Paths;
use job_end::Answer;
use std::alloc::Global;

/// One job whose kernel was started. It is told what its connections and the clock bring, once each
/// and in their order.
#[derive(Drop)]
pub struct Job {
    pub(crate) alloc: Global,
    pub(crate) number: u8,
    pub(crate) paths: Paths,
    pub(crate) ports: [u16; 5],
    pub(crate) run: Execution,
    pub(crate) look: Look,
    pub(crate) outcome: Option<Answer>,
    ghost numbered: { number < 16 },
    ghost holds: { Holds run },
    ghost calm: { is_some outcome ≡ false → IsCalm run },
    ghost end: { (a : TheAnswer) → outcome ≡ Some a →
        IsEnding paths.output (task_of run.core) a },
}
