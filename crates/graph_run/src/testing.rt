//! The test of a job before its wave runs.
ghost use Rattle.std.specs.Prelude.{◌≡◌, ◌<◌, Err, IfOk, ℕ, List as Plain, length};
ghost use Rattle.std.specs.List.{AllByRecursion};
ghost use Rattle.jtext.specs.Grammar.{Distinct};
ghost use Rattle.words.specs.Runnable.{IsParameter, IsRunnable};
ghost use Rattle.world.specs.Counts.{DiskCause};
ghost use Rattle.world.specs.Told.{Between};
ghost use Rattle.said_lines.specs.Between.{DiskRose};
ghost use Rattle.graph_run.specs.declared.refusal.Refusal.TheVariants as refusal;
ghost use Rattle.graph_run.specs.Tests as spec;

use crate::asks::with_params;
use crate::scrap::taken_value;
use crate::statuses::are_done;
use crate::{Ended, Refusal, Workflow};
use jtext::{Fields, copy_fields, set_pair};
use std::alloc::Global;
use words::Ask;
use world::Disk;

/// What is asked of the job, with the parameters that it takes; or why it isn't run.
pub(crate) fn test<W: Disk>(
    alloc: Global,
    w: &mut W,
    flow: &Workflow,
    ended: &[Ended],
    job: usize,
) -> Result<Ask, Refusal>
    requires { job < length flow.now.asks }
    ensures told { Between W.journal w.old w.new
        (λ before after. spec.Tests flow.now ended.now job before result after) }
    ensures runnable { AllByRecursion IsRunnable flow.now.asks → IfOk result IsRunnable }
    ensures read_fault { (path : Plain ℕ) → result ≡ Err (refusal.NotRead path) →
        DiskRose W.counts w.old w.new }
    ensures counts { DiskCause (W.counts w.old) (W.counts w.new) ⊥ }
{
    if !are_done(ended, flow.needs_of(job)) {
        return Err(Refusal::Skipped);
    }
    let ask = &flow.asks.as_slice()[job];
    match take_all(alloc, w, flow, job, ask) {
        Ok(params) => Ok(with_params(alloc, ask, params)?),
        Err(refusal) => Err(refusal),
    }
}

// The parameters of the job, each taken value in the place of the file's or last.
fn take_all<W: Disk>(
    alloc: Global,
    w: &mut W,
    flow: &Workflow,
    job: usize,
    ask: &Ask,
) -> Result<Fields, Refusal>
    ensures told { Between W.journal w.old w.new (λ before after.
        spec.TakesAll flow.now (spec.takes_of flow.now job) ask.now.params before result after) }
    ensures distinct { Distinct ask.now.params → IfOk result Distinct }
    ensures parameters { AllByRecursion IsParameter ask.now.params →
        IfOk result (AllByRecursion IsParameter) }
    ensures read_fault { (path : Plain ℕ) → result ≡ Err (refusal.NotRead path) →
        DiskRose W.counts w.old w.new }
    ensures counts { DiskCause (W.counts w.old) (W.counts w.new) ⊥ }
{
    let mut params = copy_fields(alloc, ask.params.as_slice())?;
    let takes = flow.takes_of(job);
    for take in takes {
        let value = taken_value(alloc, w, flow, take)?;
        set_pair(alloc, &mut params, take.param.as_str(), value)?;
    }
    Ok(params)
}
