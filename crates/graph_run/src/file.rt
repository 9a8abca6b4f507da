//! The file of a graph.
ghost use Rattle.std.specs.Prelude.{◌≡◌, ◌⊎◌, ◌≤◌, ◌<◌, length, IfOk, IfErr, []};
ghost use Rattle.std.specs.List.{AllByRecursion};
ghost use Rattle.jtext.specs.Keyed.{Keyed};
ghost use Rattle.jtext.specs.Print.{compact};
ghost use Rattle.job_graph.specs.Waves.{AreWaves, job_count};
ghost use Rattle.job_graph.specs.Refused.{HasWaves};
ghost use Rattle.words.specs.JobsAsked.{asks_of};
ghost use Rattle.words.specs.JobsFaults as batch;
ghost use Rattle.words.specs.JobsFile.{IsJobsFile};
ghost use Rattle.words.specs.Runnable.{IsRunnable};
ghost use Rattle.words.specs.declared.usage.Usage.TheVariants as usage_fault;
ghost use Rattle.world.specs.Counts.{DiskCause};
ghost use Rattle.world.specs.Told.{Between};
ghost use Rattle.said_lines.specs.Between.{DiskRose};
ghost use Rattle.graph_run.specs.declared.end.End.TheVariants as ending;
ghost use Rattle.graph_run.specs.File as spec;

use crate::Workflow;
use crate::answer::Answer;
use crate::end::End;
use job_graph::{Graph, GraphFault, WaveFault, Waves, graph, waves};
use jtext::laws::sound;
use jtext::{NoMemory, Text, write_compact};
use std::alloc::Global;
use words::{Ask, Asks, Usage, jobs};
use world::{Disk, ReadFile};

/// The most bytes of a graph's file.
const MOST: u64 = 1_048_576;

/// What this file asks for, by one read of it; or how the graph ends that has no jobs.
pub(crate) fn workflow_in<W: Disk>(
    alloc: Global,
    file: &Text,
    common: &Ask,
    w: &mut W,
) -> Result<Workflow, Answer>
    ensures entries { Between W.journal w.old w.new
        (λ before after. spec.GivesWorkflow file.now common.now before result after) }
    ensures text { IfErr result (spec.Speaks file.now) }
    ensures runnable { IsRunnable common.now →
        IfOk result (λ f. AllByRecursion IsRunnable f.asks) }
    ensures few { IfOk result (λ f. length f.asks ≤ 16) }
    ensures sum { IfOk result (λ f. job_count f.waves ≤ 16) }
    ensures jobs { IfOk result (λ f.
        AllByRecursion (AllByRecursion (λ job. job < length f.asks)) f.waves) }
    ensures read_fault { IfErr result (λ r. r.end ≡ ending.NotRead →
        DiskRose W.counts w.old w.new) }
    ensures counts { DiskCause (W.counts w.old) (W.counts w.new) ⊥ }
{
    match w.read_file(alloc, file, MOST) {
        ReadFile::Whole(bytes) => match workflow_of(alloc, bytes.bytes(), file, common) {
            Ok(flow) => Ok(flow),
            Err(usage) => Err(refusal(alloc, file, usage)),
        },
        ReadFile::Big => Err(too_large(alloc, file)),
        ReadFile::Failed => Err(Answer::refusal(alloc, file.as_str(), End::NotRead)),
        ReadFile::NoMemory => Err(Answer::no_memory(alloc)),
    }
}

/// What a graph's file with these bytes asks for, or its first fault. `file` is its own path, which no
/// job may use, and `common` what all jobs have in common.
pub fn workflow_of(
    alloc: Global,
    bytes: &[u8],
    file: &Text,
    common: &Ask,
) -> Result<Workflow, Usage>
    ensures given { IfOk result (spec.IsWorkflowOf file.now common.now bytes.now) }
    ensures runnable { IsRunnable common.now →
        IfOk result (λ f. AllByRecursion IsRunnable f.asks) }
    ensures few { IfOk result (λ f. length f.asks ≤ 16) }
    ensures sum { IfOk result (λ f. job_count f.waves ≤ 16) }
    ensures jobs { IfOk result (λ f.
        AllByRecursion (AllByRecursion (λ job. job < length f.asks)) f.waves) }
    ensures refused { IfErr result (λ u.
        (u ≡ usage_fault.NoMemory) ⊎ spec.IsRefused file.now bytes.now u) }
{
    match graph(alloc, bytes) {
        Ok(graph) => {
            let asks = asks_of(alloc, &graph, file, common)?;
            let waves = waves_of(alloc, &graph)?;
            Ok(Workflow { graph, asks, waves })
        }
        Err(GraphFault::Bad { pointer }) => Err(Usage::BadJobs { pointer }),
        Err(GraphFault::Cycle { job }) => Err(cycle_at(alloc, job)),
        Err(GraphFault::NoMemory) => Err(Usage::NoMemory),
    }
}

// What is asked of each job of the graph.
fn asks_of(alloc: Global, graph: &Graph, file: &Text, common: &Ask) -> Result<Asks, Usage>
    requires { Keyed graph.now.rest }
    ensures file { IfOk result (λ asks. IsJobsFile file.now graph.now.rest) }
    ensures asked { IfOk result (λ asks. asks ≡ asks_of common.now graph.now.rest) }
    ensures runnable { IsRunnable common.now → IfOk result (AllByRecursion IsRunnable) }
    ensures refused { IfErr result (λ u. (u ≡ usage_fault.NoMemory)
        ⊎ batch.Refused file.now (compact graph.now.rest) u) }
{
    sound(&graph.rest);
    let rest = write_compact(alloc, &graph.rest)?;
    jobs(alloc, rest.bytes(), file, common)
}

// The waves of the jobs. Each job has one, so none needs itself.
fn waves_of(alloc: Global, graph: &Graph) -> Result<Waves, Usage>
    requires few { length graph.now.needs ≤ 16 }
    requires waves { HasWaves graph.now.needs }
    ensures waves { IfOk result (AreWaves graph.now.needs) }
    ensures sum { IfOk result (λ waves. job_count waves ≤ length graph.now.needs) }
    ensures refused { IfErr result (λ u. u ≡ usage_fault.NoMemory) }
{
    match waves(alloc, &graph.needs) {
        Ok(waves) => Ok(waves),
        Err(WaveFault::Cycle { job }) => Err(cycle_at(alloc, job)),
        Err(WaveFault::NoMemory) => Err(Usage::NoMemory),
    }
}

// The refusal of a job that needs itself.
fn cycle_at(alloc: Global, job: u32) -> Usage
    ensures { (result ≡ usage_fault.BadJobs (spec.needs_pointer job))
        ⊎ (result ≡ usage_fault.NoMemory) }
{
    match needs_pointer(alloc, job) {
        Ok(pointer) => Usage::BadJobs { pointer },
        Err(NoMemory) => Usage::NoMemory,
    }
}

fn needs_pointer(alloc: Global, job: u32) -> Result<Text, NoMemory>
    ensures { IfOk result (λ r. r ≡ spec.needs_pointer job) }
{
    Ok(Text::of_string(format!(in alloc; "/jobs/{job}/needs")?))
}

fn refusal(alloc: Global, file: &Text, usage: Usage) -> Answer
    ensures end { (result.end ≡ ending.Refused usage) ⊎ (result.end ≡ ending.NoMemory) }
    ensures memory { usage ≡ usage_fault.NoMemory → result.end ≡ ending.NoMemory }
    ensures text { spec.Speaks file.now result }
{
    match usage {
        Usage::NoMemory => Answer::no_memory(alloc),
        other => Answer::refusal(alloc, file.as_str(), End::Refused(other)),
    }
}

// A file that is too large is refused as a whole, as one that is no text of a tree.
fn too_large(alloc: Global, file: &Text) -> Answer
    ensures end { (result.end ≡ ending.Refused (usage_fault.BadJobs []))
        ⊎ (result.end ≡ ending.NoMemory) }
    ensures text { spec.Speaks file.now result }
{
    let usage = Usage::BadJobs {
        pointer: Text::new(alloc),
    };
    refusal(alloc, file, usage)
}
