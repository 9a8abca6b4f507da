//! The command.
ghost use Rattle.std.specs.Prelude.{◌≡◌, ◌⊎◌, ◌<◌, ◌≤◌, ◌+◌, ◌^◌, ℕ, List as Plain, Some, None, [], length};
ghost use Rattle.std.specs.List.{AllByRecursion};
ghost use Rattle.words.specs.Refusals.{refusal};
ghost use Rattle.job_graph.specs.Waves.{job_count};
ghost use Rattle.words.specs.Runnable.{IsRunnable};
ghost use Rattle.words.specs.declared.usage.Usage as usages;
ghost use Rattle.words.specs.declared.usage.Usage.TheVariants as usage_fault;
ghost use Rattle.world.specs.Counts.{CountsGrow, Rose};
ghost use Rattle.world.specs.Told.{Between};
ghost use Rattle.said_lines.specs.Between.{SayFailed, SayRose};
ghost use Rattle.graph_run.specs.declared.end.End.TheVariants as ending;
ghost use Rattle.graph_run.specs.Answers.{Answers};
ghost use Rattle.graph_run.specs.File.{Speaks};
ghost use Rattle.graph_run.specs.Promise.{Kept, Promise};
ghost use Rattle.graph_run.specs.Ran.{IsSaid, Ran, RanOn};
ghost use Rattle.graph_run.specs.Words.{IsAsked, batch_words, texts};

use crate::Workflow;
use crate::answer::Answer;
use crate::end::End;
use crate::file::workflow_in;
use crate::statuses::first_fault;
use crate::wave::run_waves;
use crate::words_read::read_graph_words;
use batch_run::Limits;
use jtext::{NoMemory, Text};
use said_lines::{has_risen, say};
use std::alloc::Global;
use words::{Ask, Usage};
use world::{Say, World};

/// The status where all was done and not all could be said.
const NOT_SAID: u8 = 11;

/// The status where memory was refused.
const NO_MEMORY: u8 = 12;

/// Runs the jobs of the graph that the words ask for, says how each ended, and answers the exit
/// status: the first that isn't 0, in the order of the file. The words are those after `graph`: the
/// path of the graph's file, and options as for a batch. `specs/Promise.antt` has the clauses.
pub fn graph<W: World>(alloc: Global, words: &[String], limits: &Limits, w: &mut W) -> u8
    ensures promise { Promise W.journal W.counts w.old w.new
        (texts words.now) limits.now.here limits.now.turns result }
{
    match read_graph_words(alloc, words) {
        Ok((file, common)) => run_file(alloc, &file, &common, limits, w),
        Err(usage) => refuse(alloc, usage, w),
    }
}

// Runs the jobs of this file.
fn run_file<W: World>(alloc: Global, file: &Text, common: &Ask, limits: &Limits, w: &mut W) -> u8
    requires { IsRunnable common.now }
    ensures ran { (words : Plain (Plain ℕ)) → IsAsked words file.now common.now →
        Between W.journal w.old w.new (λ before after. Ran words limits.now.here limits.now.turns
        (SayRose W.counts w.old w.new) (SayFailed W.counts w.new)
        (W.counts w.old) (W.counts w.new) before result after) }
    ensures kept { Kept W.counts w.old w.new limits.now.turns result }
{
    match workflow_in(alloc, file, common, w) {
        Ok(flow) => run_flow(alloc, &flow, limits, w),
        Err(answer) => {
            say(w, answer.line());
            answer.end.code()
        }
    }
}

// Runs these jobs. Their lines are said by then.
fn run_flow<W: World>(alloc: Global, flow: &Workflow, limits: &Limits, w: &mut W) -> u8
    requires few { length flow.now.asks ≤ 16 }
    requires sum { job_count flow.now.waves ≤ 16 }
    requires jobs { AllByRecursion (AllByRecursion (λ job. job < length flow.now.asks))
        flow.now.waves }
    requires runnable { AllByRecursion IsRunnable flow.now.asks }
    ensures ran { Between W.journal w.old w.new (λ before after.
        RanOn flow.now limits.now.here limits.now.turns
        (SayRose W.counts w.old w.new) (SayFailed W.counts w.new)
        (W.counts w.old) (W.counts w.new) before result after) }
    ensures kept { Kept W.counts w.old w.new limits.now.turns result }
{
    let faults = w.say_faults();
    match run_waves(alloc, w, flow, limits) {
        Ok(standing) => {
            let code = first_fault(standing.ended.as_slice(), flow.asks.len());
            unless_not_said(w, faults, code)
        }
        Err(NoMemory) => say_no_memory(w),
    }
}

// The status, or that all was done and not all could be said.
fn unless_not_said<W: Say>(w: &W, faults: u64, code: u8) -> u8
    requires { faults ≤ (W.counts w.now).say }
    ensures answers { Answers (Rose faults (W.counts w.now).say) code result }
    ensures other { 0 < code → result ≡ code }
    ensures not_said { result ≡ 11 → (code ≡ 11) ⊎ (code ≡ 0) × Rose faults (W.counts w.now).say }
    ensures heard { result ≡ 0 → Rose faults (W.counts w.now).say → ⊥ }
{
    if code == 0 && has_risen(w, faults) {
        return NOT_SAID;
    }
    code
}

// Says that memory was refused.
fn say_no_memory<W: Say>(w: &mut W) -> u8
    ensures says { Between W.journal w.old w.new
        (IsSaid [] ending.NoMemory (SayFailed W.counts w.new)) }
    ensures counts { CountsGrow (W.counts w.old) (W.counts w.new) }
    ensures waits { (W.counts w.new).waits ≡ (W.counts w.old).waits }
    ensures status { result ≡ 12 }
{
    say(w, b"nbrun: no memory\n");
    NO_MEMORY
}

// Says why the words are refused.
fn refuse<W: Say>(alloc: Global, usage: Usage, w: &mut W) -> u8
    ensures ran { (words : Plain (Plain ℕ)) (here : Plain ℕ) (turns : ℕ) →
        (usage ≡ usage_fault.NoMemory) ⊎ (refusal (batch_words words) ≡ Some usage) →
        Between W.journal w.old w.new (λ before after. Ran words here turns
        (SayRose W.counts w.old w.new) (SayFailed W.counts w.new)
        (W.counts w.old) (W.counts w.new) before result after) }
    ensures kept { (turns : ℕ) → Kept W.counts w.old w.new turns result }
    ensures status { (result ≡ 2) ⊎ (result ≡ 12) }
{
    let answer = refused(alloc, usage);
    say(w, answer.line());
    answer.end.code()
}

fn refused(alloc: Global, usage: Usage) -> Answer
    ensures end { (result.end ≡ ending.Refused usage) ⊎ (result.end ≡ ending.NoMemory) }
    ensures memory { usage ≡ usage_fault.NoMemory → result.end ≡ ending.NoMemory }
    ensures text { Speaks [] result }
{
    match usage {
        Usage::NoMemory => Answer::no_memory(alloc),
        other => Answer::refusal(alloc, "", End::Refused(other)),
    }
}
