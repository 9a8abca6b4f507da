//! The jobs file of a batch.
ghost use Rattle.std.specs.Prelude.{◌≡◌, ◌⊎◌, ◌≤◌, length, IfOk, IfErr, []};
ghost use Rattle.std.specs.List.{AllByRecursion};
ghost use Rattle.words.specs.Runnable.{IsRunnable};
ghost use Rattle.words.specs.declared.usage.Usage.TheVariants as usage_fault;
ghost use Rattle.world.specs.Counts.{DiskCause};
ghost use Rattle.world.specs.Told.{Between};
ghost use Rattle.said_lines.specs.Between.{DiskRose};
ghost use Rattle.nbrun_top.specs.declared.end.End.TheVariants as ending;
ghost use Rattle.nbrun_top.specs.Executed.{GivesAsks, IsEndOfFile};
ghost use Rattle.nbrun_top.specs.Said.{SpeaksOfFile};

use crate::answer::Answer;
use crate::end::End;
use jtext::Text;
use std::alloc::Global;
use words::{Ask, Asks, Usage, jobs};
use world::{Disk, ReadFile};

/// The most bytes of a jobs file.
const MOST: u64 = 1_048_576;

/// The jobs of this file, by one read of it; or how the run ends that has none.
pub(crate) fn asks_in<W: Disk>(
    alloc: Global,
    file: &Text,
    common: &Ask,
    w: &mut W,
) -> Result<Asks, Answer>
    ensures entries { Between W.journal w.old w.new
        (λ before after. GivesAsks file.now common.now before result after) }
    ensures text { IfErr result (SpeaksOfFile file.now) }
    ensures end { IfErr result (λ r. IsEndOfFile r.end) }
    ensures some { IfOk result (λ asks. 1 ≤ length asks) }
    ensures few { IfOk result (λ asks. length asks ≤ 16) }
    ensures runnable { IsRunnable common.now → IfOk result (AllByRecursion IsRunnable) }
    ensures read_fault { IfErr result (λ r. r.end ≡ ending.NotRead →
        DiskRose W.counts w.old w.new) }
    ensures counts { DiskCause (W.counts w.old) (W.counts w.new) ⊥ }
{
    match w.read_file(alloc, file, MOST) {
        ReadFile::Whole(bytes) => match jobs(alloc, bytes.bytes(), file, common) {
            Ok(asks) => Ok(asks),
            Err(usage) => Err(refusal(alloc, file, usage)),
        },
        ReadFile::Big => Err(too_large(alloc, file)),
        ReadFile::Failed => Err(not_read(alloc, file)),
        ReadFile::NoMemory => Err(Answer::no_memory(alloc)),
    }
}

fn refusal(alloc: Global, file: &Text, usage: Usage) -> Answer
    ensures end { (result.end ≡ ending.Refused usage) ⊎ (result.end ≡ ending.NoMemory) }
    ensures memory { usage ≡ usage_fault.NoMemory → result.end ≡ ending.NoMemory }
    ensures text { SpeaksOfFile file.now result }
{
    match usage {
        Usage::NoMemory => Answer::no_memory(alloc),
        other => Answer::refusal(alloc, file.as_str(), "nbrun", End::Refused(other)),
    }
}

// A file that is too large is refused as a whole, as one that is no text of a tree.
fn too_large(alloc: Global, file: &Text) -> Answer
    ensures end { (result.end ≡ ending.Refused (usage_fault.BadJobs []))
        ⊎ (result.end ≡ ending.NoMemory) }
    ensures text { SpeaksOfFile file.now result }
{
    let usage = Usage::BadJobs {
        pointer: Text::new(alloc),
    };
    refusal(alloc, file, usage)
}

fn not_read(alloc: Global, file: &Text) -> Answer
    ensures end { (result.end ≡ ending.NotRead) ⊎ (result.end ≡ ending.NoMemory) }
    ensures text { SpeaksOfFile file.now result }
{
    Answer::refusal(alloc, file.as_str(), "nbrun", End::NotRead)
}
