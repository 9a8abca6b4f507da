//! Runs that execute no notebook.
ghost use Rattle.std.specs.Prelude.{◌≡◌, ◌⊎◌, ◌<◌, ◌≤◌, true, None, Some, List as Seq, ℕ};
ghost use Rattle.words.specs.declared.usage.Usage as usages;
ghost use Rattle.words.specs.declared.usage.Usage.TheVariants as usage_fault;
ghost use Rattle.words.specs.Refusals.{refusal};
ghost use Rattle.world.specs.Counts.{DiskCause};
ghost use Rattle.nbrun_top.specs.declared.end.End.TheVariants as ending;
ghost use Rattle.nbrun_top.specs.declared.plain.Plain.TheVariants as plains;
ghost use Rattle.save_disk.specs.declared.save_fault.SaveFault as fault;
ghost use Rattle.nbrun_top.specs.Asked.{IsPlainOf};
ghost use Rattle.nbrun_top.specs.Codes.{is_plain};
ghost use Rattle.world.specs.Told.{Between};
ghost use Rattle.said_lines.specs.Between.{DiskRose, SayRose, SayFailed};
ghost use Rattle.nbrun_top.specs.Ended.{Ended};
ghost use Rattle.nbrun_top.specs.Executed.{WaitsAtMost};
ghost use Rattle.nbrun_top.specs.Ran.{Ran};
ghost use Rattle.nbrun_top.specs.Said.{Speaks, SpeaksOf};
ghost use Rattle.said_lines.specs.Speech.{heard};

use crate::answer::Answer;
use crate::end::End;
use crate::job::prepare;
use crate::plain::Plain;
use crate::status::unless_not_said;
use said_lines::say;
use std::alloc::Global;
use words::Usage;
use world::{Disk, Say};

/// Does that, says how it ended, and answers the exit status.
pub(crate) fn run_plain<W: Disk + Say>(alloc: Global, plain: Plain, w: &mut W) -> u8
    ensures causes { (words : Seq (Seq ℕ)) → IsPlainOf words plain →
        Between W.journal w.old w.new (Ended words result
        (SayRose W.counts w.old w.new) (SayFailed W.counts w.new)) }
    ensures silent { (words : Seq (Seq ℕ)) → IsPlainOf words plain → SayFailed W.counts w.old →
        Between W.journal w.old w.new (λ before after. heard after ≡ heard before) }
    ensures usage { (u : usages.Usage) → plain ≡ plains.Refused u → (result ≡ 2) ⊎ (result ≡ 12) }
    ensures refused { result ≡ 2 → (u : usages.Usage) × (plain ≡ plains.Refused u)
        × (u ≡ usage_fault.NoMemory → ⊥) }
    ensures read_fault { result ≡ 3 → DiskRose W.counts w.old w.new }
    ensures save_fault { result ≡ 10 → DiskRose W.counts w.old w.new }
    ensures say_fault { result ≡ 11 → SayRose W.counts w.old w.new }
    ensures kind { is_plain result ≡ true }
    ensures waits { WaitsAtMost W.counts w.old w.new 0 }
    ensures heard { result ≡ 0 → SayRose W.counts w.old w.new → ⊥ }
{
    let faults = w.say_faults();
    let answer = answer_of(alloc, plain, w);
    say(w, answer.lines());
    let code = answer.end.code();
    unless_not_said(w, faults, code)
}

// All but the saying.
fn answer_of<W: Disk>(alloc: Global, plain: Plain, w: &mut W) -> Answer
    ensures ran { (words : Seq (Seq ℕ)) → IsPlainOf words plain → Between W.journal w.old w.new
        (λ before after. Ran words before result.end after) }
    ensures text { (words : Seq (Seq ℕ)) → IsPlainOf words plain → SpeaksOf words result }
    ensures counts { DiskCause (W.counts w.old) (W.counts w.new) ⊥ }
    ensures usage { (u : usages.Usage) → plain ≡ plains.Refused u →
        (result.end ≡ ending.Refused u) ⊎ (result.end ≡ ending.NoMemory) }
    ensures refused { (u : usages.Usage) → result.end ≡ ending.Refused u →
        plain ≡ plains.Refused u }
    ensures memory { plain ≡ plains.Refused usage_fault.NoMemory → result.end ≡ ending.NoMemory }
    ensures read_fault { result.end ≡ ending.NotRead → DiskRose W.counts w.old w.new }
    ensures save_fault { (f : fault.SaveFault) → result.end ≡ ending.NotSaved f →
        DiskRose W.counts w.old w.new }
{
    match plain {
        Plain::Prepare(ask) => prepare(alloc, &ask, w),
        Plain::Refused(usage) => refusal(alloc, usage),
    }
}

fn refusal(alloc: Global, usage: Usage) -> Answer
    ensures end { (result.end ≡ ending.Refused usage) ⊎ (result.end ≡ ending.NoMemory) }
    ensures memory { usage ≡ usage_fault.NoMemory → result.end ≡ ending.NoMemory }
    ensures text { (input output : Seq ℕ) → Speaks input output result }
{
    match usage {
        Usage::NoMemory => Answer::no_memory(alloc),
        other => Answer::refusal(alloc, "", "", End::Refused(other)),
    }
}
