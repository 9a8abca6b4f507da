//! The command.
ghost use Rattle.std.specs.Prelude.{◌≡◌, ◌⊎◌, [], None, Some};
ghost use Rattle.words.specs.declared.usage.Usage as usages;
ghost use Rattle.words.specs.declared.usage.Usage.TheVariants as usage_fault;
ghost use Rattle.world.specs.Counts.{DiskCause};
ghost use Rattle.world.specs.Told.{Between};
ghost use Rattle.save_disk.specs.declared.save_fault.SaveFault as fault;
ghost use Rattle.said_lines.specs.Between.{DiskRose, SayRose, SayFailed};
ghost use Rattle.said_lines.specs.Speech.{heard};
ghost use Rattle.report_run.specs.declared.end.End.TheVariants as ending;
ghost use Rattle.report_run.specs.Ended.{Ended, SpeaksOf};
ghost use Rattle.report_run.specs.Promise.{Promise};
ghost use Rattle.report_run.specs.Ran.{Ran};
ghost use Rattle.report_run.specs.Reported.{Speaks};
ghost use Rattle.report_run.specs.Words.{refusal, texts};

use crate::answer::Answer;
use crate::end::End;
use crate::saving::carry_out;
use crate::status::unless_not_said;
use crate::words_read::read_words;
use said_lines::say;
use std::alloc::Global;
use words::Usage;
use world::{Disk, Say};

/// Makes the report that the words ask for, says how it ended, and answers the exit status. The
/// words are those after `report`: a form (`script`, `page` or `notebook`), the path of the input
/// and the path of the output. `specs/Promise.antt` has the clauses, each with what it says.
pub fn report<W: Disk + Say>(alloc: Global, words: &[String], w: &mut W) -> u8
    ensures promise { Promise W.journal W.counts w.old w.new (texts words.now) result }
{
    status(alloc, words, w)
}

// The status, once all is done and said.
fn status<W: Disk + Say>(alloc: Global, words: &[String], w: &mut W) -> u8
    ensures causes { Between W.journal w.old w.new (Ended (texts words.now) result
        (SayRose W.counts w.old w.new) (SayFailed W.counts w.new)) }
    ensures silent { SayFailed W.counts w.old →
        Between W.journal w.old w.new (λ before after. heard after ≡ heard before) }
    ensures usage { (u : usages.Usage) → refusal (texts words.now) ≡ Some u →
        (result ≡ 2) ⊎ (result ≡ 12) }
    ensures refused { result ≡ 2 → refusal (texts words.now) ≡ None → ⊥ }
    ensures read_fault { result ≡ 3 → DiskRose W.counts w.old w.new }
    ensures save_fault { result ≡ 10 → DiskRose W.counts w.old w.new }
    ensures say_fault { result ≡ 11 → SayRose W.counts w.old w.new }
    ensures heard { result ≡ 0 → SayRose W.counts w.old w.new → ⊥ }
{
    let faults = w.say_faults();
    let answer = answer_of(alloc, words, w);
    say(w, answer.line());
    let code = answer.end.code();
    unless_not_said(w, faults, code)
}

// All but the saying.
fn answer_of<W: Disk>(alloc: Global, words: &[String], w: &mut W) -> Answer
    ensures ran { Between W.journal w.old w.new
        (λ before after. Ran (texts words.now) before result.end after) }
    ensures text { SpeaksOf (texts words.now) result }
    ensures usage { (u : usages.Usage) → refusal (texts words.now) ≡ Some u →
        (result.end ≡ ending.Refused u) ⊎ (result.end ≡ ending.NoMemory) }
    ensures refused { (u : usages.Usage) → result.end ≡ ending.Refused u →
        refusal (texts words.now) ≡ Some u }
    ensures read_fault { result.end ≡ ending.NotRead → DiskRose W.counts w.old w.new }
    ensures save_fault { (f : fault.SaveFault) → result.end ≡ ending.NotSaved f →
        DiskRose W.counts w.old w.new }
    ensures counts { DiskCause (W.counts w.old) (W.counts w.new) ⊥ }
{
    match read_words(alloc, words) {
        Ok(request) => carry_out(alloc, &request, w),
        Err(usage) => refused(alloc, usage),
    }
}

fn refused(alloc: Global, usage: Usage) -> Answer
    ensures end { (result.end ≡ ending.Refused usage) ⊎ (result.end ≡ ending.NoMemory) }
    ensures memory { usage ≡ usage_fault.NoMemory → result.end ≡ ending.NoMemory }
    ensures text { Speaks [] [] result }
{
    match usage {
        Usage::NoMemory => Answer::no_memory(alloc),
        other => Answer::refusal(alloc, "", "", End::Refused(other)),
    }
}
