//! One report that is asked for: its input is read, and what is made of it is saved.
ghost use Rattle.std.specs.Prelude.{◌≡◌, ◌⊎◌, ◌<◌, length, IfOk};
ghost use Rattle.words.specs.declared.usage.Usage as usages;
ghost use Rattle.world.specs.Counts.{DiskCause};
ghost use Rattle.world.specs.Told.{Between};
ghost use Rattle.save_disk.specs.declared.save_fault.SaveFault as fault;
ghost use Rattle.said_lines.specs.Between.{DiskRose};
ghost use Rattle.report_run.specs.declared.end.End.TheVariants as ending;
ghost use Rattle.report_run.specs.Ran.{Makes, SavesAs};
ghost use Rattle.report_run.specs.Reported.{AreReports, Speaks};

use crate::answer::Answer;
use crate::end::End;
use crate::making::make;
use crate::reports::Reports;
use crate::request::Request;
use jtext::{Bytes, NoMemory};
use save_disk::{SavePath, save};
use std::alloc::Global;
use world::{Disk, ReadFile};

/// The most bytes of an input.
const MOST: u64 = 33_554_432;

/// Reads the input, makes the text of it and saves that.
pub(crate) fn carry_out<W: Disk>(alloc: Global, request: &Request, w: &mut W) -> Answer
    ensures entries { Between W.journal w.old w.new
        (λ before after. Makes request.now before result.end after) }
    ensures text { Speaks request.now.input request.now.output result }
    ensures taken { (u : usages.Usage) → result.end ≡ ending.Refused u → ⊥ }
    ensures read_fault { result.end ≡ ending.NotRead → DiskRose W.counts w.old w.new }
    ensures save_fault { (f : fault.SaveFault) → result.end ≡ ending.NotSaved f →
        DiskRose W.counts w.old w.new }
    ensures counts { DiskCause (W.counts w.old) (W.counts w.new) ⊥ }
{
    match w.read_file(alloc, &request.input, MOST) {
        ReadFile::Whole(bytes) => match make(alloc, request.form, bytes.bytes()) {
            Ok(text) => save_text(alloc, request, &text, w),
            Err(end) => refusal(alloc, request, end),
        },
        ReadFile::Big => refusal(alloc, request, End::TooLarge),
        ReadFile::Failed => refusal(alloc, request, End::NotRead),
        ReadFile::NoMemory => Answer::no_memory(alloc),
    }
}

fn refusal(alloc: Global, request: &Request, end: End) -> Answer
    ensures end { (result.end ≡ end) ⊎ (result.end ≡ ending.NoMemory) }
    ensures text { Speaks request.now.input request.now.output result }
{
    Answer::refusal(alloc, request.input.as_str(), request.output.as_str(), end)
}

// The paths and the lines are made before anything is written.
fn save_text<W: Disk>(alloc: Global, request: &Request, text: &Bytes, w: &mut W) -> Answer
    requires { 0 < length text.now }
    ensures entries { Between W.journal w.old w.new
        (λ before after. SavesAs request.now.output text.now before result.end after) }
    ensures text { Speaks request.now.input request.now.output result }
    ensures taken { (u : usages.Usage) → result.end ≡ ending.Refused u → ⊥ }
    ensures read_fault { result.end ≡ ending.NotRead → ⊥ }
    ensures save_fault { (f : fault.SaveFault) → result.end ≡ ending.NotSaved f →
        DiskRose W.counts w.old w.new }
    ensures counts { DiskCause (W.counts w.old) (W.counts w.new) ⊥ }
{
    let Ok(parts) = parts_of(alloc, request) else {
        return Answer::no_memory(alloc);
    };
    let (path, reports) = parts;
    match save(w, &path, text.bytes()) {
        Ok(()) => reports.on_done(),
        Err(fault) => reports.on_fault(fault),
    }
}

fn parts_of(alloc: Global, request: &Request) -> Result<(SavePath, Reports), NoMemory>
    ensures path { IfOk result (λ r. r.0 ≡ request.now.output) }
    ensures reports { IfOk result (λ r. AreReports request.now.output r.1) }
{
    let path = SavePath::of(alloc, &request.output)?;
    let reports = Reports::new(alloc, request.output.as_str())?;
    Ok((path, reports))
}
