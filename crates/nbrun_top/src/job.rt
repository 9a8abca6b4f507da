//! One job that only prepares its notebook.
ghost use Rattle.std.specs.Prelude.{◌≡◌, ◌⊎◌, ℕ};
ghost use Rattle.words.specs.declared.usage.Usage as usages;
ghost use Rattle.world.specs.Counts.{DiskCause};
ghost use Rattle.nbrun_top.specs.declared.end.End.TheVariants as ending;
ghost use Rattle.save_disk.specs.declared.save_fault.SaveFault as fault;
ghost use Rattle.world.specs.Told.{Between};
ghost use Rattle.said_lines.specs.Between.{DiskRose};
ghost use Rattle.nbrun_top.specs.Codes.{end_of};
ghost use Rattle.nbrun_top.specs.Ran.{Prepares, SavesAs};
ghost use Rattle.nbrun_top.specs.Said.{Speaks};

use crate::answer::Answer;
use crate::end::End;
use crate::parts::Parts;
use nb_load::{LoadFault, load};
use nb_model::Notebook;
use save_disk::save;
use std::alloc::Global;
use words::Ask;
use world::{Disk, ReadFile};

/// The most bytes of an input.
const MOST: u64 = 33_554_432;

/// Reads the input, injects the parameters and saves the notebook. Nothing is executed.
pub(crate) fn prepare<W: Disk>(alloc: Global, ask: &Ask, w: &mut W) -> Answer
    ensures entries { Between W.journal w.old w.new
        (λ before after. Prepares ask.now before result.end after) }
    ensures text { Speaks ask.now.input ask.now.output result }
    ensures taken { (u : usages.Usage) → result.end ≡ ending.Refused u → ⊥ }
    ensures read_fault { result.end ≡ ending.NotRead → DiskRose W.counts w.old w.new }
    ensures save_fault { (f : fault.SaveFault) → result.end ≡ ending.NotSaved f →
        DiskRose W.counts w.old w.new }
    ensures counts { DiskCause (W.counts w.old) (W.counts w.new) ⊥ }
{
    match w.read_file(alloc, &ask.input, MOST) {
        ReadFile::Whole(bytes) => {
            let size = bytes.len();
            match load(alloc, bytes, ask) {
                Ok(notebook) => save_of(alloc, ask, &notebook, size, w),
                Err(fault) => not_loaded(alloc, ask, fault),
            }
        }
        ReadFile::Big => refusal(alloc, ask, End::TooLarge),
        ReadFile::Failed => refusal(alloc, ask, End::NotRead),
        ReadFile::NoMemory => Answer::no_memory(alloc),
    }
}

fn not_loaded(alloc: Global, ask: &Ask, why: LoadFault) -> Answer
    ensures end { (result.end ≡ end_of why) ⊎ (result.end ≡ ending.NoMemory) }
    ensures text { Speaks ask.now.input ask.now.output result }
    ensures taken { (u : usages.Usage) → result.end ≡ ending.Refused u → ⊥ }
    ensures read { result.end ≡ ending.NotRead → ⊥ }
    ensures saves { (f : fault.SaveFault) → result.end ≡ ending.NotSaved f → ⊥ }
{
    match why {
        LoadFault::NotJson(fault) => refusal(alloc, ask, End::NotLoaded(LoadFault::NotJson(fault))),
        LoadFault::NotNotebook(fault) => {
            refusal(alloc, ask, End::NotLoaded(LoadFault::NotNotebook(fault)))
        }
        LoadFault::NoTranslator { language } => refusal(
            alloc,
            ask,
            End::NotLoaded(LoadFault::NoTranslator { language }),
        ),
        LoadFault::NoMemory => Answer::no_memory(alloc),
    }
}

fn refusal(alloc: Global, ask: &Ask, end: End) -> Answer
    requires { (cells : ℕ) → end ≡ ending.Done cells → ⊥ }
    ensures end { (result.end ≡ end) ⊎ (result.end ≡ ending.NoMemory) }
    ensures text { Speaks ask.now.input ask.now.output result }
{
    Answer::refusal(alloc, ask.input.as_str(), ask.output.as_str(), end)
}

// The text, the paths and the lines are made before anything is written. The input had that size.
fn save_of<W: Disk>(alloc: Global, ask: &Ask, notebook: &Notebook, size: usize, w: &mut W) -> Answer
    ensures entries { Between W.journal w.old w.new
        (λ before after. SavesAs ask.now.output notebook.now before result.end after) }
    ensures text { Speaks ask.now.input ask.now.output result }
    ensures read_fault { result.end ≡ ending.NotRead → ⊥ }
    ensures taken { (u : usages.Usage) → result.end ≡ ending.Refused u → ⊥ }
    ensures save_fault { (f : fault.SaveFault) → result.end ≡ ending.NotSaved f →
        DiskRose W.counts w.old w.new }
    ensures counts { DiskCause (W.counts w.old) (W.counts w.new) ⊥ }
{
    let Ok(parts) = Parts::new(alloc, ask, notebook, size) else {
        return Answer::no_memory(alloc);
    };
    let Parts {
        text,
        path,
        reports,
    } = parts;
    match save(w, &path, text.bytes()) {
        Ok(()) => reports.on_done(notebook.cells.len()),
        Err(fault) => reports.on_fault(fault),
    }
}
