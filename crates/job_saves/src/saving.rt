//! `save_next`, the next save of a job.
ghost use Rattle.std.specs.Prelude.{◌≡◌, ◌≤◌, ◌+◌, List, length, true, None, Err, IfErr, IfSome, OnOk};
ghost use Rattle.nb_model.specs.declared.notebook.Notebook as whole;
ghost use Rattle.out_fold.specs.declared.used.Used.{Used};
ghost use Rattle.world.specs.Disk.{place};
ghost use Rattle.world.specs.Moments.{Told, Since};
ghost use Rattle.save_disk.specs.Places.{save_count, durable_place};
ghost use Rattle.said_lines.specs.Between.{SayFailed};
ghost use Rattle.progress_save.specs.Prefix.{prefix};
ghost use Rattle.progress_save.specs.Saved.{line_of};
ghost use Rattle.nb_text.specs.Notebooks.{text_of};
ghost use Rattle.job_end.specs.declared.end.End.TheVariants as ending;
ghost use Rattle.job_notebook.specs.State.{notebook_of, settled_of, begun_of, merge_of, output_of};
ghost use Rattle.job_notebook.specs.State.{Keeps};
ghost use Rattle.job_saves.specs.Course.{Origin, Stands, GoesOn, CallsOwn, stays_open, answer_of};
ghost use Rattle.job_saves.specs.Course.{IsEndOfRun, IsEndOfSave};
ghost use Rattle.job_saves.specs.Left.{IsLeft, output_at};
ghost use Rattle.job_saves.specs.Saving.{OnTried, SavesOrEnds, SavesOrEndsSilently};
ghost use Rattle.job_saves.specs.Sessions.{IsSaveCall};

use job_end::End;
use job_notebook::JobNotebook;
use progress_save::ProgressFault;
use world::{Disk, Say};

/// Settles so many cells of the notebook and saves it; `stop` is the cell at which the run stopped.
/// After an error nothing more is saved, and where memory was refused nothing was written.
pub fn save_next<W: Disk + Say>(
    w: &mut W,
    book: &mut JobNotebook,
    settled: u32,
    stop: Option<u32>,
) -> Result<(), End>
    requires within { settled ≤ length (notebook_of book.old).cells }
    requires above { settled_of book.old ≤ settled }

    // It goes on with the course of the saves so far, and its calls are those of its job.
    ensures course { GoesOn W.journal W.counts w.old w.new book.old book.new (stays_open result) }
    ensures calls { CallsOwn W.journal W.counts w.old w.new book.old book.new }
    // It asks for nothing but that save and its line.
    ensures saves { Told (W.journal w.old) (W.journal w.new)
        (Since (IsSaveCall (output_of book.old))) }

    // Which entries it adds, by its answer: the line is said after the save that it speaks of.
    ensures entries { Told (W.journal w.old) (W.journal w.new)
        (SavesOrEnds (output_of book.old) (text_of (notebook_of book.new))
        (line_of (output_of book.old) settled (notebook_of book.new)) (SayFailed W.counts w.new)
        result) }
    ensures silent { SayFailed W.counts w.old → Told (W.journal w.old) (W.journal w.new)
        (SavesOrEndsSilently (output_of book.old) (text_of (notebook_of book.new)) result) }

    // Once the disk was called the notebook is that prefix of the first one, for the messages that
    // were used. After Ok a crash leaves its text at the output, and one save more is acknowledged.
    ensures prefix { OnTried result ((first : whole.Notebook) (us : List Used) →
        Keeps book.old first us →
        notebook_of book.new ≡ prefix (merge_of book.old) us settled stop first) }
    // Unless the run stopped it keeps what it kept.
    ensures keeps { OnOk result (stop ≡ None → (first : whole.Notebook) (us : List Used) →
        Keeps book.old first us → Keeps book.new first us) }
    ensures durable { OnOk result (Told (W.journal w.old) (W.journal w.new) (λ _ after.
        place after (output_of book.old) ≡ durable_place (text_of (notebook_of book.new)))) }
    ensures acked { OnOk result (Told (W.journal w.old) (W.journal w.new) (λ before after.
        save_count (output_of book.old) after ≡
        save_count (output_of book.old) before + 1)) }
    // It is a prefix of the notebook that the job began with, for messages whose contents were read.
    ensures left { OnOk result ((o : Origin) → o.is_watched ≡ true →
        Stands o book.old true (W.journal w.old) (W.counts w.old) →
        IfSome (W.journal w.new) (λ past. IsLeft (output_at o past) settled stop)) }
    // Where memory is refused nothing is asked of the world.
    ensures idle { result ≡ Err ending.NoMemory →
        (W.journal w.new ≡ W.journal w.old) × (W.counts w.new ≡ W.counts w.old) }

    // It ends the job by this save, or for want of memory.
    ensures own { IfErr result IsEndOfRun }
    ensures kind { IfErr result IsEndOfSave }

    ensures settled { OnOk result (settled_of book.new ≡ settled) }
    ensures bounded { settled_of book.new ≤ settled }
    ensures begun { begun_of book.new ≡ begun_of book.old }
    ensures merge { merge_of book.new ≡ merge_of book.old }
    ensures output { output_of book.new ≡ output_of book.old }
    ensures cells { length (notebook_of book.new).cells ≡ length (notebook_of book.old).cells }
{
    end_of(book.save(w, settled, stop))
}

/// How a job ends whose save failed.
fn end_of(saved: Result<(), ProgressFault>) -> Result<(), End>
    ensures answer { result ≡ answer_of saved }
    ensures own { IfErr result IsEndOfRun }
    ensures kind { IfErr result IsEndOfSave }
{
    match saved {
        Ok(()) => Ok(()),
        Err(ProgressFault::Save(fault)) => Err(End::NotSaved(fault)),
        Err(ProgressFault::Closed) => Err(End::NoMemory),
        Err(ProgressFault::NoMemory) => Err(End::NoMemory),
    }
}
