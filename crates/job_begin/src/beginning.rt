//! `begin`, the begin of a job.
ghost use Rattle.std.specs.Prelude.{◌≡◌, ◌⊎◌, ◌<◌, ◌^◌, ◌+◌, ◌∷◌, ℕ, List, true, false, length, None, Ok};
ghost use Rattle.std.specs.Prelude.{Err};
ghost use Rattle.std.specs.Prelude.{IfSome, IfOk, IfErr, OnOk};
ghost use Rattle.std.specs.Str.{bytes_eq};
ghost use Rattle.job_begin.specs.Begun.{Begun, HasRead, IsGivenBy, AnswersAs, IsOpen};
ghost use Rattle.job_begin.specs.Begun.{StartsWith, IsUncaused, IsEndOfSaving};
ghost use Rattle.job_begin.specs.Begun.{GivesNone, KernelEnds, NamesRefusal, end_for};
ghost use Rattle.job_end.specs.declared.end.End.TheVariants as ending;
ghost use Rattle.kernel_start.specs.declared.kernel_fault.KernelFault as faults;
ghost use Rattle.job_end.specs.Statuses.{status_of};
ghost use Rattle.job_begin.specs.Causes.{HasCause};
ghost use Rattle.job_begin.specs.Steps.{SavesFor, StartsFor, CountsEnd, EndsInRole};
ghost use Rattle.job_begin.specs.Steps.{Acknowledges, LeavesWhole, closing_saves, end_by};
ghost use Rattle.job_saves.specs.Left.{IsLeft, output_at};
ghost use Rattle.job_begin.specs.Steps.{BeginsInRole, LeavesNone};
ghost use Rattle.job_begin.specs.Standing.{IsToBeginWith};
ghost use Rattle.job_run.specs.Beginning.{HasSession, StartsOrEnds};
ghost use Rattle.job_journal.specs.Plot.{Plot};
ghost use Rattle.job_notebook.specs.State.{notebook_of, settled_of, merge_of, output_of, KeepsRead};
ghost use Rattle.job_saves.specs.Calls.{Cast, IsCall};
ghost use Rattle.job_saves.specs.Reads.{IsInputOf, IsNotebookOf, IsKernelOf, first_of};
ghost use Rattle.job_saves.specs.Speaking.{IsAnswer};
ghost use Rattle.job_saves.specs.Course.{Origin, Stands, GoesOn, CallsOwn, CountsWork};
ghost use Rattle.job_saves.specs.Course.{IsEndOfRun, IsEndOfSave, stays_open, keeps_open};
ghost use Rattle.job_run.specs.Run.{EndCause, RunsCounted, outcome_of, HasPorts};
ghost use Rattle.job_run.specs.Task.{output_of_job, ports_of_job, pings_kernel};
ghost use Rattle.save_course.specs.Course.{IsRested};
ghost use Rattle.kernel_start.specs.Finding.{IsNotRead};
ghost use Rattle.words.specs.Runnable.{IsRunnable};
ghost use Rattle.world.specs.declared.entry.Entry.{Entry};
ghost use Rattle.world.specs.declared.read_file.ReadFile.TheVariants as file;
ghost use Rattle.world.specs.Told.{FoundWithin};
ghost use Rattle.world.specs.Counts.{Counts, CountsGrow, Rose};
ghost use Rattle.world.specs.Moments.{Told, Since};
ghost use Rattle.world.specs.Parts.{IsOf, OnDisk};
ghost use Rattle.world.specs.Touched.{Spares};

use crate::laws::{causes_stay, jobs_end_unsaved};
use job_end::{Answer, End};
use job_notebook::JobNotebook;
use job_run::{Agenda, Job};
use job_saves::{laws, save_next};
use jtext::Text;
use kernel_start::{Kernel, KernelFault};
use nb_load::load;
use nb_model::{Notebook, plan, prepare};
use std::alloc::Global;
use words::Ask;
use world::{Disk, ReadFile, Say, World};

/// The most bytes of an input.
const MOST: u64 = 33_554_432;

/// Reads the notebook, saves it with no cell settled and starts its kernel. A job that ends before
/// its kernel runs answers how it ended; of a kernel whose start failed nothing is left. `here` is
/// the working folder.
pub fn begin<W: World>(
    alloc: Global,
    w: &mut W,
    number: u8,
    ask: Ask,
    here: &Text,
) -> Result<Job, Answer>
    requires number { number < 16 }
    requires ask { IsRunnable ask }

    // What its saves are a course of, where no rename onto the output waited for its folder's sync;
    // where none was acknowledged before, as many saves as were since are among the events that the
    // core of the job was told, or that brought the end of one that was to be executed. Where it runs
    // it speaks in the session that was drawn for it. By each plot with its notebook, where nothing
    // had happened to it before, it stands for the journal, or has ended by it with its answer.
    ensures begun { Told (W.journal w.old) (W.journal w.new) (λ before after.
        IsRested ask.output before →
        Begun number ask result (W.counts w.old) (W.counts w.new) before after) }
    // Its calls are those of the job that was asked for, and no other job's, where no child of its
    // number is there and no save of it was acknowledged, or the jobs didn't begin clean.
    ensures calls { BeginsInRole W.journal W.counts w.old w.new number ask here.now result }
    // Where it has ended a child that was started has its end.
    ensures left { LeavesNone W.journal w.old w.new number result }
    // Statuses 3, 6, 10 and 14 come only where a count of failed calls rose, and 16 never.
    ensures cause { IfErr result (λ answer.
        HasCause (W.counts w.old) (W.counts w.new) answer.status) }
    ensures spent { IfErr result (λ answer. answer.status ≡ 16 → ⊥) }
    // Statuses 4 and 5 come with the line of the refusal: that of its notebook, or that of its kernel's
    // name or spec.
    ensures refused { IfErr result (λ answer.
        Told (W.journal w.old) (W.journal w.new) (NamesRefusal ask answer)) }
    // The status and the line are those of an end; where it runs, its last line names its output.
    ensures answer { IfErr result (IsAnswer ask.output) }
    ensures output { IfOk result (λ j. output_of_job j ≡ ask.output) }
    // Where it runs it has not ended, its kernel is pinged where that was asked for, and a save that
    // fails comes only where a count rose, whatever the world tells.
    ensures runs { IfOk result (λ j.
        RunsCounted (W.counts w.old) j (W.journal w.new) (W.counts w.new)) }
    ensures fresh { IfOk result (λ j. outcome_of j ≡ None) }
    ensures pings { IfOk result (λ j. pings_kernel j ≡ ask.heartbeat) }
    ensures ports { IfOk result (λ j. HasPorts number (ports_of_job j) (W.journal w.new)) }
{
    laws::other_calls_pass();
    let Ok(output) = ask.output.copy(alloc) else {
        return Err(Answer::starved(alloc));
    };
    match input_of(alloc, w, &ask) {
        Ok(notebook) => {
            let begun = begin_with(alloc, w, number, ask, here, notebook);
            answer_of(alloc, &output, begun)
        }
        Err(end) => Err(end.answer(alloc, &output)),
    }
}

/// What a job on this output answers, which began so.
fn answer_of(alloc: Global, output: &Text, begun: Result<Job, End>) -> Result<Job, Answer>
    ensures { AnswersAs output.now begun result }
{
    match begun {
        Ok(job) => Ok(job),
        Err(end) => Err(end.answer(alloc, output)),
    }
}

/// The notebook of the input, with its parameters.
fn input_of<W: Disk>(alloc: Global, w: &mut W, ask: &Ask) -> Result<Notebook, End>
    ensures read { IfOk result (λ notebook.
        Told (W.journal w.old) (W.journal w.new) (HasRead ask.now notebook)) }
    ensures others { (path : List ℕ) →
        Told (W.journal w.old) (W.journal w.new) (Since (Spares path)) }
    ensures part { Told (W.journal w.old) (W.journal w.new) (Since (IsOf OnDisk)) }
    ensures calls { (c : Cast) (number : ℕ) → c.job number ≡ Some ask.now →
        Told (W.journal w.old) (W.journal w.new) (Since (IsCall c)) }
    ensures work { CountsWork (W.counts w.old) (W.counts w.new) }
    ensures cause { IfErr result (EndCause (W.counts w.old) (W.counts w.new)) }
    ensures unsaved { IfErr result IsOpen }
    ensures few { IfOk result (λ notebook. length notebook.cells < 2 ^ 32) }
    ensures none { IfErr result (λ end.
        Told (W.journal w.old) (W.journal w.new) (λ before. GivesNone ask.now before end)) }
    ensures uncaused { IfErr result (λ end. IsUncaused (status_of end)) }
{
    let read = w.read_file(alloc, &ask.input, MOST);
    notebook_in(alloc, ask, read)
}

/// The notebook of an input that was read so, with its parameters.
fn notebook_in(alloc: Global, ask: &Ask, read: ReadFile) -> Result<Notebook, End>
    requires { FoundWithin read 33554432 }
    ensures read { IfOk result (IsGivenBy ask.now read) }
    ensures few { IfOk result (λ notebook. length notebook.cells < 2 ^ 32) }
    ensures none { IfErr result (λ end. (before : List Entry) →
        GivesNone ask.now before end (Entry.Read ask.now.input 33554432 read ∷ before)) }
    ensures cause { (old new : Counts) → (read ≡ file.Failed → Rose old.disk new.disk) →
        IfErr result (EndCause old new) }
    ensures unsaved { IfErr result IsOpen }
    ensures uncaused { IfErr result (λ end. IsUncaused (status_of end)) }
{
    match read {
        ReadFile::Whole(bytes) => match load(alloc, bytes, ask) {
            Ok(notebook) => Ok(notebook),
            Err(fault) => Err(End::NotLoaded(fault)),
        },
        ReadFile::Big => Err(End::TooLarge),
        ReadFile::Failed => Err(not_read(alloc, ask)),
        ReadFile::NoMemory => Err(End::NoMemory),
    }
}

/// How a job ends whose input can't be read.
fn not_read(alloc: Global, ask: &Ask) -> End
    ensures cause { (old new : Counts) → Rose old.disk new.disk → EndCause old new result }
    ensures unsaved { IsOpen result }
    ensures kind { (result ≡ ending.NotRead ask.now.input) ⊎ (result ≡ ending.NoMemory) }
    ensures uncaused { IsUncaused (status_of result) }
{
    match ask.input.copy(alloc) {
        Ok(path) => End::NotRead { path },
        Err(_) => End::NoMemory,
    }
}

/// Saves the notebook, and starts its kernel where cells are executed.
fn begin_with<W: World>(
    alloc: Global,
    w: &mut W,
    number: u8,
    ask: Ask,
    here: &Text,
    notebook: Notebook,
) -> Result<Job, End>
    requires number { number < 16 }
    requires ask { IsRunnable ask }
    requires few { length notebook.cells < 2 ^ 32 }
    ensures course { StartsFor W.journal W.counts w.old w.new ask (first_of ask notebook) result }
    ensures counted { CountsEnd W.journal W.counts w.old w.new ask (first_of ask notebook) result }
    ensures calls { IfSome (W.journal w.old) (λ past. IsInputOf ask past notebook) →
        BeginsInRole W.journal W.counts w.old w.new number ask here.now result }
    ensures left { LeavesNone W.journal w.old w.new number result }
    ensures cause { IfErr result (EndCause (W.counts w.old) (W.counts w.new)) }
    ensures task { StartsWith ask (first_of ask notebook) result }
    ensures kernel { IfErr result
        (KernelEnds ask (first_of ask notebook) (W.journal w.old) (W.journal w.new)) }
    ensures output { IfOk result (λ j. output_of_job j ≡ ask.output) }
    ensures fresh { IfOk result (λ j. outcome_of j ≡ None) }
    ensures pings { IfOk result (λ j. pings_kernel j ≡ ask.heartbeat) }
    ensures ports { IfOk result (λ j. HasPorts number (ports_of_job j) (W.journal w.new)) }
    ensures stands { (p : Plot) → Told (W.journal w.old) (W.journal w.new) (λ before after.
        IsToBeginWith p number ask (first_of ask notebook) before →
        StartsOrEnds p result after) }
    ensures spoken { IfOk result (λ j. Told (W.journal w.old) (W.journal w.new)
        (HasSession number ask.output j)) }
{
    jobs_end_unsaved();
    if ask.prepare {
        let saved = save_alone(alloc, w, &ask, notebook);
        return Err(end_of(saved));
    }
    let Ok(notebook) = prepare(alloc, notebook) else {
        return Err(End::NoMemory);
    };
    execute(alloc, w, number, ask, here, notebook)
}

/// How a job ends whose notebook was to be saved, and nothing more.
fn end_of(saved: Result<(), End>) -> End
    ensures open { keeps_open result ≡ stays_open saved }
    ensures own { IfErr saved IsEndOfRun → IsEndOfRun result }
    ensures kind { IfErr saved IsEndOfSave → IsEndOfSaving result }
    ensures answer { result ≡ end_by saved }
{
    match saved {
        Ok(()) => End::Done,
        Err(end) => end,
    }
}

/// Saves the notebook as it is.
fn save_alone<W: Disk + Say>(
    alloc: Global,
    w: &mut W,
    ask: &Ask,
    notebook: Notebook,
) -> Result<(), End>
    requires { length notebook.cells < 2 ^ 32 }
    ensures course { SavesFor W.journal W.counts w.old w.new ask.now notebook (stays_open result) }
    ensures calls { EndsInRole W.journal W.counts w.old w.new ask.now notebook }
    ensures own { IfErr result IsEndOfRun }
    ensures kind { IfErr result IsEndOfSave }
{
    laws::jobs_begin_and_end();
    jobs_end_unsaved();
    let mut book = book_of(alloc, ask, notebook)?;
    let end = save_next(w, &mut book, 0, None);
    drop(book);
    end
}

/// A notebook of which nothing was saved.
fn book_of(alloc: Global, ask: &Ask, notebook: Notebook) -> Result<JobNotebook, End>
    requires { length notebook.cells < 2 ^ 32 }
    ensures settled { IfOk result (λ b. settled_of b ≡ 0) }
    ensures cells { IfOk result (λ b. length (notebook_of b).cells ≡ length notebook.cells) }
    ensures merge { IfOk result (λ b. merge_of b ≡ ask.now.merge) }
    ensures output { IfOk result (λ b. output_of b ≡ ask.now.output) }
    ensures keeps { IfOk result (λ b. KeepsRead b notebook) }
    ensures unsaved { IfErr result IsOpen }
    ensures own { IfErr result IsEndOfRun }
    ensures kind { IfErr result IsEndOfSave }
{
    Ok(JobNotebook::new(alloc, notebook, ask.merge, &ask.output)?)
}

/// Saves the notebook as it waits, and then as it is done: no cell of it is executed.
fn save_twice<W: Disk + Say>(
    alloc: Global,
    w: &mut W,
    ask: &Ask,
    notebook: Notebook,
) -> Result<(), End>
    requires { length notebook.cells < 2 ^ 32 }
    ensures course { SavesFor W.journal W.counts w.old w.new ask.now notebook (stays_open result) }
    ensures acked { OnOk result (Acknowledges W.journal w.old w.new ask.now.output
        (1 + closing_saves (length notebook.cells))) }
    ensures whole { OnOk result (LeavesWhole W.journal W.counts w.old w.new ask.now notebook) }
    ensures calls { EndsInRole W.journal W.counts w.old w.new ask.now notebook }
    ensures own { IfErr result IsEndOfRun }
    ensures kind { IfErr result IsEndOfSave }
{
    laws::jobs_begin_and_end();
    jobs_end_unsaved();
    let mut book = book_of(alloc, ask, notebook)?;
    match save_next(w, &mut book, 0, None) {
        Ok(()) => {
            let end = save_done(w, &mut book);
            drop(book);
            end
        }
        Err(end) => {
            drop(book);
            Err(end)
        }
    }
}

/// Saves the notebook as it is done, where it has cells.
fn save_done<W: Disk + Say>(w: &mut W, book: &mut JobNotebook) -> Result<(), End>
    requires few { length (notebook_of book.old).cells < 2 ^ 32 }
    requires settled { settled_of book.old ≡ 0 }
    ensures course { GoesOn W.journal W.counts w.old w.new book.old book.new (stays_open result) }
    ensures acked { OnOk result (Acknowledges W.journal w.old w.new (output_of book.old)
        (closing_saves (length (notebook_of book.old).cells))) }
    ensures left { OnOk result ((o : Origin) → o.is_watched ≡ true →
        Stands o book.old true (W.journal w.old) (W.counts w.old) →
        IfSome (W.journal w.old) (λ past. IsLeft (output_at o past) 0 None) →
        IfSome (W.journal w.new) (λ past.
        IsLeft (output_at o past) (length (notebook_of book.old).cells) None)) }
    ensures calls { CallsOwn W.journal W.counts w.old w.new book.old book.new }
    ensures own { IfErr result IsEndOfRun }
    ensures kind { IfErr result IsEndOfSave }
{
    let count = book.notebook().cells.len() as u32;
    if count == 0 {
        return Ok(());
    }
    save_next(w, book, count, None)
}

/// Starts the kernel of a prepared notebook; where no cell is executed, it is saved alone.
fn execute<W: World>(
    alloc: Global,
    w: &mut W,
    number: u8,
    ask: Ask,
    here: &Text,
    notebook: Notebook,
) -> Result<Job, End>
    requires number { number < 16 }
    requires ask { IsRunnable ask }
    requires few { length notebook.cells < 2 ^ 32 }
    ensures course { StartsFor W.journal W.counts w.old w.new ask notebook result }
    ensures counted { CountsEnd W.journal W.counts w.old w.new ask notebook result }
    ensures calls { IfSome (W.journal w.old) (λ past. IsNotebookOf ask past notebook) →
        ask.prepare ≡ false →
        BeginsInRole W.journal W.counts w.old w.new number ask here.now result }
    ensures left { LeavesNone W.journal w.old w.new number result }
    ensures cause { IfErr result (EndCause (W.counts w.old) (W.counts w.new)) }
    ensures task { ask.prepare ≡ false → StartsWith ask notebook result }
    ensures kernel { IfErr result
        (KernelEnds ask notebook (W.journal w.old) (W.journal w.new)) }
    ensures output { IfOk result (λ j. output_of_job j ≡ ask.output) }
    ensures fresh { IfOk result (λ j. outcome_of j ≡ None) }
    ensures pings { IfOk result (λ j. pings_kernel j ≡ ask.heartbeat) }
    ensures ports { IfOk result (λ j. HasPorts number (ports_of_job j) (W.journal w.new)) }
    ensures stands { (p : Plot) → Told (W.journal w.old) (W.journal w.new) (λ before after.
        IsToBeginWith p number ask notebook before → StartsOrEnds p result after) }
    ensures spoken { IfOk result (λ j. Told (W.journal w.old) (W.journal w.new)
        (HasSession number ask.output j)) }
{
    laws::other_calls_pass();
    jobs_end_unsaved();
    causes_stay();
    let Ok(cells) = plan(alloc, &notebook) else {
        return Err(End::NoMemory);
    };
    if cells.len() == 0 {
        let saved = save_twice(alloc, w, &ask, notebook);
        return Err(end_of(saved));
    }
    match kernel_of(alloc, w, &ask, &notebook) {
        Ok(kernel) => {
            let agenda = Agenda { notebook, cells };
            Job::start(alloc, w, number, ask, agenda, &kernel, here)
        }
        Err(end) => Err(end),
    }
}

/// The kernel of a job, or how the job ends where there is none.
fn kernel_of<W: Disk>(
    alloc: Global,
    w: &mut W,
    ask: &Ask,
    notebook: &Notebook,
) -> Result<Kernel, End>
    ensures found { IfSome (W.journal w.old) (λ past. IsNotebookOf ask.now past notebook.now) →
        IfOk result (λ kernel.
        IfSome (W.journal w.new) (λ past. IsKernelOf ask.now past kernel)) }
    ensures kernel { IfErr result
        (KernelEnds ask.now notebook.now (W.journal w.old) (W.journal w.new)) }
    ensures others { (path : List ℕ) →
        Told (W.journal w.old) (W.journal w.new) (Since (Spares path)) }
    ensures part { Told (W.journal w.old) (W.journal w.new) (Since (IsOf OnDisk)) }
    ensures calls { (c : Cast) (number : ℕ) → c.job number ≡ Some ask.now →
        IfSome (W.journal w.old) (λ past. IsNotebookOf ask.now past notebook.now) →
        Told (W.journal w.old) (W.journal w.new) (Since (IsCall c)) }
    ensures work { CountsWork (W.counts w.old) (W.counts w.new) }
    ensures cause { IfErr result (EndCause (W.counts w.old) (W.counts w.new)) }
    ensures unsaved { IfErr result IsOpen }
    ensures uncaused { IfErr result (λ end. IsUncaused (status_of end)) }
{
    found_or_end(Kernel::find(alloc, w, ask, notebook))
}

/// The kernel that was found, or how its job ends.
fn found_or_end(found: Result<Kernel, KernelFault>) -> Result<Kernel, End>
    ensures found { IfOk result (λ kernel. found ≡ Ok kernel) }
    ensures fault { IfErr result (λ end.
        (f : faults.KernelFault) × (found ≡ Err f) × (end ≡ end_for f)) }
    ensures cause { (old new : Counts) → (IsNotRead found → Rose old.disk new.disk) →
        IfErr result (EndCause old new) }
    ensures unsaved { IfErr result IsOpen }
    ensures uncaused { IfErr result (λ end. IsUncaused (status_of end)) }
{
    match found {
        Ok(kernel) => Ok(kernel),
        Err(KernelFault::NoName) => Err(End::NoKernelName),
        Err(KernelFault::BadName) => Err(End::BadKernelName),
        Err(KernelFault::NotRead { path }) => Err(End::NotRead { path }),
        Err(KernelFault::BadSpec(fault)) => Err(End::BadSpec(fault)),
        Err(KernelFault::NoMemory) => Err(End::NoMemory),
    }
}
