//! How a job has ended.
ghost use Rattle.std.specs.Prelude.{◌≡◌, ◌==◌, ℕ, List, true, false, is_some, None, Ok, Err, IfOk, IfErr, IfSome, OnOk};
ghost use Rattle.cell_core.specs.StandsFor.{task_of};
ghost use Rattle.cell_core.specs.Task.{Task};
ghost use Rattle.job_saves.specs.Course.{StaysOn, KeepsPart, stays_open, keeps_open};
ghost use Rattle.job_run.specs.Held.{Holds, IsCalm, AsksOnce};
ghost use Rattle.job_end.specs.declared.end.End.TheVariants as ending;
ghost use Rattle.job_end.specs.Answers.{Answers, starved_answer};
ghost use Rattle.job_run.specs.Run.{HasEnded, HasFailed, IsUnsaved, IsFileStatus, IsLost, IsSpent};
ghost use Rattle.job_run.specs.Run.{EndCause};
ghost use Rattle.kernel_start.specs.declared.connection_fault.ConnectionFault.TheVariants as file;
ghost use Rattle.kernel_start.specs.declared.launch_fault.LaunchFault.TheVariants as launch;
ghost use Rattle.world.specs.Counts.{Counts, Rose};
ghost use Rattle.job_run.specs.Told.{EndsJob, IsEnding, IsEndOfLaunch};
ghost use Rattle.job_run.specs.Counted.{IsCausedAfter, EndsJobAfter, IsCountedBy, IsCountedIn};
ghost use Rattle.job_notebook.specs.State.{output_of};
ghost use Rattle.job_saves.specs.Left.{OutputAt};

use crate::execution::Execution;
use job_end::{Answer, End};
use jtext::Text;
use kernel_start::{ConnectionFault, LaunchFault};
use std::alloc::Global;

/// How a job on this output has ended, where what was done ended it: its kernel is asked to shut down
/// where that can be said.
pub(crate) fn outcome_of(
    alloc: Global,
    output: &Text,
    run: &mut Execution,
    done: Result<(), End>,
) -> Option<Answer>
    requires holds { Holds run.old }
    requires own { IfErr done (EndsJob (task_of run.old.core)) }
    ensures holds { Holds run.new }
    ensures calm { is_some result ≡ false → OnOk done (IsCalm run.old) → IsCalm run.new }
    ensures course { StaysOn run.old.book run.new.book }
    ensures calls { KeepsPart run.old.book run.new.book }
    ensures shut { stays_open done ≡ false → HasEnded result }
    ensures fails { HasFailed result → stays_open done ≡ false }
    ensures lost { IsLost result → done ≡ Err ending.NetFault }
    ensures spent { IsSpent result → done ≡ Err ending.Spent }
    ensures task { task_of run.new.core ≡ task_of run.old.core }
    ensures terms { run.new.terms ≡ run.old.terms }
    ensures end { IfSome result (IsEnding output.now (task_of run.new.core)) }
    ensures once { AsksOnce run.old run.new }
    ensures counts { (n : OutputAt) → IsCountedBy run.old done n → IsCountedIn result run.new n }
    ensures saves { output_of run.new.book ≡ output_of run.old.book }
    // It ends just where what was done ended it; else the execution is as it was.
    ensures goes { IfOk done (λ u. (run.new ≡ run.old) × (result ≡ None)) }
    ensures ends { IfErr done (λ e. is_some result ≡ true) }
    // The answer is that of the end, unless memory was wanted for it.
    ensures answers { IfErr done (λ e. IfSome result (Answers output.now e)) }
{
    match done {
        Ok(()) => None,
        Err(end) => Some(farewell(alloc, output, run, &end)),
    }
}

/// How a job has ended that ends so: its kernel is asked to shut down where that can be said.
fn farewell(alloc: Global, output: &Text, run: &mut Execution, end: &End) -> Answer
    requires holds { Holds run.old }
    requires own { EndsJob (task_of run.old.core) end.now }
    ensures holds { Holds run.new }
    ensures course { StaysOn run.old.book run.new.book }
    ensures calls { KeepsPart run.old.book run.new.book }
    ensures shut { keeps_open end.now ≡ false → IsUnsaved result.status }
    ensures fails { IsFileStatus result.status → keeps_open end.now ≡ false }
    ensures lost { result.status ≡ 14 → end.now ≡ ending.NetFault }
    ensures spent { result.status ≡ 16 → end.now ≡ ending.Spent }
    ensures task { task_of run.new.core ≡ task_of run.old.core }
    ensures terms { run.new.terms ≡ run.old.terms }
    ensures end { IsEnding output.now (task_of run.new.core) result }
    ensures answers { Answers output.now end.now result }
    ensures once { AsksOnce run.old run.new }
    ensures counts { (n : OutputAt) → EndsJobAfter n (task_of run.old.core) end.now →
        IsCausedAfter n (task_of run.old.core) result.status }
    ensures saves { output_of run.new.book ≡ output_of run.old.book }
{
    let answer = answer_for(alloc, output, end);
    if !is_starved(&answer) && run.shut_down().is_err() {
        return memory_answer(alloc);
    }
    answer
}

/// Whether a job has ended for want of memory.
pub(crate) fn is_starved(answer: &Answer) -> bool
    ensures { result ≡ (answer.now.status == 12) }
{
    answer.status == 12
}

fn memory_answer(alloc: Global) -> Answer
    ensures is { result ≡ starved_answer }
    ensures shut { IsUnsaved result.status }
    ensures fails { IsFileStatus result.status → ⊥ }
    ensures lost { result.status ≡ 14 → ⊥ }
    ensures spent { result.status ≡ 16 → ⊥ }
    ensures counts { (n : OutputAt) (task : Task) → IsCausedAfter n task result.status }
    ensures end { (output : List ℕ) (task : Task) → IsEnding output task result }
{
    Answer::starved(alloc)
}

fn answer_for(alloc: Global, output: &Text, end: &End) -> Answer
    ensures answers { Answers output.now end.now result }
    ensures shut { keeps_open end.now ≡ false → IsUnsaved result.status }
    ensures fails { (task : Task) → EndsJob task end.now → IsFileStatus result.status →
        keeps_open end.now ≡ false }
    ensures lost { result.status ≡ 14 → end.now ≡ ending.NetFault }
    ensures spent { result.status ≡ 16 → end.now ≡ ending.Spent }
    ensures counts { (n : OutputAt) (task : Task) → EndsJobAfter n task end.now →
        IsCausedAfter n task result.status }
    ensures end { (task : Task) → EndsJob task end.now → IsEnding output.now task result }
{
    end.answer(alloc, output)
}

/// How a start goes on whose connection file was to be written.
pub(crate) fn end_of_file(written: Result<(), ConnectionFault>) -> Result<(), End>
    ensures done { IfOk result (λ u. written ≡ Ok u) }
    ensures saved { stays_open result ≡ true }
    ensures cause { (old new : Counts) → (written ≡ Err file.Failed → Rose old.disk new.disk) →
        IfErr result (EndCause old new) }
    ensures own { IfErr result IsEndOfLaunch }
{
    match written {
        Ok(()) => Ok(()),
        Err(ConnectionFault::Failed) => Err(End::NoConnectionFile),
        Err(ConnectionFault::NoMemory) => Err(End::NoMemory),
    }
}

/// How a start goes on whose child was to be started.
pub(crate) fn end_of_start(started: Result<(), LaunchFault>) -> Result<(), End>
    ensures saved { stays_open result ≡ true }
    ensures cause { (old new : Counts) → (started ≡ Err launch.Failed → Rose old.child new.child) →
        IfErr result (EndCause old new) }
    ensures own { IfErr result IsEndOfLaunch }
{
    match started {
        Ok(()) => Ok(()),
        Err(LaunchFault::Failed) => Err(End::NotStarted),
        Err(LaunchFault::NoMemory) => Err(End::NoMemory),
    }
}
