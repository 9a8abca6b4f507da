//! A request comes to stand by the journal where the core's act sends it, and its cell is as it was
//! read.
ghost use Rattle.std.specs.Prelude.{◌≡◌, ◌≤◌, ℕ, List, [], ◌∷◌, true, false, length, map};
ghost use Rattle.std.specs.Prelude.{Some, slice_get};
ghost use Rattle.world.specs.declared.entry.Entry.{Entry};
ghost use Rattle.nb_model.specs.declared.cell.Cell as cell;
ghost use Rattle.cell_core.specs.declared.act.Act.{Act};
ghost use Rattle.cell_core.specs.declared.act.Act.TheVariants.{Send};
ghost use Rattle.cell_core.specs.declared.event.Event.{Event};
ghost use Rattle.cell_core.specs.Acts.{act_of, has_stopped, heard};
ghost use Rattle.cell_core.specs.Task.{cell_of};
ghost use Rattle.run_journal.specs.Job.{Job};
ghost use Rattle.run_journal.specs.Arrivals.{is_ready};
ghost use Rattle.run_journal.specs.Requests.{Request, goes_on, requests, used_of};
ghost use Rattle.run_journal.specs.Agreement.{Agrees, BringsNothing};
ghost use Rattle.job_notebook.specs.declared.notebook.JobNotebook as book;
ghost use Rattle.job_notebook.specs.State.{notebook_of, settled_of};
ghost use Rattle.job_journal.specs.Plot.{Plot, facts, first};
ghost use Rattle.job_journal.specs.Starting.{IsAsRead, MayStart, StandsAnew, is_calm};
ghost use Rattle.job_journal.specs.Used.{OnBook};

use progress_save::laws::cells_of_prefixes;

/// At an acknowledgement or at readiness: a request that is sent comes to stand with the entry, and
/// the cell is its own; where the core neither sends nor saves nor stops, none comes to stand.
pub fn sent_requests_come_to_stand()
    ensures sent { (j : Job) (told : List Event) (e : Event) (entry : Entry) (past : List Entry) →
        MayStart e → has_stopped j.task (heard j.task told) ≡ false → Agrees j told past →
        Agrees j (e ∷ told) (entry ∷ past) → (cell : ℕ) → act_of j.task e told ≡ Send cell →
        StandsAnew j entry past × (cell ≡ cell_of j.task (length (requests j past))) }
    ensures calm { (j : Job) (told : List Event) (e : Event) (entry : Entry) (past : List Entry) →
        MayStart e → has_stopped j.task (heard j.task told) ≡ false → Agrees j told past →
        Agrees j (e ∷ told) (entry ∷ past) → (answer : Act) → act_of j.task e told ≡ answer →
        is_calm answer ≡ true → length (requests j (entry ∷ past)) ≡ length (requests j past) }
{}

/// Before the kernel is ready no request stands. An entry that brings no byte changes nothing of
/// what was used for the requests that stood before it.
pub fn earlier_requests_stay()
    ensures unready { (j : Job) (past : List Entry) → is_ready j past ≡ false →
        requests j past ≡ [] }
    ensures used { (j : Job) (entry : Entry) (past : List Entry) → BringsNothing j entry past →
        used_of j.task.plan (map (goes_on j entry past) (requests j past)) ≡
        used_of j.task.plan (requests j past) }
{}

/// A cell that waits in the notebook of a job has the code that is sent for its request, and the
/// tag by which its errors don't stop the run.
pub fn cells_are_as_read()
    ensures { (p : Plot) (book : book.JobNotebook) (rs : List Request) (k : ℕ) (c : cell.Cell) →
        OnBook (facts p) (first p) book rs →
        slice_get (notebook_of book).cells (cell_of (facts p).task k) ≡ Some c →
        settled_of book ≤ cell_of (facts p).task k → IsAsRead p k c }
{
    cells_of_prefixes();
}
