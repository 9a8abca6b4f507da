//! Entries of the loop, each by itself.
ghost use Rattle.std.specs.Prelude.{◌≡◌, ℕ, false, List, ◌∷◌, None};
ghost use Rattle.world.specs.declared.entry.Entry.{Entry};
ghost use Rattle.world.specs.Moments.{Since};
ghost use Rattle.world.specs.Waits.{moment_of};
ghost use Rattle.save_course.specs.Course.{IsRested};
ghost use Rattle.ready_loop.specs.Begins.{CloseMoment};
ghost use Rattle.ready_loop.specs.History.{History};
ghost use Rattle.ready_loop.specs.Standing.{IsLoopEntry, IsOfLoop};
ghost use Rattle.run_journal.specs.Job.{Job};
ghost use Rattle.run_journal.specs.Agreement.{is_got};
ghost use Rattle.run_journal.specs.Parts.{begins};
ghost use Rattle.job_journal.specs.Quiet.{IsQuiet, IsQuietNow};

/// An entry of the loop is quiet for a job, but for the clock, bytes that were got for the job, and
/// connects of its own. Closes are quiet. No rename waits after any entry of the loop.
pub fn loop_entries_are_quiet()
    ensures quiet { (j : Job) (entry : Entry) (past : List Entry) → IsLoopEntry entry →
        moment_of entry ≡ None → is_got j entry ≡ false → begins j entry ≡ false →
        IsQuiet j entry past }
    ensures rested { (output : List ℕ) (before now : List Entry) → Since IsOfLoop before now →
        IsRested output before → IsRested output now }
    ensures closes { (j : Job) (h : History) (before now : List Entry) →
        Since (CloseMoment h) before now → Since (IsQuietNow j) before now }
{}
