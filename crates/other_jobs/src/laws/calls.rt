//! Calls of other jobs, which save elsewhere, and what any leave alone.
ghost use Rattle.std.specs.Prelude.{◌≡◌, ◌≢◌, ℕ, Bool, false, List, ◌∷◌};
ghost use Rattle.std.specs.Str.{bytes_eq};
ghost use Rattle.words.specs.declared.ask.Ask as ask;
ghost use Rattle.world.specs.declared.entry.Entry.{Entry};
ghost use Rattle.world.specs.Moments.{Since};
ghost use Rattle.world.specs.Parts.{IsNotOf, OnClock, part_of};
ghost use Rattle.save_course.specs.Course.{IsRested};
ghost use Rattle.job_saves.specs.Calls.{Cast, IsCall, IsCallOf};
ghost use Rattle.ready_loop.specs.declared.readiness.Loop.{Loop};
ghost use Rattle.ready_loop.specs.History.{History};
ghost use Rattle.ready_loop.specs.Standing.{StandsFor};
ghost use Rattle.run_journal.specs.Job.{Job};
ghost use Rattle.job_journal.specs.Quiet.{IsQuiet, IsQuietNow};
ghost use Rattle.other_jobs.specs.Elsewhere.{SavesElsewhere};

/// A call of a job that saves elsewhere is quiet, where it isn't of the clock, and where no rename
/// onto the output waits for the sync of its folder. None waits after any such call.
pub fn calls_elsewhere_are_quiet()
    ensures quiet { (j : Job) (here : List ℕ) (starts clean : Bool) (number : ℕ) (a : ask.Ask)
        (entry : Entry) (past : List Entry) → bytes_eq a.output j.output ≡ false →
        IsCallOf here starts clean number a past entry → part_of entry ≢ OnClock →
        IsRested j.output past → IsQuiet j entry past }
    ensures rested { (output here : List ℕ) (starts clean : Bool) (number : ℕ) (a : ask.Ask)
        (entry : Entry) (past : List Entry) → bytes_eq a.output output ≡ false →
        IsCallOf here starts clean number a past entry → IsRested output (entry ∷ past) }
{}

/// All calls of a cast are quiet whose jobs save elsewhere, where none is of the clock.
pub fn casts_elsewhere_are_quiet()
    ensures quiet { (j : Job) (c : Cast) (before now : List Entry) → SavesElsewhere c j.output →
        Since (IsCall c) before now → Since (IsNotOf OnClock) before now →
        IsRested j.output before → Since (IsQuietNow j) before now }
    ensures rested { (output : List ℕ) (c : Cast) (before now : List Entry) →
        SavesElsewhere c output → Since (IsCall c) before now → IsRested output before →
        IsRested output now }
{}

/// The calls of jobs leave the loop alone: it stands for the journal after them as before.
pub fn calls_leave_the_loop()
    ensures { (l : Loop) (h : History) (c : Cast) (before now : List Entry) →
        Since (IsCall c) before now → StandsFor l h before → StandsFor l h now }
{}
