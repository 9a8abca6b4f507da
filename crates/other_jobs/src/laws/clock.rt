//! The clock that another job reads as it starts, before any byte was put out for the job.
ghost use Rattle.std.specs.Prelude.{◌≡◌, ℕ, false, List, [], ◌∷◌};
ghost use Rattle.world.specs.declared.chan.Chan as chan;
ghost use Rattle.world.specs.declared.chan.Chan.TheVariants.{Iopub};
ghost use Rattle.world.specs.declared.entry.Entry.{Entry};
ghost use Rattle.world.specs.declared.entry.Entry.TheVariants.{Moment};
ghost use Rattle.world.specs.Moments.{Since};
ghost use Rattle.world.specs.Places.{time};
ghost use Rattle.save_course.specs.Course.{IsRested};
ghost use Rattle.job_saves.specs.Calls.{Cast, IsCall};
ghost use Rattle.run_journal.specs.Job.{Job};
ghost use Rattle.run_journal.specs.Parts.{bytes_put};
ghost use Rattle.run_journal.specs.Arrivals.{can_ask};
ghost use Rattle.job_journal.specs.Plot.{Plot, facts};
ghost use Rattle.job_journal.specs.Standing.{Parts, StandsBy};
ghost use Rattle.job_journal.specs.Told.{was_asked};
ghost use Rattle.other_jobs.specs.Elsewhere.{SavesElsewhere};

/// Before any byte was put on IOPub the kernel can't be asked. So an entry of the clock changes
/// nothing of the parts but their clock, where the kernel wasn't asked before.
pub fn clocks_ask_nothing_at_first()
    ensures unasked { (p : Plot) (past : List Entry) → bytes_put (facts p) Iopub past ≡ [] →
        can_ask (facts p) past ≡ false }
    ensures passes { (p : Plot) (number : ℕ) (x : Parts) (past : List Entry) (ms : ℕ) →
        bytes_put (facts p) Iopub past ≡ [] → was_asked (facts p) past ≡ false →
        StandsBy p number x [] [] past →
        StandsBy p number (record x { clock = ms }) [] [] (Moment ms ∷ past) }
{}

/// Jobs that save elsewhere may read the clock before any byte was put on IOPub and the kernel was
/// asked. Over their calls the parts stand for the journal at its clock. They put no byte on any
/// connection.
pub fn other_jobs_start()
    ensures stands { (p : Plot) (number : ℕ) (x : Parts) (c : Cast) (before now : List Entry) →
        SavesElsewhere c (facts p).output → Since (IsCall c) before now →
        IsRested (facts p).output before → bytes_put (facts p) Iopub before ≡ [] →
        was_asked (facts p) before ≡ false → StandsBy p number x [] [] before →
        StandsBy p number (record x { clock = time now }) [] [] now }
    ensures put { (j : Job) (on : chan.Chan) (c : Cast) (before now : List Entry) →
        Since (IsCall c) before now → bytes_put j on now ≡ bytes_put j on before }
{}
