//! How a job ends that stops: what its requests tell of the cause, and what was saved.
ghost use Rattle.std.specs.Prelude.{◌≡◌, ◌≤◌, ℕ, false, List, [], Some};
ghost use Rattle.world.specs.declared.entry.Entry.{Entry};
ghost use Rattle.world.specs.Moments.{Since};
ghost use Rattle.world.specs.Places.{time};
ghost use Rattle.save_disk.specs.Entries.{SaveOf};
ghost use Rattle.progress_save.specs.Saved.{done};
ghost use Rattle.cell_core.specs.declared.act.Act.TheVariants.{Stop};
ghost use Rattle.cell_core.specs.declared.event.Event.{Event};
ghost use Rattle.cell_core.specs.declared.event.Event.TheVariants.{Saved};
ghost use Rattle.cell_core.specs.declared.why.Why.{Why};
ghost use Rattle.cell_core.specs.Acts.{act_of};
ghost use Rattle.cell_core.specs.Events as events;
ghost use Rattle.cell_core.specs.Saves.{why};
ghost use Rattle.job_end.specs.declared.answer.Answer.{Answer};
ghost use Rattle.run_journal.specs.Agreement.{Agrees, ClocksBy, IsOther};
ghost use Rattle.run_journal.specs.Job.{Job};
ghost use Rattle.run_journal.specs.Requests.{requests, used_of};
ghost use Rattle.job_journal.specs.Ended.{HasAnswered, HasStoppedFor, IsTimeOver};
ghost use Rattle.job_journal.specs.Plot.{Plot, facts};
ghost use Rattle.job_journal.specs.Quiet.{IsQuietNow};
ghost use Rattle.job_journal.specs.Saved.{IsAsked, save_of};
ghost use Rattle.job_journal.specs.Standing.{Parts, StandsBy};

/// A core stops at an entry of the clock, a look, a loss or a broken stream, or where the save that
/// it had asked for is acknowledged. Its job has stopped for the core's cause then.
pub fn jobs_stop()
    ensures other { (p : Plot) (number : ℕ) (x : Parts) (now : List Entry) →
        (s : StandsBy p number x [] [] now) → (e : Event) (cause : Why) → IsOther e →
        act_of (facts p).task e s.core.told ≡ Stop cause → HasStoppedFor p cause now }
    ensures saved { (p : Plot) (number : ℕ) (x : Parts) (past : List Entry) →
        (s : StandsBy p number x [] [] past) → (settled : ℕ) →
        (asked : IsAsked (facts p).task s.core.told settled) → (text : List ℕ) →
        text ≡ (save_of (facts p) (used_of (facts p).task.plan (requests (facts p) past))
        asked.asked).text → (now : List Entry) → SaveOf (facts p).output text done past now →
        (cause : Why) → act_of (facts p).task Saved s.core.told ≡ Stop cause →
        HasStoppedFor p cause now }
{}

/// A look stops a core for a time that is over by the clock that the core knows. Where that clock is
/// neither behind the journal's nor ahead of it, the time is over by the journal's.
pub fn times_are_over()
    ensures { (j : Job) (told : List Event) (now : List Entry) → j.task.times.interrupt ≡ false →
        Agrees j told now → ClocksBy (λ m n. n ≤ m) j told now → events.Rising told →
        events.time told ≤ time now → (cause : Why) → why j.task told ≡ Some cause →
        IsTimeOver j cause now }
{}

/// Quiet entries change nothing of how a job has stopped, nor of what its answer says.
pub fn ended_jobs_stay()
    ensures stopped { (p : Plot) (cause : Why) (before now : List Entry) →
        (facts p).task.times.interrupt ≡ false → Since (IsQuietNow (facts p)) before now →
        HasStoppedFor p cause before → HasStoppedFor p cause now }
    ensures answered { (p : Plot) (a : Answer) (before now : List Entry) →
        (facts p).task.times.interrupt ≡ false → Since (IsQuietNow (facts p)) before now →
        HasAnswered p a before → HasAnswered p a now }
{}
