//! Jobs that have ended while others go on.
ghost use Rattle.std.specs.Prelude.{◌≡◌, ℕ, false, List, ◌∷◌, Option, Result};
ghost use Rattle.world.specs.declared.entry.Entry.{Entry};
ghost use Rattle.world.specs.declared.entry.Entry.TheVariants.{Moment};
ghost use Rattle.world.specs.Moments.{Since};
ghost use Rattle.save_course.specs.Course.{IsRested};
ghost use Rattle.job_end.specs.declared.answer.Answer as answer;
ghost use Rattle.job_saves.specs.Calls.{Cast, IsCall};
ghost use Rattle.ready_loop.specs.declared.fault.LoopFault as fault;
ghost use Rattle.ready_loop.specs.declared.readiness.Loop.{Loop};
ghost use Rattle.ready_loop.specs.History.{History};
ghost use Rattle.ready_loop.specs.Standing.{StandsFor};
ghost use Rattle.ready_loop.specs.Waits.{Turned};
ghost use Rattle.job_journal.specs.Ended.{HasAnswered};
ghost use Rattle.job_journal.specs.Plot.{Plot, facts};
ghost use Rattle.other_jobs.specs.Elsewhere.{SavesElsewhere};

/// A job that has ended stays so, with its answer, over entries of the clock and over the turns of
/// the loop. It stays so over the calls of jobs that save elsewhere, which may read the clock.
pub fn ended_jobs_stay_ended()
    ensures clock { (p : Plot) (a : answer.Answer) (ms : ℕ) (past : List Entry) →
        (facts p).task.times.interrupt ≡ false → HasAnswered p a past →
        HasAnswered p a (Moment ms ∷ past) }
    ensures turns { (p : Plot) (a : answer.Answer) (due : Option ℕ)
        (result : Result ℕ fault.LoopFault) (last : ℕ) (old new : Loop) (h : History)
        (before now : List Entry) → (facts p).task.times.interrupt ≡ false →
        StandsFor old h before → Turned due result last old new before now →
        HasAnswered p a before → HasAnswered p a now }
    ensures calls { (p : Plot) (a : answer.Answer) (c : Cast) (before now : List Entry) →
        (facts p).task.times.interrupt ≡ false → SavesElsewhere c (facts p).output →
        Since (IsCall c) before now → IsRested (facts p).output before →
        HasAnswered p a before → HasAnswered p a now }
{}
