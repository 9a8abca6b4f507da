//! Jobs that wait while entries come that bring them nothing.
ghost use Rattle.std.specs.Prelude.{◌≡◌, ◌≤◌, true, List};
ghost use Rattle.world.specs.declared.entry.Entry.{Entry};
ghost use Rattle.world.specs.Moments.{Since};
ghost use Rattle.world.specs.Parts.{IsNotOf, OnClock};
ghost use Rattle.world.specs.Places.{time};
ghost use Rattle.save_course.specs.Course.{IsRested};
ghost use Rattle.job_end.specs.declared.answer.Answer as answer;
ghost use Rattle.job_saves.specs.Calls.{Cast, IsCall};
ghost use Rattle.job_journal.specs.Plot.{Plot, facts};
ghost use Rattle.job_journal.specs.Quiet.{IsQuietNow};
ghost use Rattle.job_run.specs.declared.job.Job as job;
ghost use Rattle.job_run.specs.Beginning.{IsFresh};
ghost use Rattle.other_jobs.specs.Elsewhere.{SavesElsewhere};
ghost use Rattle.job_turns.specs.OwedTo.{OwedTo, StandsEnded, StandsOwed, first_clock, may_wait};

/// Entries that are quiet for a job change nothing of what it stands for, unless a piece is still
/// to be told to it. Nor do they before its begin and after its end.
pub fn jobs_wait()
    ensures stands { (o : OwedTo) (p : Plot) (j : job.Job) (before now : List Entry) →
        may_wait o ≡ true → Since (IsQuietNow (facts p)) before now → StandsOwed o p j before →
        StandsOwed o p j now }
    ensures ended { (p : Plot) (a : answer.Answer) (before now : List Entry) →
        Since (IsQuietNow (facts p)) before now → StandsEnded p a before → StandsEnded p a now }
    ensures fresh { (p : Plot) (before now : List Entry) →
        Since (IsQuietNow (facts p)) before now → IsFresh p before → IsFresh p now }
{}

/// Calls of jobs that save elsewhere change nothing of what a job stands for, where none is of the
/// clock. A job that is still to be told its first clock may wait for more: the others may read the
/// clock as they begin. So may a job before its begin and after its end.
pub fn jobs_wait_for_others()
    ensures stands { (o : OwedTo) (p : Plot) (j : job.Job) (c : Cast)
        (before now : List Entry) → SavesElsewhere c (facts p).output →
        Since (IsCall c) before now → IsRested (facts p).output before → may_wait o ≡ true →
        Since (IsNotOf OnClock) before now → StandsOwed o p j before → StandsOwed o p j now }
    ensures first { (p : Plot) (j : job.Job) (c : Cast) (before now : List Entry) →
        SavesElsewhere c (facts p).output → Since (IsCall c) before now →
        IsRested (facts p).output before → time before ≤ time now →
        StandsOwed first_clock p j before → StandsOwed first_clock p j now }
    ensures ended { (p : Plot) (a : answer.Answer) (c : Cast) (before now : List Entry) →
        SavesElsewhere c (facts p).output → Since (IsCall c) before now →
        IsRested (facts p).output before → StandsEnded p a before → StandsEnded p a now }
    ensures fresh { (p : Plot) (c : Cast) (before now : List Entry) →
        SavesElsewhere c (facts p).output → Since (IsCall c) before now → IsFresh p before →
        IsFresh p now }
{}
