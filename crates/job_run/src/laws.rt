//! What a job stands for goes on with the journal.
ghost use Rattle.std.specs.Prelude.{◌≡◌, ◌≤◌, ◌∷◌, ℕ, true, List};
ghost use Rattle.world.specs.declared.entry.Entry.{Entry};
ghost use Rattle.world.specs.declared.entry.Entry.TheVariants.{Moment};
ghost use Rattle.world.specs.Moments.{Since};
ghost use Rattle.world.specs.Places.{time};
ghost use Rattle.job_journal.specs.Plot.{Plot, facts};
ghost use Rattle.job_journal.specs.Quiet.{IsQuietNow, is_unread};
ghost use Rattle.job_journal.specs.Standing.{HasEndedAs};
ghost use Rattle.job_run.specs.declared.job.Job as job;
ghost use Rattle.job_run.specs.JobStanding.{JobStands, JobStandsUntold};

/// Entries that are quiet for a job change nothing of what it stands for.
pub fn jobs_stay_where_it_is_quiet()
    ensures stands { (p : Plot) (j : job.Job) (before now : List Entry) →
        Since (IsQuietNow (facts p)) before now → JobStands p j before → JobStands p j now }
    ensures untold { (p : Plot) (j : job.Job) (before now : List Entry) →
        Since (IsQuietNow (facts p)) before now → JobStandsUntold p j before →
        JobStandsUntold p j now }
{}

/// A job that stands for the journal also does where its clock is left open, and the texts that
/// were saved by then are the first of the saves that are due.
pub fn jobs_stand()
    ensures untold { (p : Plot) (j : job.Job) (now : List Entry) → JobStands p j now →
        JobStandsUntold p j now }
    ensures saved { (p : Plot) (j : job.Job) (now : List Entry) → JobStandsUntold p j now →
        HasEndedAs p now }
{}

/// A clock entry before any byte was got for a job changes nothing but the clock, which the job may
/// be told later.
pub fn clocks_are_told_later()
    ensures { (p : Plot) (j : job.Job) (ms : ℕ) (past : List Entry) →
        is_unread (facts p) past ≡ true → time past ≤ ms → JobStandsUntold p j past →
        JobStandsUntold p j (Moment ms ∷ past) }
{}
