//! Jobs that have begun, that are told something without a call of the world, and that end.
ghost use Rattle.std.specs.Prelude.{◌≡◌, ◌≢◌, true, List};
ghost use Rattle.world.specs.declared.entry.Entry.{Entry};
ghost use Rattle.job_end.specs.declared.answer.Answer as answer;
ghost use Rattle.job_journal.specs.Plot.{Plot, facts};
ghost use Rattle.job_journal.specs.Quiet.{is_unread};
ghost use Rattle.job_run.specs.declared.job.Job as job;
ghost use Rattle.job_run.specs.JobStanding.{JobStands, KeepsStanding};
ghost use Rattle.job_turns.specs.OwedTo.{IsLeftWith, OwedTo, StandsEnded, StandsOwed};
ghost use Rattle.job_turns.specs.OwedTo.{anything, first_clock, is_open, may_wait};

/// A job that stands for the journal, before any byte was got for it, is to be told the clock.
pub fn jobs_have_begun()
    ensures begun { (p : Plot) (j : job.Job) (now : List Entry) → JobStands p j now →
        is_unread (facts p) now ≡ true → StandsOwed first_clock p j now }
{}

/// What a job is told without a call of the world changes nothing of what it stands for, unless it
/// is to be told the clock of a turn or a piece.
pub fn jobs_change()
    ensures { (o : OwedTo) (p : Plot) (was now : job.Job) (journal : List Entry) →
        is_open o ≡ true → KeepsStanding was now → StandsOwed o p was journal →
        StandsOwed o p now journal }
{}

/// A job that stands for the journal has ended by it with the answer that it then gives. It may
/// still have to be told the clock.
pub fn jobs_end()
    ensures { (o : OwedTo) (p : Plot) (j : job.Job) (a : answer.Answer) (now : List Entry) →
        may_wait o ≡ true → o ≢ anything → IsLeftWith j a → StandsOwed o p j now →
        StandsEnded p a now }
{}
