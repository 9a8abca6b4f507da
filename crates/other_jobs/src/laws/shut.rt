//! Jobs without a connection: those that have not begun, and those that have ended.
ghost use Rattle.std.specs.Prelude.{◌≡◌, ◌<◌, ℕ, Bool, false, List};
ghost use Rattle.world.specs.declared.chan.Chan as chan;
ghost use Rattle.world.specs.declared.entry.Entry.{Entry};
ghost use Rattle.world.specs.Moments.{Since};
ghost use Rattle.ready_loop.specs.declared.readiness.Loop.{Loop};
ghost use Rattle.ready_loop.specs.History.{History};
ghost use Rattle.ready_loop.specs.Offers.{JobMoment, LookMoment, OfferMoment};
ghost use Rattle.ready_loop.specs.Reads.{ReadMoment};
ghost use Rattle.ready_loop.specs.Standing.{StandsFor};
ghost use Rattle.ready_loop.specs.States.{begun_at};
ghost use Rattle.run_journal.specs.Job.{Job};
ghost use Rattle.run_journal.specs.Parts.{place};
ghost use Rattle.job_journal.specs.Quiet.{IsQuietNow};

/// Where the loop has begun no connection of a job, or has closed each, what it reads and offers is
/// quiet for the job: the job gets no byte.
pub fn jobs_without_connections_are_left_alone()
    ensures reads { (j : Job) (l : Loop) (h : History) (before now : List Entry) →
        j.number < 16 → StandsFor l h before →
        ((c : chan.Chan) → begun_at l (place j c) ≡ false) →
        Since (ReadMoment h) before now → Since (IsQuietNow j) before now }
    ensures offers { (j : Job) (l : Loop) (h : History) (before now : List Entry) →
        j.number < 16 → StandsFor l h before →
        ((c : chan.Chan) → begun_at l (place j c) ≡ false) →
        Since (OfferMoment false h) before now → Since (IsQuietNow j) before now }
    ensures job { (j : Job) (l : Loop) (job : ℕ) (h : History) (before now : List Entry) →
        j.number < 16 → StandsFor l h before →
        ((c : chan.Chan) → begun_at l (place j c) ≡ false) →
        Since (JobMoment job h) before now → Since (IsQuietNow j) before now }
    ensures looks { (j : Job) (l : Loop) (jobs : List Bool) (h : History)
        (before now : List Entry) → j.number < 16 → StandsFor l h before →
        ((c : chan.Chan) → begun_at l (place j c) ≡ false) →
        Since (LookMoment jobs h) before now → Since (IsQuietNow j) before now }
{}
