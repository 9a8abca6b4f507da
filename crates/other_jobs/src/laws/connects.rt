//! Connects that the loop makes: first ones, and those of connections that were refused.
ghost use Rattle.std.specs.Prelude.{◌≡◌, ◌<◌, ℕ, Bool, true, false, List, Result};
ghost use Rattle.world.specs.declared.chan.Chan as chan;
ghost use Rattle.world.specs.declared.entry.Entry.{Entry};
ghost use Rattle.world.specs.Moments.{Since};
ghost use Rattle.ready_loop.specs.declared.fault.LoopFault as fault;
ghost use Rattle.ready_loop.specs.Begins.{Begins};
ghost use Rattle.ready_loop.specs.History.{History};
ghost use Rattle.ready_loop.specs.Offers.{JobMoment, LookMoment, OfferMoment};
ghost use Rattle.run_journal.specs.Job.{Job};
ghost use Rattle.job_journal.specs.Quiet.{IsQuietNow, is_unread};
ghost use Rattle.other_jobs.specs.Refused.{RefusedUnread};

/// The first connects of another job are quiet for a job, and so are its own before any byte was
/// got for it.
pub fn first_connects_are_quiet()
    ensures { (j : Job) (job : ℕ) (ports : List ℕ) (chans : List chan.Chan)
        (result : Result (Unit {0}) fault.LoopFault) (before after : List Entry) →
        Begins job ports chans result before after →
        (job ≡ j.number → is_unread j before ≡ true) → Since (IsQuietNow j) before after }
{}

/// What the loop offers is quiet for each job, where nothing was got on the connections that are
/// refused.
pub fn offers_are_quiet()
    ensures all { (j : Job) (h : History) (before after : List Entry) → j.number < 16 →
        RefusedUnread before → Since (OfferMoment false h) before after →
        Since (IsQuietNow j) before after }
    ensures job { (j : Job) (job : ℕ) (h : History) (before after : List Entry) →
        j.number < 16 → RefusedUnread before → Since (JobMoment job h) before after →
        Since (IsQuietNow j) before after }
    ensures looks { (j : Job) (jobs : List Bool) (h : History) (before after : List Entry) →
        j.number < 16 → RefusedUnread before →
        Since (LookMoment jobs h) before after → Since (IsQuietNow j) before after }
{}
