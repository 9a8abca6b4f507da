//! Nothing is got on a connection that is refused.
ghost use Rattle.std.specs.Prelude.{ℕ, Bool, false, List, Option, Result};
ghost use Rattle.world.specs.declared.chan.Chan as chan;
ghost use Rattle.world.specs.declared.entry.Entry.{Entry};
ghost use Rattle.world.specs.Moments.{Since};
ghost use Rattle.job_saves.specs.Calls.{Cast, IsCall};
ghost use Rattle.ready_loop.specs.declared.fault.LoopFault as fault;
ghost use Rattle.ready_loop.specs.declared.readiness.Loop.{Loop};
ghost use Rattle.ready_loop.specs.Begins.{Begins, CloseMoment};
ghost use Rattle.ready_loop.specs.History.{History};
ghost use Rattle.ready_loop.specs.Offers.{JobMoment, OfferMoment};
ghost use Rattle.ready_loop.specs.Reads.{ReadMoment};
ghost use Rattle.ready_loop.specs.Standing.{AllShut, StandsFor};
ghost use Rattle.ready_loop.specs.Waits.{Looked, Turned};
ghost use Rattle.other_jobs.specs.Refused.{RefusedUnread};

/// Where each connection was closed none is refused. Later too nothing was got on a connection that
/// is refused. That stays so over each call of a job or of the loop.
pub fn refused_connections_are_unread()
    ensures at_first { (past : List Entry) → AllShut past → RefusedUnread past }
    ensures calls { (c : Cast) (before now : List Entry) → Since (IsCall c) before now →
        RefusedUnread before → RefusedUnread now }
    ensures begins { (job : ℕ) (ports : List ℕ) (chans : List chan.Chan)
        (result : Result (Unit {0}) fault.LoopFault) (before now : List Entry) →
        Begins job ports chans result before now → RefusedUnread before → RefusedUnread now }
    ensures closes { (h : History) (before now : List Entry) → Since (CloseMoment h) before now →
        RefusedUnread before → RefusedUnread now }
    ensures offers { (h : History) (before now : List Entry) →
        Since (OfferMoment false h) before now → RefusedUnread before → RefusedUnread now }
    ensures job { (job : ℕ) (h : History) (before now : List Entry) →
        Since (JobMoment job h) before now → RefusedUnread before → RefusedUnread now }
    ensures reads { (l : Loop) (h : History) (before now : List Entry) → StandsFor l h before →
        Since (ReadMoment h) before now → RefusedUnread before → RefusedUnread now }
    ensures turns { (due : Option ℕ) (result : Result ℕ fault.LoopFault) (last : ℕ)
        (old new : Loop) (h : History) (before now : List Entry) → StandsFor old h before →
        Turned due result last old new before now → RefusedUnread before → RefusedUnread now }
    ensures looks { (jobs : List Bool) (result : Result (List Bool) fault.LoopFault) (last : ℕ)
        (old new : Loop) (h : History) (before now : List Entry) → StandsFor old h before →
        Looked jobs result last old new before now → RefusedUnread before → RefusedUnread now }
{}
