//! What a turn and a last look of the loop bring.
ghost use Rattle.std.specs.Prelude.{◌<◌, ℕ, List, Bool, Option, Result};
ghost use Rattle.world.specs.declared.entry.Entry.{Entry};
ghost use Rattle.world.specs.Moments.{Since};
ghost use Rattle.ready_loop.specs.declared.fault.LoopFault as fault;
ghost use Rattle.ready_loop.specs.declared.readiness.Loop.{Loop};
ghost use Rattle.ready_loop.specs.History.{History};
ghost use Rattle.ready_loop.specs.Standing.{StandsFor};
ghost use Rattle.ready_loop.specs.Waits.{Looked, Turned};
ghost use Rattle.run_journal.specs.Job.{Job};
ghost use Rattle.job_journal.specs.Quiet.{IsQuietNow};
ghost use Rattle.other_jobs.specs.Refused.{RefusedUnread};
ghost use Rattle.other_jobs.specs.Turns.{TurnBrings};

/// A turn brings each job the one moment that it gives, and nothing else.
pub fn turns_bring_one_moment()
    ensures { (due : Option ℕ) (result : Result ℕ fault.LoopFault) (last : ℕ) (old new : Loop)
        (h : History) (before after : List Entry) → StandsFor old h before →
        Turned due result last old new before after → TurnBrings result before after }
{}

/// A last look brings nothing to any job, where nothing was got on the refused connections.
pub fn looks_bring_nothing()
    ensures { (j : Job) (jobs : List Bool) (result : Result (List Bool) fault.LoopFault)
        (last : ℕ) (old new : Loop) (h : History) (before after : List Entry) →
        j.number < 16 → StandsFor old h before →
        Looked jobs result last old new before after → RefusedUnread before →
        Since (IsQuietNow j) before after }
{}
