//! Where a turn's clock entry stands.
ghost use Rattle.std.specs.Prelude.{◌≡◌, true, List, ◌∷◌};
ghost use Rattle.world.specs.declared.entry.Entry.{Entry};
ghost use Rattle.world.specs.Waits.{turn_moment};
ghost use Rattle.run_journal.specs.Job.{Job};
ghost use Rattle.run_journal.specs.Parts.{turn_clock};
ghost use Rattle.run_journal.specs.Awake.{reads_clock};

/// Where the clock is read as the loop's rule has it, a clock entry that some wait precedes stands
/// directly after one.
pub fn turns_follow_waits()
    ensures { (jobs : List Job) (entry : Entry) (past : List Entry) →
        reads_clock jobs (entry ∷ past) ≡ true →
        turn_clock (entry ∷ past) ≡ turn_moment (entry ∷ past) }
{}
