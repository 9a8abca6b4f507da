//! What stays as a journal grows.
ghost use Rattle.std.specs.Prelude.{◌≡◌, ◌≤◌, ◌+◌, ℕ, true, None, List, ◌∷◌, is_some};
ghost use Rattle.world.specs.declared.entry.Entry.{Entry};
ghost use Rattle.zmtp_wire.specs.Meaning.{Begins};
ghost use Rattle.run_journal.specs.Job.{Job};
ghost use Rattle.run_journal.specs.Parts.{saves_of, before_shut};
ghost use Rattle.run_journal.specs.Arrivals.{ask_state, is_ready};
ghost use Rattle.run_journal.specs.Requests.{Request, requests, is_over, own, reply, use_of};
ghost use Rattle.run_journal.specs.Why.{why};
ghost use Rattle.run_journal.specs.Saves.{saves};
ghost use Rattle.run_journal.specs.Grow.{GoesOn, GoOn};

/// A kernel that is ready stays ready, and isn't asked any more.
pub fn readiness_stays()
    ensures ready { (j : Job) (entry : Entry) (past : List Entry) →
        is_ready j past ≡ true → is_ready j (entry ∷ past) ≡ true }
    ensures asked { (j : Job) (entry : Entry) (past : List Entry) →
        is_ready j past ≡ true → (ask_state j (entry ∷ past)).ids ≡ (ask_state j past).ids }
{}

/// No acknowledged save is taken back, and one entry acknowledges at most one.
pub fn acknowledgements_stay()
    ensures { (j : Job) (entry : Entry) (past : List Entry) →
        (saves_of j past ≤ saves_of j (entry ∷ past))
        × (saves_of j (entry ∷ past) ≤ saves_of j past + 1) }
{}

/// Each request that stands keeps its number and its clock, and goes on; what is used for a request
/// that is over doesn't change.
pub fn requests_stay()
    ensures go_on { (j : Job) (entry : Entry) (past : List Entry) →
        GoOn (requests j past) (requests j (entry ∷ past)) }
    ensures over { (r s : Request) → GoesOn r s → is_over r ≡ true → is_over s ≡ true }
    ensures reply { (r s : Request) → GoesOn r s → is_some (reply r) ≡ true → reply s ≡ reply r }
    ensures used { (r s : Request) (cell : ℕ) → GoesOn r s → is_over r ≡ true →
        use_of cell s ≡ use_of cell r }
{}

/// While nothing has stopped a job, its saves only grow.
pub fn saves_grow()
    ensures { (j : Job) (entry : Entry) (past : List Entry) →
        why j (before_shut j past) ≡ None → Begins (saves j past) (saves j (entry ∷ past)) }
{}
