//! What comes for a request, by positions, and that its order between connections is free.
ghost use Rattle.std.specs.Prelude.{◌≡◌, ℕ, List, Some, slice_get};
ghost use Rattle.world.specs.declared.entry.Entry.{Entry};
ghost use Rattle.run_journal.specs.Job.{Job};
ghost use Rattle.run_journal.specs.Requests.{Request, requests};
ghost use Rattle.run_journal.specs.Why.{why};
ghost use Rattle.run_journal.specs.Saves.{saves_by};
ghost use Rattle.run_journal.specs.Decoding.{IsDecoding};
ghost use Rattle.run_journal.specs.Literal.{Literally};
ghost use Rattle.run_journal.specs.Order.{AnswersInTurn, SameBytes};

/// Each request has what arrived with its parent at positions after the one at which it came to
/// stand.
pub fn requests_by_positions()
    ensures { (j : Job) (past : List Entry) (i : ℕ) (r : Request) →
        slice_get (requests j past) i ≡ Some r → Literally j i past r }
{}

/// Where a kernel sends the same bytes for the same requests, however they are cut and ordered
/// between its connections, a job that ends by itself makes the same saves, for the same cause.
pub fn order_is_free()
    ensures { (j : Job) → IsDecoding j.codec → (one two : List Entry) → AnswersInTurn j one →
        AnswersInTurn j two → SameBytes j one two →
        (saves_by j one ≡ saves_by j two) × (why j one ≡ why j two) }
{}
