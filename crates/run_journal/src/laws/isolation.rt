//! What is said of a job is said by its own entries, whatever other jobs do.
ghost use Rattle.std.specs.Prelude.{◌≡◌, false, List, ◌∷◌};
ghost use Rattle.world.specs.declared.entry.Entry.{Entry};
ghost use Rattle.run_journal.specs.Job.{Job};
ghost use Rattle.run_journal.specs.Parts.{saves_of, before_shut};
ghost use Rattle.run_journal.specs.OfJob.{is_of, of_job};
ghost use Rattle.run_journal.specs.Requests.{requests};
ghost use Rattle.run_journal.specs.Why.{why};
ghost use Rattle.run_journal.specs.Saves.{saves};
ghost use Rattle.run_journal.specs.Ends.{end_alone, status_of};

/// A job's requests, saves, cause of a stop, end and status are those of its own entries, in every
/// journal.
pub fn own_entries_tell()
    ensures requests { (j : Job) (past : List Entry) →
        requests j (of_job j past) ≡ requests j past }
    ensures saves { (j : Job) (past : List Entry) → saves j (of_job j past) ≡ saves j past }
    ensures acked { (j : Job) (past : List Entry) → saves_of j (of_job j past) ≡ saves_of j past }
    ensures why { (j : Job) (past : List Entry) →
        why j (before_shut j (of_job j past)) ≡ why j (before_shut j past) }
    ensures end { (j : Job) (past : List Entry) →
        end_alone j (of_job j past) ≡ end_alone j past }
    ensures status { (j : Job) (past : List Entry) →
        status_of j (of_job j past) ≡ status_of j past }
{}

/// An entry of another job changes none of these.
pub fn foreign_entries_change_nothing()
    ensures requests { (j : Job) (entry : Entry) (past : List Entry) →
        is_of j entry past ≡ false → requests j (entry ∷ past) ≡ requests j past }
    ensures saves { (j : Job) (entry : Entry) (past : List Entry) →
        is_of j entry past ≡ false → saves j (entry ∷ past) ≡ saves j past }
    ensures acked { (j : Job) (entry : Entry) (past : List Entry) →
        is_of j entry past ≡ false → saves_of j (entry ∷ past) ≡ saves_of j past }
    ensures why { (j : Job) (entry : Entry) (past : List Entry) →
        is_of j entry past ≡ false →
        why j (before_shut j (entry ∷ past)) ≡ why j (before_shut j past) }
    ensures end { (j : Job) (entry : Entry) (past : List Entry) →
        is_of j entry past ≡ false → end_alone j (entry ∷ past) ≡ end_alone j past }
{}
