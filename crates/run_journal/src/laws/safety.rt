//! One request at a time, and what a crash may leave at a job's output.
ghost use Rattle.std.specs.Prelude.{◌≡◌, ◌≤◌, ℕ, false, List, ◌∷◌, length};
ghost use Rattle.world.specs.declared.entry.Entry.{Entry};
ghost use Rattle.world.specs.Disk.{place};
ghost use Rattle.world.specs.Moments.{Since};
ghost use Rattle.world.specs.Parts.{OnDisk, part_of};
ghost use Rattle.zmtp_wire.specs.Meaning.{Begins};
ghost use Rattle.progress_save.specs.Safe.{IsText, IsLastOrNext, IsPlace, IsSafe};
ghost use Rattle.run_journal.specs.Job.{Job};
ghost use Rattle.run_journal.specs.Parts.{saves_of};
ghost use Rattle.run_journal.specs.OfJob.{is_of};
ghost use Rattle.run_journal.specs.Requests.{requests};
ghost use Rattle.run_journal.specs.Saves.{saves, texts};
ghost use Rattle.run_journal.specs.Grow.{ArePassed};
ghost use Rattle.run_journal.specs.Safety.{StepsSafely};

/// Each request but the last is over with a reply that isn't fatal, and no more requests stand than
/// saves are acknowledged, and than cells are to run.
pub fn one_request_at_a_time()
    ensures passed { (j : Job) (past : List Entry) → ArePassed j 0 (requests j past) }
    ensures saved { (j : Job) (past : List Entry) → length (requests j past) ≤ saves_of j past }
    ensures planned { (j : Job) (past : List Entry) →
        length (requests j past) ≤ length j.task.plan }
{}

/// An entry of the disk takes back no save that was due, whatever has stopped the job.
pub fn disk_keeps_saves()
    ensures { (j : Job) (entry : Entry) (past : List Entry) →
        part_of entry ≡ OnDisk → Begins (saves j past) (saves j (entry ∷ past)) }
{}

/// An entry of another job, as a sync of a folder, leaves a job's output as safe as it was.
pub fn foreign_entries_keep_the_output()
    ensures safe { (texts : List (List ℕ)) (count : ℕ) (j : Job) (entry : Entry)
        (past : List Entry) → is_of j entry past ≡ false →
        IsPlace (IsLastOrNext texts count) (place past j.output) →
        IsPlace (IsLastOrNext texts count) (place (entry ∷ past) j.output) }
    ensures held { (texts : List (List ℕ)) (count : ℕ) (j : Job) (entry : Entry)
        (past : List Entry) → is_of j entry past ≡ false →
        IsPlace (IsText texts count) (place past j.output) →
        IsPlace (IsText texts count) (place (entry ∷ past) j.output) }
{}

/// Where each entry kept the saves and left the output safe by those due then, it was safe at each
/// moment by the saves that are due in the end.
pub fn safe_by_the_end()
    ensures { (j : Job) (before now end : List Entry) → Since (StepsSafely j) before now →
        Begins (saves j now) (saves j end) →
        Since (IsSafe j.output (texts j end)) before now }
{}
