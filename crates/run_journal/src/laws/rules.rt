//! What follows from the rules of the loop for a job of the run.
ghost use Rattle.std.specs.Prelude.{◌≡◌, ◌<◌, ℕ, true, Some, List, [], length};
ghost use Rattle.world.specs.declared.entry.Entry.{Entry};
ghost use Rattle.world.specs.Waits.{before_wait, has_wait};
ghost use Rattle.cell_core.specs.Saves as core_saves;
ghost use Rattle.run_journal.specs.Job.{Job, Runs};
ghost use Rattle.run_journal.specs.Parts.{is_running};
ghost use Rattle.run_journal.specs.Why.{why};
ghost use Rattle.run_journal.specs.Due.{all_along};
ghost use Rattle.run_journal.specs.Decoding.{IsDecoding};
ghost use Rattle.run_journal.specs.Course.{course};
ghost use Rattle.run_journal.specs.Awake.{Awake};
ghost use Rattle.run_journal.specs.Agreement.{BeginsUnread, EndsLooks, Flows, Hears};
ghost use Rattle.run_journal.specs.Agreement.{HearsLooks, IsAmong, KeepsRules};
ghost use Rattle.run_journal.specs.Agreement.{KeepsTime, TellsRightly, holds_no_clock};
ghost use Rattle.run_journal.specs.Agreement.{reads_late, waits_on};

/// Where the loop keeps its rules and waits only after done waits, each look at a job that was
/// running at the last wait is over before the next wait.
pub fn looks_end()
    ensures { (jobs : List Job) (j : Job) (past : List Entry) → KeepsRules jobs j past →
        (has_wait past ≡ true → is_running j (before_wait past) ≡ true) →
        all_along waits_on past ≡ true → EndsLooks j past }
{}

/// Where the loop keeps its rules, and what the world reports of a connection is as it must be, no
/// connection is begun again after it was read.
pub fn none_is_read_again()
    ensures { (jobs : List Job) (j : Job) (past : List Entry) → IsAmong j jobs →
        Awake jobs past → TellsRightly j past → BeginsUnread j past }
{}

/// Where the loop keeps its rules, bytes come only after a turn's clock entry, no clock entry waits
/// for a save, and none came after the stop, the core's clock is the journal's wherever it counts.
pub fn time_is_kept()
    ensures { (jobs : List Job) (j : Job) (past : List Entry) → KeepsRules jobs j past →
        HearsLooks j past → (has_wait past ≡ true → is_running j (before_wait past) ≡ true) →
        TellsRightly j past → all_along (reads_late j) past ≡ true →
        all_along (holds_no_clock j) past ≡ true → KeepsTime j past }
{}

/// By these rules the clock is kept too where the course flows and no clock entry waits for a save.
pub fn time_is_told()
    ensures { (jobs : List Job) (j : Job) (past : List Entry) → IsDecoding j.codec →
        0 < length j.task.plan → ((ms : ℕ) → j.task.times.limit_ms ≡ Some ms → 0 < ms) →
        KeepsRules jobs j past → (has_wait past ≡ true → is_running j (before_wait past) ≡ true) →
        BeginsUnread j past → Flows j past → all_along (holds_no_clock j) past ≡ true →
        KeepsTime j past }
{}

/// And where it is kept no clock entry and no look comes after a stop that isn't at once.
pub fn looks_are_heard()
    ensures { (jobs : List Job) (j : Job) (past : List Entry) → IsDecoding j.codec →
        0 < length j.task.plan → ((ms : ℕ) → j.task.times.limit_ms ≡ Some ms → 0 < ms) →
        KeepsRules jobs j past → (has_wait past ≡ true → is_running j (before_wait past) ≡ true) →
        Flows j past → KeepsTime j past → BeginsUnread j past → Hears j past }
{}

/// So by these rules a job whose course flows stops its core exactly where it stops itself, and for
/// the same cause.
pub fn core_stops_as_the_job()
    ensures { (jobs : List Job) (j : Job) (past : List Entry) → IsDecoding j.codec →
        0 < length j.task.plan → ((ms : ℕ) → j.task.times.limit_ms ≡ Some ms → 0 < ms) →
        KeepsRules jobs j past → (has_wait past ≡ true → is_running j (before_wait past) ≡ true) →
        TellsRightly j past → all_along waits_on past ≡ true →
        all_along (holds_no_clock j) past ≡ true → Flows j past → (course j past).held ≡ [] →
        core_saves.why j.task (course j past).told ≡ why j past }
{}

/// Where the job runs its notebook, no clock entry waits for a save by these rules.
pub fn no_clock_waits()
    ensures { (jobs : List Job) (j : Job) (past : List Entry) → IsDecoding j.codec →
        0 < length j.task.plan → ((ms : ℕ) → j.task.times.limit_ms ≡ Some ms → 0 < ms) →
        j.given ≡ Runs → KeepsRules jobs j past →
        (has_wait past ≡ true → is_running j (before_wait past) ≡ true) →
        BeginsUnread j past → Flows j past → all_along (holds_no_clock j) past ≡ true }
{}

/// So such a job stops its core exactly where it stops itself, and for the same cause.
pub fn core_stops_as_the_run()
    ensures { (jobs : List Job) (j : Job) (past : List Entry) → IsDecoding j.codec →
        0 < length j.task.plan → ((ms : ℕ) → j.task.times.limit_ms ≡ Some ms → 0 < ms) →
        j.given ≡ Runs → KeepsRules jobs j past →
        (has_wait past ≡ true → is_running j (before_wait past) ≡ true) →
        TellsRightly j past → all_along waits_on past ≡ true → Flows j past →
        (course j past).held ≡ [] → core_saves.why j.task (course j past).told ≡ why j past }
{}
