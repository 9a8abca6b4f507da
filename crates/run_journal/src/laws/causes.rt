//! What stops a job at once stops its core, and broken streams and losses are told.
ghost use Rattle.std.specs.Prelude.{◌≡◌, ◌<◌, ℕ, true, Some, List, [], length};
ghost use Rattle.world.specs.declared.entry.Entry.{Entry};
ghost use Rattle.cell_core.specs.declared.why.Why.{Why};
ghost use Rattle.cell_core.specs.Events as events;
ghost use Rattle.cell_core.specs.Saves as core_saves;
ghost use Rattle.world.specs.Waits.{before_wait, has_wait};
ghost use Rattle.run_journal.specs.Job.{Job};
ghost use Rattle.run_journal.specs.Parts.{is_running};
ghost use Rattle.run_journal.specs.Looks.{ever, is_lost, shows_lost};
ghost use Rattle.run_journal.specs.Requests.{is_broken};
ghost use Rattle.run_journal.specs.Why.{why};
ghost use Rattle.run_journal.specs.Decoding.{IsDecoding};
ghost use Rattle.run_journal.specs.Course.{course};
ghost use Rattle.run_journal.specs.Agreement.{BeginsUnread, EndsLooks, Flows, Hears};
ghost use Rattle.run_journal.specs.Agreement.{HearsLooks, IsHeard};
ghost use Rattle.run_journal.specs.Agreement.{at_once, is_undated, KeepsRules, KeepsTime};

/// Where nothing waits for a save, the core knows of a broken stream exactly where one is broken.
pub fn broken_streams_are_told()
    ensures { (j : Job) → IsDecoding j.codec → (past : List Entry) → BeginsUnread j past →
        Flows j past → (course j past).held ≡ [] →
        events.came events.is_broken (course j past).told ≡ is_broken j past }
{}

/// Where nothing came after the stop, and nothing waits for a save or a look, the core knows of a
/// loss exactly where an entry has shown one.
pub fn losses_are_told()
    ensures { (j : Job) (past : List Entry) → IsHeard j past →
        (course j past).held ≡ [] → (course j past).late ≡ [] →
        events.ever events.is_lost (course j past).told ≡ ever (shows_lost j) past }
{}

/// Where nothing waits for a save, an executed plan, a fatal reply and a broken stream stop the
/// core exactly where they stop the job by the journal.
pub fn causes_at_once_agree()
    ensures { (j : Job) → IsDecoding j.codec → 0 < length j.task.plan → (past : List Entry) →
        BeginsUnread j past → Flows j past → (course j past).held ≡ [] →
        at_once (core_saves.why j.task (course j past).told) ≡ at_once (why j past) }
{}

/// Where the core has been told of a look after a loss, the journal has shown the kernel lost.
pub fn losses_found_are_shown()
    ensures { (j : Job) (past : List Entry) →
        events.look_since events.is_lost (course j past).told ≡ true →
        ever (is_lost j) past ≡ true }
{}

/// Where the journal shows the kernel lost, the core has been told of a look after a loss: where
/// the job was running at the last wait, each look was over before the next wait, nothing waits
/// for a save, and no look came after the stop.
pub fn losses_shown_are_found()
    ensures { (j : Job) (past : List Entry) → HearsLooks j past → EndsLooks j past →
        (course j past).held ≡ [] → is_running j (before_wait past) ≡ true →
        is_lost j past ≡ true → events.look_since events.is_lost (course j past).told ≡ true }
{}

/// A cause that no deadline brings and that stops the job by the journal stops the core, where the
/// job was running at the last wait, each look was over before the next wait, nothing waits for a
/// save, and no look came after a stop that wasn't at once.
pub fn undated_causes_agree()
    ensures { (j : Job) → IsDecoding j.codec → 0 < length j.task.plan → (past : List Entry) →
        BeginsUnread j past → Flows j past → Hears j past → EndsLooks j past →
        (course j past).held ≡ [] → is_running j (before_wait past) ≡ true → (cause : Why) →
        is_undated cause ≡ true → why j past ≡ Some cause →
        core_saves.why j.task (course j past).told ≡ Some cause }
{}

/// Where the loop keeps its rules, and nothing waits for a save, the core stops exactly where the
/// job does by the journal, and for the same cause: at once, by a lost kernel, or by a deadline.
/// What shows only in the look that stops the job, as the end of a connection, may come after it.
pub fn causes_agree()
    ensures { (jobs : List Job) (j : Job) (past : List Entry) → IsDecoding j.codec →
        0 < length j.task.plan → ((ms : ℕ) → j.task.times.limit_ms ≡ Some ms → 0 < ms) →
        KeepsRules jobs j past → (has_wait past ≡ true → is_running j (before_wait past) ≡ true) →
        BeginsUnread j past → Flows j past → KeepsTime j past → EndsLooks j past →
        (course j past).held ≡ [] →
        core_saves.why j.task (course j past).told ≡ why j past }
{}

/// Where nothing came after the stop, no look did; and where none did, none came after a stop that
/// wasn't at once.
pub fn all_heard_hears()
    ensures looks { (j : Job) (past : List Entry) → IsHeard j past → HearsLooks j past }
    ensures stops { (j : Job) (past : List Entry) → HearsLooks j past → Hears j past }
{}
