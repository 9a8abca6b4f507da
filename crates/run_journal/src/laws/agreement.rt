//! The requests that a job's core knows by its events agree with those of the journal: at the
//! start, and on from entry to entry, where each event is told that the entry gives. A loss or a
//! broken stream may be told later, and a look's end too, since they keep the agreement whenever
//! they are told.
ghost use Rattle.std.specs.Prelude.{◌≡◌, ℕ, ◌<◌, true, false, List, [], ◌∷◌, None, Some, length};
ghost use Rattle.std.specs.Prelude.{slice_get};
ghost use Rattle.world.specs.declared.entry.Entry.{Entry};
ghost use Rattle.world.specs.Waits.{before_wait, has_wait};
ghost use Rattle.cell_core.specs.declared.act.Act.TheVariants.{Start};
ghost use Rattle.cell_core.specs.declared.event.Event.{Event};
ghost use Rattle.cell_core.specs.declared.event.Event.TheVariants.{Saved, Ready};
ghost use Rattle.cell_core.specs.Acts.{act_of};
ghost use Rattle.cell_core.specs.Deadlines.{is_queued};
ghost use Rattle.cell_core.specs.Events.{start_time};
ghost use Rattle.cell_core.specs.Laws.{settles};
ghost use Rattle.cell_core.specs.Requests as core;
ghost use Rattle.cell_core.specs.Saves as core_saves;
ghost use Rattle.run_journal.specs.Job.{Job};
ghost use Rattle.run_journal.specs.Parts.{saves_of, is_acknowledging, is_running};
ghost use Rattle.run_journal.specs.Arrivals.{is_ready};
ghost use Rattle.run_journal.specs.Looks.{is_lost};
ghost use Rattle.run_journal.specs.Requests.{Request, requests, last_request, is_passed};
ghost use Rattle.run_journal.specs.Requests.{deadline, is_broken, reply};
ghost use Rattle.run_journal.specs.Why.{child_clock, is_done, is_error, why};
ghost use Rattle.run_journal.specs.Decoding.{IsDecoding};
ghost use Rattle.run_journal.specs.Saves.{run_saves, settled_by};
ghost use Rattle.run_journal.specs.Course.{came_for, course};
ghost use Rattle.run_journal.specs.Starts.{Launch, StartsAt, StartsRightly};
ghost use Rattle.run_journal.specs.Agreement.{Agrees, BringsNothing, Clocks, Flows, IsOther};
ghost use Rattle.run_journal.specs.Agreement.{BeginsUnread, EndsLooks, HearsLooks};
ghost use Rattle.run_journal.specs.Agreement.{KeepsRules, KeepsTime};
ghost use Rattle.run_journal.specs.Agreement.{told_on};

/// Before anything is told and before any entry they agree.
pub fn agree_at_first()
    ensures { (j : Job) → Agrees j [] [] }
{}

/// An event of the clock, a look, a loss or a broken stream keeps the agreement, whenever it is
/// told.
pub fn other_events_agree()
    ensures { (j : Job) (event : Event) (told : List Event) (past : List Entry) → IsOther event →
        Agrees j told past → Agrees j (event ∷ told) past }
{}

/// An entry by which no byte comes and no save is acknowledged keeps it, with no event told.
pub fn quiet_entries_agree()
    ensures { (j : Job) (entry : Entry) (told : List Event) (past : List Entry) →
        BringsNothing j entry past → is_acknowledging j (entry ∷ past) ≡ false →
        Agrees j told past → Agrees j told (entry ∷ past) }
{}

/// An acknowledgement keeps it where it is told: the next request comes to stand for both, or for
/// neither.
pub fn acknowledgements_agree()
    ensures { (j : Job) (entry : Entry) (told : List Event) (past : List Entry) →
        BringsNothing j entry past → is_acknowledging j (entry ∷ past) ≡ true →
        Agrees j told past → Agrees j (Saved ∷ told) (entry ∷ past) }
{}

/// Readiness keeps it where it is told.
pub fn readiness_agrees()
    ensures { (j : Job) (entry : Entry) (told : List Event) (past : List Entry) →
        is_acknowledging j (entry ∷ past) ≡ false → is_ready j past ≡ false →
        is_ready j (entry ∷ past) ≡ true → Agrees j told past →
        Agrees j (Ready ∷ told) (entry ∷ past) }
{}

/// What comes for the last request keeps it where it is told, up to the message by which that
/// request is over.
pub fn messages_agree()
    ensures { (j : Job) (entry : Entry) (told : List Event) (past : List Entry) →
        is_acknowledging j (entry ∷ past) ≡ false → is_ready j (entry ∷ past) ≡ is_ready j past →
        Agrees j told past →
        Agrees j (told_on (came_for j (last_request 0 (requests j past)) entry past) told)
        (entry ∷ past) }
{}

/// Where they agree, a request is passed for the core exactly where it is in the journal.
pub fn passed_requests_agree()
    ensures { (j : Job) (told : List Event) (past : List Entry) (k : ℕ) (r : Request) →
        Agrees j told past → slice_get (requests j past) k ≡ Some r →
        core.is_passed_in (core.after j.task k told) ≡ is_passed j k r }
{}

/// What the core is told over a journal agrees with it, as long as no readiness, message or reply
/// waits to be told or comes after the stop.
pub fn courses_agree()
    ensures { (j : Job) (past : List Entry) → Flows j past → Agrees j (course j past).told past }
{}

/// Where they agree, an executed plan and a fatal reply stop the core exactly where they stop the
/// job by the journal.
pub fn ends_of_requests_agree()
    ensures done { (j : Job) (told : List Event) (past : List Entry) → Agrees j told past →
        0 < length j.task.plan →
        core_saves.is_done j.task told ≡ is_done j (saves_of j past) (requests j past) }
    ensures error { (j : Job) (told : List Event) (past : List Entry) → Agrees j told past →
        core_saves.is_cell_error (core.standing j.task told) ≡
        is_error j (last_request 0 (requests j past)) }
{}

/// Where they agree, and on the cause too, the saves that the core asks for settle what those that
/// are due settle, in order.
pub fn saves_agree()
    ensures { (j : Job) (told : List Event) (past : List Entry) → Agrees j told past →
        core_saves.why j.task told ≡ why j past →
        settles (core_saves.saves j.task told) ≡
        settled_by (run_saves j (requests j past) (why j past)) }
{}

/// The core has the clock at which each request came to stand, and that at its reply, where its
/// clock is the journal's at each entry that acknowledges a save or brings something for a request.
pub fn clocks_agree()
    ensures { (j : Job) (past : List Entry) → Flows j past → KeepsTime j past →
        Clocks j (course j past).told past }
{}

/// The core asks for the kernel's start exactly at the first acknowledged save of a job with cells
/// to run; what it takes for the clock of that start is the clock at which the child was started;
/// and where each start of the child is a right one, it was one after that save, at that clock.
pub fn starts_agree()
    ensures asked { (j : Job) (past : List Entry) → Flows j past →
        act_of j.task Saved (course j past).told ≡ Start → saves_of j past ≡ 0 }
    ensures first { (j : Job) (past : List Entry) → 0 < length j.task.plan → saves_of j past ≡ 0 →
        act_of j.task Saved (course j past).told ≡ Start }
    ensures clock { (jobs : List Job) (j : Job) (past : List Entry) → KeepsRules jobs j past →
        HearsLooks j past → (has_wait past ≡ true → is_running j (before_wait past) ≡ true) →
        (course j past).held ≡ [] → (clock : ℕ) → child_clock j past ≡ Some clock →
        start_time (course j past).told ≡ Some clock }
    ensures rightly { (launch : Launch) (jobs : List Job) (j : Job) (past : List Entry) →
        StartsRightly launch j past → KeepsRules jobs j past → (clock : ℕ) →
        child_clock j past ≡ Some clock → StartsAt launch j clock past }
{}

/// Of a request without a reply, while no stream is broken and the kernel isn't lost, the core has
/// queued the interrupt exactly where the journal has it queued.
pub fn interrupts_agree()
    ensures { (jobs : List Job) (j : Job) (past : List Entry) → IsDecoding j.codec →
        0 < length j.task.plan → ((ms : ℕ) → j.task.times.limit_ms ≡ Some ms → 0 < ms) →
        KeepsRules jobs j past → (has_wait past ≡ true → is_running j (before_wait past) ≡ true) →
        BeginsUnread j past → Flows j past → KeepsTime j past → EndsLooks j past →
        (course j past).held ≡ [] → is_broken j past ≡ false → is_lost j past ≡ false →
        j.task.times.interrupt ≡ true → (k : ℕ) (r : Request) (at : ℕ) →
        last_request 0 (requests j past) ≡ Some (k, r) → reply r ≡ None →
        deadline j r ≡ Some at → is_queued j.task k at (course j past).told ≡ r.interrupted }
{}
