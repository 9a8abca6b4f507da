//! What is still to be told to the core: how an event that is told, and an entry of the journal,
//! change it.
ghost use Rattle.std.specs.Prelude.{◌≡◌, ◌≤◌, true, false, List, [], ◌∷◌, ◌++◌, None};
ghost use Rattle.world.specs.declared.entry.Entry.{Entry};
ghost use Rattle.world.specs.Places.{time};
ghost use Rattle.world.specs.Waits.{moment_of};
ghost use Rattle.cell_core.specs.declared.act.Act.{Act};
ghost use Rattle.cell_core.specs.declared.event.Event.{Event};
ghost use Rattle.cell_core.specs.declared.event.Event.TheVariants.{Saved, Ready};
ghost use Rattle.cell_core.specs.declared.machine.Core as machine;
ghost use Rattle.cell_core.specs.Acts.{IsTimely, act_of, awaits_saved};
ghost use Rattle.cell_core.specs.Events.{is_saved};
ghost use Rattle.cell_core.specs.Events as events;
ghost use Rattle.cell_core.specs.StandsFor.{StandsFor, task_of, awaits_saved_of};
ghost use Rattle.run_journal.specs.Job.{Job};
ghost use Rattle.run_journal.specs.Parts.{is_acknowledging};
ghost use Rattle.run_journal.specs.Arrivals.{is_ready};
ghost use Rattle.run_journal.specs.Requests.{last_request, requests};
ghost use Rattle.run_journal.specs.Course.{came_for, course, events_at};
ghost use Rattle.run_journal.specs.Agreement.{BringsNothing, IsOther};
ghost use Rattle.job_journal.specs.Told.{Hears, IsToldBut, AgreesBut, is_stop, was_asked};

/// The core goes on where it is told an event that comes in time, and its act doesn't stop the job.
pub fn the_core_hears()
    ensures { (j : Job) (core next : machine.Core) (e : Event) (told : List Event) (answer : Act) →
        Hears j core told → task_of core ≡ j.task → is_saved e ≡ awaits_saved_of core →
        IsTimely j.task e told → StandsFor next (e ∷ told) → answer ≡ act_of j.task e told →
        is_stop answer ≡ false → Hears j next (e ∷ told) }
{}

/// A pending event is told, and the rest is pending.
pub fn pending_events_are_told()
    ensures course { (j : Job) (core next : machine.Core) (e : Event) (es : List Event)
        (now : List Entry) (t : IsToldBut j core (e ∷ es) now) →
        awaits_saved j.task t.told ≡ false → Hears j next (e ∷ t.told) → IsToldBut j next es now }
    ensures requests { (j : Job) (core next : machine.Core) (e : Event) (es : List Event)
        (now : List Entry) (t : AgreesBut j core (e ∷ es) now) →
        Hears j next (e ∷ t.told) → AgreesBut j next es now }
{}

/// An entry that acknowledges no save makes pending what it gives. By requests alone: nothing where
/// no byte comes, or what comes for the last request. Where the kernel becomes ready, the core is
/// told.
pub fn entries_add_what_they_give()
    ensures course { (j : Job) (core : machine.Core) (pending : List Event) (entry : Entry)
        (past : List Entry) → is_acknowledging j (entry ∷ past) ≡ false →
        IsToldBut j core pending past →
        IsToldBut j core (pending ++ events_at j entry past (course j past).late) (entry ∷ past) }
    ensures quiet { (j : Job) (core : machine.Core) (pending : List Event) (entry : Entry)
        (past : List Entry) → BringsNothing j entry past →
        is_acknowledging j (entry ∷ past) ≡ false → (t : AgreesBut j core pending past) →
        (was_asked j (entry ∷ past) ≡ true → time (entry ∷ past) ≤ events.time t.told) →
        AgreesBut j core pending (entry ∷ past) }
    ensures came { (j : Job) (core : machine.Core) (entry : Entry) (past : List Entry) →
        is_acknowledging j (entry ∷ past) ≡ false → moment_of entry ≡ None →
        is_ready j (entry ∷ past) ≡ is_ready j past → AgreesBut j core [] past →
        AgreesBut j core (came_for j (last_request 0 (requests j past)) entry past) (entry ∷ past) }
    ensures ready { (j : Job) (core next : machine.Core) (entry : Entry) (past : List Entry) →
        is_acknowledging j (entry ∷ past) ≡ false → moment_of entry ≡ None →
        is_ready j past ≡ false → is_ready j (entry ∷ past) ≡ true →
        (t : AgreesBut j core [] past) → Hears j next (Ready ∷ t.told) →
        AgreesBut j next [] (entry ∷ past) }
{}

/// An acknowledgement that is awaited is told before what is pending.
pub fn acknowledgements_are_told_first()
    ensures course { (j : Job) (core next : machine.Core) (pending : List Event) (entry : Entry)
        (past : List Entry) → is_acknowledging j (entry ∷ past) ≡ true →
        (t : IsToldBut j core pending past) → awaits_saved j.task t.told ≡ true →
        Hears j next (Saved ∷ t.told) →
        IsToldBut j next (pending ++ events_at j entry past (course j past).late) (entry ∷ past) }
    ensures requests { (j : Job) (core next : machine.Core) (entry : Entry) (past : List Entry) →
        BringsNothing j entry past → is_acknowledging j (entry ∷ past) ≡ true →
        moment_of entry ≡ None → (t : AgreesBut j core [] past) → Hears j next (Saved ∷ t.told) →
        AgreesBut j next [] (entry ∷ past) }
{}

/// An event of the clock, a look, a loss or a broken stream keeps the agreement, whenever it is
/// told.
pub fn other_events_change_no_request()
    ensures { (j : Job) (core next : machine.Core) (e : Event) (now : List Entry) → IsOther e →
        (t : AgreesBut j core [] now) → Hears j next (e ∷ t.told) → AgreesBut j next [] now }
{}

/// Where nothing is pending the core was told the journal's course, and nothing waits for a save.
pub fn the_course_is_told()
    ensures { (j : Job) (core : machine.Core) (now : List Entry) (t : IsToldBut j core [] now) →
        ((course j now).told ≡ t.told) × ((course j now).held ≡ []) }
{}

/// Before the first entry and the first event nothing is pending.
pub fn nothing_is_pending_at_first()
    ensures course { (j : Job) (core : machine.Core) → Hears j core [] → IsToldBut j core [] [] }
    ensures requests { (j : Job) (core : machine.Core) → Hears j core [] → AgreesBut j core [] [] }
{}
