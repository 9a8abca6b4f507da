//! What a core answers that was told what the journal gives.
ghost use Rattle.std.specs.Prelude.{◌≡◌, ℕ, Bool, true, false, List, [], Option, None};
ghost use Rattle.std.specs.Prelude.{option_to_list};
ghost use Rattle.world.specs.declared.entry.Entry.{Entry};
ghost use Rattle.cell_core.specs.declared.event.Event.{Event};
ghost use Rattle.cell_core.specs.declared.machine.Core as machine;
ghost use Rattle.cell_core.specs.Acts.{due_of, wants_look_of};
ghost use Rattle.cell_core.specs.Holds.{due_in, looks_in};
ghost use Rattle.cell_core.specs.StandsFor.{StandsFor, awaits_saved_of, task_of};
ghost use Rattle.run_journal.specs.Job.{Job};
ghost use Rattle.run_journal.specs.Parts.{is_running};
ghost use Rattle.run_journal.specs.Why.{why};
ghost use Rattle.run_journal.specs.Awake.{deadlines, is_called_for};
ghost use Rattle.run_journal.specs.Course.{course};
ghost use Rattle.job_journal.specs.Told.{IsToldBut};
ghost use Rattle.run_rules.specs.Going.{GoesOn, IsOfRun};

/// A core that was told the journal's course, and awaits no save, holds what makes it want a look
/// exactly where the journal calls for one. Its deadline is the one that stands by the journal.
pub fn cores_know_the_journal()
    ensures looks { (jobs : List Job) (j : Job) (core : machine.Core) (past : List Entry) →
        IsOfRun jobs j past → GoesOn j past → (course j past).late ≡ [] →
        StandsFor core (course j past).told → task_of core ≡ j.task →
        awaits_saved_of core ≡ false →
        looks_in core.clock core.lost core.state ≡ is_called_for j past }
    ensures due { (jobs : List Job) (j : Job) (core : machine.Core) (past : List Entry) →
        IsOfRun jobs j past → GoesOn j past →
        StandsFor core (course j past).told → task_of core ≡ j.task →
        option_to_list (due_in core.state) ≡ deadlines j past }
{}

/// Where a job's core has nothing more to be told, awaits no save and hasn't stopped, nothing has
/// stopped the job. While it runs, the core's answers are those of the journal: whether a last look
/// is called for, and which deadline stands.
pub fn told_cores_answer()
    ensures goes_on { (jobs : List Job) (j : Job) (core : machine.Core) (past : List Entry) →
        IsOfRun jobs j past → IsToldBut j core [] past → awaits_saved_of core ≡ false →
        task_of core ≡ j.task → why j past ≡ None }
    ensures looks { (jobs : List Job) (j : Job) (core : machine.Core) (past : List Entry) →
        IsOfRun jobs j past → IsToldBut j core [] past → awaits_saved_of core ≡ false →
        task_of core ≡ j.task → is_running j past ≡ true → (course j past).late ≡ [] →
        (answer : Bool) → ((events : List Event) → StandsFor core events →
        answer ≡ wants_look_of (task_of core) events) → answer ≡ is_called_for j past }
    ensures due { (jobs : List Job) (j : Job) (core : machine.Core) (past : List Entry) →
        IsOfRun jobs j past → IsToldBut j core [] past → awaits_saved_of core ≡ false →
        task_of core ≡ j.task → is_running j past ≡ true →
        (answer : Option ℕ) → ((events : List Event) → StandsFor core events →
        answer ≡ due_of (task_of core) events) → option_to_list answer ≡ deadlines j past }
{}
