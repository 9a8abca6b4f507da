//! The last looks and the deadlines of a job, by what its core was told and by the journal.
ghost use Rattle.std.specs.Prelude.{◌≡◌, true, false, List, [], length, nat_lt, option_to_list};
ghost use Rattle.world.specs.declared.entry.Entry.{Entry};
ghost use Rattle.cell_core.specs.Acts.{awaits_saved, due_of, wants_look_of};
ghost use Rattle.run_journal.specs.Job.{Job};
ghost use Rattle.run_journal.specs.Parts.{saves_of};
ghost use Rattle.run_journal.specs.Looks.{is_look};
ghost use Rattle.run_journal.specs.Saves.{saves};
ghost use Rattle.run_journal.specs.Awake.{deadlines, is_called_for};
ghost use Rattle.run_journal.specs.Course.{course, in_look};
ghost use Rattle.run_rules.specs.Going.{GoesOn, IsOfRun};

/// While a job runs, nothing has stopped it, and nothing waits for a save or for the end of a look,
/// its core wants a last look exactly where the journal calls for one.
pub fn looks_agree()
    ensures { (jobs : List Job) (j : Job) (past : List Entry) → IsOfRun jobs j past →
        GoesOn j past → (course j past).late ≡ [] →
        awaits_saved j.task (course j past).told ≡ false →
        wants_look_of j.task (course j past).told ≡ is_called_for j past }
{}

/// While a job runs and nothing has stopped it, at most one deadline stands by the journal: the one
/// that its core has.
pub fn deadlines_agree()
    ensures { (jobs : List Job) (j : Job) (past : List Entry) → IsOfRun jobs j past →
        GoesOn j past → option_to_list (due_of j.task (course j past).told) ≡ deadlines j past }
{}

/// While a job runs and nothing has stopped it, its core awaits a save exactly where not all saves
/// that are due by the journal are acknowledged.
pub fn awaited_saves_are_due()
    ensures { (jobs : List Job) (j : Job) (past : List Entry) → IsOfRun jobs j past →
        GoesOn j past → awaits_saved j.task (course j past).told ≡
        nat_lt (saves_of j past) (length (saves j past)) }
{}

/// No loss waits for the end of a look where no look at the job is open: none was called for at the
/// last wait, or it is done.
pub fn no_loss_is_late()
    ensures { (jobs : List Job) (j : Job) (past : List Entry) → IsOfRun jobs j past →
        (in_look j past ≡ true → is_look j past ≡ true) → (course j past).late ≡ [] }
{}
