//! Which save is made next, and which text it has.
ghost use Rattle.std.specs.Prelude.{◌≡◌, ◌<◌, ℕ, List, ◌∷◌, false, Some, length, slice_get};
ghost use Rattle.world.specs.declared.entry.Entry.{Entry};
ghost use Rattle.nb_model.specs.declared.notebook.Notebook as notebook;
ghost use Rattle.nb_text.specs.Notebooks.{text_of};
ghost use Rattle.progress_save.specs.Prefix.{prefix};
ghost use Rattle.kernel_talk.specs.Requests.{Identity};
ghost use Rattle.cell_core.specs.declared.act.Act.TheVariants.{Save};
ghost use Rattle.cell_core.specs.declared.event.Event.{Event};
ghost use Rattle.cell_core.specs.declared.machine.Core as machine;
ghost use Rattle.cell_core.specs.Acts.{act_of, has_stopped, heard};
ghost use Rattle.cell_core.specs.Events.{ack_count};
ghost use Rattle.cell_core.specs.Saves as core;
ghost use Rattle.out_fold.specs.declared.used.Used as used;
ghost use Rattle.job_notebook.specs.declared.notebook.JobNotebook as book;
ghost use Rattle.job_notebook.specs.State.{Keeps, merge_of};
ghost use Rattle.run_journal.specs.Job.{Job};
ghost use Rattle.run_journal.specs.Parts.{saves_of};
ghost use Rattle.run_journal.specs.Requests.{Request, requests, used_of};
ghost use Rattle.run_journal.specs.Saves.{run_saves};
ghost use Rattle.run_journal.specs.Agreement.{Agrees};
ghost use Rattle.job_journal.specs.Plot.{Plot, IsFor, facts, first};
ghost use Rattle.job_journal.specs.Saved.{IsAsked, save_of};
ghost use Rattle.job_journal.specs.Used.{OnBook};

/// An act that saves asks for the first save that isn't acknowledged, with its stopping cell.
pub fn the_first_save_is_asked_for()
    ensures { (j : Job) (told : List Event) (e : Event) (settled : ℕ) →
        has_stopped j.task (heard j.task told) ≡ false → act_of j.task e told ≡ Save settled →
        IsAsked j.task (e ∷ told) settled }
{}

/// Where its requests agree with those of the journal, the core's next save is the journal's, by
/// the core's own cause: that of what was used for the requests that stand.
pub fn the_next_save_is_due()
    ensures { (j : Job) (told : List Event) (past : List Entry) → Agrees j told past →
        0 < length j.task.plan → (save : core.Prefix) →
        slice_get (core.saves j.task told) (ack_count told) ≡ Some save →
        slice_get (run_saves j (requests j past) (core.why j.task told)) (saves_of j past) ≡
        Some (save_of j (used_of j.task.plan (requests j past)) save) }
{}

/// The text of the notebook that is saved is the one of that save.
pub fn saves_have_their_texts()
    ensures { (p : Plot) (number : ℕ) (session : Identity) (machine : machine.Core)
        (old : book.JobNotebook) (saved : notebook.Notebook) (rs : List Request)
        (save : core.Prefix) → IsFor p number session machine old →
        OnBook (facts p) (first p) old rs →
        ((given : notebook.Notebook) (us : List used.Used) → Keeps old given us →
        saved ≡ prefix (merge_of old) us save.settled save.stopping_cell given) →
        text_of saved ≡ (save_of (facts p) (used_of (facts p).task.plan rs) save).text }
{}
