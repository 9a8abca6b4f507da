//! All parts of an execution before any byte was got for the job.
ghost use Rattle.std.specs.Prelude.{◌≡◌, ℕ, true, false, List, [], None, replicate};
ghost use Rattle.world.specs.declared.chan.Chan as chan;
ghost use Rattle.world.specs.declared.entry.Entry.{Entry};
ghost use Rattle.world.specs.Places.{time};
ghost use Rattle.save_disk.specs.Entries.{SaveOf};
ghost use Rattle.nb_model.specs.declared.notebook.Notebook as notebook;
ghost use Rattle.nb_text.specs.Notebooks.{text_of};
ghost use Rattle.progress_save.specs.Prefix.{prefix};
ghost use Rattle.progress_save.specs.Saved.{done};
ghost use Rattle.kernel_talk.specs.Requests.{Identity};
ghost use Rattle.out_fold.specs.declared.used.Used as used;
ghost use Rattle.cell_core.specs.declared.machine.Core as machine;
ghost use Rattle.cell_core.specs.declared.event.Event.TheVariants.{Saved};
ghost use Rattle.job_notebook.specs.declared.notebook.JobNotebook as book;
ghost use Rattle.job_notebook.specs.State.{Keeps, merge_of};
ghost use Rattle.run_journal.specs.Job.{Job};
ghost use Rattle.run_journal.specs.Parts.{bytes_got, saves_of};
ghost use Rattle.run_journal.specs.Arrivals.{is_ready};
ghost use Rattle.run_journal.specs.Requests.{requests};
ghost use Rattle.run_journal.specs.Saves.{renamed_texts};
ghost use Rattle.run_journal.specs.Agreement.{Agrees};
ghost use Rattle.job_journal.specs.Ended.{IsWhole};
ghost use Rattle.job_journal.specs.Made.{HasMade, passing_saves};
ghost use Rattle.job_journal.specs.Plot.{Plot, IsFor, facts, first};
ghost use Rattle.job_journal.specs.Quiet.{is_unread};
ghost use Rattle.job_journal.specs.Standing.{AreNew, Parts, StandsBy};
ghost use Rattle.job_journal.specs.Told.{AgreesBut};

use zmtp_wire::laws::no_octets;

/// Before any byte was got for a job its connections have none, its kernel isn't ready, no request
/// stands and no stream is broken. A core that was told of each acknowledged save, and of nothing
/// else, agrees.
pub fn nothing_has_come()
    ensures bytes { (j : Job) (now : List Entry) → is_unread j now ≡ true → (c : chan.Chan) →
        bytes_got j c now ≡ [] }
    ensures agrees { (j : Job) (now : List Entry) → is_unread j now ≡ true →
        Agrees j (replicate (saves_of j now) Saved) now }
    ensures unready { (p : Plot) (now : List Entry) → is_unread (facts p) now ≡ true →
        is_ready (facts p) now ≡ false }
    ensures requests { (p : Plot) (now : List Entry) → is_unread (facts p) now ≡ true →
        requests (facts p) now ≡ [] }
    ensures whole { (p : Plot) (now : List Entry) → is_unread (facts p) now ≡ true →
        IsWhole (facts p) now }
{
    no_octets();
}

/// New parts stand for the journal before any byte was got, where the notebook and the core do.
pub fn new_parts_stand()
    ensures { (p : Plot) (number : ℕ) (x : Parts) (now : List Entry) → AreNew x →
        is_unread (facts p) now ≡ true → (facts p).task.times.interrupt ≡ false →
        IsFor p number x.session x.core x.book → Keeps x.book (first p) [] →
        AgreesBut (facts p) x.core [] now →
        HasMade (facts p) (passing_saves (facts p) []) (saves_of (facts p) now) now →
        x.clock ≡ time now → StandsBy p number x [] [] now }
{
    no_octets();
}

/// The first save, of the notebook before its cells are executed: it is made and acknowledged,
/// where nothing was renamed onto the output before.
pub fn first_saves_are_made()
    ensures made { (p : Plot) (number : ℕ) (session : Identity) (core : machine.Core)
        (old : book.JobNotebook) (saved : notebook.Notebook) (past now : List Entry) →
        (facts p).task.times.interrupt ≡ false → IsFor p number session core old →
        Keeps old (first p) [] → ((given : notebook.Notebook) (us : List used.Used) →
        Keeps old given us → saved ≡ prefix (merge_of old) us 0 None given) →
        renamed_texts (facts p) past ≡ [] →
        SaveOf (facts p).output (text_of saved) done past now →
        HasMade (facts p) (passing_saves (facts p) []) 1 now }
    ensures acked { (p : Plot) (number : ℕ) (session : Identity) (core : machine.Core)
        (old : book.JobNotebook) (saved : notebook.Notebook) (past now : List Entry) →
        (facts p).task.times.interrupt ≡ false → IsFor p number session core old →
        Keeps old (first p) [] → ((given : notebook.Notebook) (us : List used.Used) →
        Keeps old given us → saved ≡ prefix (merge_of old) us 0 None given) →
        renamed_texts (facts p) past ≡ [] →
        SaveOf (facts p).output (text_of saved) done past now → saves_of (facts p) now ≡ 1 }
{}
