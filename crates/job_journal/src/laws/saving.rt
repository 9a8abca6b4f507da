//! A request is sent, a save is acknowledged or fails, and a job ends: all parts of an execution.
ghost use Rattle.std.specs.Prelude.{◌≡◌, ◌+◌, ℕ, true, List, [], ◌∷◌, ◌++◌, length, None, Some};
ghost use Rattle.world.specs.declared.chan.Chan as chan;
ghost use Rattle.world.specs.declared.entry.Entry.{Entry};
ghost use Rattle.save_disk.specs.declared.save_fault.SaveFault as fault;
ghost use Rattle.save_disk.specs.Entries.{SaveOf};
ghost use Rattle.nb_model.specs.declared.notebook.Notebook as notebook;
ghost use Rattle.nb_text.specs.Notebooks.{text_of};
ghost use Rattle.progress_save.specs.Prefix.{prefix};
ghost use Rattle.progress_save.specs.Saved.{done, failure};
ghost use Rattle.kernel_talk.specs.Requests.{Identity, message_id};
ghost use Rattle.kernel_lines.specs.declared.lines.Lines as lines;
ghost use Rattle.cell_core.specs.declared.act.Act.{Act};
ghost use Rattle.cell_core.specs.declared.act.Act.TheVariants.{Send};
ghost use Rattle.cell_core.specs.declared.event.Event.{Event};
ghost use Rattle.cell_core.specs.declared.event.Event.TheVariants.{Saved};
ghost use Rattle.cell_core.specs.declared.machine.Core as machine;
ghost use Rattle.cell_core.specs.Acts.{act_of, failing_of};
ghost use Rattle.cell_core.specs.StandsFor.{awaits_saved_of};
ghost use Rattle.cell_core.specs.Stops.{stopping_of};
ghost use Rattle.out_fold.specs.declared.used.Used as used;
ghost use Rattle.out_fold.specs.Cells.{begin};
ghost use Rattle.job_notebook.specs.declared.notebook.JobNotebook as book;
ghost use Rattle.job_notebook.specs.State.{Keeps, merge_of};
ghost use Rattle.run_journal.specs.Codec.{Arrival, Execute};
ghost use Rattle.run_journal.specs.Requests.{requests, used_of};
ghost use Rattle.run_journal.specs.Queue.{Queued};
ghost use Rattle.run_journal.specs.Agreement.{IsOther};
ghost use Rattle.job_journal.specs.Line.{parts_of};
ghost use Rattle.job_journal.specs.Piece.{HasCome, Within};
ghost use Rattle.job_journal.specs.Plot.{Plot, IsFor, facts, first, speaker};
ghost use Rattle.job_journal.specs.Saved.{IsAsked, save_of};
ghost use Rattle.job_journal.specs.Standing.{Parts, Sends, StandsBy, IsToSend, HasEndedAs};
ghost use Rattle.job_journal.specs.Starting.{is_calm, is_ongoing};
ghost use Rattle.job_journal.specs.Told.{Hears};
ghost use Rattle.job_journal.specs.Used.{OnBook};

/// A request that is to be sent is sent once its message was made and given to the connection for
/// shell, and its cell begun.
pub fn requests_are_sent()
    ensures { (p : Plot) (number : ℕ) (x : Parts) (cell : ℕ) (now : List Entry) →
        (t : IsToSend p number x cell now) → (lines : lines.Lines) (session : Identity)
        (book : book.JobNotebook) (id : List ℕ) → IsFor p number session x.core book →
        Sends x.lines lines
        (parts_of (speaker p) (Execute (length t.earlier)) session.made x.clock) →
        session.made ≡ x.session.made + 1 → id ≡ message_id session.name session.made →
        ((us : List used.Used) → Keeps x.book (first p) us →
        Keeps book (first p) (us ++ begin cell ∷ [])) → StandsBy p number (record x {
          lines = lines;
          session = session;
          book = book;
          request = Some (record { id = id; cell = cell });
          sent = x.sent + 1;
        }) [] [] now }
{}

/// The save that the core asks for is done, and the core is told: a request comes to stand where it
/// is sent, and none does where the core neither sends nor saves nor stops, or where it asks for
/// another save that names no stopping cell. Whatever it answers, the saves that were made are the
/// first of those that are due.
pub fn saves_are_acknowledged()
    ensures sends { (p : Plot) (number : ℕ) (x : Parts) (past : List Entry) →
        (s : StandsBy p number x [] [] past) → (settled : ℕ) →
        (asked : IsAsked (facts p).task s.core.told settled) → (text : List ℕ) →
        text ≡ (save_of (facts p) (used_of (facts p).task.plan (requests (facts p) past))
        asked.asked).text → (now : List Entry) → SaveOf (facts p).output text done past now →
        (next : machine.Core) (book : book.JobNotebook) → IsFor p number x.session next book →
        OnBook (facts p) (first p) book (requests (facts p) past) →
        Hears (facts p) next (Saved ∷ s.core.told) → (cell : ℕ) →
        act_of (facts p).task Saved s.core.told ≡ Send cell →
        IsToSend p number (record x { core = next; book = book }) cell now }
    ensures waits { (p : Plot) (number : ℕ) (x : Parts) (past : List Entry) →
        (s : StandsBy p number x [] [] past) → (settled : ℕ) →
        (asked : IsAsked (facts p).task s.core.told settled) → (text : List ℕ) →
        text ≡ (save_of (facts p) (used_of (facts p).task.plan (requests (facts p) past))
        asked.asked).text → (now : List Entry) → SaveOf (facts p).output text done past now →
        (next : machine.Core) (book : book.JobNotebook) → IsFor p number x.session next book →
        OnBook (facts p) (first p) book (requests (facts p) past) →
        Hears (facts p) next (Saved ∷ s.core.told) → (answer : Act) →
        act_of (facts p).task Saved s.core.told ≡ answer → is_calm answer ≡ true →
        StandsBy p number (record x { core = next; book = book }) [] [] now }
    ensures again { (p : Plot) (number : ℕ) (x : Parts) (past : List Entry) →
        (s : StandsBy p number x [] [] past) → (settled : ℕ) →
        (asked : IsAsked (facts p).task s.core.told settled) → (text : List ℕ) →
        text ≡ (save_of (facts p) (used_of (facts p).task.plan (requests (facts p) past))
        asked.asked).text → (now : List Entry) → SaveOf (facts p).output text done past now →
        (next : machine.Core) (book : book.JobNotebook) → IsFor p number x.session next book →
        Hears (facts p) next (Saved ∷ s.core.told) → awaits_saved_of next ≡ true →
        stopping_of next ≡ None → OnBook (facts p) (first p) book (requests (facts p) past) →
        (t : StandsBy p number (record x { core = next; book = book }) [] [] now)
        × (t.core.told ≡ Saved ∷ s.core.told) }
    ensures ended { (p : Plot) (number : ℕ) (x : Parts) (past : List Entry) →
        (s : StandsBy p number x [] [] past) → (settled : ℕ) →
        (asked : IsAsked (facts p).task s.core.told settled) → (text : List ℕ) →
        text ≡ (save_of (facts p) (used_of (facts p).task.plan (requests (facts p) past))
        asked.asked).text → (now : List Entry) → SaveOf (facts p).output text done past now →
        HasEndedAs p now }
{}

/// What is saved, with the stopping cell that the core names, has the text of the save that the
/// core asks for; where it names none, the notebook keeps what it kept.
pub fn saves_are_of_the_notebook()
    ensures text { (p : Plot) (number : ℕ) (x : Parts) (past : List Entry) →
        (s : StandsBy p number x [] [] past) → (settled : ℕ) →
        (asked : IsAsked (facts p).task s.core.told settled) → (saved : notebook.Notebook) →
        ((given : notebook.Notebook) (us : List used.Used) → Keeps x.book given us → saved ≡
        prefix (merge_of x.book) us settled (failing_of (facts p).task s.core.told) given) →
        text_of saved ≡ (save_of (facts p)
        (used_of (facts p).task.plan (requests (facts p) past)) asked.asked).text }
    ensures book { (p : Plot) (number : ℕ) (x : Parts) (past : List Entry) →
        (s : StandsBy p number x [] [] past) → (settled : ℕ) →
        (asked : IsAsked (facts p).task s.core.told settled) → (book : book.JobNotebook) →
        asked.asked.stopping_cell ≡ None → (failing_of (facts p).task s.core.told ≡ None →
        (given : notebook.Notebook) (us : List used.Used) → Keeps x.book given us →
        Keeps book given us) → OnBook (facts p) (first p) book (requests (facts p) past) }
{}

/// Where the job goes on after a save, and where another save follows that names no stopping cell,
/// the save named none.
pub fn saves_name_no_cell()
    ensures ongoing { (p : Plot) (number : ℕ) (x : Parts) (past : List Entry) →
        (s : StandsBy p number x [] [] past) → (settled : ℕ) →
        (asked : IsAsked (facts p).task s.core.told settled) → (text : List ℕ) →
        text ≡ (save_of (facts p) (used_of (facts p).task.plan (requests (facts p) past))
        asked.asked).text → (now : List Entry) → SaveOf (facts p).output text done past now →
        (answer : Act) → act_of (facts p).task Saved s.core.told ≡ answer →
        is_ongoing answer ≡ true → asked.asked.stopping_cell ≡ None }
    ensures again { (p : Plot) (number : ℕ) (x : Parts) (past : List Entry) →
        (s : StandsBy p number x [] [] past) → (settled : ℕ) →
        (asked : IsAsked (facts p).task s.core.told settled) → (text : List ℕ) →
        text ≡ (save_of (facts p) (used_of (facts p).task.plan (requests (facts p) past))
        asked.asked).text → (now : List Entry) → SaveOf (facts p).output text done past now →
        (next : machine.Core) (book : book.JobNotebook) → IsFor p number x.session next book →
        Hears (facts p) next (Saved ∷ s.core.told) → awaits_saved_of next ≡ true →
        stopping_of next ≡ None → asked.asked.stopping_cell ≡ None }
{}

/// A save that failed makes none, or the next that is due, where only the sync of the folder
/// failed.
pub fn saves_fail()
    ensures { (p : Plot) (number : ℕ) (x : Parts) (past now : List Entry) →
        (s : StandsBy p number x [] [] past) → (settled : ℕ) →
        (asked : IsAsked (facts p).task s.core.told settled) → (text : List ℕ) →
        text ≡ (save_of (facts p) (used_of (facts p).task.plan (requests (facts p) past))
        asked.asked).text → (f : fault.SaveFault) →
        SaveOf (facts p).output text (failure f) past now → HasEndedAs p now }
{}

/// Wherever a job ends, whatever stops it, the saves that were made are the first that are due.
pub fn jobs_end()
    ensures standing { (p : Plot) (number : ℕ) (x : Parts) (unsent : List Queued)
        (pending : List Event) (now : List Entry) → StandsBy p number x unsent pending now →
        HasEndedAs p now }
    ensures sending { (p : Plot) (number : ℕ) (x : Parts) (cell : ℕ) (now : List Entry) →
        IsToSend p number x cell now → HasEndedAs p now }
    ensures within { (p : Plot) (number : ℕ) (x : Parts) (c : chan.Chan)
        (done rest : List Arrival) (entry : Entry) (past : List Entry) →
        Within p number x c done rest entry past → HasEndedAs p (entry ∷ past) }
    ensures coming { (p : Plot) (number : ℕ) (x : Parts) (c : chan.Chan) (ms : List Arrival)
        (entry : Entry) (past : List Entry) → HasCome p number x c ms entry past →
        HasEndedAs p (entry ∷ past) }
{}

/// An event of the clock, a look, a loss or a broken stream is told, and the parts stand for the
/// journal as before.
pub fn other_events_pass()
    ensures { (p : Plot) (number : ℕ) (x : Parts) (unsent : List Queued) (now : List Entry) →
        (s : StandsBy p number x unsent [] now) → (e : Event) (next : machine.Core) → IsOther e →
        IsFor p number x.session next x.book → Hears (facts p) next (e ∷ s.core.told) →
        (t : StandsBy p number (record x { core = next }) unsent [] now)
        × (t.core.told ≡ e ∷ s.core.told) }
{}
