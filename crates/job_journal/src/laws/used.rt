//! What was used for the requests, what is still to be told of what came for the last one, and what
//! the core takes of it, message after message.
ghost use Rattle.std.specs.Prelude.{◌≡◌, ◌⊎◌, ◌<◌, ℕ, List, [], ◌∷◌, ◌++◌, true, false, Bool};
ghost use Rattle.std.specs.Prelude.{length, map, not, is_some, Option, Some};
ghost use Rattle.std.specs.Str.{bytes_eq};
ghost use Rattle.world.specs.declared.chan.Chan.TheVariants.{Shell, Iopub};
ghost use Rattle.world.specs.declared.entry.Entry.{Entry};
ghost use Rattle.world.specs.Places.{time};
ghost use Rattle.nb_model.specs.declared.notebook.Notebook as notebook;
ghost use Rattle.cell_core.specs.declared.brief.Brief.{Brief};
ghost use Rattle.cell_core.specs.declared.event.Event.{Event};
ghost use Rattle.cell_core.specs.declared.event.Event.TheVariants.{Io, Reply};
ghost use Rattle.cell_core.specs.Acts.{has_stopped, heard, takes_of};
ghost use Rattle.cell_core.specs.Task.{cell_of};
ghost use Rattle.out_fold.specs.declared.used.Used as used;
ghost use Rattle.out_fold.specs.Cells.{begin};
ghost use Rattle.job_notebook.specs.declared.notebook.JobNotebook as book;
ghost use Rattle.job_notebook.specs.State.{Keeps};
ghost use Rattle.run_journal.specs.Codec.{Arrival};
ghost use Rattle.run_journal.specs.Job.{Job};
ghost use Rattle.run_journal.specs.Parts.{is_acknowledging};
ghost use Rattle.run_journal.specs.Arrivals.{arrive, is_ready};
ghost use Rattle.run_journal.specs.Requests.{Request, goes_on, has_idle, is_over, is_parent};
ghost use Rattle.run_journal.specs.Requests.{last_request, reply, requests, used_of, with_news};
ghost use Rattle.run_journal.specs.Course.{brief_of, came_for};
ghost use Rattle.run_journal.specs.Agreement.{Agrees, BringsNothing};
ghost use Rattle.job_journal.specs.Used.{KnowsOf, OnBook, OnRequest, Sent, Replies, Takes, anew};
ghost use Rattle.job_journal.specs.Used.{is_own, is_reply, left_io, left_replies, so_far};
ghost use Rattle.job_journal.specs.Used.{with_io, with_reply};

/// A message on IOPub is used for the last request where it is of that request and comes before its
/// idle, and is passed over otherwise.
pub fn messages_are_used()
    ensures used { (j : Job) (first : notebook.Notebook) (old new : book.JobNotebook)
        (ms : List Arrival) (m : Arrival) (past : List Entry) (k : ℕ) (r : Request) →
        last_request 0 (requests j past) ≡ Some (k, r) → is_own j r m ≡ true →
        has_idle (with_news j r ms [] (time past)).io ≡ false → Takes first old new m →
        OnBook j first old (so_far j ms [] past) →
        OnBook j first new (so_far j (ms ++ m ∷ []) [] past) }
    ensures passed_over { (j : Job) (first : notebook.Notebook) (book : book.JobNotebook)
        (ms : List Arrival) (m : Arrival) (past : List Entry) (k : ℕ) (r : Request) →
        last_request 0 (requests j past) ≡ Some (k, r) →
        (is_own j r m ≡ false) ⊎ (has_idle (with_news j r ms [] (time past)).io ≡ true) →
        OnBook j first book (so_far j ms [] past) →
        OnBook j first book (so_far j (ms ++ m ∷ []) [] past) }
{}

/// A message on shell is used for the last request where it is the first reply to it, and is passed
/// over otherwise.
pub fn replies_are_used()
    ensures used { (j : Job) (first : notebook.Notebook) (old new : book.JobNotebook)
        (ms : List Arrival) (m : Arrival) (past : List Entry) (k : ℕ) (r : Request) →
        last_request 0 (requests j past) ≡ Some (k, r) → is_reply j r m ≡ true →
        is_some (reply (with_news j r [] ms (time past))) ≡ false → Replies first old new m →
        OnBook j first old (so_far j [] ms past) →
        OnBook j first new (so_far j [] (ms ++ m ∷ []) past) }
    ensures passed_over { (j : Job) (first : notebook.Notebook) (book : book.JobNotebook)
        (ms : List Arrival) (m : Arrival) (past : List Entry) (k : ℕ) (r : Request) →
        last_request 0 (requests j past) ≡ Some (k, r) →
        (is_reply j r m ≡ false) ⊎ (is_some (reply (with_news j r [] ms (time past))) ≡ true) →
        OnBook j first book (so_far j [] ms past) →
        OnBook j first book (so_far j [] (ms ++ m ∷ []) past) }
{}

/// Once the idle of the last request has come, no further message on IOPub changes what was used,
/// and once its reply has come, none on shell does.
pub fn ended_requests_use_no_more()
    ensures iopub { (j : Job) (first : notebook.Notebook) (book : book.JobNotebook)
        (ms rest : List Arrival) (past : List Entry) (k : ℕ) (r : Request) →
        last_request 0 (requests j past) ≡ Some (k, r) →
        has_idle (with_news j r ms [] (time past)).io ≡ true →
        OnBook j first book (so_far j ms [] past) →
        OnBook j first book (so_far j (ms ++ rest) [] past) }
    ensures shell { (j : Job) (first : notebook.Notebook) (book : book.JobNotebook)
        (ms rest : List Arrival) (past : List Entry) (k : ℕ) (r : Request) →
        last_request 0 (requests j past) ≡ Some (k, r) →
        is_some (reply (with_news j r [] ms (time past))) ≡ true →
        OnBook j first book (so_far j [] ms past) →
        OnBook j first book (so_far j [] (ms ++ rest) past) }
{}

/// Before the first message of a piece, what was used is what was used for the requests; so it is
/// after the last one, where no request comes to stand with the piece. An entry that brings no byte
/// changes nothing of it, and where a request comes to stand its cell is begun.
pub fn entries_keep_the_book()
    ensures first { (j : Job) (first : notebook.Notebook) (book : book.JobNotebook)
        (past : List Entry) → OnBook j first book (requests j past) →
        OnBook j first book (so_far j [] [] past) }
    ensures last { (j : Job) (first : notebook.Notebook) (book : book.JobNotebook) (entry : Entry)
        (past : List Entry) → is_acknowledging j (entry ∷ past) ≡ false →
        is_ready j (entry ∷ past) ≡ is_ready j past → OnBook j first book
        (so_far j (arrive j Iopub entry past) (arrive j Shell entry past) past) →
        OnBook j first book (requests j (entry ∷ past)) }
    ensures quiet { (j : Job) (first : notebook.Notebook) (book : book.JobNotebook) (entry : Entry)
        (past : List Entry) → BringsNothing j entry past →
        is_acknowledging j (entry ∷ past) ≡ false → is_ready j (entry ∷ past) ≡ is_ready j past →
        OnBook j first book (requests j past) → OnBook j first book (requests j (entry ∷ past)) }
    ensures begun { (j : Job) (first : notebook.Notebook) (old new : book.JobNotebook)
        (entry : Entry) (past : List Entry) → requests j (entry ∷ past) ≡
        map (goes_on j entry past) (requests j past) ++ anew j entry past ∷ [] →
        length (requests j past) < length j.task.plan →
        used_of j.task.plan (map (goes_on j entry past) (requests j past)) ≡
        used_of j.task.plan (requests j past) →
        ((us : List used.Used) → Keeps old first us →
        Keeps new first (us ++ begin (cell_of j.task (length (requests j past))) ∷ [])) →
        OnBook j first old (requests j past) → OnBook j first new (requests j (entry ∷ past)) }
{}

/// A message is of the last request where its parent is the id that the job has. A request that
/// comes to stand is the one that the job has, by its id and its cell, until the next one does.
pub fn the_request_is_the_last()
    ensures parent { (j : Job) (sent : Sent) (rs : List Request) (k : ℕ) (r : Request)
        (parent : List ℕ) → OnRequest j (Some sent) rs → last_request 0 rs ≡ Some (k, r) →
        bytes_eq sent.id parent ≡ is_parent j r.number (Some parent) }
    ensures starts { (j : Job) (sent : Sent) (entry : Entry) (past : List Entry) →
        requests j (entry ∷ past) ≡
        map (goes_on j entry past) (requests j past) ++ anew j entry past ∷ [] →
        sent.id ≡ j.msg_id (anew j entry past).number →
        sent.cell ≡ cell_of j.task (length (requests j past)) →
        OnRequest j (Some sent) (requests j (entry ∷ past)) }
    ensures stays { (j : Job) (sent : Option Sent) (entry : Entry) (past : List Entry) →
        is_acknowledging j (entry ∷ past) ≡ false → is_ready j (entry ∷ past) ≡ is_ready j past →
        OnRequest j sent (requests j past) → OnRequest j sent (requests j (entry ∷ past)) }
{}

/// What an entry brings for the last request is what is to be told of the messages that arrive,
/// where all of them do on one channel.
pub fn pieces_bring_events()
    ensures iopub { (j : Job) (k : ℕ) (r : Request) (entry : Entry) (past : List Entry) →
        arrive j Shell entry past ≡ [] →
        came_for j (Some (k, r)) entry past ≡ left_io j r (arrive j Iopub entry past) }
    ensures shell { (j : Job) (k : ℕ) (r : Request) (entry : Entry) (past : List Entry) →
        arrive j Iopub entry past ≡ [] →
        came_for j (Some (k, r)) entry past ≡ left_replies j k r (arrive j Shell entry past) }
{}

/// Message after message: one that isn't of the request gives no event, one of its own gives one
/// while the request isn't over, and once it is over none is left.
pub fn messages_give_events()
    ensures io_other { (j : Job) (r : Request) (m : Arrival) (ms : List Arrival) →
        is_own j r m ≡ false → left_io j r (m ∷ ms) ≡ left_io j r ms }
    ensures io_own { (j : Job) (r : Request) (m : Arrival) (ms : List Arrival) →
        is_own j r m ≡ true → is_over r ≡ false →
        left_io j r (m ∷ ms) ≡ Io (brief_of m) ∷ left_io j (with_io r m) ms }
    ensures io_over { (j : Job) (r : Request) (ms : List Arrival) →
        is_over r ≡ true → left_io j r ms ≡ [] }
    ensures reply_other { (j : Job) (k : ℕ) (r : Request) (m : Arrival) (ms : List Arrival) →
        is_reply j r m ≡ false → left_replies j k r (m ∷ ms) ≡ left_replies j k r ms }
    ensures reply_own { (j : Job) (k : ℕ) (r : Request) (m : Arrival) (clock : ℕ)
        (ms : List Arrival) → is_reply j r m ≡ true → is_over r ≡ false →
        left_replies j k r (m ∷ ms) ≡
        Reply (j.fatal k m.content) ∷ left_replies j k (with_reply r m clock) ms }
    ensures reply_over { (j : Job) (k : ℕ) (r : Request) (ms : List Arrival) →
        is_over r ≡ true → left_replies j k r ms ≡ [] }
{}

/// The request with the messages so far, message after message: one of its own is added, and
/// another changes nothing.
pub fn messages_are_added()
    ensures none { (j : Job) (r : Request) (clock : ℕ) → with_news j r [] [] clock ≡ r }
    ensures io_other { (j : Job) (r : Request) (ms : List Arrival) (m : Arrival) (clock : ℕ) →
        is_own j r m ≡ false →
        with_news j r (ms ++ m ∷ []) [] clock ≡ with_news j r ms [] clock }
    ensures io_own { (j : Job) (r : Request) (ms : List Arrival) (m : Arrival) (clock : ℕ) →
        is_own j r m ≡ true →
        with_news j r (ms ++ m ∷ []) [] clock ≡ with_io (with_news j r ms [] clock) m }
    ensures reply_other { (j : Job) (r : Request) (ms : List Arrival) (m : Arrival) (clock : ℕ) →
        is_reply j r m ≡ false →
        with_news j r [] (ms ++ m ∷ []) clock ≡ with_news j r [] ms clock }
    ensures reply_own { (j : Job) (r : Request) (ms : List Arrival) (m : Arrival) (clock : ℕ) →
        is_reply j r m ≡ true →
        with_news j r [] (ms ++ m ∷ []) clock ≡ with_reply (with_news j r [] ms clock) m clock }
{}

/// The core knows of the last request what it was told of it.
pub fn the_core_knows()
    ensures first { (j : Job) (told : List Event) (past : List Entry) (k : ℕ) (r : Request) →
        Agrees j told past → last_request 0 (requests j past) ≡ Some (k, r) →
        KnowsOf j told k r }
    ensures io { (j : Job) (told : List Event) (k : ℕ) (r : Request) (m : Arrival) →
        KnowsOf j told k r → KnowsOf j (Io (brief_of m) ∷ told) k (with_io r m) }
    ensures reply { (j : Job) (told : List Event) (k : ℕ) (r : Request) (m : Arrival)
        (clock : ℕ) → KnowsOf j told k r →
        KnowsOf j (Reply (j.fatal k m.content) ∷ told) k (with_reply r m clock) }
{}

/// While nothing has stopped the job, the core takes a message exactly where the request's idle
/// hasn't come, and a reply exactly where none has come.
pub fn the_core_takes()
    ensures io { (j : Job) (told : List Event) (k : ℕ) (r : Request) (b : Brief) →
        has_stopped j.task (heard j.task told) ≡ false → KnowsOf j told k r →
        takes_of j.task (Io b) told ≡ not (has_idle r.io) }
    ensures reply { (j : Job) (told : List Event) (k : ℕ) (r : Request) (fatal : Bool) →
        has_stopped j.task (heard j.task told) ≡ false → KnowsOf j told k r →
        takes_of j.task (Reply fatal) told ≡ not (is_some (reply r)) }
{}
