//! A piece that came: its bytes and bodies, the kernel's readiness, and then the messages of the
//! request that stands, one after another.
ghost use Rattle.std.specs.Prelude.{◌≡◌, ◌⊎◌, ◌&&◌, ℕ, Bool, true, false, List, [], ◌∷◌, ◌++◌};
ghost use Rattle.std.specs.Prelude.{None, Some};
ghost use Rattle.world.specs.declared.chan.Chan as chan;
ghost use Rattle.world.specs.declared.chan.Chan.TheVariants.{Shell, Control, Iopub, Heart};
ghost use Rattle.world.specs.declared.conn.Conn as conn;
ghost use Rattle.world.specs.declared.entry.Entry.{Entry};
ghost use Rattle.world.specs.declared.entry.Entry.TheVariants.{Got};
ghost use Rattle.world.specs.Places.{is_at};
ghost use Rattle.kernel_talk.specs.Asking.{is_ready as has_answered};
ghost use Rattle.cell_core.specs.declared.act.Act.{Act};
ghost use Rattle.cell_core.specs.declared.act.Act.TheVariants.{Send};
ghost use Rattle.cell_core.specs.declared.event.Event.TheVariants.{Io, Ready, Reply};
ghost use Rattle.cell_core.specs.declared.machine.Core as machine;
ghost use Rattle.cell_core.specs.Acts.{act_of, takes_of};
ghost use Rattle.cell_core.specs.Requests.{standing};
ghost use Rattle.job_notebook.specs.declared.notebook.JobNotebook as book;
ghost use Rattle.run_journal.specs.Codec.{Arrival};
ghost use Rattle.run_journal.specs.Parts.{place};
ghost use Rattle.run_journal.specs.Arrivals.{is_ready};
ghost use Rattle.run_journal.specs.Course.{brief_of};
ghost use Rattle.run_journal.specs.Requests.{is_exec_reply};
ghost use Rattle.job_journal.specs.Piece.{HasCome, Receives, RepliesBy, TakesBy, Within};
ghost use Rattle.job_journal.specs.Piece.{has_ended, is_of};
ghost use Rattle.job_journal.specs.Plot.{Plot, IsFor, facts, first};
ghost use Rattle.job_journal.specs.Standing.{Parts, StandsBy, IsToSend};
ghost use Rattle.job_journal.specs.Starting.{is_calm};
ghost use Rattle.job_journal.specs.Told.{Hears};
ghost use Rattle.job_journal.specs.Used.{Sent};

use zmtp_wire::laws::decoder_answers;

/// A piece has come once its bytes and all bodies that it brings were dealt with on its channel.
pub fn pieces_come()
    ensures { (p : Plot) (number : ℕ) (old new : Parts) (conn : conn.Conn) (room : ℕ)
        (bytes : List ℕ) (ms : List Arrival) (past : List Entry) →
        StandsBy p number old [] [] past → (c : chan.Chan) →
        is_at (place (facts p) c) conn ≡ true → Receives p c old new bytes ms past →
        HasCome p number new c ms (Got conn room bytes) past }
{
    decoder_answers();
}

/// The kernel doesn't become ready with a piece, where it was ready or still hasn't answered or
/// wasn't heard, and by a piece on control or on the heartbeat.
pub fn readiness_stays()
    ensures asked { (p : Plot) (number : ℕ) (x : Parts) (c : chan.Chan) (ms : List Arrival)
        (entry : Entry) (past : List Entry) → HasCome p number x c ms entry past →
        (x.is_ready ≡ true) ⊎ (has_answered x.asking ≡ false) →
        is_ready (facts p) (entry ∷ past) ≡ is_ready (facts p) past }
{}

/// A piece with which the kernel doesn't become ready: on control and on the heartbeat, and where
/// no request stands, the parts stand for the journal with it. Where a request stands that isn't
/// over, the messages are dealt with one after another.
pub fn pieces_begin()
    ensures control { (p : Plot) (number : ℕ) (x : Parts) (ms : List Arrival) (entry : Entry)
        (past : List Entry) → HasCome p number x Control ms entry past →
        StandsBy p number x [] [] (entry ∷ past) }
    ensures heart { (p : Plot) (number : ℕ) (x : Parts) (ms : List Arrival) (entry : Entry)
        (past : List Entry) → HasCome p number x Heart ms entry past →
        StandsBy p number x [] [] (entry ∷ past) }
    ensures none { (p : Plot) (number : ℕ) (x : Parts) (c : chan.Chan) (ms : List Arrival)
        (entry : Entry) (past : List Entry) → HasCome p number x c ms entry past →
        is_ready (facts p) (entry ∷ past) ≡ is_ready (facts p) past → x.request ≡ None →
        StandsBy p number x [] [] (entry ∷ past) }
    ensures some { (p : Plot) (number : ℕ) (x : Parts) (c : chan.Chan) (ms : List Arrival)
        (entry : Entry) (past : List Entry) → (h : HasCome p number x c ms entry past) →
        is_ready (facts p) (entry ∷ past) ≡ is_ready (facts p) past → (sent : Sent) →
        x.request ≡ Some sent → has_ended (standing (facts p).task h.core.told) ≡ false →
        Within p number x c [] ms entry past }
{}

/// A kernel that becomes ready with a piece: the first request comes to stand where the core sends
/// it, and none does where it neither sends nor saves nor stops.
pub fn readiness_starts()
    ensures sends { (p : Plot) (number : ℕ) (x : Parts) (c : chan.Chan) (ms : List Arrival)
        (entry : Entry) (past : List Entry) → (h : HasCome p number x c ms entry past) →
        x.is_ready ≡ false → has_answered x.asking ≡ true → (next : machine.Core) →
        IsFor p number x.session next x.book → Hears (facts p) next (Ready ∷ h.core.told) →
        (cell : ℕ) → act_of (facts p).task Ready h.core.told ≡ Send cell →
        IsToSend p number (record x { core = next; is_ready = true }) cell (entry ∷ past) }
    ensures waits { (p : Plot) (number : ℕ) (x : Parts) (c : chan.Chan) (ms : List Arrival)
        (entry : Entry) (past : List Entry) → (h : HasCome p number x c ms entry past) →
        x.is_ready ≡ false → has_answered x.asking ≡ true → (next : machine.Core) →
        IsFor p number x.session next x.book → Hears (facts p) next (Ready ∷ h.core.told) →
        (answer : Act) → act_of (facts p).task Ready h.core.told ≡ answer →
        is_calm answer ≡ true →
        StandsBy p number (record x { core = next; is_ready = true }) [] [] (entry ∷ past) }
{}

/// One message on IOPub: one that isn't of the request is passed over. One of its own is told to
/// the core, and used where the core takes it; by it the request goes on, or is over, and then no
/// further message of the piece is used.
pub fn messages_are_dealt_with()
    ensures other { (p : Plot) (number : ℕ) (x : Parts) (m : Arrival) (done rest : List Arrival)
        (entry : Entry) (past : List Entry) →
        Within p number x Iopub done (m ∷ rest) entry past → is_of x.request m.parent ≡ false →
        Within p number x Iopub (done ++ m ∷ []) rest entry past }
    ensures goes_on { (p : Plot) (number : ℕ) (x : Parts) (m : Arrival)
        (done rest : List Arrival) (entry : Entry) (past : List Entry) →
        (w : Within p number x Iopub done (m ∷ rest) entry past) → (next : machine.Core)
        (book : book.JobNotebook) (takes : Bool) → is_of x.request m.parent ≡ true →
        IsFor p number x.session next book →
        Hears (facts p) next (Io (brief_of m) ∷ w.core.told) →
        takes ≡ takes_of (facts p).task (Io (brief_of m)) w.core.told →
        TakesBy takes (first p) x.book book m →
        has_ended (standing (facts p).task (Io (brief_of m) ∷ w.core.told)) ≡ false →
        Within p number (record x { core = next; book = book }) Iopub (done ++ m ∷ []) rest
        entry past }
    ensures ends { (p : Plot) (number : ℕ) (x : Parts) (m : Arrival) (done rest : List Arrival)
        (entry : Entry) (past : List Entry) →
        (w : Within p number x Iopub done (m ∷ rest) entry past) → (next : machine.Core)
        (book : book.JobNotebook) (takes : Bool) → is_of x.request m.parent ≡ true →
        IsFor p number x.session next book →
        Hears (facts p) next (Io (brief_of m) ∷ w.core.told) →
        takes ≡ takes_of (facts p).task (Io (brief_of m)) w.core.told →
        TakesBy takes (first p) x.book book m →
        has_ended (standing (facts p).task (Io (brief_of m) ∷ w.core.told)) ≡ true →
        (s : StandsBy p number (record x { core = next; book = book }) [] [] (entry ∷ past))
        × (s.core.told ≡ Io (brief_of m) ∷ w.core.told) }
    ensures all { (p : Plot) (number : ℕ) (x : Parts) (done : List Arrival) (entry : Entry)
        (past : List Entry) → Within p number x Iopub done [] entry past →
        StandsBy p number x [] [] (entry ∷ past) }
{}

/// One message on shell: one that is no reply to the request is passed over. A reply to it is told
/// to the core, and used where the core takes it; by it the request goes on, or is over.
pub fn replies_are_dealt_with()
    ensures other { (p : Plot) (number : ℕ) (x : Parts) (m : Arrival) (done rest : List Arrival)
        (entry : Entry) (past : List Entry) →
        Within p number x Shell done (m ∷ rest) entry past →
        (is_exec_reply m.content && is_of x.request m.parent) ≡ false →
        Within p number x Shell (done ++ m ∷ []) rest entry past }
    ensures goes_on { (p : Plot) (number : ℕ) (x : Parts) (m : Arrival)
        (done rest : List Arrival) (entry : Entry) (past : List Entry) →
        (w : Within p number x Shell done (m ∷ rest) entry past) → (next : machine.Core)
        (book : book.JobNotebook) (takes : Bool) →
        (is_exec_reply m.content && is_of x.request m.parent) ≡ true →
        IsFor p number x.session next book →
        Hears (facts p) next (Reply ((facts p).fatal w.k m.content) ∷ w.core.told) →
        takes ≡ takes_of (facts p).task (Reply ((facts p).fatal w.k m.content)) w.core.told →
        RepliesBy takes (first p) x.book book m →
        has_ended (standing (facts p).task (Reply ((facts p).fatal w.k m.content) ∷ w.core.told))
        ≡ false → Within p number (record x { core = next; book = book }) Shell
        (done ++ m ∷ []) rest entry past }
    ensures ends { (p : Plot) (number : ℕ) (x : Parts) (m : Arrival) (done rest : List Arrival)
        (entry : Entry) (past : List Entry) →
        (w : Within p number x Shell done (m ∷ rest) entry past) → (next : machine.Core)
        (book : book.JobNotebook) (takes : Bool) →
        (is_exec_reply m.content && is_of x.request m.parent) ≡ true →
        IsFor p number x.session next book →
        Hears (facts p) next (Reply ((facts p).fatal w.k m.content) ∷ w.core.told) →
        takes ≡ takes_of (facts p).task (Reply ((facts p).fatal w.k m.content)) w.core.told →
        RepliesBy takes (first p) x.book book m →
        has_ended (standing (facts p).task (Reply ((facts p).fatal w.k m.content) ∷ w.core.told))
        ≡ true →
        (s : StandsBy p number (record x { core = next; book = book }) [] [] (entry ∷ past))
        × (s.core.told ≡ Reply ((facts p).fatal w.k m.content) ∷ w.core.told) }
    ensures all { (p : Plot) (number : ℕ) (x : Parts) (done : List Arrival) (entry : Entry)
        (past : List Entry) → Within p number x Shell done [] entry past →
        StandsBy p number x [] [] (entry ∷ past) }
{}
