//! All parts of an execution go on with the journal: at entries that change nothing, at those of
//! the clock, and where a connection is served.
ghost use Rattle.std.specs.Prelude.{◌≡◌, ◌≤◌, ◌+◌, ℕ, Bool, true, false, List, [], ◌∷◌, ◌++◌};
ghost use Rattle.std.specs.Prelude.{Some, length};
ghost use Rattle.world.specs.declared.chan.Chan as chan;
ghost use Rattle.world.specs.declared.chan.Chan.TheVariants.{Heart, Iopub, Shell};
ghost use Rattle.world.specs.declared.conn.Conn as conn;
ghost use Rattle.world.specs.declared.connected.Connected as connected;
ghost use Rattle.world.specs.declared.did.Did as did;
ghost use Rattle.world.specs.declared.did.Did.TheVariants.{Failed};
ghost use Rattle.world.specs.declared.entry.Entry.{Entry};
ghost use Rattle.world.specs.declared.entry.Entry.TheVariants.{Connected, DirSynced, Moment, Said};
ghost use Rattle.world.specs.Moments.{Since};
ghost use Rattle.said_lines.specs.Speech.{Speech};
ghost use Rattle.kernel_lines.specs.declared.lines.Lines as sides;
ghost use Rattle.kernel_lines.specs.Happened.{Given, History};
ghost use Rattle.kernel_lines.specs.Line.{StandsFor, role_of, taken_of};
ghost use Rattle.kernel_lines.specs.Lines.{OthersStay, line_on, can_ask as lines_can_ask};
ghost use Rattle.kernel_talk.specs.Asking.{asks};
ghost use Rattle.kernel_talk.specs.Requests.{Identity, message_id};
ghost use Rattle.cell_core.specs.declared.event.Event.{Event};
ghost use Rattle.cell_core.specs.Events as events;
ghost use Rattle.run_journal.specs.Codec.{Info};
ghost use Rattle.run_journal.specs.Job.{Job};
ghost use Rattle.run_journal.specs.Order.{begins_unread};
ghost use Rattle.run_journal.specs.Parts.{bytes_put, is_acknowledging};
ghost use Rattle.run_journal.specs.Arrivals.{can_ask};
ghost use Rattle.run_journal.specs.Requests.{is_broken};
ghost use Rattle.run_journal.specs.Queue.{Queued};
ghost use Rattle.job_journal.specs.Line.{parts_of};
ghost use Rattle.job_journal.specs.Plot.{Plot, IsFor, facts, speaker};
ghost use Rattle.job_journal.specs.Quiet.{IsQuiet, IsQuietNow, is_quiet};
ghost use Rattle.job_journal.specs.Standing.{Hands, Parts, Sends, StandsBy, IsToSend};
ghost use Rattle.job_journal.specs.Standing.{HasEndedAs, question};
ghost use Rattle.job_journal.specs.Told.{was_asked};

use crate::laws::talk::the_kernel_can_be_asked;

/// Quiet entries change nothing of what the parts stand for.
pub fn quiet_entries_pass()
    ensures stands { (p : Plot) (number : ℕ) (x : Parts) (unsent : List Queued)
        (pending : List Event) (before now : List Entry) → Since (IsQuietNow (facts p)) before now →
        StandsBy p number x unsent pending before → StandsBy p number x unsent pending now }
    ensures to_send { (p : Plot) (number : ℕ) (x : Parts) (cell : ℕ) (before now : List Entry) →
        Since (IsQuietNow (facts p)) before now → IsToSend p number x cell before →
        IsToSend p number x cell now }
    ensures ended { (p : Plot) (before now : List Entry) →
        (facts p).task.times.interrupt ≡ false → Since (IsQuietNow (facts p)) before now →
        HasEndedAs p before → HasEndedAs p now }
    ensures whole { (j : Job) (before now : List Entry) → Since (IsQuietNow j) before now →
        is_broken j now ≡ is_broken j before }
{}

/// Which entries are quiet for a job: by their kind; a sync of a folder that acknowledges none of
/// its saves; a connect where nothing was read on the connection before.
pub fn entries_are_quiet()
    ensures kinds { (j : Job) (entry : Entry) (past : List Entry) → is_quiet j entry ≡ true →
        IsQuiet j entry past }
    ensures syncs { (j : Job) (dir : List ℕ) (did : did.Did) (past : List Entry) →
        is_acknowledging j (DirSynced dir did ∷ past) ≡ false → IsQuiet j (DirSynced dir did) past }
    ensures connects { (j : Job) (conn : conn.Conn) (port : ℕ) (how : connected.Connected)
        (past : List Entry) →
        ((c : chan.Chan) → begins_unread j c (Connected conn port how ∷ past) ≡ true) →
        IsQuiet j (Connected conn port how) past }
{}

/// What is said is quiet for every job, and a say that fails behind it too.
pub fn said_lines_are_quiet()
    ensures said { (j : Job) (text : List ℕ) (past : List Entry) (rest : List ℕ)
        (now : List Entry) → Speech text past rest now → Since (IsQuietNow j) past now }
    ensures failed { (j : Job) (text : List ℕ) (past : List Entry) (rest : List ℕ)
        (now : List Entry) → Speech text past rest now →
        Since (IsQuietNow j) past (Said rest Failed ∷ now) }
{}

/// The kernel can be asked by the connections exactly where it can by the journal, once the octets
/// that were taken on IOPub are those that were put.
pub fn connections_can_ask()
    ensures { (p : Plot) (number : ℕ) (x : Parts) (now : List Entry) →
        StandsBy p number x [] [] now →
        taken_of (line_on x.lines Iopub) ≡ length (bytes_put (facts p) Iopub now) →
        (can : Bool) → ((shell iopub : History) (out given : List ℕ) →
        StandsFor (line_on x.lines Shell) shell out →
        StandsFor (line_on x.lines Iopub) iopub given →
        can ≡ lines_can_ask x.lines shell iopub) → can ≡ can_ask (facts p) now }
{
    the_kernel_can_be_asked();
}

/// What is done on a connection without a message of the job's: octets are handed out or noted as
/// taken, and a ping is sent. The parts stand for the journal as before.
pub fn connections_are_served()
    ensures handed { (p : Plot) (number : ℕ) (x : Parts) (unsent : List Queued)
        (pending : List Event) (now : List Entry) (c : chan.Chan) (lines : sides.Lines) →
        Hands c x.lines lines → StandsBy p number x unsent pending now →
        StandsBy p number (record x { lines = lines }) unsent pending now }
    ensures pinged { (p : Plot) (number : ℕ) (x : Parts) (unsent : List Queued)
        (pending : List Event) (now : List Entry) (lines : sides.Lines)
        (parts : List (List ℕ)) → OthersStay Heart x.lines lines →
        role_of (line_on lines Heart) ≡ role_of (line_on x.lines Heart) →
        ((h : History) (out : List ℕ) → StandsFor (line_on x.lines Heart) h out →
        StandsFor (line_on lines Heart) (Given parts ∷ h) out) →
        StandsBy p number x unsent pending now →
        StandsBy p number (record x { lines = lines }) unsent pending now }
{}

/// A clock entry: the kernel is asked where it can be and the gap has passed, and then the question
/// is to be sent. It is sent once its message was made and given to the connection for shell. The
/// core was told the clock, unless the kernel was never asked.
pub fn clock_entries_ask()
    ensures passes { (p : Plot) (number : ℕ) (x : Parts) (past : List Entry) (ms : ℕ) →
        (h : StandsBy p number x [] [] past) → (can : Bool) → can ≡ can_ask (facts p) past →
        (was_asked (facts p) (Moment ms ∷ past) ≡ true → ms ≤ events.time h.core.told) →
        asks x.asking can ms ≡ false →
        StandsBy p number (record x { clock = ms }) [] [] (Moment ms ∷ past) }
    ensures asks { (p : Plot) (number : ℕ) (x : Parts) (past : List Entry) (ms : ℕ) →
        (h : StandsBy p number x [] [] past) → (can : Bool) → can ≡ can_ask (facts p) past →
        ms ≤ events.time h.core.told → asks x.asking can ms ≡ true →
        StandsBy p number (record x {
          clock = ms;
          asking = record {
            ids = x.asking.ids ++ message_id p.setting.session (x.session.made + 1) ∷ [];
            at = Some ms;
            told = x.asking.told;
            heard = x.asking.heard;
          };
        }) (question (x.session.made + 1) ms ∷ []) [] (Moment ms ∷ past) }
    ensures sent { (p : Plot) (number : ℕ) (x : Parts) (now : List Entry) (lines : sides.Lines)
        (session : Identity) →
        StandsBy p number x (question (x.session.made + 1) x.clock ∷ []) [] now →
        IsFor p number session x.core x.book →
        Sends x.lines lines (parts_of (speaker p) Info session.made x.clock) →
        session.made ≡ x.session.made + 1 →
        StandsBy p number (record x { lines = lines; session = session }) [] [] now }
{}
