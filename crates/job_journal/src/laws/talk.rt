//! The asking whether the kernel is ready, and the numbers of messages, go on with the journal.
ghost use Rattle.std.specs.Prelude.{◌≡◌, ◌⊎◌, ◌+◌, ℕ, List, [], ◌∷◌, ◌++◌, true, false, Some, None};
ghost use Rattle.std.specs.Prelude.{length, count_by, if◌then◌else◌};
ghost use Rattle.world.specs.declared.chan.Chan.TheVariants.{Shell, Iopub};
ghost use Rattle.world.specs.declared.entry.Entry.{Entry};
ghost use Rattle.world.specs.declared.entry.Entry.TheVariants.{Moment};
ghost use Rattle.world.specs.Waits.{moment_of};
ghost use Rattle.world.specs.Places.{time};
ghost use Rattle.kernel_lines.specs.declared.lines.Lines as sides;
ghost use Rattle.kernel_lines.specs.Line.{taken_of};
ghost use Rattle.kernel_lines.specs.Lines.{line_on};
ghost use Rattle.kernel_lines.specs.Lines as lines;
ghost use Rattle.kernel_talk.specs.Asking.{Asked, asks, answered_by};
ghost use Rattle.kernel_talk.specs.Requests.{Identity};
ghost use Rattle.run_journal.specs.Codec.{Arrival, Info, Execute};
ghost use Rattle.run_journal.specs.Job.{Job};
ghost use Rattle.run_journal.specs.Looks.{pings};
ghost use Rattle.run_journal.specs.Parts.{bytes_put};
ghost use Rattle.run_journal.specs.Requests.{requests};
ghost use Rattle.run_journal.specs.Arrivals.{arrive, ask_state, can_ask, is_info_reply, is_ready};
ghost use Rattle.run_journal.specs.Queue.{Queued, count_messages, news};
ghost use Rattle.job_journal.specs.Line.{OnLine};
ghost use Rattle.job_journal.specs.Plot.{Plot, facts, speaker};
ghost use Rattle.job_journal.specs.Talk.{OnTalk, has_number, heard_on_shell, heard_on_iopub};
ghost use Rattle.job_journal.specs.Used.{anew};

use zmtp_peer::laws::owed_is_given;
use zmtp_wire::laws::{octets_give, octets_grow, ready_comes_first};

/// By an entry that isn't of the clock the asking goes on by the messages that arrive; by a clock
/// entry a kernel that can be asked is asked, where the gap has passed.
pub fn the_asking_goes_on()
    ensures arrivals { (j : Job) (entry : Entry) (past : List Entry) → moment_of entry ≡ None →
        ask_state j (entry ∷ past) ≡ heard_on_iopub (heard_on_shell (ask_state j past)
        (arrive j Shell entry past)) (arrive j Iopub entry past) }
    ensures clock { (j : Job) (ms : ℕ) (past : List Entry) → ask_state j (Moment ms ∷ past) ≡
        (if asks (ask_state j past) (can_ask j past) ms then record {
          ids = (ask_state j past).ids ++ j.msg_id (length (ask_state j past).ids + 1) ∷ [];
          at = Some ms;
          told = (ask_state j past).told;
          heard = (ask_state j past).heard;
        } else ask_state j past) }
{}

/// The asking, message after message: a `kernel_info_reply` with a parent is noted, another message
/// on shell changes nothing, and each message on IOPub is noted.
pub fn messages_are_noted()
    ensures reply { (a : Asked) (ms : List Arrival) (m : Arrival) (parent : List ℕ) →
        is_info_reply m.content ≡ true → m.parent ≡ Some parent →
        heard_on_shell a (ms ++ m ∷ []) ≡ answered_by (heard_on_shell a ms) parent }
    ensures shell { (a : Asked) (ms : List Arrival) (m : Arrival) →
        (is_info_reply m.content ≡ false) ⊎ (m.parent ≡ None) →
        heard_on_shell a (ms ++ m ∷ []) ≡ heard_on_shell a ms }
    ensures iopub { (a : Asked) (ms : List Arrival) (m : Arrival) →
        heard_on_iopub a (ms ++ m ∷ []) ≡
        record { ids = a.ids; at = a.at; told = a.told; heard = true } }
{}

/// Where no interrupt is asked for, the count of messages grows with an entry by those that are
/// queued at it. A request that comes to stand while nothing more is asked has the next number, and
/// while the kernel isn't ready only questions were queued.
pub fn messages_are_numbered()
    ensures count { (j : Job) (entry : Entry) (past : List Entry) →
        j.task.times.interrupt ≡ false → count_messages j (entry ∷ past) ≡
        count_messages j past + count_by has_number (news j (entry ∷ past) past) }
    ensures request { (j : Job) (entry : Entry) (past : List Entry) →
        j.task.times.interrupt ≡ false → (ask_state j (entry ∷ past)).ids ≡ (ask_state j past).ids →
        (anew j entry past).number ≡ count_messages j past + 1 }
    ensures question { (j : Job) (past : List Entry) → j.task.times.interrupt ≡ false →
        is_ready j past ≡ false → count_messages j past ≡ length (ask_state j past).ids }
{}

/// The talk stands for the journal with one more entry, where the asking does, and the messages
/// that are queued at it are unsent. Each message that is made is one unsent less.
pub fn the_talk_goes_on()
    ensures entry { (j : Job) (old new : Asked) (session : Identity) (unsent : List Queued)
        (entry : Entry) (past : List Entry) → j.task.times.interrupt ≡ false →
        new ≡ ask_state j (entry ∷ past) → OnTalk j old session unsent past →
        OnTalk j new session (unsent ++ news j (entry ∷ past) past) (entry ∷ past) }
    ensures made { (j : Job) (asking : Asked) (old new : Identity) (q : Queued)
        (unsent : List Queued) (now : List Entry) → has_number q ≡ true →
        new.made ≡ old.made + 1 → OnTalk j asking old (q ∷ unsent) now →
        OnTalk j asking new unsent now }
    ensures ping { (j : Job) (asking : Asked) (session : Identity) (q : Queued)
        (unsent : List Queued) (now : List Entry) → has_number q ≡ false →
        OnTalk j asking session (q ∷ unsent) now → OnTalk j asking session unsent now }
{}

/// The kernel can be asked by our sides of the connections exactly where it can by the journal,
/// once the octets that were taken on IOPub are those that were put.
pub fn the_kernel_can_be_asked()
    ensures { (p : Plot) (ls : sides.Lines) (shell iopub : List Queued) (now : List Entry)
        (a : OnLine (speaker p) (facts p) Shell (line_on ls Shell) shell now)
        (b : OnLine (speaker p) (facts p) Iopub (line_on ls Iopub) iopub now) →
        taken_of (line_on ls Iopub) ≡ length (bytes_put (facts p) Iopub now) →
        lines.can_ask ls a.past b.past ≡ can_ask (facts p) now }
{
    octets_give();
    octets_grow();
    ready_comes_first();
    owed_is_given();
}

/// What is queued at an entry, where no interrupt is asked for: nothing where nothing grows, the
/// request that comes to stand, or the question, each with the next number.
pub fn messages_are_queued()
    ensures none { (j : Job) (entry : Entry) (past : List Entry) →
        j.task.times.interrupt ≡ false →
        length (ask_state j (entry ∷ past)).ids ≡ length (ask_state j past).ids →
        length (requests j (entry ∷ past)) ≡ length (requests j past) →
        length (pings j (entry ∷ past)).queued ≡ length (pings j past).queued →
        news j (entry ∷ past) past ≡ [] }
    ensures request { (j : Job) (entry : Entry) (past : List Entry) →
        j.task.times.interrupt ≡ false →
        length (ask_state j (entry ∷ past)).ids ≡ length (ask_state j past).ids →
        length (requests j (entry ∷ past)) ≡ length (requests j past) + 1 →
        length (pings j (entry ∷ past)).queued ≡ length (pings j past).queued →
        news j (entry ∷ past) past ≡ record {
          what = Execute (length (requests j past));
          number = count_messages j past + 1;
          date = time (entry ∷ past);
        } ∷ [] }
    ensures question { (j : Job) (entry : Entry) (past : List Entry) →
        j.task.times.interrupt ≡ false →
        length (ask_state j (entry ∷ past)).ids ≡ length (ask_state j past).ids + 1 →
        length (requests j (entry ∷ past)) ≡ length (requests j past) →
        length (pings j (entry ∷ past)).queued ≡ length (pings j past).queued →
        news j (entry ∷ past) past ≡ record {
          what = Info;
          number = count_messages j past + 1;
          date = time (entry ∷ past);
        } ∷ [] }
{}
