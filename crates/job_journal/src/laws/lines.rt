//! What our sides of the connections stand for goes on with the journal, and what a piece brings.
ghost use Rattle.std.specs.Prelude.{◌≡◌, ◌⊎◌, true, false, ℕ, List, [], ◌∷◌, ◌++◌};
ghost use Rattle.std.specs.Prelude.{Option, Some, is_some};
ghost use Rattle.world.specs.declared.chan.Chan as chan;
ghost use Rattle.world.specs.declared.conn.Conn as conn;
ghost use Rattle.world.specs.declared.entry.Entry.{Entry};
ghost use Rattle.world.specs.declared.entry.Entry.TheVariants.{Got};
ghost use Rattle.world.specs.Places.{is_at};
ghost use Rattle.zmtp_wire.specs.declared.fault.WireFault as fault;
ghost use Rattle.zmtp_wire.specs.Decoder.{Answer};
ghost use Rattle.zmtp_wire.specs.Meaning.{answer_to};
ghost use Rattle.zmtp_peer.specs.Peer.{Brings};
ghost use Rattle.kernel_lines.specs.declared.line.Line as side;
ghost use Rattle.kernel_lines.specs.Due.{sent_octets};
ghost use Rattle.kernel_lines.specs.Ends.{answer_by};
ghost use Rattle.kernel_lines.specs.Happened.{Came, came_in};
ghost use Rattle.kernel_lines.specs.Line.{StandsFor, role_of};
ghost use Rattle.kernel_lines.specs.Lines.{role_on};
ghost use Rattle.run_journal.specs.Codec.{Sending};
ghost use Rattle.run_journal.specs.Job.{Job};
ghost use Rattle.run_journal.specs.Jupyter.{Speaker, bodies_in, octets_of};
ghost use Rattle.run_journal.specs.Order.{begins_unread};
ghost use Rattle.run_journal.specs.Parts.{place, bytes_got};
ghost use Rattle.run_journal.specs.Requests.{is_broken};
ghost use Rattle.run_journal.specs.Why.{BadStream, fault_on};
ghost use Rattle.run_journal.specs.Agreement.{BringsNothing, is_got};
ghost use Rattle.run_journal.specs.Queue.{Queued, channel_of, news};
ghost use Rattle.job_journal.specs.Ended.{IsBrokenAs, IsWhole, bad_with};
ghost use Rattle.job_journal.specs.Plot.{Plot, facts};
ghost use Rattle.job_journal.specs.Line.{OnLine, given_as, is_got_at, is_on, parts_of};

use zmtp_wire::laws::decoder_answers;

/// A piece that came stands in the history; what the job queues at its entry is unsent.
pub fn lines_get_pieces()
    ensures { (s : Speaker) (j : Job) (c : chan.Chan) (old new : side.Line) (conn : conn.Conn)
        (room : ℕ) (piece : List ℕ) (past : List Entry) → is_at (place j c) conn ≡ true →
        role_of new ≡ role_of old → (l : OnLine s j c old [] past) →
        StandsFor new (Came piece ∷ l.past) l.out →
        OnLine s j c new (news j (Got conn room piece ∷ past) past) (Got conn room piece ∷ past) }
{}

/// An entry that brings nothing on a connection leaves it; what the job queues at it is unsent too.
pub fn lines_stay()
    ensures { (s : Speaker) (j : Job) (c : chan.Chan) (line : side.Line) (unsent : List Queued)
        (entry : Entry) (past : List Entry) → is_got_at (place j c) entry ≡ false →
        bytes_got j c (entry ∷ past) ≡ bytes_got j c past → OnLine s j c line unsent past →
        OnLine s j c line (unsent ++ news j (entry ∷ past) past) (entry ∷ past) }
{}

/// The first unsent message is sent on its channel, and on each other one nothing changes. What is
/// sent is the octets that the journal has as due.
pub fn lines_send_messages()
    ensures sent { (s : Speaker) (j : Job) (c : chan.Chan) (old new : side.Line) (q : Queued)
        (unsent : List Queued) (now : List Entry) → is_on c q ≡ true →
        role_of new ≡ role_of old → (l : OnLine s j c old (q ∷ unsent) now) →
        StandsFor new (given_as s q ∷ l.past) l.out → OnLine s j c new unsent now }
    ensures others { (s : Speaker) (j : Job) (c : chan.Chan) (line : side.Line) (q : Queued)
        (unsent : List Queued) (now : List Entry) → is_on c q ≡ false →
        OnLine s j c line (q ∷ unsent) now → OnLine s j c line unsent now }
    ensures octets { (s : Speaker) (what : Sending) (number ms : ℕ) →
        sent_octets (role_on (channel_of what)) (parts_of s what number ms) ≡
        octets_of s what number ms }
{}

/// A connection of which octets are handed out stands for the same.
pub fn lines_hand_out()
    ensures { (s : Speaker) (j : Job) (c : chan.Chan) (old new : side.Line) (unsent : List Queued)
        (now : List Entry) (more : List ℕ) → role_of new ≡ role_of old →
        (l : OnLine s j c old unsent now) → StandsFor new l.past (l.out ++ more) →
        OnLine s j c new unsent now }
{}

/// The bodies that a piece brings are those that it adds to what came, and the answer is that of
/// all that came.
pub fn pieces_bring_bodies()
    ensures { (s : Speaker) (j : Job) (c : chan.Chan) (line : side.Line) (unsent : List Queued)
        (past : List Entry) (piece : List ℕ) (bodies : List (List (List ℕ))) (answer : Answer) →
        (l : OnLine s j c line unsent past) →
        Brings (role_of line) (came_in l.past) piece [] bodies answer →
        (bodies_in c (bytes_got j c past ++ piece) ≡ bodies_in c (bytes_got j c past) ++ bodies)
        × (answer ≡ answer_to (role_on c) (bytes_got j c past ++ piece)) }
{
    decoder_answers();
}

/// Bytes that are got on a connection stand behind those got before. No other entry brings a byte,
/// where no connection is begun anew after it was read.
pub fn bytes_are_got()
    ensures own { (j : Job) (c : chan.Chan) (conn : conn.Conn) (room : ℕ) (bytes : List ℕ)
        (past : List Entry) → is_at (place j c) conn ≡ true →
        bytes_got j c (Got conn room bytes ∷ past) ≡ bytes_got j c past ++ bytes }
    ensures elsewhere { (j : Job) (c : chan.Chan) (conn : conn.Conn) (room : ℕ) (bytes : List ℕ)
        (past : List Entry) → is_at (place j c) conn ≡ false →
        bytes_got j c (Got conn room bytes ∷ past) ≡ bytes_got j c past }
    ensures none { (j : Job) (entry : Entry) (past : List Entry) → is_got j entry ≡ false →
        ((c : chan.Chan) → begins_unread j c (entry ∷ past) ≡ true) → BringsNothing j entry past }
{}

/// Where no stream was broken, one is with a piece exactly where our side answers a fault. The
/// stream is broken by the journal with the fault that our side answers, and stays so where no
/// byte comes on its channel.
pub fn pieces_break_streams()
    ensures breaks { (p : Plot) (c : chan.Chan) (entry : Entry) (past : List Entry)
        (fault : Option fault.WireFault) → is_broken (facts p) past ≡ false →
        ((d : chan.Chan) → (d ≡ c) ⊎
        (bytes_got (facts p) d (entry ∷ past) ≡ bytes_got (facts p) d past)) →
        answer_by fault ≡ answer_to (role_on c) (bytes_got (facts p) c (entry ∷ past)) →
        is_broken (facts p) (entry ∷ past) ≡ is_some fault }
    ensures fault { (p : Plot) (c : chan.Chan) (now : List Entry) (f : fault.WireFault) →
        answer_by (Some f) ≡ answer_to (role_on c) (bytes_got (facts p) c now) →
        IsBrokenAs (facts p) (bad_with c f) now }
    ensures stays { (j : Job) (bad : BadStream) (before now : List Entry) →
        bytes_got j bad.chan now ≡ bytes_got j bad.chan before → IsBrokenAs j bad before →
        IsBrokenAs j bad now }
{}

/// Where no stream was broken and bytes came on one channel alone, none is broken where that one
/// isn't. Where no byte came, none is broken that wasn't.
pub fn streams_stay_whole()
    ensures there { (j : Job) (c : chan.Chan) (before now : List Entry) → IsWhole j before →
        ((d : chan.Chan) → (d ≡ c) ⊎ (bytes_got j d now ≡ bytes_got j d before)) →
        is_some (fault_on j now c) ≡ false → IsWhole j now }
    ensures whole { (j : Job) (before now : List Entry) →
        ((c : chan.Chan) → bytes_got j c now ≡ bytes_got j c before) → IsWhole j before →
        IsWhole j now }
{}
