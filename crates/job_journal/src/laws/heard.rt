//! What is heard in the bodies of a piece, one after another, and which signatures are seen.
ghost use Rattle.std.specs.Prelude.{◌≡◌, ◌↔◌, ℕ, List, [], ◌∷◌, ◌++◌, Bool, IsTrue, Some, None};
ghost use Rattle.std.specs.Prelude.{length, if◌then◌else◌};
ghost use Rattle.world.specs.declared.chan.Chan as chan;
ghost use Rattle.world.specs.declared.entry.Entry.{Entry};
ghost use Rattle.jsign.specs.History.{IsFresh, StandsFor, signatures_of};
ghost use Rattle.jmsg.specs.declared.message.Message as message;
ghost use Rattle.jmsg.specs.Decoding.{decode};
ghost use Rattle.jmsg.specs.Signed.{Frames, Signed};
ghost use Rattle.run_journal.specs.Codec.{Arrival};
ghost use Rattle.run_journal.specs.Job.{Job};
ghost use Rattle.run_journal.specs.Jupyter.{bodies_in, signature_frame, signed_items};
ghost use Rattle.run_journal.specs.Parts.{bytes_got};
ghost use Rattle.run_journal.specs.Arrivals.{arrive};
ghost use Rattle.job_journal.specs.Seen.{HasSeen, HasHeard, ReadsSigned, and_heard};

use jsign::laws::signature_is_long;

/// Body after body of a piece: nothing is heard before the first; one that is no signed message is
/// passed over; a signed message is heard where its signature is fresh, and its signature is seen.
pub fn bodies_are_heard()
    ensures first { (key : List ℕ) (before : List (List (List ℕ))) (seen : List (List ℕ)) →
        HasSeen key seen before → HasHeard key before [] seen [] }
    ensures unsigned { (key : List ℕ) (before done : List (List (List ℕ)))
        (seen : List (List ℕ)) (messages : List Arrival) (parts : List (List ℕ)) →
        decode key parts ≡ None → HasHeard key before done seen messages →
        HasHeard key before (done ++ parts ∷ []) seen messages }
    ensures signed { (key : List ℕ) (before done : List (List (List ℕ)))
        (old new : List (List ℕ)) (messages : List Arrival) (parts : List (List ℕ))
        (m : message.Message) (fresh : Bool) → decode key parts ≡ Some m →
        HasHeard key before done old messages →
        (IsTrue fresh ↔ IsFresh (signatures_of (signed_items key (before ++ done)))
        (signature_frame parts)) →
        StandsFor new (signatures_of (signed_items key (before ++ done)) ++
        signature_frame parts ∷ []) →
        HasHeard key before (done ++ parts ∷ []) new
        (and_heard messages (if fresh then Some m else None)) }
{}

/// Once all bodies of a piece are dealt with, what was heard is what arrives with it. An entry that
/// brings no byte changes nothing of what was seen.
pub fn pieces_are_heard()
    ensures whole { (key : List ℕ) (j : Job) (c : chan.Chan) (entry : Entry) (past : List Entry)
        (bodies : List (List (List ℕ))) (seen : List (List ℕ)) (messages : List Arrival) →
        ReadsSigned key j c →
        bodies_in c (bytes_got j c (entry ∷ past)) ≡ bodies_in c (bytes_got j c past) ++ bodies →
        HasHeard key (bodies_in c (bytes_got j c past)) bodies seen messages →
        (arrive j c entry past ≡ messages)
        × HasSeen key seen (bodies_in c (bytes_got j c (entry ∷ past))) }
    ensures quiet { (key : List ℕ) (j : Job) (c : chan.Chan) (entry : Entry) (past : List Entry)
        (seen : List (List ℕ)) → bytes_got j c (entry ∷ past) ≡ bytes_got j c past →
        HasSeen key seen (bodies_in c (bytes_got j c past)) →
        HasSeen key seen (bodies_in c (bytes_got j c (entry ∷ past))) }
{}

/// The signature of a message is the first frame after the delimiter, and has 64 digits.
pub fn signatures_are_frames()
    ensures frame { (parts : List (List ℕ)) (f : Frames parts) →
        signature_frame parts ≡ f.signature }
    ensures long { (key : List ℕ) (parts : List (List ℕ)) (m : message.Message) →
        Signed key parts m → length (signature_frame parts) ≡ 64 }
{
    signature_is_long();
}
