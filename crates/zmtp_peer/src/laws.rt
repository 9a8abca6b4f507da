//! Laws of the definitions, each the contract of a function without a body.
ghost use Rattle.std.specs.Prelude.{◌≡◌, ℕ, Bool, List, [], ◌∷◌, ◌++◌, cond, ◌||◌, not, Some, Ok};
ghost use Rattle.std.specs.Prelude.{true};
ghost use Rattle.zmtp_wire.specs.declared.role.Role.{Role};
ghost use Rattle.zmtp_wire.specs.Command.{is_peer, is_pub};
ghost use Rattle.zmtp_wire.specs.Meaning.{Begins};
ghost use Rattle.zmtp_wire.specs.Stream.{Message, Context, Gives, Stream};
ghost use Rattle.zmtp_wire.specs.Writing.{greeting_octets, ready_octets, role_name, all_octets};
ghost use Rattle.zmtp_wire.specs.Writing.{AreMessages, AreWritings, writing_octets, messages_heard};
ghost use Rattle.zmtp_wire.specs.Writing.{contexts_heard};
ghost use Rattle.zmtp_peer.specs.Envelope.{has_envelope, bodies_of};
ghost use Rattle.zmtp_peer.specs.Reply.{Owes, owed_octets, owed_writings, subscription_writing};
ghost use Rattle.zmtp_peer.specs.Reply.{pong_writing, subscribe_message};
ghost use Rattle.zmtp_peer.specs.Sending.{AreBodies, all_enveloped};

/// What one side sends, its start and then messages, the other side reads as just these bodies,
/// where the two may meet and both have the envelope or neither.
pub fn sent_is_read()
    ensures gives { (r peer : Role) (ms : List Message) →
        is_peer r (Some (role_name peer)) ≡ true → AreBodies ms →
        Gives r (greeting_octets ++ (ready_octets peer ++ all_octets (all_enveloped peer ms)))
        (all_enveloped peer ms) [] (Ok tt) }
    ensures bodies { (r peer : Role) (ms : List Message) → has_envelope r ≡ has_envelope peer →
        bodies_of r (all_enveloped peer ms) ≡ ms }
{}

/// What a role owes is a function of what the other side has sent, and with more of that it grows.
pub fn owed_is_given()
    ensures owes { (r : Role) (b : List ℕ) → Owes r b (owed_octets r b) }
    ensures only { (r : Role) (b octets : List ℕ) → Owes r b octets → octets ≡ owed_octets r b }
    ensures grows { (r : Role) (b more : List ℕ) →
        Begins (owed_octets r b) (owed_octets r (b ++ more)) }
    ensures none { (r : Role) → owed_octets r [] ≡ [] }
{}

/// What is owed may be written, and is octets of commands and messages. The other side reads a
/// subscription as the message `01`, and passes over a PONG; a subscription as a command means
/// something to a PUB alone.
pub fn replies_are_read()
    ensures written { (r : Role) (b : List ℕ) →
        writing_octets (owed_writings r b) ≡ owed_octets r b }
    ensures writable { (r : Role) (b : List ℕ) → AreWritings (owed_writings r b) }
    ensures subscription { (r : Role) (newer : Bool) →
        messages_heard r (subscription_writing newer ∷ []) ≡
        cond (is_pub r || not newer) (subscribe_message ∷ []) [] }
    ensures pong { (r : Role) (context : Context) →
        messages_heard r (pong_writing context ∷ []) ≡ [] }
    ensures no_ping { (r : Role) (b : List ℕ) → contexts_heard (owed_writings r b) ≡ [] }
    ensures read { (r peer : Role) (b : List ℕ) (ms : List Message) →
        is_peer r (Some (role_name peer)) ≡ true → AreMessages ms →
        Stream (greeting_octets ++ (ready_octets peer ++ (owed_octets peer b ++ all_octets ms))) r
        (messages_heard r (owed_writings peer b) ++ ms) [] [] }
{}
