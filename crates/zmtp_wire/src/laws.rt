//! Laws of the definitions, each the contract of a function without a body.
ghost use Rattle.std.specs.Prelude.{◌≡◌, ◌≢◌, ◌<◌, ◌≤◌, ℕ, Bool, List, [], ◌++◌, length, map, ◌⊎◌};
ghost use Rattle.std.specs.Prelude.{◌↔◌, None, Some, true, false};
ghost use Rattle.std.specs.List.{AllByRecursion};
ghost use Rattle.zmtp_wire.specs.declared.role.Role.{Role};
ghost use Rattle.zmtp_wire.specs.declared.fault.WireFault.{WireFault};
ghost use Rattle.zmtp_wire.specs.declared.fault.WireFault.TheVariants.{NoMemory as Starved};
ghost use Rattle.zmtp_wire.specs.declared.decoder.Decoder.{Decoder};
ghost use Rattle.zmtp_wire.specs.Command.{is_peer};
ghost use Rattle.zmtp_wire.specs.Fault.{clip, place_of};
ghost use Rattle.zmtp_wire.specs.Greeting.{newer_of};
ghost use Rattle.zmtp_wire.specs.Stream.{Message, Context, Stream, Broken, IsStream, IsBroken};
ghost use Rattle.zmtp_wire.specs.Stream.{IsShaken, Gives};
ghost use Rattle.zmtp_wire.specs.Decoder.{StandsFor, Brings, Answer, answer_of, role_of};
ghost use Rattle.zmtp_wire.specs.Meaning.{messages_in, contexts_in, answer_to, is_shaken};
ghost use Rattle.zmtp_wire.specs.Meaning.{rest_in, fault_in, Begins, Adds};
ghost use Rattle.zmtp_wire.specs.Writing.{greeting_octets, ready_octets, role_name};
ghost use Rattle.zmtp_wire.specs.Writing.{AreMessages, all_octets, Writing, message, AreWritings};
ghost use Rattle.zmtp_wire.specs.Writing.{writing_octets, messages_heard, contexts_heard};

/// Each list of octets is a stream or broken, never both, and either in one way.
pub fn one_reading()
    ensures one { (b : List ℕ) (r : Role) → IsStream b r ⊎ IsBroken b r }
    ensures not_both { (b : List ℕ) (r : Role) → IsStream b r → IsBroken b r → ⊥ }
    ensures one_stream { (b : List ℕ) (r : Role) (ms ms' : List Message)
        (owed owed' : List Context) (rest rest' : List ℕ) →
        Stream b r ms owed rest → Stream b r ms' owed' rest' →
        (ms ≡ ms') × (owed ≡ owed') × (rest ≡ rest') }
    ensures one_fault { (b : List ℕ) (r : Role) (e e' : WireFault) (at at' : ℕ)
        (ms ms' : List Message) (owed owed' : List Context) →
        Broken b r e at ms owed → Broken b r e' at' ms' owed' →
        (e ≡ e') × (at ≡ at') × (ms ≡ ms') × (owed ≡ owed') }
    ensures gives_one { (b : List ℕ) (r : Role) (ms ms' : List Message) (owed owed' : List Context)
        (answer answer' : Answer) → Gives r b ms owed answer → Gives r b ms' owed' answer' →
        (ms ≡ ms') × (owed ≡ owed') × (answer ≡ answer') }
{}

/// What octets give is a function of the role and the octets.
pub fn octets_give()
    ensures gives { (r : Role) (b : List ℕ) →
        Gives r b (messages_in r b) (contexts_in r b) (answer_to r b) }
    ensures only { (r : Role) (b : List ℕ) (ms : List Message) (owed : List Context)
        (answer : Answer) → Gives r b ms owed answer →
        (ms ≡ messages_in r b) × (owed ≡ contexts_in r b) × (answer ≡ answer_to r b) }
    ensures shaken { (r : Role) (b : List ℕ) → is_shaken r b ≡ true ↔ IsShaken r b }
    ensures short { (r : Role) (b : List ℕ) →
        AllByRecursion (λ context. length context ≤ 16) (contexts_in r b) }
{}

/// Whether octets are a stream, with what rest, and what is wrong with others and where, are such
/// functions too.
pub fn octets_are()
    ensures stream { (r : Role) (b : List ℕ) → fault_in r b ≡ None →
        Stream b r (messages_in r b) (contexts_in r b) (rest_in r b) }
    ensures only_stream { (r : Role) (b : List ℕ) (ms : List Message) (owed : List Context)
        (rest : List ℕ) → Stream b r ms owed rest → (fault_in r b ≡ None) × (rest ≡ rest_in r b) }
    ensures broken { (r : Role) (b : List ℕ) (e : WireFault) (at : ℕ) →
        fault_in r b ≡ Some (e, at) → Broken b r e at (messages_in r b) (contexts_in r b) }
    ensures only_broken { (r : Role) (b : List ℕ) (e : WireFault) (at : ℕ) (ms : List Message)
        (owed : List Context) → Broken b r e at ms owed → fault_in r b ≡ Some (e, at) }
{}

/// With more octets the messages and contexts so far stay, and so do READY, the version and a
/// fault.
pub fn octets_grow()
    ensures messages { (r : Role) (b more : List ℕ) →
        Begins (messages_in r b) (messages_in r (b ++ more)) }
    ensures contexts { (r : Role) (b more : List ℕ) →
        Begins (contexts_in r b) (contexts_in r (b ++ more)) }
    ensures shaken { (r : Role) (b more : List ℕ) →
        is_shaken r b ≡ true → is_shaken r (b ++ more) ≡ true }
    ensures newer { (b more : List ℕ) (newer : Bool) →
        newer_of b ≡ Some newer → newer_of (b ++ more) ≡ Some newer }
    ensures fault { (r : Role) (b more : List ℕ) (e : WireFault) (at : ℕ) →
        fault_in r b ≡ Some (e, at) → fault_in r (b ++ more) ≡ Some (e, at) }
    ensures broken { (r : Role) (b more : List ℕ) (e : WireFault) (at : ℕ) (ms : List Message)
        (owed : List Context) → Broken b r e at ms owed → Broken (b ++ more) r e at ms owed }
{}

/// Where nothing has come there is nothing, and it is a stream.
pub fn no_octets()
    ensures messages { (r : Role) → messages_in r [] ≡ [] }
    ensures contexts { (r : Role) → contexts_in r [] ≡ [] }
    ensures shaken { (r : Role) → is_shaken r [] ≡ false }
    ensures fault { (r : Role) → fault_in r [] ≡ None }
{}

/// A fault tells the place of the octet that breaks the stream, up to the last `u64`, and is never
/// want of memory.
pub fn faults_are_placed()
    ensures place { (b : List ℕ) (r : Role) (e : WireFault) (at : ℕ) (ms : List Message)
        (owed : List Context) → Broken b r e at ms owed → place_of e ≡ clip at }
    ensures within { (b : List ℕ) (r : Role) (e : WireFault) (at : ℕ) (ms : List Message)
        (owed : List Context) → Broken b r e at ms owed → at < length b }
    ensures cause { (b : List ℕ) (r : Role) (e : WireFault) (at : ℕ) (ms : List Message)
        (owed : List Context) → Broken b r e at ms owed → e ≢ Starved }
{}

/// A decoder that stands for octets answers what they give, and a piece brings the messages that it
/// adds.
pub fn decoder_answers()
    ensures answer { (d : Decoder) (b : List ℕ) (given : List Context) →
        StandsFor d b given → answer_of d ≡ answer_to (role_of d) b }
    ensures brings { (r : Role) (b piece : List ℕ) (old new : List Message) (answer : Answer) →
        Brings r b piece old new answer → Adds r b piece old new answer }
{}

/// Before READY was read there are no messages and no contexts.
pub fn ready_comes_first()
    ensures { (b : List ℕ) (r : Role) (ms : List Message) (owed : List Context) (answer : Answer) →
        Gives r b ms owed answer → (IsShaken r b → ⊥) → (ms ≡ []) × (owed ≡ []) }
{}

/// What we write is a stream with just these messages, for each role that may meet ours; a command
/// stands in it as what it means.
pub fn written_is_read()
    ensures messages { (r peer : Role) (ms : List Message) →
        is_peer r (Some (role_name peer)) ≡ true → AreMessages ms →
        Stream (greeting_octets ++ (ready_octets peer ++ all_octets ms)) r ms [] [] }
    ensures writings { (r peer : Role) (ws : List Writing) →
        is_peer r (Some (role_name peer)) ≡ true → AreWritings ws →
        Stream (greeting_octets ++ (ready_octets peer ++ writing_octets ws)) r
        (messages_heard r ws) (contexts_heard ws) [] }
{}

/// Writings one after another are read one after another, and messages alone are such writings.
pub fn writings_join()
    ensures octets { (ws vs : List Writing) →
        writing_octets (ws ++ vs) ≡ writing_octets ws ++ writing_octets vs }
    ensures messages { (r : Role) (ws vs : List Writing) →
        messages_heard r (ws ++ vs) ≡ messages_heard r ws ++ messages_heard r vs }
    ensures contexts { (ws vs : List Writing) →
        contexts_heard (ws ++ vs) ≡ contexts_heard ws ++ contexts_heard vs }
    ensures writable { (ws vs : List Writing) →
        AreWritings ws → AreWritings vs → AreWritings (ws ++ vs) }
    ensures all_octets { (ms : List Message) → writing_octets (map message ms) ≡ all_octets ms }
    ensures all_messages { (r : Role) (ms : List Message) →
        messages_heard r (map message ms) ≡ ms }
{}
