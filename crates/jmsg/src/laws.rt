//! What the definitions imply of every message.
ghost use Rattle.std.specs.Prelude.{◌≡◌, ℕ, List as Plain, Some};
ghost use Rattle.jmsg.specs.declared.message.Message as message;
ghost use Rattle.jmsg.specs.declared.decoded.Decoded as verdict;
ghost use Rattle.jmsg.specs.Date.{IsDateText, date_of};
ghost use Rattle.jmsg.specs.Decoding.{decode, verdict_on};
ghost use Rattle.jmsg.specs.Encoded.{encode, IsSendable};
ghost use Rattle.jmsg.specs.Signed.{Signed, Decodes};

use jtext::laws::compact_spells;

/// The parts to which a message is encoded under a key are that message, signed under that key; so
/// `decode` gives it again. Its dictionaries are objects with distinct keys nested at most 100
/// deep, and its parent's id is the one in its parent header.
pub fn encoded_is_signed()
    ensures { (key : Plain ℕ) (m : message.Message) → IsSendable m → Signed key (encode key m) m }
{
    compact_spells();
}

/// What parts are is a function of the key and the parts, and so is the message that they are.
pub fn decoded_is_signed()
    ensures verdict { (key : Plain ℕ) (parts : Plain (Plain ℕ)) →
        Decodes key parts (verdict_on key parts) }
    ensures only_verdict { (key : Plain ℕ) (parts : Plain (Plain ℕ)) (d : verdict.Decoded) →
        Decodes key parts d → d ≡ verdict_on key parts }
    ensures message { (key : Plain ℕ) (parts : Plain (Plain ℕ)) (m : message.Message) →
        decode key parts ≡ Some m → Signed key parts m }
    ensures only_message { (key : Plain ℕ) (parts : Plain (Plain ℕ)) (m : message.Message) →
        Signed key parts m → decode key parts ≡ Some m }
{}

/// A moment has one text, and it is a function of the moment.
pub fn one_date_text()
    ensures one { (ms : ℕ) (a b : Plain ℕ) → IsDateText ms a → IsDateText ms b → a ≡ b }
    ensures date { (ms : ℕ) (text : Plain ℕ) → IsDateText ms text → text ≡ date_of ms }
{}
