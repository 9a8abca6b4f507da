//! What the definitions need of the reading of bytes, and that Jupyter's has it.
ghost use Rattle.std.specs.Prelude.{◌≡◌, ℕ, List, ◌∷◌, ◌++◌};
ghost use Rattle.world.specs.declared.chan.Chan.{Chan};
ghost use Rattle.world.specs.declared.entry.Entry.{Entry};
ghost use Rattle.run_journal.specs.Job.{Job};
ghost use Rattle.run_journal.specs.Parts.{bytes_got};
ghost use Rattle.run_journal.specs.Arrivals.{heard, arrive};
ghost use Rattle.run_journal.specs.Decoding.{IsDecoding};
ghost use Rattle.run_journal.specs.Jupyter.{Speaker, jupyter_codec};

use zmtp_peer::laws::owed_is_given;
use zmtp_wire::laws::{no_octets, octets_grow};

/// Of what a kernel has sent under Jupyter's protocol, messages and debts only grow with more
/// bytes, and a finished handshake and a fault stay.
pub fn jupyter_is_read()
    ensures { (s : Speaker) → IsDecoding (jupyter_codec s) }
{
    octets_grow();
    no_octets();
    owed_is_given();
}

/// Where an entry adds bytes, what was heard by then is what was heard before, and what arrived
/// with it.
pub fn arrivals_are_heard()
    ensures { (j : Job) → IsDecoding j.codec → (c : Chan) (entry : Entry) (past : List Entry)
        (more : List ℕ) → bytes_got j c (entry ∷ past) ≡ bytes_got j c past ++ more →
        heard j c (entry ∷ past) ≡ heard j c past ++ arrive j c entry past }
{}
