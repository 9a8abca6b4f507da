//! The signatures that were seen last.
ghost use Rattle.std.specs.Prelude.{◌≡◌, [], ◌∷◌, ◌++◌, ◌↔◌, List, ℕ, IsTrue, IfOk, OnErr, OnOk};
ghost use Rattle.std.specs.Prelude.{if◌then◌else◌};
ghost use Rattle.std.specs.List.{Contains};
ghost use Rattle.jsign.specs.History.{recent, IsFresh, StandsFor};

use circular_buffer::HeapCircularBuffer;
use jtext::NoMemory;
use std::alloc::Global;
use std::collections::BTreeSet;
use std::marker::Model;

/// How many signatures are kept.
const KEPT: usize = 65_536;

/// The last 65,536 signatures that were fresh, oldest first: a ring of 4 MiB that says which goes
/// next, beside an ordered set of the same signatures. A contract sees the list of them.
#[derive(Drop)]
pub struct Seen {
    known: BTreeSet<[u8; 64]>,
    ring: HeapCircularBuffer<[u8; 64]>,
}

impl Model for Seen {
    ghost use Rattle.std.specs.Prelude.{List, ℕ};
    ghost use Rattle.jsign.specs.History.{AreHeld};

    ghost Value = { List (List ℕ) };

    ghost view = { λ a. a.ring.items };

    ghost invariant = { λ a. AreHeld a.known a.ring };
}

impl Seen {
    /// No signature was seen yet. The whole ring is made here.
    pub fn new(alloc: Global) -> Result<Seen, NoMemory>
        ensures empty { IfOk result (λ seen. seen ≡ []) }
        ensures stands { IfOk result (λ seen. StandsFor seen []) }
    {
        let Ok(ring) = HeapCircularBuffer::with_capacity(alloc, KEPT) else {
            return Err(NoMemory);
        };
        Ok(Seen {
            known: BTreeSet::new(alloc),
            ring,
        })
    }

    /// Whether the signature isn't among the last 65,536 for which this was true; then it is kept,
    /// in place of the oldest where that many are. Without memory nothing changes.
    pub fn fresh(&mut self, sig: &[u8; 64]) -> Result<bool, NoMemory>
        ensures answer { IfOk result (λ fresh. IsTrue fresh ↔ ¬ (Contains self.old sig.now)) }
        ensures kept { IfOk result (λ fresh.
            self.new ≡ (if fresh then recent (self.old ++ sig.now ∷ []) else self.old)) }

        // The same, over all the signatures that were offered since it was made.
        ensures history { (offered : List (List ℕ)) → StandsFor self.old offered →
            IfOk result (λ fresh. (IsTrue fresh ↔ IsFresh offered sig.now) ×
            StandsFor self.new (offered ++ sig.now ∷ [])) }
        ensures err { OnErr result (self.new ≡ self.old) }
    {
        if self.known.contains(sig) {
            return Ok(false);
        }
        let Ok(_) = self.known.insert(*sig) else {
            return Err(NoMemory);
        };
        if let Some(oldest) = self.ring.push_back(*sig) {
            self.known.remove(&oldest);
        }
        Ok(true)
    }
}
