//! The ports that a run has given to its jobs.
ghost use Rattle.std.specs.Prelude.{◌≡◌, ◌<◌, ◌++◌, ◌∷◌, [], true, Contains, IfSome, OnOk};
ghost use Rattle.world_real.specs.Ports.{AreFresh};

use std::alloc::{AllocError, Global};

/// Ports that were given and are not given again.
#[derive(Drop)]
pub(crate) struct GivenPorts {
    ports: Vec<u16>,
}

impl GivenPorts {
    /// No port yet.
    pub(crate) fn new(alloc: Global) -> GivenPorts
        ensures { result.ports.items ≡ [] }
    {
        GivenPorts {
            ports: Vec::new(alloc),
        }
    }

    /// These five, where they may be given.
    pub(crate) fn five_of(&self, a: u16, b: u16, c: u16, d: u16, e: u16) -> Option<[u16; 5]>
        ensures fresh { IfSome result (AreFresh self.now.ports.items) }
        ensures are { IfSome result (λ five. five ≡ a ∷ b ∷ c ∷ d ∷ e ∷ []) }
    {
        if a == b || a == c || a == d || a == e || b == c || b == d || b == e {
            return None;
        }
        if c == d || c == e || d == e {
            return None;
        }
        if self.is_fresh(a) && self.is_fresh(b) && self.is_fresh(c) && self.is_fresh(d) {
            if self.is_fresh(e) {
                return Some([a, b, c, d, e]);
            }
        }
        None
    }

    // Whether the port may be given.
    fn is_fresh(&self, port: u16) -> bool
        ensures above { result ≡ true → 0 < port }
        ensures fresh { result ≡ true → Contains self.now.ports.items port → ⊥ }
    {
        0 < port && !self.ports.contains(&port)
    }

    /// Has given these five.
    pub(crate) fn keep(&mut self, five: [u16; 5]) -> Result<(), AllocError>
        ensures { OnOk result (self.new.ports.items ≡ self.old.ports.items ++ five) }
    {
        self.ports.extend_from_slice(&five)
    }
}
