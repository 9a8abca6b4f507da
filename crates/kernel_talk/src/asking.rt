//! `Asking`, whether a kernel is ready.
ghost use Rattle.std.specs.Prelude.{◌≡◌, ◌<◌, ◌^◌, ◌++◌, ◌∷◌, [], Some, true, OnOk, OnErr};
ghost use Rattle.jtext.specs.Texts.{is_among};
ghost use Rattle.kernel_talk.specs.Asking as asking;

use jtext::{NoMemory, Text, Texts};
use std::alloc::Global;
use std::marker::Model;

/// The milliseconds between two requests.
const GAP_MS: u64 = 500;

/// Asks a kernel again and again until it is ready: until it answered a `kernel_info_request` and was
/// heard on IOPub (Jupyter messaging 5.3, "Kernel info").
#[derive(Drop)]
pub struct Asking {
    ids: Texts,
    at: Option<u64>,
    told: bool,
    heard: bool,
}

impl Model for Asking {
    ghost use Rattle.std.specs.Prelude.{◌<◌, ◌^◌};
    ghost use Rattle.std.specs.Option.{IfSome};
    ghost use Rattle.kernel_talk.specs.Asking.{Asked};

    ghost Value = { Asked };

    ghost view = { λ a. record { ids = a.ids; at = a.at; told = a.told; heard = a.heard } };

    ghost invariant = { λ a. IfSome a.at (λ at. at < 2 ^ 47) };
}

impl Asking {
    /// Nothing was asked yet. It takes no memory.
    pub fn new(alloc: Global) -> Asking
        ensures { result ≡ asking.no_asking }
    {
        Asking {
            ids: Texts::new(alloc),
            at: None,
            told: false,
            heard: false,
        }
    }

    /// Whether the kernel is ready.
    pub fn is_ready(&self) -> bool
        ensures { result ≡ asking.is_ready self.now }
    {
        self.told && self.heard
    }

    /// Whether the kernel is asked at this moment; it can be once the handshakes on shell and IOPub
    /// are finished and the subscription was taken.
    pub fn is_due(&self, can: bool, ms: u64) -> bool
        ensures { result ≡ asking.asks self.now can ms }
    {
        can && !self.is_ready() && self.has_passed(ms)
    }

    fn has_passed(&self, ms: u64) -> bool
        ensures { result ≡ asking.has_passed asking.ask_ms self.now.at ms }
    {
        match self.at {
            Some(at) => at + GAP_MS <= ms,
            None => true,
        }
    }

    /// The moment of the next request, where the last clock entry is `now`: none while the kernel
    /// can't be asked, and once it is ready.
    pub fn next(&self, can: bool, now: u64) -> Option<u64>
        ensures { result ≡ asking.next_ask self.now can now }
    {
        if !can || self.is_ready() {
            return None;
        }
        match self.at {
            Some(at) => Some(at + GAP_MS),
            None => Some(now),
        }
    }

    /// A request with this id was sent. Without memory nothing changes.
    pub fn on_request(&mut self, id: Text, ms: u64) -> Result<(), NoMemory>
        requires { ms < 2 ^ 47 }
        ensures ok { OnOk result
            (self.new ≡ record self.old { ids = self.old.ids ++ id ∷ []; at = Some ms }) }
        ensures err { OnErr result (self.new ≡ self.old) }
    {
        self.ids.push(id)?;
        self.at = Some(ms);
        Ok(())
    }

    /// A signed `kernel_info_reply` with this parent came on shell.
    pub fn on_reply(&mut self, parent: &Text)
        ensures { self.new ≡ asking.answered_by self.old parent.now }
    {
        let ours = self.is_ours(parent);
        self.told = self.told || ours;
    }

    fn is_ours(&self, parent: &Text) -> bool
        ensures { result ≡ is_among parent.now self.now.ids }
    {
        self.ids.iter().any(|id| id.as_str() == parent.as_str())
    }

    /// A signed message came on IOPub, whatever its parent.
    pub fn on_iopub(&mut self)
        ensures { self.new ≡ record self.old { heard = true } }
    {
        self.heard = true;
    }
}
