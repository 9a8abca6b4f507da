//! `Execution`, the execution of a notebook by a kernel.
ghost use Rattle.std.specs.Prelude.{◌≡◌};
ghost use Rattle.job_run.specs.Due.{earlier_of};

use crate::histories::Histories;
use crate::request::Request;
use crate::terms::Terms;
use cell_core::Core;
use job_notebook::JobNotebook;
use kernel_lines::Lines;
use kernel_talk::{Asking, Pings, Session};
use std::alloc::Global;
use world::Chan;
use zmtp_wire::WireFault;

/// The execution of a notebook by a kernel that was started.
#[derive(Drop)]
pub(crate) struct Execution {
    pub alloc: Global,
    pub terms: Terms,
    pub book: JobNotebook,
    pub core: Core,
    pub lines: Lines,
    pub session: Session,
    pub seen: Histories,
    pub asking: Asking,
    /// The core was told that the kernel is ready.
    pub is_ready: bool,
    pub pings: Pings,
    /// The last clock entry.
    pub clock: u64,
    pub request: Option<Request>,
    /// How many requests were sent.
    pub sent: u64,
    /// The stream that broke.
    pub broken: Option<(Chan, WireFault)>,
}

impl Execution {
    ghost use Rattle.std.specs.Prelude.{◌≡◌, ℕ, List};
    ghost use Rattle.world.specs.declared.chan.Chan.TheVariants.{Heart};
    ghost use Rattle.kernel_lines.specs.Happened.{History};
    ghost use Rattle.kernel_lines.specs.Line.{StandsFor};
    ghost use Rattle.kernel_lines.specs.Lines.{line_on};
    ghost use Rattle.job_run.specs.Due.{Past, can_ping, next_moment};

    /// The next moment at which the clock brings something, in milliseconds since 1970-01-01 UTC.
    pub(crate) fn due(&self) -> Option<u64>
        ensures { (past : Past self.now) → result ≡ next_moment self.now past }
    {
        let asks = self.asking.next(self.lines.can_ask(), self.clock);
        let pings = self.pings.next(self.can_ping(), self.clock);
        earlier(self.core.due(), earlier(asks, pings))
    }

    /// Whether the kernel can be pinged: it is ready, and the handshake on the heartbeat is finished.
    pub(crate) fn can_ping(&self) -> bool
        ensures { (heart : History) (out : List ℕ) →
            StandsFor (line_on self.now.lines Heart) heart out →
            result ≡ can_ping self.now heart }
    {
        self.terms.heartbeat && self.is_ready && self.lines.of(Chan::Heart).is_shaken()
    }
}

/// The earlier of two moments, of which each may be absent.
pub fn earlier(a: Option<u64>, b: Option<u64>) -> Option<u64>
    ensures { result ≡ earlier_of a b }
{
    match (a, b) {
        (Some(a), Some(b)) => Some(a.min(b)),
        (Some(a), None) => Some(a),
        (None, b) => b,
    }
}
