//! `Histories`, the signatures that were seen on each channel.

use jsign::Seen;
use jtext::NoMemory;
use std::alloc::Global;

/// The signatures that were seen on each channel whose messages are used: a message that comes on
/// both is heard on both.
#[derive(Drop)]
pub(crate) struct Histories {
    pub shell: Seen,
    pub iopub: Seen,
}

impl Histories {
    ghost use Rattle.std.specs.Prelude.{◌≡◌, [], IfOk};
    ghost use Rattle.jsign.specs.History.{StandsFor};

    /// No signature was seen yet.
    pub(crate) fn new(alloc: Global) -> Result<Histories, NoMemory>
        ensures shell { IfOk result (λ h. h.shell ≡ []) }
        ensures iopub { IfOk result (λ h. h.iopub ≡ []) }
        ensures shell_stands { IfOk result (λ h. StandsFor h.shell []) }
        ensures iopub_stands { IfOk result (λ h. StandsFor h.iopub []) }
    {
        let shell = Seen::new(alloc)?;
        let iopub = Seen::new(alloc)?;
        Ok(Histories { shell, iopub })
    }
}
