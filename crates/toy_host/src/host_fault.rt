//! Why a kernel is served no more before it ends.
ghost use Rattle.std.specs.Prelude.{◌≡◌};
ghost use Rattle.toy_host.specs.declared.host_fault.HostFault.TheVariants as fault;

use jtext::NoMemory;
use std::alloc::AllocError;
use thiserror::Error;

/// Why a kernel is served no more before it ends.
#[derive(Clone, Copy, Debug, Drop, PartialEq, Eq, Error)]
pub enum HostFault {
    /// A call on a socket failed.
    #[error("a call on a socket failed")]
    Socket,
    /// Memory was refused.
    #[error("memory was refused")]
    NoMemory,
}

impl From<NoMemory> for HostFault {
    ghost from_gives = { λ _ e. e ≡ fault.NoMemory };

    fn from(_refused: NoMemory) -> HostFault {
        HostFault::NoMemory
    }
}

impl From<AllocError> for HostFault {
    ghost from_gives = { λ _ e. e ≡ fault.NoMemory };

    fn from(_refused: AllocError) -> HostFault {
        HostFault::NoMemory
    }
}
