//! The exit statuses.
ghost use Rattle.std.specs.Prelude.{◌≡◌, pos, ℤ, Ok, Err};
ghost use Rattle.toy_host.specs.declared.host_fault.HostFault.TheVariants as fault;

use toy_host::HostFault;

/// The words ask for nothing, the file can't be read, or what was asked for can't be printed.
pub(crate) const USAGE: u8 = 2;

/// The file is no connection file.
pub(crate) const NO_CONNECTION: u8 = 3;

/// A call on a socket failed.
const SOCKET: u8 = 4;

/// Memory was refused.
pub(crate) const NO_MEMORY: u8 = 12;

/// The status after a kernel was served: 0 where it was shut down, and 1 where it ended otherwise.
pub(crate) fn served_status(served: Result<i32, HostFault>) -> u8
    ensures shut_down { served ≡ Ok (pos 0) → result ≡ 0 }
    ensures ended { (status : ℤ) → served ≡ Ok status → (status ≡ pos 0 → ⊥) → result ≡ 1 }
    ensures socket { served ≡ Err fault.Socket → result ≡ 4 }
    ensures memory { served ≡ Err fault.NoMemory → result ≡ 12 }
{
    match served {
        Ok(0) => 0,
        Ok(_) => 1,
        Err(HostFault::Socket) => SOCKET,
        Err(HostFault::NoMemory) => NO_MEMORY,
    }
}
