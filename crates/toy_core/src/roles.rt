//! What kind of socket a kernel has on each channel (Jupyter messaging 5.3, "Introduction").
ghost use Rattle.std.specs.Prelude.{◌≡◌};
ghost use Rattle.toy_core.specs.Sending.{role_on};

use world::Chan;
use zmtp_wire::Role;

/// The kind of the kernel's socket on a channel.
pub(crate) fn role_on(chan: Chan) -> Role
    ensures { result ≡ role_on chan }
{
    match chan {
        Chan::Shell => Role::Router,
        Chan::Control => Role::Router,
        Chan::Iopub => Role::Pub,
        Chan::Heart => Role::Rep,
    }
}
