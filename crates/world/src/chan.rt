//! The channels of a kernel.

/// A channel of a kernel (Jupyter messaging 5.3).
#[derive(Clone, Copy, Debug, Drop, PartialEq, Eq)]
pub enum Chan {
    /// Requests and their replies.
    Shell,
    /// Requests that may overtake those of the shell.
    Control,
    /// What the kernel publishes.
    Iopub,
    /// Pings and their echoes.
    Heart,
}
