//! What a wait reports.

/// Which connections may go on. Connection `c` has the place `4 * job + chan`, the channels in the
/// order of `Chan`.
#[derive(Clone, Copy, Debug, Drop, PartialEq, Eq)]
pub struct Reports {
    /// Whether reading or writing may go on at each place.
    pub ready: [bool; 64],
}
