//! `Terms`, what is asked of an execution.
ghost use Rattle.std.specs.Prelude.{◌<◌, ◌^◌};
ghost use Rattle.std.specs.Option.{ForSome};

use cell_core::Times;
use jtext::Texts;

/// What is asked of an execution.
#[derive(Drop)]
pub(crate) struct Terms {
    /// Errors don't stop the run.
    pub all_errors: bool,
    /// Nor do errors of these names.
    pub names: Texts,
    /// The kernel is pinged.
    pub heartbeat: bool,
    /// Neighbouring outputs of one stream are joined.
    pub merge: bool,
    /// How long the kernel and the cells may take.
    pub times: Times,
    ghost short: { times.start_ms < 2 ^ 40 },
    ghost limited: { ForSome times.limit_ms (λ limit. limit < 2 ^ 40) },
    ghost later: { ForSome times.limit_ms (λ limit. 0 < limit) },
}
