//! What the core waits for.
use crate::Why;
use crate::request::Request;

/// What the core waits for. Requests are counted from 0, as places in the plan.
///
/// ```text
/// Preparing ──saved──> Starting ──ready──> Running ──over──> Passing ──saved──> Running
///     │                    │                  │                 │
///     │ nothing to run     │ not ready, lost  │ fatal, late,    │ the last one
///     v                    │ or broken        v lost or broken  v
///  Closing                 │               Failing           Closing
///     │                    v                  │                 │
///     └──────saved────> Stopped <────saved────┴─────saved───────┘
/// ```
#[derive(Clone, Copy, Debug, Drop, PartialEq, Eq)]
pub enum State {
    /// The first save, with no cell settled.
    Preparing,
    /// Readiness, by the deadline.
    Starting { due: Option<u64> },
    /// The reply and the idle of this request, by its deadline.
    Running(Request),
    /// The save after request `at`, which is over and was not fatal.
    Passing { at: usize },
    /// The save of the whole notebook.
    Closing,
    /// The save after a stop while request `at` stood.
    Failing { at: usize, why: Why },
    /// Nothing. `failing` is the place of the stopping cell.
    Stopped { failing: Option<usize> },
}
