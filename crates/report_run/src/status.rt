//! The exit status of a report.
ghost use Rattle.std.specs.Prelude.{◌≡◌, ◌⊎◌, ◌<◌, ◌≤◌};
ghost use Rattle.world.specs.Counts.{Rose};
ghost use Rattle.report_run.specs.Ended.{Answers};

use said_lines::has_risen;
use world::Say;

/// The status where all was done and not all could be said.
const NOT_SAID: u8 = 11;

/// The status, or that all was done and not all could be said.
pub(crate) fn unless_not_said<W: Say>(w: &W, faults: u64, code: u8) -> u8
    requires { faults ≤ (W.counts w.now).say }
    ensures answers { Answers (Rose faults (W.counts w.now).say) code result }
    ensures other { 0 < code → result ≡ code }
    ensures not_said { result ≡ 11 → (code ≡ 11) ⊎ (code ≡ 0) × Rose faults (W.counts w.now).say }
    ensures heard { result ≡ 0 → Rose faults (W.counts w.now).say → ⊥ }
{
    if code == 0 && has_risen(w, faults) {
        return NOT_SAID;
    }
    code
}
