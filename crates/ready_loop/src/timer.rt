//! How long a wait may last.
ghost use Rattle.std.specs.Prelude.{◌≡◌, ◌≤◌, ◌<◌, ◌^◌, slice_get, None};
ghost use Rattle.ready_loop.specs.States.{awake_in, refused_in};
ghost use Rattle.ready_loop.specs.Waits.{IsLimit, IsLeast, connect_wait};

use crate::link::PAUSE_MS;
use crate::links::Links;

/// Milliseconds of the longest wait.
const MOST_MS: u64 = 500;

/// The limit of a wait: 0 where a connection is awake, and else up to the first timer.
pub fn limit(links: &Links, last: u64, due: Option<u64>) -> u32
    requires { last < 2 ^ 47 }
    ensures { IsLimit due last (λ p. awake_in (slice_get links.now p))
        (λ p. refused_in (slice_get links.now p)) result }
{
    let mut least = ms_to_due(due, last);
    for place in 0..64usize {
        let link = links.at(place);
        if link.awake {
            return 0;
        }
        least = ms_to_connect(link.refused, last).min(least);
    }
    least as u32
}

/// The milliseconds to the moment that was handed in, at most 500.
fn ms_to_due(due: Option<u64>, last: u64) -> u64
    ensures bound { result ≤ 500 }
    ensures least { IsLeast 0 due last (λ p. None) result }
{
    match due {
        None => MOST_MS,
        Some(due) => due.saturating_sub(last).min(MOST_MS),
    }
}

/// The milliseconds to the next connect of a connection, at most 500, and 500 where it isn't refused.
fn ms_to_connect(refused: Option<u64>, last: u64) -> u64
    requires { last < 2 ^ 47 }
    ensures { result ≡ connect_wait refused last }
{
    match refused {
        None => MOST_MS,
        Some(at) => at
            .saturating_add(PAUSE_MS)
            .saturating_sub(last)
            .min(MOST_MS),
    }
}
