//! How far acts have come by a moment.
ghost use Rattle.std.specs.Prelude.{◌≡◌, ◌<◌, ◌≤◌, ◌^◌, length, None, Some};
ghost use Rattle.toy_core.specs.Acts.{acts_by, begun_at, ending};

use crate::act::Act;

/// How far acts have come by a moment.
#[derive(Clone, Copy, Debug, Drop)]
pub(crate) struct Reach {
    /// How many have happened.
    pub(crate) len: usize,
    /// The moment at which the next begins.
    pub(crate) moment: u64,
    /// The status with which these end the kernel.
    pub(crate) end: Option<i32>,
}

/// How far acts have come by a moment, where the first begins at `since`.
pub(crate) fn reach_of(acts: &[Act], since: u64, now: u64) -> Reach
    requires { now < 2 ^ 47 }
    ensures len { result.len ≡ length (acts_by now since acts.now) }
    ensures within { result.len ≤ length acts.now }
    ensures moment { result.moment ≡ begun_at now since acts.now }
    ensures end { result.end ≡ ending (acts_by now since acts.now) }
{
    let mut moment = since;
    for (i, act) in acts.iter().enumerate() {
        match act {
            Act::Pause { ms } => {
                let over = moment.saturating_add(*ms);
                if now < over {
                    return stay(i, moment);
                }
                moment = over;
            }
            Act::End { status } => return stop(i + 1, moment, *status),
            _ => {}
        }
    }
    stay(acts.len(), moment)
}

fn stay(len: usize, moment: u64) -> Reach
    ensures { result ≡ record { len = len; moment = moment; end = None } }
{
    Reach {
        len,
        moment,
        end: None,
    }
}

fn stop(len: usize, moment: u64, status: i32) -> Reach
    ensures { result ≡ record { len = len; moment = moment; end = Some status } }
{
    Reach {
        len,
        moment,
        end: Some(status),
    }
}
