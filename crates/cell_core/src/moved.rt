//! Where one event leads.
use crate::state::State;
use crate::{Act, Step, Why};

/// Where one event leads.
#[derive(Clone, Copy, Drop)]
pub struct Moved {
    /// What the core then waits for.
    pub state: State,
    /// The answer to the event.
    pub step: Step,
}

impl Moved {
    ghost use Rattle.std.specs.Prelude.{◌≡◌};
    ghost use Rattle.cell_core.specs.Moves.{move, stays as stays_at, stops as stops_by, look_or as look_by};

    pub(crate) fn to(state: State, takes: bool, act: Act) -> Moved
        ensures { result ≡ move state takes act }
    {
        Moved {
            state,
            step: Step { takes, act },
        }
    }

    /// To the same state, with no act.
    pub(crate) fn stays(state: State) -> Moved
        ensures { result ≡ stays_at state }
    {
        Moved::to(state, false, Act::Nothing)
    }

    /// To the end, with no save.
    pub(crate) fn stops(why: Why) -> Moved
        ensures { result ≡ stops_by why }
    {
        Moved::to(State::Stopped { failing: None }, false, Act::Stop(why))
    }

    /// To a last look where it is late.
    pub(crate) fn look_or(state: State, late: bool) -> Moved
        ensures { result ≡ look_by state late }
    {
        Moved::to(state, false, if late { Act::Look } else { Act::Nothing })
    }
}
