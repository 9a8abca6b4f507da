//! The execution state of a kernel.

/// What a `status` message says of the kernel.
#[derive(Clone, Copy, Debug, Drop, PartialEq, Eq)]
pub enum State {
    /// It works on a request.
    Busy,
    /// It is done with the request.
    Idle,
    /// Anything else, as `starting`.
    Else,
}

impl State {
    ghost use Rattle.std.specs.Prelude.{◌≡◌};
    ghost use Rattle.jcontent.specs.Contents.{state_named};

    /// The state of that name.
    pub(crate) fn of_name(name: &str) -> State
        ensures { result ≡ state_named name.now }
    {
        if name == "busy" {
            State::Busy
        } else if name == "idle" {
            State::Idle
        } else {
            State::Else
        }
    }
}
