//! How far a connection has come.
ghost use Rattle.std.specs.Prelude.{◌≡◌};
ghost use Rattle.ready_loop.specs.Link.{closed_stage, refused_clock};

/// How far a connection has come.
#[derive(Clone, Copy, Debug, Drop, PartialEq, Eq)]
pub enum Stage {
    /// No connect was called for it.
    Fresh,
    /// A connect was called for it, whatever that answered.
    Begun,
    /// It was closed since.
    Closed,
}

impl Stage {
    /// After a close.
    pub fn closed(self) -> Stage
        ensures { result ≡ closed_stage self }
    {
        match self {
            Stage::Fresh => Stage::Fresh,
            Stage::Begun => Stage::Closed,
            Stage::Closed => Stage::Closed,
        }
    }

    /// The clock before a refusal, where another connect is to follow.
    pub fn refused_at(self, last: u64) -> Option<u64>
        ensures { result ≡ refused_clock self last }
    {
        match self {
            Stage::Fresh => None,
            Stage::Begun => Some(last),
            Stage::Closed => None,
        }
    }
}
