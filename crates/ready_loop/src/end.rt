//! Whether a connection was found ended.
ghost use Rattle.std.specs.Prelude.{◌≡◌};
ghost use Rattle.ready_loop.specs.Link.{found_end};

/// Whether a connection was found ended, and whether an answer has named it.
#[derive(Clone, Copy, Debug, Drop, PartialEq, Eq)]
pub enum End {
    /// No call found it ended.
    No,
    /// A write found it ended, and no answer has named it.
    Found,
    /// An answer has named it.
    Named,
}

impl End {
    /// After a write found it ended.
    pub fn found(self) -> End
        ensures { result ≡ found_end self }
    {
        match self {
            End::No => End::Found,
            End::Found => End::Found,
            End::Named => End::Named,
        }
    }
}
