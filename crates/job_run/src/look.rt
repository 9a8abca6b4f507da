//! `Look`, how far a last look is.

/// How far a last look of a job is.
#[derive(Clone, Copy, Debug, Drop, PartialEq, Eq)]
pub(crate) enum Look {
    /// None is under way.
    Still,
    /// Its wait was made. Whether a connection has ended since is told to the core after it.
    Waited {
        /// A connection has ended since.
        late: bool,
    },
}
