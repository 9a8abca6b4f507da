//! The values of an option.
ghost use Rattle.std.specs.Prelude.{◌≡◌};
ghost use Rattle.words.specs.Options as spec;

/// What follows an option.
#[derive(Clone, Copy, Debug, Drop)]
pub(crate) enum Takes {
    Nothing,
    Text,
    Seconds,
    Count,
    NameAndText,
}

impl Takes {
    /// How many words they are.
    pub(crate) fn arity(self) -> usize
        ensures { result ≡ spec.arity self }
    {
        match self {
            Takes::Nothing => 0,
            Takes::Text | Takes::Seconds | Takes::Count => 1,
            Takes::NameAndText => 2,
        }
    }
}
