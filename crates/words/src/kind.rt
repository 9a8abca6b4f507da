//! What a word of the command line is, where it is no option's value.
ghost use Rattle.std.specs.Prelude.{◌≡◌};
ghost use Rattle.words.specs.Options.{arity};
ghost use Rattle.words.specs.Parts as spec;

use crate::choice::Choice;
use crate::takes::Takes;

/// A path, the `--` that ends the options, an option, or a word that begins like one and is none.
#[derive(Clone, Copy, Debug, Drop)]
pub(crate) enum Kind {
    Path,
    End,
    Unknown,
    Chosen(Choice),
}

impl Kind {
    /// What the word is; after a `--` each word is a path.
    pub(crate) fn of(ended: bool, word: &str) -> Kind
        ensures { result ≡ spec.kind_of ended word.now }
    {
        if ended {
            return Kind::Path;
        }
        if word == "--" {
            return Kind::End;
        }
        if !begins_with_dash(word.as_bytes()) {
            return Kind::Path;
        }
        match Choice::of(word) {
            Some(choice) => Kind::Chosen(choice),
            None => Kind::Unknown,
        }
    }

    pub(crate) fn is_path(self) -> bool
        ensures { result ≡ spec.is_path self }
    {
        matches!(self, Kind::Path)
    }

    /// Whether the options have ended after it.
    pub(crate) fn ends(self, ended: bool) -> bool
        ensures { result ≡ spec.ends ended self }
    {
        ended || matches!(self, Kind::End)
    }

    pub(crate) fn is_unknown(self) -> bool
        ensures { result ≡ spec.is_unknown self }
    {
        matches!(self, Kind::Unknown)
    }

    /// Whether it is this option.
    pub(crate) fn is_choice(self, choice: Choice) -> bool
        ensures { result ≡ spec.is_choice choice self }
    {
        match self {
            Kind::Chosen(own) => choice == own,
            _ => false,
        }
    }

    /// Whether both are one option.
    pub(crate) fn is_same(self, other: Kind) -> bool
        ensures { result ≡ spec.is_same self other }
    {
        match self {
            Kind::Chosen(own) => other.is_choice(own),
            _ => false,
        }
    }

    /// Whether it is an option that may stand only once.
    pub(crate) fn is_once(self) -> bool
        ensures { result ≡ spec.is_once self }
    {
        match self {
            Kind::Chosen(own) => !own.may_repeat(),
            _ => false,
        }
    }

    /// Whether a batch takes it.
    pub(crate) fn is_of_batch(self) -> bool
        ensures { result ≡ spec.is_of_batch_kind self }
    {
        match self {
            Kind::Chosen(own) => own.is_of_batch(),
            Kind::End => true,
            _ => false,
        }
    }

    /// The values that follow it.
    pub(crate) fn takes(self) -> Takes
        ensures { result ≡ spec.takes_of self }
    {
        match self {
            Kind::Chosen(own) => own.takes(),
            _ => Takes::Nothing,
        }
    }

    /// How many words after it are its values.
    pub(crate) fn arity(self) -> usize
        ensures { result ≡ arity (spec.takes_of self) }
    {
        self.takes().arity()
    }
}

fn begins_with_dash(word: &[u8]) -> bool
    ensures { result ≡ spec.begins_with_dash word.now }
{
    0 < word.len() && word[0] == b'-'
}
