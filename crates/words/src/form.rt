//! The three forms of a command, and what goes beyond them.
ghost use Rattle.std.specs.Prelude.{◌≡◌, map, string_bytes};
ghost use Rattle.words.specs.Forms as spec;

use crate::choice::Choice;
use crate::part::Part;
use crate::path::path;

/// One job, a batch of a jobs file, or the exercise.
#[derive(Clone, Copy, Debug, Drop)]
pub(crate) enum Form {
    One,
    Batch,
    Exercise,
}

impl Form {
    /// The form that the options choose.
    pub(crate) fn of(parts: &[Part]) -> Form
        ensures { result ≡ spec.form_of parts.now }
    {
        if has(parts, Choice::Exercise) {
            Form::Exercise
        } else if has(parts, Choice::Jobs) {
            Form::Batch
        } else {
            Form::One
        }
    }

    /// The index of the first word that the form doesn't take.
    pub(crate) fn extra(self, parts: &[Part]) -> Option<usize>
        ensures { result ≡ spec.extra self parts.now }
    {
        match self {
            Form::One => path(parts, 2),
            Form::Batch => not_of_batch(parts),
            Form::Exercise => not_exercise(parts),
        }
    }
}

/// Whether the option is among the parts.
pub(crate) fn has(parts: &[Part], choice: Choice) -> bool
    ensures { result ≡ spec.has choice parts.now }
{
    parts.iter().any(|part| part.kind.is_choice(choice))
}

fn not_of_batch(parts: &[Part]) -> Option<usize>
    ensures { result ≡ spec.not_of_batch parts.now }
{
    parts
        .iter()
        .find(|part| !part.kind.is_of_batch())
        .map(|part| part.at)
}

fn not_exercise(parts: &[Part]) -> Option<usize>
    ensures { result ≡ spec.not_exercise parts.now }
{
    parts
        .iter()
        .find(|part| !part.kind.is_choice(Choice::Exercise))
        .map(|part| part.at)
}
