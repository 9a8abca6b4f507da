//! The members of a job in a jobs file.
ghost use Rattle.std.specs.Prelude.{◌≡◌};
ghost use Rattle.std.specs.List.{list_all};
ghost use Rattle.jtext.specs.Names.{is_name};
ghost use Rattle.words.specs.Members as spec;

use jtext::{Json, Text, is_name};

/// A member of a job.
#[derive(Clone, Copy, Debug, Drop)]
pub(crate) enum Member {
    Input,
    Output,
    Kernel,
    Cwd,
    Parameters,
}

impl Member {
    /// The member with this name.
    pub(crate) fn of(name: &str) -> Option<Member>
        ensures { result ≡ spec.member_of name.now }
    {
        match name {
            "input" => Some(Member::Input),
            "output" => Some(Member::Output),
            "kernel" => Some(Member::Kernel),
            "cwd" => Some(Member::Cwd),
            "parameters" => Some(Member::Parameters),
            _ => None,
        }
    }

    pub(crate) fn name(self) -> &'static str
        ensures { result.now ≡ spec.name_of self }
    {
        match self {
            Member::Input => "input",
            Member::Output => "output",
            Member::Kernel => "kernel",
            Member::Cwd => "cwd",
            Member::Parameters => "parameters",
        }
    }

    /// Whether the member takes this value.
    pub(crate) fn takes(self, value: &Json) -> bool
        ensures { result ≡ spec.takes_value self value.now }
    {
        match self {
            Member::Input | Member::Output => is_filled_string(value),
            Member::Kernel | Member::Cwd => value.is_string(),
            Member::Parameters => are_parameters(value),
        }
    }
}

/// Whether it is a string that isn't empty.
fn is_filled_string(value: &Json) -> bool
    ensures { result ≡ spec.is_filled_string value.now }
{
    value.as_text().is_some_and(|text| 0 < text.bytes().len())
}

fn are_parameters(value: &Json) -> bool
    ensures { result ≡ spec.are_parameters value.now }
{
    value.is_object() && all_names(value.pairs())
}

fn all_names(pairs: &[(Text, Json)]) -> bool
    ensures { result ≡ list_all (λ p. is_name p.0) pairs.now }
{
    pairs.iter().all(|pair| is_name(pair.0.bytes()))
}
