//! The options of the command line: how they are spelled, what they take, and which may stand
//! more than once.
ghost use Rattle.std.specs.Prelude.{◌≡◌};
ghost use Rattle.words.specs.Options as spec;

use crate::takes::Takes;

/// An option, whichever way it is spelled.
#[derive(Clone, Copy, Debug, Drop, PartialEq, Eq)]
pub(crate) enum Choice {
    Parameter,
    RawParameter,
    Kernel,
    KernelPath,
    Cwd,
    StartTimeout,
    ExecutionTimeout,
    PrepareOnly,
    ReportMode,
    MergeStreams,
    AllowErrors,
    Interrupt,
    NoHeartbeat,
    AllowErrorName,
    Jobs,
    Exercise,
}

impl Choice {
    /// The option that the word spells.
    pub(crate) fn of(word: &str) -> Option<Choice>
        ensures { result ≡ spec.choice_of word.now }
    {
        match word {
            "-p" | "--parameters" => Some(Choice::Parameter),
            "-r" | "--parameters_raw" => Some(Choice::RawParameter),
            "-k" | "--kernel" => Some(Choice::Kernel),
            "--kernel-path" => Some(Choice::KernelPath),
            "--cwd" => Some(Choice::Cwd),
            "--start-timeout" => Some(Choice::StartTimeout),
            "--execution-timeout" => Some(Choice::ExecutionTimeout),
            "--prepare-only" => Some(Choice::PrepareOnly),
            "--report-mode" => Some(Choice::ReportMode),
            "--merge-streams" => Some(Choice::MergeStreams),
            "--allow-errors" => Some(Choice::AllowErrors),
            "--interrupt" => Some(Choice::Interrupt),
            "--no-heartbeat" => Some(Choice::NoHeartbeat),
            "--allow-error-name" => Some(Choice::AllowErrorName),
            "--jobs" => Some(Choice::Jobs),
            "--exercise" => Some(Choice::Exercise),
            _ => None,
        }
    }

    /// What follows the option.
    pub(crate) fn takes(self) -> Takes
        ensures { result ≡ spec.takes self }
    {
        match self {
            Choice::Parameter | Choice::RawParameter => Takes::NameAndText,
            Choice::Kernel
            | Choice::KernelPath
            | Choice::Cwd
            | Choice::AllowErrorName
            | Choice::Jobs => Takes::Text,
            Choice::StartTimeout | Choice::ExecutionTimeout => Takes::Seconds,
            Choice::Exercise => Takes::Count,
            Choice::PrepareOnly
            | Choice::ReportMode
            | Choice::MergeStreams
            | Choice::AllowErrors
            | Choice::Interrupt
            | Choice::NoHeartbeat => Takes::Nothing,
        }
    }

    /// Whether the option may stand more than once.
    pub(crate) fn may_repeat(self) -> bool
        ensures { result ≡ spec.may_repeat self }
    {
        matches!(
            self,
            Choice::Parameter | Choice::RawParameter | Choice::AllowErrorName
        )
    }

    /// Whether a batch takes the option.
    pub(crate) fn is_of_batch(self) -> bool
        ensures { result ≡ spec.is_of_batch self }
    {
        !matches!(
            self,
            Choice::Parameter
                | Choice::RawParameter
                | Choice::Kernel
                | Choice::Cwd
                | Choice::PrepareOnly
                | Choice::Exercise
        )
    }
}
