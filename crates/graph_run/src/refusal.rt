//! `Refusal`, why a job of a graph isn't run.
ghost use Rattle.std.specs.Prelude.{◌≡◌};
ghost use Rattle.graph_run.specs.Lines.{status_of_refusal};

use jtext::{NoMemory, Text};
use nb_load::LoadFault;

/// Why a job of a graph isn't run.
#[derive(Debug, Drop)]
pub enum Refusal {
    /// A job that it needs has another status than 0.
    Skipped,
    /// The output with this path, from which it takes a parameter, can't be read.
    NotRead { path: Text },
    /// That output has more bytes than are read.
    TooLarge,
    /// That output gives no notebook.
    NotLoaded(LoadFault),
    /// That output, which is that of the job with this name, has no scrap with this name.
    NoScrap { scrap: Text, job: Text },
    /// Memory was refused.
    NoMemory,
}

impl Refusal {
    /// The exit status of the job.
    pub(crate) fn status(&self) -> u8
        ensures { result ≡ status_of_refusal self.now }
    {
        match self {
            Refusal::Skipped => 17,
            Refusal::NotRead { .. } => 3,
            Refusal::TooLarge => 4,
            Refusal::NotLoaded(_) => 4,
            Refusal::NoScrap { .. } => 18,
            Refusal::NoMemory => 12,
        }
    }
}

impl From<NoMemory> for Refusal {
    ghost use Rattle.graph_run.specs.declared.refusal.Refusal.TheVariants as refusal;

    ghost from_gives = { λ _ e. e ≡ refusal.NoMemory };

    fn from(_: NoMemory) -> Refusal {
        Refusal::NoMemory
    }
}
