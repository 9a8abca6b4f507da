//! `Named`, what gives a path.
ghost use Rattle.std.specs.Prelude.{◌≡◌, IfOk};
ghost use Rattle.nbrun_main.specs.SameFiles.{refusal_of, pointer_to};

use jtext::{NoMemory, Text};
use std::alloc::Global;
use words::Usage;

/// What gives the path of a file. Jobs are counted from 0.
#[derive(Clone, Copy, Debug, Drop)]
pub(crate) enum Named {
    /// The word with this index, which gives the output.
    Word(u32),
    /// The word that gives the jobs file.
    JobsFile,
    /// The input of this job in the jobs file.
    Input(usize),
    /// The output of this job in the jobs file.
    Output(usize),
}

impl Named {
    /// The refusal of the path, as that of one that was given before.
    pub(crate) fn refusal(self, alloc: Global) -> Result<Usage, NoMemory>
        ensures { IfOk result (λ usage. usage ≡ refusal_of self) }
    {
        match self {
            Named::Word(i) => Ok(Usage::SamePath { i }),
            Named::JobsFile => Ok(Usage::BadJobs {
                pointer: Text::new(alloc),
            }),
            Named::Input(i) => Ok(Usage::BadJobs {
                pointer: pointer_to(alloc, i, "input")?,
            }),
            Named::Output(i) => Ok(Usage::BadJobs {
                pointer: pointer_to(alloc, i, "output")?,
            }),
        }
    }
}

// The JSON pointer to a member of a job (RFC 6901).
fn pointer_to(alloc: Global, job: usize, name: &str) -> Result<Text, NoMemory>
    ensures { IfOk result (λ text. text ≡ pointer_to job name.now) }
{
    Ok(Text::of_string(format!(in alloc; "/jobs/{job}/{name}")?))
}
