//! The values of a jobs file.
ghost use Rattle.std.specs.Prelude.{◌≡◌, IfOk};
ghost use Rattle.words.specs.Places as spec;

use crate::member::Member;
use jtext::{NoMemory, Text};
use std::alloc::Global;

/// A value of a jobs file: the whole, the list of jobs, a job by its index, or a value of one of
/// its members.
#[derive(Clone, Copy, Debug, Drop)]
pub(crate) enum Place {
    Whole,
    Jobs,
    Job(usize),
    Value(usize, Member),
}

impl Place {
    /// The JSON pointer to the value (RFC 6901).
    pub(crate) fn pointer(self, alloc: Global) -> Result<Text, NoMemory>
        ensures { IfOk result (λ r. r ≡ spec.pointer self) }
    {
        match self {
            Place::Whole => Ok(Text::new(alloc)),
            Place::Jobs => Text::of(alloc, "/jobs"),
            Place::Job(i) => Ok(Text::of_string(format!(in alloc; "/jobs/{i}")?)),
            Place::Value(i, member) => {
                let name = member.name();
                Ok(Text::of_string(format!(in alloc; "/jobs/{i}/{name}")?))
            }
        }
    }
}
