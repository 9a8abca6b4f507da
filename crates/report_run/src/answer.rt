//! `Answer`, how a report ended and what is said of it.
ghost use Rattle.std.specs.Prelude.{◌≡◌, ◌⊎◌, []};
ghost use Rattle.report_run.specs.declared.end.End.TheVariants as ending;
ghost use Rattle.report_run.specs.Lines.{line};
ghost use Rattle.report_run.specs.Reported.{Speaks};

use crate::end::End;
use crate::lines::line;
use jtext::Bytes;
use std::alloc::Global;

/// How a report ended, and what is said of it.
#[derive(Drop)]
pub(crate) struct Answer {
    /// How it ended.
    pub end: End,
    /// The line; empty where memory was refused.
    pub text: Bytes,
}

impl Answer {
    /// The answer of a report on these paths that ended before anything was saved. Memory for its
    /// line may be refused.
    pub(crate) fn refusal(alloc: Global, input: &str, output: &str, end: End) -> Answer
        ensures end { (result.end ≡ end) ⊎ (result.end ≡ ending.NoMemory) }
        ensures text { Speaks input.now output.now result }
    {
        match line(alloc, input, output, &end) {
            Ok(text) => Answer { end, text },
            Err(_) => Answer::no_memory(alloc),
        }
    }

    /// The answer where memory was refused.
    pub(crate) fn no_memory(alloc: Global) -> Answer
        ensures { result.end ≡ ending.NoMemory }
    {
        Answer {
            end: End::NoMemory,
            text: Bytes::new(alloc),
        }
    }

    /// What is said.
    pub(crate) fn line(&self) -> &[u8]
        ensures memory { self.now.end ≡ ending.NoMemory →
            result.now ≡ line [] [] ending.NoMemory }
        ensures text { (self.now.end ≡ ending.NoMemory → ⊥) → result.now ≡ self.now.text }
    {
        match &self.end {
            End::NoMemory => b"nbrun: no memory\n",
            _ => self.text.bytes(),
        }
    }
}
