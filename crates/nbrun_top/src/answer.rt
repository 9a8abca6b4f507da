//! `Answer`, how a run ended and what is said of it.
ghost use Rattle.std.specs.Prelude.{◌≡◌, ◌⊎◌, ℕ, []};
ghost use Rattle.nbrun_top.specs.declared.end.End.TheVariants as ending;
ghost use Rattle.nbrun_top.specs.Lines.{all_lines};
ghost use Rattle.nbrun_top.specs.Said.{Speaks};

use crate::end::End;
use crate::lines::last;
use jtext::Bytes;
use std::alloc::Global;

/// How a run ended, and what is said of it.
#[derive(Drop)]
pub(crate) struct Answer {
    /// How it ended.
    pub end: End,
    /// The lines; empty where memory was refused.
    pub text: Bytes,
}

impl Answer {
    /// The answer of a run on these paths that ended before anything was saved. Memory for its line
    /// may be refused.
    pub(crate) fn refusal(alloc: Global, input: &str, output: &str, end: End) -> Answer
        requires { (cells : ℕ) → end ≡ ending.Done cells → ⊥ }
        ensures end { (result.end ≡ end) ⊎ (result.end ≡ ending.NoMemory) }
        ensures text { Speaks input.now output.now result }
    {
        match last(alloc, input, output, &end) {
            Ok(text) => Answer { end, text },
            Err(_) => Answer::no_memory(alloc),
        }
    }

    /// The answer where memory was refused.
    pub(crate) fn no_memory(alloc: Global) -> Answer
        ensures { result.end ≡ ending.NoMemory }
    {
        Answer {
            end: End::NoMemory,
            text: Bytes::new(alloc),
        }
    }

    /// What is said.
    pub(crate) fn lines(&self) -> &[u8]
        ensures memory { self.now.end ≡ ending.NoMemory →
            result.now ≡ all_lines [] [] ending.NoMemory }
        ensures text { (self.now.end ≡ ending.NoMemory → ⊥) → result.now ≡ self.now.text }
    {
        match &self.end {
            End::NoMemory => b"nbrun: no memory\n",
            _ => self.text.bytes(),
        }
    }
}
