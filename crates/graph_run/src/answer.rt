//! `Answer`, how a graph ends that has no jobs, and what is said of it.
ghost use Rattle.std.specs.Prelude.{◌≡◌, ◌⊎◌, []};
ghost use Rattle.graph_run.specs.declared.end.End.TheVariants as ending;
ghost use Rattle.graph_run.specs.File.{Speaks};
ghost use Rattle.graph_run.specs.Lines.{end_line};

use crate::end::End;
use crate::lines::end_line;
use jtext::Bytes;
use std::alloc::Global;

/// How a graph ends that has no jobs, and what is said of it.
#[derive(Drop)]
pub(crate) struct Answer {
    /// How it ends.
    pub end: End,
    /// The line; empty where memory was refused.
    pub text: Bytes,
}

impl Answer {
    /// The answer of a graph with this file. Memory for its line may be refused.
    pub(crate) fn refusal(alloc: Global, file: &str, end: End) -> Answer
        ensures end { (result.end ≡ end) ⊎ (result.end ≡ ending.NoMemory) }
        ensures text { Speaks file.now result }
    {
        match end_line(alloc, file, &end) {
            Ok(text) => Answer { end, text },
            Err(_) => Answer::no_memory(alloc),
        }
    }

    /// The answer where memory was refused.
    pub(crate) fn no_memory(alloc: Global) -> Answer
        ensures { result.end ≡ ending.NoMemory }
    {
        Answer {
            end: End::NoMemory,
            text: Bytes::new(alloc),
        }
    }

    /// What is said.
    pub(crate) fn line(&self) -> &[u8]
        ensures memory { self.now.end ≡ ending.NoMemory →
            result.now ≡ end_line [] ending.NoMemory }
        ensures text { (self.now.end ≡ ending.NoMemory → ⊥) → result.now ≡ self.now.text }
    {
        match &self.end {
            End::NoMemory => b"nbrun: no memory\n",
            _ => self.text.bytes(),
        }
    }
}
