//! `Command`, what the words of the command line ask for.
use crate::Ask;
use jtext::Text;

/// What the words of the command line ask for.
#[derive(Debug, Drop)]
pub enum Command {
    /// One job.
    One(Ask),
    /// The jobs of a file, with what they have in common. Its input and its output are empty.
    Many { file: Text, common: Ask },
    /// The exercise with this many generated cells, at most 200.
    Exercise(u32),
}
