//! `Task`, what a run is to do.
ghost use Rattle.nbrun_top.specs.Asked.{IsTaskOf, IsRunnableTask, texts};

use crate::plain::Plain;
use jtext::Text;
use std::alloc::Global;
use words::{Ask, Command, read};

/// What a run is to do.
#[derive(Debug, Drop)]
pub(crate) enum Task {
    /// No notebook is executed.
    Plain(Plain),
    /// This job executes its notebook.
    One(Ask),
    /// The jobs of this file execute theirs. What they have in common is in the words.
    Many { file: Text, common: Ask },
    /// The exercise with this many cells.
    Exercise(u32),
}

impl Task {
    /// What these words ask for.
    pub(crate) fn of(alloc: Global, words: &[String]) -> Task
        ensures asked { IsTaskOf (texts words.now) result }
        ensures runnable { IsRunnableTask result }
    {
        match read(alloc, words) {
            Ok(Command::One(ask)) => {
                if ask.prepare {
                    Task::Plain(Plain::Prepare(ask))
                } else {
                    Task::One(ask)
                }
            }
            Ok(Command::Many { file, common }) => Task::Many { file, common },
            Ok(Command::Exercise(cells)) => Task::Exercise(cells),
            Err(usage) => Task::Plain(Plain::Refused(usage)),
        }
    }
}
