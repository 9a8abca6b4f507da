//! What is said after a save, made before it: a save and what follows it take no memory.
ghost use Rattle.std.specs.Prelude.{◌≡◌, IfOk};
ghost use Rattle.report_run.specs.declared.end.End.TheVariants as ending;
ghost use Rattle.report_run.specs.Reported.{AreReports, report_of};

use crate::answer::Answer;
use crate::end::End;
use crate::lines::fault_line;
use jtext::{Bytes, NoMemory};
use said_lines::spoken_line;
use save_disk::SaveFault;
use std::alloc::Global;

/// What is said after each outcome of the save.
#[derive(Drop)]
pub(crate) struct Reports {
    /// After a save that was acknowledged.
    pub done: Bytes,
    /// Where the temporary file can't be made or written.
    pub not_written: Bytes,
    /// Where it can't be synced.
    pub not_synced: Bytes,
    /// Where it can't be renamed onto the output.
    pub not_renamed: Bytes,
    /// Where the output's folder can't be synced.
    pub not_settled: Bytes,
}

impl Reports {
    /// The reports of a save of that output.
    pub(crate) fn new(alloc: Global, output: &str) -> Result<Reports, NoMemory>
        ensures { IfOk result (AreReports output.now) }
    {
        Ok(Reports {
            done: spoken_line(alloc, output, b"done")?,
            not_written: fault_line(alloc, output, SaveFault::Write)?,
            not_synced: fault_line(alloc, output, SaveFault::Sync)?,
            not_renamed: fault_line(alloc, output, SaveFault::Rename)?,
            not_settled: fault_line(alloc, output, SaveFault::DirSync)?,
        })
    }

    /// The answer after a save that was acknowledged.
    pub(crate) fn on_done(self) -> Answer
        ensures end { result.end ≡ ending.Done }
        ensures text { result.text ≡ self.done }
    {
        let Reports { done, .. } = self;
        Answer {
            end: End::Done,
            text: done,
        }
    }

    /// The answer after a save that failed at this step.
    pub(crate) fn on_fault(self, fault: SaveFault) -> Answer
        ensures end { result.end ≡ ending.NotSaved fault }
        ensures text { result.text ≡ report_of self fault }
    {
        let Reports {
            done: _,
            not_written,
            not_synced,
            not_renamed,
            not_settled,
        } = self;
        let text = match fault {
            SaveFault::Write => not_written,
            SaveFault::Sync => not_synced,
            SaveFault::Rename => not_renamed,
            SaveFault::DirSync => not_settled,
        };
        Answer {
            end: End::NotSaved(fault),
            text,
        }
    }
}
