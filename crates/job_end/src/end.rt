//! `End`, how a job ends.
ghost use Rattle.std.specs.Prelude.{◌≡◌, IfOk};
ghost use Rattle.said_lines.specs.Lines.{spoken_line as said_of};
ghost use Rattle.job_end.specs.Reasons.{of_cell as cell_reason, line_of as line_of_end};
ghost use Rattle.job_end.specs.declared.end.End.TheVariants as ending;

use crate::Answer;
use crate::reasons::{error_of, of_cell, of_path, of_peer, of_save, of_spec};
use jtext::{Bytes, NoMemory, Text};
use kspec::SpecFault;
use nb_load::LoadFault;
use said_lines::spoken_line;
use save_disk::SaveFault;
use std::alloc::Global;
use world::Chan;
use zmtp_wire::WireFault;

/// How a job ends, with what its last line names. Cells are counted from 0 in the notebook.
#[derive(Debug, Drop)]
pub enum End {
    /// Each cell of the plan was executed, or the notebook was prepared.
    Done,
    /// The reply to the request of this cell was an error of this name.
    CellError { cell: u32, name: Text },
    /// This file can't be read.
    NotRead { path: Text },
    /// The input has more bytes than are read.
    TooLarge,
    /// The input gives no notebook that takes the parameters.
    NotLoaded(LoadFault),
    /// Neither the words nor the notebook name a kernel.
    NoKernelName,
    /// The name can't be that of a kernel spec.
    BadKernelName,
    /// The kernel spec is refused.
    BadSpec(SpecFault),
    /// The kernel can't be started.
    NotStarted,
    /// The kernel wasn't ready at its deadline.
    NotReady,
    /// The kernel is gone.
    KernelLost,
    /// No reply came in time to the request of this cell.
    TimedOut { cell: u32 },
    /// The notebook can't be saved, for this step of the save.
    NotSaved(SaveFault),
    /// The connection file can't be written.
    NoConnectionFile,
    /// Memory was refused.
    NoMemory,
    /// No idle came in time after the reply to the request of this cell.
    NoIdle { cell: u32 },
    /// A call of the network failed.
    NetFault,
    /// The kernel's stream on this channel is broken.
    BadPeer { chan: Chan, fault: WireFault },
    /// The run has made all its turns.
    Spent,
}

impl End {
    ghost use Rattle.std.specs.Prelude.{◌≡◌, IfOk};
    ghost use Rattle.job_end.specs.Answers.{Answers};
    ghost use Rattle.job_end.specs.Reasons.{line_of};
    ghost use Rattle.job_end.specs.Statuses.{status_of};

    /// The exit status.
    pub fn status(&self) -> u8
        ensures { result ≡ status_of self.now }
    {
        match self {
            End::Done => 0,
            End::CellError { .. } => 1,
            End::NotRead { .. } => 3,
            End::TooLarge => 4,
            End::NotLoaded(LoadFault::NotJson(_)) => 4,
            End::NotLoaded(LoadFault::NotNotebook(_)) => 4,
            End::NotLoaded(LoadFault::NoTranslator { .. }) => 5,
            End::NotLoaded(LoadFault::NoMemory) => 12,
            End::NoKernelName => 5,
            End::BadKernelName => 5,
            End::BadSpec(_) => 5,
            End::NotStarted => 6,
            End::NotReady => 7,
            End::KernelLost => 8,
            End::TimedOut { .. } => 9,
            End::NotSaved(_) => 10,
            End::NoConnectionFile => 10,
            End::NoMemory => 12,
            End::NoIdle { .. } => 13,
            End::NetFault => 14,
            End::BadPeer { .. } => 15,
            End::Spent => 16,
        }
    }

    /// The answer of a job on this output. Where memory is refused for the line, it is that of a job
    /// that wanted memory.
    pub fn answer(&self, alloc: Global, output: &Text) -> Answer
        ensures { Answers output.now self.now result }
    {
        match self.line(alloc, output.as_str()) {
            Ok(line) => Answer {
                status: self.status(),
                line,
            },
            Err(NoMemory) => Answer::starved(alloc),
        }
    }

    /// The last line of a job on this output that ends so.
    fn line(&self, alloc: Global, output: &str) -> Result<Bytes, NoMemory>
        ensures { IfOk result (λ b. b ≡ line_of output.now self.now) }
    {
        match self {
            End::Done => spoken_line(alloc, output, b"done"),
            End::CellError { cell, name } => {
                let error = error_of(alloc, name)?;
                let reason = of_cell(alloc, *cell, error.bytes())?;
                spoken_line(alloc, output, reason.bytes())
            }
            End::NotRead { path } => {
                let reason = of_path(alloc, path)?;
                spoken_line(alloc, output, reason.bytes())
            }
            End::TooLarge => spoken_line(alloc, output, b"too large"),
            End::NotLoaded(fault) => loading_line(alloc, output, fault),
            End::NoKernelName => spoken_line(alloc, output, b"kernel spec: no name"),
            End::BadKernelName => spoken_line(alloc, output, b"kernel spec: bad name"),
            End::BadSpec(fault) => {
                let reason = of_spec(alloc, *fault)?;
                spoken_line(alloc, output, reason.as_bytes())
            }
            End::NotStarted => spoken_line(alloc, output, b"cannot start the kernel"),
            End::NotReady => spoken_line(alloc, output, b"kernel not ready"),
            End::KernelLost => spoken_line(alloc, output, b"kernel lost"),
            End::TimedOut { cell } => cell_line(alloc, output, *cell, b"timed out"),
            End::NotSaved(fault) => {
                let reason = of_save(alloc, *fault)?;
                spoken_line(alloc, output, reason.as_bytes())
            }
            End::NoConnectionFile => spoken_line(alloc, output, b"cannot save: connection file"),
            End::NoMemory => Ok(Bytes::new(alloc)),
            End::NoIdle { cell } => cell_line(alloc, output, *cell, b"no idle"),
            End::NetFault => spoken_line(alloc, output, b"network fault"),
            End::BadPeer { chan, fault } => {
                let reason = of_peer(alloc, *chan, *fault)?;
                spoken_line(alloc, output, reason.bytes())
            }
            End::Spent => spoken_line(alloc, output, b"turn budget spent"),
        }
    }
}

/// Something of a cell.
fn cell_line(alloc: Global, output: &str, cell: u32, what: &[u8]) -> Result<Bytes, NoMemory>
    ensures { IfOk result (λ b. b ≡ said_of output.now (cell_reason cell what.now)) }
{
    let reason = of_cell(alloc, cell, what)?;
    spoken_line(alloc, output, reason.bytes())
}

/// An input that gives no notebook.
fn loading_line(alloc: Global, output: &str, fault: &LoadFault) -> Result<Bytes, NoMemory>
    ensures { IfOk result (λ b. b ≡ line_of_end output.now (ending.NotLoaded fault.now)) }
{
    match fault {
        LoadFault::NoMemory => Ok(Bytes::new(alloc)),
        _ => {
            let reason = fault.reason(alloc)?;
            spoken_line(alloc, output, reason.bytes())
        }
    }
}

impl From<NoMemory> for End {
    ghost from_gives = { λ _ e. e ≡ ending.NoMemory };

    fn from(_: NoMemory) -> End {
        End::NoMemory
    }
}
