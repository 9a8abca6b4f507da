//! The line that is said at the end of a report.
ghost use Rattle.std.specs.Prelude.{◌≡◌, IfOk};
ghost use Rattle.said_lines.specs.Lines as lines;
ghost use Rattle.report_run.specs.Lines as spec;

use crate::end::End;
use jtext::{Bytes, NoMemory};
use said_lines::spoken_line;
use save_disk::SaveFault;
use std::alloc::Global;

/// The line of a report that ends so.
pub(crate) fn line(alloc: Global, input: &str, output: &str, end: &End) -> Result<Bytes, NoMemory>
    ensures { IfOk result (λ b. b ≡ spec.line input.now output.now end.now) }
{
    match end {
        End::Done => spoken_line(alloc, output, b"done"),
        End::Refused(usage) => {
            let what = format!(in alloc; "{usage}")?;
            spoken_line(alloc, "usage", what.as_bytes())
        }
        End::NotRead => {
            let what = format!(in alloc; "cannot read {input}")?;
            spoken_line(alloc, output, what.as_bytes())
        }
        End::TooLarge => spoken_line(alloc, output, b"too large"),
        End::NotLoaded(fault) => {
            let what = fault.reason(alloc)?;
            spoken_line(alloc, output, what.bytes())
        }
        End::NotScript { number } => {
            let what = format!(in alloc; "not a script at {number}")?;
            spoken_line(alloc, output, what.as_bytes())
        }
        End::NotSaved(fault) => fault_line(alloc, output, *fault),
        End::NoMemory => spoken_line(alloc, "nbrun", b"no memory"),
    }
}

/// The line of a save of the output that failed at this step.
pub(crate) fn fault_line(alloc: Global, output: &str, fault: SaveFault) -> Result<Bytes, NoMemory>
    ensures { IfOk result (λ b. b ≡ lines.spoken_line output.now (spec.save fault)) }
{
    let what = format!(in alloc; "cannot save: {fault}")?;
    spoken_line(alloc, output, what.as_bytes())
}
