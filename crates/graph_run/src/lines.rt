//! What is said of a job that isn't run, and of a graph that has none.
ghost use Rattle.std.specs.Prelude.{◌≡◌, ◌++◌, codes, IfOk};
ghost use Rattle.graph_run.specs.Lines as spec;

use crate::Refusal;
use crate::end::End;
use jtext::{Bytes, NoMemory, put_string};
use said_lines::spoken_line;
use std::alloc::Global;

/// The line of a job with this output that isn't run.
pub(crate) fn refusal_line(
    alloc: Global,
    output: &str,
    refusal: &Refusal,
) -> Result<Bytes, NoMemory>
    ensures { IfOk result (λ b. b ≡ spec.refusal_line output.now refusal.now) }
{
    match refusal {
        Refusal::Skipped => spoken_line(alloc, output, b"skipped"),
        Refusal::NotRead { path } => {
            let what = cannot_read(alloc, path.as_str())?;
            spoken_line(alloc, output, what.bytes())
        }
        Refusal::TooLarge => spoken_line(alloc, output, b"too large"),
        Refusal::NotLoaded(fault) => {
            let what = fault.reason(alloc)?;
            spoken_line(alloc, output, what.bytes())
        }
        Refusal::NoScrap { scrap, job } => {
            let what = no_scrap(alloc, scrap.as_str(), job.as_str())?;
            spoken_line(alloc, output, what.bytes())
        }
        Refusal::NoMemory => spoken_line(alloc, "nbrun", b"no memory"),
    }
}

fn cannot_read(alloc: Global, path: &str) -> Result<Bytes, NoMemory>
    ensures { IfOk result (λ b. b ≡ codes "cannot read " ++ path.now) }
{
    let mut what = Bytes::of(alloc, b"cannot read ")?;
    what.add(path.as_bytes())?;
    Ok(what)
}

fn no_scrap(alloc: Global, scrap: &str, job: &str) -> Result<Bytes, NoMemory>
    ensures { IfOk result (λ b. b ≡ spec.no_scrap scrap.now job.now) }
{
    let mut what = Bytes::of(alloc, b"no scrap ")?;
    put_string(&mut what, scrap)?;
    what.add(b" in ")?;
    put_string(&mut what, job)?;
    Ok(what)
}

/// The line of a graph with this file that ends so.
pub(crate) fn end_line(alloc: Global, file: &str, end: &End) -> Result<Bytes, NoMemory>
    ensures { IfOk result (λ b. b ≡ spec.end_line file.now end.now) }
{
    match end {
        End::Refused(usage) => {
            let what = format!(in alloc; "{usage}")?;
            spoken_line(alloc, "usage", what.as_bytes())
        }
        End::NotRead => {
            let what = format!(in alloc; "cannot read {file}")?;
            spoken_line(alloc, "nbrun", what.as_bytes())
        }
        End::NoMemory => spoken_line(alloc, "nbrun", b"no memory"),
    }
}
