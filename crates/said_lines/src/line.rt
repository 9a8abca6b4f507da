//! Lines, each ended by a line feed.
ghost use Rattle.std.specs.Prelude.{◌≡◌, IfOk};
ghost use Rattle.said_lines.specs.Lines as lines;

use jtext::{Bytes, NoMemory};
use std::alloc::Global;

/// The line that speaks of this and says that.
pub fn spoken_line(alloc: Global, of: &str, what: &[u8]) -> Result<Bytes, NoMemory>
    ensures { IfOk result (λ b. b ≡ lines.spoken_line of.now what.now) }
{
    let mut out = Bytes::of(alloc, of.as_bytes())?;
    out.add(b": ")?;
    out.add(what)?;
    out.add(b"\n")?;
    Ok(out)
}

/// The line of an acknowledged save, in which so many of the cells are settled.
pub fn saved_line(
    alloc: Global,
    output: &str,
    settled: usize,
    cells: usize,
) -> Result<Bytes, NoMemory>
    ensures { IfOk result (λ b. b ≡ lines.saved_line output.now settled cells) }
{
    let count = format!(in alloc; "saved {settled}/{cells} ")?;
    let mut out = Bytes::of(alloc, count.as_bytes())?;
    out.add(output.as_bytes())?;
    out.add(b"\n")?;
    Ok(out)
}
