//! What is said in place of a run.
ghost use Rattle.std.specs.Prelude.{◌≡◌, ◌⊎◌, IfOk};
ghost use Rattle.world.specs.Told.{Between};
ghost use Rattle.said_lines.specs.Between.{SayRose, SayFailed};
ghost use Rattle.said_lines.specs.Speech.{Says};
ghost use Rattle.nbrun_main.specs.Printed.{Prints, usage_line};

use jtext::{Bytes, NoMemory};
use said_lines::{say, spoken_line};
use std::alloc::Global;
use words::Usage;
use world::{Say, Wrote};

/// The words or the files that they name are refused.
const REFUSED: u8 = 2;

/// Memory was refused before the run began.
const NO_MEMORY: u8 = 12;

/// Says the text piece by piece until a say fails, and answers the exit status: the first one where
/// it was said whole, and else the second.
pub(crate) fn print<W: Say>(w: &mut W, text: &[u8], done: u8, unsaid: u8) -> u8
    ensures prints { Between W.journal w.old w.new
        (λ before. Prints text.now done unsaid before result) }
    ensures status { (result ≡ done) ⊎ (result ≡ unsaid) × SayRose W.counts w.old w.new }
{
    let mut rest = text;
    while !rest.is_empty() {
        match w.write(rest) {
            Wrote::Took(n) => rest = &rest[n as usize..],
            Wrote::Failed => return unsaid,
        }
    }
    done
}

/// Says why words are refused, as a run does whose words have that fault, and answers the exit status.
pub(crate) fn refuse<W: Say>(alloc: Global, usage: &Usage, w: &mut W) -> u8
    ensures says { result ≡ 2 → Between W.journal w.old w.new
        (Says (usage_line usage.now) (SayFailed W.counts w.new)) }
    ensures status { (result ≡ 2) ⊎ (result ≡ 12) }
{
    match usage_line(alloc, usage) {
        Ok(line) => {
            say(w, line.bytes());
            REFUSED
        }
        Err(NoMemory) => NO_MEMORY,
    }
}

fn usage_line(alloc: Global, usage: &Usage) -> Result<Bytes, NoMemory>
    ensures { IfOk result (λ line. line ≡ usage_line usage.now) }
{
    let what = format!(in alloc; "{usage}")?;
    spoken_line(alloc, "usage", what.as_bytes())
}
