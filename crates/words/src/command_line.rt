//! The words of the command line.
ghost use Rattle.std.specs.Prelude.{◌≡◌, ◌⊎◌, Some, None, map, string_bytes, IfOk, IfErr};
ghost use Rattle.words.specs.Asked.{command_of_words};
ghost use Rattle.words.specs.Refusals as spec;
ghost use Rattle.words.specs.Runnable.{IsRunnableCommand};
ghost use Rattle.words.specs.declared.usage.Usage.TheVariants as usage;

use crate::compose::command;
use crate::fault::refusal;
use crate::part::parts_of;
use crate::{Command, Usage};
use std::alloc::Global;

/// Reads the words of the command line, without the program's name.
/// Of several faults the first one is answered, with the index of its word, counted from 0.
pub fn read(alloc: Global, words: &[String]) -> Result<Command, Usage>
    ensures asked { IfOk result (λ c. c ≡ command_of_words (map string_bytes words.now)) }
    // Words are refused exactly where they have a fault, and the first one is named.
    ensures accepted { IfOk result (λ c. spec.refusal (map string_bytes words.now) ≡ None) }
    // Names stand once, and values and times are in their range.
    ensures runnable { IfOk result IsRunnableCommand }
    ensures refused { IfErr result (λ u.
        (u ≡ usage.NoMemory) ⊎ (spec.refusal (map string_bytes words.now) ≡ Some u)) }
{
    let parts = parts_of(alloc, words)?;
    if let Some(usage) = refusal(words, parts.as_slice()) {
        return Err(usage);
    }
    Ok(command(alloc, words, parts.as_slice())?)
}
