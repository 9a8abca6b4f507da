//! From the words to the file.
ghost use Rattle.std.specs.Prelude.{◌≡◌, ◌⊎◌, Some, IfOk, IfErr, codes, map, string_bytes};
ghost use Rattle.words.specs.declared.usage.Usage.TheVariants as usage;
ghost use Rattle.words.specs.Refusals.{refusal};
ghost use Rattle.words.specs.Runnable.{IsRunnable};
ghost use Rattle.graph_run.specs.Words as spec;

use jtext::{NoMemory, Text};
use std::alloc::Global;
use words::{Ask, Command, Usage, read};

/// What the words after `graph` ask for. They are read as those of a batch: `graph` stands in the
/// place of `--jobs`, and has the index 0.
pub fn read_graph_words(alloc: Global, words: &[String]) -> Result<(Text, Ask), Usage>
    ensures asked { IfOk result (λ r. spec.IsAsked (spec.texts words.now) r.0 r.1) }
    ensures runnable { IfOk result (λ r. IsRunnable r.1) }
    ensures refused { IfErr result (λ u. (u ≡ usage.NoMemory)
        ⊎ (refusal (spec.batch_words (spec.texts words.now)) ≡ Some u)) }
{
    let words = batch_words(alloc, words)?;
    match read(alloc, words.as_slice())? {
        Command::Many { file, common } => Ok((file, common)),
        Command::One(_) | Command::Exercise(_) => Err(Usage::Missing),
    }
}

// The words of the batch.
fn batch_words(alloc: Global, words: &[String]) -> Result<Vec<String>, NoMemory>
    ensures { IfOk result (λ r.
        map string_bytes r.items ≡ spec.batch_words (spec.texts words.now)) }
{
    let mut batch = Vec::new(alloc);
    batch.push(String::from_str(alloc, "--jobs")?)?;
    for word in words {
        batch.push(String::from_str(alloc, word.as_str())?)?;
    }
    Ok(batch)
}
