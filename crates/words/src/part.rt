//! The parts of a command line: its words, but for the values of its options.
ghost use Rattle.std.specs.Prelude.{◌≡◌, ◌<◌, ◌^◌, map, string_bytes, IfOk};
ghost use Rattle.words.specs.Parts as spec;

use crate::kind::Kind;
use jtext::{List, NoMemory};
use std::alloc::Global;

/// A word that is no value, by its index, with the indices of the two words after it.
#[derive(Clone, Copy, Debug, Drop)]
pub(crate) struct Part {
    pub(crate) kind: Kind,
    pub(crate) at: usize,
    pub(crate) first: usize,
    pub(crate) second: usize,
}

fn part_at(at: usize, kind: Kind) -> Part
    requires { at < 2 ^ 63 }
    ensures { result ≡ spec.part_at at kind }
{
    Part {
        kind,
        at,
        first: at + 1,
        second: at + 2,
    }
}

/// The parts of the words, in their order. An option's values are the words after it, whatever they
/// begin with.
pub(crate) fn parts_of(alloc: Global, words: &[String]) -> Result<List<Part>, NoMemory>
    ensures { IfOk result (λ parts. parts ≡ spec.parts_of (map string_bytes words.now)) }
{
    let mut parts = List::new(alloc);
    let mut ended = false;
    let mut values = 0;
    for (at, word) in words.iter().enumerate() {
        if 0 < values {
            values -= 1;
        } else {
            let kind = Kind::of(ended, word.as_str());
            ended = kind.ends(ended);
            values = kind.arity();
            parts.push(part_at(at, kind))?;
        }
    }
    Ok(parts)
}

/// The word with this index, and the empty text where there is none.
pub(crate) fn word(words: &[String], i: usize) -> &str
    ensures { result.now ≡ spec.word i (map string_bytes words.now) }
{
    match words.get(i) {
        Some(word) => word.as_str(),
        None => "",
    }
}
