//! The paths of a command line.
ghost use Rattle.std.specs.Prelude.{◌≡◌, ◌++◌, map, string_bytes};
ghost use Rattle.std.specs.Str.{bytes_eq};
ghost use Rattle.words.specs.Paths as spec;

use crate::part::{Part, word};

/// The index of the word that is the nth path, counted from 0.
pub(crate) fn path(parts: &[Part], n: usize) -> Option<usize>
    ensures { result ≡ spec.path n parts.now }
{
    let mut left = n;
    for part in parts {
        if part.kind.is_path() {
            if left == 0 {
                return Some(part.at);
            }
            left -= 1;
        }
    }
    None
}

/// The nth path, and the empty text where there is none.
pub(crate) fn path_text<'a>(words: &'a [String], parts: &[Part], n: usize) -> &'a str
    ensures { result.now ≡ spec.path_text n (map string_bytes words.now) parts.now }
{
    match path(parts, n) {
        Some(i) => word(words, i),
        None => "",
    }
}

/// Whether the input is none of the files that a run writes for this output.
pub(crate) fn are_apart(input: &[u8], output: &[u8]) -> bool
    ensures { result ≡ spec.are_apart input.now output.now }
{
    !(input == output
        || is_beside(input, output, b".nbrun-tmp")
        || is_beside(input, output, b".nbrun-kernel.json"))
}

/// Whether the path is the output's with that ending.
fn is_beside(path: &[u8], output: &[u8], ending: &[u8]) -> bool
    ensures { result ≡ bytes_eq path.now (output.now ++ ending.now) }
{
    path.starts_with(output) && &path[output.len()..] == ending
}
