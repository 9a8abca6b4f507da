//! New text as nbformat stores it: a list of lines, cut after each line end.
ghost use Rattle.std.specs.Prelude.{◌≡◌, ◌<◌, ◌≤◌, ◌∷◌, [], length, take, drop, IfOk, IfSome, IfNone, position, ◌==◌, ◌+◌};
ghost use Rattle.std.specs.Str.{IsCharBoundary};
ghost use Rattle.nb_model.specs.Lines.{lines_of, lines_tree};

use jtext::{Items, Json, NoMemory, Text};
use std::alloc::Global;

/// Splits a text after each U+000A into a list of strings; the empty text is the empty list.
pub fn split_lines(alloc: Global, text: &str) -> Result<Json, NoMemory>
    ensures { IfOk result (λ t. t ≡ lines_tree text.now) }
{
    let mut lines = Items::new(alloc);
    let mut rest = text;
    while let Some(end) = line_end(rest) {
        let (line, after) = rest.split_at(end);
        lines.push(Json::Str(Text::of(alloc, line)?))?;
        rest = after;
    }
    if !rest.is_empty() {
        lines.push(Json::Str(Text::of(alloc, rest)?))?;
    }
    Ok(Json::Arr(lines))
}

/// The place after the first line end.
fn line_end(text: &str) -> Option<usize>
    ensures within { IfSome result (λ n. (0 < n) × (n ≤ length text.now)) }
    ensures boundary { IfSome result (λ n. IsCharBoundary text.now n) }
    ensures first { IfSome result (λ n. lines_of text.now
        ≡ take n text.now ∷ lines_of (drop n text.now)) }
    ensures last { IfNone result (0 < length text.now → lines_of text.now ≡ text.now ∷ []) }
{
    match newline(text.as_bytes()) {
        Some(at) => Some(at + 1),
        None => None,
    }
}

fn newline(text: &[u8]) -> Option<usize>
    ensures { result ≡ position (λ b. b == 10) text.now }
{
    text.iter().position(|b| *b == b'\n')
}
