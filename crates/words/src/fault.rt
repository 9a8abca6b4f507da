//! The refusal of a command line.
ghost use Rattle.std.specs.Prelude.{◌≡◌, [], map, string_bytes};
ghost use Rattle.std.specs.List.{list_any};
ghost use Rattle.words.specs.Parts.{has_values, repeats};
ghost use Rattle.words.specs.Refusals as spec;

use crate::Usage;
use crate::form::Form;
use crate::number::{count, seconds};
use crate::part::{Part, word};
use crate::path::{are_apart, path, path_text};
use crate::takes::Takes;
use jtext::is_name;

/// The first word with a fault, from the left; then what goes beyond the form, what is missing, and
/// equal paths.
pub(crate) fn refusal(words: &[String], parts: &[Part]) -> Option<Usage>
    ensures { result ≡ spec.refusal_of (map string_bytes words.now) parts.now }
{
    match first_fault(words, parts) {
        Some(usage) => Some(usage),
        None => form_fault(words, parts),
    }
}

fn first_fault(words: &[String], parts: &[Part]) -> Option<Usage>
    ensures { result ≡ spec.first_fault (map string_bytes words.now) [] parts.now }
{
    for (i, part) in parts.iter().enumerate() {
        if let Some(usage) = fault_of(words, &parts[..i], part) {
            return Some(usage);
        }
    }
    None
}

/// The fault of a part that comes after these.
fn fault_of(words: &[String], before: &[Part], part: &Part) -> Option<Usage>
    ensures { result ≡ spec.fault_of (map string_bytes words.now) before.now part.now }
{
    if part.kind.is_unknown() {
        return Some(Usage::Unknown {
            i: word_index(part.at),
        });
    }
    if is_among(before, part) {
        return Some(Usage::Twice {
            i: word_index(part.at),
        });
    }
    if !has_values(words, part) {
        return Some(Usage::NoValue {
            i: word_index(part.at),
        });
    }
    value_fault(
        part.kind.takes(),
        word(words, part.first).as_bytes(),
        part.first,
    )
}

/// Whether the part is an option that stands before, and may stand only once.
fn is_among(before: &[Part], part: &Part) -> bool
    ensures { result ≡ list_any (repeats part.now) before.now }
{
    before.iter().any(|earlier| repeats(part, earlier))
}

fn repeats(part: &Part, earlier: &Part) -> bool
    ensures { result ≡ repeats part.now earlier.now }
{
    part.kind.is_once() && earlier.kind.is_once() && part.kind.is_same(earlier.kind)
}

/// Whether as many words follow the part as it takes values.
fn has_values(words: &[String], part: &Part) -> bool
    ensures { result ≡ has_values (map string_bytes words.now) part.now }
{
    part.kind.arity() <= words.len().saturating_sub(part.first)
}

/// The fault of the first value, which is the word with this index.
fn value_fault(takes: Takes, value: &[u8], i: usize) -> Option<Usage>
    ensures { result ≡ spec.value_fault takes value.now i }
{
    let at = word_index(i);
    match takes {
        Takes::Seconds if seconds(value).is_none() => Some(Usage::BadNumber { i: at }),
        Takes::Count if count(value).is_none() => Some(Usage::BadNumber { i: at }),
        Takes::NameAndText if !is_name(value) => Some(Usage::BadName { i: at }),
        _ => None,
    }
}

fn form_fault(words: &[String], parts: &[Part]) -> Option<Usage>
    ensures { result ≡ spec.form_fault (map string_bytes words.now) parts.now }
{
    let form = Form::of(parts);
    if let Some(i) = form.extra(parts) {
        return Some(Usage::Extra { i: word_index(i) });
    }
    match form {
        Form::One => paths_fault(words, parts),
        _ => None,
    }
}

fn paths_fault(words: &[String], parts: &[Part]) -> Option<Usage>
    ensures { result ≡ spec.paths_fault (map string_bytes words.now) parts.now }
{
    let Some(i) = path(parts, 1) else {
        return Some(Usage::Missing);
    };
    let input = path_text(words, parts, 0).as_bytes();
    if are_apart(input, word(words, i).as_bytes()) {
        None
    } else {
        Some(Usage::SamePath { i: word_index(i) })
    }
}

/// The index of a word as a refusal gives it: beyond 32 bits, the last one that they hold.
fn word_index(i: usize) -> u32
    ensures { result ≡ spec.word_index i }
{
    if i < u32::MAX as usize {
        i as u32
    } else {
        u32::MAX
    }
}
