//! `read`, from bytes to a tree, by recursive descent. Each function gives the value at the front
//! and the text after it.
ghost use Rattle.std.specs.Prelude.{◌≡◌, ◌<◌, ◌≤◌, length, true, codes, IfOk, MatchOption};
ghost use Rattle.std.specs.List.{AllByRecursion};
ghost use Rattle.jtext.specs.Grammar.{Spells};
ghost use Rattle.jtext.specs.Gives.{Gives, ReadsAs};
ghost use Rattle.jtext.specs.Reading.{value_at, document_at, list_at, item_at, field_at, has_key, key_at, word_at};
ghost use Rattle.jtext.specs.Readings.{strip_word};
ghost use Rattle.jtext.specs.KeySet.{HasKeys, HasKeysAnd};
ghost use Rattle.jtext.specs.Refusal.{Refused, Stands, Answers};
ghost use Rattle.jtext.specs.declared.fault.JsonFault as fault;
ghost use Rattle.jtext.specs.Depth.{depth};
ghost use Rattle.jtext.specs.Within.{IsNoTextWithin, IsTextWithin};

use crate::fault::{Fault, JsonFault};
use crate::key_set::is_taken;
use crate::quoted::string;
use crate::scan::{number_stop, skip_spaces, split_ascii, split_number, strip_word, word_stop};
use crate::{Fields, Items, Json, NoMemory, NumText, Text};
use std::alloc::Global;
use std::collections::BTreeSet;

/// The value at the front, and the text after it.
#[cycle(parse)]
pub(crate) fn value(alloc: Global, s: &str, deep: u32) -> Result<(Json, &str), Fault>
    ensures shorter { IfOk result (λ r. length r.1.now < length s.now) }
    ensures exact { Gives (λ r. (r.0, r.1.now)) result (value_at deep s.now) }
{
    let Some((byte, after)) = split_ascii(s) else {
        return Err(Fault::Bad(s.len()));
    };
    match byte {
        b'n' => word(s, "null", Json::Null),
        b't' => word(s, "true", Json::Bool(true)),
        b'f' => word(s, "false", Json::Bool(false)),
        b'"' => {
            let (text, rest) = string(alloc, s)?;
            Ok((Json::Str(text), rest))
        }
        b'[' => {
            if deep == 0 {
                return Err(Fault::Deep(s.len()));
            }
            let (items, rest) = items(alloc, after, deep - 1)?;
            Ok((Json::Arr(items), rest))
        }
        b'{' => {
            if deep == 0 {
                return Err(Fault::Deep(s.len()));
            }
            let (fields, rest) = fields(alloc, after, deep - 1)?;
            Ok((Json::Obj(fields), rest))
        }
        _ => {
            let Some((text, rest)) = split_number(s) else {
                return Err(Fault::Bad(number_stop(s)));
            };
            Ok((Json::Num(NumText::of_number(alloc, text)?), rest))
        }
    }
}

fn word<'a>(s: &'a str, name: &str, value: Json) -> Result<(Json, &'a str), Fault>
    requires some { 0 < length name.now }
    requires ascii { AllByRecursion (λ c. c < 128) name.now }
    ensures shorter { IfOk result (λ r. length r.1.now < length s.now) }
    ensures exact { Gives (λ r. (r.0, r.1.now)) result
        (word_at name.now value s.now (strip_word name.now s.now)) }
{
    match strip_word(s, name) {
        Some(rest) => Ok((value, rest)),
        None => Err(Fault::Bad(word_stop(s, name))),
    }
}

/// The items after a `[`, and the text after its `]`.
#[cycle(parse)]
fn items(alloc: Global, s: &str, deep: u32) -> Result<(Items, &str), Fault>
    ensures within { IfOk result (λ r. length r.1.now ≤ length s.now) }
    ensures exact { Gives (λ r. (r.0, r.1.now)) result
        (list_at (codes "]") (item_at (value_at deep)) s.now) }
{
    let mut found = Items::new(alloc);
    let mut rest = skip_spaces(s);
    if let Some(after) = strip_word(rest, "]") {
        return Ok((found, after));
    }
    loop {
        let (item, after) = value(alloc, rest, deep)?;
        found.push(item)?;
        let next = skip_spaces(after);
        if let Some(after) = strip_word(next, "]") {
            found.trim();
            return Ok((found, after));
        }
        let Some(after) = strip_word(next, ",") else {
            return Err(Fault::Bad(next.len()));
        };
        rest = skip_spaces(after);
    }
}

/// The pairs after a `{`, and the text after its `}`. No key comes twice.
#[cycle(parse)]
fn fields(alloc: Global, s: &str, deep: u32) -> Result<(Fields, &str), Fault>
    ensures within { IfOk result (λ r. length r.1.now ≤ length s.now) }
    ensures exact { Gives (λ r. (r.0, r.1.now)) result
        (list_at (codes "}") (field_at (value_at deep)) s.now) }
{
    let mut found = Fields::new(alloc);
    let mut many = BTreeSet::new(alloc);
    let mut rest = skip_spaces(s);
    if let Some(after) = strip_word(rest, "}") {
        return Ok((found, after));
    }
    loop {
        let (key, after) = key(alloc, rest, &found, &mut many)?;
        let (value, after) = value(alloc, after, deep)?;
        found.push((key, value))?;
        let next = skip_spaces(after);
        if let Some(after) = strip_word(next, "}") {
            found.trim();
            return Ok((found, after));
        }
        let Some(after) = strip_word(next, ",") else {
            return Err(Fault::Bad(next.len()));
        };
        rest = skip_spaces(after);
    }
}

/// The key at the front, which none of the pairs has, and the text after its colon.
fn key<'a>(
    alloc: Global,
    s: &'a str,
    found: &Fields,
    many: &mut BTreeSet<String>,
) -> Result<(Text, &'a str), Fault>
    requires kept { 16 < length found.now → HasKeys many.old found.now }
    ensures shorter { IfOk result (λ r. length r.1.now < length s.now) }
    ensures kept { IfOk result (λ r. 16 ≤ length found.now → HasKeysAnd r.0 many.new found.now) }
    ensures exact { Gives (λ r. (r.0, r.1.now)) result (key_at (has_key found.now) s.now) }
{
    let (key, after) = string(alloc, s)?;
    if is_taken(alloc, found, many, key.as_str())? {
        return Err(Fault::Repeated(s.len()));
    }
    let next = skip_spaces(after);
    match strip_word(next, ":") {
        Some(rest) => Ok((key, skip_spaces(rest))),
        None => Err(Fault::Bad(next.len())),
    }
}

/// Reads a whole JSON text (RFC 8259) in which lists and objects are at most `deep` levels deep;
/// the outermost one is level 1. Keys must differ within an object, and surrogates must come in
/// pairs. Of several faults the first is answered, and the recursion is no deeper than `deep`.
pub fn read(alloc: Global, bytes: &[u8], deep: u32) -> Result<Json, JsonFault>
    // What is read is spelled so, and what is spelled so is read.
    ensures spelled { IfOk result (λ t. Spells t bytes.now) }
    ensures nests { IfOk result (λ t. depth t ≤ deep) }
    ensures only { (t : Json) → Spells t bytes.now → depth t ≤ deep → ReadsAs result t }

    // A refusal is of the fault that stands in the bytes, and each fault that stands is answered.
    ensures stands { Stands deep bytes.now result }
    ensures refused { (f : fault.JsonFault) → Refused deep bytes.now f → Answers result f }
{
    let text = match std::str::from_utf8(bytes) {
        Ok(text) => text,
        Err(e) => {
            return Err(JsonFault::NotUtf8 {
                at: e.valid_up_to() as u64,
            });
        }
    };
    match document(alloc, text, deep) {
        Ok(tree) => Ok(tree),
        Err(fault) => Err(fault.within(text.len())),
    }
}

/// The tree that the bytes are a text of, where they are at most `size` and nested at most `deep`.
pub fn read_within(
    alloc: Global,
    bytes: &[u8],
    size: usize,
    deep: u32,
) -> Result<Option<Json>, NoMemory>
    ensures { IfOk result (λ o.
        MatchOption o (IsNoTextWithin size deep bytes.now) (IsTextWithin size deep bytes.now)) }
{
    if size < bytes.len() {
        return Ok(None);
    }
    match read(alloc, bytes, deep) {
        Ok(tree) => Ok(Some(tree)),
        Err(JsonFault::NoMemory) => Err(NoMemory),
        Err(_) => Ok(None),
    }
}

/// The value that is the whole text.
fn document(alloc: Global, s: &str, deep: u32) -> Result<Json, Fault>
    ensures exact { Gives (λ t. t) result (document_at deep s.now) }
{
    let (tree, rest) = value(alloc, skip_spaces(s), deep)?;
    let end = skip_spaces(rest);
    if end.is_empty() {
        Ok(tree)
    } else {
        Err(Fault::Bad(end.len()))
    }
}
