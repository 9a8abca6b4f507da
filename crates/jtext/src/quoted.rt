//! Strings with their escapes.
ghost use Rattle.std.specs.Prelude.{◌≡◌, ℕ, [], ◌+◌, ◌<◌, ◌≤◌, length, string_bytes, IfOk, IfSome, option_map};
ghost use Rattle.jtext.specs.Gives.{Gives};
ghost use Rattle.jtext.specs.Strings as spec;

use crate::Text;
use crate::fault::Fault;
use crate::plain::plain_len;
use crate::scan::{split_ascii, strip_word};
use std::alloc::Global;

/// The string at the front, its escapes resolved, and the text after it.
#[tactic(auto, unfolding(crate::specs::Strings::string_at))]
pub(crate) fn string(alloc: Global, s: &str) -> Result<(Text, &str), Fault>
    ensures shorter { IfOk result (λ r. length r.1.now < length s.now) }
    ensures exact { Gives (λ r. (r.0, r.1.now)) result (spec.string_at s.now) }
{
    let Some((byte, after)) = split_ascii(s) else {
        return Err(Fault::Bad(s.len()));
    };
    if byte == b'"' {
        body(alloc, after)
    } else {
        Err(Fault::Bad(s.len()))
    }
}

/// What follows the opening quote, up to the closing one. Without an escape it is copied once.
fn body(alloc: Global, s: &str) -> Result<(Text, &str), Fault>
    ensures shorter { IfOk result (λ r. length r.1.now < length s.now) }
    ensures exact { (n : ℕ) → length s.now < n →
        Gives (λ r. (r.0, r.1.now)) result (spec.body_at n [] s.now) }
{
    let (plain, after) = split_plain(s);
    match split_ascii(after) {
        Some((b'"', next)) => Ok((Text::of(alloc, plain)?, next)),
        _ => {
            let (text, rest) = pieces(alloc, s)?;
            Ok((Text::of_string(text), rest))
        }
    }
}

/// The same, put together from plain pieces and the characters of escapes.
fn pieces(alloc: Global, s: &str) -> Result<(String, &str), Fault>
    ensures shorter { IfOk result (λ r. length r.1.now < length s.now) }
    ensures exact { (n : ℕ) → length s.now < n →
        Gives (λ r. (string_bytes r.0, r.1.now)) result (spec.body_at n [] s.now) }
{
    let mut out = String::new(alloc);
    let mut rest = s;
    'each: loop {
        let (plain, after) = split_plain(rest);
        out.push_str(plain)?;
        let Some((byte, next)) = split_ascii(after) else {
            return Err(Fault::Bad(after.len()));
        };
        match byte {
            b'"' => {
                // The room is up to twice what was needed.
                out.shrink_to_fit();
                return Ok((out, next));
            }
            b'\\' => {
                let (c, more) = escape(next, after.len())?;
                out.push(c)?;
                rest = more;
            }
            _ => return Err(Fault::Bad(after.len())),
        }
    }
}

/// The characters that stand for themselves at the front, and the text after them.
fn split_plain(s: &str) -> (&str, &str)
    ensures parts { (result.0.now, result.1.now) ≡ spec.split_plain s.now }
    ensures lens { length result.0.now + length result.1.now ≡ length s.now }
{
    s.split_at(plain_len(s.as_bytes()))
}

/// The character after a backslash at which `left` bytes are left.
#[tactic(auto, unfolding(crate::specs::Strings::escape_at))]
fn escape(s: &str, left: usize) -> Result<(char, &str), Fault>
    ensures within { IfOk result (λ r. length r.1.now ≤ length s.now) }
    ensures exact { Gives (λ r. (r.0, r.1.now)) result (spec.escape_at left s.now) }
{
    let Some((byte, after)) = split_ascii(s) else {
        return Err(Fault::Bad(s.len()));
    };
    let c = match byte {
        b'u' => return unicode(after, left),
        b'"' => '"',
        b'\\' => '\\',
        b'/' => '/',
        b'b' => '\u{8}',
        b'f' => '\u{c}',
        b'n' => '\n',
        b'r' => '\r',
        b't' => '\t',
        _ => return Err(Fault::Bad(s.len())),
    };
    Ok((c, after))
}

/// The character of the digits after `\u`, and of a second escape where it takes two.
#[tactic(auto, unfolding(crate::specs::Strings::unicode_at))]
fn unicode(s: &str, left: usize) -> Result<(char, &str), Fault>
    ensures within { IfOk result (λ r. length r.1.now ≤ length s.now) }
    ensures exact { Gives (λ r. (r.0, r.1.now)) result (spec.unicode_at left s.now) }
{
    let (high, rest) = four(s)?;
    if high < 0xD800 || 0xE000 <= high {
        return match char::from_u32(high) {
            Some(c) => Ok((c, rest)),
            None => Err(Fault::Lone(left)),
        };
    }
    if high >= 0xDC00 {
        return Err(Fault::Lone(left));
    }
    let (low, rest) = low(rest, left)?;
    match char::from_u32(0x10000 + 0x400 * (high - 0xD800) + (low - 0xDC00)) {
        Some(c) => Ok((c, rest)),
        None => Err(Fault::Lone(left)),
    }
}

/// Four hexadecimal digits.
#[tactic(auto, unfolding(crate::specs::Strings::four_at))]
fn four(s: &str) -> Result<(u32, &str), Fault>
    ensures within { IfOk result (λ r. length r.1.now ≤ length s.now) }
    ensures fits { IfOk result (λ r. r.0 < 65536) }
    ensures exact { Gives (λ r. (r.0, r.1.now)) result (spec.four_at s.now) }
{
    let (a, s) = any_digit(s)?;
    let (b, s) = any_digit(s)?;
    let (c, s) = any_digit(s)?;
    let (d, s) = any_digit(s)?;
    Ok((16 * (16 * (16 * a + b) + c) + d, s))
}

fn any_digit(s: &str) -> Result<(u32, &str), Fault>
    ensures within { IfOk result (λ r. length r.1.now ≤ length s.now) }
    ensures fits { IfOk result (λ r. r.0 ≤ 15) }
    ensures exact { Gives (λ r. (r.0, r.1.now)) result (spec.any_digit_at s.now) }
{
    match digit(s, 0, 15) {
        Some(found) => Ok(found),
        None => Err(Fault::Bad(s.len())),
    }
}

/// The escape of a low surrogate, after one of a high surrogate.
#[tactic(auto, unfolding(crate::specs::Strings::low_at))]
fn low(s: &str, left: usize) -> Result<(u32, &str), Fault>
    ensures within { IfOk result (λ r. length r.1.now ≤ length s.now) }
    ensures low { IfOk result (λ r. 0xDC00 ≤ r.0) }
    ensures fits { IfOk result (λ r. r.0 < 0xE000) }
    ensures exact { Gives (λ r. (r.0, r.1.now)) result (spec.low_at left s.now) }
{
    let s = low_letter(s, "\\", left)?;
    let s = low_letter(s, "u", left)?;
    let (a, s) = low_digit(s, 13, 13, left)?;
    let (b, s) = low_digit(s, 12, 15, left)?;
    let (c, s) = low_digit(s, 0, 15, left)?;
    let (d, s) = low_digit(s, 0, 15, left)?;
    Ok((16 * (16 * (16 * a + b) + c) + d, s))
}

fn low_letter<'a>(s: &'a str, letter: &str, left: usize) -> Result<&'a str, Fault>
    ensures within { IfOk result (λ r. length r.now ≤ length s.now) }
    ensures exact { Gives (λ r. r.now) result (spec.low_letter_at letter.now left s.now) }
{
    match strip_word(s, letter) {
        Some(rest) => Ok(rest),
        None => Err(cut_or_lone(s, left)),
    }
}

fn low_digit(s: &str, least: u32, most: u32, left: usize) -> Result<(u32, &str), Fault>
    requires { most < 16 }
    ensures within { IfOk result (λ r. length r.1.now ≤ length s.now) }
    ensures least { IfOk result (λ r. least ≤ r.0) }
    ensures most { IfOk result (λ r. r.0 ≤ most) }
    ensures exact { Gives (λ r. (r.0, r.1.now)) result (spec.low_digit_at least most left s.now) }
{
    match digit(s, least, most) {
        Some(found) => Ok(found),
        None => Err(cut_or_lone(s, left)),
    }
}

/// The text ends too soon, or something else follows.
fn cut_or_lone(s: &str, left: usize) -> Fault
    ensures { result ≡ spec.cut_or_lone left s.now }
{
    if s.is_empty() {
        Fault::Bad(0)
    } else {
        Fault::Lone(left)
    }
}

/// The hexadecimal digit at the front, where its value is from `least` to `most`.
fn digit(s: &str, least: u32, most: u32) -> Option<(u32, &str)>
    requires { most < 16 }
    ensures within { IfSome result (λ r. length r.1.now < length s.now) }
    ensures least { IfSome result (λ r. least ≤ r.0) }
    ensures most { IfSome result (λ r. r.0 ≤ most) }
    ensures exact { option_map (λ r. (r.0, r.1.now)) result ≡ spec.digit_at least most s.now }
{
    let (byte, after) = split_ascii(s)?;
    let value = char::from(byte).to_digit(16)?;
    if least <= value && value <= most {
        Some((value, after))
    } else {
        None
    }
}
