//! Steps over the front of a text.
ghost use Rattle.std.specs.Prelude.{◌≡◌, ◌⊎◌, ℕ, ◌<◌, ◌≤◌, List, [], ◌∷◌, ◌++◌, length, IfSome, IsTrue, ◌↔◌, option_map};
ghost use Rattle.std.specs.List.{AllByRecursion};
ghost use Rattle.jtext.specs.Grammar.{IsSpace, AreSpaces, Passes};
ghost use Rattle.jtext.specs.Reading as spec;
ghost use Rattle.jtext.specs.Readings.{strip_word};
ghost use Rattle.jtext.specs.Number.{IsNumber, AreAllDigits, AreDigits, IsMinus, IsSign, IsWhole, IsFraction, IsExponent};

/// The first byte and the text after it, where that byte is ASCII.
pub(crate) fn split_ascii(s: &str) -> Option<(u8, &str)>
    ensures some { IfSome result (λ p. s.now ≡ p.0 ∷ p.1.now) }
    ensures ascii { IfSome result (λ p. p.0 < 128) }
    ensures exact { option_map (λ p. (p.0, p.1.now)) result ≡ spec.ascii_front s.now }
{
    let byte = *s.as_bytes().first()?;
    if byte < 128 {
        Some((byte, &s[1..]))
    } else {
        None
    }
}

pub(crate) fn is_space(byte: u8) -> bool
    ensures space { IsTrue result ↔ IsSpace byte }
    ensures exact { result ≡ spec.is_space byte }
{
    matches!(byte, b' ' | b'\t' | b'\n' | b'\r')
}

/// The text after the white space at its front.
pub(crate) fn skip_spaces(s: &str) -> &str
    ensures passed { Passes AreSpaces s.now result.now }
    ensures exact { result.now ≡ spec.skip_spaces s.now }
    ensures within { length result.now ≤ length s.now }
{
    let mut rest = s;
    while let Some((byte, after)) = split_ascii(rest) {
        if !is_space(byte) {
            break;
        }
        rest = after;
    }
    rest
}

/// The text after the word, where the text begins with it.
pub(crate) fn strip_word<'a>(s: &'a str, word: &str) -> Option<&'a str>
    ensures some { IfSome result (λ rest. s.now ≡ word.now ++ rest.now) }
    ensures exact { option_map (λ rest. rest.now) result ≡ strip_word word.now s.now }
{
    s.strip_prefix(word)
}

/// The text after the digits at its front.
fn skip_digits(s: &str) -> &str
    ensures passed { Passes AreAllDigits s.now result.now }
    ensures exact { result.now ≡ spec.skip_digits s.now }
    ensures within { length result.now ≤ length s.now }
{
    let mut rest = s;
    while let Some((byte, after)) = split_ascii(rest) {
        if !byte.is_ascii_digit() {
            break;
        }
        rest = after;
    }
    rest
}

/// The text after one digit or more.
fn skip_some_digits(s: &str) -> Option<&str>
    ensures passed { IfSome result (λ rest. Passes AreDigits s.now rest.now) }
    ensures exact { option_map (λ rest. rest.now) result ≡ spec.after_digits s.now }
{
    let (byte, after) = split_ascii(s)?;
    if byte.is_ascii_digit() {
        Some(skip_digits(after))
    } else {
        None
    }
}

fn skip_minus(s: &str) -> &str
    ensures passed { Passes IsMinus s.now result.now }
    ensures exact { result.now ≡ spec.after_minus s.now }
{
    match split_ascii(s) {
        Some((b'-', after)) => after,
        _ => s,
    }
}

fn skip_sign(s: &str) -> &str
    ensures passed { Passes IsSign s.now result.now }
    ensures exact { result.now ≡ spec.after_sign s.now }
{
    match split_ascii(s) {
        Some((b'-' | b'+', after)) => after,
        _ => s,
    }
}

fn skip_whole(s: &str) -> Option<&str>
    ensures passed { IfSome result (λ rest. Passes IsWhole s.now rest.now) }
    ensures exact { option_map (λ rest. rest.now) result ≡ spec.after_whole s.now }
{
    let (byte, after) = split_ascii(s)?;
    match byte {
        b'0' => Some(after),
        b'1'..=b'9' => Some(skip_digits(after)),
        _ => None,
    }
}

fn skip_fraction(s: &str) -> Option<&str>
    ensures passed { IfSome result (λ rest. Passes IsFraction s.now rest.now) }
    ensures exact { option_map (λ rest. rest.now) result ≡ spec.after_fraction s.now }
{
    match split_ascii(s) {
        Some((b'.', after)) => skip_some_digits(after),
        _ => Some(s),
    }
}

fn skip_exponent(s: &str) -> Option<&str>
    ensures passed { IfSome result (λ rest. Passes IsExponent s.now rest.now) }
    ensures exact { option_map (λ rest. rest.now) result ≡ spec.after_exponent s.now }
{
    match split_ascii(s) {
        Some((b'e' | b'E', after)) => skip_some_digits(skip_sign(after)),
        _ => Some(s),
    }
}

/// The front of `s` that `rest` follows.
fn front_of<'a>(s: &'a str, rest: &str) -> &'a str
    requires { (front : List ℕ) × (s.now ≡ front ++ rest.now) }
    ensures { s.now ≡ result.now ++ rest.now }
{
    s.split_at(s.len() - rest.len()).0
}

/// The number at the front, and the text after it.
pub(crate) fn split_number(s: &str) -> Option<(&str, &str)>
    ensures number { IfSome result (λ p. IsNumber p.0.now) }
    ensures parts { IfSome result (λ p. s.now ≡ p.0.now ++ p.1.now) }
    ensures exact { option_map (λ p. p.1.now) result ≡ spec.after_number s.now }
{
    let rest = skip_exponent(skip_fraction(skip_whole(skip_minus(s))?)?)?;
    Some((front_of(s, rest), rest))
}

/// How many bytes are left where what begins as a number is none.
pub(crate) fn number_stop(s: &str) -> usize
    ensures { result ≡ spec.number_stop s.now }
{
    let start = skip_minus(s);
    let Some(whole) = skip_whole(start) else {
        return start.len();
    };
    let Some(fraction) = skip_fraction(whole) else {
        return whole.len().saturating_sub(1);
    };
    match split_ascii(fraction) {
        Some((_, after)) => skip_sign(after).len(),
        None => 0,
    }
}

/// How many bytes are left where the text parts from the word.
#[cycle(stop)]
#[tactic(auto, unfolding(crate::specs::Reading::word_stop))]
pub(crate) fn word_stop(s: &str, word: &str) -> usize
    requires { AllByRecursion (λ c. c < 128) word.now }
    ensures { result ≡ spec.word_stop word.now s.now }
{
    let Some((letter, letters)) = split_ascii(word) else {
        return s.len();
    };
    match split_ascii(s) {
        Some((byte, after)) => {
            if byte == letter {
                word_stop(after, letters)
            } else {
                s.len()
            }
        }
        None => s.len(),
    }
}
