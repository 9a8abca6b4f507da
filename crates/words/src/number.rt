//! The numbers that options take.
ghost use Rattle.std.specs.Prelude.{◌≡◌, ◌≤◌, IfSome};
ghost use Rattle.words.specs.Numbers as spec;

use jtext::short_number;

/// The seconds of a time: 1 to 9 decimal digits, and at least 1.
pub(crate) fn seconds(text: &[u8]) -> Option<u64>
    ensures exact { result ≡ spec.seconds text.now }
    ensures range { IfSome result (λ n. (1 ≤ n) × (n ≤ 999999999)) }
{
    number_within(text, 9, 1, 999_999_999)
}

/// The number of generated cells: 1 to 3 decimal digits, and at most 200.
pub(crate) fn count(text: &[u8]) -> Option<u64>
    ensures exact { result ≡ spec.count text.now }
    ensures range { IfSome result (λ n. n ≤ 200) }
{
    number_within(text, 3, 0, 200)
}

/// The number in this range that at most so many decimal digits make, and at most nine.
fn number_within(text: &[u8], digits: usize, least: u64, most: u64) -> Option<u64>
    ensures exact { result ≡ spec.number_within digits least most text.now }
    ensures range { IfSome result (λ n. (least ≤ n) × (n ≤ most)) }
{
    if digits < text.len() {
        return None;
    }
    let n = short_number(text)?;
    if least <= n && n <= most {
        Some(n)
    } else {
        None
    }
}
