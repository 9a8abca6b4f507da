//! Names and short numbers, as words of a command line or of a small language have them.
ghost use Rattle.std.specs.Prelude.{◌≡◌, ◌≤◌, length};
ghost use Rattle.std.specs.List.{list_all};
ghost use Rattle.jtext.specs.Names as spec;

/// Whether the text is a name: a letter of ASCII or `_`, then such letters, digits and `_`.
pub fn is_name(text: &[u8]) -> bool
    ensures { result ≡ spec.is_name text.now }
{
    0 < text.len() && is_letter(text[0]) && all_name_bytes(text)
}

fn is_letter(c: u8) -> bool
    ensures { result ≡ spec.is_letter c }
{
    matches!(c, b'a'..=b'z' | b'A'..=b'Z' | b'_')
}

fn is_name_byte(c: u8) -> bool
    ensures { result ≡ spec.is_name_byte c }
{
    is_letter(c) || c.is_ascii_digit()
}

fn all_name_bytes(text: &[u8]) -> bool
    ensures { result ≡ list_all spec.is_name_byte text.now }
{
    text.iter().all(|c| is_name_byte(*c))
}

/// The number that one to nine decimal digits make, and `None` of another text. Zeros may lead.
pub fn short_number(text: &[u8]) -> Option<u64>
    ensures { result ≡ spec.short_number text.now }
{
    if text.is_empty() || 9 < text.len() {
        None
    } else {
        number(text)
    }
}

fn number(text: &[u8]) -> Option<u64>
    requires { length text.now ≤ 9 }
    ensures { result ≡ spec.number_from 0 text.now }
{
    let mut n: u64 = 0;
    for c in text {
        if !c.is_ascii_digit() {
            return None;
        }
        n = n * 10 + (*c - b'0') as u64;
    }
    Some(n)
}
