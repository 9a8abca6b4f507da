//! String literals, whose escapes are those of Python (The Python Language Reference, 2.4.1) in
//! lower case: a backslash and a letter, or the code of a character in two, four or eight digits.
ghost use Rattle.std.specs.Prelude.{◌≡◌, ◌≤◌, IfOk, IfSome};
ghost use Rattle.toy_lang.specs.Literals as spec;

use jtext::{NoMemory, Text};
use std::alloc::Global;

/// How far the characters of a literal have come.
#[derive(Clone, Copy, Debug, Drop)]
pub(crate) enum Stage {
    /// Before the quote that opens it.
    Unopened,
    /// Between two characters of its text.
    Open,
    /// After a backslash.
    Escape,
    /// Within a code, of which so many digits are left.
    Code { left: u8, code: u32 },
    /// After the quote that closes it.
    Closed,
}

/// The text of a string literal, and `None` where the characters aren't one.
pub(crate) fn literal_text(alloc: Global, literal: &str) -> Result<Option<Text>, NoMemory>
    ensures { IfOk result (λ text. text ≡ spec.literal_text literal.now) }
{
    let mut out = String::new(alloc);
    let mut stage = Stage::Unopened;
    for c in literal.chars() {
        let Some((put, next)) = advance(stage, c) else {
            return Ok(None);
        };
        if let Some(put) = put {
            out.push(put)?;
        }
        stage = next;
    }
    match stage {
        Stage::Closed => Ok(Some(Text::of_string(out))),
        _ => Ok(None),
    }
}

/// The character of the text that ends with this one, if one does, and the stage after it.
fn advance(stage: Stage, c: char) -> Option<(Option<char>, Stage)>
    ensures { result ≡ spec.advance stage c }
{
    match stage {
        Stage::Unopened => opening(c),
        Stage::Open => Some(open_step(c)),
        Stage::Escape => escape_step(c),
        Stage::Code { left, code } => code_step(left, code, c),
        Stage::Closed => None,
    }
}

fn opening(c: char) -> Option<(Option<char>, Stage)>
    ensures { result ≡ spec.opening c }
{
    if c == '"' {
        Some((None, Stage::Open))
    } else {
        None
    }
}

fn open_step(c: char) -> (Option<char>, Stage)
    ensures { result ≡ spec.open_step c }
{
    match c {
        '"' => (None, Stage::Closed),
        '\\' => (None, Stage::Escape),
        _ => (Some(c), Stage::Open),
    }
}

fn escape_step(c: char) -> Option<(Option<char>, Stage)>
    ensures { result ≡ spec.escape_step c }
{
    match c {
        '\\' => Some((Some('\\'), Stage::Open)),
        '"' => Some((Some('"'), Stage::Open)),
        't' => Some((Some('\t'), Stage::Open)),
        'n' => Some((Some('\n'), Stage::Open)),
        'r' => Some((Some('\r'), Stage::Open)),
        'x' => Some((None, Stage::Code { left: 2, code: 0 })),
        'u' => Some((None, Stage::Code { left: 4, code: 0 })),
        'U' => Some((None, Stage::Code { left: 8, code: 0 })),
        _ => None,
    }
}

fn code_step(left: u8, code: u32, c: char) -> Option<(Option<char>, Stage)>
    ensures { result ≡ spec.code_step left code c }
{
    let code = longer(code, digit(c)?)?;
    if 1 < left {
        let left = left - 1;
        return Some((None, Stage::Code { left, code }));
    }
    match char::from_u32(code) {
        Some(character) => Some((Some(character), Stage::Open)),
        None => None,
    }
}

/// The code with one more digit, where it doesn't pass the greatest character.
fn longer(code: u32, digit: u32) -> Option<u32>
    ensures { result ≡ spec.longer code digit }
{
    let code = 16 * code as u64 + digit as u64;
    if code <= 0x10FFFF {
        Some(code as u32)
    } else {
        None
    }
}

/// The value of a hexadecimal digit in lower case.
fn digit(c: char) -> Option<u32>
    ensures exact { result ≡ spec.digit c }
    ensures within { IfSome result (λ d. d ≤ 15) }
{
    match c {
        '0'..='9' => Some(c as u32 - 48),
        'a'..='f' => Some(c as u32 - 87),
        _ => None,
    }
}
