//! String literals of Python (The Python Language Reference, 2.4.1).
ghost use Rattle.std.specs.Prelude.{◌≡◌, ◌++◌, ◌∷◌, [], ◌<◌, ◌^◌, ◌||◌, ◌&&◌, OnOk, string_bytes, flat_map, nat_le};
ghost use Rattle.std.specs.Char.{digit_char};
ghost use Rattle.std.specs.Str.{chars};
ghost use Rattle.nb_params.specs.Python.{literal, literal_char, two_digits, four_digits};
ghost use Rattle.nb_params.specs.Escape.{escape};

use jtext::NoMemory;

/// Appends the string literal of the text, in ASCII.
pub(crate) fn put_literal(out: &mut String, text: &str) -> Result<(), NoMemory>
    ensures { OnOk result (string_bytes out.new ≡ string_bytes out.old ++ literal text.now) }
{
    out.push_str("\"")?;
    for c in text.chars() {
        put_char(out, c)?;
    }
    out.push_str("\"")?;
    Ok(())
}

/// Appends what stands in a literal for the character.
fn put_char(out: &mut String, c: char) -> Result<(), NoMemory>
    ensures { OnOk result (string_bytes out.new ≡ string_bytes out.old ++ literal_char c) }
{
    match c {
        '\\' => out.push_str("\\\\")?,
        '"' => out.push_str("\\\"")?,
        '\t' => out.push_str("\\t")?,
        '\n' => out.push_str("\\n")?,
        '\r' => out.push_str("\\r")?,
        ' '..='~' => out.push(c)?,
        _ => put_escape(out, c as u32)?,
    }
    Ok(())
}

/// Appends the escape by number: two digits up to U+00FF, four up to U+FFFF, and else eight.
fn put_escape(out: &mut String, code: u32) -> Result<(), NoMemory>
    ensures { OnOk result (string_bytes out.new ≡ string_bytes out.old ++ escape code) }
{
    if code <= 0xff {
        out.push_str("\\x")?;
        put_two(out, code)?;
    } else if code <= 0xffff {
        out.push_str("\\u")?;
        put_four(out, code)?;
    } else {
        out.push_str("\\U")?;
        put_four(out, code / 0x10000)?;
        put_four(out, code)?;
    }
    Ok(())
}

fn put_four(out: &mut String, code: u32) -> Result<(), NoMemory>
    ensures { OnOk result (string_bytes out.new ≡ string_bytes out.old ++ four_digits code) }
{
    put_two(out, code / 0x100)?;
    put_two(out, code)?;
    Ok(())
}

fn put_two(out: &mut String, code: u32) -> Result<(), NoMemory>
    ensures { OnOk result (string_bytes out.new ≡ string_bytes out.old ++ two_digits code) }
{
    out.push(digit(code / 16 % 16))?;
    out.push(digit(code % 16))?;
    Ok(())
}

/// A hexadecimal digit in lower case.
fn digit(value: u32) -> char
    requires { value < 16 }
    ensures { result ≡ digit_char value }
{
    match char::from_digit(value, 16) {
        Some(digit) => digit,
        None => '0',
    }
}
