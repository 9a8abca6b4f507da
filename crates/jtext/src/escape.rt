//! Strings as both writers write them (RFC 8259, section 7).
ghost use Rattle.std.specs.Prelude.{◌≡◌, ◌++◌, ◌<◌, OnOk, flat_map};
ghost use Rattle.std.specs.Char.{digit_char};
ghost use Rattle.jtext.specs.Print.{quote, escape_byte, escape_letter};

use crate::plain::plain_len;
use crate::{Bytes, NoMemory};

/// Appends `s` between quotes. Only what has to be escaped is, and runs of the rest are copied.
pub fn put_string(out: &mut Bytes, s: &str) -> Result<(), NoMemory>
    ensures { OnOk result (out.new ≡ out.old ++ quote s.now) }
{
    out.add(b"\"")?;
    write_letters(out, s.as_bytes())?;
    out.add(b"\"")
}

/// Appends what stands in a string for the bytes.
fn write_letters(out: &mut Bytes, bytes: &[u8]) -> Result<(), NoMemory>
    ensures { OnOk result (out.new ≡ out.old ++ flat_map escape_byte bytes.now) }
{
    let mut rest = bytes;
    'runs: loop {
        let (plain, after) = rest.split_at(plain_len(rest));
        out.add(plain)?;
        let Some((byte, more)) = after.split_first() else {
            return Ok(());
        };
        write_byte(out, *byte)?;
        rest = more;
    }
}

/// Appends what stands in a string for the byte.
#[tactic(auto, unfolding(crate::specs::Print::escape_byte))]
fn write_byte(out: &mut Bytes, byte: u8) -> Result<(), NoMemory>
    ensures { OnOk result (out.new ≡ out.old ++ escape_byte byte) }
{
    let letter = escape_letter(byte);
    if letter > 0 {
        out.add(&[b'\\', letter])
    } else if byte < b' ' {
        out.add(&[b'\\', b'u', b'0', b'0', digit(byte / 16), digit(byte % 16)])
    } else {
        out.add(&[byte])
    }
}

/// The letter after the backslash, or 0 where the byte has no short escape.
fn escape_letter(byte: u8) -> u8
    ensures { result ≡ escape_letter byte }
{
    match byte {
        b'"' | b'\\' => byte,
        8 => b'b',
        b'\t' => b't',
        b'\n' => b'n',
        12 => b'f',
        b'\r' => b'r',
        _ => 0,
    }
}

/// A hexadecimal digit in lower case.
fn digit(value: u8) -> u8
    requires { value < 16 }
    ensures { result ≡ digit_char value }
{
    if value < 10 {
        b'0' + value
    } else {
        b'a' + (value - 10)
    }
}
