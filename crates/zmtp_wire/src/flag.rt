//! Flag octets and sizes. Of a flag octet bit 0 is MORE, bit 1 LONG and bit 2 COMMAND; a size is
//! one octet, or with LONG eight in network order. Read more loosely than the standard: LONG may
//! stand before a small size.
ghost use Rattle.std.specs.Prelude.{◌≡◌, ◌<◌, length};
ghost use Rattle.zmtp_wire.specs.Frame.{is_allowed, is_command, is_more, is_long, size_len};
ghost use Rattle.zmtp_wire.specs.Frame.{size_of};

/// Whether the standard has such a flag octet.
pub fn is_allowed(flag: u8) -> bool
    ensures { result ≡ is_allowed flag }
{
    flag < 5 || flag == 6
}

/// Whether the unit is a command.
pub fn is_command(flag: u8) -> bool
    ensures { result ≡ is_command flag }
{
    flag == 4 || flag == 6
}

/// Whether more frames of the message follow.
pub fn is_more(flag: u8) -> bool
    ensures { result ≡ is_more flag }
{
    flag == 1 || flag == 3
}

/// How many octets of size follow a flag.
pub fn size_len(flag: u8) -> usize
    ensures { result ≡ size_len flag }
{
    if is_long(flag) { 8 } else { 1 }
}

/// The size that the octets spell.
pub fn size_of(octets: &[u8]) -> u64
    requires { 0 < length octets.now }
    ensures { result ≡ size_of octets.now }
{
    match octets {
        [a, b, c, d, e, f, g, h] => u64::from_be_bytes([*a, *b, *c, *d, *e, *f, *g, *h]),
        _ => u64::from(octets[0]),
    }
}

/// Whether the size has eight octets.
fn is_long(flag: u8) -> bool
    ensures { result ≡ is_long flag }
{
    flag == 2 || flag == 3 || flag == 6
}
