//! Runs of bytes that stand for themselves in a string, passed over 32 at a time.
ghost use Rattle.std.specs.Prelude.{◌≡◌, ◌≤◌, length, map};
ghost use Rattle.std.specs.List.{prefix_len};
ghost use Rattle.std.specs.Simd.Lanes.{mask_l};
ghost use Rattle.jtext.specs.Strings.{is_plain, is_stop};

use std::simd::prelude::*;

/// How many bytes at the front stand for themselves.
pub(crate) fn plain_len(bytes: &[u8]) -> usize
    ensures len { result ≡ prefix_len is_plain bytes.now }
    ensures within { result ≤ length bytes.now }
{
    let mut at = 0;
    while bytes.len() - at >= 32 {
        let stops = stops(u8x32::from_slice(&bytes[at..]));
        if stops != 0 {
            return at + stops.trailing_zeros() as usize;
        }
        at += 32;
    }
    at + few_plain(&bytes[at..])
}

/// The bytes that don't stand for themselves, as a mask whose lowest bit is of the first byte.
#[inline(always)]
fn stops(bytes: u8x32) -> u64
    ensures { result ≡ mask_l (map is_stop bytes) }
{
    let quotes = bytes.simd_eq(u8x32::splat(b'"'));
    let backslashes = bytes.simd_eq(u8x32::splat(b'\\'));
    let controls = bytes.simd_lt(u8x32::splat(b' '));
    (quotes | backslashes | controls).to_bitmask()
}

/// The same as `plain_len`, for a few bytes.
fn few_plain(bytes: &[u8]) -> usize
    ensures len { result ≡ prefix_len is_plain bytes.now }
    ensures within { result ≤ length bytes.now }
{
    bytes.iter().take_while(|byte| is_plain(**byte)).count()
}

fn is_plain(byte: u8) -> bool
    ensures { result ≡ is_plain byte }
{
    byte >= b' ' && byte != b'"' && byte != b'\\'
}
