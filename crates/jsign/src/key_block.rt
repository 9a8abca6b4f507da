//! The block of a key (RFC 2104, section 2).
ghost use Rattle.std.specs.Prelude.{◌≡◌, ℕ, List, ◌≤◌, ◌++◌, ◌-◌, EachIndex, slice_index, drop};
ghost use Rattle.std.specs.Prelude.{replicate, length, bit_xor};
ghost use Rattle.jsign.specs.Hmac as hmac;

use sha2::{Digest, Sha256};

/// What the key's block is combined with for the inner hash.
pub(crate) const INNER: u8 = 0x36;

/// What the key's block is combined with for the outer hash.
pub(crate) const OUTER: u8 = 0x5c;

/// The block combined with a pad octet.
#[tactic(auto, unfolding(crate::specs::Hmac::pad_block))]
pub(crate) fn pad_block(block: &[u8; 64], pad: u8) -> [u8; 64]
    ensures { (key : List ℕ) → block.now ≡ hmac.block_key key → result ≡ hmac.pad_block pad key }
{
    let mut padded = *block;
    combine(&mut padded, pad);
    padded
}

/// The key filled up to a block; its hash where it is longer.
#[tactic(auto, unfolding(crate::specs::Hmac::block_key))]
pub(crate) fn block_key(key: &[u8]) -> [u8; 64]
    ensures { result ≡ hmac.block_key key.now }
{
    if key.len() > 64 {
        fill_block(&Sha256::digest(key))
    } else {
        fill_block(key)
    }
}

/// The bytes, filled up with zeros.
fn fill_block(bytes: &[u8]) -> [u8; 64]
    requires { length bytes.now ≤ 64 }
    ensures { result ≡ bytes.now ++ replicate (64 - length bytes.now) 0 }
{
    let mut block = [0u8; 64];
    put_front(&mut block, bytes);
    block
}

fn put_front(block: &mut [u8; 64], bytes: &[u8])
    requires { length bytes.now ≤ 64 }
    ensures { block.new ≡ bytes.now ++ drop (length bytes.now) block.old }
{
    block[..bytes.len()].copy_from_slice(bytes);
}

fn combine(block: &mut [u8], pad: u8)
    ensures { EachIndex block.new (λ k.
        slice_index block.new k ≡ bit_xor (slice_index block.old k) pad) }
{
    for byte in block.iter_mut() {
        *byte ^= pad;
    }
}
