//! HMAC with SHA-256 (RFC 2104) of four frames under a key.
ghost use Rattle.std.specs.Prelude.{◌≡◌, ◌↔◌, IsTrue};
ghost use Rattle.jsign.specs.Hmac as hmac;

use crate::Signer;

/// The signature of four frames under the key: HMAC-SHA256 of the frames one after another, as
/// 64 lower-case hexadecimal digits. Takes no memory.
pub fn sign(key: &[u8], header: &[u8], parent: &[u8], metadata: &[u8], content: &[u8]) -> [u8; 64]
    ensures { result ≡ hmac.signature key.now header.now parent.now metadata.now content.now }
{
    Signer::new(key).sign(header, parent, metadata, content)
}

/// Whether the given bytes are the signature of the four frames under the key. Takes no memory.
pub fn check(
    key: &[u8],
    header: &[u8],
    parent: &[u8],
    metadata: &[u8],
    content: &[u8],
    signature: &[u8],
) -> bool
    ensures { IsTrue result ↔ (signature.now ≡
        hmac.signature key.now header.now parent.now metadata.now content.now) }
{
    Signer::new(key).check(header, parent, metadata, content, signature)
}
