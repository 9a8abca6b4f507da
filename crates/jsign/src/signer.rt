//! HMAC under a key whose blocks are hashed once (RFC 2104, section 4).
ghost use Rattle.std.specs.Prelude.{◌≡◌, ◌++◌, ◌↔◌, ℕ, List, IsTrue};
ghost use Rattle.jsign.specs.Hmac as hmac;

use crate::key_block::{INNER, OUTER, block_key, pad_block};
use sha2::{Digest, Sha256};

/// Signs four frames under one key. The key's two blocks are hashed when it is made, and not again
/// for each signature.
#[derive(Drop)]
pub struct Signer {
    inner: Sha256,
    outer: Sha256,
}

impl Signer {
    ghost use Rattle.jsign.specs.Signer.{SignsUnder};

    /// Signs under the key. Takes no memory.
    pub fn new(key: &[u8]) -> Signer
        ensures { SignsUnder result key.now }
    {
        let block = block_key(key);
        let mut inner = Sha256::new();
        inner.update(pad_block(&block, INNER));
        let mut outer = Sha256::new();
        outer.update(pad_block(&block, OUTER));
        Signer { inner, outer }
    }

    /// The signature of four frames: HMAC-SHA256 of the frames one after another, as 64 lower-case
    /// hexadecimal digits. Takes no memory.
    #[tactic(auto, unfolding(crate::specs::Hmac::signature))]
    pub fn sign(&self, header: &[u8], parent: &[u8], metadata: &[u8], content: &[u8]) -> [u8; 64]
        ensures { (key : List ℕ) → SignsUnder self.now key →
            result ≡ hmac.signature key header.now parent.now metadata.now content.now }
    {
        let code = self.code(header, parent, metadata, content);
        let mut text = [0u8; 64];
        let _ = hex::encode_to_slice(code, &mut text);
        text
    }

    /// Whether the given bytes are the signature of the four frames. Takes no memory.
    pub fn check(
        &self,
        header: &[u8],
        parent: &[u8],
        metadata: &[u8],
        content: &[u8],
        signature: &[u8],
    ) -> bool
        ensures { (key : List ℕ) → SignsUnder self.now key → (IsTrue result ↔ (signature.now ≡
            hmac.signature key header.now parent.now metadata.now content.now)) }
    {
        let right = self.sign(header, parent, metadata, content);
        signature == right.as_slice()
    }

    /// The frames go through the hasher one by one and are never joined.
    #[tactic(auto, unfolding(crate::specs::Hmac::hmac), using(std::proofs::lemmas::Grind::common_steps))]
    fn code(&self, header: &[u8], parent: &[u8], metadata: &[u8], content: &[u8]) -> [u8; 32]
        ensures { (key : List ℕ) → SignsUnder self.now key →
            result ≡ hmac.hmac key (header.now ++ parent.now ++ metadata.now ++ content.now) }
    {
        let mut inner = self.inner.clone().unwrap();
        inner.update(header);
        inner.update(parent);
        inner.update(metadata);
        inner.update(content);
        let mut outer = self.outer.clone().unwrap();
        outer.update(inner.finalize());
        outer.finalize()
    }
}
