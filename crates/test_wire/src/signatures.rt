//! Signatures by RFC 4231 and by Python's `hmac`, and the last ones seen.

use jsign::{Seen, Signer, check, sign};
use std::process::Abort;
use std::test::Fail;

/// A key, four frames, and the signature that they have.
type Case<'a> = (&'a [u8], [&'a [u8]; 4], &'a [u8]);

fn signs_as(case: &Case) -> bool {
    let (key, frames, expected) = case;
    let [header, parent, metadata, content] = frames;
    let signature = sign(key, header, parent, metadata, content);
    signature.as_slice() == *expected && check(key, header, parent, metadata, content, expected)
}

/// The same by one signer, twice.
fn signer_signs_as(case: &Case) -> bool {
    let (key, frames, expected) = case;
    let [header, parent, metadata, content] = frames;
    let signer = Signer::new(key);
    let signature = signer.sign(header, parent, metadata, content);
    signature.as_slice() == *expected && signer.check(header, parent, metadata, content, expected)
}

/// RFC 4231, sections 4.2 to 4.8 without the truncated one, each message cut into four frames.
#[test]
fn signs_the_cases_of_rfc_4231(rt: HostRuntime) -> Result<(), Fail> {
    let cases: [Case; 6] = [
        (
            &[0x0b; 20],
            [b"Hi", b" ", b"The", b"re"],
            b"b0344c61d8db38535ca8afceaf0bf12b881dc200c9833da726e9376c2e32cff7",
        ),
        (
            b"Jefe",
            [b"what do ya ", b"want ", b"for ", b"nothing?"],
            b"5bdcc146bf60754e6a042426089575c75a003f089d2739839dec58b964ec3843",
        ),
        (
            &[0xaa; 20],
            [&[0xdd; 50], b"", b"", b""],
            b"773ea91e36800e46854db8ebd09181a72959098b3ef8c122d9635514ced565fe",
        ),
        (
            b"\x01\x02\x03\x04\x05\x06\x07\x08\x09\x0a\x0b\x0c\x0d\x0e\x0f\x10\x11\x12\x13\x14\x15\x16\x17\x18\x19",
            [&[0xcd; 20], &[0xcd; 20], &[0xcd; 10], b""],
            b"82558a389a443c0ea4cc819899f2083a85f0faa3e578f8077a2e3ff46729665b",
        ),
        (
            &[0xaa; 131],
            [
                b"Test Using Larger Than Block-Size Key",
                b" - ",
                b"Hash Key ",
                b"First",
            ],
            b"60e431591ee0b67f0d8a26aacbf5b77f8e0bc6213728c5140546040f0ee37f54",
        ),
        (
            &[0xaa; 131],
            [
                b"This is a test using a larger than block-size key",
                b" and a larger than block-size data. The key needs",
                b" to be hashed before being used by the",
                b" HMAC algorithm.",
            ],
            b"9b09ffa71b942fcb27635fbcd5b0e944bfdc63644f0713938a7f51535c3a35e2",
        ),
    ];
    for case in &cases {
        let (_, _, expected) = case;
        assert!(rt; signs_as(case) && signer_signs_as(case), "{expected:?}");
    }
    Ok(())
}

/// At 64 octets the key fills the block as it is, at 65 its hash does (Python's `hmac`).
#[test]
fn hashes_keys_longer_than_a_block(rt: HostRuntime) -> Result<(), Fail> {
    let cases: [Case; 3] = [
        (
            &[b'k'; 64],
            [b"a", b"b", b"c", b"d"],
            b"9fa0d50155943f93385a0c48384919d5dbfba1b7f862da00f0f482fcc41f0355",
        ),
        (
            &[b'k'; 65],
            [b"a", b"b", b"c", b"d"],
            b"de80a4f8e05a47556355e307ee8287d9c892c14676accece44b8685578bcda87",
        ),
        (
            b"",
            [b"", b"", b"", b""],
            b"b613679a0814d9ec772f95d778c35fc5ff1697c493715653c6c712144292c5ad",
        ),
    ];
    for case in &cases {
        let (_, _, expected) = case;
        assert!(rt; signs_as(case) && signer_signs_as(case), "{expected:?}");
    }
    Ok(())
}

#[test]
fn refuses_what_differs_from_the_signature(rt: HostRuntime) -> Result<(), Fail> {
    let right = b"5bdcc146bf60754e6a042426089575c75a003f089d2739839dec58b964ec3843";
    let cases: [(&[u8], bool); 5] = [
        (right, true),
        (
            b"5bdcc146bf60754e6a042426089575c75a003f089d2739839dec58b964ec3844",
            false,
        ),
        (
            b"5BDCC146BF60754E6A042426089575C75A003F089D2739839DEC58B964EC3843",
            false,
        ),
        (
            b"5bdcc146bf60754e6a042426089575c75a003f089d2739839dec58b964ec384",
            false,
        ),
        (b"", false),
    ];
    for (given, answer) in &cases {
        let checked = check(
            b"Jefe",
            b"what do ya ",
            b"want ",
            b"for ",
            b"nothing?",
            given,
        );
        assert_eq!(rt; checked, *answer, "{given:?}");
    }
    assert!(rt;
        !check(
            b"Jefe",
            b"want ",
            b"what do ya ",
            b"for ",
            b"nothing?",
            right
        )
    );
    Ok(())
}

/// The signature that stands for a number.
fn numbered(number: u32) -> [u8; 64] {
    let mut sig = [b'0'; 64];
    let [a, b, c, d] = number.to_be_bytes();
    sig[0] = a;
    sig[1] = b;
    sig[2] = c;
    sig[3] = d;
    sig
}

fn see_as_many_as_are_kept(rt: &impl Abort, seen: &mut Seen) -> Result<(), Fail> {
    assert!(rt; seen.fresh(&numbered(0))?);
    for number in 1..65_536 {
        assert!(rt; seen.fresh(&numbered(number))?, "{number}");
    }
    Ok(())
}

fn see_one_more(rt: &impl Abort, seen: &mut Seen) -> Result<(), Fail> {
    see_as_many_as_are_kept(rt, seen)?;
    assert!(rt; !seen.fresh(&numbered(0))?);
    assert!(rt; !seen.fresh(&numbered(65_535))?);
    assert!(rt; seen.fresh(&numbered(65_536))?);
    assert!(rt; seen.fresh(&numbered(0))?);
    assert!(rt; !seen.fresh(&numbered(2))?);
    Ok(())
}

#[test]
fn forgets_the_oldest_of_more_than_65536(rt: HostRuntime) -> Result<(), Fail> {
    let mut seen = Seen::new(rt.alloc())?;
    let end = see_one_more(&rt, &mut seen);
    drop(seen);
    end
}
