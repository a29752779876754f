// Signatures of the test scheme, from outside.
use key_port::{KeyKind, SignAnswer, Signer, TestKeys, Verifier, VerifyAnswer};
use std::test::Fail;

// The SHA-1 of the identity key of a worked certificate.
const DIGEST: [u8; 20] = [
    0x2f, 0xd4, 0xe1, 0xc6, 0x7a, 0x2d, 0x28, 0xfc, 0xed, 0x84, 0x9e, 0xe1, 0xbb, 0x76, 0xe7, 0x39,
    0x1b, 0x93, 0xeb, 0x12,
];

// That certificate's crosscert, which is the signature of the signing key `sign-1`, twice.
const SIGNATURE: [u8; 64] = [
    0x5b, 0xb8, 0x35, 0xbe, 0x99, 0xc0, 0x7c, 0x59, 0x4f, 0xa2, 0xd7, 0x71, 0x82, 0x55, 0xa0, 0x27,
    0xd6, 0x5c, 0xb7, 0x24, 0x0c, 0xac, 0x1e, 0x31, 0x84, 0x78, 0x62, 0x65, 0x54, 0x6b, 0xa7, 0xf4,
    0x5b, 0xb8, 0x35, 0xbe, 0x99, 0xc0, 0x7c, 0x59, 0x4f, 0xa2, 0xd7, 0x71, 0x82, 0x55, 0xa0, 0x27,
    0xd6, 0x5c, 0xb7, 0x24, 0x0c, 0xac, 0x1e, 0x31, 0x84, 0x78, 0x62, 0x65, 0x54, 0x6b, 0xa7, 0xf4,
];

// The kind of key, the last byte of its name, how many bytes of the digest and of the signature are asked, and the answer. The
// second call fails.
const CALLS: [(KeyKind, u8, usize, usize, VerifyAnswer); 9] = [
    (KeyKind::Signing, b'1', 20, 32, VerifyAnswer::Yes),
    (KeyKind::Signing, b'1', 20, 32, VerifyAnswer::Fault),
    (KeyKind::Identity, b'1', 20, 32, VerifyAnswer::Yes),
    (KeyKind::Signing, b'2', 20, 32, VerifyAnswer::No),
    (KeyKind::Signing, b'1', 19, 32, VerifyAnswer::No),
    (KeyKind::Signing, b'1', 20, 31, VerifyAnswer::No),
    (KeyKind::Signing, b'1', 20, 64, VerifyAnswer::No),
    (KeyKind::Ed25519, b'1', 20, 64, VerifyAnswer::Yes),
    (KeyKind::Ed25519, b'1', 20, 32, VerifyAnswer::No),
];

// The first bytes.
fn front(bytes: &[u8], count: usize) -> &[u8] {
    &bytes[..count.min(bytes.len())]
}

#[test]
fn a_signature_is_that_of_its_key_message_and_kind(rt: HostRuntime) -> Result<(), Fail> {
    let mut keys = TestKeys::new([2].to_vec(rt.alloc())?);
    let mut row = 0u32;
    for (kind, last, digest, signature, want) in CALLS {
        let key = [b's', b'i', b'g', b'n', b'-', last];
        row = row.wrapping_add(1);
        let signature = front(&SIGNATURE, signature);
        if keys.verify(kind, &key, front(&DIGEST, digest), signature) != want {
            return Err(Fail::new(row));
        }
    }
    for (kind, size) in [(KeyKind::Signing, 32), (KeyKind::Ed25519, 64)] {
        let given = match keys.sign(rt.alloc(), kind, b"sign-1", &DIGEST) {
            SignAnswer::Signed(signature) => signature.as_bytes() == front(&SIGNATURE, size),
            SignAnswer::Fault | SignAnswer::Memory => false,
        };
        if !given {
            return Err(Fail::new("another signature"));
        }
    }
    Ok(())
}
