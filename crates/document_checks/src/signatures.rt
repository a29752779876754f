// What signatures of a consensus are over, and their order behind its text.
use consensus_terms::SignatureLine;
use consensus_text::{digests, write_signed};
use dir_bytes::{Text, read_hex};
use dir_values::{Digest1, Fingerprint};
use std::alloc::Global;
use std::test::Fail;

// The digests of `network-status-version 3`, NL, `directory-signature` and a space, by another program.
const SHA1: &[u8] = b"2a96a25dd3296bea511db09fb6ac6235ee856782";

const SHA256: &[u8] = b"ddc68cd685b7feb6bb67d7b7dea776eae3601f90258d5f734286402f79ecd787";

#[test]
fn digests_are_over_the_text_and_the_word_behind_it() -> Result<(), Fail> {
    let given = digests(b"network-status-version 3\n");
    let (mut sha1, mut sha256) = ([0; 20], [0; 32]);
    read_hex(SHA1, &mut sha1)?;
    read_hex(SHA256, &mut sha256)?;
    if given.sha1.0 != sha1 || given.sha256.0 != sha256 {
        return Err(Fail::new("other digests"));
    }
    Ok(())
}

fn signature(alloc: Global, algorithm: &[u8], identity: u8) -> Result<SignatureLine, Fail> {
    Ok(SignatureLine {
        algorithm: Text::copy_of(alloc, algorithm)?,
        identity: Fingerprint([identity; 20]),
        key_digest: Digest1([0xAB; 20]),
        signature: Text::copy_of(alloc, b"signature")?,
    })
}

const SIGNED: &[u8] = b"text
directory-signature 0101010101010101010101010101010101010101 ABABABABABABABABABABABABABABABABABABABAB
-----BEGIN SIGNATURE-----
c2lnbmF0dXJl
-----END SIGNATURE-----
directory-signature sha256 0202020202020202020202020202020202020202 ABABABABABABABABABABABABABABABABABABABAB
-----BEGIN SIGNATURE-----
c2lnbmF0dXJl
-----END SIGNATURE-----
directory-signature 0202020202020202020202020202020202020202 ABABABABABABABABABABABABABABABABABABABAB
-----BEGIN SIGNATURE-----
c2lnbmF0dXJl
-----END SIGNATURE-----
";

// The algorithm and the identity of each signature, in the order in which they are given.
const LINES: [(&[u8], u8); 3] = [(b"sha256", 2), (b"sha1", 2), (b"sha1", 1)];

#[test]
fn signatures_ascend_by_identity(rt: HostRuntime) -> Result<(), Fail> {
    let alloc = rt.alloc();
    let mut lines = Vec::new(alloc);
    for (algorithm, identity) in LINES {
        lines.push(signature(alloc, algorithm, identity)?)?;
    }
    if write_signed(alloc, b"text\n", &lines)?.as_slice() != SIGNED {
        return Err(Fail::new("another text"));
    }
    Ok(())
}
