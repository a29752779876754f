// What a descriptor says of its relay and its keys.
use crate::descriptors::{SIGNED, descriptor_of};
use bytes::Bytes;
use descriptor_doc::Descriptor;
use dir_bytes::{BadField, read_base64, read_hex};
use std::alloc::Global;
use std::test::Fail;

/// What is said, in plain values.
#[derive(Clone, Copy, PartialEq, Eq)]
struct Said {
    identity: [u8; 20],
    fingerprint: Option<[u8; 20]>,
    digest: [u8; 20],
    covered: Option<[u8; 32]>,
    master_key: Option<[u8; 32]>,
    signer: Option<[u8; 32]>,
}

fn said_by(read: &Descriptor) -> Said {
    Said {
        identity: read.identity.0,
        fingerprint: match read.fingerprint {
            Some(fingerprint) => Some(fingerprint.0),
            None => None,
        },
        digest: read.digest.0,
        covered: match &read.router_sig_ed25519 {
            Some(signature) => Some(signature.covered.0),
            None => None,
        },
        master_key: read.master_key_ed25519,
        signer: match &read.identity_ed25519 {
            Some(certificate) => Some(certificate.signer),
            None => None,
        },
    }
}

// What the descriptor says that this text begins with, behind a blank line and before other bytes.
fn read_followed(alloc: Global, text: &[u8]) -> Result<Said, Fail> {
    let mut bytes = Vec::from_slice(alloc, b"\n")?;
    bytes.extend_from_slice(text)?;
    bytes.extend_from_slice(b"router\nno line")?;
    let descriptor = descriptor_of(alloc, &Bytes::from_vec(bytes)?)?;
    Ok(said_by(&descriptor))
}

// The bytes with this hex.
fn bytes_of<const N: usize>(hex: &[u8]) -> Result<[u8; N], BadField> {
    let mut bytes = [0; N];
    read_hex(hex, &mut bytes)?;
    Ok(bytes)
}

#[test]
fn a_descriptor_has_its_digests_and_keys(rt: HostRuntime) -> Result<(), Fail> {
    let identity = bytes_of(b"438BF08F85C084DE978824AE225C6DD09DB3BF03")?;
    let mut signer = [0; 32];
    read_base64(b"kZ2goXUuismypQfg1OXWAOgCGZmuORh6IhpfyN3VS7A", &mut signer)?;
    let want = Said {
        identity,
        fingerprint: Some(identity),
        digest: bytes_of(b"689fa9e979e8e9bb4b6b580c63261f2f4a5597dd")?,
        covered: Some(bytes_of(
            b"012da0110c02f08ee07da6ece73420959c6ed51c1fe7254fe6d835939971fa50",
        )?),
        master_key: Some(signer),
        signer: Some(signer),
    };
    if read_followed(rt.alloc(), SIGNED)? != want {
        return Err(Fail::new("another descriptor"));
    }
    Ok(())
}
