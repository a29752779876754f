// Certificates of Ed25519 keys.
use descriptor_frame::{EdCert, is_certificate};
use dir_bytes::read_base64;
use std::alloc::{AllocError, Global};
use std::test::Fail;

// A certificate from outside, and the key that signed it.
const CERTIFICATE: &[u8] = b"AQQACSfAAQNpCqtAEPAfS6YozW/WWlNB2xdz8Uo36WkcBDcQV7j9AQAgBACRnaCh\
dS6KybKlB+DU5dYA6AIZma45GHoiGl/I3dVLsA2Kx5+lUQ05m5D35m965BFjzxzt\
cL3GzmwVsgDbCer9DYrHn6VRDTmbkPfmb3rkEWPPHO1wvcbObBWyANsJ6v0";

const SIGNER: &[u8] = b"kZ2goXUuismypQfg1OXWAOgCGZmuORh6IhpfyN3VS7A";

#[test]
fn a_certificate_from_outside_is_read(rt: HostRuntime) -> Result<(), Fail> {
    let mut bytes = [0u8; 140];
    read_base64(CERTIFICATE, &mut bytes)?;
    let mut signer = [0u8; 32];
    read_base64(SIGNER, &mut signer)?;
    let cert = EdCert::read(rt.alloc(), &bytes)?;
    if cert.expires_hours != 600_000 || cert.key_kind != 1 || cert.signer != signer {
        return Err(Fail::new("another certificate"));
    }
    if cert.covered.as_bytes() != &bytes[..76] || cert.signature.as_slice() != &bytes[76..] {
        return Err(Fail::new("another signature"));
    }
    Ok(())
}

// An extension: its type, its flags, of which the lowest bit says that it must be understood, and how many bytes it has.
type Extension = (u8, u8, u8);

// The extensions of a certificate, how many bytes stand behind them, and whether it is read.
const CERTIFICATES: [(&[Extension], u8, bool); 12] = [
    (&[(4, 0, 32)], 0, true),
    (&[(4, 1, 32)], 0, true),
    (&[(5, 0, 3), (4, 0, 32)], 0, true),
    (&[(4, 0, 32), (5, 2, 0)], 0, true),
    (&[(4, 0, 32), (5, 1, 3)], 0, false),
    (&[(5, 1, 0), (4, 0, 32)], 0, false),
    (&[(5, 3, 32), (4, 1, 32)], 0, false),
    (&[(5, 0, 32)], 0, false),
    (&[], 0, false),
    (&[(4, 0, 31)], 0, false),
    (&[(4, 0, 32), (4, 0, 32)], 0, false),
    (&[(4, 0, 32)], 1, false),
];

// A certificate of the hours 490895 with these extensions, and so many bytes behind them.
fn certificate(alloc: Global, extensions: &[Extension], more: u8) -> Result<Vec<u8>, AllocError> {
    let mut bytes = Vec::new(alloc);
    bytes.extend_from_slice(&[1, 4, 0, 7, 125, 143, 1])?;
    bytes.extend_from_slice(&[3; 32])?;
    bytes.push(extensions.len().min(255) as u8)?;
    for (kind, flags, length) in extensions {
        bytes.extend_from_slice(&[0, *length, *kind, *flags])?;
        bytes.resize(bytes.len() + usize::from(*length), 5)?;
    }
    bytes.resize(bytes.len() + usize::from(more), 9)?;
    bytes.extend_from_slice(&[7; 64])?;
    Ok(bytes)
}

#[test]
fn a_certificate_names_one_signer_and_all_that_must_be_understood_is(
    rt: HostRuntime,
) -> Result<(), Fail> {
    let mut row = 0u32;
    for (extensions, more, is_read) in CERTIFICATES {
        row = row.wrapping_add(1);
        let bytes = certificate(rt.alloc(), extensions, more)?;
        let signer = EdCert::read(rt.alloc(), &bytes)
            .ok()
            .map(|cert| cert.signer);
        if is_certificate(&bytes) != is_read || signer != is_read.then_some([5; 32]) {
            return Err(Fail::new(row));
        }
    }
    Ok(())
}
