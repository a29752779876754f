// Microdescriptors that are made of descriptors.
use crate::descriptors::{PLAIN, descriptor_of};
use bytes::Bytes;
use dir_bytes::read_hex;
use exit_summary::summary;
use micro_desc::{digest, make, write};
use std::alloc::Global;
use std::test::Fail;

// The microdescriptor of the one without Ed25519 items.
const MADE: &[u8] = b"onion-key\n\
family $86F7E437FAA5A7FCE15D1DDCB9EAEAEA377667B8 alpha beta\n\
p accept 80\n\
id rsa1024 hvfkN/qlp/zhXR3cuerq6jd2Z7g\n\
";

// The SHA-256 of that text, by another program.
const DIGEST: &[u8] = b"1d98c1d7b2a8de0032ece146e1e681a1381a520e4fe9c85b8b6756a92d0d0307";

#[test]
fn a_digest_is_over_the_whole_text() -> Result<(), Fail> {
    let mut right = [0; 32];
    read_hex(DIGEST, &mut right)?;
    if digest(MADE).0 != right {
        return Err(Fail::new("another digest"));
    }
    Ok(())
}

// One with an Ed25519 certificate, which accepts no port of IPv4, with ports of IPv6.
const SIGNED: &[u8] = b"router relay1 198.51.100.7 9001 0 0\n\
identity-ed25519\n\
-----BEGIN ED25519 CERT-----\n\
AQQACSfAAQNpCqtAEPAfS6YozW/WWlNB2xdz8Uo36WkcBDcQV7j9AQAgBACRnaCh\n\
dS6KybKlB+DU5dYA6AIZma45GHoiGl/I3dVLsA2Kx5+lUQ05m5D35m965BFjzxzt\n\
cL3GzmwVsgDbCer9DYrHn6VRDTmbkPfmb3rkEWPPHO1wvcbObBWyANsJ6v0=\n\
-----END ED25519 CERT-----\n\
master-key-ed25519 kZ2goXUuismypQfg1OXWAOgCGZmuORh6IhpfyN3VS7A\n\
published 2025-12-31 22:00:00\n\
bandwidth 1000000 2000000 900000\n\
signing-key\n\
-----BEGIN RSA PUBLIC KEY-----\n\
cmVsYXktc2lnbg==\n\
-----END RSA PUBLIC KEY-----\n\
ipv6-policy reject 25,80-90\n\
family $nobody\n\
reject *:*\n\
router-sig-ed25519 /ijXkQQWlB8F6VaLN8YSIvShT5yiX9oDJ7ihsOf6PBH+KNeRBBaUHwXpVos3xhIi9KFPnKJf2gMnuKGw5/o8EQ\n\
router-signature\n\
-----BEGIN SIGNATURE-----\n\
vP+fl+WyyVUPS1aGJZeOu5OmVN0RKkz4em7UEiwI3aY=\n\
-----END SIGNATURE-----\n\
";

// Its microdescriptor.
const NAMED: &[u8] = b"onion-key\n\
family $438BF08F85C084DE978824AE225C6DD09DB3BF03\n\
p6 reject 25,80-90\n\
id ed25519 kZ2goXUuismypQfg1OXWAOgCGZmuORh6IhpfyN3VS7A\n\
";

// The text of the microdescriptor of a relay with this server descriptor.
fn made(alloc: Global, text: &'static [u8]) -> Result<Vec<u8>, Fail> {
    let descriptor = descriptor_of(alloc, &Bytes::from(text))?;
    let ports = summary(alloc, descriptor.policy.items())?;
    let micro = make(alloc, &descriptor, &ports)?;
    Ok(write(alloc, &micro)?)
}

#[test]
fn a_microdescriptor_is_made_of_a_descriptor(rt: HostRuntime) -> Result<(), Fail> {
    for (descriptor, micro) in [(PLAIN, MADE), (SIGNED, NAMED)] {
        if made(rt.alloc(), descriptor)?.as_slice() != micro {
            return Err(Fail::new("another text"));
        }
    }
    Ok(())
}
