// Descriptors from outside.
ghost use Rattle.std.specs.Prelude.{IfOk};
ghost use Rattle.descriptor_doc.specs.Reading.{IsRead};

use bytes::Bytes;
use count_terms::Newest;
use descriptor_doc::{Descriptor, read_under};
use std::alloc::Global;
use std::test::Fail;

/// The descriptor that a text of these begins with.
pub(crate) fn descriptor_of(alloc: Global, text: &Bytes) -> Result<Descriptor, Fail>
    ensures { IfOk result (λ descriptor. IsRead descriptor) }
{
    if text.len() > 100_000 {
        return Err(Fail::new("a long text"));
    }
    let (descriptor, _) = read_under(alloc, Newest::Method35, text)?;
    Ok(descriptor)
}

/// One that holds by the test scheme, with Ed25519 items.
pub const SIGNED: &[u8] = b"router relay1 198.51.100.7 9001 0 0\n\
identity-ed25519\n\
-----BEGIN ED25519 CERT-----\n\
AQQACSfAAQNpCqtAEPAfS6YozW/WWlNB2xdz8Uo36WkcBDcQV7j9AQAgBACRnaCh\n\
dS6KybKlB+DU5dYA6AIZma45GHoiGl/I3dVLsA2Kx5+lUQ05m5D35m965BFjzxzt\n\
cL3GzmwVsgDbCer9DYrHn6VRDTmbkPfmb3rkEWPPHO1wvcbObBWyANsJ6v0=\n\
-----END ED25519 CERT-----\n\
master-key-ed25519 kZ2goXUuismypQfg1OXWAOgCGZmuORh6IhpfyN3VS7A\n\
platform Tor 0.4.8.12 on Linux\n\
published 2025-12-31 22:00:00\n\
fingerprint 438B F08F 85C0 84DE 9788 24AE 225C 6DD0 9DB3 BF03\n\
uptime 5\n\
bandwidth 1000000 2000000 900000\n\
signing-key\n\
-----BEGIN RSA PUBLIC KEY-----\n\
cmVsYXktc2lnbg==\n\
-----END RSA PUBLIC KEY-----\n\
reject *:*\n\
router-sig-ed25519 /ijXkQQWlB8F6VaLN8YSIvShT5yiX9oDJ7ihsOf6PBH+KNeRBBaUHwXpVos3xhIi9KFPnKJf2gMnuKGw5/o8EQ\n\
router-signature\n\
-----BEGIN SIGNATURE-----\n\
vP+fl+WyyVUPS1aGJZeOu5OmVN0RKkz4em7UEiwI3aY=\n\
-----END SIGNATURE-----\n\
";

/// One without Ed25519 items, whose signing key is the byte `a`. It holds by the test scheme.
pub const PLAIN: &[u8] = b"router relay1 198.51.100.7 9001 0 0\n\
published 2025-12-31 22:00:00\n\
bandwidth 1000000 2000000 900000\n\
signing-key\n\
-----BEGIN RSA PUBLIC KEY-----\n\
YQ==\n\
-----END RSA PUBLIC KEY-----\n\
family beta ALPHA\n\
accept *:80\n\
reject *:*\n\
router-signature\n\
-----BEGIN SIGNATURE-----\n\
pwN19z4/CmAMNLp5S1QZ45ZzBxpdsZX8c5v6DA/hk1o=\n\
-----END SIGNATURE-----\n\
";

/// The same key's descriptor with an Ed25519 certificate of 490894 hours, which ends as it is published; else it holds.
pub const EXPIRED: &[u8] = b"router relay1 198.51.100.7 9001 0 0\n\
identity-ed25519\n\
-----BEGIN ED25519 CERT-----\n\
AQQAB32OAT/v0Jjr2z3l7iDTQG7pXJ/GNA0nToBirmwl01b8gEb4AQAgBAAmPMG5\n\
wrVc4RuhvoVFYPAL+7YZ33T22MiA28BK5CUK9sDzz+4Umm5ksaOecszkysgfiKIe\n\
T+DAivoQ7629aPwKwPPP7hSabmSxo55yzOTKyB+Ioh5P4MCK+hDvrb1o/Ao=\n\
-----END ED25519 CERT-----\n\
published 2025-12-31 22:00:00\n\
bandwidth 1000000 2000000 900000\n\
signing-key\n\
-----BEGIN RSA PUBLIC KEY-----\n\
YQ==\n\
-----END RSA PUBLIC KEY-----\n\
router-sig-ed25519 7iAGWJvxG0alEA0Nz1P2eVt0saV//oWbEfHZauxZxDruIAZYm/EbRqUQDQ3PU/Z5W3SxpX/+hZsR8dlq7FnEOg\n\
router-signature\n\
-----BEGIN SIGNATURE-----\n\
SiG30YSS8Rni6gnBGlb5QfmNq1wy4WVZ8igmI1hxLF0=\n\
-----END SIGNATURE-----\n\
";

/// The same with a certificate of one hour more. It holds.
pub const LASTS: &[u8] = b"router relay1 198.51.100.7 9001 0 0\n\
identity-ed25519\n\
-----BEGIN ED25519 CERT-----\n\
AQQAB32PAT/v0Jjr2z3l7iDTQG7pXJ/GNA0nToBirmwl01b8gEb4AQAgBAAmPMG5\n\
wrVc4RuhvoVFYPAL+7YZ33T22MiA28BK5CUK9iioByv7bvsignYHEFLf8lSPv8i5\n\
zG5jSKqbYiTdu9vsKKgHK/tu+yKCdgcQUt/yVI+/yLnMbmNIqptiJN272+w=\n\
-----END ED25519 CERT-----\n\
published 2025-12-31 22:00:00\n\
bandwidth 1000000 2000000 900000\n\
signing-key\n\
-----BEGIN RSA PUBLIC KEY-----\n\
YQ==\n\
-----END RSA PUBLIC KEY-----\n\
router-sig-ed25519 Q5cM9uJx/GDQOTQKazTm01E4BCXJueIUEtDJiodghDlDlwz24nH8YNA5NAprNObTUTgEJcm54hQS0MmKh2CEOQ\n\
router-signature\n\
-----BEGIN SIGNATURE-----\n\
7Flc2Hyi7+QJgSJ4Ip+n/4dmM69lOFOb24Fiiyi3gWY=\n\
-----END SIGNATURE-----\n\
";

/// One that holds, with all Ed25519 items.
pub const WHOLE: &[u8] = b"router relay2 198.51.100.9 9001 0 0\n\
identity-ed25519\n\
-----BEGIN ED25519 CERT-----\n\
AQQAB334ASFUOXTonOgq5DIANPkOwMxlsZIEBGkTv3Zcv0EM3o/yAQAgBAA0OxbJ\n\
6i1+ksbAEGQefmztPV62IfPcBgVBnLdCdaIbmhqyHtl2aeeZ2DGR5TtYZUyoP5tm\n\
cXsTLht5fOo9efCoGrIe2XZp55nYMZHlO1hlTKg/m2ZxexMuG3l86j158Kg=\n\
-----END ED25519 CERT-----\n\
master-key-ed25519 NDsWyeotfpLGwBBkHn5s7T1etiHz3AYFQZy3QnWiG5o\n\
published 2025-12-31 22:00:00\n\
bandwidth 1000 2000 900\n\
signing-key\n\
-----BEGIN RSA PUBLIC KEY-----\n\
cmVsYXkyLWtleQ==\n\
-----END RSA PUBLIC KEY-----\n\
accept *:443\n\
reject *:*\n\
family gamma $AAAA BETA\n\
router-sig-ed25519 u++f79sE2nzVV52TrZ4VR/5y8QcNberhW9xtqFrq3iu775/v2wTafNVXnZOtnhVH/nLxBw1t6uFb3G2oWureKw\n\
router-signature\n\
-----BEGIN SIGNATURE-----\n\
0DR+tL4HSwsroR9vh77zM7YQVNP4IhbT6+WRwvjfP1U=\n\
-----END SIGNATURE-----\n\
";

/// `SIGNED` with another fingerprint.
pub const OTHER_FINGERPRINT: &[u8] = b"router relay1 198.51.100.7 9001 0 0\n\
identity-ed25519\n\
-----BEGIN ED25519 CERT-----\n\
AQQACSfAAQNpCqtAEPAfS6YozW/WWlNB2xdz8Uo36WkcBDcQV7j9AQAgBACRnaCh\n\
dS6KybKlB+DU5dYA6AIZma45GHoiGl/I3dVLsA2Kx5+lUQ05m5D35m965BFjzxzt\n\
cL3GzmwVsgDbCer9DYrHn6VRDTmbkPfmb3rkEWPPHO1wvcbObBWyANsJ6v0=\n\
-----END ED25519 CERT-----\n\
master-key-ed25519 kZ2goXUuismypQfg1OXWAOgCGZmuORh6IhpfyN3VS7A\n\
platform Tor 0.4.8.12 on Linux\n\
published 2025-12-31 22:00:00\n\
fingerprint A9A9 A9A9 A9A9 A9A9 A9A9 A9A9 A9A9 A9A9 A9A9 A9A9\n\
uptime 5\n\
bandwidth 1000000 2000000 900000\n\
signing-key\n\
-----BEGIN RSA PUBLIC KEY-----\n\
cmVsYXktc2lnbg==\n\
-----END RSA PUBLIC KEY-----\n\
reject *:*\n\
router-sig-ed25519 /ijXkQQWlB8F6VaLN8YSIvShT5yiX9oDJ7ihsOf6PBH+KNeRBBaUHwXpVos3xhIi9KFPnKJf2gMnuKGw5/o8EQ\n\
router-signature\n\
-----BEGIN SIGNATURE-----\n\
vP+fl+WyyVUPS1aGJZeOu5OmVN0RKkz4em7UEiwI3aY=\n\
-----END SIGNATURE-----\n\
";

/// `WHOLE` with another Ed25519 identity key.
pub const OTHER_MASTER_KEY: &[u8] = b"router relay2 198.51.100.9 9001 0 0\n\
identity-ed25519\n\
-----BEGIN ED25519 CERT-----\n\
AQQAB334ASFUOXTonOgq5DIANPkOwMxlsZIEBGkTv3Zcv0EM3o/yAQAgBAA0OxbJ\n\
6i1+ksbAEGQefmztPV62IfPcBgVBnLdCdaIbmhqyHtl2aeeZ2DGR5TtYZUyoP5tm\n\
cXsTLht5fOo9efCoGrIe2XZp55nYMZHlO1hlTKg/m2ZxexMuG3l86j158Kg=\n\
-----END ED25519 CERT-----\n\
master-key-ed25519 BwcHBwcHBwcHBwcHBwcHBwcHBwcHBwcHBwcHBwcHBwc\n\
published 2025-12-31 22:00:00\n\
bandwidth 1000 2000 900\n\
signing-key\n\
-----BEGIN RSA PUBLIC KEY-----\n\
cmVsYXkyLWtleQ==\n\
-----END RSA PUBLIC KEY-----\n\
accept *:443\n\
reject *:*\n\
family gamma $AAAA BETA\n\
router-sig-ed25519 u++f79sE2nzVV52TrZ4VR/5y8QcNberhW9xtqFrq3iu775/v2wTafNVXnZOtnhVH/nLxBw1t6uFb3G2oWureKw\n\
router-signature\n\
-----BEGIN SIGNATURE-----\n\
0DR+tL4HSwsroR9vh77zM7YQVNP4IhbT6+WRwvjfP1U=\n\
-----END SIGNATURE-----\n\
";

/// `WHOLE` without its Ed25519 signature.
pub const NO_ED_SIGNATURE: &[u8] = b"router relay2 198.51.100.9 9001 0 0\n\
identity-ed25519\n\
-----BEGIN ED25519 CERT-----\n\
AQQAB334ASFUOXTonOgq5DIANPkOwMxlsZIEBGkTv3Zcv0EM3o/yAQAgBAA0OxbJ\n\
6i1+ksbAEGQefmztPV62IfPcBgVBnLdCdaIbmhqyHtl2aeeZ2DGR5TtYZUyoP5tm\n\
cXsTLht5fOo9efCoGrIe2XZp55nYMZHlO1hlTKg/m2ZxexMuG3l86j158Kg=\n\
-----END ED25519 CERT-----\n\
master-key-ed25519 NDsWyeotfpLGwBBkHn5s7T1etiHz3AYFQZy3QnWiG5o\n\
published 2025-12-31 22:00:00\n\
bandwidth 1000 2000 900\n\
signing-key\n\
-----BEGIN RSA PUBLIC KEY-----\n\
cmVsYXkyLWtleQ==\n\
-----END RSA PUBLIC KEY-----\n\
accept *:443\n\
reject *:*\n\
family gamma $AAAA BETA\n\
router-signature\n\
-----BEGIN SIGNATURE-----\n\
0DR+tL4HSwsroR9vh77zM7YQVNP4IhbT6+WRwvjfP1U=\n\
-----END SIGNATURE-----\n\
";

/// `WHOLE` without its Ed25519 certificate and identity key.
pub const NO_CERTIFICATE: &[u8] = b"router relay2 198.51.100.9 9001 0 0\n\
published 2025-12-31 22:00:00\n\
bandwidth 1000 2000 900\n\
signing-key\n\
-----BEGIN RSA PUBLIC KEY-----\n\
cmVsYXkyLWtleQ==\n\
-----END RSA PUBLIC KEY-----\n\
accept *:443\n\
reject *:*\n\
family gamma $AAAA BETA\n\
router-sig-ed25519 u++f79sE2nzVV52TrZ4VR/5y8QcNberhW9xtqFrq3iu775/v2wTafNVXnZOtnhVH/nLxBw1t6uFb3G2oWureKw\n\
router-signature\n\
-----BEGIN SIGNATURE-----\n\
0DR+tL4HSwsroR9vh77zM7YQVNP4IhbT6+WRwvjfP1U=\n\
-----END SIGNATURE-----\n\
";

/// `SIGNED` with an empty signature.
pub const EMPTY: &[u8] = b"router relay1 198.51.100.7 9001 0 0\n\
identity-ed25519\n\
-----BEGIN ED25519 CERT-----\n\
AQQACSfAAQNpCqtAEPAfS6YozW/WWlNB2xdz8Uo36WkcBDcQV7j9AQAgBACRnaCh\n\
dS6KybKlB+DU5dYA6AIZma45GHoiGl/I3dVLsA2Kx5+lUQ05m5D35m965BFjzxzt\n\
cL3GzmwVsgDbCer9DYrHn6VRDTmbkPfmb3rkEWPPHO1wvcbObBWyANsJ6v0=\n\
-----END ED25519 CERT-----\n\
master-key-ed25519 kZ2goXUuismypQfg1OXWAOgCGZmuORh6IhpfyN3VS7A\n\
platform Tor 0.4.8.12 on Linux\n\
published 2025-12-31 22:00:00\n\
fingerprint 438B F08F 85C0 84DE 9788 24AE 225C 6DD0 9DB3 BF03\n\
uptime 5\n\
bandwidth 1000000 2000000 900000\n\
signing-key\n\
-----BEGIN RSA PUBLIC KEY-----\n\
cmVsYXktc2lnbg==\n\
-----END RSA PUBLIC KEY-----\n\
reject *:*\n\
router-sig-ed25519 /ijXkQQWlB8F6VaLN8YSIvShT5yiX9oDJ7ihsOf6PBH+KNeRBBaUHwXpVos3xhIi9KFPnKJf2gMnuKGw5/o8EQ\n\
router-signature\n\
-----BEGIN SIGNATURE-----\n\
-----END SIGNATURE-----\n\
";

/// `WHOLE` with another Ed25519 signature, signed by its signing key.
pub const OTHER_ED_SIGNATURE: &[u8] = b"router relay2 198.51.100.9 9001 0 0\n\
identity-ed25519\n\
-----BEGIN ED25519 CERT-----\n\
AQQAB334ASFUOXTonOgq5DIANPkOwMxlsZIEBGkTv3Zcv0EM3o/yAQAgBAA0OxbJ\n\
6i1+ksbAEGQefmztPV62IfPcBgVBnLdCdaIbmhqyHtl2aeeZ2DGR5TtYZUyoP5tm\n\
cXsTLht5fOo9efCoGrIe2XZp55nYMZHlO1hlTKg/m2ZxexMuG3l86j158Kg=\n\
-----END ED25519 CERT-----\n\
master-key-ed25519 NDsWyeotfpLGwBBkHn5s7T1etiHz3AYFQZy3QnWiG5o\n\
published 2025-12-31 22:00:00\n\
bandwidth 1000 2000 900\n\
signing-key\n\
-----BEGIN RSA PUBLIC KEY-----\n\
cmVsYXkyLWtleQ==\n\
-----END RSA PUBLIC KEY-----\n\
accept *:443\n\
reject *:*\n\
family gamma $AAAA BETA\n\
router-sig-ed25519 u++f79sE2nzVV52TrZ4VR/5y8QcNberhW9xtqFrq3iu775/v2wTafNVXnZOtnhVH/nLxBw1t6uFb3G2oWureKg\n\
router-signature\n\
-----BEGIN SIGNATURE-----\n\
2K9R71K1V13fEhtj8dVpyjZVLhUSkavJNVd5ogFfmv4=\n\
-----END SIGNATURE-----\n\
";
