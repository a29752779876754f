// Votes of two authorities, with relays and without, signed under the test scheme.
use bytes::Bytes;
use dir_values::{Fingerprint, Roster};
use key_port::TestKeys;
use std::alloc::Global;
use std::test::Fail;
use vote_doc::{HeldVote, check_vote, read};

/// 2026-01-01 00:00:00
const PERIOD: u64 = 1767225600;

/// The two authorities.
const MEMBERS: [&[u8]; 2] = [
    b"2FD4E1C67A2D28FCED849EE1BB76E7391B93EB12",
    b"84983E441C3BD26EBAAE4AA1F95129E5E54670F1",
];

/// A vote, piece by piece.
pub type Pieces = &'static [&'static str];

/// The vote, checked.
pub(crate) fn checked(alloc: Global, vote: Pieces) -> Result<HeldVote, Fail> {
    let one = Fingerprint::read(MEMBERS[0])?;
    let two = Fingerprint::read(MEMBERS[1])?;
    let roster = Roster::new(vec![in alloc; one, two]?)?;
    let mut keys = TestKeys::new(Vec::new(alloc));
    let text = Bytes::from_string(vote.concat(alloc)?)?;
    if text.len() > 100_000 {
        return Err("the vote is long".into());
    }
    let (given, _) = read(alloc, &text)?;
    Ok(check_vote(given, &roster, PERIOD, &mut keys)?.into_held())
}

/// What stands before the contact in the first authority's vote.
const ONE: &str = "network-status-version 3
vote-status vote
consensus-methods 32
published 2025-12-31 23:50:00
valid-after 2026-01-01 00:00:00
fresh-until 2026-01-01 01:00:00
valid-until 2026-01-01 03:00:00
voting-delay 300 300
known-flags Running Valid
dir-source auth1 2FD4E1C67A2D28FCED849EE1BB76E7391B93EB12 auth1.example 192.0.2.1 80 443
contact ";

/// Its contact, and another.
const OPERATOR: &str = "operator 1";

const ANOTHER: &str = "another";

/// What stands between that and the entries.
const ONE_CERTIFICATE: &str = "
dir-key-certificate-version 3
fingerprint 2FD4E1C67A2D28FCED849EE1BB76E7391B93EB12
dir-identity-key
-----BEGIN RSA PUBLIC KEY-----
VGhlIHF1aWNrIGJyb3duIGZveCBqdW1wcyBvdmVyIHRoZSBsYXp5IGRvZw==
-----END RSA PUBLIC KEY-----
dir-key-published 2025-12-01 00:00:00
dir-key-expires 2026-12-01 00:00:00
dir-signing-key
-----BEGIN RSA PUBLIC KEY-----
c2lnbi0x
-----END RSA PUBLIC KEY-----
dir-key-crosscert
-----BEGIN ID SIGNATURE-----
W7g1vpnAfFlPotdxglWgJ9ZctyQMrB4xhHhiZVRrp/Q=
-----END ID SIGNATURE-----
dir-key-certification
-----BEGIN SIGNATURE-----
Zw20WLCU5zapzeLufxICg2CtoDETZ1JgmEU5tdnIBmA=
-----END SIGNATURE-----
";

/// What stands behind the entries, up to the signature.
const ONE_FOOTER: &str = "directory-footer
directory-signature 2FD4E1C67A2D28FCED849EE1BB76E7391B93EB12 6F72C48DADD6EFEB0DCB997E00F90619CA181EEC
-----BEGIN SIGNATURE-----
";

/// What stands before the entries in the vote of the second authority.
const TWO: &str = "network-status-version 3
vote-status vote
consensus-methods 32
published 2025-12-31 23:50:00
valid-after 2026-01-01 00:00:00
fresh-until 2026-01-01 01:00:00
valid-until 2026-01-01 03:00:00
voting-delay 300 300
known-flags Running Valid
dir-source auth2 84983E441C3BD26EBAAE4AA1F95129E5E54670F1 auth2.example 192.0.2.2 80 443
contact operator 2
dir-key-certificate-version 3
fingerprint 84983E441C3BD26EBAAE4AA1F95129E5E54670F1
dir-identity-key
-----BEGIN RSA PUBLIC KEY-----
YWJjZGJjZGVjZGVmZGVmZ2VmZ2hmZ2hpZ2hpamhpamtpamtsamtsbWtsbW5sbW5v
bW5vcG5vcHE=
-----END RSA PUBLIC KEY-----
dir-key-published 2025-12-01 00:00:00
dir-key-expires 2026-12-01 00:00:00
dir-signing-key
-----BEGIN RSA PUBLIC KEY-----
c2lnbi0y
-----END RSA PUBLIC KEY-----
dir-key-crosscert
-----BEGIN ID SIGNATURE-----
iKKVOfyCqwJH+xqLGWeEIy0769ab4q90aqW3OZmphrM=
-----END ID SIGNATURE-----
dir-key-certification
-----BEGIN SIGNATURE-----
mPIPF1Fj2Kp2KJIvqfo6IRVTseC5B6GTXbb8cUMEtfE=
-----END SIGNATURE-----
";

const TWO_FOOTER: &str = "directory-footer
directory-signature 84983E441C3BD26EBAAE4AA1F95129E5E54670F1 D8F7BE53AD76B2AE325B2A3A3A076B66AB8B1BB5
-----BEGIN SIGNATURE-----
";

/// The end of a signature.
const END: &str = "
-----END SIGNATURE-----
";

/// A relay whose identity has bytes of one.
const X: &str =
    "r relay1 AQEBAQEBAQEBAQEBAQEBAQEBAQE AgICAgICAgICAgICAgICAgICAgI 2025-12-31 22:00:00 198.51.100.7 9001 0
s Running Valid
";

/// A relay whose identity has bytes of two.
const Y: &str =
    "r relay2 AgICAgICAgICAgICAgICAgICAgI AgICAgICAgICAgICAgICAgICAgI 2025-12-31 22:00:00 198.51.100.8 9001 0
s Running Valid
";

/// The vote of the first authority, without relays.
pub const ONE_LISTS_NONE: Pieces = &[
    ONE,
    OPERATOR,
    ONE_CERTIFICATE,
    ONE_FOOTER,
    "MqbYcq3B0vw+uX6qJMMwdeX1QHgvqQkqHisTccO6uRg=",
    END,
];

/// The same with the other contact.
pub const ONE_OF_ANOTHER: Pieces = &[
    ONE,
    ANOTHER,
    ONE_CERTIFICATE,
    ONE_FOOTER,
    "w5FrEJPZUZgf3P9ngVLY1Cqvw1iWVhfBWF65ivzxq9s=",
    END,
];

/// Its vote with both relays.
pub const ONE_LISTS_BOTH: Pieces = &[
    ONE,
    OPERATOR,
    ONE_CERTIFICATE,
    X,
    Y,
    ONE_FOOTER,
    "O2VRZdIRy7WQTT9W2qbCamtcUnpYgNn7FsoTQikFtqs=",
    END,
];

/// The vote of the second authority, without relays.
pub const TWO_LISTS_NONE: Pieces = &[
    TWO,
    TWO_FOOTER,
    "hWcI18k2a8It313ihhwbmDPGMxryULSkK7VnK9daqGY=",
    END,
];

/// Its vote with the second relay.
pub const TWO_LISTS_ONE: Pieces = &[
    TWO,
    Y,
    TWO_FOOTER,
    "UHwOHAe6ODDMsdYJ/ZvfDVwCtT3roEeE3ziGG6zCSLA=",
    END,
];
