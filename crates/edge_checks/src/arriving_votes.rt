// Votes of three authorities, signed under the test scheme, and the consensus that is computed of them.

/// The votes, without a relay, of one period and one moment.
pub const VOTES: [&[u8]; 3] = [ONE, TWO, THREE];

/// The first authority's.
const ONE: &[u8] = b"network-status-version 3
vote-status vote
consensus-methods 32
published 2025-12-31 23:50:00
valid-after 2026-01-01 00:00:00
fresh-until 2026-01-01 01:00:00
valid-until 2026-01-01 03:00:00
voting-delay 300 300
known-flags Running Valid
dir-source auth1 2FD4E1C67A2D28FCED849EE1BB76E7391B93EB12 auth1.example 192.0.2.1 80 443
contact operator 1
dir-key-certificate-version 3
fingerprint 2FD4E1C67A2D28FCED849EE1BB76E7391B93EB12
dir-identity-key
-----BEGIN RSA PUBLIC KEY-----
VGhlIHF1aWNrIGJyb3duIGZveCBqdW1wcyBvdmVyIHRoZSBsYXp5IGRvZw==
-----END RSA PUBLIC KEY-----
dir-key-published 2025-12-01 00:00:00
dir-key-expires 2026-12-01 00:00:00
dir-signing-key
-----BEGIN RSA PUBLIC KEY-----
c2lnbi0x
-----END RSA PUBLIC KEY-----
dir-key-crosscert
-----BEGIN ID SIGNATURE-----
W7g1vpnAfFlPotdxglWgJ9ZctyQMrB4xhHhiZVRrp/Q=
-----END ID SIGNATURE-----
dir-key-certification
-----BEGIN SIGNATURE-----
Zw20WLCU5zapzeLufxICg2CtoDETZ1JgmEU5tdnIBmA=
-----END SIGNATURE-----
directory-footer
directory-signature 2FD4E1C67A2D28FCED849EE1BB76E7391B93EB12 6F72C48DADD6EFEB0DCB997E00F90619CA181EEC
-----BEGIN SIGNATURE-----
MqbYcq3B0vw+uX6qJMMwdeX1QHgvqQkqHisTccO6uRg=
-----END SIGNATURE-----
";

/// The second's.
const TWO: &[u8] = b"network-status-version 3
vote-status vote
consensus-methods 32
published 2025-12-31 23:50:00
valid-after 2026-01-01 00:00:00
fresh-until 2026-01-01 01:00:00
valid-until 2026-01-01 03:00:00
voting-delay 300 300
known-flags Running Valid
dir-source auth2 84983E441C3BD26EBAAE4AA1F95129E5E54670F1 auth2.example 192.0.2.2 80 443
contact operator 2
dir-key-certificate-version 3
fingerprint 84983E441C3BD26EBAAE4AA1F95129E5E54670F1
dir-identity-key
-----BEGIN RSA PUBLIC KEY-----
YWJjZGJjZGVjZGVmZGVmZ2VmZ2hmZ2hpZ2hpamhpamtpamtsamtsbWtsbW5sbW5v
bW5vcG5vcHE=
-----END RSA PUBLIC KEY-----
dir-key-published 2025-12-01 00:00:00
dir-key-expires 2026-12-01 00:00:00
dir-signing-key
-----BEGIN RSA PUBLIC KEY-----
c2lnbi0y
-----END RSA PUBLIC KEY-----
dir-key-crosscert
-----BEGIN ID SIGNATURE-----
iKKVOfyCqwJH+xqLGWeEIy0769ab4q90aqW3OZmphrM=
-----END ID SIGNATURE-----
dir-key-certification
-----BEGIN SIGNATURE-----
mPIPF1Fj2Kp2KJIvqfo6IRVTseC5B6GTXbb8cUMEtfE=
-----END SIGNATURE-----
directory-footer
directory-signature 84983E441C3BD26EBAAE4AA1F95129E5E54670F1 D8F7BE53AD76B2AE325B2A3A3A076B66AB8B1BB5
-----BEGIN SIGNATURE-----
hWcI18k2a8It313ihhwbmDPGMxryULSkK7VnK9daqGY=
-----END SIGNATURE-----
";

/// The third's.
const THREE: &[u8] = b"network-status-version 3
vote-status vote
consensus-methods 32
published 2025-12-31 23:50:00
valid-after 2026-01-01 00:00:00
fresh-until 2026-01-01 01:00:00
valid-until 2026-01-01 03:00:00
voting-delay 300 300
known-flags Running Valid
dir-source auth3 86F7E437FAA5A7FCE15D1DDCB9EAEAEA377667B8 auth3.example 192.0.2.3 80 443
contact operator 3
dir-key-certificate-version 3
fingerprint 86F7E437FAA5A7FCE15D1DDCB9EAEAEA377667B8
dir-identity-key
-----BEGIN RSA PUBLIC KEY-----
YQ==
-----END RSA PUBLIC KEY-----
dir-key-published 2025-12-01 00:00:00
dir-key-expires 2026-12-01 00:00:00
dir-signing-key
-----BEGIN RSA PUBLIC KEY-----
c2lnbi0z
-----END RSA PUBLIC KEY-----
dir-key-crosscert
-----BEGIN ID SIGNATURE-----
0Rv6h1F8tK+bhSW+Vj7XPEqPXGNMeI/iuv3aw2V45HE=
-----END ID SIGNATURE-----
dir-key-certification
-----BEGIN SIGNATURE-----
r52miFbjO1oB+cqeL+qGraMFJVj+4bkiQa+zUZxox4k=
-----END SIGNATURE-----
directory-footer
directory-signature 86F7E437FAA5A7FCE15D1DDCB9EAEAEA377667B8 6031F0F5E4624A4901478420CDA098680B81B27D
-----BEGIN SIGNATURE-----
kxEeeNrqGrkairTTfQZwXSNmOW1lbDlkIOUKHtpyXzI=
-----END SIGNATURE-----
";

/// Their consensus, of the ns flavour.
pub const CONSENSUS: &[u8] = b"network-status-version 3
vote-status consensus
consensus-method 32
valid-after 2026-01-01 00:00:00
fresh-until 2026-01-01 01:00:00
valid-until 2026-01-01 03:00:00
voting-delay 300 300
known-flags NoEdConsensus Running Valid
dir-source auth1 2FD4E1C67A2D28FCED849EE1BB76E7391B93EB12 auth1.example 192.0.2.1 80 443
contact operator 1
vote-digest B498D4421FF80B0AA162BC6C075B256137AEEA07
dir-source auth2 84983E441C3BD26EBAAE4AA1F95129E5E54670F1 auth2.example 192.0.2.2 80 443
contact operator 2
vote-digest 9FA5AB482C420CB53018B8CADD1F7F2CAD8DA7CC
dir-source auth3 86F7E437FAA5A7FCE15D1DDCB9EAEAEA377667B8 auth3.example 192.0.2.3 80 443
contact operator 3
vote-digest 9B27E64631A1FC4D8E90EAC199CCB3B4664C9A63
directory-footer
bandwidth-weights Wbd=3333 Wbe=0 Wbg=0 Wbm=10000 Wdb=10000 Web=10000 Wed=3333 Wee=10000 Weg=3333 Wem=10000 Wgb=10000 Wgd=3333 Wgg=10000 Wgm=10000 Wmb=10000 Wmd=3333 Wme=0 Wmg=0 Wmm=10000
";
