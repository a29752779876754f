// Where the signed part of a consensus begins and ends.
use consensus_doc::read;
use frame_terms::ReadRefusal;
use std::alloc::Global;
use std::test::Fail;

const HEAD: &[u8] = b"
network-status-version 3
vote-status consensus
consensus-method 32
valid-after 2026-01-01 00:00:00
fresh-until 2026-01-01 01:00:00
valid-until 2026-01-01 03:00:00
voting-delay 300 300
known-flags Running Valid
params
dir-source auth1 2FD4E1C67A2D28FCED849EE1BB76E7391B93EB12 auth1.example 192.0.2.1 80 443
contact operator 1
vote-digest B498D4421FF80B0AA162BC6C075B256137AEEA07
directory-footer
";

const UNKNOWN: &[u8] = b"directory-signature md5 x\n";

const SIGNATURE: &[u8] =
    b"directory-signature 2FD4E1C67A2D28FCED849EE1BB76E7391B93EB12 6F72C48DADD6EFEB0DCB997E00F90619CA181EEC
-----BEGIN SIGNATURE-----
YWJj
-----END SIGNATURE-----
";

// Where the signed part of the consensus with these lines begins and ends, where it is signed, and how many signatures it has.
fn signed_part(
    alloc: Global,
    lines: [&[u8]; 2],
) -> Result<(Option<(u64, u64)>, usize), ReadRefusal> {
    let mut text = Vec::from_slice(alloc, HEAD)?;
    for line in lines {
        text.extend_from_slice(line)?;
    }
    if text.len() > 100_000 {
        return Err(ReadRefusal::Memory);
    }
    let (consensus, _) = read(alloc, &text)?;
    Ok((consensus.signed, consensus.signatures.len()))
}

#[test]
fn the_first_signature_ends_the_signed_part(rt: HostRuntime) -> Result<(), Fail> {
    // It begins behind a blank line.
    let end = HEAD.len() as u64 + 20;
    for (lines, want) in [
        ([UNKNOWN, SIGNATURE], (Some((1, end)), 1)),
        ([SIGNATURE, SIGNATURE], (Some((1, end)), 2)),
        ([b"".as_slice(), b"".as_slice()], (None, 0)),
    ] {
        if signed_part(rt.alloc(), lines)? != want {
            return Err(Fail::new("another part"));
        }
    }
    Ok(())
}
