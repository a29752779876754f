// A consensus that a mirror is given.
ghost use Rattle.std.specs.Prelude.{◌≡◌, ◌<◌, ◌≤◌, ◌^◌, ◌++◌, true, length, map, IfOk, OnOk, IfErr, MatchResult};
ghost use Rattle.std.specs.Option.{option_to_list};
ghost use Rattle.count_terms.specs.Counts as counts;
ghost use Rattle.mirror_core.specs.Answers as answers;
ghost use Rattle.mirror_core.specs.{Answers.IsMicrodesc, Lending.{IsNoMicrodesc, IsNotNewer}};
ghost use Rattle.mirror_core.specs.States as states;

use crate::refusal::{MirrorRefusal, of_read};
use blank_lines::refusal_behind;
use consensus_terms::{Flavour, Routerline, SignedConsensus};
use dir_bytes::Memory;
use dir_values::Digest2;
use std::alloc::Global;

/// The microdesc consensus that the bytes are, which stand in an input from a place on.
#[tactic(auto, using(crate::proofs::TakenConsensus::fits_behind, crate::proofs::TakenConsensus::not_read))]
pub(crate) fn read_microdesc(
    alloc: Global,
    begin: u64,
    bytes: &[u8],
) -> Result<SignedConsensus, MirrorRefusal>
    requires begin { begin < 2 ^ 62 }
    requires bytes { length bytes.now < 2 ^ 62 }
    ensures { MatchResult result (IsMicrodesc bytes.now) (IsNoMicrodesc begin bytes.now) }
{
    match consensus_doc::read(alloc, bytes) {
        Ok((consensus, _)) => match consensus.flavour {
            Flavour::Microdesc => Ok(consensus),
            Flavour::Ns => Err(MirrorRefusal::WrongFlavour),
        },
        Err(refusal) => Err(of_read(refusal_behind(begin, refusal))),
    }
}

/// Whether a consensus that is valid from a moment comes after the one that is held.
pub(crate) fn check_newer(held: Option<u64>, valid_after: u64) -> Result<(), MirrorRefusal>
    ensures ok { OnOk result (answers.is_after held valid_after ≡ true) }
    ensures err { IfErr result (IsNotNewer held valid_after) }
{
    match held {
        Some(held) if valid_after <= held => Err(MirrorRefusal::Older { held }),
        _ => Ok(()),
    }
}

/// Whether so many are more than half.
pub(crate) fn over(count: u32, of: u32) -> bool
    ensures { result ≡ counts.over count of }
{
    2 * count as u64 > of as u64
}

/// Adds the digest of a relay's microdescriptor, where the consensus names it.
fn push_named(digests: &mut Vec<[u8; 32]>, router: &Routerline) -> Result<(), Memory>
    ensures { OnOk result (digests.new.items ≡ digests.old.items ++ option_to_list (states.micro_named router.now)) }
{
    if let Some(digest) = router.m {
        digests.push(digest.0)?;
    }
    Ok(())
}

/// The digests of microdescriptors that a consensus names, in its order.
pub(crate) fn named(alloc: Global, consensus: &SignedConsensus) -> Result<Vec<[u8; 32]>, Memory>
    ensures { IfOk result (λ digests. digests.items ≡ states.named consensus.now) }
{
    let routers = consensus.facts.routers.as_slice();
    let mut digests = Vec::new(alloc);
    'routers: for router in routers {
        push_named(&mut digests, router)?;
    }
    Ok(digests)
}

/// Digests by their bytes.
pub(crate) fn digests_of(alloc: Global, found: &[[u8; 32]]) -> Result<Vec<Digest2>, Memory>
    ensures { IfOk result (λ digests. map (λ digest. digest.0) digests.items ≡ found.now) }
{
    let mut digests = Vec::new(alloc);
    'found: for bytes in found {
        digests.push(Digest2(*bytes))?;
    }
    Ok(digests)
}
