// The consensus that is held.
ghost use Rattle.std.specs.Prelude.{◌≡◌};
ghost use Rattle.mirror_core.specs.Lending.{IsKeptOf};

use bytes::Bytes;
use consensus_terms::SignedConsensus;
use detached_sigs::SignerKey;
use std::marker::Model;
use std::snapshot::Snapshot;

/// A consensus, of which no more is held than its bytes, the moment from which it is valid, the digests of microdescriptors that
/// it names, and who signed it. Contracts see it as the consensus.
#[derive(Drop)]
pub(crate) struct Held {
    pub(crate) bytes: Bytes,
    pub(crate) valid_after: u64,
    pub(crate) digests: Vec<[u8; 32]>,
    pub(crate) signers: Vec<SignerKey>,
    pub(crate) consensus: Snapshot<SignedConsensus>,
}

impl Model for Held {
    ghost use Rattle.mirror_core.specs.{States.HeldConsensus, Lending.IsKeptOf};

    ghost Value = { HeldConsensus };

    ghost view = { λ h. record { bytes = h.bytes; consensus = h.consensus.value; signers = h.signers.items } };

    ghost invariant = { λ h. IsKeptOf h.consensus.value h.valid_after h.digests.items };
}
