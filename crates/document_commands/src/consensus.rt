// A consensus, as the commands see it.
ghost use Rattle.consensus_terms.specs.{Moments.HasMoments, Signed.signed, Texts.facts_text};
ghost use Rattle.consensus_doc.specs.Reading.{consensus_of, max_consensus};

use crate::one::Document;
use bytes::Bytes;
use consensus_doc::{SignedConsensus, flavour_of};
use consensus_frame::ConsensusFrame;
use dir_bytes::Memory;
use frame_terms::{FrameFault, ReadRefusal};
use std::alloc::Global;

impl Document for SignedConsensus {
    type Format = ConsensusFrame;

    ghost read_of = { consensus_of };

    ghost fault_of = { λ bytes fault. fault };

    ghost is_fit = { λ consensus. HasMoments consensus.facts };

    ghost text_of = { λ consensus. signed (facts_text consensus) consensus.signatures };

    ghost front_of = { λ bytes. 0 };

    ghost LIMIT = { max_consensus };

    const LIMIT: u64 = 67_108_864;

    fn front(_: &[u8]) -> usize {
        0
    }

    fn frame(_: Global, bytes: &[u8]) -> ConsensusFrame {
        ConsensusFrame {
            flavour: flavour_of(bytes),
        }
    }

    fn read(alloc: Global, bytes: &Bytes) -> Result<(SignedConsensus, usize), ReadRefusal> {
        consensus_doc::read(alloc, bytes)
    }

    fn fault(_: &[u8], fault: FrameFault) -> FrameFault {
        fault
    }

    fn write(&self, alloc: Global) -> Result<Vec<u8>, Memory> {
        consensus_doc::write_facts(alloc, self)
    }
}
