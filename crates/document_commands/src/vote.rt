// A vote, as the commands see it.
ghost use Rattle.vote_terms.specs.Votes.{max_vote};
ghost use Rattle.vote_doc.specs.Reading.{vote_of};
ghost use Rattle.vote_text.specs.Texts.{vote_text};

use crate::one::Document;
use bytes::Bytes;
use dir_bytes::Memory;
use frame_terms::{FrameFault, ReadRefusal};
use std::alloc::Global;
use vote_doc::Vote;
use vote_frame::VoteFrame;

impl Document for Vote {
    type Format = VoteFrame;

    ghost read_of = { vote_of };

    ghost fault_of = { λ bytes fault. fault };

    ghost is_fit = { λ vote. Unit {0} };

    ghost text_of = { λ vote. vote_text vote.says };

    ghost front_of = { λ bytes. 0 };

    ghost LIMIT = { max_vote };

    const LIMIT: u64 = 16_777_216;

    fn front(_: &[u8]) -> usize {
        0
    }

    fn frame(_: Global, _: &[u8]) -> VoteFrame {
        VoteFrame
    }

    fn read(alloc: Global, bytes: &Bytes) -> Result<(Vote, usize), ReadRefusal> {
        vote_doc::read(alloc, bytes)
    }

    fn fault(_: &[u8], fault: FrameFault) -> FrameFault {
        fault
    }

    fn write(&self, alloc: Global) -> Result<Vec<u8>, Memory> {
        let facts = self.facts(alloc)?;
        vote_doc::write(alloc, &facts)
    }
}
