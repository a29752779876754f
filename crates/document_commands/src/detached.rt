// Detached signatures, as the commands see them.
ghost use Rattle.detached_doc.specs.{Reading.{detached_of, max_detached}, Texts.detached_text};

use crate::one::Document;
use bytes::Bytes;
use detached_doc::{Detached, DetachedFrame};
use dir_bytes::Memory;
use frame_terms::{FrameFault, ReadRefusal};
use std::alloc::Global;

impl Document for Detached {
    type Format = DetachedFrame;

    ghost read_of = { detached_of };

    ghost fault_of = { λ bytes fault. fault };

    ghost is_fit = { λ detached. Unit {0} };

    ghost text_of = { detached_text };

    ghost front_of = { λ bytes. 0 };

    ghost LIMIT = { max_detached };

    const LIMIT: u64 = 1_048_576;

    fn front(_: &[u8]) -> usize {
        0
    }

    fn frame(_: Global, _: &[u8]) -> DetachedFrame {
        DetachedFrame
    }

    fn read(alloc: Global, bytes: &Bytes) -> Result<(Detached, usize), ReadRefusal> {
        detached_doc::read(alloc, bytes)
    }

    fn fault(_: &[u8], fault: FrameFault) -> FrameFault {
        fault
    }

    fn write(&self, alloc: Global) -> Result<Vec<u8>, Memory> {
        detached_doc::write(alloc, self)
    }
}
