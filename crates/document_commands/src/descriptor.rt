// A server descriptor, as the commands see it.
ghost use Rattle.descriptor_doc.specs.Reading.{descriptor_of, front_of, max_descriptor};
ghost use Rattle.descriptor_text.specs.Texts.{descriptor_text};

use crate::one::Document;
use bytes::Bytes;
use descriptor_doc::Descriptor;
use descriptor_frame::DescriptorFrame;
use dir_bytes::Memory;
use frame_terms::{FrameFault, ReadRefusal};
use std::alloc::Global;

impl Document for Descriptor {
    type Format = DescriptorFrame;

    ghost read_of = { descriptor_of };

    ghost fault_of = { λ bytes fault. fault };

    ghost is_fit = { λ descriptor. Unit {0} };

    ghost text_of = { descriptor_text };

    ghost front_of = { front_of };

    ghost LIMIT = { max_descriptor };

    const LIMIT: u64 = 65_536;

    fn front(bytes: &[u8]) -> usize {
        descriptor_doc::front_of(bytes)
    }

    fn frame(alloc: Global, _: &[u8]) -> DescriptorFrame {
        DescriptorFrame { alloc }
    }

    fn read(alloc: Global, bytes: &Bytes) -> Result<(Descriptor, usize), ReadRefusal> {
        descriptor_doc::read(alloc, bytes)
    }

    fn fault(_: &[u8], fault: FrameFault) -> FrameFault {
        fault
    }

    fn write(&self, alloc: Global) -> Result<Vec<u8>, Memory> {
        descriptor_text::write(alloc, self)
    }
}
