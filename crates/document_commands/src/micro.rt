// A microdescriptor, as the commands see it.
ghost use Rattle.micro_desc.specs.{Reading.max_micro, Texts.micro_text};
ghost use Rattle.document_commands.specs.NextMicro.{first_micro, next_micro, unless_behind};

use crate::next_micro::fault_of;
use crate::one::Document;
use bytes::Bytes;
use dir_bytes::Memory;
use frame_terms::{FrameFault, ReadRefusal};
use micro_desc::{Micro, MicroFrame};
use std::alloc::Global;

impl Document for Micro {
    type Format = MicroFrame;

    ghost read_of = { first_micro };

    ghost fault_of = { λ bytes fault. unless_behind (next_micro bytes) fault };

    ghost is_fit = { λ micro. Unit {0} };

    ghost text_of = { micro_text };

    ghost front_of = { λ bytes. 0 };

    ghost LIMIT = { max_micro };

    const LIMIT: u64 = 65_536;

    fn front(_: &[u8]) -> usize {
        0
    }

    fn frame(_: Global, _: &[u8]) -> MicroFrame {
        MicroFrame
    }

    fn read(alloc: Global, bytes: &Bytes) -> Result<(Micro, usize), ReadRefusal> {
        micro_desc::read(alloc, bytes)
    }

    fn fault(bytes: &[u8], fault: FrameFault) -> FrameFault {
        fault_of(bytes, fault)
    }

    fn write(&self, alloc: Global) -> Result<Vec<u8>, Memory> {
        micro_desc::write(alloc, self)
    }
}
