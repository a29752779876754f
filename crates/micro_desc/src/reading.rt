// Reading a microdescriptor.
ghost use Rattle.std.specs.Prelude.{◌<◌, ◌^◌, length};
ghost use Rattle.micro_desc.specs.{Heads.head_with, Reading.ReadsMicro};

use crate::frame::MicroFrame;
use crate::head::{MicroHead, head_of, micro_at};
use crate::micro::Micro;
use crate::said::MicroValue;
use dirdoc_grammar::Items;
use frame_reader::{Facts, read_document};
use frame_terms::{ReadRefusal, Taken};
use frame_values::Value;
use std::alloc::{AllocError, Global};

/// How many bytes a microdescriptor may have.
const MAX_MICRO: u64 = 65_536;

impl Facts<MicroFrame> for MicroHead {
    ghost with = { head_with };

    fn close(&mut self, _: (), taken: &[Taken<Value<MicroValue>>]) -> Result<(), AllocError> {
        *self = head_of(taken);
        Ok(())
    }
}

/// The microdescriptor that the bytes begin with, behind blank lines if there are some, and how many bytes that are: it ends
/// before the next `onion-key`, or with the input.
///
/// # Errors
/// `Frame` is the first fault of the microdescriptor: what is wrong and at which byte. `Memory` is want of memory.
pub fn read(alloc: Global, bytes: &[u8]) -> Result<(Micro, usize), ReadRefusal>
    requires { length bytes.now < 2 ^ 62 }
    ensures { ReadsMicro bytes.now result }
{
    let mut items = Items::new(bytes, MAX_MICRO);
    let mut head = head_of(&[]);
    let length = bytes.len() as u64;
    let used = read_document(alloc, MicroFrame, &mut items, length, &mut head)?;
    match micro_at(alloc, bytes, &head) {
        Ok(micro) => Ok((micro, used as usize)),
        Err(_) => Err(ReadRefusal::Memory),
    }
}
