// Reading a descriptor.
ghost use Rattle.std.specs.Prelude.{◌≡◌, ◌≤◌, ◌<◌, ◌^◌, IfOk, length, slice_range};
ghost use Rattle.descriptor_doc.specs.{Descriptors.descriptor_in, Reading.{KeepsDescriptor, ReadsDescriptor}};
ghost use Rattle.descriptor_doc.specs.Reading.{ReadsUnder, max_descriptor};
ghost use Rattle.descriptor_doc.specs.Reading as reading;

use crate::descriptor::Descriptor;
use crate::families::as_read;
use crate::kept::{Kept, nothing_kept};
use crate::values::{descriptor_of, shared_between};
use blank_lines::{after_blanks, refusal_behind};
use bytes::Bytes;
use count_terms::Newest;
use descriptor_frame::DescriptorFrame;
use dir_bytes::Memory;
use dirdoc_grammar::Items;
use frame_reader::read_document;
use frame_terms::ReadRefusal;
use frame_values::between;
use std::alloc::Global;

/// How many bytes a descriptor may have, with the blank lines before it.
const MAX_DESCRIPTOR: u64 = 65_536;

/// How many bytes of blank lines stand before the descriptor; none, where nothing but blanks stands within as many bytes as it
/// may have.
pub fn front_of(bytes: &[u8]) -> usize
    ensures front { result ≡ reading.front_of bytes.now }
    ensures within { result ≤ length bytes.now }
    ensures limit { result ≤ max_descriptor }
{
    match after_blanks(between(bytes, 0, MAX_DESCRIPTOR), 0) {
        Some(place) => place,
        None => 0,
    }
}

/// What is kept of the descriptor that its own bytes begin with, of which it has at most so many, and the place after it.
///
/// # Errors
/// `Frame` is the first fault of the descriptor, `Memory` want of memory.
fn keep(alloc: Global, bytes: &[u8], limit: u64) -> Result<(Kept, u64), ReadRefusal>
    requires { length bytes.now < 2 ^ 62 }
    ensures { KeepsDescriptor limit bytes.now result }
{
    let mut items = Items::new(bytes, limit);
    let mut kept = nothing_kept(alloc);
    let length = bytes.len() as u64;
    let frame = DescriptorFrame { alloc };
    let end = read_document(alloc, frame, &mut items, length, &mut kept)?;
    Ok((kept, end))
}

/// What the descriptor says of which this was kept, in its own bytes, which it shares: those from one place to another.
///
/// # Errors
/// `Memory` is want of memory.
fn own_descriptor(
    alloc: Global,
    bytes: &Bytes,
    start: u64,
    end: u64,
    kept: Kept,
) -> Result<Descriptor, Memory>
    requires { length bytes.now < 2 ^ 62 }
    ensures { IfOk result (λ descriptor. descriptor ≡ descriptor_in (slice_range bytes.now start end) kept) }
{
    let own = shared_between(bytes, start, end)?;
    descriptor_of(alloc, &own, kept)
}

/// The descriptor that the bytes begin with, behind blank lines if there are some, and how many bytes that are: it ends with
/// the object of its `router-signature`. It shares the bytes, of which its text is a part. Of the relay's families nothing is
/// read.
///
/// # Errors
/// `Frame` is the first fault of the descriptor: what is wrong and at which byte. `Memory` is want of memory.
pub fn read(alloc: Global, bytes: &Bytes) -> Result<(Descriptor, usize), ReadRefusal>
    requires { length bytes.now < 2 ^ 62 }
    ensures { ReadsDescriptor bytes.now result }
{
    let front = front_of(bytes.as_slice());
    let (kept, end) = match keep(
        alloc,
        &bytes.as_slice()[front..],
        MAX_DESCRIPTOR - front as u64,
    ) {
        Ok(read) => read,
        Err(refusal) => return Err(refusal_behind(front as u64, refusal)),
    };
    let used = front as u64 + end;
    match own_descriptor(alloc, bytes, front as u64, used, kept) {
        Ok(descriptor) => Ok((descriptor, used as usize)),
        Err(_) => Err(ReadRefusal::Memory),
    }
}

/// The descriptor that the bytes begin with, as `read` reads it, by an authority whose newest method is this: from method 34 on
/// with the relay in its family, and from 35 on with its family certificates.
///
/// # Errors
/// As those of `read`.
pub fn read_under(
    alloc: Global,
    newest: Newest,
    bytes: &Bytes,
) -> Result<(Descriptor, usize), ReadRefusal>
    requires { length bytes.now < 2 ^ 62 }
    ensures { ReadsUnder newest bytes.now result }
{
    let (descriptor, used) = match read(alloc, bytes) {
        Ok(read) => read,
        Err(refusal) => return Err(refusal),
    };
    match as_read(alloc, newest, descriptor) {
        Ok(descriptor) => Ok((descriptor, used)),
        Err(_) => Err(ReadRefusal::Memory),
    }
}
