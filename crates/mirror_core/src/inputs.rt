// Documents of one kind, one behind the other to an input's end.
ghost use Rattle.std.specs.Prelude.{◌≡◌, ◌<◌, ◌≤◌, ◌^◌, ℕ, List, length, slice_range, MatchResult, IfOk, IfErr};
ghost use Rattle.std.specs.declared.result.Result.{Result};
ghost use Rattle.frame_terms.specs.declared.fault.ReadRefusal.{ReadRefusal};
ghost use Rattle.mirror_core.specs.{Inputs.AreAll, Reads.{IsWithin, ReadsOne, ReadsAt, RefusesAll}};

use blank_lines::{after_blanks, fault_behind};
use bytes::Bytes;
use dir_bytes::Memory;
use frame_terms::ReadRefusal;
use frame_values::between;
use std::alloc::Global;
use std::collections::VecDeque;

/// A kind of document.
pub(crate) trait Kind {
    /// What a document of the kind says.
    type Document: Drop;

    /// The document that bytes begin with, and how many bytes it has; or its first fault.
    ghost document_of: { List ℕ → Result (Self.Document × ℕ) ReadRefusal };

    /// Reads a document of an input with a byte.
    fn read(&self, alloc: Global, bytes: &[u8]) -> Result<(Self::Document, usize), ReadRefusal>
        requires some { 0 < length bytes.now }
        requires short { length bytes.now < 2 ^ 61 }
        ensures reads { ReadsOne document_of bytes.now result }
        ensures within { IfErr result (IsWithin (length bytes.now)) };
}

/// Reads the document that stands in the input from a place on, and gives the place behind it.
fn read_at<K: Kind>(
    alloc: Global,
    kind: &K,
    bytes: &[u8],
    place: usize,
) -> Result<(K::Document, usize), ReadRefusal>
    requires within { place < length bytes.now }
    requires short { length bytes.now < 2 ^ 32 }
    ensures { ReadsAt K.document_of bytes.now place result }
{
    match kind.read(alloc, &bytes[place..]) {
        Ok((document, used)) => Ok((document, place + used)),
        Err(ReadRefusal::Frame(fault)) => Err(ReadRefusal::Frame(fault_behind(
            place as u64,
            fault,
        ))),
        Err(ReadRefusal::Memory) => Err(ReadRefusal::Memory),
    }
}

/// A copy of the bytes from one place to another.
fn copy_between(alloc: Global, bytes: &[u8], begin: usize, end: usize) -> Result<Bytes, Memory>
    ensures { IfOk result (λ copy. copy ≡ slice_range bytes.now begin end) }
{
    Ok(Bytes::copy_from_slice(alloc, between(bytes, begin as u64, end as u64))?)
}

/// The documents that an input is, each with its text.
///
/// # Errors
/// `Frame` is the first fault of the first document that has one, with its place in the input. `Memory` is want of memory.
pub(crate) fn read_all<K: Kind>(
    alloc: Global,
    kind: &K,
    bytes: &[u8],
) -> Result<VecDeque<(K::Document, Bytes)>, ReadRefusal>
    requires { length bytes.now < 2 ^ 32 }
    ensures reads { MatchResult result (λ all. AreAll K.document_of bytes.now all.items) (RefusesAll K.document_of bytes.now) }
    ensures few { IfOk result (λ all. length all.items ≤ length bytes.now) }
{
    let mut all = VecDeque::new(alloc);
    let mut place = 0;
    'documents: while let Some(begin) = after_blanks(bytes, place) {
        match read_at(alloc, kind, bytes, place) {
            Ok((document, next)) => {
                let text = match copy_between(alloc, bytes, begin, next) {
                    Ok(text) => text,
                    Err(_) => return Err(ReadRefusal::Memory),
                };
                all.push_back((document, text))?;
                place = next;
            }
            Err(refusal) => return Err(refusal),
        }
    }
    Ok(all)
}
