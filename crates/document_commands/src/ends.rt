// Where a document ends, by reading it and keeping nothing.
ghost use Rattle.std.specs.Prelude.{◌≡◌, ◌<◌, ◌^◌, length};
ghost use Rattle.frame_reader.specs.Reading.{EndsWithin};
ghost use Rattle.frame_terms.specs.Documents.{document_of};
ghost use Rattle.blank_lines.specs.Behind.{FitsBehind, refusal_behind};
ghost use Rattle.document_commands.specs.Ends as ends;
ghost use Rattle.document_commands.specs.Ends.{Ends, EndsAs};

use crate::one::Document;
use blank_lines::refusal_behind;
use dirdoc_grammar::Items;
use frame_reader::{Facts, Frame, read_document};
use frame_terms::{ReadRefusal, Taken};
use std::alloc::{AllocError, Global};

/// What is kept of a document: nothing.
#[derive(Clone, Copy, Debug)]
struct Nothing;

impl<F: Frame> Facts<F> for Nothing {
    ghost with = { λ nothing section taken. nothing };

    fn close(&mut self, _: F::Section, _: &[Taken<F::Value>]) -> Result<(), AllocError> {
        Ok(())
    }
}

/// The place after the document of a frame that these items of an input of so many bytes begin with. What stands after it is
/// not looked at.
///
/// # Errors
/// The first fault of the document, or want of memory.
fn end_by<F: Frame>(
    alloc: Global,
    frame: F,
    items: &mut Items<'_>,
    length: u64,
) -> Result<u64, ReadRefusal>
    ensures ends { EndsAs (document_of (F.tables frame) length items.old) result }
    ensures within { EndsWithin length items.old result }
{
    let mut nothing = Nothing;
    read_document(alloc, frame, items, length, &mut nothing)
}

/// A refusal of the document that the bytes begin with, as it is told.
pub fn refusal_of<D: Document>(bytes: &[u8], refusal: ReadRefusal) -> ReadRefusal
    requires { length bytes.now < 2 ^ 61 }
    ensures { result ≡ ends.refusal_of (D.fault_of bytes.now) refusal }
{
    match refusal {
        ReadRefusal::Frame(fault) => ReadRefusal::Frame(D::fault(bytes, fault)),
        ReadRefusal::Memory => ReadRefusal::Memory,
    }
}

/// A refusal of what stands behind so many bytes, by its place among all of them.
fn from_front(front: usize, refusal: ReadRefusal) -> ReadRefusal
    requires { 0 < front → FitsBehind front refusal }
    ensures { result ≡ refusal_behind front refusal }
{
    if front == 0 {
        refusal
    } else {
        refusal_behind(front as u64, refusal)
    }
}

/// The place after the document that the bytes begin with, as its `read` finds it. Memory is taken for the items of the section
/// that is open, and for nothing else.
///
/// # Errors
/// As those of `read`.
pub fn end_of<D: Document>(alloc: Global, bytes: &[u8]) -> Result<usize, ReadRefusal>
    requires { length bytes.now < 2 ^ 61 }
    ensures { Ends bytes.now (D.read_of bytes.now) result }
{
    let front = D::front(bytes);
    let own = &bytes[front..];
    let mut items = Items::new(own, D::LIMIT - front as u64);
    let frame = D::frame(alloc, bytes);
    match end_by(alloc, frame, &mut items, own.len() as u64) {
        Ok(end) => Ok(front + end as usize),
        Err(refusal) => Err(refusal_of::<D>(bytes, from_front(front, refusal))),
    }
}
