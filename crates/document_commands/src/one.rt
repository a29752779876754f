// One document of any kind, and what the commands answer of it.
ghost use Rattle.std.specs.Prelude.{◌≡◌, ◌≤◌, ◌<◌, ◌^◌, ℕ, List, Result, IfOk, length};
ghost use Rattle.frame_terms.specs.declared.fault.{FrameFault.FrameFault, ReadRefusal.ReadRefusal};
ghost use Rattle.fault_places.specs.Within.{HasFaultsWithin};
ghost use Rattle.daemon_words.specs.Stops.{Answered};
ghost use Rattle.document_commands.specs.{Answers.{ReadAnswers, check_text}, Ends.{ComesOf, made_of}, Private.IsOne};
ghost use Rattle.document_commands.specs.Private.{ReadsFirst, ReadsOne};
ghost use Rattle.blank_lines.specs.Blanks as blanks;
ghost use Rattle.document_commands.specs.Documents as documents;

use crate::ends::{end_of, refusal_of};
use blank_lines::after_blanks;
use bytes::Bytes;
use daemon_words::{DocumentRefusal, Kind, Stop, of_kind};
use dir_bytes::Memory;
use frame_reader::Frame;
use frame_terms::{FrameFault, FrameReason, ReadRefusal};
use std::alloc::Global;

/// What `check` says of a document that is one.
pub const OK: &[u8] = b"ok\n";

/// A document of a kind, as the commands see it: how it is read, and how it is written.
pub trait Document: Drop {
    /// Its frame, by whose tables it is read.
    type Format: Frame;

    /// The document that bytes begin with, and the place after it; or the first fault.
    ghost read_of: { List ℕ → Result (Self × ℕ) ReadRefusal };

    /// How a fault of the document that bytes begin with is told.
    ghost fault_of: { List ℕ → FrameFault → FrameFault };

    /// What is known of each document that was read, without which it has no text.
    ghost is_fit: { Self → Type 0 };

    /// Its canonical text.
    ghost text_of: { Self → List ℕ };

    /// How many bytes of blank lines stand before its own; none, where these are read with it.
    ghost front_of: { List ℕ → ℕ };

    /// How many bytes it may have, with those.
    ghost LIMIT: { ℕ };

    /// How many bytes it may have, with those of `front`.
    const LIMIT: u64;

    /// How many bytes of blank lines stand before its own; none, where these are read with it.
    fn front(bytes: &[u8]) -> usize
        ensures front { result ≡ front_of bytes.now }
        ensures within { result ≤ length bytes.now }
        ensures limit { result ≤ LIMIT };

    /// The frame of the document that the bytes begin with: what is read comes of the sections that its tables make of the items
    /// of its own.
    fn frame(alloc: Global, bytes: &[u8]) -> Self::Format
        requires { length bytes.now < 2 ^ 61 }
        ensures comes { ComesOf (front_of bytes.now) (fault_of bytes.now) (made_of (Self.Format.tables result) (front_of bytes.now) LIMIT bytes.now) (read_of bytes.now) }
        ensures within { 0 < front_of bytes.now → HasFaultsWithin (Self.Format.tables result) };

    /// The document that the bytes begin with, and the place after it.
    ///
    /// # Errors
    /// `Frame` is its first fault, before it is told: what is wrong and at which byte. `Memory` is want of memory.
    fn read(alloc: Global, bytes: &Bytes) -> Result<(Self, usize), ReadRefusal>
        requires { length bytes.now < 2 ^ 61 }
        ensures read { ReadsFirst (fault_of bytes.now) (read_of bytes.now) (length bytes.now) result }
        ensures fit { IfOk result (λ read. is_fit read.0) };

    /// A fault of the document that the bytes begin with, as it is told.
    fn fault(bytes: &[u8], fault: FrameFault) -> FrameFault
        requires { length bytes.now < 2 ^ 61 }
        ensures { result ≡ fault_of bytes.now fault };

    /// Its canonical text.
    ///
    /// # Errors
    /// `Memory` is want of memory.
    fn write(&self, alloc: Global) -> Result<Vec<u8>, Memory>
        requires { is_fit self.now }
        ensures { IfOk result (λ text. text.items ≡ text_of self.now) };
}

/// `ok`, where the input is one document.
pub fn check_one<D: Document>(
    alloc: Global,
    kind: Kind,
    bytes: &Bytes,
) -> Result<Vec<u8>, Stop<DocumentRefusal>>
    requires { length bytes.now < 2 ^ 61 }
    ensures { Answered (ReadAnswers check_text kind (documents.whole bytes.now (D.read_of bytes.now))) result }
{
    of_kind(kind, is_one::<D>(alloc, bytes))?;
    let text = Vec::from_slice(alloc, OK)?;
    Ok(text)
}

/// The canonical text of the one document that the input is.
pub fn show_one<D: Document>(
    alloc: Global,
    kind: Kind,
    bytes: &Bytes,
) -> Result<Vec<u8>, Stop<DocumentRefusal>>
    requires { length bytes.now < 2 ^ 61 }
    ensures { Answered (ReadAnswers D.text_of kind (documents.whole bytes.now (D.read_of bytes.now))) result }
{
    let document = of_kind(kind, one::<D>(alloc, bytes))?;
    let text = document.write(alloc)?;
    Ok(text)
}

/// The one document that the input is.
fn one<D: Document>(alloc: Global, bytes: &Bytes) -> Result<D, ReadRefusal>
    requires { length bytes.now < 2 ^ 61 }
    ensures read { ReadsOne (documents.whole bytes.now (D.read_of bytes.now)) result }
    ensures fit { IfOk result (λ document. D.is_fit document) }
{
    match D::read(alloc, bytes) {
        Ok((document, used)) => alone(bytes, document, used),
        Err(refusal) => Err(refusal_of::<D>(bytes, refusal)),
    }
}

/// Nothing, where the input is one document.
fn is_one<D: Document>(alloc: Global, bytes: &[u8]) -> Result<(), ReadRefusal>
    requires { length bytes.now < 2 ^ 61 }
    ensures { IsOne (documents.whole bytes.now (D.read_of bytes.now)) result }
{
    let end = end_of::<D>(alloc, bytes)?;
    alone(bytes, (), end)
}

/// What was read of the first bytes of the input, unless another line stands behind it.
fn alone<D: Drop>(bytes: &[u8], document: D, used: usize) -> Result<D, ReadRefusal>
    requires within { used ≤ length bytes.now }
    requires short { length bytes.now < 2 ^ 61 }
    ensures { result ≡ documents.unless_more document (blanks.after_blanks used bytes.now) }
{
    match after_blanks(bytes, used) {
        None => Ok(document),
        Some(place) => Err(ReadRefusal::Frame(FrameFault {
            place: place as u64,
            reason: FrameReason::Order,
        })),
    }
}
