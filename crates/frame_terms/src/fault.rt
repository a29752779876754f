// Why a document is refused.
ghost use Rattle.std.specs.Prelude.{◌≡◌};
ghost use Rattle.frame_terms.specs.{Refusals.of_doc, declared.fault.ReadRefusal.TheVariants.Memory};

use crate::keyword::Keyword;
use crate::row::Limit;
use item_terms::{DocFault, DocReason};
use std::alloc::{AllocError, AllocFailed};

/// What is wrong with an item of a document. Of several that apply to one item, the first of this
/// list is given; only `TooMany` of a certificate's bytes comes right after `Doc`.
#[derive(Clone, Copy, Debug, PartialEq, Eq)]
pub enum FrameReason {
    /// A line or an object has a fault, whatever its keyword.
    Doc(DocReason),
    /// An item that has to stand does not, where the section ends that it belongs to, or the input:
    /// the first such item of the table. The place is the first byte of the item that ends the
    /// section, or the input's length.
    Missing(Keyword),
    /// The document knows the item, but not in the section that is open. The place is the item's
    /// first byte.
    Order,
    /// The item stands a second time, and may not. The place is its first byte.
    Twice(Keyword),
    /// More of something than the limit. The place is the item's first byte; of a certificate's
    /// bytes, that of the first byte that is too many.
    TooMany(Limit),
    /// An argument is not what the item wants, or the object: the place is the argument's first
    /// byte, and the item's where the argument is missing, or the object, or has other words. After
    /// `directory-signature` stands no space: the place is that of the byte that stands there.
    Value,
    /// An entry does not come after the one before it, by their identities. The place is the item's first byte.
    Unsorted,
    /// An Ed25519 key stands in an earlier entry too. The place is the item's first byte.
    DuplicateEd,
}

/// What is wrong with a document, and where.
#[derive(Clone, Copy, Debug, PartialEq, Eq)]
pub struct FrameFault {
    /// The place in bytes, counted from the input's first byte.
    pub place: u64,
    /// What is wrong there.
    pub reason: FrameReason,
}

/// Why a document was not read.
#[derive(Clone, Copy, Debug, PartialEq, Eq)]
pub enum ReadRefusal {
    /// This is its first fault.
    Frame(FrameFault),
    /// There was no memory.
    Memory,
}

impl From<AllocError> for ReadRefusal {
    ghost from_gives = { λ _ e. e ≡ Memory };

    fn from(_: AllocError) -> ReadRefusal {
        ReadRefusal::Memory
    }
}

impl<T: Drop> From<AllocFailed<T>> for ReadRefusal {
    ghost from_gives = { λ _ e. e ≡ Memory };

    fn from(_: AllocFailed<T>) -> ReadRefusal {
        ReadRefusal::Memory
    }
}

impl From<DocFault> for ReadRefusal {
    ghost from_gives = { λ fault e. e ≡ of_doc fault };

    fn from(fault: DocFault) -> ReadRefusal {
        ReadRefusal::Frame(FrameFault {
            place: fault.place,
            reason: FrameReason::Doc(fault.reason),
        })
    }
}
