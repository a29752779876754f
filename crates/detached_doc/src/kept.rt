// What is kept of detached signatures: numbers, and where their texts stand.
ghost use Rattle.std.specs.Prelude.{◌≡◌};
ghost use Rattle.detached_doc.specs.Kept as kept;
ghost use Rattle.detached_doc.specs.Kept.{kept_with};

use crate::said::{SignedLine, digest_at, push_digests, push_lines};
use detached_frame::{AdditionalDigestLine, DetachedFrame, DetachedValue};
use dir_bytes::Seq;
use dir_values::Digest1;
use frame_reader::Facts;
use frame_terms::{Keyword, Taken};
use frame_values::{Value, number_at};
use std::alloc::{AllocError, Global};

/// What the items say that stand once.
#[derive(Clone, Copy)]
pub(crate) struct Head {
    /// The digest of the consensus.
    pub ns: Digest1,
    /// When its period begins.
    pub valid_after: u64,
    /// Until when it is fresh.
    pub fresh_until: u64,
    /// Until when it is valid.
    pub valid_until: u64,
}

/// What is kept of detached signatures.
#[derive(Drop)]
pub(crate) struct Kept {
    /// What the items say that stand once.
    pub head: Head,
    /// The digests of other flavours, in their order.
    pub additional: Seq<AdditionalDigestLine>,
    /// The signatures, in their order.
    pub signatures: Seq<SignedLine>,
}

/// What the items say that stand once; nothing, where they do not stand.
fn head_of(taken: &[Taken<Value<DetachedValue>>]) -> Head
    ensures { result ≡ kept.head_of taken.now }
{
    Head {
        ns: digest_at(taken),
        valid_after: number_at(taken, Keyword::ValidAfter),
        fresh_until: number_at(taken, Keyword::FreshUntil),
        valid_until: number_at(taken, Keyword::ValidUntil),
    }
}

impl Facts<DetachedFrame> for Kept {
    ghost with = { kept_with };

    fn close(&mut self, _: (), taken: &[Taken<Value<DetachedValue>>]) -> Result<(), AllocError> {
        self.head = head_of(taken);
        push_digests(&mut self.additional, taken)?;
        push_lines(&mut self.signatures, taken)
    }
}

/// What is kept where nothing was read.
pub(crate) fn nothing_kept(alloc: Global) -> Kept
    ensures { result ≡ kept.none_kept }
{
    Kept {
        head: head_of(&[]),
        additional: Seq::new(Vec::new(alloc)),
        signatures: Seq::new(Vec::new(alloc)),
    }
}
