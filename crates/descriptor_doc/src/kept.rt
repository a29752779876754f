// What is kept of a descriptor.
ghost use Rattle.std.specs.Prelude.{◌≡◌};
ghost use Rattle.descriptor_doc.specs.Heads.{kept_with, none_kept};

use crate::head::{Head, head_of};
use crate::says::{push_addresses, push_policy};
use descriptor_frame::{DescriptorFrame, DescriptorValue};
use dir_bytes::Seq;
use exit_summary::Policy;
use frame_reader::Facts;
use frame_terms::Taken;
use frame_values::{Span, Value};
use std::alloc::{AllocError, Global};

/// What is kept of a descriptor.
#[derive(Debug, Drop)]
pub struct Kept {
    /// What its items say that stand at most once.
    pub head: Head,
    /// Its exit policy.
    pub policy: Policy,
    /// Where its further addresses stand.
    pub addresses: Seq<Span>,
}

/// What is kept where nothing was read.
pub(crate) fn nothing_kept(alloc: Global) -> Kept
    ensures { result ≡ none_kept }
{
    Kept {
        head: head_of(&[]),
        policy: Policy::new(alloc),
        addresses: Seq::new(Vec::new(alloc)),
    }
}

impl Facts<DescriptorFrame> for Kept {
    ghost with = { kept_with };

    fn close(&mut self, _: (), taken: &[Taken<Value<DescriptorValue>>]) -> Result<(), AllocError> {
        self.head = head_of(taken);
        push_policy(&mut self.policy, taken)?;
        push_addresses(&mut self.addresses, taken)?;
        Ok(())
    }
}
