// A relay's descriptor with what is made of it.
ghost use Rattle.std.specs.Prelude.{◌≡◌};
ghost use Rattle.exit_summary.specs.Summaries.{summary_of};
ghost use Rattle.key_port.specs.Answers.{rules};
ghost use Rattle.descriptor_doc.specs.{Checks.IsVerified, Reading.IsRead};
ghost use Rattle.vote_pool.specs.{Kept.{IsHeld, kept_of}, Ranks.rank_of_descriptor, Summaries.family_digest_of};
ghost use Rattle.vote_pool.specs.Summaries.{family_text_of, micro_digest_of, micro_text_of};

use crate::kept::KeptDescriptor;
use crate::rank::DescriptorRank;
use descriptor_doc::Descriptor;
use dir_bytes::Text;
use dir_values::{Digest2, Fingerprint, PortSummary};
use key_port::Verifier;
use std::marker::{Model, PhantomData};
use std::snapshot::Snapshot;

/// The microdescriptor of a relay with families.
#[derive(Drop)]
pub(crate) struct FamilyMicro {
    pub(crate) text: Text,
    pub(crate) digest: Digest2,
}

/// What a pool keeps of a relay.
#[derive(Drop)]
pub(crate) struct Prepared {
    pub(crate) kept: KeptDescriptor,
    pub(crate) summary: PortSummary,
    pub(crate) micro: Text,
    pub(crate) micro_digest: Digest2,
    pub(crate) family: Option<FamilyMicro>,
}

/// What is kept of a relay's descriptor, which holds under a verifier, with the summary of its exit policy, the text and the
/// digest of its microdescriptor, and those of the one with families, where there is one. Contracts see it as the descriptor.
/// To move it is to move a pointer.
#[derive(Drop)]
pub struct PoolEntry<V: Verifier> {
    prepared: Box<Prepared>,
    descriptor: Snapshot<Descriptor>,
    verifier: PhantomData<V>,
}

impl<V: Verifier> Model for PoolEntry<V> {
    ghost use Rattle.key_port.specs.Answers.{rules};
    ghost use Rattle.descriptor_doc.specs.declared.descriptor.Descriptor.{Descriptor};
    ghost use Rattle.vote_pool.specs.Kept.{IsHeld};

    ghost Value = { Descriptor };

    ghost view = { λ e. e.descriptor.value };

    ghost invariant = { λ e. IsHeld (rules V.may_accept V.may_refuse) e.descriptor.value e.prepared.value.kept
        e.prepared.value.summary e.prepared.value.micro e.prepared.value.micro_digest e.prepared.value.family };
}

impl<V: Verifier> PoolEntry<V> {
    /// What was prepared of a descriptor, as one that a pool may keep.
    pub(crate) fn new(prepared: Box<Prepared>, descriptor: Snapshot<Descriptor>) -> PoolEntry<V>
        requires held { IsHeld (rules V.may_accept V.may_refuse) descriptor.value prepared.value.kept prepared.value.summary prepared.value.micro prepared.value.micro_digest prepared.value.family }
        ensures { result ≡ descriptor.value }
    {
        PoolEntry {
            prepared,
            descriptor,
            verifier: PhantomData,
        }
    }

    /// What is kept of the descriptor, which was read and holds.
    pub fn descriptor(&self) -> &KeptDescriptor
        ensures descriptor { result.now ≡ kept_of self.now }
        ensures read { IsRead self.now }
        ensures verified { IsVerified (rules V.may_accept V.may_refuse) self.now }
    {
        &self.prepared.kept
    }

    /// Which ports its exit policy opens to most addresses (dir-spec, the `p` line).
    pub fn summary(&self) -> &PortSummary
        ensures { result.now ≡ summary_of self.now.policy }
    {
        &self.prepared.summary
    }

    /// The text of its microdescriptor by the consensus methods before 35 (dir-spec, "Computing microdescriptors").
    pub fn micro(&self) -> &[u8]
        ensures { result.now ≡ micro_text_of self.now }
    {
        self.prepared.micro.as_bytes()
    }

    /// The digest of that microdescriptor, as votes and requests name it: the SHA-256 of the text.
    pub fn micro_digest(&self) -> &Digest2
        ensures { result.now ≡ micro_digest_of self.now }
    {
        &self.prepared.micro_digest
    }

    /// The text of its microdescriptor by method 35: with the families that its certificates name, where they name one, and
    /// else the same text.
    pub fn family_micro(&self) -> &[u8]
        ensures { result.now ≡ family_text_of self.now }
    {
        match &self.prepared.family {
            Some(family) => family.text.as_bytes(),
            None => self.prepared.micro.as_bytes(),
        }
    }

    /// The digest of that microdescriptor.
    pub fn family_digest(&self) -> &Digest2
        ensures { result.now ≡ family_digest_of self.now }
    {
        match &self.prepared.family {
            Some(family) => &family.digest,
            None => &self.prepared.micro_digest,
        }
    }

    /// The relay's identity.
    pub(crate) fn identity(&self) -> Fingerprint
        ensures { result ≡ self.now.identity }
    {
        self.descriptor().identity
    }

    /// The descriptor's rank.
    pub(crate) fn rank(&self) -> DescriptorRank
        ensures { result ≡ rank_of_descriptor self.now }
    {
        let descriptor = self.descriptor();
        DescriptorRank {
            published: descriptor.published,
            digest: descriptor.digest,
        }
    }
}
