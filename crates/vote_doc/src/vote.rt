// A vote: its bytes, and where its texts stand.
ghost use Rattle.std.specs.Prelude.{◌≡◌, ◌≤◌, ◌<◌, ◌^◌, length, option_map, slice_index_or};
ghost use Rattle.dir_bytes.specs.Causes.{last_moment};
ghost use Rattle.dir_values.specs.Numbers.{numbers_in};
ghost use Rattle.vote_terms.specs.{Entries.Ascending, Votes.{rank_of, vote_digest}};
ghost use Rattle.vote_doc.specs.Facts as facts;

use crate::head_values::HeadValues;
use crate::kept::Kept;
use authority_certs::Cert;
use bytes::Bytes;
use dir_values::{Digest1, Digest2, Fingerprint, FlagSet};
use frame_values::{between, moment, part, part_if};
use sha1::Sha1;
use sha2::{Digest, Sha256};
use std::marker::Model;
use value_groups::SharedRandom;
use vote_entries::Entry;
use vote_terms::{Rank, SignatureFacts, VoteLists};

/// A vote (dir-spec, "Vote and consensus status document formats"). Its texts are slices of the bytes of the input, which it shares
/// with it.
#[derive(Drop)]
pub struct Vote {
    pub(crate) bytes: Bytes,
    pub(crate) kept: Kept,
    values: HeadValues,
}

impl Model for Vote {
    ghost use Rattle.vote_terms.specs.Votes.{ReadVote};
    ghost use Rattle.vote_doc.specs.Facts.{IsKept, vote_in};

    ghost Value = { ReadVote };

    ghost view = { λ v. vote_in v.bytes v.kept };

    ghost invariant = { λ v. IsKept v.bytes v.kept.head v.values };
}

impl Vote {
    /// The vote in these bytes, of which this was kept.
    pub(crate) fn new(bytes: Bytes, kept: Kept, values: HeadValues) -> Vote
        requires { facts.IsKept bytes kept.head values }
        ensures { result ≡ facts.vote_in bytes kept }
    {
        Vote {
            bytes,
            kept,
            values,
        }
    }

    /// The bytes from the first item through the last object.
    pub fn bytes(&self) -> &[u8]
        ensures { result.now ≡ self.now.whole }
    {
        between(&self.bytes, self.kept.head.begin, self.kept.head.end)
    }

    /// The part that is signed: from the first item through the one space after `directory-signature`.
    pub fn signed_part(&self) -> &[u8]
        ensures { result.now ≡ self.now.signed }
    {
        between(&self.bytes, self.kept.head.begin, self.kept.head.signed_end)
    }

    /// The rank: `published`, and the SHA-256 of the bytes.
    pub fn rank(&self) -> Rank
        ensures { result ≡ rank_of self.now }
    {
        Rank {
            published: self.published(),
            whole: Digest2(Sha256::digest(self.bytes())),
        }
    }

    /// The SHA-1 of the signed part, which names the vote.
    pub fn vote_digest(&self) -> Digest1
        ensures { result ≡ vote_digest self.now }
    {
        Digest1(Sha1::digest(self.signed_part()))
    }

    /// The text of the `consensus-methods` line, where there is one.
    pub fn methods(&self) -> Option<&[u8]>
        ensures { option_map (λ text. numbers_in text.now) result ≡ self.now.says.methods }
    {
        match self.kept.head.methods {
            Some(span) => Some(part(&self.bytes, span)),
            None => None,
        }
    }

    /// When the vote was published, in seconds since 1970-01-01 00:00:00 UTC.
    pub fn published(&self) -> u64
        ensures value { result ≡ self.now.says.published }
        ensures within { result ≤ last_moment }
    {
        moment(self.kept.head.published)
    }

    /// When the period begins that the vote is for, in seconds since 1970-01-01 00:00:00 UTC.
    pub fn valid_after(&self) -> u64
        ensures value { result ≡ self.now.says.valid_after }
        ensures within { result ≤ last_moment }
    {
        moment(self.kept.head.valid_after)
    }

    /// Until when the consensus is to be fresh, in seconds since 1970-01-01 00:00:00 UTC.
    pub fn fresh_until(&self) -> u64
        ensures value { result ≡ self.now.says.fresh_until }
        ensures within { result ≤ last_moment }
    {
        moment(self.kept.head.fresh_until)
    }

    /// Until when the consensus is to be valid, in seconds since 1970-01-01 00:00:00 UTC.
    pub fn valid_until(&self) -> u64
        ensures value { result ≡ self.now.says.valid_until }
        ensures within { result ≤ last_moment }
    {
        moment(self.kept.head.valid_until)
    }

    /// The seconds for exchanging votes.
    pub fn vote_seconds(&self) -> u32
        ensures { result ≡ self.now.says.vote_seconds }
    {
        self.kept.head.vote_seconds
    }

    /// The seconds for exchanging signatures.
    pub fn dist_seconds(&self) -> u32
        ensures { result ≡ self.now.says.dist_seconds }
    {
        self.kept.head.dist_seconds
    }

    /// The flags that the vote knows.
    pub fn known_flags(&self) -> &FlagSet
        ensures { result.now ≡ self.now.says.known_flags }
    {
        &self.values.known_flags
    }

    /// The lists of versions, protocols and params, of those that the vote has.
    pub fn lists(&self) -> &VoteLists
        ensures { result.now ≡ self.now.says.lists }
    {
        &self.values.lists
    }

    /// The authority's nickname.
    pub fn nickname(&self) -> &[u8]
        ensures { result.now ≡ self.now.says.nickname }
    {
        part(&self.bytes, self.kept.head.source.nickname)
    }

    /// The authority's identity.
    pub fn identity(&self) -> Fingerprint
        ensures { result ≡ self.now.says.identity }
    {
        self.kept.head.source.identity
    }

    /// The name of the authority's host.
    pub fn address(&self) -> &[u8]
        ensures { result.now ≡ self.now.says.address }
    {
        part(&self.bytes, self.kept.head.source.address)
    }

    /// The authority's IPv4 address, its first byte highest.
    pub fn ip(&self) -> u32
        ensures { result ≡ self.now.says.ip }
    {
        self.kept.head.source.ip
    }

    /// The authority's directory port.
    pub fn dir_port(&self) -> u16
        ensures { result ≡ self.now.says.dir_port }
    {
        self.kept.head.source.dir_port
    }

    /// The authority's onion router port.
    pub fn or_port(&self) -> u16
        ensures { result ≡ self.now.says.or_port }
    {
        self.kept.head.source.or_port
    }

    /// The text of the `contact` line, where there is one.
    pub fn contact(&self) -> Option<&[u8]>
        ensures { option_map (λ text. text.now) result ≡ self.now.says.contact }
    {
        part_if(&self.bytes, self.kept.head.contact)
    }

    /// The shared random value of the period before the one that begins, where there is one.
    pub fn random_previous(&self) -> Option<SharedRandom>
        ensures { result ≡ self.now.says.random_previous }
    {
        self.kept.head.random_previous
    }

    /// The shared random value of the period that begins, where there is one.
    pub fn random_current(&self) -> Option<SharedRandom>
        ensures { result ≡ self.now.says.random_current }
    {
        self.kept.head.random_current
    }

    /// How many entries there are.
    pub fn len(&self) -> usize
        ensures value { result ≡ length self.now.says.entries }
        ensures ascending { Ascending self.now.says.entries }
    {
        self.kept.entries.len()
    }

    /// An entry, by its number from 0.
    pub fn entry(&self, i: usize) -> Entry<'_>
        requires { i < length self.now.says.entries }
        ensures { result ≡ slice_index_or self.now.says.entries i result }
    {
        self.kept.entries.entry(&self.bytes, i)
    }

    /// The authority's certificate.
    pub fn certificate(&self) -> &Cert
        ensures { result.now ≡ self.now.says.certificate }
    {
        &self.values.certificate
    }

    /// The certificate's bytes, from its first item through its last object.
    pub fn certificate_bytes(&self) -> &[u8]
        ensures { result.now ≡ self.now.certificate_bytes }
    {
        let certificate = &self.kept.head.certificate;
        between(&self.bytes, certificate.begin, certificate.end)
    }

    /// The signature.
    pub fn signature(&self) -> &SignatureFacts
        ensures { result.now ≡ self.now.says.signature }
    {
        &self.values.signature
    }
}
