// The names of documents.
use consensus_terms::Flavour;
use dir_values::{Digest1, Fingerprint};

/// The name of a document that an authority may hold.
#[derive(Clone, Copy)]
pub enum Name {
    /// The held vote of an authority.
    Vote(Fingerprint),
    /// The held vote whose signed part has this SHA-1.
    VoteByDigest(Digest1),
    /// The consensus of this flavour that was published last.
    Current(Flavour),
}
