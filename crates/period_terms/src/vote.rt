// A vote that is offered.
use dir_bytes::Text;
use std::marker::Model;
use vote_terms::VoteFacts;

/// A vote that was read and checked. Contracts see it as what `vote_doc` gives.
#[derive(Drop)]
pub struct OfferedVote {
    /// The bytes from the first item through the last object.
    pub whole: Text,
    /// Of these the part that is signed.
    pub signed: Text,
    /// Those of its certificate.
    pub certificate_bytes: Text,
    /// What it says.
    pub says: VoteFacts,
}

impl Model for OfferedVote {
    ghost use Rattle.vote_terms.specs.Votes.{ReadVote};

    ghost Value = { ReadVote };

    ghost view = { λ v. record { whole = v.whole; signed = v.signed; certificate_bytes = v.certificate_bytes; says = v.says } };
}
