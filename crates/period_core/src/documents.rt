// The documents of an authority.
ghost use Rattle.std.specs.Prelude.{◌≡◌, IfOk, option_map};
ghost use Rattle.period_terms.specs.Readings as readings;
ghost use Rattle.period_terms.specs.States as states;

use crate::state::PeriodState;
use consensus_terms::Flavour;
use dir_bytes::{Memory, Text};
use dir_values::{Digest1, Fingerprint};
use key_port::Verifier;
use period_terms::Name;
use std::alloc::Global;
use vote_doc::{Accepted, HeldVote};

/// The first of the held votes whose signed part has this SHA-1.
fn named_by<'a>(held: &'a Accepted, digest: &Digest1) -> Option<&'a HeldVote>
    ensures { option_map (λ r. r.now) result ≡ readings.vote_named held.now.votes digest.now }
{
    'votes: for i in 0..held.len() {
        if held.vote(i).vote_digest().0 == digest.0 {
            return Some(held.vote(i));
        }
    }
    None
}

impl<V: Verifier> PeriodState<V> {
    /// The text of a flavour that was published last.
    fn current(&self, flavour: Flavour) -> Option<&[u8]>
        ensures { option_map (λ r. r.now) result ≡ readings.current_of flavour self.now }
    {
        let current = match flavour {
            Flavour::Ns => &self.ns_current,
            Flavour::Microdesc => &self.micro_current,
        };
        match current {
            Some(text) => Some(text.as_bytes()),
            None => None,
        }
    }

    /// The held vote of an authority.
    fn vote_by(&self, authority: &Fingerprint) -> Option<&[u8]>
        ensures { option_map (λ r. r.now) result ≡ readings.vote_text (states.vote_of self.now.votes authority.now) }
    {
        match self.held.vote_of(authority) {
            Some(held) => Some(held.vote().bytes()),
            None => None,
        }
    }

    /// The held vote whose signed part has this SHA-1; of several that of the first authority.
    fn vote_named(&self, digest: &Digest1) -> Option<&[u8]>
        ensures { option_map (λ r. r.now) result ≡ readings.vote_text (readings.vote_named self.now.votes digest.now) }
    {
        match named_by(&self.held, digest) {
            Some(held) => Some(held.vote().bytes()),
            None => None,
        }
    }

    /// The document of a name, if there is one. It takes no memory.
    pub fn document(&self, name: &Name) -> Option<&[u8]>
        ensures { option_map (λ r. r.now) result ≡ readings.document_of self.now name.now }
    {
        match name {
            Name::Vote(authority) => self.vote_by(authority),
            Name::VoteByDigest(digest) => self.vote_named(digest),
            Name::Current(flavour) => self.current(*flavour),
        }
    }

    /// The consensus of a flavour with the signatures that are held, if there are texts.
    ///
    /// # Errors
    /// `Memory` is want of memory.
    pub fn next_consensus(&self, alloc: Global, flavour: Flavour) -> Result<Option<Text>, Memory>
        ensures { IfOk result (λ text. text ≡ readings.next_consensus_of flavour self.now) }
    {
        match self.computed() {
            Some(made) => self.signed_if(alloc, true, flavour, made),
            None => Ok(None),
        }
    }
}
