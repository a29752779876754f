// A consensus that is computed, with its texts and their digests.
ghost use Rattle.std.specs.Prelude.{◌≡◌, ◌≤◌, IfOk, length};
ghost use Rattle.consensus_terms.specs.Moments.{HasMoments};
ghost use Rattle.consensus_terms.specs.Texts as texts;
ghost use Rattle.period_terms.specs.States as states;
ghost use Rattle.consensus_terms.specs.declared.flavour.Flavour.TheVariants as flavour;

use consensus_terms::{Consensus, ConsensusFacts, Flavour};
use consensus_text::{digests, unsigned};
use dir_bytes::{Memory, Text};
use dir_values::{Digest1, Digest2};
use period_terms::ShortBytes;
use std::alloc::Global;
use std::marker::Model;

/// A consensus that is computed, with its texts and their digests.
#[derive(Drop)]
pub struct Made {
    consensus: Consensus,
    ns: Text,
    microdesc: Text,
    sha1: Digest1,
    sha256: Digest2,
}

impl Model for Made {
    ghost use Rattle.std.specs.Prelude.{◌≡◌};
    ghost use Rattle.consensus_terms.specs.{Texts.unsigned, declared.consensus.Consensus.Consensus};
    ghost use Rattle.period_terms.specs.States.{digest_of};
    ghost use Rattle.consensus_terms.specs.declared.flavour.Flavour.TheVariants as flavour;

    ghost Value = { Consensus };

    ghost view = { λ m. m.consensus };

    ghost invariant = { λ m.
        (m.ns ≡ unsigned flavour.Ns m.consensus) × (m.microdesc ≡ unsigned flavour.Microdesc m.consensus)
        × (m.sha1.0 ≡ digest_of flavour.Ns m.consensus) × (m.sha256.0 ≡ digest_of flavour.Microdesc m.consensus) };
}

impl Made {
    /// A consensus with its texts.
    #[tactic(auto, unfolding(period_terms::specs::States::text_digest))]
    pub fn new(alloc: Global, consensus: Consensus) -> Result<Made, Memory>
        requires { HasMoments consensus.facts }
        ensures { IfOk result (λ made. made ≡ consensus) }
    {
        let ns = Text::new(unsigned(alloc, &consensus, Flavour::Ns)?);
        let microdesc = Text::new(unsigned(alloc, &consensus, Flavour::Microdesc)?);
        let sha1 = digests(ns.as_bytes()).sha1;
        let sha256 = digests(microdesc.as_bytes()).sha256;
        Ok(Made {
            consensus,
            ns,
            microdesc,
            sha1,
            sha256,
        })
    }

    /// What it says of itself.
    pub fn facts(&self) -> &ConsensusFacts
        ensures { result.now ≡ self.now.facts }
    {
        &self.consensus.facts
    }

    /// The text of a flavour.
    pub fn text(&self, flavour: Flavour) -> &[u8]
        ensures { result.now ≡ texts.unsigned flavour self.now }
    {
        match flavour {
            Flavour::Ns => self.ns.as_bytes(),
            Flavour::Microdesc => self.microdesc.as_bytes(),
        }
    }

    /// The digest of that of the ns flavour.
    pub fn sha1(&self) -> &[u8; 20]
        ensures { result.now ≡ states.digest_of flavour.Ns self.now }
    {
        &self.sha1.0
    }

    /// The digest of that of the microdesc flavour.
    pub fn sha256(&self) -> &[u8; 32]
        ensures { result.now ≡ states.digest_of flavour.Microdesc self.now }
    {
        &self.sha256.0
    }

    /// The digest of that of a flavour.
    pub fn digest(&self, flavour: Flavour) -> ShortBytes
        ensures { result ≡ states.digest_of flavour self.now }
    {
        match flavour {
            Flavour::Ns => ShortBytes::of(&self.sha1.0),
            Flavour::Microdesc => ShortBytes::of(&self.sha256.0),
        }
    }
}
