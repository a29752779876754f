//! Consensuses: reading one of either flavour, and their texts.
#![tactic(auto)]

mod draft;
mod preamble;
mod reading;
mod router;
mod says;
mod source;

pub use consensus_frame::{ConsensusFrame, ConsensusKind, ConsensusSection, ConsensusValue};
pub use consensus_terms::{
    Consensus, ConsensusFacts, ConsensusLists, Digests, Flavour, Routerline, SignatureLine,
    SignedConsensus, SourceLine,
};
pub use consensus_text::{digests, write_facts, write_signed};
pub use reading::{flavour_of, read};
