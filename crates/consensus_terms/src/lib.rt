//! What a consensus says: the plain records, and in `specs/` the definitions of its texts. No vote stands below it.
#![tactic(auto)]

mod consensus;
mod flavour;
mod methods;
mod router;
mod signature;

pub use bw_weights::Weights;
pub use consensus::{Consensus, ConsensusFacts, ConsensusLists, SignedConsensus, SourceLine};
pub use flavour::Flavour;
pub use methods::is_34_or_later;
pub use router::{Bandwidth, Routerline};
pub use signature::{Digests, SignatureLine};
