//! Who signed a consensus, by lines of signatures (dir-spec, "Serving and fetching detached signatures").
#![tactic(auto)]

mod choosing;
mod counting;
mod key;

pub use choosing::signers_among;
pub use counting::{VerifierFault, counted, signs};
pub use key::SignerKey;
