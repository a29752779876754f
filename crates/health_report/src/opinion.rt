// What an authority says of a relay.
use dir_values::{Fingerprint, FlagSet};

/// What an authority whose vote lists a relay says of it.
#[derive(Debug, Drop)]
pub struct Opinion {
    /// The identity of the authority.
    pub authority: Fingerprint,
    /// The flags that its vote sets there.
    pub flags: FlagSet,
}
