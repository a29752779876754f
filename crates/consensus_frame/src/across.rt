// What is remembered across the items of a consensus.
use relay_entries::Listed;

/// What is remembered across the items of a consensus.
#[derive(Debug, Drop)]
pub struct Across {
    /// The relays that are listed so far.
    pub listed: Listed,
    /// Whether a signature stands.
    pub is_signed: bool,
}
