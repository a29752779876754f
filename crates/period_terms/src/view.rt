// What signatures of a period are checked against.
use detached_sigs::SignerKey;
use dir_bytes::Seq;
use dir_values::{Digest1, Digest2};

/// What signatures of a period are checked against.
#[derive(Drop)]
pub struct PeriodView {
    /// When the period begins, in seconds since 1970-01-01 00:00:00 UTC.
    pub valid_after: u64,
    /// The digest that signatures of the ns flavour are over.
    pub ns: Digest1,
    /// The digest that those of the microdesc flavour are over.
    pub microdesc: Digest2,
    /// The signing keys of the held votes.
    pub keys: Seq<SignerKey>,
}
