// What came of the documents that a mirror was given.

/// What came of certificates, one after the other.
#[derive(Clone, Copy, Debug, PartialEq, Eq)]
pub struct CertReport {
    /// How many are held now.
    pub kept: u32,
    /// How many are of no member of the roster, or not greater than the one that was held. They were not checked.
    pub skipped: u32,
    /// How many of the others do not hold.
    pub refused: u32,
}

/// What came of microdescriptors, one after the other.
#[derive(Clone, Copy, Debug, PartialEq, Eq)]
pub struct MicroReport {
    /// How many are held now that were not.
    pub kept: u32,
    /// How many were held already.
    pub had: u32,
    /// How many the held consensus does not name.
    pub unwanted: u32,
}
