// What comes of a microdescriptor that is handed over.

/// What comes of a microdescriptor that is handed over.
#[derive(Clone, Copy, Debug, PartialEq, Eq)]
pub enum Taken {
    /// Its digest has a row, which had none. It is held now.
    Kept,
    /// Its digest has a row, which has one. That stays.
    Had,
    /// Its digest has no row.
    Unwanted,
}
