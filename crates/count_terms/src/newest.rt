// The newest consensus method that is known.

/// The newest consensus method that an authority knows: it knows 32, and each from there up to this one.
#[derive(Clone, Copy, Debug, PartialEq, Eq)]
pub enum Newest {
    /// 33.
    Method33,
    /// 34.
    Method34,
    /// 35.
    Method35,
}
