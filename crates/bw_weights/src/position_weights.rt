// The weights of a consensus.

/// How much of a relay's bandwidth counts in each position, in units of 1/`scale`. The first letter is the position, of
/// a guard, in the middle or of an exit, and the second the relay's class: a guard alone, an exit alone, or both (D).
#[derive(Clone, Copy, Debug, PartialEq, Eq)]
pub struct Weights {
    pub wgd: u32,
    pub wed: u32,
    pub wmd: u32,
    pub wme: u32,
    pub wmg: u32,
    pub wgg: u32,
    pub wee: u32,
    pub scale: u32,
}
