// What stands outside of a mirror's program.

/// What stands outside of a mirror's program.
#[derive(Drop)]
pub struct MirrorOutside<C: Drop, V: Drop, G: Drop, L: Drop, E: Drop> {
    /// The clock, by which certificates are checked.
    pub clock: C,
    /// What answers whether signatures are right.
    pub verifier: V,
    /// What gives connections.
    pub gate: G,
    /// What asks the peers.
    pub link: L,
    /// Where the line goes that says how the run ended.
    pub errors: E,
}
