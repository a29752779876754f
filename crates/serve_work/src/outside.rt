// What stands outside of an authority's program.

/// What stands outside of an authority's program.
#[derive(Drop)]
pub struct Outside<S: Drop, K: Drop, E: Drop, C: Drop, V: Drop, N: Drop, G: Drop, L: Drop> {
    /// The input.
    pub source: S,
    /// Where the text goes.
    pub sink: K,
    /// Where the line goes that says why there is no text.
    pub errors: E,
    /// The clocks, one for each worker.
    pub clocks: Vec<C>,
    /// What answers whether signatures are right, one for each worker.
    pub verifiers: Vec<V>,
    /// What signs.
    pub signer: N,
    /// What gives connections, one for each worker.
    pub gates: Vec<G>,
    /// What asks other authorities.
    pub link: L,
}
