// What the duties of an authority are done with.

use key_port::Verifier;
use serve_board::{Board, Pass};
use station_input::StationFacts;
use std::alloc::Global;

/// What is given for the duties, and stays as it is: the board, what the station is given, the rules, and the moment.
#[derive(Drop)]
pub(crate) struct Given<'a, H, W, V: Verifier> {
    pub(crate) rt: &'a H,
    pub(crate) alloc: Global,
    pub(crate) board: &'a Board<V>,
    pub(crate) station: &'a StationFacts,
    pub(crate) ruler: &'a W,
    pub(crate) moment: u64,
}

/// What is lent for the duties, and changes: a pass of the board, what verifies, what signs, and what asks the peers.
#[derive(Drop)]
pub(crate) struct Lent<'a, 'b, 'c, 'd, V: Verifier, N, L> {
    pub(crate) pass: &'a mut Pass<V>,
    pub(crate) verifier: &'b mut V,
    pub(crate) signer: &'c mut N,
    pub(crate) link: &'d mut L,
}
