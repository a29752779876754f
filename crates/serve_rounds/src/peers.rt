// What is asked of the peers of an authority, and brought to them.
ghost use Rattle.std.specs.Prelude.{◌≡◌, ◌≤◌, option_map};
ghost use Rattle.dir_http.specs.Responses.{get_text, post_text};
ghost use Rattle.serve_rounds.specs.Plans as plans;
ghost use Rattle.serve_rounds.specs.{Exchanges.{AsksSome, MayAsk, Whatever}, Plans.{Asking, limit_of, peers_of}};
ghost use Rattle.serve_rounds.specs.Plans.{request_of, to_each};

use dir_http::{Link, fetch, post};
use station_input::{Peer, StationFacts};
use std::alloc::Global;

/// The address of an authority that is a peer: one that has an address, and is not the own one.
pub(crate) fn address_of<'a>(station: &StationFacts, peer: &'a Peer) -> Option<&'a [u8]>
    ensures { option_map (λ address. address.now) result ≡ plans.address_of station.now.identity peer.now }
{
    if peer.identity.is_same(&station.identity) {
        return None;
    }
    match &peer.address {
        Some(address) => Some(address.as_bytes()),
        None => None,
    }
}

/// Brings a body to a path of a peer, by one exchange or none. What it answers is passed over.
fn bring<L: Link>(alloc: Global, link: &mut L, address: &[u8], path: &[u8], body: &[u8])
    ensures asks { MayAsk L.steps address.now (post_text path.now body.now) 65536 link.old link.new }
    ensures faults { L.faults link.old ≤ L.faults link.new }
{
    let _ = post(alloc, link, address, path, body);
}

/// Brings a body to a path of each peer, in the input's order. A failing peer is passed over.
pub(crate) fn post_to_peers<L: Link>(
    alloc: Global,
    station: &StationFacts,
    link: &mut L,
    path: &[u8],
    body: &[u8],
)
    ensures asks { (asking : Asking) → request_of asking ≡ post_text path.now body.now → limit_of asking ≡ 65536
        → AsksSome L.steps Whatever (to_each (peers_of station.now) asking) link.old link.new }
    ensures faults { L.faults link.old ≤ L.faults link.new }
{
    'peers: for peer in station.authorities.as_slice() {
        if let Some(address) = address_of(station, peer) {
            bring(alloc, link, address, path, body);
        }
    }
}

/// The body of a peer's response to a path, where its code is 200.
pub(crate) fn body_of<L: Link>(
    alloc: Global,
    link: &mut L,
    address: &[u8],
    path: &[u8],
    limit: u64,
) -> Option<Vec<u8>>
    ensures asks { MayAsk L.steps address.now (get_text path.now) limit link.old link.new }
    ensures faults { L.faults link.old ≤ L.faults link.new }
{
    match fetch(alloc, link, address, path, limit) {
        Ok(response) => {
            if response.code == 200 {
                Some(response.body)
            } else {
                None
            }
        }
        Err(_) => None,
    }
}
