// The votes that an authority lacks, fetched from its peers.
ghost use Rattle.std.specs.Prelude.{◌≡◌, ◌≤◌, ◌++◌, ◌∷◌, [], None, IfOk, IfSome, codes};
ghost use Rattle.key_port.specs.Answers.{rules};
ghost use Rattle.dir_values.specs.Digests.{fingerprint_text};
ghost use Rattle.vote_terms.specs.Acceptable.{IsVerified};
ghost use Rattle.serve_board.specs.Boards.{IsAt};
ghost use Rattle.vote_schedule.specs.declared.phase.Phase.TheVariants as phases;
ghost use Rattle.serve_rounds.specs.{Duties.{IsFetched, StandsAlone}, Exchanges.MayAsk, Keeping.{AddsTo, AsksOf}};
ghost use Rattle.serve_rounds.specs.{Keeping.Keeps, Plans.{GetVote, all_votes, marked_phase, plan_of_phase}};
ghost use Rattle.serve_rounds.specs.{Plans.{request_of, votes_at}, Spans.Anywhere};

use crate::lent::{Given, Lent};
use crate::peers::{address_of, body_of};
use crate::round::Round;
use crate::ruling::Rulers;
use crate::turns::is_held;
use dir_bytes::Memory;
use dir_http::Link;
use dir_values::Fingerprint;
use http_words::VOTE_RESPONSE_LIMIT;
use key_port::{Signer, Verifier};
use lone_vote::lone_vote;
use period_terms::Via;
use serve_board::Board;
use std::alloc::Global;
use std::sync::Wait;
use vote_doc::{CheckedVote, check_vote};

/// The path of the vote of an authority.
fn path_of(alloc: Global, authority: &Fingerprint) -> Result<Vec<u8>, Memory>
    ensures { IfOk result (λ path. path.items ≡ codes "/tor/status-vote/next/" ++ fingerprint_text authority.now) }
{
    let mut path = Vec::from_slice(alloc, b"/tor/status-vote/next/")?;
    authority.push(&mut path)?;
    Ok(path)
}

/// The body of a peer's response to the request for the vote of an authority, where its code is 200.
fn vote_body<L: Link>(
    alloc: Global,
    link: &mut L,
    address: &[u8],
    authority: &Fingerprint,
) -> Option<Vec<u8>>
    ensures asks { MayAsk L.steps address.now (request_of (GetVote authority.now)) 16793600 link.old link.new }
    ensures faults { L.faults link.old ≤ L.faults link.new }
{
    match path_of(alloc, authority) {
        Ok(path) => body_of(alloc, link, address, &path, VOTE_RESPONSE_LIMIT),
        Err(_) => None,
    }
}

/// The vote of an authority that a peer gives, with nothing but blank lines behind it, checked for the period. None where it
/// gives none that is acceptable, or there is no memory.
fn vote_of_peer<V: Verifier, L: Link>(
    alloc: Global,
    board: &Board<V>,
    address: &[u8],
    authority: &Fingerprint,
    valid_after: u64,
    verifier: &mut V,
    link: &mut L,
) -> Option<CheckedVote<V>>
    ensures alone { IfSome result (λ vote. StandsAlone vote) }
    ensures verified { IfSome result (λ vote. IsVerified (rules V.may_accept V.may_refuse) vote) }
    ensures verifier { V.faults verifier.old ≤ V.faults verifier.new }
    ensures asks { MayAsk L.steps address.now (request_of (GetVote authority.now)) 16793600 link.old link.new }
    ensures link { L.faults link.old ≤ L.faults link.new }
{
    let Some(body) = vote_body(alloc, link, address, authority) else {
        return None;
    };
    let Ok(Some(vote)) = lone_vote(alloc, &body) else {
        return None;
    };
    match check_vote(vote, board.roster(), valid_after, verifier) {
        Ok(checked) => Some(checked),
        Err(_) => None,
    }
}

/// Asks a peer for the vote of an authority, where none is held, and offers what it gives.
fn fetch_vote<H: Wait, W: Rulers, V: Verifier, N: Signer, L: Link>(
    given: &Given<H, W, V>,
    lent: &mut Lent<V, N, L>,
    address: &[u8],
    authority: &Fingerprint,
    valid_after: u64,
)
    requires at { IsAt given.now.board.now lent.old.pass.now }
    ensures keeps { Keeps V.faults N.faults L.faults given.now.board.now lent.old lent.new }
    ensures adds { AddsTo (Anywhere (IsFetched (rules V.may_accept V.may_refuse) given.now.moment)) lent.old lent.new }
    ensures asks { AsksOf L.steps (rules V.may_accept V.may_refuse) given.now.board.now
        ((address.now, GetVote authority.now) ∷ []) lent.old lent.new }
{
    if is_held(given.rt, given.board, &mut *lent.pass, *authority) {
        return;
    }
    let Some(vote) = vote_of_peer(
        given.alloc,
        given.board,
        address,
        authority,
        valid_after,
        &mut *lent.verifier,
        &mut *lent.link,
    ) else {
        return;
    };
    let _ = given.board.offer(given.rt, &mut *lent.pass, vote, Via::Fetched, given.moment);
}

/// Asks a peer for the vote of each authority of which none is held, and offers what it gives.
fn fetch_from<H: Wait, W: Rulers, V: Verifier, N: Signer, L: Link>(
    given: &Given<H, W, V>,
    lent: &mut Lent<V, N, L>,
    address: &[u8],
    valid_after: u64,
)
    requires at { IsAt given.now.board.now lent.old.pass.now }
    ensures keeps { Keeps V.faults N.faults L.faults given.now.board.now lent.old lent.new }
    ensures adds { AddsTo (Anywhere (IsFetched (rules V.may_accept V.may_refuse) given.now.moment)) lent.old lent.new }
    ensures asks { AsksOf L.steps (rules V.may_accept V.may_refuse) given.now.board.now
        (votes_at given.now.station.now.authorities address.now) lent.old lent.new }
{
    'votes: for member in given.station.authorities.as_slice() {
        fetch_vote(given, lent, address, &member.identity, valid_after);
    }
}

/// Asks each peer in turn, in the input's order, for the votes of which none is held.
fn fetch_all<H: Wait, W: Rulers, V: Verifier, N: Signer, L: Link>(
    given: &Given<H, W, V>,
    lent: &mut Lent<V, N, L>,
    valid_after: u64,
)
    requires at { IsAt given.now.board.now lent.old.pass.now }
    ensures keeps { Keeps V.faults N.faults L.faults given.now.board.now lent.old lent.new }
    ensures adds { AddsTo (Anywhere (IsFetched (rules V.may_accept V.may_refuse) given.now.moment)) lent.old lent.new }
    ensures asks { AsksOf L.steps (rules V.may_accept V.may_refuse) given.now.board.now (all_votes given.now.station.now)
        lent.old lent.new }
{
    'peers: for peer in given.station.authorities.as_slice() {
        if let Some(address) = address_of(given.station, peer) {
            fetch_from(given, lent, address, valid_after);
        }
    }
}

/// Fetches the votes of which none is held, once in a period.
pub(crate) fn fetch_once<H: Wait, W: Rulers, V: Verifier, N: Signer, L: Link>(
    given: &Given<H, W, V>,
    lent: &mut Lent<V, N, L>,
    round: &mut Round,
)
    requires at { IsAt given.now.board.now lent.old.pass.now }
    ensures keeps { Keeps V.faults N.faults L.faults given.now.board.now lent.old lent.new }
    ensures adds { AddsTo (Anywhere (IsFetched (rules V.may_accept V.may_refuse) given.now.moment)) lent.old lent.new }
    ensures asks { AsksOf L.steps (rules V.may_accept V.may_refuse) given.now.board.now
        (plan_of_phase given.now.station.now None phases.Fetching round.old) lent.old lent.new }
    ensures marks { round.new ≡ marked_phase None phases.Fetching round.old }
{
    if round.fetched {
        return;
    }
    round.fetched = true;
    fetch_all(given, lent, round.valid_after);
}
