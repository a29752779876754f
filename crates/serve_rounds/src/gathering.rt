// The signatures of other authorities, fetched from the peers.
ghost use Rattle.std.specs.Prelude.{◌≡◌, None};
ghost use Rattle.key_port.specs.Answers.{rules};
ghost use Rattle.serve_board.specs.Boards.{IsAt};
ghost use Rattle.vote_schedule.specs.declared.phase.Phase.TheVariants as phases;
ghost use Rattle.serve_rounds.specs.{Duties.IsGathered, Exchanges.{AsksSome, MayAsk, Whatever}, Keeping.AddsTo};
ghost use Rattle.serve_rounds.specs.{Keeping.Keeps, Plans.{GetSignatures, marked_phase, peers_of, plan_of_phase}};
ghost use Rattle.serve_rounds.specs.{Plans.{request_of, to_each}, Spans.Anywhere};

use crate::lent::{Given, Lent};
use crate::peers::{address_of, body_of};
use crate::round::Round;
use crate::ruling::Rulers;
use crate::signatures::{checked_of, sign_in_all};
use dir_http::Link;
use http_words::SIGNATURES_RESPONSE_LIMIT;
use key_port::{Signer, Verifier};
use std::sync::Wait;

/// Asks a peer for the signatures that it holds, and offers those that are accepted.
fn gather_from<H: Wait, W: Rulers, V: Verifier, N: Signer, L: Link>(
    given: &Given<H, W, V>,
    lent: &mut Lent<V, N, L>,
    address: &[u8],
)
    requires at { IsAt given.now.board.now lent.old.pass.now }
    ensures keeps { Keeps V.faults N.faults L.faults given.now.board.now lent.old lent.new }
    ensures adds { AddsTo (Anywhere (IsGathered (rules V.may_accept V.may_refuse))) lent.old lent.new }
    ensures asks { MayAsk L.steps address.now (request_of GetSignatures) 1064960 lent.old.link.now lent.new.link.now }
{
    let path = b"/tor/status-vote/next/consensus-signatures";
    let Some(body) = body_of(
        given.alloc,
        &mut *lent.link,
        address,
        path,
        SIGNATURES_RESPONSE_LIMIT,
    ) else {
        return;
    };
    let Ok(Some(view)) = given.board.view(given.rt, given.alloc, &mut *lent.pass) else {
        return;
    };
    let Some(signatures) = checked_of(given.alloc, &body, &view, &mut *lent.verifier) else {
        return;
    };
    sign_in_all(given.rt, given.board, &mut *lent.pass, signatures);
}

/// Asks each peer for the signatures that it holds, in the input's order.
fn gather_all<H: Wait, W: Rulers, V: Verifier, N: Signer, L: Link>(
    given: &Given<H, W, V>,
    lent: &mut Lent<V, N, L>,
)
    requires at { IsAt given.now.board.now lent.old.pass.now }
    ensures keeps { Keeps V.faults N.faults L.faults given.now.board.now lent.old lent.new }
    ensures adds { AddsTo (Anywhere (IsGathered (rules V.may_accept V.may_refuse))) lent.old lent.new }
    ensures asks { AsksSome L.steps Whatever (to_each (peers_of given.now.station.now) GetSignatures) lent.old.link.now
        lent.new.link.now }
{
    'peers: for peer in given.station.authorities.as_slice() {
        if let Some(address) = address_of(given.station, peer) {
            gather_from(given, lent, address);
        }
    }
}

/// Fetches the signatures of other authorities, once in a period.
pub(crate) fn gather_once<H: Wait, W: Rulers, V: Verifier, N: Signer, L: Link>(
    given: &Given<H, W, V>,
    lent: &mut Lent<V, N, L>,
    round: &mut Round,
)
    requires at { IsAt given.now.board.now lent.old.pass.now }
    ensures keeps { Keeps V.faults N.faults L.faults given.now.board.now lent.old lent.new }
    ensures adds { AddsTo (Anywhere (IsGathered (rules V.may_accept V.may_refuse))) lent.old lent.new }
    ensures asks { AsksSome L.steps Whatever (plan_of_phase given.now.station.now None phases.FetchingSignatures
        round.old) lent.old.link.now lent.new.link.now }
    ensures marks { round.new ≡ marked_phase None phases.FetchingSignatures round.old }
{
    if round.gathered {
        return;
    }
    round.gathered = true;
    gather_all(given, lent);
}
