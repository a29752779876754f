// The own vote: read, checked, offered, and brought to the peers.
ghost use Rattle.std.specs.Prelude.{◌≡◌, IfSome};
ghost use Rattle.key_port.specs.Answers.{rules};
ghost use Rattle.serve_board.specs.{Boards.{IsAt, Parts}, Going.Goes};
ghost use Rattle.serve_rounds.specs.{Duties.IsOwn, Exchanges.{DoesPhase, IsOwnText}, Keeping.{AddsNothing, AddsTo}};
ghost use Rattle.serve_rounds.specs.{Keeping.Keeps, OwnVotes.{IsOwnVote, IsPeriodOf}, Spans.Since};
ghost use Rattle.vote_schedule.specs.declared.phase.Phase.TheVariants as phases;

use crate::lent::{Given, Lent};
use crate::making::own_text;
use crate::peers::post_to_peers;
use crate::round::Round;
use crate::ruling::Rulers;
use dir_http::Link;
use key_port::{Signer, Verifier};
use lone_vote::lone_vote;
use period_terms::{Offer, Via};
use std::sync::Wait;
use vote_doc::{CheckedVote, check_vote};

/// The own vote, checked, and its text, which is that vote with nothing but blank lines behind it. None where none can be
/// made, what was made is refused, or there is no memory. No peer is asked.
fn own_vote<H: Wait, W: Rulers, V: Verifier, N: Signer, L: Link>(
    given: &Given<H, W, V>,
    lent: &mut Lent<V, N, L>,
    valid_after: u64,
) -> Option<(CheckedVote<V>, Vec<u8>)>
    requires at { IsAt given.now.board.now lent.old.pass.now }
    ensures own { IfSome result (λ found. IsOwnVote (rules V.may_accept V.may_refuse) N.may_give N.steps (W.allows
        given.now.ruler.now) given.now.station.now given.now.board.now lent.old.pass.now lent.new.pass.now valid_after
        given.now.moment found.0) }
    ensures text { IfSome result (λ found. IsOwnText (rules V.may_accept V.may_refuse) N.may_give N.steps (W.allows
        given.now.ruler.now) given.now.station.now given.now.board.now lent.old.pass.now lent.new.pass.now valid_after
        given.now.moment found.1.items) }
    ensures none { AddsNothing lent.old lent.new }
    ensures keeps { Keeps V.faults N.faults L.faults given.now.board.now lent.old lent.new }
    ensures link { lent.new.link.now ≡ lent.old.link.now }
{
    let Some(text) = own_text(given, lent, valid_after) else {
        return None;
    };
    let Ok(Some(vote)) = lone_vote(given.alloc, &text) else {
        return None;
    };
    match check_vote(vote, given.board.roster(), valid_after, &mut *lent.verifier) {
        Ok(checked) => Some((checked, text)),
        Err(_) => None,
    }
}

/// Whether an offered vote was taken, or is held already.
fn is_taken(answer: Offer) -> bool {
    matches!(
        answer,
        Offer::Kept { .. } | Offer::Replaced { .. } | Offer::Have { .. }
    )
}

/// Makes the own vote and offers it. Its text, where it was taken. No peer is asked.
fn offer_own<H: Wait, W: Rulers, V: Verifier, N: Signer, L: Link>(
    given: &Given<H, W, V>,
    lent: &mut Lent<V, N, L>,
    valid_after: u64,
) -> Option<Vec<u8>>
    requires at { IsAt given.now.board.now lent.old.pass.now }
    ensures adds { (from : Parts) → Goes from lent.old.pass.now
        → IsPeriodOf (rules V.may_accept V.may_refuse) given.now.board.now from lent.old.pass.now valid_after
        → AddsTo (Since from (IsOwn (rules V.may_accept V.may_refuse) N.may_give N.steps (W.allows given.now.ruler.now)
        given.now.station.now given.now.board.now given.now.moment)) lent.old lent.new }
    ensures text { IfSome result (λ text. IsOwnText (rules V.may_accept V.may_refuse) N.may_give N.steps (W.allows
        given.now.ruler.now) given.now.station.now given.now.board.now lent.old.pass.now lent.new.pass.now valid_after
        given.now.moment text.items) }
    ensures keeps { Keeps V.faults N.faults L.faults given.now.board.now lent.old lent.new }
    ensures link { lent.new.link.now ≡ lent.old.link.now }
{
    let Some((vote, text)) = own_vote(given, lent, valid_after) else {
        return None;
    };
    let answer = given
        .board
        .offer(given.rt, &mut *lent.pass, vote, Via::Own, given.moment);
    if is_taken(answer) { Some(text) } else { None }
}

/// Makes the own vote, offers it and brings it to each peer, once in a period. Where it is refused, or there is no memory, it is tried
/// again the next time.
pub(crate) fn vote_once<H: Wait, W: Rulers, V: Verifier, N: Signer, L: Link>(
    given: &Given<H, W, V>,
    lent: &mut Lent<V, N, L>,
    round: &mut Round,
)
    requires at { IsAt given.now.board.now lent.old.pass.now }
    ensures keeps { Keeps V.faults N.faults L.faults given.now.board.now lent.old lent.new }
    ensures adds { (from : Parts) → Goes from lent.old.pass.now
        → IsPeriodOf (rules V.may_accept V.may_refuse) given.now.board.now from lent.old.pass.now round.old.valid_after
        → AddsTo (Since from (IsOwn (rules V.may_accept V.may_refuse) N.may_give N.steps (W.allows given.now.ruler.now)
        given.now.station.now given.now.board.now given.now.moment)) lent.old lent.new }
    ensures does { DoesPhase (rules V.may_accept V.may_refuse) N.may_give N.steps (W.allows given.now.ruler.now)
        given.now.station.now given.now.board.now L.steps lent.old.pass.now lent.new.pass.now phases.Voting
        given.now.moment round.old round.new lent.old.link.now lent.new.link.now }
{
    if round.voted {
        return;
    }
    let Some(text) = offer_own(given, lent, round.valid_after) else {
        return;
    };
    round.voted = true;
    post_to_peers(
        given.alloc,
        given.station,
        &mut *lent.link,
        b"/tor/post/vote",
        &text,
    );
}
