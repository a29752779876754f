// Detached signatures: those that are held brought to the peers, and those that a peer gave checked and offered.
ghost use Rattle.std.specs.Prelude.{◌≡◌, ◌≤◌, IfSome};
ghost use Rattle.key_port.specs.Answers.{rules};
ghost use Rattle.serve_board.specs.Boards.{IsAt, Parts};
ghost use Rattle.serve_rounds.specs.{Duties.{IsGathered, TellsAccepted}, Exchanges.BringsSignatures};
ghost use Rattle.serve_rounds.specs.{Keeping.{AddsNothing, Keeps}, Spans.{Adds, Anywhere}};

use crate::lent::{Given, Lent};
use crate::peers::post_to_peers;
use crate::round::Round;
use crate::ruling::Rulers;
use crate::turns::signatures_held;
use checked_sigs::check_signatures;
use dir_http::Link;
use http_words::SIGNATURES_RESPONSE_LIMIT;
use key_port::{Signer, Verifier};
use period_terms::{CheckedSig, PeriodView};
use serve_board::{Board, Pass};
use std::alloc::Global;
use std::sync::Wait;

/// The signatures of a body that the verifier accepted. None where the body is no document of them for the period, or they can't be
/// checked.
pub(crate) fn checked_of<V: Verifier>(
    alloc: Global,
    body: &[u8],
    view: &PeriodView,
    verifier: &mut V,
) -> Option<Vec<CheckedSig<V>>>
    ensures told { IfSome result (λ signatures. TellsAccepted (rules V.may_accept V.may_refuse) V.steps body.now
        view.now signatures.items verifier.old verifier.new) }
    ensures verifier { V.faults verifier.old ≤ V.faults verifier.new }
{
    if body.len() as u64 > SIGNATURES_RESPONSE_LIMIT {
        return None;
    }
    match check_signatures(alloc, body, view, verifier) {
        Ok(report) => Some(report.checked.into_vec()),
        Err(_) => None,
    }
}

/// Offers a signature.
fn sign_in_one<H: Wait, V: Verifier>(
    rt: &H,
    board: &Board<V>,
    pass: &mut Pass<V>,
    signature: CheckedSig<V>,
)
    requires at { IsAt board.now pass.old }
    ensures adds { (a : Parts)
        → Adds (Anywhere (IsGathered (rules V.may_accept V.may_refuse))) a pass.old
        → Adds (Anywhere (IsGathered (rules V.may_accept V.may_refuse))) a pass.new }
    ensures at { IsAt board.now pass.new }
{
    let _accepted = signature.signature();
    let _named = signature.key_digest();
    let _ = board.sign_in(rt, pass, signature);
}

/// Offers signatures one by one.
pub(crate) fn sign_in_all<H: Wait, V: Verifier>(
    rt: &H,
    board: &Board<V>,
    pass: &mut Pass<V>,
    signatures: Vec<CheckedSig<V>>,
)
    requires at { IsAt board.now pass.old }
    ensures adds { (a : Parts)
        → Adds (Anywhere (IsGathered (rules V.may_accept V.may_refuse))) a pass.old
        → Adds (Anywhere (IsGathered (rules V.may_accept V.may_refuse))) a pass.new }
    ensures at { IsAt board.now pass.new }
{
    'signatures: for signature in signatures {
        sign_in_one(rt, board, pass, signature);
    }
}

/// Brings the signatures that are held to each peer, once in a period, behind the own signing. Where there is no memory it is tried
/// again the next time.
pub(crate) fn post_once<H: Wait, W: Rulers, V: Verifier, N: Signer, L: Link>(
    given: &Given<H, W, V>,
    lent: &mut Lent<V, N, L>,
    round: &mut Round,
)
    requires at { IsAt given.now.board.now lent.old.pass.now }
    ensures keeps { Keeps V.faults N.faults L.faults given.now.board.now lent.old lent.new }
    ensures none { AddsNothing lent.old lent.new }
    ensures brings { BringsSignatures (rules V.may_accept V.may_refuse) given.now.station.now given.now.board.now L.steps
        lent.old.pass.now lent.new.pass.now round.old round.new lent.old.link.now lent.new.link.now }
    ensures round { round.new.valid_after ≡ round.old.valid_after }
{
    if !round.must_bring() {
        return;
    }
    let Ok(Some(text)) = signatures_held(given.rt, given.alloc, given.board, &mut *lent.pass) else {
        return;
    };
    round.posted = true;
    let path = b"/tor/post/consensus-signature";
    post_to_peers(
        given.alloc,
        given.station,
        &mut *lent.link,
        path,
        text.as_bytes(),
    );
}
