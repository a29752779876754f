// The duties of an authority, once.
ghost use Rattle.std.specs.Prelude.{◌≡◌, ◌≤◌, Ok};
ghost use Rattle.dir_bytes.specs.Causes.{Counts, Rose};
ghost use Rattle.key_port.specs.Answers.{rules};
ghost use Rattle.serve_board.specs.{Boards.{IsAt, Parts}, Going.Goes};
ghost use Rattle.serve_rounds.specs.{Duties.{Duties, IsRound}, Exchanges.{AsksAs, AsksPeers, DoesPhase}};
ghost use Rattle.serve_rounds.specs.{Keeping.{AddsTo, Keeps}, OwnVotes.IsPeriodOf, Plans.phase_in, Spans.Since};

use crate::advancing::advance_all;
use crate::fetching::fetch_once;
use crate::gathering::gather_once;
use crate::lent::{Given, Lent};
use crate::round::Round;
use crate::ruling::Rulers;
use crate::signatures::post_once;
use crate::voting::vote_once;
use dir_bytes::{Clock, Memory};
use dir_http::Link;
use flag_rules::Hook;
use key_port::{Signer, Verifier};
use period_terms::Advance;
use serve_board::{Board, Pass};
use station_input::StationFacts;
use std::alloc::Global;
use std::sync::Wait;
use vote_schedule::{Config, Phase, phase_at};

/// The phase of a station's period at a moment. `Waiting` where its three numbers are no schedule.
fn phase_of(station: &StationFacts, valid_after: u64, now: u64) -> Phase
    ensures { result ≡ phase_in station.now valid_after now }
{
    match Config::new(station.interval, station.vote_seconds, station.dist_seconds) {
        Ok(schedule) => phase_at(&schedule, valid_after, now),
        Err(_) => Phase::Waiting,
    }
}

/// Does what the phase of a round's period at a moment asks for, and was not done yet.
fn work_in_phase<H: Wait, W: Rulers, V: Verifier, N: Signer, L: Link>(
    given: &Given<H, W, V>,
    lent: &mut Lent<V, N, L>,
    round: &mut Round,
)
    requires at { IsAt given.now.board.now lent.old.pass.now }
    ensures keeps { Keeps V.faults N.faults L.faults given.now.board.now lent.old lent.new }
    ensures adds { (from : Parts) → Goes from lent.old.pass.now
        → IsPeriodOf (rules V.may_accept V.may_refuse) given.now.board.now from lent.old.pass.now round.old.valid_after
        → AddsTo (Since from (IsRound (rules V.may_accept V.may_refuse) N.may_give N.steps (W.allows
        given.now.ruler.now) given.now.station.now given.now.board.now given.now.moment)) lent.old lent.new }
    ensures does { DoesPhase (rules V.may_accept V.may_refuse) N.may_give N.steps (W.allows given.now.ruler.now)
        given.now.station.now given.now.board.now L.steps lent.old.pass.now lent.new.pass.now (phase_in
        given.now.station.now round.old.valid_after given.now.moment) given.now.moment round.old round.new
        lent.old.link.now lent.new.link.now }
{
    match phase_of(given.station, round.valid_after, given.moment) {
        Phase::Voting => vote_once(given, lent, round),
        Phase::Fetching => fetch_once(given, lent, round),
        Phase::FetchingSignatures => gather_once(given, lent, round),
        Phase::Waiting | Phase::Signing | Phase::Past => (),
    }
}

/// Does the duties of the period that the board is in, each once: in `Voting` the own vote, in `Fetching` the votes that lack, behind
/// the own signing the signatures that are held, and in `FetchingSignatures` those of the peers.
fn work<H: Wait, W: Rulers, V: Verifier, N: Signer, L: Link>(
    given: &Given<H, W, V>,
    lent: &mut Lent<V, N, L>,
    round: &mut Round,
    signed: bool,
)
    requires at { IsAt given.now.board.now lent.old.pass.now }
    ensures keeps { Keeps V.faults N.faults L.faults given.now.board.now lent.old lent.new }
    ensures adds { AddsTo (IsRound (rules V.may_accept V.may_refuse) N.may_give N.steps (W.allows given.now.ruler.now)
        given.now.station.now given.now.board.now given.now.moment) lent.old lent.new }
    ensures asks { AsksAs (rules V.may_accept V.may_refuse) N.may_give N.steps (W.allows given.now.ruler.now)
        given.now.station.now given.now.board.now L.steps lent.old.pass.now lent.new.pass.now given.now.moment signed
        round.old round.new lent.old.link.now lent.new.link.now }
{
    let valid_after = given.board.valid_after(given.rt, &mut *lent.pass);
    round.turn_to(valid_after, signed);
    post_once(given, lent, round);
    work_in_phase(given, lent, round);
}

/// Does the duties of an authority once, at one moment of the clock, which is asked first. The state is advanced until nothing more
/// comes of the moment, or that can't be done; then comes what the phase of the period asks for, each duty once in a period. The peers
/// are the authorities that have an address, without the own one, in the input's order; one that fails is passed over, and so is a
/// response with another code than 200. The own vote is made of what the station is given, of the board's pool and of the rulings of
/// the hook's rules; where it is refused, or finds no memory, it is tried again the next time.
///
/// # Errors
/// The answer is that of the last advance: `Nothing`, `EndOfTime`, `OwnSignatureRefused`; `SignerFault` and `VerifierFault`, each only
/// where that count rose; and `Memory`, want of memory in that advance.
pub fn duties<H: Wait, R: Rulers, F, C: Clock, V: Verifier, N: Signer, L: Link>(
    rt: &H,
    alloc: Global,
    board: &Board<V>,
    station: &StationFacts,
    hook: &Hook<R, F>,
    pass: &mut Pass<V>,
    round: &mut Round,
    clock: &mut C,
    verifier: &mut V,
    signer: &mut N,
    link: &mut L,
) -> Result<Advance, Memory>
    requires at { IsAt board.now pass.old }
    ensures duties { Duties (rules V.may_accept V.may_refuse) N.may_give N.steps (R.allows hook.now.rules)
        station.now board.now pass.old pass.new (C.last clock.new) result }
    ensures asked { AsksPeers (rules V.may_accept V.may_refuse) N.may_give N.steps (R.allows hook.now.rules) station.now
        board.now L.steps pass.old pass.new (C.last clock.new) round.old round.new link.old link.new }
    ensures goes { Goes pass.old pass.new }
    ensures at { IsAt board.now pass.new }
    ensures asks { Counts (C.asks clock.old) (C.asks clock.new) }
    ensures signer_fault { result ≡ Ok Advance.SignerFault → Rose (N.faults signer.old) (N.faults signer.new) }
    ensures signer_faults { N.faults signer.old ≤ N.faults signer.new }
    ensures verifier_fault { result ≡ Ok Advance.VerifierFault → Rose (V.faults verifier.old) (V.faults verifier.new) }
    ensures verifier_faults { V.faults verifier.old ≤ V.faults verifier.new }
    ensures link_faults { L.faults link.old ≤ L.faults link.new }
{
    let now = clock.now();
    let (answer, signed) = advance_all(rt, alloc, board, pass, now, verifier, signer);
    let given = Given {
        rt,
        alloc,
        board,
        station,
        ruler: &hook.rules,
        moment: now,
    };
    let mut lent = Lent {
        pass,
        verifier,
        signer,
        link,
    };
    work(&given, &mut lent, round, signed);
    answer
}
