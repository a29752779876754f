// The own vote's text, made in one reading of the pool.
ghost use Rattle.std.specs.Prelude.{◌≡◌, ◌≤◌, IfSome, IsTrue};
ghost use Rattle.key_port.specs.Answers.{rules};
ghost use Rattle.serve_board.specs.Boards.{IsAt, Parts};
ghost use Rattle.serve_rounds.specs.{Keeping.{AddsNothing, Keeps}, OwnVotes.{IsTextMade, IsTextOfBoard}};
ghost use Rattle.serve_rounds.specs.Spans.{AddsNone};

use crate::lent::{Given, Lent};
use crate::ruling::Rulers;
use crate::schedule::schedule_of;
use dir_bytes::LAST_MOMENT;
use dir_http::Link;
use flag_rules::{Hook, RelayFacts, Ruling};
use key_port::{Signer, Verifier};
use serve_board::{Pass, Question};
use station_input::StationFacts;
use std::alloc::Global;
use std::sync::Wait;
use vote_maker::make;
use vote_pool::Pool;

/// The own vote is made of the pool. What it is signed and checked with is lent.
#[derive(Drop)]
struct MakeVote<'a, 'b, 'c, W: Rulers, N: Signer, V: Verifier> {
    alloc: Global,
    station: &'a StationFacts,
    ruler: &'a W,
    valid_after: u64,
    moment: u64,
    verifier: &'b mut V,
    signer: &'c mut N,
}

/// The text of the vote that is made of a pool. None where none can be made, or what would be valid from that moment on would pass
/// the last moment.
fn text_of<W: Rulers, N: Signer, V: Verifier>(
    alloc: Global,
    station: &StationFacts,
    pool: &Pool<V>,
    ruler: &W,
    valid_after: u64,
    now: u64,
    verifier: &mut V,
    signer: &mut N,
) -> Option<Vec<u8>>
    ensures made { IfSome result (λ text. IsTextMade (rules V.may_accept V.may_refuse) N.may_give N.steps (W.allows
        ruler.now) station.now pool.now.descriptors valid_after now text.items) }
    ensures verifier { V.faults verifier.old ≤ V.faults verifier.new }
    ensures signer { N.faults signer.old ≤ N.faults signer.new }
{
    let Some(schedule) = schedule_of(station) else {
        return None;
    };
    let lifetime = 3 * schedule.interval();
    if valid_after > LAST_MOMENT || valid_after + lifetime > LAST_MOMENT {
        return None;
    }
    let by_rules = |facts: RelayFacts| -> Ruling
        ensures { IsTrue (W.allows ruler.entry.now facts result) }
    { ruler.ruling_of(&facts) };
    let hook = Hook::new(ruler, by_rules);
    match make(
        alloc,
        station,
        pool,
        &hook,
        valid_after,
        now,
        verifier,
        signer,
    ) {
        Ok(text) => Some(text),
        Err(_) => None,
    }
}

impl<'a, 'b, 'c, W: Rulers, N: Signer, V: Verifier> Question<Pool<V>>
    for MakeVote<'a, 'b, 'c, W, N, V> {
    type Reply = Option<Vec<u8>>;

    ghost finds = { λ before pool reply then.
        IfSome reply (λ text. IsTextMade (rules V.may_accept V.may_refuse) N.may_give N.steps (W.allows before.ruler.now)
        before.station.now pool.descriptors before.valid_after before.moment text.items)
        × (V.faults before.verifier.now ≤ V.faults then.verifier.now)
        × (N.faults before.signer.now ≤ N.faults then.signer.now)
        × (then.signer.ghost_name ≡ before.signer.ghost_name) × (then.verifier.ghost_name ≡ before.verifier.ghost_name) };

    fn ask(&mut self, value: &Pool<V>) -> Option<Vec<u8>> {
        text_of(
            self.alloc,
            self.station,
            value,
            self.ruler,
            self.valid_after,
            self.moment,
            &mut *self.verifier,
            &mut *self.signer,
        )
    }
}

/// What was lent for a vote that is made. It owns no memory, so that what was lent is known where it ends.
#[derive(Drop)]
struct GivenBack<'b, 'c, N: Signer, V: Verifier> {
    verifier: &'b mut V,
    signer: &'c mut N,
}

/// Puts out the text of the vote that is made of the board's pool in one reading, if one can be made, and gives back what was lent for
/// it.
fn made_in_turn<'b, 'c, H: Wait, W: Rulers, V: Verifier, N: Signer>(
    given: &Given<H, W, V>,
    pass: &mut Pass<V>,
    valid_after: u64,
    verifier: &'b mut V,
    signer: &'c mut N,
    out: &mut Option<Vec<u8>>,
) -> GivenBack<'b, 'c, N, V>
    requires at { IsAt given.now.board.now pass.old }
    ensures text { IfSome out.new (λ text. IsTextOfBoard (rules V.may_accept V.may_refuse) N.may_give N.steps (W.allows
        given.now.ruler.now) given.now.station.now given.now.board.now pass.old pass.new valid_after given.now.moment
        text.items) }
    ensures none { (a : Parts) → AddsNone a pass.old → AddsNone a pass.new }
    ensures at { IsAt given.now.board.now pass.new }
    ensures verifier { V.faults verifier.old ≤ V.faults result.verifier.now }
    ensures signer { N.faults signer.old ≤ N.faults result.signer.now }
    ensures same_verifier { result.verifier.ghost_name ≡ verifier.entry.ghost_name }
    ensures same_signer { result.signer.ghost_name ≡ signer.entry.ghost_name }
{
    let question = MakeVote {
        alloc: given.alloc,
        station: given.station,
        ruler: given.ruler,
        valid_after,
        moment: given.moment,
        verifier,
        signer,
    };
    let (text, question) = given.board.look(given.rt, pass, question);
    let MakeVote {
        verifier,
        signer,
        ..
    } = question;
    *out = text;
    GivenBack { verifier, signer }
}

/// The text of the own vote, made of the board's pool in one reading. None where none can be made. No peer is asked.
pub(crate) fn own_text<H: Wait, W: Rulers, V: Verifier, N: Signer, L: Link>(
    given: &Given<H, W, V>,
    lent: &mut Lent<V, N, L>,
    valid_after: u64,
) -> Option<Vec<u8>>
    requires at { IsAt given.now.board.now lent.old.pass.now }
    ensures text { IfSome result (λ text. IsTextOfBoard (rules V.may_accept V.may_refuse) N.may_give N.steps (W.allows
        given.now.ruler.now) given.now.station.now given.now.board.now lent.old.pass.now lent.new.pass.now valid_after
        given.now.moment text.items) }
    ensures none { AddsNothing lent.old lent.new }
    ensures keeps { Keeps V.faults N.faults L.faults given.now.board.now lent.old lent.new }
    ensures link { lent.new.link.now ≡ lent.old.link.now }
{
    let mut text = None;
    let _back = made_in_turn(
        given,
        &mut *lent.pass,
        valid_after,
        &mut *lent.verifier,
        &mut *lent.signer,
        &mut text,
    );
    text
}
