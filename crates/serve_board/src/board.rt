// The board.
ghost use Rattle.std.specs.Prelude.{◌≡◌, ◌<◌, ◌≤◌, All, IfOk, Ok, length};
ghost use Rattle.dir_bytes.specs.Causes.{Rose};
ghost use Rattle.key_port.specs.Answers.{rules};
ghost use Rattle.period_terms.specs.declared.answer.Answer.TheVariants as answers;
ghost use Rattle.period_terms.specs.declared.event.Event.TheVariants as events;
ghost use Rattle.serve_board.specs.Boards.{Advances, IsAt, IsNew, IsPlace, Looks, Makes, Sees, Stores};
ghost use Rattle.serve_board.specs.{Boards.{position_of_offer, position_of_sign_in}, Passes.DifferInNumber};

use crate::advancing::AdvancePeriodState;
use crate::opening::pair;
use crate::pass::Pass;
use crate::period::Period;
use crate::question::{AskPeriodState, AskPool, Question};
use crate::reserve::{KeepEntry, Reserve};
use crate::signing::OfferSignature;
use crate::voting::OfferVote;
use count_terms::Newest;
use dir_bytes::Memory;
use dir_values::{Fingerprint, Roster};
use key_port::{Signer, Verifier};
use period_core::PeriodState;
use period_lock::Shared;
use period_terms::{Advance, CheckedSig, Offer, SignIn, Via};
use std::alloc::Global;
use std::marker::Model;
use std::sync::Wait;
use vote_doc::CheckedVote;
use vote_pool::{Keep, Pool, PoolEntry};

/// A state and a pool of descriptors, each under its own lock. Beside the locks stand the roster, the own identity and the
/// newest consensus method that is known, which no event changes.
#[derive(Drop)]
pub struct Board<V: Verifier> {
    pub(crate) state: Shared<Period<V>>,
    pub(crate) pool: Shared<Reserve<V>>,
    pub(crate) roster: Roster,
    pub(crate) own: Fingerprint,
    pub(crate) newest: Newest,
}

impl<V: Verifier> Model for Board<V> {
    ghost use Rattle.std.specs.Prelude.{◌≡◌};
    ghost use Rattle.serve_board.specs.Boards.{Locks};

    ghost Value = { Locks };

    ghost view = { λ b. record { state = b.state; pool = b.pool } };

    ghost invariant = { λ b. (b.roster ≡ b.state.start.roster) × (b.own ≡ b.state.start.own)
        × (b.newest ≡ b.state.start.newest) };
}

impl<V: Verifier> Board<V> {
    /// A board with its passes, which have seen nothing. As it stands it fails for want of memory, and what it was given is then
    /// dropped.
    ///
    /// # Errors
    /// `Memory` is want of memory.
    pub fn new(
        alloc: Global,
        state: PeriodState<V>,
        pool: Pool<V>,
        passes: u32,
    ) -> Result<(Board<V>, Vec<Pass<V>>), Memory>
        requires { 0 < passes }
        ensures start { IfOk result (λ r. (r.0.state.start ≡ state) × (r.0.pool.start ≡ pool)) }
        ensures passes { IfOk result (λ r. (r.0.state.passes ≡ passes) × (r.0.pool.passes ≡ passes) × (length r.1.items ≡ passes)) }
        ensures new { IfOk result (λ r. All (IsNew r.0) r.1.items) }
        ensures numbers { IfOk result (λ r. DifferInNumber r.1.items) }
        ensures at { IfOk result (λ r. All (IsAt r.0) r.1.items) }
    {
        let roster = state.roster().copy(alloc)?;
        let own = state.own();
        let newest = state.newest();
        let room = Vec::with_capacity(alloc, passes as usize)?;
        let (state, states) = Shared::new(
            alloc,
            Period {
                period_state: state,
            },
            passes,
        )?;
        let (pool, pools) = Shared::new(alloc, Reserve { pool }, passes)?;
        let paired = pair(&state, &pool, states, pools, room);
        let board = Board {
            state,
            pool,
            roster,
            own,
            newest,
        };
        Ok((board, paired))
    }

    /// The authorities that the consensus is of.
    pub fn roster(&self) -> &Roster
        ensures { result.now ≡ self.now.state.start.roster }
    {
        &self.roster
    }

    /// The authority itself.
    pub fn own(&self) -> Fingerprint
        ensures { result ≡ self.now.state.start.own }
    {
        self.own
    }

    /// The newest consensus method that the authority knows.
    pub fn newest(&self) -> Newest
        ensures { result ≡ self.now.state.start.newest }
    {
        self.newest
    }

    /// Offers a vote that comes this way at a moment.
    pub fn offer<R: Wait>(
        &self,
        rt: &R,
        pass: &mut Pass<V>,
        vote: CheckedVote<V>,
        via: Via,
        now: u64,
    ) -> Offer
        requires at { IsAt self.now pass.old }
        ensures event { Makes (rules V.may_accept V.may_refuse) self.now pass.old pass.new
            (events.Offered vote via now) (answers.Vote result) }
        ensures position { IsPlace self.now pass.new (position_of_offer result) }
        ensures at { IsAt self.now pass.new }
    {
        let mut vote = vote;
        // Outside the turn: none waits while it is computed.
        vote.know_rank();
        let mut event = OfferVote {
            vote: Some(vote),
            via,
            now,
        };
        match self.state.turn(rt, &mut pass.state, &mut event) {
            Some(answer) => answer,
            None => unreachable!(),
        }
    }

    /// Offers a signature.
    pub fn sign_in<R: Wait>(&self, rt: &R, pass: &mut Pass<V>, signature: CheckedSig<V>) -> SignIn
        requires at { IsAt self.now pass.old }
        ensures event { Makes (rules V.may_accept V.may_refuse) self.now pass.old pass.new
            (events.SignedIn signature) (answers.Signature result) }
        ensures position { IsPlace self.now pass.new (position_of_sign_in result) }
        ensures at { IsAt self.now pass.new }
    {
        let mut event = OfferSignature {
            signature: Some(signature),
        };
        match self.state.turn(rt, &mut pass.state, &mut event) {
            Some(answer) => answer,
            None => unreachable!(),
        }
    }

    /// Advances the state by one step, if the moment brings one.
    ///
    /// # Errors
    /// `Memory` is want of memory, and then nothing was changed.
    pub fn advance<R: Wait, N: Signer>(
        &self,
        rt: &R,
        alloc: Global,
        pass: &mut Pass<V>,
        now: u64,
        signer: &mut N,
        verifier: &mut V,
    ) -> Result<Advance, Memory>
        requires at { IsAt self.now pass.old }
        ensures event { Advances (rules V.may_accept V.may_refuse) self.now pass.old pass.new N.may_give now result }
        ensures at { IsAt self.now pass.new }
        ensures signer_fault { result ≡ Ok Advance.SignerFault → Rose (N.faults signer.old) (N.faults signer.new) }
        ensures signer_faults { N.faults signer.old ≤ N.faults signer.new }
        ensures verifier_fault { result ≡ Ok Advance.VerifierFault → Rose (V.faults verifier.old) (V.faults verifier.new) }
        ensures verifier_faults { V.faults verifier.old ≤ V.faults verifier.new }
    {
        let mut event = AdvancePeriodState {
            alloc,
            now,
            signer,
            verifier,
        };
        let (answer, _) = self.state.turn(rt, &mut pass.state, &mut event);
        answer
    }

    /// Asks a question of the state, which changes nothing there, and gives the question back.
    pub fn ask<R: Wait, Q: Question<PeriodState<V>>>(
        &self,
        rt: &R,
        pass: &mut Pass<V>,
        question: Q,
    ) -> (Q::Reply, Q)
        requires at { IsAt self.now pass.old }
        ensures reading { Sees (rules V.may_accept V.may_refuse) self.now pass.old pass.new
            (λ state answer. Q.finds question state answer result.1) result.0 }
        ensures at { IsAt self.now pass.new }
    {
        let mut event = AskPeriodState { question };
        let reply = self.state.turn(rt, &mut pass.state, &mut event);
        (reply, event.question)
    }

    /// Keeps a descriptor, or not.
    pub fn keep<R: Wait>(&self, rt: &R, pass: &mut Pass<V>, entry: PoolEntry<V>) -> Keep
        requires at { IsAt self.now pass.old }
        ensures event { Stores (rules V.may_accept V.may_refuse) self.now pass.old pass.new entry result }
        ensures at { IsAt self.now pass.new }
    {
        let mut event = KeepEntry { entry: Some(entry) };
        match self.pool.turn(rt, &mut pass.pool, &mut event) {
            Some(answer) => answer,
            None => unreachable!(),
        }
    }

    /// Asks a question of the pool, which changes nothing there, and gives the question back.
    pub fn look<R: Wait, Q: Question<Pool<V>>>(
        &self,
        rt: &R,
        pass: &mut Pass<V>,
        question: Q,
    ) -> (Q::Reply, Q)
        requires at { IsAt self.now pass.old }
        ensures reading { Looks (rules V.may_accept V.may_refuse) self.now pass.old pass.new
            (λ pool answer. Q.finds question pool answer result.1) result.0 }
        ensures at { IsAt self.now pass.new }
    {
        let mut event = AskPool { question };
        let reply = self.pool.turn(rt, &mut pass.pool, &mut event);
        (reply, event.question)
    }
}
