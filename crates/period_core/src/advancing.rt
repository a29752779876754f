// What moments bring.
ghost use Rattle.std.specs.Prelude.{◌≡◌, ◌≤◌, ◌<◌, ◌++◌, ◌∷◌, [], None, Some, IfOk, OnErr, Ok, length, ℕ};
ghost use Rattle.dir_bytes.specs.Causes.{Rose};
ghost use Rattle.consensus_calc.specs.Calculating.{Calculates, HasMoments};
ghost use Rattle.key_port.specs.Answers.{rules};
ghost use Rattle.period_terms.specs.Advances as advances;
ghost use Rattle.period_terms.specs.Schedules as schedules;
ghost use Rattle.period_terms.specs.States as states;
ghost use Rattle.period_core.specs.Signing.{Advances, Comes, IsQuiet};
ghost use Rattle.period_core.specs.Rounds as rounds;
ghost use Rattle.period_terms.specs.declared.stage.Stage.TheVariants as stage;
ghost use Rattle.period_terms.specs.declared.event.Signing.TheVariants as given;

use crate::made::Made;
use crate::next::next_period;
use crate::owning::Own;
use crate::state::PeriodState;
use consensus_calc::{CalcFault, compute};
use consensus_terms::Consensus;
use dir_bytes::Memory;
use dir_values::Fingerprint;
use key_port::{Signer, Verifier};
use period_terms::{Advance, Change, ChangeKind, ShortBytes, Stage};
use std::alloc::Global;
use vote_schedule::freeze;

impl<V: Verifier> PeriodState<V> {
    /// A change of this kind.
    pub(crate) fn change(
        &self,
        kind: ChangeKind,
        authority: Option<Fingerprint>,
        digest: ShortBytes,
    ) -> Change
        ensures { result ≡ states.change kind authority self.now.valid_after digest }
    {
        Change {
            kind,
            authority,
            published: self.valid_after,
            digest,
        }
    }

    /// No vote is taken any more.
    fn freeze(&mut self)
        requires { self.old.stage ≡ stage.Voting }
        ensures { self.new ≡ (advances.freeze self.old).after }
    {
        let change = self.change(ChangeKind::Freeze, None, ShortBytes::of(b""));
        self.stage = Stage::Frozen;
        self.log.add(change);
    }

    /// The consensus is computed.
    fn hold_made(&mut self, made: Made)
        requires { self.old.stage ≡ stage.Frozen }
        ensures { self.new ≡ (advances.compute self.old made).after }
    {
        let digest = ShortBytes::of_two(made.sha1(), made.sha256());
        let change = self.change(ChangeKind::Compute, None, digest);
        self.stage = Stage::Computed;
        self.made = Some(made);
        self.log.add(change);
    }

    /// There are too few votes.
    fn give_up(&mut self)
        requires { self.old.stage ≡ stage.Frozen }
        ensures { self.new ≡ (advances.give_up self.old).after }
    {
        let change = self.change(ChangeKind::NoConsensus, None, ShortBytes::of(b""));
        self.stage = Stage::Ended;
        self.log.add(change);
    }

    /// How many members the roster has.
    pub(crate) fn members(&self) -> u32
        ensures value { result ≡ length self.now.roster }
        ensures few { result ≤ 32 }
    {
        self.roster.len() as u32
    }

    /// The consensus of the held votes.
    fn calculate(&self, alloc: Global) -> Result<Consensus, CalcFault>
        ensures calculates { Calculates self.now.newest (length self.now.roster) self.now.votes result }
        ensures moments { IfOk result (λ c. HasMoments c.facts) }
    {
        compute(alloc, self.newest, self.members(), &self.held)
    }

    /// Computes the consensus, if the votes are of more than half of the roster.
    fn make(&mut self, alloc: Global) -> Result<Advance, Memory>
        requires { self.old.stage ≡ stage.Frozen }
        ensures step { IfOk result (λ answer. Comes (rounds.make_of self.old) answer self.new) }
        ensures err { OnErr result (self.new ≡ self.old) }
        ensures quiet { IsQuiet result }
    {
        match self.calculate(alloc) {
            Ok(consensus) => {
                let made = Made::new(alloc, consensus)?;
                self.hold_made(made);
                Ok(Advance::Computed)
            }
            Err(CalcFault::TooFew { held, roster }) => {
                self.give_up();
                Ok(Advance::NoConsensus { held, roster })
            }
            Err(CalcFault::Memory) => Err(Memory),
        }
    }

    /// The next period begins, if there is one.
    fn begin(&mut self, now: u64) -> Advance
        ensures step { Comes (advances.begin self.old (schedules.next_valid_after self.old.schedule self.old.valid_after now)) result self.new }
        ensures quiet { IsQuiet (Ok result) }
    {
        let Some(valid_after) = next_period(&self.config, self.valid_after, now) else {
            return Advance::EndOfTime;
        };
        self.valid_after = valid_after;
        self.stage = Stage::Voting;
        self.held.clear();
        self.vote_changes = 0;
        self.made = None;
        self.ns_lines.clear();
        self.micro_lines.clear();
        self.log.begin();
        Advance::Began { valid_after }
    }

    /// Signs with the key of the own vote, if it is held.
    fn sign<N: Signer>(
        &mut self,
        alloc: Global,
        signer: &mut N,
        verifier: &mut V,
    ) -> Result<Advance, Memory>
        requires { self.old.stage ≡ stage.Computed }
        ensures step { IfOk result (λ answer. (now : ℕ) → Advances N.may_give (rules V.may_accept V.may_refuse) self.old now answer self.new) }
        ensures err { OnErr result (self.new ≡ self.old) }
        ensures signer_fault { result ≡ Ok Advance.SignerFault → Rose (N.faults signer.old) (N.faults signer.new) }
        ensures signer_faults { N.faults signer.old ≤ N.faults signer.new }
        ensures verifier_fault { result ≡ Ok Advance.VerifierFault → Rose (V.faults verifier.old) (V.faults verifier.new) }
        ensures verifier_faults { V.faults verifier.old ≤ V.faults verifier.new }
    {
        match self.own_signing(alloc, signer, verifier) {
            Own::Stays(answer) => Ok(answer),
            Own::NoVote => {
                self.pass_over();
                Ok(Advance::NoOwnVote)
            }
            Own::Gave(ns, microdesc, digests) => {
                self.hold_own(ns, microdesc, digests);
                Ok(Advance::Signed)
            }
            Own::Memory => Err(Memory),
        }
    }

    /// One step of the period, if the moment brings one. After want of memory, and after a fault of the signer or the verifier,
    /// all is as it was.
    pub fn advance<N: Signer>(
        &mut self,
        alloc: Global,
        now: u64,
        signer: &mut N,
        verifier: &mut V,
    ) -> Result<Advance, Memory>
        ensures step { IfOk result (λ answer. Advances N.may_give (rules V.may_accept V.may_refuse) self.old now answer self.new) }
        ensures err { OnErr result (self.new ≡ self.old) }
        ensures signer_fault { result ≡ Ok Advance.SignerFault → Rose (N.faults signer.old) (N.faults signer.new) }
        ensures signer_faults { N.faults signer.old ≤ N.faults signer.new }
        ensures verifier_fault { result ≡ Ok Advance.VerifierFault → Rose (V.faults verifier.old) (V.faults verifier.new) }
        ensures verifier_faults { V.faults verifier.old ≤ V.faults verifier.new }
    {
        match self.stage {
            Stage::Voting => {
                if now < freeze(&self.config, self.valid_after) {
                    return Ok(Advance::Nothing);
                }
                self.freeze();
                Ok(Advance::Frozen)
            }
            Stage::Frozen => self.make(alloc),
            Stage::Computed => self.sign(alloc, signer, verifier),
            Stage::Signed => {
                if now < self.valid_after {
                    return Ok(Advance::Nothing);
                }
                self.publish(alloc)
            }
            Stage::Ended => {
                if now < self.valid_after {
                    return Ok(Advance::Nothing);
                }
                Ok(self.begin(now))
            }
        }
    }
}
