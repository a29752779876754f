// An authority at its moment.
ghost use Rattle.std.specs.Prelude.{◌≡◌};
ghost use Rattle.period_core.specs.Starting.{Starts};

use crate::log::Log;
use crate::made::Made;
use crate::next::next_period;
use consensus_terms::SignatureLine;
use count_terms::Newest;
use dir_bytes::{Memory, Text};
use dir_values::{Fingerprint, Roster};
use key_port::Verifier;
use period_terms::Stage;
use std::alloc::{AllocError, Global};
use std::marker::{Model, PhantomData};
use vote_doc::Accepted;
use vote_schedule::Config;

/// An authority at a moment of its history.
#[derive(Drop)]
pub struct PeriodState<V: Verifier> {
    pub(crate) roster: Roster,
    pub(crate) own: Fingerprint,
    pub(crate) newest: Newest,
    pub(crate) config: Config,
    pub(crate) valid_after: u64,
    pub(crate) stage: Stage,
    pub(crate) held: Accepted,
    pub(crate) vote_changes: u64,
    pub(crate) made: Option<Made>,
    pub(crate) ns_lines: Vec<SignatureLine>,
    pub(crate) micro_lines: Vec<SignatureLine>,
    pub(crate) ns_current: Option<Text>,
    pub(crate) micro_current: Option<Text>,
    pub(crate) log: Log,
    pub(crate) verifier: PhantomData<V>,
}

impl<V: Verifier> Model for PeriodState<V> {
    ghost use Rattle.std.specs.Prelude.{◌≡◌, ◌≤◌, vec_capacity};
    ghost use Rattle.period_terms.specs.declared.state.State.{State};
    ghost use Rattle.period_core.specs.{Standing.{IsStanding, most_changes, most_votes}, Viewing.state_of};

    ghost Value = { State };

    ghost view = { λ s. state_of s.roster s.own s.newest s.config s.valid_after s.stage s.held.votes s.vote_changes s.made s.ns_lines.items s.micro_lines.items s.ns_current s.micro_current s.log.front s.log.base s.log.changes.items };

    ghost invariant = { λ s.
        IsStanding (state_of s.roster s.own s.newest s.config s.valid_after s.stage s.held.votes s.vote_changes s.made s.ns_lines.items s.micro_lines.items s.ns_current s.micro_current s.log.front s.log.base s.log.changes.items)
        × (most_votes ≤ s.held.room) × (most_votes ≤ vec_capacity s.ns_lines) × (most_votes ≤ vec_capacity s.micro_lines)
        × (most_changes ≤ vec_capacity s.log.changes) };
}

/// Why an authority does not start; of several the first.
#[derive(Clone, Copy)]
pub enum StartFault {
    /// It is not in the roster.
    OwnNotInRoster,
    /// There is no next period.
    EndOfTime,
    /// There was no memory.
    Memory,
}

impl From<AllocError> for StartFault {
    ghost use Rattle.period_core.specs.declared.state.StartFault.TheVariants as fault;

    ghost from_gives = { λ _ e. e ≡ fault.Memory };

    fn from(_: AllocError) -> Self {
        StartFault::Memory
    }
}

impl From<Memory> for StartFault {
    ghost use Rattle.period_core.specs.declared.state.StartFault.TheVariants as fault;

    ghost from_gives = { λ _ e. e ≡ fault.Memory };

    fn from(_: Memory) -> Self {
        StartFault::Memory
    }
}

const MOST_VOTES: usize = 33;

const MOST_CHANGES: usize = 65_603;

impl<V: Verifier> PeriodState<V> {
    /// An authority of the roster that knows this newest method and begins at a moment. It takes the memory that its votes, its
    /// signatures and its changes will ever need.
    ///
    /// # Errors
    /// The first that applies: `OwnNotInRoster` where the roster lacks it, `EndOfTime` where there is no next period; `Memory` is
    /// want of memory.
    pub fn start(
        alloc: Global,
        roster: Roster,
        own: Fingerprint,
        newest: Newest,
        config: Config,
        now: u64,
    ) -> Result<PeriodState<V>, StartFault>
        ensures { Starts roster own newest config now result }
    {
        if !roster.contains(&own) {
            return Err(StartFault::OwnNotInRoster);
        }
        let Some(valid_after) = next_period(&config, 0, now) else {
            return Err(StartFault::EndOfTime);
        };
        let held = Accepted::new(alloc, MOST_VOTES as u32)?;
        let ns_lines = Vec::with_capacity(alloc, MOST_VOTES)?;
        let micro_lines = Vec::with_capacity(alloc, MOST_VOTES)?;
        let changes = Vec::with_capacity(alloc, MOST_CHANGES)?;
        Ok(PeriodState {
            roster,
            own,
            newest,
            config,
            valid_after,
            stage: Stage::Voting,
            held,
            vote_changes: 0,
            made: None,
            ns_lines,
            micro_lines,
            ns_current: None,
            micro_current: None,
            log: Log {
                front: 0,
                base: 0,
                changes,
            },
            verifier: PhantomData,
        })
    }
}
