// Computing a consensus.
ghost use Rattle.std.specs.Prelude.{◌≡◌, IfOk, map};
ghost use Rattle.compute_terms.specs.Consensuses as terms;
ghost use Rattle.consensus_calc.specs.Calculating.{Calculates, HasMoments};

use crate::agreements::least_agreements;
use crate::flags::known_flags;
use crate::lists::lists_of;
use crate::methods::chosen_method;
use crate::randoms::agreed_random;
use crate::timing::{Timing, median};
use crate::walk::routers;
use crate::weights::weighted_consensus;
use bandwidth_rules::unmeasured_limit;
use consensus_terms::{Consensus, ConsensusFacts, SourceLine};
use count_terms::Newest;
use dir_bytes::{Memory, Seq, Text};
use relay_select::over;
use std::alloc::Global;
use value_groups::RandomLine;
use vote_doc::{Accepted, HeldVote, Vote};

/// Why there is no consensus.
#[derive(Clone, Copy, Debug, PartialEq, Eq)]
pub enum CalcFault {
    /// So many votes are held, which are not of more than half of a roster of so many authorities.
    TooFew { held: u64, roster: u32 },
    /// There was no memory.
    Memory,
}

impl From<Memory> for CalcFault {
    ghost use Rattle.consensus_calc.specs.declared.record.CalcFault.TheVariants.{Memory as NoMemory};

    ghost from_gives = { λ _ e. e ≡ NoMemory };

    fn from(_: Memory) -> Self {
        CalcFault::Memory
    }
}

/// The consensus of the held votes (dir-spec, "Computing a consensus from a set of votes"), where this is the newest method that
/// is known, and the roster has so many authorities.
///
/// # Errors
/// `TooFew` where the votes are not of more than half of the roster. `Memory` is want of memory; it comes too where 2^22 relays
/// or more would be listed, whose entries no machine has the memory for.
pub fn compute(
    alloc: Global,
    newest: Newest,
    roster: u32,
    votes: &Accepted,
) -> Result<Consensus, CalcFault>
    ensures calculates { Calculates newest roster votes.now.votes result }
    ensures moments { IfOk result (λ c. HasMoments c.facts) }
{
    let held = votes.len() as u64;
    if !over(held, roster) {
        return Err(CalcFault::TooFew { held, roster });
    }
    let facts = facts_of(alloc, newest, roster, votes)?;
    Ok(weighted_consensus(facts)?)
}

/// What the consensus of votes says but for its weights, whether or not they are of more than half of the roster.
fn facts_of(
    alloc: Global,
    newest: Newest,
    roster: u32,
    votes: &Accepted,
) -> Result<ConsensusFacts, Memory>
    ensures value { IfOk result (λ facts. facts ≡ terms.facts_of newest roster votes.now.votes) }
    ensures moments { IfOk result (λ facts. HasMoments facts) }
{
    let method = chosen_method(alloc, newest, votes)?;
    let lists = lists_of(alloc, method, roster, votes)?;
    let limit = unmeasured_limit(method, &lists.params);
    let known_flags = known_flags(alloc, method, votes)?;
    let valid_after = median(alloc, votes, Timing::ValidAfter)?;
    let fresh_until = median(alloc, votes, Timing::FreshUntil)?;
    let least = least_agreements(method, roster, &lists.params, valid_after, fresh_until);
    let routers = routers(alloc, roster, method, limit, &known_flags, votes)?;
    Ok(ConsensusFacts {
        method,
        valid_after,
        fresh_until,
        valid_until: median(alloc, votes, Timing::ValidUntil)?,
        vote_seconds: median(alloc, votes, Timing::VoteSeconds)? as u32,
        dist_seconds: median(alloc, votes, Timing::DistSeconds)? as u32,
        known_flags,
        lists,
        random_previous: agreed_random(RandomLine::Previous, roster, least, votes),
        random_current: agreed_random(RandomLine::Current, roster, least, votes),
        sources: sources(alloc, votes)?,
        routers,
    })
}

/// What the consensus says of each vote's authority, in the order of the votes.
fn sources(alloc: Global, votes: &Accepted) -> Result<Seq<SourceLine>, Memory>
    ensures { IfOk result (λ lines. lines ≡ map terms.source_of votes.now.votes) }
{
    let count = votes.len();
    let mut lines = Vec::with_capacity(alloc, count)?;
    'votes: for i in 0..count {
        lines.push(source_of(alloc, votes.vote(i))?)?;
    }
    Ok(Seq::new(lines))
}

fn source_of(alloc: Global, held: &HeldVote) -> Result<SourceLine, Memory>
    ensures { IfOk result (λ line. line ≡ terms.source_of held.now) }
{
    let vote = held.vote();
    Ok(SourceLine {
        nickname: Text::copy_of(alloc, vote.nickname())?,
        identity: vote.identity(),
        address: Text::copy_of(alloc, vote.address())?,
        ip: vote.ip(),
        dir_port: vote.dir_port(),
        or_port: vote.or_port(),
        contact: contact_of(alloc, vote)?,
        vote_digest: held.vote_digest(),
    })
}

fn contact_of(alloc: Global, vote: &Vote) -> Result<Option<Text>, Memory>
    ensures { IfOk result (λ contact. contact ≡ vote.now.says.contact) }
{
    match vote.contact() {
        Some(text) => Ok(Some(Text::copy_of(alloc, text)?)),
        None => Ok(None),
    }
}
