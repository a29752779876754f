// The votes of an input, the line behind them, and the consensus.
ghost use Rattle.std.specs.Prelude.{◌≡◌, ◌+◌, ◌≤◌, ◌<◌, ◌^◌, IfOk, length, vec_len};
ghost use Rattle.consensus_terms.specs.Moments.{HasMoments};
ghost use Rattle.dirdoc_grammar.specs.Seen.{seen_item};
ghost use Rattle.report_command.specs.Inputs as inputs;
ghost use Rattle.report_command.specs.Private.{ReadsConsensusAt, ReadsVoteAt, ReadsVotes};

use crate::line::{LINE_SIZE, line_place};
use crate::refusal::InputRefusal;
use blank_lines::fault_behind;
use bytes::Bytes;
use consensus_terms::SignedConsensus;
use daemon_words::Stop;
use dirdoc_grammar::{Item, Items};
use frame_reader::first_fault;
use frame_terms::{FrameFault, FrameReason, Limit, ReadRefusal};
use item_terms::NO_LIMIT;
use std::alloc::Global;
use vote_doc::{Vote, VoteFrame, read};

/// How many votes an input may have.
const MOST_VOTES: usize = 64;

/// What comes next in an input.
pub(crate) enum Ahead {
    /// The line in front of the consensus, which begins at this place.
    Consensus(u64),
    /// Something else, which is to be a vote, with why it is refused as one too many.
    Vote(FrameFault),
}

/// Why an item is refused as the first of one vote too many.
fn one_too_many(item: &Item<'_>) -> FrameFault
    ensures { result ≡ inputs.one_too_many (seen_item item.now) }
{
    match first_fault(VoteFrame, item) {
        Some(fault) => fault,
        None => FrameFault {
            place: item.place,
            reason: FrameReason::TooMany(Limit::Votes),
        },
    }
}

/// What stands at a place, behind votes: the line in front of the consensus, whatever follows it, or else what items say.
fn ahead_at(bytes: &[u8], place: usize) -> Result<Ahead, InputRefusal>
    requires within { place ≤ length bytes.now }
    requires short { length bytes.now < 2 ^ 61 }
    ensures { result ≡ inputs.ahead_at place bytes.now }
{
    match line_place(bytes, place) {
        Some(at) => Ok(Ahead::Consensus((at + LINE_SIZE) as u64)),
        None => first_at(bytes, place),
    }
}

/// What is to begin a vote at a place, behind votes.
fn first_at(bytes: &[u8], place: usize) -> Result<Ahead, InputRefusal>
    requires within { place ≤ length bytes.now }
    requires short { length bytes.now < 2 ^ 61 }
    ensures { result ≡ inputs.first_at place bytes.now }
{
    match Items::starting_at(bytes, place as u64, NO_LIMIT).next() {
        Ok(Some(item)) => Ok(Ahead::Vote(one_too_many(&item))),
        Ok(None) => Err(InputRefusal::Missing {
            place: bytes.len() as u64,
        }),
        Err(fault) => Err(InputRefusal::Fault(FrameFault {
            place: fault.place,
            reason: FrameReason::Doc(fault.reason),
        })),
    }
}

/// The vote that stands in the input from a place on, and the place behind it. It shares the input's bytes.
///
/// # Errors
/// `Frame` is its first fault, with its place in the input. `Memory` is want of memory.
fn vote_at(alloc: Global, bytes: &Bytes, place: usize) -> Result<(Vote, usize), ReadRefusal>
    requires within { place ≤ length bytes.now }
    requires short { length bytes.now < 2 ^ 61 }
    ensures { ReadsVoteAt place bytes.now result }
{
    let rest = bytes.slice(place..)?;
    match read(alloc, &rest) {
        Ok((vote, used)) => Ok((vote, place + used)),
        Err(ReadRefusal::Frame(fault)) => Err(ReadRefusal::Frame(fault_behind(
            place as u64,
            fault,
        ))),
        Err(ReadRefusal::Memory) => Err(ReadRefusal::Memory),
    }
}

/// The votes of an input, in their order, and the place behind the line that follows them: one after the other, with nothing but
/// blank lines before, between and after them, and at most 64. They share the input's bytes.
///
/// # Errors
/// `Refused` is the input's first fault, with its place in the input; a 65th vote is refused at its first item, and where the line
/// does not come that is told at the input's end. `Memory` is want of memory.
pub(crate) fn votes_of(alloc: Global, bytes: &Bytes) -> Result<(Vec<Vote>, u64), Stop<InputRefusal>>
    requires { length bytes.now < 2 ^ 61 }
    ensures votes { ReadsVotes (inputs.votes_of bytes.now) result }
    ensures few { IfOk result (λ found. vec_len found.0 ≤ 64) }
{
    let mut found = Vec::new(alloc);
    let mut place: usize = 0;
    let mut room = MOST_VOTES;
    'votes: loop {
        match ahead_at(bytes, place) {
            Err(refusal) => return Err(Stop::Refused(refusal)),
            Ok(Ahead::Consensus(at)) => return Ok((found, at)),
            Ok(Ahead::Vote(fault)) => {
                if room == 0 {
                    return Err(Stop::Refused(InputRefusal::Fault(fault)));
                }
            }
        }
        let (vote, after) = match vote_at(alloc, bytes, place) {
            Ok((vote, after)) => (vote, after),
            Err(ReadRefusal::Frame(fault)) => return Err(Stop::Refused(InputRefusal::Fault(fault))),
            Err(ReadRefusal::Memory) => return Err(Stop::Memory),
        };
        found.push(vote)?;
        place = after;
        room -= 1;
    }
}

/// The consensus that these bytes are, which begin at a place of the input.
///
/// # Errors
/// `Refused` is its first fault, with its place in the input. `Memory` is want of memory.
pub(crate) fn consensus_at(
    alloc: Global,
    at: u64,
    bytes: &[u8],
) -> Result<SignedConsensus, Stop<FrameFault>>
    requires short { length bytes.now < 2 ^ 61 }
    requires behind { at + length bytes.now < 2 ^ 64 }
    ensures consensus { ReadsConsensusAt at bytes.now result }
    ensures moments { IfOk result (λ consensus. HasMoments consensus.facts) }
{
    match consensus_doc::read(alloc, bytes) {
        Ok((consensus, _)) => Ok(consensus),
        Err(ReadRefusal::Frame(fault)) => Err(Stop::Refused(fault_behind(at, fault))),
        Err(ReadRefusal::Memory) => Err(Stop::Memory),
    }
}
