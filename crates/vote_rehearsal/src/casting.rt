// The votes of a rehearsal: read, checked and held.
ghost use Rattle.std.specs.{Prelude.{◌≡◌, ◌≤◌, ◌<◌, ◌+◌, ◌^◌, IfOk, length, option_to_list}, List.fold};
ghost use Rattle.vote_terms.specs.Held.{votes_with};
ghost use Rattle.vote_rehearsal.specs.Casting as casting;
ghost use Rattle.vote_rehearsal.specs.Private.{MakeRoster};

use crate::authority::{Authority, roster_of};
use crate::facts::PERIOD;
use crate::relay::Relay;
use crate::sure_keys::SureKeys;
use crate::voting::vote_text;
use bytes::Bytes;
use dir_bytes::Memory;
use dir_values::Roster;
use frame_terms::ReadRefusal;
use std::alloc::Global;
use vote_doc::{Accepted, HeldVote, Vote, check_vote, read};

/// How many bytes a vote may have.
const MAX_VOTE: usize = vote_terms::MAX_VOTE as usize;

/// The vote that a text is, if it is no longer than a vote may be, and is read as one.
///
/// # Errors
/// `Memory` is want of memory.
#[tactic(auto, unfolding(crate::specs::Casting::vote_in))]
fn vote_in(alloc: Global, text: Vec<u8>) -> Result<Option<Vote>, Memory>
    ensures { IfOk result (λ found. found ≡ casting.vote_in text.items) }
{
    if text.len() > MAX_VOTE {
        return Ok(None);
    }
    let bytes = Bytes::from_vec(text)?;
    match read(alloc, &bytes) {
        Ok((vote, _)) => Ok(Some(vote)),
        Err(ReadRefusal::Frame(_)) => Ok(None),
        Err(ReadRefusal::Memory) => Err(Memory),
    }
}

/// A vote, if it is acceptable.
fn if_acceptable(alloc: Global, vote: Vote, roster: &Roster) -> Option<HeldVote>
    ensures { result ≡ casting.if_acceptable roster.now vote }
{
    let mut keys = SureKeys::new(alloc);
    match check_vote(vote, roster, PERIOD, &mut keys) {
        Ok(checked) => Some(checked.into_held()),
        Err(_) => None,
    }
}

/// The vote that an authority casts, if it is one and is acceptable.
///
/// # Errors
/// `Memory` is want of memory.
#[tactic(auto, unfolding(crate::specs::Casting::cast_by))]
fn cast_by(
    alloc: Global,
    relays: &[Relay],
    roster: &Roster,
    authority: &Authority,
) -> Result<Option<HeldVote>, Memory>
    ensures { IfOk result (λ vote. vote ≡ casting.cast_by relays.now roster.now authority.now) }
{
    let text = vote_text(alloc, relays, authority)?;
    match vote_in(alloc, text)? {
        Some(vote) => Ok(if_acceptable(alloc, vote, roster)),
        None => Ok(None),
    }
}

/// Holds a vote, if there is one.
fn place_if(accepted: &mut Accepted, vote: Option<HeldVote>)
    requires { length accepted.old.votes < accepted.old.room }
    ensures votes { accepted.new.votes ≡ fold votes_with accepted.old.votes (option_to_list vote) }
    ensures room { accepted.new.room ≡ accepted.old.room }
    ensures few { length accepted.new.votes ≤ length accepted.old.votes + 1 }
{
    if let Some(vote) = vote {
        let _ = accepted.place(vote);
    }
}

/// The votes that are held of those that authorities cast.
///
/// # Errors
/// `Memory` is want of memory.
#[tactic(auto, unfolding(crate::specs::Casting::held_votes))]
pub(crate) fn held_votes(
    alloc: Global,
    relays: &[Relay],
    voters: &[Authority],
) -> Result<Accepted, Memory>
    requires few { length voters.now < 2 ^ 32 }
    requires roster { MakeRoster voters.now }
    ensures { IfOk result (λ accepted. accepted.votes ≡ casting.held_votes relays.now voters.now) }
{
    let roster = roster_of(alloc, voters)?;
    let mut accepted = Accepted::new(alloc, voters.len() as u32)?;
    'voters: for voter in voters {
        let vote = cast_by(alloc, relays, &roster, voter)?;
        place_if(&mut accepted, vote);
    }
    Ok(accepted)
}
