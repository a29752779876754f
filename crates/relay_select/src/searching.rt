// The entries that belong to an identity.
ghost use Rattle.std.specs.Prelude.{◌≡◌, ◌<◌, ◌++◌, Some, IfOk, OnOk, length, filter, slice_get, OnErr};
ghost use Rattle.std.specs.Option.{option_to_list};
ghost use Rattle.compute_terms.specs.{Listings.{AreMembers, listings, listings_at}, Routers.belonging_listings};
ghost use Rattle.relay_select.specs.{Walks.member_in, Choices.{belongs_at, belonging_places}};

use crate::halves::place_of;
use crate::parts::belongs;
use compute_terms::{Belong, Identity};
use dir_bytes::Memory;
use std::alloc::Global;
use vote_doc::Accepted;

/// The places of the entries that belong to an identity, in the order of the votes. Each vote is searched by halves.
///
/// # Errors
/// `Memory` is want of memory.
pub fn belonging(
    alloc: Global,
    identity: &Identity,
    votes: &Accepted,
) -> Result<Vec<Belong>, Memory>
    ensures places { IfOk result (λ members. members.items ≡ belonging_places votes.now.votes identity.now) }
    ensures listings { IfOk result (λ members. listings_at votes.now.votes members.items ≡ belonging_listings identity.now.ed (listings votes.now.votes identity.now.rsa)) }
    ensures members { IfOk result (λ members. AreMembers votes.now.votes members.items) }
{
    let count = votes.len();
    let mut members = Vec::with_capacity(alloc, count)?;
    'votes: for number in 0..count {
        push_if(&mut members, member(votes, number, identity))?;
    }
    Ok(members)
}

/// The place of the entry in the vote with this number that belongs to an identity.
fn member(votes: &Accepted, number: usize, identity: &Identity) -> Option<Belong>
    requires { number < length votes.now.votes }
    ensures { (vote : _) → slice_get votes.now.votes number ≡ Some vote → option_to_list result ≡ filter (belongs_at votes.now.votes identity.now.ed) (option_to_list (member_in number vote identity.now.rsa)) }
{
    let vote = votes.vote(number).vote();
    match place_of(vote, &identity.rsa) {
        Some(entry) => {
            if belongs(&identity.ed, &vote.entry(entry).ed()) {
                Some(Belong {
                    vote: number,
                    entry,
                })
            } else {
                None
            }
        }
        None => None,
    }
}

/// Adds a place, where there is one.
fn push_if(members: &mut Vec<Belong>, found: Option<Belong>) -> Result<(), Memory>
    ensures ok { OnOk result (members.new.items ≡ members.old.items ++ option_to_list found) }
    ensures err { OnErr result (members.new.items ≡ members.old.items) }
{
    if let Some(at) = found {
        members.push(at)?;
    }
    Ok(())
}
