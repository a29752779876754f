// The lines of all relays.
ghost use Rattle.std.specs.{Prelude.{◌≡◌, ◌++◌, IfOk, OnOk}, List.list_any};
ghost use Rattle.dir_values.specs.FlagSets.{as_set};
ghost use Rattle.compute_terms.specs.Listings.{AreMembers, listings, listings_at};
ghost use Rattle.health_report.specs.Reports as reports;

use crate::identity_set::IdentitySet;
use crate::lines::push_line;
use crate::opinion::Opinion;
use crate::opinions::opinions_at;
use crate::relay::push_relay;
use compute_terms::Belong;
use consensus_terms::Routerline;
use dir_bytes::Memory;
use dir_values::Fingerprint;
use relay_select::{Merge, place_of};
use std::alloc::Global;
use vote_doc::{Accepted, Vote};

/// The identities of the relays that a consensus lists.
fn listed_by(alloc: Global, routers: &[Routerline]) -> Result<IdentitySet, Memory>
    ensures { IfOk result (λ set. set ≡ as_set (reports.router_identities routers.now)) }
{
    let mut set = IdentitySet::new(alloc);
    'routers: for router in routers {
        set.insert(alloc, &router.identity)?;
    }
    Ok(set)
}

/// Appends the lines of a relay that the votes list at these places.
fn push_group(
    alloc: Global,
    out: &mut Vec<u8>,
    listed: &IdentitySet,
    votes: &Accepted,
    rsa: &Fingerprint,
    group: &[Belong],
    opinions: &mut Vec<Opinion>,
) -> Result<(), Memory>
    requires members { AreMembers votes.now.votes group.now }
    requires listings { listings_at votes.now.votes group.now ≡ listings votes.now.votes rsa.now }
    ensures { OnOk result (out.new.items ≡ out.old.items ++ reports.lines_of listed.now votes.now.votes rsa.now) }
{
    opinions_at(alloc, votes, group, opinions)?;
    push_relay(alloc, out, listed.has(rsa), &rsa.0, opinions)
}

/// Appends the lines of all relays that some vote lists, ascending by identity, where the consensus lists those in `listed`.
fn push_voted(
    alloc: Global,
    out: &mut Vec<u8>,
    listed: &IdentitySet,
    votes: &Accepted,
) -> Result<(), Memory>
    ensures { OnOk result (out.new.items ≡ out.old.items ++ reports.all_relays listed.now votes.now.votes) }
{
    let mut group = Vec::with_capacity(alloc, votes.len())?;
    let mut opinions = Vec::new(alloc);
    let mut walk = Merge::new(alloc, votes)?;
    'relays: while let Some(rsa) = walk.next(&mut group) {
        push_group(alloc, out, listed, votes, &rsa, &group, &mut opinions)?;
    }
    Ok(())
}

/// Whether a vote lists a relay.
#[tactic(auto, using(crate::proofs::RelayWords::found_place))]
fn lists(vote: &Vote, rsa: &Fingerprint) -> bool
    ensures { result ≡ reports.lists rsa.now vote.now }
{
    place_of(vote, rsa).is_some()
}

/// Whether some vote lists a relay.
fn is_voted(votes: &Accepted, rsa: &Fingerprint) -> bool
    ensures { result ≡ list_any (reports.lists rsa.now) votes.now.votes }
{
    'votes: for number in 0..votes.len() {
        if lists(votes.vote(number).vote(), rsa) {
            return true;
        }
    }
    false
}

/// Appends the line of a relay of a consensus that no vote lists.
fn push_if_extra(out: &mut Vec<u8>, votes: &Accepted, router: &Routerline) -> Result<(), Memory>
    ensures { OnOk result (out.new.items ≡ out.old.items ++ reports.extra_line votes.now.votes router.now) }
{
    if is_voted(votes, &router.identity) {
        return Ok(());
    }
    push_line(out, b"extra", &router.identity.0)
}

/// Appends the line of each relay of a consensus that no vote lists.
#[tactic(auto, unfolding(crate::specs::Reports::extra_lines))]
fn push_extra(out: &mut Vec<u8>, votes: &Accepted, routers: &[Routerline]) -> Result<(), Memory>
    ensures { OnOk result (out.new.items ≡ out.old.items ++ reports.extra_lines votes.now.votes routers.now) }
{
    'routers: for router in routers {
        push_if_extra(out, votes, router)?;
    }
    Ok(())
}

/// Appends the lines of the relays of the votes and of a consensus.
#[tactic(auto, using(crate::proofs::RelayWords::all_set))]
pub(crate) fn push_relays(
    alloc: Global,
    out: &mut Vec<u8>,
    votes: &Accepted,
    routers: &[Routerline],
) -> Result<(), Memory>
    ensures { OnOk result (out.new.items ≡ out.old.items ++ reports.all_relays (reports.router_identities routers.now) votes.now.votes ++ reports.extra_lines votes.now.votes routers.now) }
{
    let listed = listed_by(alloc, routers)?;
    push_voted(alloc, out, &listed, votes)?;
    push_extra(out, votes, routers)
}
