// The entries at places of the votes.
ghost use Rattle.std.specs.Prelude.{◌≡◌, Some, IsSome, OnOk, OnErr, option_map};
ghost use Rattle.compute_terms.specs.Listings as listings;
ghost use Rattle.compute_terms.specs.Identities.{eds_of};

use compute_terms::Belong;
use dir_bytes::Memory;
use relay_entries::EdOpinion;
use vote_doc::{Accepted, Entry};

/// The entry at a place.
pub fn entry_at<'a>(votes: &'a Accepted, at: &Belong) -> Entry<'a>
    requires { IsSome (listings.listing_at votes.now.votes at.now) }
    ensures { option_map (λ l. l.entry) (listings.listing_at votes.now.votes at.now) ≡ Some result }
{
    votes.vote(at.vote).vote().entry(at.entry)
}

/// Replaces what is in `entries` by the entries at these places. Without memory it stays as it was.
pub fn entries_at<'a>(
    votes: &'a Accepted,
    members: &[Belong],
    entries: &mut Vec<Entry<'a>>,
) -> Result<(), Memory>
    requires { listings.AreMembers votes.now.votes members.now }
    ensures ok { OnOk result (entries.new.items ≡ listings.entries_of (listings.listings_at votes.now.votes members.now)) }
    ensures err { OnErr result (entries.new.items ≡ entries.old.items) }
{
    entries.try_reserve(members.len())?;
    entries.clear();
    'members: for at in members {
        entries.push_reserved(entry_at(votes, at));
    }
    Ok(())
}

/// Replaces what is in `eds` by what the `id` lines of the entries at these places say. Without memory it stays as it was.
pub fn eds_at(votes: &Accepted, members: &[Belong], eds: &mut Vec<EdOpinion>) -> Result<(), Memory>
    requires { listings.AreMembers votes.now.votes members.now }
    ensures ok { OnOk result (eds.new.items ≡ eds_of (listings.listings_at votes.now.votes members.now)) }
    ensures err { OnErr result (eds.new.items ≡ eds.old.items) }
{
    eds.try_reserve(members.len())?;
    eds.clear();
    'members: for at in members {
        eds.push_reserved(entry_at(votes, at).ed());
    }
    Ok(())
}
