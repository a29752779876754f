// What the authorities say of a relay.
ghost use Rattle.std.specs.{Prelude.{◌≡◌, Some, IfOk, IsSome, OnOk, map, option_map}, List.fold};
ghost use Rattle.item_terms.specs.Words.{words_of};
ghost use Rattle.dir_values.specs.FlagSets.{with_flag, as_set};
ghost use Rattle.compute_terms.specs.Listings as listings;
ghost use Rattle.health_report.specs.Lines as lines;

use crate::opinion::Opinion;
use compute_terms::Belong;
use dir_bytes::{Memory, Text};
use dir_values::{FlagSet, WordSet};
use relay_select::entry_at;
use std::alloc::Global;
use vote_doc::Accepted;

/// The set of the flags that stand in a text.
fn flags_of(alloc: Global, text: &[u8]) -> Result<FlagSet, Memory>
    ensures { IfOk result (λ flags. flags ≡ as_set (words_of text.now)) }
{
    let mut flags = FlagSet::new(alloc);
    flags.insert_words(alloc, text)?;
    Ok(flags)
}

/// What the authority of a vote says of a relay in the entry at this place.
fn opinion_at(alloc: Global, votes: &Accepted, at: &Belong) -> Result<Opinion, Memory>
    requires { IsSome (listings.listing_at votes.now.votes at.now) }
    ensures { IfOk result (λ opinion. option_map lines.opinion_of (listings.listing_at votes.now.votes at.now) ≡ Some opinion) }
{
    let vote = votes.vote(at.vote).vote();
    let authority = vote.identity();
    let entry = entry_at(votes, at);
    let text = entry.flags();
    let flags = flags_of(alloc, text)?;
    Ok(Opinion { authority, flags })
}

/// Replaces what is in `opinions` by what the authorities say in the entries at these places.
pub(crate) fn opinions_at(
    alloc: Global,
    votes: &Accepted,
    members: &[Belong],
    opinions: &mut Vec<Opinion>,
) -> Result<(), Memory>
    requires { listings.AreMembers votes.now.votes members.now }
    ensures { OnOk result (opinions.new.items ≡ map lines.opinion_of (listings.listings_at votes.now.votes members.now)) }
{
    opinions.clear();
    'members: for at in members {
        let opinion = opinion_at(alloc, votes, at)?;
        opinions.push(opinion)?;
    }
    Ok(())
}

/// Puts flags into a set of words.
fn add_flags<'a>(flags: &'a FlagSet, words: &mut WordSet<'a>) -> Result<(), Memory>
    ensures { OnOk result (words.new ≡ fold with_flag words.old flags.now) }
{
    'flags: for i in 0..flags.len() {
        words.insert(flags.flag(i))?;
    }
    Ok(())
}

/// The flags that some opinion sets, in the order of their bytes.
#[tactic(auto, unfolding(crate::specs::Lines::flags_set))]
pub(crate) fn flags_set(alloc: Global, opinions: &[Opinion]) -> Result<Vec<Text>, Memory>
    ensures { IfOk result (λ flags. flags.items ≡ lines.flags_set opinions.now) }
{
    let mut words = WordSet::new(alloc);
    'opinions: for opinion in opinions {
        add_flags(&opinion.flags, &mut words)?;
    }
    words.copies(alloc)
}
