// Which votes know which flags.
ghost use Rattle.std.specs.Prelude.{◌≡◌, IfOk, map};
ghost use Rattle.dir_values.specs.FlagSets.{has_flag};
ghost use Rattle.compute_terms.specs.RelayFlags.{knows};

use dir_bytes::{Memory, Seq};
use dir_values::FlagSet;
use std::alloc::Global;
use vote_doc::Accepted;

/// Of each vote which of these flags it knows.
pub fn known_by(alloc: Global, known: &FlagSet, votes: &Accepted) -> Result<Vec<Seq<bool>>, Memory>
    ensures { IfOk result (λ table. table.items ≡ map (λ vote. map (λ flag. knows flag vote) known.now) votes.now.votes) }
{
    let mut table = Vec::with_capacity(alloc, votes.len())?;
    'votes: for i in 0..votes.len() {
        let row = known_in(alloc, known, votes.vote(i).vote().known_flags())?;
        table.push(row)?;
    }
    Ok(table)
}

/// Which of these flags are in a set.
fn known_in(alloc: Global, known: &FlagSet, set: &FlagSet) -> Result<Seq<bool>, Memory>
    ensures { IfOk result (λ row. row ≡ map (λ flag. has_flag set.now flag) known.now) }
{
    let mut row = Vec::with_capacity(alloc, known.len())?;
    'flags: for i in 0..known.len() {
        row.push(set.contains(known.flag(i)))?;
    }
    Ok(Seq::new(row))
}
