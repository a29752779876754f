// The texts of the consensus of the held votes.
ghost use Rattle.std.specs.Prelude.{◌≡◌, IfOk};
ghost use Rattle.consensus_calc.specs.Calculating.{HasMoments};
ghost use Rattle.compute_command.specs.{Answers.texts_of, Private.WritesText};

use consensus_calc::{CalcFault, compute};
use consensus_terms::{Consensus, Flavour};
use consensus_text::{unsigned, unsigned_both};
use daemon_words::{Compute, Flavours};
use dir_bytes::Memory;
use std::alloc::Global;
use vote_doc::Accepted;

/// The texts of the consensus of the held votes in the flavours that are wanted, or why there are none.
///
/// # Errors
/// `TooFew` where they are not of more than half of the roster. `Memory` is want of memory.
pub(crate) fn text_of(
    alloc: Global,
    wanted: &Compute,
    accepted: &Accepted,
) -> Result<Vec<u8>, CalcFault>
    ensures { WritesText wanted.now accepted.now.votes result }
{
    let roster = wanted.roster.len() as u32;
    let consensus = compute(alloc, wanted.newest, roster, accepted)?;
    let text = texts_of(alloc, &consensus, wanted.flavours)?;
    Ok(text)
}

/// The texts of a consensus in these flavours; of both the ns flavour comes first.
fn texts_of(alloc: Global, consensus: &Consensus, flavours: Flavours) -> Result<Vec<u8>, Memory>
    requires { HasMoments consensus.now.facts }
    ensures { IfOk result (λ text. text.items ≡ texts_of flavours consensus.now) }
{
    match flavours {
        Flavours::Ns => unsigned(alloc, consensus, Flavour::Ns),
        Flavours::Microdesc => unsigned(alloc, consensus, Flavour::Microdesc),
        Flavours::Both => unsigned_both(alloc, consensus),
    }
}
