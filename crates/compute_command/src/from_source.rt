// The command that computes a consensus, over a source.
ghost use Rattle.std.specs.Prelude.{◌≡◌, ◌≤◌, ◌<◌, ◌+◌, ◌^◌, Err, IfErr};
ghost use Rattle.dir_bytes.specs.{Causes.Rose, Streams.TakesAtMost};
ghost use Rattle.key_port.specs.Answers.{rules};
ghost use Rattle.compute_command.specs.{Asked.{AsksFrom, AsksReading}, Arriving.{ComputesFrom, HasReadVotes}};
ghost use Rattle.compute_command.specs.Arriving.{StopsReading, TellsRead, TellsVerifier};

use crate::arriving::Arriving;
use crate::consensus::text_of;
use crate::halt::Halt;
use crate::refusal::ComputeRefusal;
use daemon_words::{Compute, Stop};
use dir_bytes::{ReadAnswer, Source};
use key_port::Verifier;
use std::alloc::Global;

/// The input of a source, read to its end, of which each vote was checked as it ended.
///
/// # Errors
/// `TooLong` where it has more bytes than `limit`; `ReadFault` where the source failed; `Stops` is want of memory.
fn read_votes<S: Source, V: Verifier>(
    alloc: Global,
    wanted: &Compute,
    source: &mut S,
    limit: u64,
    verifier: &mut V,
) -> Result<Arriving, Halt>
    requires { limit < 2 ^ 60 }
    ensures reads { HasReadVotes (rules V.may_accept V.may_refuse) wanted.now (S.left source.old) (S.left source.new) limit result }
    // A refused reading took bytes off the front: at most the limit, and one piece.
    ensures refused { IfErr result (λ _. TakesAtMost (S.left source.old) (S.left source.new) (limit + 65536)) }
    ensures fault { result ≡ Err Halt.ReadFault → Rose (S.faults source.old) (S.faults source.new) }
    ensures told { S.faults source.old < S.faults source.new → result ≡ Err Halt.ReadFault }
    ensures verifier { TellsRead (V.faults verifier.old) (V.faults verifier.new) result }
    ensures asked { AsksReading V.steps (rules V.may_accept V.may_refuse) wanted.now (S.left source.old) (S.left source.new) verifier.old verifier.new result }
{
    let mut arriving = Arriving::new(alloc)?;
    let mut piece = [0u8; 65536];
    let mut room = limit;
    'pieces: loop {
        match source.read(&mut piece) {
            ReadAnswer::Got(count) => {
                if count as u64 > room {
                    return Err(Halt::TooLong);
                }
                room -= count as u64;
                arriving = arriving.take(alloc, wanted, &piece[..count], verifier)?;
            }
            ReadAnswer::End => return Ok(arriving),
            ReadAnswer::Failed => return Err(Halt::ReadFault),
        }
    }
}

/// The unsigned texts of the consensus of the votes that a source has, in the flavours that are wanted, or why there is
/// none. There may be up to `limit` bytes. Each vote is checked as it ends, before the source is asked again; none is
/// checked behind one that is refused, or behind a fault. One vote is kept for each authority, and the bytes behind the
/// last vote that was read.
///
/// # Errors
/// By the first that applies: `ReadFault`, where the source failed; `TooLong`; and `Stops`: `Fault`, the input's first
/// fault; `Vote`, the first vote that is not acceptable, or `Verifier` where its count of faults rose; `TooFew`. `Memory`
/// is want of memory.
pub fn compute_from<S: Source, V: Verifier>(
    alloc: Global,
    wanted: &Compute,
    source: &mut S,
    limit: u64,
    verifier: &mut V,
) -> Result<Vec<u8>, Halt>
    requires { limit < 2 ^ 60 }
    ensures answer { ComputesFrom (rules V.may_accept V.may_refuse) wanted.now (S.left source.old) (S.left source.new) limit result }
    // An input that was not read to its end had bytes taken off the front: at most the limit, and one piece.
    ensures stops { StopsReading (S.left source.old) (S.left source.new) (limit + 65536) result }
    ensures fault { result ≡ Err Halt.ReadFault → Rose (S.faults source.old) (S.faults source.new) }
    ensures told { S.faults source.old < S.faults source.new → result ≡ Err Halt.ReadFault }
    ensures verifier_fault { result ≡ Err (Halt.Stops (Stop.Refused ComputeRefusal.Verifier)) → Rose (V.faults verifier.old) (V.faults verifier.new) }
    ensures verifier_told { V.faults verifier.old < V.faults verifier.new → TellsVerifier result }
    // The verifier was asked of the votes before the input's end or its first fault, up to the first that is refused, and of nothing else.
    ensures asked { AsksFrom V.steps (rules V.may_accept V.may_refuse) wanted.now (S.left source.old) (S.left source.new) result verifier.old verifier.new }
{
    let arriving = read_votes(alloc, wanted, source, limit, verifier)?;
    let accepted = arriving.end()?;
    let text = text_of(alloc, wanted, &accepted)?;
    Ok(text)
}
