// What comes of more bytes of a vote.
ghost use Rattle.std.specs.Prelude.{◌≡◌, ◌≤◌, ◌+◌, length, true, vec_len, IfOk, OnErr, OnOk};
ghost use Rattle.vote_terms.specs.Votes.{max_vote};
ghost use Rattle.vote_feed.specs.{Feeding.IsOpen, Lending.{TakesIn, VoteWaits}};

use crate::intake::Intake;
use crate::machine::{Machine, Reached, read_on};
use dir_bytes::Memory;
use frame_terms::ReadRefusal;
use std::alloc::Global;

/// Reads bytes anew of which nothing is known, as far as they go.
///
/// # Errors
/// `Memory` is want of memory.
fn begun_anew(alloc: Global, bytes: &[u8]) -> Result<Machine, Memory>
    requires within { length bytes.now ≤ max_vote }
    requires open_ { IsOpen bytes.now }
    ensures { IfOk result (λ machine. VoteWaits bytes.now machine.cursor
        machine.reader.across machine.reader.state machine.kept) }
{
    let mut machine = Machine::new(alloc)?;
    match read_on(alloc, bytes, 0, &mut machine) {
        Ok(Reached::All) => Ok(machine),
        Ok(Reached::Whole(_)) => unreachable!(),
        Err(ReadRefusal::Frame(_)) => unreachable!(),
        Err(ReadRefusal::Memory) => Err(Memory),
    }
}

/// Reads bytes of which nothing is known as far as they go, where that was not done.
///
/// # Errors
/// `Memory` is want of memory.
pub(crate) fn make_ready(
    alloc: Global,
    is_ready: bool,
    bytes: &[u8],
    machine: &mut Machine,
) -> Result<(), Memory>
    requires waits { is_ready ≡ true
        → VoteWaits bytes.now machine.old.cursor machine.old.reader.across machine.old.reader.state machine.old.kept }
    requires within { length bytes.now ≤ max_vote }
    requires open_ { IsOpen bytes.now }
    ensures { OnOk result (VoteWaits bytes.now machine.new.cursor
        machine.new.reader.across machine.new.reader.state machine.new.kept) }
{
    if !is_ready {
        *machine = begun_anew(alloc, bytes)?;
    }
    Ok(())
}

/// Takes these bytes in, behind those of which nothing is known, up to the end of the vote. Without memory they are not
/// taken.
///
/// # Errors
/// `Memory` is want of memory.
pub(crate) fn take_in(
    alloc: Global,
    bytes: &mut Vec<u8>,
    machine: &mut Machine,
    part: &[u8],
) -> Result<Intake, Memory>
    requires waits { VoteWaits bytes.old.items machine.old.cursor machine.old.reader.across
        machine.old.reader.state machine.old.kept }
    requires within { vec_len bytes.old + length part.now ≤ max_vote + 1 }
    ensures ok { IfOk result (λ intake. TakesIn bytes.old.items part.now bytes.new.items
        machine.new.cursor machine.new.reader.across machine.new.reader.state machine.new.kept intake) }
    ensures err { OnErr result (bytes.new.items ≡ bytes.old.items) }
{
    let known = bytes.len();
    bytes.extend_from_slice(part)?;
    match read_on(alloc, bytes, known, machine) {
        Ok(Reached::All) => Ok(Intake::All),
        Ok(Reached::Whole(used)) => {
            let used = used as usize;
            bytes.truncate(used);
            Ok(Intake::Whole {
                taken: used - known,
            })
        }
        Err(ReadRefusal::Frame(fault)) => {
            let taken = part.len();
            Ok(Intake::Fault { taken, fault })
        }
        Err(ReadRefusal::Memory) => {
            bytes.truncate(known);
            Err(Memory)
        }
    }
}
