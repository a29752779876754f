// What is remembered across the sections of a vote.
ghost use Rattle.std.specs.Prelude.{◌≡◌};
ghost use Rattle.frame_terms.specs.Refusals.{Becomes};
ghost use Rattle.vote_frame.specs.Across as memory;

use frame_terms::{FrameFault, FrameReason, Keyword, ReadRefusal};
use relay_entries::{Listed, none_listed};
use std::alloc::Global;
use value_groups::{RandomLine, SharedRandom};

/// What is remembered across the sections of a vote.
#[derive(Debug, Drop)]
pub struct Across {
    /// The relays that it lists so far.
    pub listed: Listed,
    /// Whether its previous shared random value stands.
    pub has_previous: bool,
    /// Whether its current one stands.
    pub has_current: bool,
}

/// Nothing yet.
pub(crate) fn nothing_across(alloc: Global) -> Across
    ensures { result ≡ memory.nothing_across }
{
    Across {
        listed: none_listed(alloc),
        has_previous: false,
        has_current: false,
    }
}

/// The keyword of a line.
fn keyword_of(line: RandomLine) -> Keyword
    ensures { result ≡ memory.keyword_of line }
{
    match line {
        RandomLine::Previous => Keyword::SharedRandPreviousValue,
        RandomLine::Current => Keyword::SharedRandCurrentValue,
    }
}

/// Whether a line stands.
fn has_line(across: &Across, line: RandomLine) -> bool
    ensures { result ≡ memory.has_line across.now line }
{
    match line {
        RandomLine::Previous => across.has_previous,
        RandomLine::Current => across.has_current,
    }
}

/// Remembers that a line stands.
fn set_line(across: &mut Across, line: RandomLine)
    ensures { across.new ≡ memory.with_line across.old line }
{
    match line {
        RandomLine::Previous => across.has_previous = true,
        RandomLine::Current => across.has_current = true,
    }
}

/// Remembers a shared random value, or the place of what is wrong with it, of an item that begins at a place.
///
/// # Errors
/// `Twice` where the line stands before, in whichever section; else `Value` at what is wrong.
pub(crate) fn note_random(
    across: &mut Across,
    place: u64,
    line: RandomLine,
    read: Result<SharedRandom, u64>,
) -> Result<(), ReadRefusal>
    ensures { Becomes (memory.note_random across.old place line read) across.new result }
{
    if has_line(across, line) {
        let reason = FrameReason::Twice(keyword_of(line));
        return Err(ReadRefusal::Frame(FrameFault { place, reason }));
    }
    match read {
        Ok(_) => {
            set_line(across, line);
            Ok(())
        }
        Err(wrong) => Err(ReadRefusal::Frame(FrameFault {
            place: wrong,
            reason: FrameReason::Value,
        })),
    }
}
