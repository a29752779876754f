// Items that say flags.
ghost use Rattle.dirdoc_grammar.specs.Seen.{seen_item, IsInside};
ghost use Rattle.frame_reader.specs.Giving.{Gives};
ghost use Rattle.frame_values.specs.Faults.{at_place};
ghost use Rattle.frame_values.specs.Lines as lines;

use dirdoc_grammar::Item;
use frame_reader::given;
use frame_terms::ReadRefusal;
use frame_values::{Span, at_place, flags_of as read_flags};
use std::alloc::Global;

/// Where flags stand, in any number, none of them twice.
///
/// # Errors
/// `Value` at the first argument that is no flag or stands before too, or want of memory.
pub fn flags_of(alloc: Global, item: &Item<'_>) -> Result<Span, ReadRefusal>
    requires { IsInside item.now }
    ensures { Gives (at_place (lines.flags_of (seen_item item.now))) result }
{
    match read_flags(alloc, item) {
        Ok(read) => given(at_place(read)),
        Err(_) => Err(ReadRefusal::Memory),
    }
}
