// What is wrong with what an item says.
ghost use Rattle.std.specs.Prelude.{◌≡◌};
ghost use Rattle.dirdoc_grammar.specs.Seen.{seen_item, IsInside};
ghost use Rattle.frame_values.specs.Faults as faults;

use crate::arguments::{are_above, arguments_of};
use dirdoc_grammar::Item;
use frame_terms::{FrameFault, FrameReason, Limit};

/// What an item says, or the fault at the place of what is wrong.
pub fn at_place<V>(value: Result<V, u64>) -> Result<V, FrameFault>
    ensures { result ≡ faults.at_place value }
{
    match value {
        Ok(value) => Ok(value),
        Err(place) => Err(FrameFault {
            place,
            reason: FrameReason::Value,
        }),
    }
}

/// The fault of an item that has more arguments than a limit.
pub fn too_many(limit: Limit, item: &Item<'_>) -> Result<(), FrameFault>
    requires { IsInside item.now }
    ensures { result ≡ faults.too_many limit (seen_item item.now) }
{
    if are_above(limit.number(), &mut arguments_of(item)) {
        Err(FrameFault {
            place: item.place,
            reason: FrameReason::TooMany(limit),
        })
    } else {
        Ok(())
    }
}
