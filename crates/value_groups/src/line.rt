// What the line of a shared random value says.
ghost use Rattle.std.specs.Prelude.{◌≡◌};
ghost use Rattle.dirdoc_grammar.specs.Seen.{seen_item, IsInside};
ghost use Rattle.value_groups.specs.Lines as lines;

use crate::value::{SharedRandom, padded_digest};
use dir_values::number_of;
use dirdoc_grammar::Item;
use frame_values::{arguments_of, field, take_argument};

/// The lines that say a shared random value.
#[derive(Clone, Copy, Debug)]
pub enum RandomLine {
    /// `shared-rand-previous-value`, the value of the period before the one that begins.
    Previous,
    /// `shared-rand-current-value`, the value of the period that begins.
    Current,
}

/// A count below 2 ^ 32, and a value in base64.
///
/// # Errors
/// The place of the first of both that is wrong, and the item's where it is missing.
pub fn random_of(item: &Item<'_>) -> Result<SharedRandom, u64>
    requires { IsInside item.now }
    ensures { result ≡ lines.random_of (seen_item item.now) }
{
    let mut arguments = arguments_of(item);
    let first = take_argument(&mut arguments, item.place);
    let second = take_argument(&mut arguments, item.place);
    let count = field(&first, number_of(first.text))?;
    let value = field(&second, padded_digest(second.text))?;
    Ok(SharedRandom { count, value })
}
