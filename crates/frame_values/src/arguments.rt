// The arguments of an item.
ghost use Rattle.std.specs.Prelude.{◌≡◌, ◌<◌, ◌+◌, ◌^◌, nat_lt, length};
ghost use Rattle.dir_values.specs.Taking.{argument_of};
ghost use Rattle.dirdoc_grammar.specs.Seen.{seen_item, IsInside};
ghost use Rattle.frame_values.specs.Arguments as terms;

use dir_values::{Argument, Arguments};
use dirdoc_grammar::Item;

/// The arguments of an item.
pub fn arguments_of<'a>(item: &Item<'a>) -> Arguments<'a>
    requires { IsInside item.now }
    ensures { result ≡ terms.arguments_of (seen_item item.now) }
{
    Arguments::at(item.start, item.arguments)
}

/// Whether there are more arguments than a limit.
pub fn are_above(limit: u64, arguments: &mut Arguments<'_>) -> bool
    ensures { result ≡ nat_lt limit (length arguments.old) }
{
    let mut left = limit;
    'arguments: while let Some(_) = arguments.next() {
        if left == 0 {
            return true;
        }
        left -= 1;
    }
    false
}

/// The next argument, or an empty one at the item's place where none is left.
pub fn take_argument<'a>(arguments: &mut Arguments<'a>, item: u64) -> Argument<'a>
    ensures front { argument_of result ≡ terms.front item arguments.old }
    ensures others { arguments.new ≡ terms.others arguments.old }
    ensures inside { result.place + length result.text.now < 2 ^ 64 }
{
    match arguments.next() {
        Some(argument) => argument,
        None => Argument {
            place: item,
            text: &[],
        },
    }
}
