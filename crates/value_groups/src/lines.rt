// Where lists of values stand in the lines of items.
ghost use Rattle.std.specs.Prelude.{◌≡◌};
ghost use Rattle.dirdoc_grammar.specs.Seen.{seen_item, IsInside};
ghost use Rattle.frame_reader.specs.Giving.{Gives};
ghost use Rattle.frame_values.specs.Faults.{at_place};
ghost use Rattle.value_groups.specs.ListLines as lines;

use dirdoc_grammar::Item;
use frame_reader::given;
use frame_terms::ReadRefusal;
use frame_values::{Span, at_place, rest_unless};
use list_values::{first_wrong_param, wrong_protocol, wrong_version_list};
use std::alloc::Global;

/// Where params stand, in any number, no name twice. Of params that ascend by name it takes no memory.
///
/// # Errors
/// `Value` at the first argument that is no param or whose name stands before too, or want of memory.
pub fn params_of(alloc: Global, item: &Item<'_>) -> Result<Span, ReadRefusal>
    requires { IsInside item.now }
    ensures { Gives (at_place (lines.params_of (seen_item item.now))) result }
{
    match first_wrong_param(alloc, item.start, item.arguments) {
        Ok(wrong) => given(at_place(rest_unless(wrong, item))),
        Err(_) => Err(ReadRefusal::Memory),
    }
}

/// Where versions of Tor stand, with commas between them, or no version.
///
/// # Errors
/// The place of the first argument, where a part of it is no version.
pub fn versions_of(item: &Item<'_>) -> Result<Span, u64>
    requires { IsInside item.now }
    ensures { result ≡ lines.versions_of (seen_item item.now) }
{
    rest_unless(wrong_version_list(item.start, item.arguments), item)
}

/// Where versions of protocols stand, in any number.
///
/// # Errors
/// The place of the first argument that is no name of a protocol, `=` and ranges of numbers from 0 to 63.
pub fn protocols_of(item: &Item<'_>) -> Result<Span, u64>
    requires { IsInside item.now }
    ensures { result ≡ lines.protocols_of (seen_item item.now) }
{
    rest_unless(wrong_protocol(item.start, item.arguments), item)
}
