// Where an input ends.
ghost use Rattle.std.specs.Prelude.{◌≡◌, ◌≤◌, ◌<◌, ◌^◌, length};
ghost use Rattle.blank_lines.specs.Ends as ends;

use dirdoc_grammar::Items;
use item_terms::NO_LIMIT;

/// Whether only blank lines follow a place, none of which is too long for a line.
pub fn ends_at(bytes: &[u8], place: usize) -> bool
    requires within { place ≤ length bytes.now }
    requires short { length bytes.now < 2 ^ 61 }
    ensures { result ≡ ends.ends_at place bytes.now }
{
    matches!(
        Items::starting_at(bytes, place as u64, NO_LIMIT).next(),
        Ok(None)
    )
}
