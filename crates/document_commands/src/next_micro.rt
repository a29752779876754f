// Where the next microdescriptor begins.
ghost use Rattle.std.specs.Prelude.{◌≡◌, ◌<◌, ◌^◌, length};
ghost use Rattle.item_terms.specs.Items.{items_of};
ghost use Rattle.micro_desc.specs.Reading.{max_micro};
ghost use Rattle.document_commands.specs.NextMicro as next;

use blank_lines::{after_blanks, has_keyword, line_text};
use dirdoc_grammar::Items;
use frame_terms::{FrameFault, FrameReason};

/// How many bytes a microdescriptor may have.
const MAX_MICRO: u64 = 65_536;

/// A fault of the first microdescriptor of an input, as it is told: one in the line or the object of the next one's `onion-key`
/// is that this line is out of order.
pub fn fault_of(bytes: &[u8], fault: FrameFault) -> FrameFault
    requires { length bytes.now < 2 ^ 61 }
    ensures { result ≡ next.unless_behind (next.next_micro bytes.now) fault }
{
    match next_micro(bytes) {
        Some(next) if next as u64 <= fault.place => FrameFault {
            place: next as u64,
            reason: FrameReason::Order,
        },
        _ => fault,
    }
}

/// Where the next microdescriptor begins, behind the items that stand before the first fault of a line or an object.
fn next_micro(bytes: &[u8]) -> Option<usize>
    requires { length bytes.now < 2 ^ 61 }
    ensures { result ≡ next.next_micro bytes.now }
{
    let after = after_last(bytes)?;
    if after > bytes.len() as u64 {
        return None;
    }
    let place = after_blanks(bytes, after as usize)?;
    if is_onion_key(line_text(&bytes[place..])) {
        Some(place)
    } else {
        None
    }
}

/// The place after the last item that stands before the first fault of a line or an object.
fn after_last(bytes: &[u8]) -> Option<u64>
    requires { length bytes.now < 2 ^ 61 }
    ensures { result ≡ next.after_last (items_of max_micro bytes.now).items }
{
    let mut items = Items::new(bytes, MAX_MICRO);
    let mut after = None;
    'items: while let Ok(Some(item)) = items.next() {
        after = Some(item.after);
    }
    after
}

/// Whether the keyword of a line is `onion-key`.
fn is_onion_key(line: &[u8]) -> bool
    ensures { result ≡ next.is_onion_key line.now }
{
    has_keyword(line, b"onion-key")
}
