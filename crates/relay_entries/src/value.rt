// What an item of an entry says, in a document that lists relays.
ghost use Rattle.std.specs.Prelude.{◌≡◌};
ghost use Rattle.dirdoc_grammar.specs.Seen.{seen_item, IsInside};
ghost use Rattle.frame_reader.specs.Giving.{Gives};
ghost use Rattle.frame_values.specs.Faults.{at_place};
ghost use Rattle.relay_entries.specs.Lines as lines;
ghost use Rattle.relay_entries.specs.Listing as listing;

use crate::flags::flags_of;
use crate::lines::{address_of, bandwidths_of, ed_of, micro_of, relay_of};
use crate::listed::Listed;
use crate::said::{EntryKind, EntryValue};
use dirdoc_grammar::Item;
use frame_reader::given;
use frame_terms::{FrameFault, FrameReason, Limit, ReadRefusal};
use frame_values::{Value, arguments_of, at_place, rest_of, take_argument};

/// The fault of an item of this kind that begins one entry more than may stand.
pub fn too_many_entries(listed: &Listed, kind: EntryKind, item: &Item<'_>) -> Result<(), FrameFault>
    ensures { result ≡ listing.too_many_entries listed.now kind (seen_item item.now) }
{
    match kind {
        EntryKind::Relay => {
            if listed.count < Limit::Entries.number() {
                Ok(())
            } else {
                Err(FrameFault {
                    place: item.place,
                    reason: FrameReason::TooMany(Limit::Entries),
                })
            }
        }
        _ => Ok(()),
    }
}

/// What an item of the kind `Relay` says.
fn relay_value(item: &Item<'_>) -> Result<Value<EntryValue>, ReadRefusal>
    requires { IsInside item.now }
    ensures { Gives (at_place (lines.entry_value EntryKind.Relay (seen_item item.now))) result }
{
    let relay = given(at_place(relay_of(item)))?;
    Ok(Value::Own(EntryValue::Relay(relay)))
}

/// What an item of the kind `Bandwidths` says.
fn bandwidths_value(item: &Item<'_>) -> Result<Value<EntryValue>, ReadRefusal>
    requires { IsInside item.now }
    ensures { Gives (at_place (lines.entry_value EntryKind.Bandwidths (seen_item item.now))) result }
{
    let said = given(at_place(bandwidths_of(item)))?;
    Ok(Value::Own(EntryValue::Bandwidths(said)))
}

/// What an item of the kind `Micro` says.
fn micro_value(item: &Item<'_>) -> Result<Value<EntryValue>, ReadRefusal>
    requires { IsInside item.now }
    ensures { Gives (at_place (lines.entry_value EntryKind.Micro (seen_item item.now))) result }
{
    let micro = given(at_place(micro_of(item)))?;
    Ok(Value::Own(EntryValue::Micro(micro)))
}

/// What an item of the kind `Ed` says.
fn ed_value(item: &Item<'_>) -> Result<Value<EntryValue>, ReadRefusal>
    requires { IsInside item.now }
    ensures { Gives (at_place (lines.entry_value EntryKind.Ed (seen_item item.now))) result }
{
    let opinion = given(at_place(ed_of(item)))?;
    Ok(Value::Own(EntryValue::Ed(opinion)))
}

/// What an item of an entry says. A kind that says much is read in a function of its own, so that the room for it is taken
/// for such items alone. Its memory is that of what is listed.
///
/// # Errors
/// `Value` at the place of what is wrong, or want of memory.
pub fn entry_value(
    listed: &Listed,
    kind: EntryKind,
    item: &Item<'_>,
) -> Result<Value<EntryValue>, ReadRefusal>
    requires { IsInside item.now }
    ensures { Gives (at_place (lines.entry_value kind (seen_item item.now))) result }
{
    match kind {
        EntryKind::Relay => relay_value(item),
        EntryKind::Address => Ok(Value::Text(given(at_place(address_of(item)))?)),
        EntryKind::Flags => Ok(Value::Text(flags_of(listed.keys.alloc(), item)?)),
        EntryKind::Rest => Ok(Value::Text(rest_of(item))),
        EntryKind::Bandwidths => bandwidths_value(item),
        EntryKind::Micro => micro_value(item),
        EntryKind::Ed => ed_value(item),
    }
}

/// Whether an item of this kind is passed over: an `id` of another kind of key than Ed25519 is.
pub fn is_ignored(kind: EntryKind, item: &Item<'_>) -> bool
    requires { IsInside item.now }
    ensures { result ≡ lines.is_ignored kind (seen_item item.now) }
{
    match kind {
        EntryKind::Ed => {
            let first = take_argument(&mut arguments_of(item), item.place);
            first.text != b"ed25519".as_slice()
        }
        _ => false,
    }
}
