// What the items of a microdescriptor say.
ghost use Rattle.std.specs.Prelude.{◌≡◌};
ghost use Rattle.dirdoc_grammar.specs.Seen.{seen_item, IsInside};
ghost use Rattle.micro_desc.specs.Lines as lines;

use crate::said::MicroId;
use descriptor_frame::key;
use dirdoc_grammar::Item;
use frame_values::{Span, arguments_of, field, object_of, take_argument};
use relay_entries::identity;

/// Where the lines of the item's object stand, where it has one.
pub(crate) fn onion_key_of(item: &Item<'_>) -> Option<Span>
    requires { IsInside item.now }
    ensures { result ≡ lines.onion_key_of (seen_item item.now) }
{
    object_of(true, item).ok()
}

/// Whose microdescriptor it is.
pub(crate) fn id_of(item: &Item<'_>) -> Result<MicroId, u64>
    requires { IsInside item.now }
    ensures { result ≡ lines.id_of (seen_item item.now) }
{
    let mut arguments = arguments_of(item);
    let kind = take_argument(&mut arguments, item.place);
    let value = take_argument(&mut arguments, item.place);
    if kind.text == b"ed25519".as_slice() {
        Ok(MicroId::Ed25519(field(&value, key(value.text))?))
    } else if kind.text == b"rsa1024".as_slice() {
        Ok(MicroId::Rsa1024(field(&value, identity(value.text))?))
    } else {
        Err(kind.place)
    }
}
