//! Entries of relays: what the items of an entry say, in every document that lists relays (dir-spec, "Vote and consensus status
//! document formats"), and the rules across entries.
#![tactic(auto)]

mod fields;
mod flags;
mod frame;
mod key_set;
mod lines;
mod listed;
mod said;
mod texts;
mod value;

pub use fields::{identity, with_argument};
pub use flags::flags_of;
pub use frame::entry_shape;
pub use key_set::KeySet;
pub use list_values::Parts;
pub use listed::{Listed, none_listed, note_entry};
pub use said::{Bandwidths, EdOpinion, EntryKind, EntryValue, MicroLine, RelayLine};
pub use texts::{push_bandwidths, push_micro, push_named, push_reached};
pub use value::{entry_value, is_ignored, too_many_entries};
