//! The items of a document of the directory protocol, borrowed from its bytes (dir-spec,
//! meta-format).
#![tactic(auto)]

mod base64_text;
mod bytes;
mod cursor;
mod front;
mod item;
mod items;
mod laws;
mod line;
mod object;
mod take;
mod writer;

pub use cursor::Cursor;
pub use front::{Phase, Stop};
pub use item::{Item, ObjectText, decode_lines};
pub use item_terms::{DocFault, DocReason};
pub use items::Items;
pub use laws::stand_in_place;
pub use take::Take;
pub use writer::{Stage, Writer, push_line, push_object};
