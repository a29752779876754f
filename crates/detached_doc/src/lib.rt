//! Detached signatures: reading them, and their text (dir-spec, "Serving and fetching detached signatures"). Objects,
//! and bytes in hex digits, on a page (dir-spec, "Document meta-format").
#![tactic(auto)]

mod detached;
mod facts;
mod held;
mod hex_digits;
mod kept;
mod object;
mod ordered;
mod reading;
mod said;
mod writing;

pub use detached::{AdditionalDigest, Detached, DetachedLine};
pub use detached_frame::DetachedFrame;
pub use held::held_signatures;
pub use hex_digits::put_hex_bytes;
pub use object::put_object;
pub use reading::read;
pub use writing::write;
