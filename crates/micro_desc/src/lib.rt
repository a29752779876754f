//! Microdescriptors: their items, reading and writing them, their digest, and making one of a server descriptor (dir-spec,
//! "Computing microdescriptors").
#![tactic(auto)]

mod families;
mod frame;
mod head;
mod lines;
mod making;
mod micro;
mod reading;
mod said;
mod writing;

pub use frame::MicroFrame;
pub use head::{MicroHead, head_of, micro_at};
pub use making::{make, make_with_families};
pub use micro::Micro;
pub use reading::read;
pub use said::{MicroId, MicroKind, MicroValue};
pub use writing::{digest, write};
