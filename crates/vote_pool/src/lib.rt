//! The descriptors that an authority holds: one of each relay, with the summary and the microdescriptor that are made of it.
#![tactic(auto)]

mod answers;
mod entry;
mod keeping;
mod kept;
mod laws;
mod pool;
mod preparing;
mod rank;

pub use answers::Keep;
pub use entry::PoolEntry;
pub use kept::KeptDescriptor;
pub use laws::{changes_are_held, others_stay, replaced_are_older};
pub use pool::Pool;
pub use preparing::prepare;
pub use rank::DescriptorRank;
