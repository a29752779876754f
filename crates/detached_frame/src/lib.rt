//! Detached signatures as a kind of document: the table of its items, and what the items say (dir-spec, "Serving and
//! fetching detached signatures").
#![tactic(auto)]

mod frame;
mod lines;
mod said;

pub use frame::DetachedFrame;
pub use said::{AdditionalDigestLine, AdditionalSignatureLine, DetachedKind, DetachedValue};
