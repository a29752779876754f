//! Documents are read by the tables of their kinds (dir-spec). No kind is known here.
#![tactic(auto)]

mod decision;
mod document;
mod frame;
mod order;
mod reader;
mod section;
mod standing;
mod step;
mod turning;

pub use decision::{first_fault, step_by};
pub use document::{Facts, read_document};
pub use frame::{Frame, given};
pub use reader::Reader;
pub use step::Step;
