//! The terms of the frames of directory documents (dir-spec): their keywords, the rows of their tables, their faults, and
//! in `specs/` what an item makes of a document that has given tables. Each kind of document has its own.
#![tactic(auto)]

mod document;
mod fault;
mod keyword;
mod keyword_text;
mod row;
mod section;
mod vocabulary;

pub use document::{Group, Made, Open, Taken};
pub use fault::{FrameFault, FrameReason, ReadRefusal};
pub use keyword::Keyword;
pub use row::{Count, Limit, Row};
pub use section::{Again, Shape};
pub use vocabulary::keyword_of;
