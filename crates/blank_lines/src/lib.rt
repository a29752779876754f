//! Lines that may stand behind a document: blank ones, and those that begin with a keyword; and a document behind other bytes.
#![tactic(auto)]

mod behind;
mod blanks;
mod ends;
mod keywords;

pub use behind::{fault_behind, refusal_behind};
pub use blanks::after_blanks;
pub use ends::ends_at;
pub use keywords::{before_extra, has_keyword, line_text};
