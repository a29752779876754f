//! Pages: where a text is written into room that was reserved, or where its bytes are counted.
#![tactic(auto)]

mod page;
mod room;

pub use page::Page;
