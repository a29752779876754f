//! A mirror: its words, the round that asks its peers, and the connections that it serves between. The words of a
//! mirror: which authorities, peers and address they tell; and how a run of a mirror ends.
#![tactic(auto)]

mod asking;
mod command_line;
mod keeper;
mod keeping;
mod outside;
mod paths;
mod peers;
mod program;
mod round;
mod status;
mod words;

pub use keeping::{Kept, keep_mirror};
pub use outside::MirrorOutside;
pub use program::run_mirror;
pub use status::{MirrorStatus, report};
pub use words::{MirrorWords, mirror_words_of};
