//! The vote that an authority makes: of what it is given and of the descriptors that it holds, signed.
#![tactic(auto)]

mod address;
mod copies;
mod entry;
mod facts;
mod known;
mod listing;
mod making;
mod measures;
mod parts;
mod refusal;
mod signing;
mod version;

pub use known::{accepts_web, kilobytes_of};
pub use making::make;
pub use refusal::MakeRefusal;
