//! A rehearsal: whole votes made from a number, read, checked and held, their consensus computed, and its digests.
#![tactic(auto)]

mod authority;
mod casting;
mod certificate;
mod draws;
mod entry;
mod facts;
mod identities;
mod listing;
mod names;
mod relay;
mod summary;
mod sure_keys;
mod voting;

pub use summary::rehearse;
