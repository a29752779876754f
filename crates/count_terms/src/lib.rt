//! Majorities and medians: in `specs/` the definitions of what many voters say together; and the newest consensus method that
//! is known. No functions.
#![tactic(auto)]

mod newest;

pub use newest::Newest;
