//! The board that workers share: a state and a pool of descriptors, each under its own lock. What is said of a board
//! that workers share, and of its passes: in `specs/` the definitions, in `proofs/` what its calls will cite. Laws of
//! passes of a board: how a pass goes on by what it makes and sees. In `specs/` the definitions, in `proofs/` the laws.
#![tactic(auto)]

mod advancing;
mod board;
mod closing;
mod documents;
mod opening;
mod pass;
mod period;
mod question;
mod reserve;
mod signing;
mod voting;

pub use board::Board;
pub use closing::Rooms;
pub use pass::Pass;
pub use period::Period;
pub use question::Question;
pub use reserve::Reserve;
