//! All workers of an authority, from the opening of their gates to the report of what they left. The report on an
//! authority's period: how many changes were made, and a line for each of the period.
#![tactic(auto)]

mod attendant;
mod digest;
mod kind;
mod outside;
mod reporting;
mod serving;
mod staff;
mod working;
mod writing;

pub use outside::Outside;
pub use serving::{Served, serve};
pub use writing::write;
