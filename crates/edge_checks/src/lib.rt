//! Requests, responses, gates and links, passes of a board, votes that arrive, and how a run without memory ends: tests alone.
#![tactic(auto)]

#[cfg(test)]
mod arriving;
#[cfg(test)]
mod arriving_votes;
#[cfg(test)]
mod boards;
#[cfg(test)]
mod exchanges;
#[cfg(test)]
mod gates;
#[cfg(test)]
mod peers;
#[cfg(test)]
mod requests;
#[cfg(test)]
mod responses;
#[cfg(test)]
mod rows;
#[cfg(test)]
mod statuses;
