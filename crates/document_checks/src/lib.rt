//! Votes that are placed and walked, signatures of consensuses, descriptors from outside: tests alone, of the crates of documents.
#![tactic(auto)]

#[cfg(test)]
mod descriptors;
#[cfg(test)]
mod holding;
#[cfg(test)]
mod making;
#[cfg(test)]
mod placing;
#[cfg(test)]
mod pooling;
#[cfg(test)]
mod said;
#[cfg(test)]
mod signatures;
#[cfg(test)]
mod signed_parts;
#[cfg(test)]
mod votes;
#[cfg(test)]
mod walks;
