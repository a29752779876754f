//! Streams, dialogues, items, values, weights, flags and locks: tests alone, of what stands below every document.
#![tactic(auto)]

#[cfg(test)]
mod certificates;
#[cfg(test)]
mod dialogues;
#[cfg(test)]
mod edges;
#[cfg(test)]
mod families;
#[cfg(test)]
mod flags;
#[cfg(test)]
mod notes;
#[cfg(test)]
mod policies;
#[cfg(test)]
mod schedules;
#[cfg(test)]
mod signatures;
#[cfg(test)]
mod streams;
#[cfg(test)]
mod texts;
#[cfg(test)]
mod turns;
#[cfg(test)]
mod values;
#[cfg(test)]
mod weights;
