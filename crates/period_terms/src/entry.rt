// An entry of an authority's history.
use crate::answer::Answer;
use crate::event::Event;

/// An event that made a change, and its answer.
#[derive(Drop)]
pub struct Entry {
    /// What came, with all that it was given.
    pub event: Event,
    /// What it was answered.
    pub answer: Answer,
}
