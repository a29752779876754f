// A document, as far as its items were read.
ghost use Rattle.std.specs.Prelude.{◌≡◌};
ghost use Rattle.dirdoc_grammar.specs.Seen.{seen_item, IsInside};
ghost use Rattle.frame_terms.specs.Documents as documents;
ghost use Rattle.frame_reader.specs.Turning.{Closes, Turns};

use crate::document::{Facts, missing_at_end};
use crate::frame::Frame;
use crate::section::refused;
use crate::turning::turn;
use dir_bytes::Seq;
use dirdoc_grammar::Item;
use frame_terms::{FrameReason, Open, ReadRefusal};
use std::alloc::Global;

/// A document, as far as its items were read.
#[derive(Drop)]
pub struct Reader<F: Frame> {
    /// What is remembered of its items.
    pub across: F::Across,
    /// The section that is open.
    pub state: Open<F::Section, F::Value>,
}

impl<F: Frame> Reader<F> {
    /// Nothing of a document yet.
    pub fn new(alloc: Global, frame: F) -> Reader<F>
        ensures across { result.across ≡ (F.tables frame).start }
        ensures state { result.state ≡ documents.start (F.tables frame) }
    {
        Reader {
            across: frame.start(alloc),
            state: Open {
                section: frame.first(),
                taken: Seq::new(Vec::new(alloc)),
                around: None,
            },
        }
    }

    /// Takes the next item. Gives the place after the document where it ends there.
    ///
    /// # Errors
    /// The first fault of the document, or want of memory. What is read so far is then of no use.
    pub fn take<K: Facts<F>>(
        &mut self,
        alloc: Global,
        frame: F,
        facts: &mut K,
        item: &Item<'_>,
    ) -> Result<Option<u64>, ReadRefusal>
        requires { IsInside item.now }
        ensures { Turns K.with (F.tables frame) (seen_item item.now) self.old.across self.old.state facts.old self.new.across self.new.state facts.new result }
    {
        turn(alloc, frame, &mut self.across, &mut self.state, facts, item)
    }

    /// Ends the document, where an input of so many bytes ends behind the items that were taken.
    ///
    /// # Errors
    /// What is missing there, or want of memory.
    #[tactic(auto, using(crate::proofs::Closing::closes))]
    pub fn end<K: Facts<F>>(&self, frame: F, length: u64, facts: &mut K) -> Result<u64, ReadRefusal>
        ensures { Closes K.with (F.tables frame) length self.now.state facts.old facts.new result }
    {
        let state = &self.state;
        if let Some(missing) = missing_at_end(frame, state.section, state.taken.as_slice()) {
            return Err(refused(length, FrameReason::Missing(missing)));
        }
        facts.close(state.section, state.taken.as_slice())?;
        Ok(length)
    }
}
