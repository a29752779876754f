// Documents, as they are read item by item.
ghost use Rattle.std.specs.Prelude.{◌≡◌, List, OnOk};
ghost use Rattle.frame_terms.specs.Documents as documents;
ghost use Rattle.frame_terms.specs.{Documents.Folds, declared.document.Taken.Taken};
ghost use Rattle.frame_reader.specs.Reading.{EndsWithin};

use crate::frame::Frame;
use crate::order::{first_of, following, must_open};
use crate::reader::Reader;
use crate::section::lacking;
use dirdoc_grammar::Items;
use frame_terms::{Keyword, ReadRefusal, Taken};
use std::alloc::{AllocError, Global};

/// What is kept of a document of a kind. Its sections are handed over one after the other, in the order in which they end.
pub trait Facts<F: Frame> {
    /// What is kept after a section with these items.
    ghost with: { Self → F.Section → List (Taken F.Value) → Self };

    /// Keeps what a section says.
    ///
    /// # Errors
    /// There was no memory.
    fn close(&mut self, section: F::Section, taken: &[Taken<F::Value>]) -> Result<(), AllocError>
        ensures { OnOk result (self.new ≡ with self.old section taken.now) };
}

/// What is missing where the input ends in a section.
pub fn missing_at_end<F: Frame>(
    frame: F,
    section: F::Section,
    taken: &[Taken<F::Value>],
) -> Option<Keyword>
    ensures { result ≡ documents.missing_at_end (F.tables frame) section taken.now }
{
    first_of(
        lacking(frame.rows(section), taken),
        must_open(frame, following(frame, section)),
    )
}

/// Reads a document, as `read_document` does.
#[tactic(auto, unfolding(frame_terms::specs::Documents::read_items))]
fn read<F: Frame, K: Facts<F>>(
    alloc: Global,
    frame: F,
    items: &mut Items<'_>,
    length: u64,
    facts: &mut K,
) -> Result<u64, ReadRefusal>
    ensures { Folds K.with (F.tables frame) length items.old facts.old facts.new result }
{
    let mut reader = Reader::new(alloc, frame);
    'items: while let Some(item) = items.next()? {
        if let Some(used) = reader.take(alloc, frame, facts, &item)? {
            return Ok(used);
        }
    }
    reader.end(frame, length, facts)
}

/// Reads a document of a kind from the items of an input of so many bytes: keeps what its sections
/// say, and gives the place after it.
///
/// # Errors
/// The first fault of the document, or want of memory. What `facts` has then is of no use: nothing
/// is said of it.
pub fn read_document<F: Frame, K: Facts<F>>(
    alloc: Global,
    frame: F,
    items: &mut Items<'_>,
    length: u64,
    facts: &mut K,
) -> Result<u64, ReadRefusal>
    ensures folds { Folds K.with (F.tables frame) length items.old facts.old facts.new result }
    ensures within { EndsWithin length items.old result }
{
    read(alloc, frame, items, length, facts)
}
