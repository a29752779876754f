// What is kept of a vote.
ghost use Rattle.std.specs.Prelude.{◌≡◌, IfOk};
ghost use Rattle.vote_doc.specs.Kept.{kept_with, none_kept};

use crate::head::{Head, empty_head, with_section};
use frame_reader::Facts;
use frame_terms::Taken;
use frame_values::Value;
use std::alloc::{AllocError, Global};
use vote_entries::Rows;
use vote_frame::{VoteFrame, VoteSection, VoteValue};

/// What is kept of a vote while its sections end, of which the vote is made with its bytes.
#[derive(Debug, Drop)]
pub struct Kept {
    /// What its sections say but the entries.
    pub(crate) head: Head,
    /// What its entries say.
    pub(crate) entries: Rows,
}

impl Facts<VoteFrame> for Kept {
    ghost with = { kept_with };

    fn close(
        &mut self,
        section: VoteSection,
        taken: &[Taken<Value<VoteValue>>],
    ) -> Result<(), AllocError> {
        match section {
            VoteSection::Entry => self.entries.push(taken)?,
            _ => self.head = with_section(self.head, section, taken),
        }
        Ok(())
    }
}

/// What is kept where nothing was read, with room for so many entries.
///
/// # Errors
/// There was no memory.
pub fn nothing_kept(alloc: Global, count: usize) -> Result<Kept, AllocError>
    ensures { IfOk result (λ kept. kept ≡ none_kept) }
{
    Ok(Kept {
        head: empty_head(),
        entries: Rows::with_room(alloc, count)?,
    })
}
