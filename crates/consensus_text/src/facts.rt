// The canonical text of a consensus that was read.
ghost use Rattle.std.specs.Prelude.{◌≡◌, IfOk};
ghost use Rattle.consensus_terms.specs.{Moments.HasMoments, Signed.signed};
ghost use Rattle.consensus_terms.specs.Texts as texts;
ghost use Rattle.text_page.specs.Pages.{counted_length};

use crate::body::put_facts;
use crate::signed::write_signed;
use consensus_terms::SignedConsensus;
use dir_bytes::Memory;
use std::alloc::Global;
use text_page::Page;

/// How many bytes the text has without signatures.
#[tactic(auto, using(text_page::proofs::Pages::whole))]
fn count(consensus: &SignedConsensus) -> Option<usize>
    requires { HasMoments consensus.now.facts }
    ensures { result ≡ counted_length (texts.facts_text consensus.now) }
{
    let mut page = Page::counting();
    put_facts(&mut page, consensus);
    page.count()
}

/// The text without signatures.
#[tactic(auto, using(text_page::proofs::Pages::whole))]
fn text_of(alloc: Global, consensus: &SignedConsensus) -> Result<Vec<u8>, Memory>
    requires { HasMoments consensus.now.facts }
    ensures { IfOk result (λ text. text.items ≡ texts.facts_text consensus.now) }
{
    let Some(count) = count(consensus) else {
        return Err(Memory);
    };
    let mut room = Vec::new(alloc);
    room.try_reserve(count)?;
    let mut page = Page::filling(room);
    put_facts(&mut page, consensus);
    match page.into_bytes() {
        Some(text) => Ok(text),
        None => unreachable!(),
    }
}

/// The canonical text of a consensus that was read: its items in the order of dir-spec's tables, its signatures ascending
/// by identity, those of one identity in their order.
///
/// # Errors
/// `Memory` is want of memory.
pub fn write_facts(alloc: Global, consensus: &SignedConsensus) -> Result<Vec<u8>, Memory>
    requires { HasMoments consensus.now.facts }
    ensures { IfOk result (λ out. out.items ≡ signed (texts.facts_text consensus.now) consensus.now.signatures) }
{
    let text = text_of(alloc, consensus)?;
    write_signed(alloc, &text, consensus.signatures.as_slice())
}
