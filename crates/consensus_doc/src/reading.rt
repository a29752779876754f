// Reading a consensus.
ghost use Rattle.std.specs.Prelude.{◌≡◌, ◌<◌, ◌≤◌, ◌^◌, length, IfOk, OnOk};
ghost use Rattle.consensus_terms.specs.Moments.{HasMoments};
ghost use Rattle.dirdoc_grammar.specs.Seen.{seen_item, IsInside};
ghost use Rattle.item_terms.specs.Items.{items_of};
ghost use Rattle.consensus_doc.specs.Keeping as keeping;
ghost use Rattle.consensus_doc.specs.Reading as terms;
ghost use Rattle.consensus_doc.specs.Reading.{ReadsConsensus};

use crate::draft::{Draft, no_draft};
use crate::preamble::preamble_facts;
use crate::router::router_of;
use crate::source::{all_signatures, signed_end, source_of};
use consensus_frame::{ConsensusFrame, ConsensusSection, ConsensusValue};
use consensus_terms::{Flavour, SignedConsensus};
use dir_bytes::Memory;
use dirdoc_grammar::{Item, Items};
use frame_reader::{Facts, read_document};
use frame_terms::{Keyword, ReadRefusal, Taken};
use frame_values::{Value, arguments_of, copy_part_if, place_at, text_if};
use std::alloc::{AllocError, Global};
use std::marker::Model;

/// How many bytes a consensus may have.
const MAX_CONSENSUS: u64 = 67_108_864;

/// A draft, with the bytes that it is of.
#[derive(Drop)]
struct Reader<'a> {
    alloc: Global,
    flavour: Flavour,
    bytes: &'a [u8],
    draft: Draft,
}

impl<'a> Model for Reader<'a> {
    ghost use Rattle.std.specs.Prelude.{length, ◌<◌, ◌^◌};
    ghost use Rattle.consensus_doc.specs.Keeping.{Kept};

    ghost Value = { Kept };

    ghost view = { λ r. record { flavour = r.flavour; bytes = r.bytes.now; draft = r.draft } };

    ghost invariant = { λ r. length r.bytes.now < 2 ^ 62 };
}

impl<'a> Reader<'a> {
    /// What is kept after a preamble.
    fn preamble(&mut self, taken: &[Taken<Value<ConsensusValue>>]) -> Result<(), Memory>
        ensures { OnOk result (self.new ≡ keeping.kept_with_section self.old ConsensusSection.Preamble taken.now) }
    {
        self.draft.facts = preamble_facts(self.alloc, self.bytes, taken)?;
        self.draft.begin = place_at(taken, Keyword::NetworkStatusVersion);
        Ok(())
    }

    /// What is kept after an authority.
    fn source(&mut self, taken: &[Taken<Value<ConsensusValue>>]) -> Result<(), Memory>
        ensures { OnOk result (self.new ≡ keeping.kept_with_section self.old ConsensusSection.Source taken.now) }
    {
        let source = source_of(self.alloc, self.bytes, taken)?;
        self.draft.facts.sources.push(source)?;
        Ok(())
    }

    /// What is kept after a relay.
    fn router(&mut self, taken: &[Taken<Value<ConsensusValue>>]) -> Result<(), Memory>
        ensures { OnOk result (self.new ≡ keeping.kept_with_section self.old ConsensusSection.Router taken.now) }
    {
        let router = router_of(self.alloc, self.flavour, self.bytes, taken)?;
        self.draft.facts.routers.push(router)?;
        Ok(())
    }

    /// What is kept after a footer.
    fn footer(&mut self, taken: &[Taken<Value<ConsensusValue>>]) -> Result<(), Memory>
        ensures { OnOk result (self.new ≡ keeping.kept_with_section self.old ConsensusSection.Footer taken.now) }
    {
        let weights = text_if(taken, Keyword::BandwidthWeights);
        self.draft.weights = copy_part_if(self.alloc, self.bytes, weights)?;
        self.draft.signatures = all_signatures(self.alloc, self.bytes, taken)?;
        self.draft.signed_end = signed_end(taken);
        Ok(())
    }

    /// What is kept after one more section.
    fn section(
        &mut self,
        section: ConsensusSection,
        taken: &[Taken<Value<ConsensusValue>>],
    ) -> Result<(), Memory>
        ensures { OnOk result (self.new ≡ keeping.kept_with_section self.old section taken.now) }
    {
        match section {
            ConsensusSection::Preamble => self.preamble(taken),
            ConsensusSection::Source => self.source(taken),
            ConsensusSection::Router => self.router(taken),
            ConsensusSection::Footer => self.footer(taken),
        }
    }
}

impl<'a> Facts<ConsensusFrame> for Reader<'a> {
    ghost use Rattle.consensus_doc.specs.Keeping.{kept_with_section as keeps};

    ghost with = { keeps };

    fn close(
        &mut self,
        section: ConsensusSection,
        taken: &[Taken<Value<ConsensusValue>>],
    ) -> Result<(), AllocError> {
        match self.section(section, taken) {
            Ok(()) => Ok(()),
            Err(_) => Err(AllocError),
        }
    }
}

/// The flavour that a first item names by its second argument.
fn flavour_of_item(item: &Item<'_>) -> Flavour
    requires { IsInside item.now }
    ensures { result ≡ terms.flavour_of_item (seen_item item.now) }
{
    let mut arguments = arguments_of(item);
    let _ = arguments.next();
    match arguments.next() {
        Some(argument) if argument.text == b"microdesc".as_slice() => Flavour::Microdesc,
        _ => Flavour::Ns,
    }
}

/// The flavour that a document names: microdesc where the second argument of its first item says so, and else ns (dir-spec,
/// "Vote and consensus status document formats"). At most 67,108,864 bytes are looked at.
pub fn flavour_of(bytes: &[u8]) -> Flavour
    requires { length bytes.now < 2 ^ 62 }
    ensures { result ≡ terms.flavour_of (items_of terms.max_consensus bytes.now).items }
{
    match Items::new(bytes, MAX_CONSENSUS).next() {
        Ok(Some(item)) => flavour_of_item(&item),
        _ => Flavour::Ns,
    }
}

/// The range of the signed part, where it ends.
fn signed_range(begin: u64, end: Option<u64>) -> Option<(u64, u64)>
    ensures { result ≡ terms.signed_range begin end }
{
    match end {
        None => None,
        Some(end) => Some((begin, end)),
    }
}

/// The consensus of which this was kept.
fn consensus_in(flavour: Flavour, draft: Draft) -> SignedConsensus
    ensures { result ≡ terms.consensus_in flavour draft }
{
    SignedConsensus {
        flavour,
        facts: draft.facts,
        weights: draft.weights,
        signatures: draft.signatures,
        signed: signed_range(draft.begin, draft.signed_end),
    }
}

/// What is kept of a document of a flavour.
fn draft_of(alloc: Global, flavour: Flavour, bytes: &[u8]) -> Result<(Draft, u64), ReadRefusal>
    requires { length bytes.now < 2 ^ 62 }
    ensures draft { terms.ReadsDraft flavour bytes.now result }
    ensures within { IfOk result (λ kept. kept.1 ≤ length bytes.now) }
    ensures moments { IfOk result (λ kept. HasMoments kept.0.facts) }
{
    let mut items = Items::new(bytes, MAX_CONSENSUS);
    let mut reader = Reader {
        alloc,
        flavour,
        bytes,
        draft: no_draft(alloc),
    };
    let frame = ConsensusFrame { flavour };
    let used = read_document(alloc, frame, &mut items, bytes.len() as u64, &mut reader)?;
    Ok((reader.draft, used))
}

/// The consensus that the bytes are, and how many bytes that are: all, since it ends with them (dir-spec, "Vote and
/// consensus status document formats"). Its flavour is microdesc where the second argument of its first item says so,
/// and else ns. At most 67,108,864 bytes are read.
///
/// # Errors
/// `Frame` is its first fault: what is wrong and at which byte. `Memory` is want of memory.
pub fn read(alloc: Global, bytes: &[u8]) -> Result<(SignedConsensus, usize), ReadRefusal>
    requires { length bytes.now < 2 ^ 62 }
    ensures consensus { ReadsConsensus bytes.now result }
    ensures within { IfOk result (λ read. read.1 ≤ length bytes.now) }
    ensures moments { IfOk result (λ read. HasMoments read.0.facts) }
{
    let flavour = flavour_of(bytes);
    let (draft, used) = draft_of(alloc, flavour, bytes)?;
    Ok((consensus_in(flavour, draft), used as usize))
}
