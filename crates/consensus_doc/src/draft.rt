// What is kept of a consensus while it is read.
ghost use Rattle.std.specs.Prelude.{◌≡◌};
ghost use Rattle.consensus_doc.specs.Drafts as drafts;

use crate::preamble::no_facts;
use consensus_terms::{ConsensusFacts, SignatureLine};
use dir_bytes::{Seq, Text};
use std::alloc::Global;

/// What is kept of a consensus while it is read.
#[derive(Debug, Drop)]
pub(crate) struct Draft {
    /// Where the document begins.
    pub begin: u64,
    /// What it says so far.
    pub facts: ConsensusFacts,
    /// The text of its weights.
    pub weights: Option<Text>,
    /// Its signatures.
    pub signatures: Seq<SignatureLine>,
    /// Where its signed part ends.
    pub signed_end: Option<u64>,
}

/// Nothing of a consensus yet.
pub(crate) fn no_draft(alloc: Global) -> Draft
    ensures { result ≡ drafts.no_draft }
{
    Draft {
        begin: 0,
        facts: no_facts(alloc),
        weights: None,
        signatures: Seq::new(Vec::new(alloc)),
        signed_end: None,
    }
}
