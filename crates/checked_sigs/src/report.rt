// What comes of checking detached signatures.
use dir_bytes::Seq;
use frame_terms::FrameFault;
use key_port::Verifier;
use period_terms::CheckedSig;

/// What came of each line of detached signatures.
#[derive(Drop)]
pub struct SigReport<V: Verifier> {
    /// Those that may be held, in the document's order.
    pub checked: Seq<CheckedSig<V>>,
    /// How many were not checked, since nothing is known of them: another flavour, algorithm, authority or key, or no digest.
    pub skipped: u32,
    /// How many were refused.
    pub bad: u32,
}

/// Why no line of detached signatures may be held; of several the first.
#[derive(Clone, Copy)]
pub enum SigRefusal {
    /// The bytes are no detached signatures.
    Document(FrameFault),
    /// They are for another period, which begins then, in seconds since 1970-01-01 00:00:00 UTC.
    WrongPeriod { valid_after: u64 },
    /// The verifier failed, and nothing is known.
    VerifierFault,
    /// There was no memory.
    Memory,
}
