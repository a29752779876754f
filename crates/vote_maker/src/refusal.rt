// Why no vote is made.
ghost use Rattle.std.specs.Prelude.{◌≡◌};
ghost use Rattle.vote_maker.specs.declared.refusal.MakeRefusal.TheVariants.{Memory as NoMemory};

use authority_certs::CertAnswer;
use dir_bytes::Memory;
use std::alloc::AllocError;

/// Why no vote is made; of several the first.
#[derive(Clone, Copy)]
pub enum MakeRefusal {
    /// The own certificate does not hold when the period begins: neither `Checked` nor `VerifierFault`.
    OwnCert(CertAnswer),
    /// The signer failed.
    SignerFault,
    /// The verifier failed, and nothing is known of the own certificate.
    VerifierFault,
    /// The text would have so many bytes, more than the 16,777,216 that a vote may have.
    TooLong { length: u64 },
    /// There was no memory.
    Memory,
}

impl From<Memory> for MakeRefusal {
    ghost from_gives = { λ _ e. e ≡ NoMemory };

    fn from(_: Memory) -> MakeRefusal {
        MakeRefusal::Memory
    }
}

impl From<AllocError> for MakeRefusal {
    ghost from_gives = { λ _ e. e ≡ NoMemory };

    fn from(_: AllocError) -> MakeRefusal {
        MakeRefusal::Memory
    }
}
