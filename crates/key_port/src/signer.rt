// What signs, with a count of its faults.
ghost use Rattle.std.specs.Prelude.{◌≡◌, Bool, List, ℕ, IfOk};
ghost use Rattle.hex.specs.Hex.{IsBytes};
ghost use Rattle.key_port.specs.{Signing.{CountsSigning, GivesBy}, declared.signer.SignAnswer.SignAnswer};
ghost use Rattle.key_port.specs.declared.verifier.KeyKind.{KeyKind};

use crate::verifier::KeyKind;
use dir_bytes::{Memory, Text};
use std::alloc::Global;

/// What a signer answers.
#[derive(Debug, Drop)]
pub enum SignAnswer {
    /// This is the signature.
    Signed(Text),
    /// The signer failed.
    Fault,
    /// There was no memory for the signature.
    Memory,
}

/// What signs with the private part of a key.
pub trait Signer {
    /// Whether this signature, the last of the four, of a message by a key may be given.
    ghost may_give: { KeyKind → List ℕ → List ℕ → List ℕ → Bool };

    /// How often the signer has failed. The count stands still at the last `u64`.
    ghost faults: { Self → ℕ };

    /// The steps of a signer: from what it was, by what it was asked and what it answered, to what it is.
    ghost steps: { Self → KeyKind → List ℕ → List ℕ → SignAnswer → Self → Type 0 };

    /// The key's signature of the message, of at most 32,766 bytes: so many have room in a key service's line.
    fn sign(&mut self, alloc: Global, kind: KeyKind, key: &[u8], message: &[u8]) -> SignAnswer
        ensures answer { GivesBy (may_give kind key.now message.now) result }
        ensures cause { CountsSigning (faults self.old) (faults self.new) result }
        ensures step { steps self.old kind key.now message.now result self.new };
}

// A signature's text.
pub(crate) fn signature_text(alloc: Global, signature: &[u8]) -> Result<Text, Memory>
    ensures value { IfOk result (λ text. text ≡ signature.now) }
    ensures bytes { IfOk result IsBytes }
{
    Text::copy_of(alloc, signature)
}
