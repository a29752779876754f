// The test scheme without a fault.
ghost use Rattle.std.specs.Prelude.{◌≡◌, ◌≢◌, IfOk, not};
ghost use Rattle.key_port.specs.Answers.{AnswersBy, CountsAnswers};
ghost use Rattle.key_port.specs.TestScheme as scheme;

use dir_bytes::{Memory, Text};
use key_port::{KeyKind, SignAnswer, Signer, TestKeys, Verifier, VerifyAnswer};
use std::alloc::Global;

/// The signature of a message by a key, by the test scheme.
///
/// # Errors
/// `Memory` is want of memory.
pub(crate) fn signature_by(
    alloc: Global,
    kind: KeyKind,
    key: &[u8],
    message: &[u8],
) -> Result<Text, Memory>
    ensures { IfOk result (λ signature. signature ≡ scheme.test_signature kind key.now message.now) }
{
    let mut keys = TestKeys::new(Vec::new(alloc));
    match keys.sign(alloc, kind, key, message) {
        SignAnswer::Signed(signature) => Ok(signature),
        SignAnswer::Fault => unreachable!(),
        SignAnswer::Memory => Err(Memory),
    }
}

/// The test scheme as a verifier that never fails.
#[derive(Drop)]
pub(crate) struct SureKeys {
    alloc: Global,
}

impl SureKeys {
    /// The test scheme.
    pub(crate) fn new(alloc: Global) -> SureKeys {
        SureKeys { alloc }
    }
}

impl Verifier for SureKeys {
    ghost may_accept = { λ kind key message signature. scheme.is_test_signature kind key message signature };

    ghost may_refuse = { λ kind key message signature. not (scheme.is_test_signature kind key message signature) };

    ghost faults = { λ s. 0 };

    ghost steps = { λ before kind key message signature answer after. after ≡ before };

    fn verify(
        &mut self,
        kind: KeyKind,
        key: &[u8],
        message: &[u8],
        signature: &[u8],
    ) -> VerifyAnswer
        ensures answer { AnswersBy (scheme.is_test_signature kind key.now message.now signature.now) (not (scheme.is_test_signature kind key.now message.now signature.now)) result }
        ensures cause { CountsAnswers 0 0 result }
        ensures step { self.new ≡ self.old }
    {
        let mut keys = TestKeys::new(Vec::new(self.alloc));
        match keys.verify(kind, key, message, signature) {
            VerifyAnswer::Yes => VerifyAnswer::Yes,
            VerifyAnswer::No => VerifyAnswer::No,
            VerifyAnswer::Fault => unreachable!(),
        }
    }
}
