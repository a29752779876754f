// Descriptors that hold by the test scheme, and why others do not.
use crate::descriptors::{
    EMPTY, EXPIRED, LASTS, NO_CERTIFICATE, NO_ED_SIGNATURE, OTHER_ED_SIGNATURE, OTHER_FINGERPRINT,
    OTHER_MASTER_KEY, PLAIN, SIGNED, WHOLE, descriptor_of,
};
use bytes::Bytes;
use descriptor_doc::{DescriptorRefusal, check};
use key_port::TestKeys;
use std::alloc::Global;
use std::test::Fail;

/// Which text.
#[derive(Clone, Copy)]
pub(crate) enum Which {
    Signed,
    Plain,
    Expired,
    Lasts,
    Whole,
    OtherFingerprint,
    OtherMasterKey,
    NoEdSignature,
    NoCertificate,
    Empty,
    OtherEdSignature,
}

pub(crate) fn text_of(which: Which) -> &'static [u8] {
    match which {
        Which::Signed => SIGNED,
        Which::Plain => PLAIN,
        Which::Expired => EXPIRED,
        Which::Lasts => LASTS,
        Which::Whole => WHOLE,
        Which::OtherFingerprint => OTHER_FINGERPRINT,
        Which::OtherMasterKey => OTHER_MASTER_KEY,
        Which::NoEdSignature => NO_ED_SIGNATURE,
        Which::NoCertificate => NO_CERTIFICATE,
        Which::Empty => EMPTY,
        Which::OtherEdSignature => OTHER_ED_SIGNATURE,
    }
}

// Why the descriptor of a text does not hold, where the call of the verifier with this number fails, and how often it failed.
fn refusal(
    alloc: Global,
    text: &'static [u8],
    failing: u64,
) -> Result<(Option<DescriptorRefusal>, u64), Fail> {
    let descriptor = descriptor_of(alloc, &Bytes::from(text))?;
    let mut keys = TestKeys::new([failing].to_vec(alloc)?);
    let answer = check(descriptor, &mut keys).err();
    Ok((answer, keys.faults()))
}

// A text, the number of the call that fails, and the refusal.
const CASES: [(Which, u64, Option<DescriptorRefusal>); 14] = [
    (Which::Signed, 0, None),
    (Which::Plain, 0, None),
    (Which::Lasts, 0, None),
    (Which::Whole, 0, None),
    (Which::Expired, 0, Some(DescriptorRefusal::BadEdSignature)),
    (
        Which::OtherFingerprint,
        0,
        Some(DescriptorRefusal::IdentityMismatch),
    ),
    (
        Which::OtherMasterKey,
        0,
        Some(DescriptorRefusal::IdentityMismatch),
    ),
    (
        Which::NoEdSignature,
        0,
        Some(DescriptorRefusal::IdentityMismatch),
    ),
    (
        Which::NoCertificate,
        0,
        Some(DescriptorRefusal::IdentityMismatch),
    ),
    (Which::Empty, 0, Some(DescriptorRefusal::BadSignature)),
    (
        Which::OtherEdSignature,
        0,
        Some(DescriptorRefusal::BadEdSignature),
    ),
    (Which::Whole, 1, Some(DescriptorRefusal::VerifierFault)),
    (Which::Whole, 2, Some(DescriptorRefusal::VerifierFault)),
    (Which::Whole, 3, Some(DescriptorRefusal::VerifierFault)),
];

#[test]
fn a_descriptor_holds_or_has_its_first_reason(rt: HostRuntime) -> Result<(), Fail> {
    let mut row = 0u32;
    for (which, failing, want) in CASES {
        row = row.wrapping_add(1);
        let faults = if failing == 0 { 0 } else { 1 };
        if refusal(rt.alloc(), text_of(which), failing)? != (want, faults) {
            return Err(Fail::new(row));
        }
    }
    Ok(())
}
