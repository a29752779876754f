// How a refusal of a call is told as the command's.
ghost use Rattle.std.specs.Prelude.{◌≡◌};
ghost use Rattle.station_commands.specs.Told as told;

use crate::refusal::{
    CertWord, DescriptorWord, MakeVoteRefusal, OrderWord, PoolRefusal, StationRefusal,
};
use authority_certs::CertAnswer;
use daemon_words::Stop;
use descriptor_doc::DescriptorRefusal;
use frame_terms::FrameFault;
use vote_maker::MakeRefusal;

/// That the station can make no vote.
pub(crate) fn station_stop(why: StationRefusal) -> Stop<MakeVoteRefusal>
    ensures { result ≡ told.station_stop why }
{
    Stop::Refused(MakeVoteRefusal::Station(why))
}

/// That the input does not begin with what a station is given.
pub fn of_fault(stop: Stop<FrameFault>) -> Stop<MakeVoteRefusal>
    ensures { result ≡ told.of_fault stop }
{
    match stop {
        Stop::Refused(fault) => station_stop(StationRefusal::Fault(fault)),
        Stop::Memory => Stop::Memory,
    }
}

/// That what a station is given is out of order.
pub(crate) fn of_order(stop: Stop<OrderWord>) -> Stop<MakeVoteRefusal>
    ensures { result ≡ told.of_order stop }
{
    match stop {
        Stop::Refused(word) => station_stop(StationRefusal::Order(word)),
        Stop::Memory => Stop::Memory,
    }
}

/// That the descriptors make no pool.
pub(crate) fn of_pool(stop: Stop<PoolRefusal>) -> Stop<MakeVoteRefusal>
    ensures { result ≡ told.of_pool stop }
{
    match stop {
        Stop::Refused(PoolRefusal::Fault(fault)) => station_stop(StationRefusal::NoDescriptor(
            fault,
        )),
        Stop::Refused(PoolRefusal::Descriptor { number, word }) => {
            station_stop(StationRefusal::Descriptor { number, word })
        }
        Stop::Refused(PoolRefusal::Full) => station_stop(StationRefusal::PoolFull),
        Stop::Refused(PoolRefusal::Verifier) => Stop::Refused(MakeVoteRefusal::Verifier),
        Stop::Memory => Stop::Memory,
    }
}

/// That the descriptor with this number does not hold, or that the verifier failed at it.
pub(crate) fn descriptor_refused(number: u64, refusal: DescriptorRefusal) -> PoolRefusal
    ensures { result ≡ told.descriptor_refused number refusal }
{
    let word = match refusal {
        DescriptorRefusal::IdentityMismatch => DescriptorWord::Identity,
        DescriptorRefusal::BadSignature => DescriptorWord::Signature,
        DescriptorRefusal::BadEdSignature => DescriptorWord::Ed25519,
        DescriptorRefusal::VerifierFault => return PoolRefusal::Verifier,
    };
    PoolRefusal::Descriptor { number, word }
}

/// The word for the clause that a certificate fails; none where it holds, or the verifier failed.
pub fn cert_word(answer: CertAnswer) -> Option<CertWord>
    ensures { result ≡ told.cert_word answer }
{
    match answer {
        CertAnswer::WrongFingerprint => Some(CertWord::Fingerprint),
        CertAnswer::Expired { .. } => Some(CertWord::Expired),
        CertAnswer::BadCertification => Some(CertWord::Certification),
        CertAnswer::BadCrosscert => Some(CertWord::Crosscert),
        CertAnswer::Checked | CertAnswer::VerifierFault => None,
    }
}

/// That the own certificate does not hold; it is not asked of one that does.
fn cert_refused(answer: CertAnswer) -> MakeVoteRefusal
    ensures { result ≡ told.cert_refused answer }
{
    match cert_word(answer) {
        Some(word) => MakeVoteRefusal::Station(StationRefusal::OwnCert(word)),
        None => MakeVoteRefusal::Verifier,
    }
}

/// Why no vote is made.
pub(crate) fn make_refused(refusal: MakeRefusal) -> Stop<MakeVoteRefusal>
    ensures { result ≡ told.make_refused refusal }
{
    match refusal {
        MakeRefusal::OwnCert(answer) => Stop::Refused(cert_refused(answer)),
        MakeRefusal::SignerFault => Stop::Refused(MakeVoteRefusal::Signer),
        MakeRefusal::VerifierFault => Stop::Refused(MakeVoteRefusal::Verifier),
        MakeRefusal::TooLong { .. } => Stop::Refused(MakeVoteRefusal::MadeVote),
        MakeRefusal::Memory => Stop::Memory,
    }
}
