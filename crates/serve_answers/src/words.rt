// The reply to each answer of a state and of a pool, and to each reason why an upload is refused.
ghost use Rattle.std.specs.Prelude.{◌≡◌};
ghost use Rattle.serve_answers.specs.Words as words;

use authority_certs::CertAnswer;
use descriptor_doc::DescriptorRefusal;
use http_words::{Reply, Word};
use period_terms::Offer;
use vote_doc::VoteRefusal;
use vote_pool::Keep;

/// The reply to an offered vote.
pub(crate) fn reply_to_offer(offer: &Offer) -> Reply
    ensures { result ≡ words.reply_to_offer offer.now }
{
    match offer {
        Offer::OtherPeriod { .. } => Reply::Refused(Word::OtherPeriod),
        Offer::Stranger { .. } => Reply::Refused(Word::Stranger),
        Offer::Late { .. } => Reply::Refused(Word::Late),
        Offer::Have { .. } => Reply::Done(Word::Have),
        Offer::Older { .. } => Reply::Refused(Word::Older),
        Offer::Full => Reply::Refused(Word::Full),
        Offer::Kept { .. } => Reply::Done(Word::Kept),
        Offer::Replaced { .. } => Reply::Done(Word::Replaced),
    }
}

/// The reply to a descriptor that was kept, or was not.
pub(crate) fn reply_to_keep(keep: &Keep) -> Reply
    ensures { result ≡ words.reply_to_keep keep.now }
{
    match keep {
        Keep::Kept => Reply::Done(Word::Kept),
        Keep::Replaced => Reply::Done(Word::Replaced),
        Keep::Have => Reply::Done(Word::Have),
        Keep::Older { .. } => Reply::Refused(Word::Older),
        Keep::Worn => Reply::Refused(Word::PoolWorn),
        Keep::PoolFull => Reply::Refused(Word::PoolFull),
    }
}

/// The reply where a vote's certificate does not hold.
fn reply_to_cert(answer: &CertAnswer) -> Reply
    ensures { result ≡ words.reply_to_cert answer.now }
{
    match answer {
        CertAnswer::Checked | CertAnswer::VerifierFault => Reply::VerifierFault,
        CertAnswer::WrongFingerprint => Reply::Refused(Word::Fingerprint),
        CertAnswer::Expired { .. } => Reply::Refused(Word::Expired),
        CertAnswer::BadCertification => Reply::Refused(Word::Certification),
        CertAnswer::BadCrosscert => Reply::Refused(Word::Crosscert),
    }
}

/// The reply to a vote that does not hold.
pub(crate) fn reply_to_vote(refusal: &VoteRefusal) -> Reply
    ensures { result ≡ words.reply_to_vote refusal.now }
{
    match refusal {
        VoteRefusal::WrongPeriod { .. } => Reply::Refused(Word::ValidAfter),
        VoteRefusal::UnknownAuthority => Reply::Refused(Word::Authority),
        VoteRefusal::Cert(answer) => reply_to_cert(answer),
        VoteRefusal::BadSignature => Reply::Refused(Word::Signature),
        VoteRefusal::VerifierFault => Reply::VerifierFault,
    }
}

/// The reply to a descriptor that does not hold.
pub(crate) fn reply_to_descriptor(refusal: &DescriptorRefusal) -> Reply
    ensures { result ≡ words.reply_to_descriptor refusal.now }
{
    match refusal {
        DescriptorRefusal::IdentityMismatch => Reply::Refused(Word::Identity),
        DescriptorRefusal::BadSignature => Reply::Refused(Word::Signature),
        DescriptorRefusal::BadEdSignature => Reply::Refused(Word::Ed25519),
        DescriptorRefusal::VerifierFault => Reply::VerifierFault,
    }
}
