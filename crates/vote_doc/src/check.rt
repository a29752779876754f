// When a vote is acceptable.
ghost use Rattle.std.specs.Prelude.{◌≡◌, ◌≤◌, ◌<◌, Err, IfOk, IfErr};
ghost use Rattle.dir_bytes.specs.Causes.{Rose};
ghost use Rattle.key_port.specs.Answers.{rules};
ghost use Rattle.key_port.specs.declared.verifier.VerifyAnswer.TheVariants as verified;
ghost use Rattle.authority_certs.specs.Checks.{Asks};
ghost use Rattle.vote_terms.specs.Acceptable as acceptable;
ghost use Rattle.vote_terms.specs.{Acceptable.IsAcceptable, Votes.vote_digest};
ghost use Rattle.vote_doc.specs.Checks.{AsksAll, AsksOfRefused, AsksSignature, ChecksCert, ChecksSignature, RefusedBy};

use crate::checked::CheckedVote;
use crate::vote::Vote;
use authority_certs::{CertAnswer, check};
use dir_values::{Algorithm, Digest1, Roster};
use key_port::{KeyKind, Verifier, VerifyAnswer};
use sha1::Sha1;
use sha2::{Digest, Sha256};

/// Why a vote is not acceptable; of several the first.
#[derive(Clone, Copy, Debug, PartialEq, Eq)]
pub enum VoteRefusal {
    /// It is for another period, which begins then, in seconds since 1970-01-01 00:00:00 UTC.
    WrongPeriod { valid_after: u64 },
    /// Its authority is not in the roster.
    UnknownAuthority,
    /// Its certificate does not hold when the period begins: neither `Checked` nor `VerifierFault`. `WrongFingerprint`
    /// also where the certificate is another authority's.
    Cert(CertAnswer),
    /// Its signature names another authority or another key than its certificate, or was refused.
    BadSignature,
    /// The verifier failed, and nothing is known.
    VerifierFault,
}

/// Whether the certificate is the vote's authority's, and holds at a moment.
fn check_certificate<V: Verifier>(vote: &Vote, at: u64, verifier: &mut V) -> CertAnswer
    ensures answer { ChecksCert (rules V.may_accept V.may_refuse) at vote.now result }
    ensures fault { result ≡ CertAnswer.VerifierFault → Rose (V.faults verifier.old) (V.faults verifier.new) }
    ensures faults { V.faults verifier.old ≤ V.faults verifier.new }
    ensures told { V.faults verifier.old < V.faults verifier.new → result ≡ CertAnswer.VerifierFault }
    ensures asked { Asks V.steps vote.now.says.certificate result verifier.old verifier.new }
{
    if !vote.certificate().fingerprint.is_same(&vote.identity()) {
        return CertAnswer::WrongFingerprint;
    }
    check(vote.certificate(), at, verifier)
}

/// Whether the vote's signature names the authority and the signing key of its certificate.
fn names_signer(vote: &Vote) -> bool
    ensures { result ≡ acceptable.names_signer vote.now }
{
    let signature = vote.signature();
    let certificate = vote.certificate();
    let key = Sha1::digest(certificate.signing_key.as_bytes());
    signature.identity.is_same(&certificate.fingerprint) && signature.key_digest.0 == key
}

/// Whether the vote's signature is right, where the digest of its signed part that names the vote is known.
fn check_signature<V: Verifier>(vote: &Vote, digest: &Digest1, verifier: &mut V) -> VerifyAnswer
    requires { digest.now ≡ vote_digest vote.now }
    ensures answer { ChecksSignature (rules V.may_accept V.may_refuse) vote.now result }
    ensures fault { result ≡ VerifyAnswer.Fault → Rose (V.faults verifier.old) (V.faults verifier.new) }
    ensures faults { V.faults verifier.old ≤ V.faults verifier.new }
    ensures told { V.faults verifier.old < V.faults verifier.new → result ≡ VerifyAnswer.Fault }
    ensures asked { AsksSignature V.steps vote.now verifier.old result verifier.new }
{
    if !names_signer(vote) {
        return VerifyAnswer::No;
    }
    let signature = vote.signature();
    let key = vote.certificate().signing_key.as_bytes();
    let bytes = signature.signature.as_bytes();
    match signature.algorithm {
        Algorithm::Sha1 => verifier.verify(KeyKind::Signing, key, &digest.0, bytes),
        Algorithm::Sha256 => {
            let digest = Sha256::digest(vote.signed_part());
            verifier.verify(KeyKind::Signing, key, &digest, bytes)
        }
    }
}

/// The digest that names the vote, if it is acceptable, or the first reason why it is not.
fn digest_if_acceptable<V: Verifier>(
    vote: &Vote,
    roster: &Roster,
    valid_after: u64,
    verifier: &mut V,
) -> Result<Digest1, VoteRefusal>
    ensures digest { IfOk result (λ digest. digest ≡ vote_digest vote.now) }
    ensures accepted { IfOk result (λ _. IsAcceptable (rules V.may_accept V.may_refuse) roster.now valid_after vote.now) }
    ensures refused { IfErr result (λ refusal. RefusedBy (rules V.may_accept V.may_refuse) roster.now valid_after vote.now refusal) }
    ensures fault { IfErr result (λ refusal. refusal ≡ VoteRefusal.VerifierFault → Rose (V.faults verifier.old) (V.faults verifier.new)) }
    ensures faults { V.faults verifier.old ≤ V.faults verifier.new }
    ensures told { V.faults verifier.old < V.faults verifier.new → result ≡ Err VoteRefusal.VerifierFault }
    ensures asked { IfOk result (λ _. AsksAll V.steps vote.now verifier.old verified.Yes verifier.new) }
    ensures refused_asked { IfErr result (λ refusal. AsksOfRefused V.steps vote.now refusal verifier.old verifier.new) }
{
    if vote.valid_after() != valid_after {
        let valid_after = vote.valid_after();
        return Err(VoteRefusal::WrongPeriod { valid_after });
    }
    if !roster.contains(&vote.identity()) {
        return Err(VoteRefusal::UnknownAuthority);
    }
    match check_certificate(vote, valid_after, verifier) {
        CertAnswer::Checked => (),
        CertAnswer::VerifierFault => return Err(VoteRefusal::VerifierFault),
        answer => return Err(VoteRefusal::Cert(answer)),
    }
    let digest = vote.vote_digest();
    match check_signature(vote, &digest, verifier) {
        VerifyAnswer::Yes => Ok(digest),
        VerifyAnswer::No => Err(VoteRefusal::BadSignature),
        VerifyAnswer::Fault => Err(VoteRefusal::VerifierFault),
    }
}

/// The vote as one that was checked, if it is for the period that begins at `valid_after` (seconds since 1970-01-01
/// 00:00:00 UTC), of an authority of the roster, and its certificate and its signature hold then (dir-spec, "Creating key
/// certificates", "Vote and consensus status document formats"). Takes no memory.
///
/// # Errors
/// The first that applies: `WrongPeriod` where it is for another period, `UnknownAuthority` where the roster lacks its
/// authority, `Cert` where its certificate does not hold, `BadSignature` where its signature does not; `VerifierFault`
/// only where the verifier's count of faults rose, and wherever it is greater. The verifier is asked of the certificate's two
/// signatures and then of the vote's, of none behind the first that it does not accept, and of nothing else; it is not asked
/// for `WrongPeriod`, `UnknownAuthority`, and `Cert` of `WrongFingerprint` or `Expired`, nor of a signature that names another
/// authority or key than the certificate.
pub fn check_vote<V: Verifier>(
    vote: Vote,
    roster: &Roster,
    valid_after: u64,
    verifier: &mut V,
) -> Result<CheckedVote<V>, VoteRefusal>
    ensures accepted { IfOk result (λ checked. (checked ≡ vote) × IsAcceptable (rules V.may_accept V.may_refuse) roster.now valid_after vote) }
    ensures refused { IfErr result (λ refusal. RefusedBy (rules V.may_accept V.may_refuse) roster.now valid_after vote refusal) }
    ensures fault { IfErr result (λ refusal. refusal ≡ VoteRefusal.VerifierFault → Rose (V.faults verifier.old) (V.faults verifier.new)) }
    ensures faults { V.faults verifier.old ≤ V.faults verifier.new }
    ensures told { V.faults verifier.old < V.faults verifier.new → result ≡ Err VoteRefusal.VerifierFault }
    ensures asked { IfOk result (λ _. AsksAll V.steps vote verifier.old verified.Yes verifier.new) }
    ensures refused_asked { IfErr result (λ refusal. AsksOfRefused V.steps vote refusal verifier.old verifier.new) }
{
    match digest_if_acceptable(&vote, roster, valid_after, verifier) {
        Ok(digest) => Ok(CheckedVote::new(vote, digest)),
        Err(refusal) => Err(refusal),
    }
}
