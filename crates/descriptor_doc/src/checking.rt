// When a descriptor holds.
ghost use Rattle.std.specs.Prelude.{◌≡◌, ◌≤◌, ◌<◌, Err, IfOk, IfErr};
ghost use Rattle.dir_bytes.specs.Causes.{Rose};
ghost use Rattle.key_port.specs.Answers.{CountsAnswers, rules};
ghost use Rattle.key_port.specs.declared.verifier.VerifyAnswer.TheVariants as verified;
ghost use Rattle.descriptor_doc.specs.Certified as certified;
ghost use Rattle.descriptor_doc.specs.Checks as checks;
ghost use Rattle.descriptor_doc.specs.{Checks.{AsksAll, AsksOfRefused, IsVerified, RefusedBy}, Reading.IsRead};
ghost use Rattle.descriptor_doc.specs.Families as kin;

use crate::checked::CheckedDescriptor;
use crate::descriptor::{Descriptor, EdSignature};
use descriptor_frame::EdCert;
use dir_bytes::Seq;
use dir_values::Fingerprint;
use key_port::{KeyKind, Verifier, VerifyAnswer};

/// Why a descriptor does not hold; of several the first.
#[derive(Clone, Copy, Debug, PartialEq, Eq)]
pub enum DescriptorRefusal {
    /// It names another identity than it has: its fingerprint is not that of its signing key; it has an Ed25519 certificate
    /// without an Ed25519 signature or the other way round; or its Ed25519 identity key is not the certificate's signer.
    IdentityMismatch,
    /// The signing key's signature was refused.
    BadSignature,
    /// The Ed25519 certificate had expired when the descriptor was published, or its signature or the Ed25519 signature of
    /// the descriptor was refused; or a family certificate does not hold.
    BadEdSignature,
    /// The verifier failed, and nothing is known.
    VerifierFault,
}

/// Whether a fingerprint, where there is one, is this identity.
fn is_identity(identity: &Fingerprint, fingerprint: &Option<Fingerprint>) -> bool
    ensures { result ≡ checks.is_identity identity.now fingerprint.now }
{
    match fingerprint {
        None => true,
        Some(fingerprint) => fingerprint.is_same(identity),
    }
}

/// Whether the certificate and the Ed25519 signature stand together or not at all.
fn both_or_neither(certificate: &Option<EdCert>, signature: &Option<EdSignature>) -> bool
    ensures { result ≡ checks.both_or_neither certificate.now signature.now }
{
    match (certificate, signature) {
        (None, None) | (Some(_), Some(_)) => true,
        _ => false,
    }
}

/// Whether a certificate's signer is this key.
fn is_signer(key: &[u8; 32], certificate: &Option<EdCert>) -> bool
    ensures { result ≡ certified.is_signer key.now certificate.now }
{
    match certificate {
        None => false,
        Some(certificate) => certificate.signer == *key,
    }
}

/// Whether the master key, where there is one, is the certificate's signer.
fn is_master(key: &Option<[u8; 32]>, certificate: &Option<EdCert>) -> bool
    ensures { result ≡ checks.is_master key.now certificate.now }
{
    match key {
        None => true,
        Some(key) => is_signer(key, certificate),
    }
}

/// Whether the descriptor names the identities that it has.
fn names_itself(descriptor: &Descriptor) -> bool
    ensures { result ≡ checks.names_itself descriptor.now }
{
    is_identity(&descriptor.identity, &descriptor.fingerprint)
        && both_or_neither(&descriptor.identity_ed25519, &descriptor.router_sig_ed25519)
        && is_master(&descriptor.master_key_ed25519, &descriptor.identity_ed25519)
}

/// Whether a certificate's hours have passed at a moment.
fn has_expired(published: u64, certificate: &EdCert) -> bool
    ensures { result ≡ certified.has_expired published certificate.now }
{
    certificate.expires_hours as u64 * 3600 <= published
}

/// What the verifier says of both Ed25519 signatures, if the certificate has not expired.
fn verify_ed<V: Verifier>(
    published: u64,
    certificate: &EdCert,
    signature: &EdSignature,
    verifier: &mut V,
) -> VerifyAnswer
    ensures answer { checks.AnswersEd (rules V.may_accept V.may_refuse) published certificate.now signature.now result }
    ensures cause { CountsAnswers (V.faults verifier.old) (V.faults verifier.new) result }
    ensures asked { checks.AsksEd V.steps published certificate.now signature.now verifier.old result verifier.new }
{
    if has_expired(published, certificate) {
        return VerifyAnswer::No;
    }
    match verifier.verify(
        KeyKind::Ed25519,
        &certificate.signer,
        certificate.covered.as_bytes(),
        &certificate.signature,
    ) {
        VerifyAnswer::Yes => verifier.verify(
            KeyKind::Ed25519,
            &certificate.key,
            &signature.covered.0,
            &signature.signature,
        ),
        answer => answer,
    }
}

/// What the verifier says of the Ed25519 signatures that there are.
fn verify_ed_if<V: Verifier>(descriptor: &Descriptor, verifier: &mut V) -> VerifyAnswer
    ensures answer { checks.AnswersEdIf (rules V.may_accept V.may_refuse) descriptor.now.published descriptor.now.identity_ed25519 descriptor.now.router_sig_ed25519 result }
    ensures cause { CountsAnswers (V.faults verifier.old) (V.faults verifier.new) result }
    ensures asked { checks.AsksEdIf V.steps descriptor.now.published descriptor.now.identity_ed25519 descriptor.now.router_sig_ed25519 verifier.old result verifier.new }
{
    match (&descriptor.identity_ed25519, &descriptor.router_sig_ed25519) {
        (Some(certificate), Some(signature)) => {
            verify_ed(descriptor.published, certificate, signature, verifier)
        }
        _ => VerifyAnswer::Yes,
    }
}

/// Whether a family certificate is of this Ed25519 identity, and had not expired at a moment.
fn is_of_family(published: u64, certificate: &Option<EdCert>, family: &EdCert) -> bool
    ensures { result ≡ kin.is_of_family published certificate.now family.now }
{
    is_signer(&family.key, certificate) && !has_expired(published, family)
}

/// What the verifier says of the family key's signature, if the family certificate is of this identity and has not expired.
fn verify_family<V: Verifier>(
    published: u64,
    certificate: &Option<EdCert>,
    family: &EdCert,
    verifier: &mut V,
) -> VerifyAnswer
    ensures answer { kin.AnswersFamily (rules V.may_accept V.may_refuse) published certificate.now family.now result }
    ensures cause { CountsAnswers (V.faults verifier.old) (V.faults verifier.new) result }
    ensures asked { kin.AsksFamily V.steps published certificate.now family.now verifier.old result verifier.new }
{
    if !is_of_family(published, certificate, family) {
        return VerifyAnswer::No;
    }
    let covered = family.covered.as_bytes();
    verifier.verify(KeyKind::Ed25519, &family.signer, covered, &family.signature)
}

/// What the verifier says of some family certificates, in their order, up to the first that does not hold.
fn verify_each<V: Verifier>(
    published: u64,
    certificate: &Option<EdCert>,
    families: &[EdCert],
    verifier: &mut V,
) -> VerifyAnswer
    ensures answer { kin.AnswersEach (rules V.may_accept V.may_refuse) published certificate.now families.now result }
    ensures cause { CountsAnswers (V.faults verifier.old) (V.faults verifier.new) result }
    ensures asked { kin.AsksEach V.steps published certificate.now families.now verifier.old result verifier.new }
{
    'families: for family in families {
        match verify_family(published, certificate, family, verifier) {
            VerifyAnswer::Yes => (),
            VerifyAnswer::No => return VerifyAnswer::No,
            VerifyAnswer::Fault => return VerifyAnswer::Fault,
        }
    }
    VerifyAnswer::Yes
}

/// What the verifier says of the family certificates that are said; no, where an item says none that has to.
fn verify_families<V: Verifier>(
    published: u64,
    certificate: &Option<EdCert>,
    families: &Option<Seq<EdCert>>,
    verifier: &mut V,
) -> VerifyAnswer
    ensures answer { kin.AnswersFamilies (rules V.may_accept V.may_refuse) published certificate.now families.now result }
    ensures cause { CountsAnswers (V.faults verifier.old) (V.faults verifier.new) result }
    ensures asked { kin.AsksFamilies V.steps published certificate.now families.now verifier.old result verifier.new }
{
    match families {
        Some(families) => verify_each(published, certificate, families.as_slice(), verifier),
        None => VerifyAnswer::No,
    }
}

/// What the verifier says of the Ed25519 signatures that there are, and where it accepts them of the families.
fn verify_behind<V: Verifier>(descriptor: &Descriptor, verifier: &mut V) -> VerifyAnswer
    ensures answer { checks.AnswersBehind (rules V.may_accept V.may_refuse) descriptor.now result }
    ensures cause { CountsAnswers (V.faults verifier.old) (V.faults verifier.new) result }
    ensures asked { checks.AsksBehind V.steps descriptor.now verifier.old result verifier.new }
{
    match verify_ed_if(descriptor, verifier) {
        VerifyAnswer::Yes => verify_families(
            descriptor.published,
            &descriptor.identity_ed25519,
            &descriptor.family_certs,
            verifier,
        ),
        VerifyAnswer::No => VerifyAnswer::No,
        VerifyAnswer::Fault => VerifyAnswer::Fault,
    }
}

/// The first reason why the descriptor does not hold, if there is one.
fn refusal_of<V: Verifier>(
    descriptor: &Descriptor,
    verifier: &mut V,
) -> Result<(), DescriptorRefusal>
    ensures accepted { IfOk result (λ _. IsVerified (rules V.may_accept V.may_refuse) descriptor.now) }
    ensures refused { IfErr result (λ refusal. RefusedBy (rules V.may_accept V.may_refuse) descriptor.now refusal) }
    ensures fault { IfErr result (λ refusal. refusal ≡ DescriptorRefusal.VerifierFault → Rose (V.faults verifier.old) (V.faults verifier.new)) }
    ensures faults { V.faults verifier.old ≤ V.faults verifier.new }
    ensures told { V.faults verifier.old < V.faults verifier.new → result ≡ Err DescriptorRefusal.VerifierFault }
    ensures asked { IfOk result (λ _. AsksAll V.steps descriptor.now verifier.old verified.Yes verifier.new) }
    ensures refused_asked { IfErr result (λ refusal. AsksOfRefused V.steps descriptor.now refusal verifier.old verifier.new) }
{
    if !names_itself(descriptor) {
        return Err(DescriptorRefusal::IdentityMismatch);
    }
    match verifier.verify(
        KeyKind::Signing,
        descriptor.signing_key.as_bytes(),
        &descriptor.digest.0,
        descriptor.router_signature.as_bytes(),
    ) {
        VerifyAnswer::Yes => (),
        VerifyAnswer::No => return Err(DescriptorRefusal::BadSignature),
        VerifyAnswer::Fault => return Err(DescriptorRefusal::VerifierFault),
    }
    match verify_behind(descriptor, verifier) {
        VerifyAnswer::Yes => Ok(()),
        VerifyAnswer::No => Err(DescriptorRefusal::BadEdSignature),
        VerifyAnswer::Fault => Err(DescriptorRefusal::VerifierFault),
    }
}

/// The descriptor, which was read, as one that was checked, if it holds (dir-spec, "Server descriptor format"): its digest's
/// signature by its signing key, asked as `Signing`; of Ed25519, the certificate's by its signer and the descriptor's by the
/// certified key; and each of its family certificates, which has to be of its Ed25519 identity, by the family key. Takes no
/// memory.
///
/// # Errors
/// The first that applies: `IdentityMismatch` where it names another identity than it has, for which the verifier is not asked;
/// `BadSignature` where its signature was refused; `BadEdSignature` where its Ed25519 certificate had expired when it was
/// published, or one of both Ed25519 signatures was refused, or behind them where one of its items `family-cert` says no family
/// certificate, or one of another identity, or one that had expired then or whose signature was refused; `VerifierFault` only
/// where the verifier's count of faults rose, and wherever it is greater. The verifier is asked in this order, of none behind
/// the first that it does not accept, and of nothing else.
pub fn check<V: Verifier>(
    descriptor: Descriptor,
    verifier: &mut V,
) -> Result<CheckedDescriptor<V>, DescriptorRefusal>
    requires read { IsRead descriptor }
    ensures accepted { IfOk result (λ checked. (checked ≡ descriptor) × IsVerified (rules V.may_accept V.may_refuse) descriptor) }
    ensures refused { IfErr result (λ refusal. RefusedBy (rules V.may_accept V.may_refuse) descriptor refusal) }
    ensures fault { IfErr result (λ refusal. refusal ≡ DescriptorRefusal.VerifierFault → Rose (V.faults verifier.old) (V.faults verifier.new)) }
    ensures faults { V.faults verifier.old ≤ V.faults verifier.new }
    ensures told { V.faults verifier.old < V.faults verifier.new → result ≡ Err DescriptorRefusal.VerifierFault }
    ensures asked { IfOk result (λ _. AsksAll V.steps descriptor verifier.old verified.Yes verifier.new) }
    ensures refused_asked { IfErr result (λ refusal. AsksOfRefused V.steps descriptor refusal verifier.old verifier.new) }
{
    match refusal_of(&descriptor, verifier) {
        Ok(()) => Ok(CheckedDescriptor::new(descriptor)),
        Err(refusal) => Err(refusal),
    }
}
