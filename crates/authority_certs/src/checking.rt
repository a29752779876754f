// When a certificate holds.
ghost use Rattle.std.specs.Prelude.{◌≡◌, ◌≤◌, ◌<◌};
ghost use Rattle.dir_bytes.specs.Causes.{Rose};
ghost use Rattle.key_port.specs.Answers.{rules};
ghost use Rattle.authority_certs.specs.Checks.{Asks, Checks};

use crate::cert::Cert;
use dir_values::Fingerprint;
use key_port::{KeyKind, Verifier, VerifyAnswer};
use sha1::Sha1;
use sha2::Digest;

/// What checking a certificate answers; of several the first that applies.
#[derive(Clone, Copy, Debug, PartialEq, Eq)]
pub enum CertAnswer {
    /// It holds.
    Checked,
    /// Its fingerprint is not the SHA-1 of its identity key.
    WrongFingerprint,
    /// It has expired at the moment that was asked for. Both are seconds since 1970-01-01 00:00:00 UTC.
    Expired { at: u64, expires: u64 },
    /// The identity key's signature over it was refused.
    BadCertification,
    /// The signing key's signature over the digest of the identity key was refused.
    BadCrosscert,
    /// The verifier failed, and nothing is known.
    VerifierFault,
}

/// Whether a certificate holds at a moment, in seconds since 1970-01-01 00:00:00 UTC (dir-spec, "Creating key
/// certificates"). Takes no memory.
///
/// `Checked` where its fingerprint is the SHA-1 of its identity key, it expires after the moment, and the verifier
/// accepted the certification and the crosscert; else the first of these that fails. `VerifierFault` only where the
/// verifier's count of faults rose, and wherever it is greater. The verifier is asked of the certification and then of the
/// crosscert, of none behind the first that it does not accept, and of nothing else; for `WrongFingerprint` and `Expired` it
/// is not asked.
pub fn check<V: Verifier>(cert: &Cert, at: u64, verifier: &mut V) -> CertAnswer
    ensures answer { Checks (rules V.may_accept V.may_refuse) at cert.now result }
    ensures fault { result ≡ CertAnswer.VerifierFault → Rose (V.faults verifier.old) (V.faults verifier.new) }
    ensures faults { V.faults verifier.old ≤ V.faults verifier.new }
    ensures told { V.faults verifier.old < V.faults verifier.new → result ≡ CertAnswer.VerifierFault }
    ensures asked { Asks V.steps cert.now result verifier.old verifier.new }
{
    let digest = Sha1::digest(cert.identity_key.as_bytes());
    if !cert.fingerprint.is_same(&Fingerprint(digest)) {
        return CertAnswer::WrongFingerprint;
    }
    let expires = cert.expires;
    if expires <= at {
        return CertAnswer::Expired { at, expires };
    }
    match verifier.verify(
        KeyKind::Identity,
        cert.identity_key.as_bytes(),
        &cert.covered.0,
        cert.certification.as_bytes(),
    ) {
        VerifyAnswer::Yes => (),
        VerifyAnswer::No => return CertAnswer::BadCertification,
        VerifyAnswer::Fault => return CertAnswer::VerifierFault,
    }
    match verifier.verify(
        KeyKind::Signing,
        cert.signing_key.as_bytes(),
        &digest,
        cert.crosscert.as_bytes(),
    ) {
        VerifyAnswer::Yes => CertAnswer::Checked,
        VerifyAnswer::No => CertAnswer::BadCrosscert,
        VerifyAnswer::Fault => CertAnswer::VerifierFault,
    }
}
